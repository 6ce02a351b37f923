//! Sets and tables that were stored: whether a set fits into a block, and a table that is read back.
ghost use Rattle.std.specs.Prelude.{◌≡◌, IsTrue, IfOk};
ghost use Rattle.ipnet.specs.Address.{Address, IPv4};
ghost use Rattle.ipnet.specs.Network.{InBlock};
ghost use Rattle.ipnet.specs.NetworkOf.{ipv4_network};
ghost use Rattle.ipnet_sets.specs.Members.{IsMemberOf};
ghost use Rattle.ipnet_routes.specs.RoutesOf.{routes_of};

use ipnet::Ipv4Net;
use ipnet_routes::RouteTable;
use ipnet_routes::routes::laws::a_table_has_one_image;
use ipnet_sets::IpSet;
use std::alloc::{AllocError, Global};

/// Returns true only if all IPv4 addresses of the set are in the block.
///
/// ```text
/// 10.1.0.0/16 and 10.2.0.0/16 fit into 10.0.0.0/8, and not into 10.0.0.0/15
/// ```
pub fn fits_in(addresses: &IpSet, block: &Ipv4Net) -> bool
    ensures { IsTrue result → (x : Address) → IsMemberOf IPv4 addresses.now x → InBlock (ipv4_network block.now) x }
{
    match addresses.ipv4_supernet() {
        Some(around) => block.contains(&around),
        None => true,
    }
}

/// Returns the table that was written and read again. Fails if memory runs out, and if there are 2^32 routes or more.
///
/// ```text
/// of the table of 10.0.0.0/8 with 7: the table of 10.0.0.0/8 with 7
/// ```
pub fn restored(alloc: Global, table: &RouteTable<u32>) -> Result<RouteTable<u32>, AllocError>
    ensures { IfOk result (λ copy. routes_of copy ≡ routes_of table.now) }
{
    a_table_has_one_image();
    let image = table.to_bytes(alloc)?;
    RouteTable::from_bytes(alloc, image.as_slice()).map_err(|_| AllocError)
}
