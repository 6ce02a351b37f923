//! The cells of a map: which of them have an address of a set, and which have only addresses of it.
ghost use Rattle.std.specs.Prelude.{◌≡◌, ◌↔◌, IfOk};
ghost use Rattle.ipnet_base.specs.Address.{Address};
ghost use Rattle.ipnet.specs.NetworkOf.{ip_network};
ghost use Rattle.ipnet_sets.specs.Members.{IsMember};
ghost use Rattle.ipnet_bars.specs.Parts.{HasSome, HasAll};
ghost use Rattle.ipnet_maps.specs.Cells.{IsInCell, widened};

use ipnet::IpNet;
use ipnet_sets::{IpSet, IpSetBuilder};
use std::alloc::{AllocError, Global};

/// The network itself, or the cell in which it is, if it is smaller than a cell.
pub(crate) fn widened_to(network: &IpNet, cell_len: u8) -> IpNet
    ensures { ip_network result ≡ widened (ip_network network.now) cell_len }
{
    IpNet::new_assert(network.addr(), network.prefix_len().min(cell_len))
}

/// Returns the addresses of the cells that have an address of the set. A cell is a network with the prefix length
/// `cell_len`. Fails only if memory runs out.
///
/// ```text
/// of 10.0.0.9-10.0.1.3 with cells of length 24: 10.0.0.0-10.0.1.255
/// ```
pub fn cells_with_some(alloc: Global, set: &IpSet, cell_len: u8) -> Result<IpSet, AllocError>
    ensures { IfOk result (λ cells. (x : Address)
        → IsMember cells x ↔ IsInCell cell_len (HasSome (IsMember set.now)) x) }
{
    let mut cells = IpSetBuilder::new(alloc);
    for network in set.iter_networks() {
        let cell = widened_to(&network, cell_len);
        cells.push_network(&cell)?;
    }
    cells.into_set(alloc)
}

/// Returns the addresses of the cells that have only addresses of the set. A cell is a network with the prefix length
/// `cell_len`. Fails only if memory runs out.
///
/// ```text
/// of 10.0.0.9-10.0.3.3 with cells of length 24: 10.0.1.0-10.0.2.255
/// ```
pub fn cells_with_all(alloc: Global, set: &IpSet, cell_len: u8) -> Result<IpSet, AllocError>
    ensures { IfOk result (λ cells. (x : Address)
        → IsMember cells x ↔ IsInCell cell_len (HasAll (IsMember set.now)) x) }
{
    let some = cells_with_some(alloc, set, cell_len)?;
    let missing = some.difference(alloc, set)?;
    let incomplete = cells_with_some(alloc, &missing, cell_len)?;
    some.difference(alloc, &incomplete)
}
