//! The image of a table, written: its header, its routes with their links, and its index.
ghost use Rattle.std.specs.Prelude.{◌≡◌, ℕ, ◌^◌, ◌<◌, ◌≤◌, length, map, All, IfOk, OnOk};
ghost use Rattle.ipnet.specs.NetworkOf.{ip_network};
ghost use Rattle.ipnet_routes.specs.Routes.{ip_routes, ip_networks};
ghost use Rattle.ipnet_routes.specs.RouteSteps.{IsTable, AreLinks};
ghost use Rattle.ipnet_routes.specs.TableImages.{AreRowsAdded, AreFirstIpv4, AreStarts, IsTableWritten};

use super::buckets::Buckets;
use super::rows::append_row;
use crate::routes::index::Bucket;
use crate::routes::place_of;
use ipnet::{IpNet, Ipv6Addr, Ipv6Net};
use ipnet_sets::{append_u32s, append_u64};
use std::alloc::{AllocError, Global};

/// The version of the format.
pub(super) const VERSION: u64 = 1;

/// Returns how many of the routes, which are in order, are IPv4 routes: the place of ::/0.
fn ipv4_count(routes: &[(IpNet, u32)]) -> usize
    requires { IsTable (ip_networks routes.now) }
    ensures within { result ≤ length routes.now }
    ensures first { AreFirstIpv4 (ip_networks routes.now) result }
{
    let all = Bucket {
        start: 0,
        end: routes.len(),
    };
    let first = IpNet::V6(Ipv6Net::new_assert(Ipv6Addr::from_bits(0), 0));
    place_of(routes, all, &first)
}

/// Returns the index of the first route, from this one on, whose network is not before the given one.
fn first_from(routes: &[(IpNet, u32)], from: usize, network: &IpNet) -> usize {
    for index in from..routes.len() {
        if *network <= routes[index].0 {
            return index;
        }
    }
    routes.len()
}

/// Returns the index of the routes: for each bucket the place of its first network.
fn starts(alloc: Global, routes: &[(IpNet, u32)], buckets: Buckets) -> Result<Vec<u32>, AllocError>
    requires table { IsTable (ip_networks routes.now) }
    requires few { length routes.now < 2 ^ 32 }
    ensures { IfOk result (λ starts. AreStarts (ip_networks routes.now) buckets.ipv4_bits buckets.ipv6_bits
        starts.items) }
{
    let mut starts = Vec::with_capacity(alloc, buckets.entries())?;
    let mut place = 0;
    for bucket in 0..buckets.entries() {
        let network = buckets.start_of(bucket);
        let near = first_from(routes, place, &network);
        place = place_of(
            routes,
            Bucket {
                start: near,
                end: near,
            },
            &network,
        );
        starts.push(place as u32)?;
    }
    Ok(starts)
}

/// Appends the routes and their links.
fn append_rows(
    bytes: &mut Vec<u8>,
    routes: &[(IpNet, u32)],
    links: &[usize],
) -> Result<(), AllocError>
    requires all { length links.now ≡ length routes.now }
    requires few { All (λ link. link < 2 ^ 32) links.now }
    ensures { OnOk result ((ipv4 : ℕ) → AreFirstIpv4 (ip_networks routes.now) ipv4
        → AreRowsAdded (ip_routes routes.now) links.now ipv4 bytes.old.items bytes.new.items) }
{
    for index in 0..routes.len() {
        let route = routes[index];
        append_row(bytes, &route.0, route.1, links[index])?;
    }
    Ok(())
}

/// Returns the image of the table with these routes, which begins with this number. Fails if memory runs out, and if
/// there are 2^32 routes or more.
pub(super) fn table_bytes(
    alloc: Global,
    magic: u64,
    routes: &[(IpNet, u32)],
    links: &[usize],
) -> Result<Vec<u8>, AllocError>
    requires table { IsTable (ip_networks routes.now) }
    requires links { AreLinks (ip_networks routes.now) links.now }
    requires all { length links.now ≡ length routes.now }
    ensures { IfOk result (λ bytes. IsTableWritten magic (ip_routes routes.now) bytes.items) }
{
    if routes.len() >= 0x1_0000_0000 {
        return Err(AllocError);
    }
    let ipv4 = ipv4_count(routes);
    let ipv6 = routes.len() - ipv4;
    let starts = starts(alloc, routes, Buckets::new(ipv4, ipv6))?;
    let mut bytes = Vec::new(alloc);
    append_u64(&mut bytes, magic)?;
    append_u64(&mut bytes, VERSION)?;
    append_u64(&mut bytes, ipv4 as u64)?;
    append_u64(&mut bytes, ipv6 as u64)?;
    append_rows(&mut bytes, routes, links)?;
    append_u32s(&mut bytes, starts.as_slice())?;
    Ok(bytes)
}
