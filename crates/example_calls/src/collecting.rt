//! Walks and ranges as lists: `collect` returns exactly the list of the walk or range.
//!
//! Each function fails only when memory runs out.
ghost use Rattle.std.specs.Prelude.{◌≡◌, ◌≤◌, length, map, reverse, IfOk};
ghost use Rattle.ipnet.specs.Address.{ipv4_address, ipv6_address, ip_address};
ghost use Rattle.ipnet.specs.Ranges.{AddressRange, addresses_of};
ghost use Rattle.ipnet.specs.RangeOf.{ipv4_addresses, ipv6_addresses, ip_addresses};
ghost use Rattle.ipnet.specs.NetworkParts.{AreSubnetsOfLength, IsHostRange};
ghost use Rattle.ipnet.specs.NetworkOf.{ipv4_network, ipv6_network, ip_network};
ghost use Rattle.ipnet.specs.SubnetsLeft.{ipv4_subnets_left, ipv6_subnets_left, ip_subnets_left};

use ipnet::{
    IpAddr, IpAddrRange, IpNet, IpSubnets, Ipv4Addr, Ipv4AddrRange, Ipv4Net, Ipv4Subnets, Ipv6Addr,
    Ipv6AddrRange, Ipv6Net, Ipv6Subnets,
};
use std::alloc::{AllocError, Global};

/// All remaining networks of the walk, in order.
pub fn ipv4_networks(alloc: Global, walk: Ipv4Subnets) -> Result<Vec<Ipv4Net>, AllocError>
    ensures all { IfOk result (λ list. map ipv4_network list.items ≡ ipv4_subnets_left walk) }
{
    walk.collect(alloc)
}

/// All remaining networks of an IPv6 walk, in order.
pub fn ipv6_networks(alloc: Global, walk: Ipv6Subnets) -> Result<Vec<Ipv6Net>, AllocError>
    ensures all { IfOk result (λ list. map ipv6_network list.items ≡ ipv6_subnets_left walk) }
{
    walk.collect(alloc)
}

/// All remaining networks of a walk of either family, in order.
pub fn ip_networks(alloc: Global, walk: IpSubnets) -> Result<Vec<IpNet>, AllocError>
    ensures all { IfOk result (λ list. map ip_network list.items ≡ ip_subnets_left walk) }
{
    walk.collect(alloc)
}

/// The first networks of the walk, at most the requested number.
pub fn ipv4_first_networks(
    alloc: Global,
    walk: Ipv4Subnets,
    count: usize,
) -> Result<Vec<Ipv4Net>, AllocError>
    ensures at_most { IfOk result (λ list. length list.items ≤ count) }
{
    walk.take(count).collect(alloc)
}

/// The prefix lengths of the remaining networks of the walk, by `map`.
pub fn ipv4_prefix_lengths(alloc: Global, walk: Ipv4Subnets) -> Result<Vec<u8>, AllocError>
    ensures one_for_each { IfOk result (λ list. length list.items ≡ length (ipv4_subnets_left walk)) }
{
    walk.map(|subnet| subnet.prefix_len()).collect(alloc)
}

/// All subnets of this length of the network, ascending.
///
/// The caller must ensure that the length is at least the network's prefix length, and at most 32.
pub fn ipv4_subnets(
    alloc: Global,
    network: &Ipv4Net,
    prefix_len: u8,
) -> Result<Vec<Ipv4Net>, AllocError>
    requires no_shorter { (ipv4_network network.now).prefix_len ≤ prefix_len }
    requires fits { prefix_len ≤ 32 }
    ensures all { IfOk result (λ list.
        AreSubnetsOfLength (ipv4_network network.now) prefix_len (map ipv4_network list.items)) }
{
    match network.subnets(prefix_len) {
        Ok(walk) => walk.collect(alloc),
        Err(_) => Ok(Vec::new(alloc)),
    }
}

/// All addresses of the range, ascending.
pub fn ipv4_range_addresses(
    alloc: Global,
    range: Ipv4AddrRange,
) -> Result<Vec<Ipv4Addr>, AllocError>
    ensures all { IfOk result (λ list. map ipv4_address list.items ≡ ipv4_addresses range) }
{
    range.collect(alloc)
}

/// All addresses of an IPv6 range, ascending.
pub fn ipv6_range_addresses(
    alloc: Global,
    range: Ipv6AddrRange,
) -> Result<Vec<Ipv6Addr>, AllocError>
    ensures all { IfOk result (λ list. map ipv6_address list.items ≡ ipv6_addresses range) }
{
    range.collect(alloc)
}

/// All addresses of a range of either family, ascending.
pub fn ip_range_addresses(alloc: Global, range: IpAddrRange) -> Result<Vec<IpAddr>, AllocError>
    ensures all { IfOk result (λ list. map ip_address list.items ≡ ip_addresses range) }
{
    range.collect(alloc)
}

/// All addresses of the range, descending.
pub fn ipv4_addresses_from_the_back(
    alloc: Global,
    range: Ipv4AddrRange,
) -> Result<Vec<Ipv4Addr>, AllocError>
    ensures all { IfOk result (λ list. map ipv4_address list.items ≡ reverse (ipv4_addresses range)) }
{
    range.rev().collect(alloc)
}

/// All hosts of the network, ascending.
pub fn ipv4_hosts(alloc: Global, network: &Ipv4Net) -> Result<Vec<Ipv4Addr>, AllocError>
    ensures all { IfOk result (λ list. (hosts : AddressRange)
        × IsHostRange (ipv4_network network.now) hosts × (map ipv4_address list.items ≡ addresses_of hosts)) }
{
    network.hosts().collect(alloc)
}
