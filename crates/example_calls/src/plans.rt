//! Subnets and hosts of a network, and the network after it.
ghost use Rattle.std.specs.Prelude.{◌≡◌, ◌+◌, ◌≤◌, map, IfOk, IfSome, slice_get, option_map};
ghost use Rattle.ipnet.specs.Address.{Address, ipv4_address};
ghost use Rattle.ipnet.specs.Network.{InBlock, AreDisjoint, IsTruncated, IsGreatestOf};
ghost use Rattle.ipnet.specs.NetworkOf.{ipv4_network};
ghost use Rattle.ipnet.specs.NetworkParts.{IsSubnetOfLength, AreSubnetsOfLength};
ghost use Rattle.ipnet.specs.SubnetsLeft.{ipv4_subnets_left};

use ipnet::value_laws::ipv4;
use ipnet::{IpAdd, Ipv4Addr, Ipv4Net, Ipv4Subnets};
use std::alloc::{AllocError, Global};

/// All subnets of the length, ascending.
///
/// The caller ensures that the length is at least the network's own and at most 32. Fails only if memory runs out.
pub fn subnets(alloc: Global, net: &Ipv4Net, prefix_len: u8) -> Result<Vec<Ipv4Net>, AllocError>
    requires no_shorter { (ipv4_network net.now).prefix_len ≤ prefix_len }
    requires fits { prefix_len ≤ 32 }
    ensures { IfOk result (λ list.
        AreSubnetsOfLength (ipv4_network net.now) prefix_len (map ipv4_network list.items)) }
{
    match net.subnets(prefix_len) {
        Ok(walk) => walk.collect(alloc),
        Err(_) => Ok(Vec::new(alloc)),
    }
}

/// The network at this place of the walk, counted from 0.
pub fn nth_of_walk(walk: Ipv4Subnets, place: usize) -> Option<Ipv4Net>
    ensures { option_map ipv4_network result ≡ slice_get (ipv4_subnets_left walk) place }
{
    let mut rest = walk;
    let answer = rest.nth(place);
    ipv4::nth_is_at_its_place(&walk, place, &answer, &rest);
    answer
}

/// The subnet of the length at this place, counted from 0; `None` if there are fewer, or the length does not fit.
pub fn nth_subnet(net: &Ipv4Net, prefix_len: u8, place: usize) -> Option<Ipv4Net>
    ensures { IfSome result (λ n. IsSubnetOfLength (ipv4_network net.now) prefix_len (ipv4_network n)) }
{
    let walk = net.subnets(prefix_len).ok()?;
    let mut rest = walk;
    let answer = rest.nth(place);
    ipv4::nth_subnet_has_its_length(net, &walk, place, &answer, &rest);
    answer
}

/// The network of the same length that begins after the last address; `None` if that is the last address of all.
pub fn next_network(net: &Ipv4Net) -> Option<Ipv4Net>
    ensures after { IfSome result (λ n. (last : Address) → IsGreatestOf (ipv4_network net.now) last
        → (ipv4_network n).number ≡ last.number + 1) }
    ensures length { IfSome result (λ n. (ipv4_network n).prefix_len ≡ (ipv4_network net.now).prefix_len) }
    ensures truncated { IfSome result (λ n. IsTruncated (ipv4_network n)) }
    ensures apart { IfSome result (λ n. AreDisjoint (ipv4_network net.now) (ipv4_network n)) }
{
    let last = net.broadcast();
    if last.to_bits() == u32::MAX {
        return None;
    }
    let next = Ipv4Net::new_assert(last.saturating_add(1), net.prefix_len());
    ipv4::next_network_begins_a_block(net, &last, &next);
    Some(next)
}

/// The address of this number.
pub fn address_of(number: u32) -> Ipv4Addr
    ensures { (ipv4_address result).number ≡ number }
{
    let address = Ipv4Addr::from_bits(number);
    ipv4::address_has_its_number(address, number);
    address
}

/// The first host of the network, which lies in its block.
pub fn first_host(net: &Ipv4Net) -> Option<Ipv4Addr>
    ensures { IfSome result (λ a. InBlock (ipv4_network net.now) (ipv4_address a)) }
{
    let hosts = net.hosts();
    ipv4::hosts_lie_in_the_block(net, &hosts);
    hosts.min()
}
