//! Single calls of `next` with full contracts, and code that is generic over iterators.
//!
//! Facts that are in no call's contract are laws: functions that do nothing. Call a law to use its fact.
ghost use Rattle.std.specs.Prelude.{◌≡◌, ◌<◌, ◌↔◌, ◌+◌, length, IfSome, IfNone, IsNone, option_map};
ghost use Rattle.std.specs.Iterator.{YieldsFirstBy, IsFinite};
ghost use Rattle.ipnet.specs.Address.{Address, IPv4, ipv4_address, ip_address};
ghost use Rattle.ipnet.specs.Network.{IsGreatestOf};
ghost use Rattle.ipnet.specs.Ranges.{IsNext, IsNextBack};
ghost use Rattle.ipnet.specs.RangeOf.{ipv4_range, ip_range};
ghost use Rattle.ipnet.specs.Subnets.{IsLargestSubnetAt, IsAdvancedPast};
ghost use Rattle.ipnet.specs.NetworkOf.{ipv4_network, ip_network};
ghost use Rattle.ipnet.specs.SubnetsLeft.{IsWalkOf, ipv4_subnet_range, ipv4_subnets_left};
ghost use Rattle.ipnet.specs.SubnetsLeft.{ip_subnet_range, ip_subnets_left};

use ipnet::subnets::walk_laws::{ip_walk_is_of_its_range, ipv4_walk_is_of_its_range};
use ipnet::{IpAddr, IpAddrRange, IpNet, IpSubnets, Ipv4Addr, Ipv4AddrRange, Ipv4Net, Ipv4Subnets};

/// The next network of a walk: the first of its list and the largest at its start. The contract also gives the rest of
/// the walk.
pub fn ipv4_next_network(walk: &mut Ipv4Subnets) -> Option<Ipv4Net>
    ensures steps { YieldsFirstBy ipv4_network ipv4_subnets_left walk.old result walk.new }
    ensures largest { let range = ipv4_subnet_range walk.old in
        IfSome result (λ n. IsLargestSubnetAt IPv4 range.start range.end range.min_prefix_len (ipv4_network n)) }
    ensures advanced { IfSome result (λ n. (x : Address) → IsGreatestOf (ipv4_network n) x
        → IsAdvancedPast x.number (ipv4_subnet_range walk.old) (ipv4_subnet_range walk.new)) }
    ensures walk { IsWalkOf (ipv4_subnet_range walk.old) (ipv4_subnets_left walk.old) }
    ensures over { IsNone result ↔ ((ipv4_subnet_range walk.old).end < (ipv4_subnet_range walk.old).start) }
    ensures unchanged { IfNone result (walk.new ≡ walk.old) }
{
    ipv4_walk_is_of_its_range(*walk);
    walk.next()
}

/// The next network of a walk of either family.
pub fn ip_next_network(walk: &mut IpSubnets) -> Option<IpNet>
    ensures steps { YieldsFirstBy ip_network ip_subnets_left walk.old result walk.new }
    ensures largest { let range = ip_subnet_range walk.old in
        IfSome result (λ n. IsLargestSubnetAt range.family range.start range.end range.min_prefix_len (ip_network n)) }
    ensures walk { IsWalkOf (ip_subnet_range walk.old) (ip_subnets_left walk.old) }
    ensures unchanged { IfNone result (walk.new ≡ walk.old) }
{
    ip_walk_is_of_its_range(*walk);
    walk.next()
}

/// The next network, by the method's path in the trait.
pub fn ipv4_next_by_trait_name(walk: &mut Ipv4Subnets) -> Option<Ipv4Net>
    ensures steps { YieldsFirstBy ipv4_network ipv4_subnets_left walk.old result walk.new }
    ensures unchanged { IfNone result (walk.new ≡ walk.old) }
{
    Iterator::next(walk)
}

/// The network after the next one. If both exist, the walk has two fewer networks left.
pub fn ipv4_second_network(walk: &mut Ipv4Subnets) -> Option<Ipv4Net>
    ensures two { IfSome result (λ _.
        length (ipv4_subnets_left walk.old) ≡ length (ipv4_subnets_left walk.new) + 2) }
{
    walk.next()?;
    walk.next()
}

/// The next address of a range, and the stored ends after it.
pub fn ipv4_next_address(range: &mut Ipv4AddrRange) -> Option<Ipv4Addr>
    ensures ends { IsNext (ipv4_range range.old) (option_map ipv4_address result) (ipv4_range range.new) }
{
    range.next()
}

/// The last address of a range of either family, and the stored ends after it.
pub fn ip_next_address_from_the_back(range: &mut IpAddrRange) -> Option<IpAddr>
    ensures ends { IsNextBack (ip_range range.old) (option_map ip_address result) (ip_range range.new) }
{
    range.next_back()
}

/// The next item of any iterator over networks. All that is known about it is the iterator's contract of `next`.
pub fn next_of<I: Iterator<Item = Ipv4Net>>(networks: &mut I) -> Option<Ipv4Net>
    requires { I.can_next networks.old }
    ensures { I.next_gives networks.old result networks.new }
{
    networks.next()
}

/// The next network of a walk, by code that is generic over iterators: the first of the walk's list.
pub fn ipv4_next_by_bound(walk: &mut Ipv4Subnets) -> Option<Ipv4Net>
    ensures steps { YieldsFirstBy ipv4_network ipv4_subnets_left walk.old result walk.new }
{
    next_of(walk)
}

/// The longest prefix length of all items of an iterator: a loop over any iterator that ends.
pub fn longest_prefix_of<I: Iterator<Item = Ipv4Net>>(networks: I) -> u8
    requires can { I.can_next networks }
    requires ends { IsFinite (I.remaining networks) }
{
    let mut longest = 0;
    for network in networks {
        longest = longest.max(network.prefix_len());
    }
    longest
}

/// The longest prefix length in a walk, by code that is generic over iterators.
pub fn ipv4_longest_prefix_by_bound(walk: Ipv4Subnets) -> u8 {
    longest_prefix_of(walk)
}
