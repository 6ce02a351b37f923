//! Laws of given IPv6 networks: a caller passes the values, and may use the fact about them afterwards.
ghost use Rattle.std.specs.Prelude.{◌≡◌, ◌+◌, ◌<◌, ◌≤◌, ◌⊎◌, ◌↔◌, ℕ, map, drop, slice_get, option_map};
ghost use Rattle.std.specs.Prelude.{Contains, IfSome};
ghost use Rattle.std.specs.Iterator.{SkipsThenYields};
ghost use Rattle.std.specs.Net.Addr.{ipv6_bits, IsIpv6OfBits};
ghost use Rattle.ipnet_base.specs.Address.{Address, IsBetween, ipv6_address};
ghost use Rattle.ipnet_base.specs.Network.{Network, IsNetwork, InBlock, IsSubnetOf, AreDisjoint, IsTruncated};
ghost use Rattle.ipnet_base.specs.Network.{IsLeastOf, IsGreatestOf, IsSupernetOf};
ghost use Rattle.ipnet_base.specs.Blocks.{IsCoveredBy, HaveSameCover, IsAggregateOf, AreAggregatedNeighbours};
ghost use Rattle.ipnet_base.specs.RangeOf.{ipv6_range, ipv6_addresses};
ghost use Rattle.ipnet.specs.NetworkOf.{ipv6_network};
ghost use Rattle.ipnet.specs.NetworkParts.{own_address, IsHostRange, IsSubnetOfLength, AreSubnetsOfLength};
ghost use Rattle.ipnet.specs.SubnetsLeft.{ipv6_subnets_left};

use crate::net::Ipv6Net;
use crate::subnets::Ipv6Subnets;
use ipnet_base::{Ipv6Addr, Ipv6AddrRange};

/// The networks are nested or share no address; they share an address if and only if one contains the other.
pub fn nested_or_disjoint(net: &Ipv6Net, other: &Ipv6Net)
    ensures cases { let n = ipv6_network net.now in let k = ipv6_network other.now in
        IsSubnetOf n k ⊎ (IsSubnetOf k n ⊎ AreDisjoint n k) }
    ensures overlap { let n = ipv6_network net.now in let k = ipv6_network other.now in
        ¬ (AreDisjoint n k) ↔ (IsSubnetOf n k ⊎ IsSubnetOf k n) }
{}

/// The network's own address lies in its block.
pub fn own_address_lies_in_the_block(net: &Ipv6Net)
    ensures { InBlock (ipv6_network net.now) (own_address (ipv6_network net.now)) }
{}

/// The other network lies in `net` if and only if its prefix is at least as long and its own address lies there.
pub fn subnets_are_found_by_their_own_address(net: &Ipv6Net, other: &Ipv6Net)
    ensures { let n = ipv6_network net.now in let k = ipv6_network other.now in
        IsSubnetOf k n ↔ ((n.prefix_len ≤ k.prefix_len) × InBlock n (own_address k)) }
{}

/// A block has one least address: any other that is least is the same address.
pub fn least_address_is_one(net: &Ipv6Net, first: &Ipv6Addr)
    ensures { IsLeastOf (ipv6_network net.now) (ipv6_address first.now)
        → (x : Address) → IsLeastOf (ipv6_network net.now) x → x ≡ ipv6_address first.now }
{}

/// A block has one greatest address: any other that is greatest is the same address.
pub fn greatest_address_is_one(net: &Ipv6Net, last: &Ipv6Addr)
    ensures { IsGreatestOf (ipv6_network net.now) (ipv6_address last.now)
        → (x : Address) → IsGreatestOf (ipv6_network net.now) x → x ≡ ipv6_address last.now }
{}

/// A block contains every address of its family from its least to its greatest, and no other address.
pub fn block_lies_between_its_ends(net: &Ipv6Net, first: &Ipv6Addr, last: &Ipv6Addr)
    ensures { IsLeastOf (ipv6_network net.now) (ipv6_address first.now)
        → IsGreatestOf (ipv6_network net.now) (ipv6_address last.now)
        → (x : Address) → InBlock (ipv6_network net.now) x
        ↔ IsBetween (ipv6_network net.now).family (ipv6_address first.now).number (ipv6_address last.now).number x }
{}

/// The supernet is the next wider network. It lies in each network that contains `net` and has a shorter prefix, and in
/// each that contains both `net` and some network outside `net`.
pub fn supernet_is_the_next_wider(net: &Ipv6Net, supernet: &Ipv6Net)
    ensures wider { let n = ipv6_network net.now in let s = ipv6_network supernet.now in IsSupernetOf s n
        → (k : Network) → IsNetwork k → IsSubnetOf n k → k.prefix_len < n.prefix_len → IsSubnetOf s k }
    ensures common { let n = ipv6_network net.now in let s = ipv6_network supernet.now in IsSupernetOf s n
        → (m k : Network) → IsNetwork k → ¬ (IsSubnetOf m n) → IsSubnetOf n k → IsSubnetOf m k → IsSubnetOf s k }
{}

/// Each host of the network lies in its block: each address that the range lists, and each between its two ends.
pub fn hosts_lie_in_the_block(net: &Ipv6Net, hosts: &Ipv6AddrRange)
    ensures listed { IsHostRange (ipv6_network net.now) (ipv6_range hosts.now)
        → (x : Address) → Contains (ipv6_addresses hosts.now) x → InBlock (ipv6_network net.now) x }
    ensures between { let range = ipv6_range hosts.now in IsHostRange (ipv6_network net.now) range
        → (x : Address) → IsBetween range.family range.start range.end x → InBlock (ipv6_network net.now) x }
{}

/// The network is one of the subnets that the walk lists if and only if it has their length and lies in `net`, and has
/// no host bit.
pub fn subnets_have_their_length(net: &Ipv6Net, subnets: &Ipv6Subnets, subnet: &Ipv6Net)
    ensures { (prefix_len : ℕ) → AreSubnetsOfLength (ipv6_network net.now) prefix_len (ipv6_subnets_left subnets.now)
        → Contains (ipv6_subnets_left subnets.now) (ipv6_network subnet.now)
        ↔ IsSubnetOfLength (ipv6_network net.now) prefix_len (ipv6_network subnet.now) }
{}

/// `nth` of a walk returns the network at that place of its list, counted from 0, and leaves those after it.
pub fn nth_is_at_its_place(
    before: &Ipv6Subnets,
    place: usize,
    answer: &Option<Ipv6Net>,
    after: &Ipv6Subnets,
)
    ensures item { SkipsThenYields ⟦<Ipv6Subnets as Iterator>⟧.next_gives before.now place answer.now after.now
        → option_map ipv6_network answer.now ≡ slice_get (ipv6_subnets_left before.now) place }
    ensures member { SkipsThenYields ⟦<Ipv6Subnets as Iterator>⟧.next_gives before.now place answer.now after.now
        → IfSome answer.now (λ n. Contains (ipv6_subnets_left before.now) (ipv6_network n)) }
    ensures left { SkipsThenYields ⟦<Ipv6Subnets as Iterator>⟧.next_gives before.now place answer.now after.now
        → ipv6_subnets_left after.now ≡ drop (place + 1) (ipv6_subnets_left before.now) }
{}

/// A subnet that `nth` of a walk over `net` returns is truncated, has the length of the walk and lies in `net`.
pub fn nth_subnet_has_its_length(
    net: &Ipv6Net,
    before: &Ipv6Subnets,
    place: usize,
    answer: &Option<Ipv6Net>,
    after: &Ipv6Subnets,
)
    ensures { (prefix_len : ℕ) → AreSubnetsOfLength (ipv6_network net.now) prefix_len (ipv6_subnets_left before.now)
        → SkipsThenYields ⟦<Ipv6Subnets as Iterator>⟧.next_gives before.now place answer.now after.now
        → IfSome answer.now (λ n. IsSubnetOfLength (ipv6_network net.now) prefix_len (ipv6_network n)) }
{}

/// A network that begins at the address after a block, with a prefix at least as long, has no host bit and shares no
/// address with the block. The block has one last address (`last`).
pub fn next_network_begins_a_block(net: &Ipv6Net, last: &Ipv6Addr, next: &Ipv6Net)
    ensures last { IsGreatestOf (ipv6_network net.now) (ipv6_address last.now)
        → (x : Address) → IsGreatestOf (ipv6_network net.now) x → x.number ≡ (ipv6_address last.now).number }
    ensures truncated { let n = ipv6_network net.now in let k = ipv6_network next.now in
        IsGreatestOf n (ipv6_address last.now) → k.family ≡ n.family → k.number ≡ (ipv6_address last.now).number + 1
        → n.prefix_len ≤ k.prefix_len → IsTruncated k }
    ensures apart { let n = ipv6_network net.now in let k = ipv6_network next.now in
        IsGreatestOf n (ipv6_address last.now) → k.family ≡ n.family → k.number ≡ (ipv6_address last.now).number + 1
        → n.prefix_len ≤ k.prefix_len → AreDisjoint n k }
{}

/// The list is its own aggregate if and only if its neighbours meet the four conditions.
pub fn neighbours_show_the_aggregate(networks: &[Ipv6Net])
    ensures { AreAggregatedNeighbours (map ipv6_network networks.now)
        ↔ IsAggregateOf (map ipv6_network networks.now) (map ipv6_network networks.now) }
{}

/// A network of an aggregate has no host bit, and the list covers each of its addresses.
pub fn members_of_an_aggregate_are_covered(
    aggregate: &Vec<Ipv6Net>,
    networks: &Vec<Ipv6Net>,
    member: &Ipv6Net,
)
    ensures { IsAggregateOf (map ipv6_network aggregate.now.items) (map ipv6_network networks.now.items)
        → Contains (map ipv6_network aggregate.now.items) (ipv6_network member.now)
        → IsTruncated (ipv6_network member.now)
        × ((x : Address) → InBlock (ipv6_network member.now) x → IsCoveredBy (map ipv6_network networks.now.items) x) }
{}

/// If two lists have the same addresses, each covers a given address if and only if the other does.
pub fn same_cover_has_the_same_addresses(
    networks: &Vec<Ipv6Net>,
    others: &Vec<Ipv6Net>,
    address: &Ipv6Addr,
)
    ensures { HaveSameCover (map ipv6_network networks.now.items) (map ipv6_network others.now.items)
        → IsCoveredBy (map ipv6_network networks.now.items) (ipv6_address address.now)
        ↔ IsCoveredBy (map ipv6_network others.now.items) (ipv6_address address.now) }
{}

/// `from_bits` and `to_bits` go both ways: the address is the one that `from_bits` makes of the number if and only if
/// `to_bits` gives that number.
pub fn address_has_its_number(address: Ipv6Addr, number: u128)
    ensures { IsIpv6OfBits address number ↔ (ipv6_bits address ≡ number) }
{}
