//! Laws of given IPv4 networks: a caller passes the values, and may use the fact about them afterwards.
ghost use Rattle.std.specs.Prelude.{◌≡◌, ◌+◌, ◌<◌, ◌≤◌, ◌⊎◌, ◌↔◌, ℕ, map, drop, slice_get, option_map};
ghost use Rattle.std.specs.Prelude.{Contains, IfSome};
ghost use Rattle.std.specs.Iterator.{SkipsThenYields};
ghost use Rattle.std.specs.Net.Addr.{ipv4_bits, IsIpv4OfBits};
ghost use Rattle.ipnet_base.specs.Address.{Address, IsBetween, ipv4_address};
ghost use Rattle.ipnet_base.specs.Network.{Network, IsNetwork, InBlock, IsSubnetOf, AreDisjoint, IsTruncated};
ghost use Rattle.ipnet_base.specs.Network.{IsLeastOf, IsGreatestOf, IsSupernetOf};
ghost use Rattle.ipnet_base.specs.Blocks.{IsCoveredBy, HaveSameCover, IsAggregateOf, AreAggregatedNeighbours};
ghost use Rattle.ipnet_base.specs.RangeOf.{ipv4_range, ipv4_addresses};
ghost use Rattle.ipnet.specs.NetworkOf.{ipv4_network};
ghost use Rattle.ipnet.specs.NetworkParts.{own_address, IsHostRange, IsSubnetOfLength, AreSubnetsOfLength};
ghost use Rattle.ipnet.specs.SubnetsLeft.{ipv4_subnets_left};

use crate::net::Ipv4Net;
use crate::subnets::Ipv4Subnets;
use ipnet_base::{Ipv4Addr, Ipv4AddrRange};

/// The networks are nested or share no address; they share an address if and only if one contains the other.
pub fn nested_or_disjoint(net: &Ipv4Net, other: &Ipv4Net)
    ensures cases { let n = ipv4_network net.now in let k = ipv4_network other.now in
        IsSubnetOf n k ⊎ (IsSubnetOf k n ⊎ AreDisjoint n k) }
    ensures overlap { let n = ipv4_network net.now in let k = ipv4_network other.now in
        ¬ (AreDisjoint n k) ↔ (IsSubnetOf n k ⊎ IsSubnetOf k n) }
{}

/// The network's own address lies in its block.
pub fn own_address_lies_in_the_block(net: &Ipv4Net)
    ensures { InBlock (ipv4_network net.now) (own_address (ipv4_network net.now)) }
{}

/// The other network lies in `net` if and only if its prefix is at least as long and its own address lies there.
pub fn subnets_are_found_by_their_own_address(net: &Ipv4Net, other: &Ipv4Net)
    ensures { let n = ipv4_network net.now in let k = ipv4_network other.now in
        IsSubnetOf k n ↔ ((n.prefix_len ≤ k.prefix_len) × InBlock n (own_address k)) }
{}

/// A block has one least address: any other that is least is the same address.
pub fn least_address_is_one(net: &Ipv4Net, first: &Ipv4Addr)
    ensures { IsLeastOf (ipv4_network net.now) (ipv4_address first.now)
        → (x : Address) → IsLeastOf (ipv4_network net.now) x → x ≡ ipv4_address first.now }
{}

/// A block has one greatest address: any other that is greatest is the same address.
pub fn greatest_address_is_one(net: &Ipv4Net, last: &Ipv4Addr)
    ensures { IsGreatestOf (ipv4_network net.now) (ipv4_address last.now)
        → (x : Address) → IsGreatestOf (ipv4_network net.now) x → x ≡ ipv4_address last.now }
{}

/// A block contains every address of its family from its least to its greatest, and no other address.
pub fn block_lies_between_its_ends(net: &Ipv4Net, first: &Ipv4Addr, last: &Ipv4Addr)
    ensures { IsLeastOf (ipv4_network net.now) (ipv4_address first.now)
        → IsGreatestOf (ipv4_network net.now) (ipv4_address last.now)
        → (x : Address) → InBlock (ipv4_network net.now) x
        ↔ IsBetween (ipv4_network net.now).family (ipv4_address first.now).number (ipv4_address last.now).number x }
{}

/// The supernet is the next wider network. It lies in each network that contains `net` and has a shorter prefix, and in
/// each that contains both `net` and some network outside `net`.
pub fn supernet_is_the_next_wider(net: &Ipv4Net, supernet: &Ipv4Net)
    ensures wider { let n = ipv4_network net.now in let s = ipv4_network supernet.now in IsSupernetOf s n
        → (k : Network) → IsNetwork k → IsSubnetOf n k → k.prefix_len < n.prefix_len → IsSubnetOf s k }
    ensures common { let n = ipv4_network net.now in let s = ipv4_network supernet.now in IsSupernetOf s n
        → (m k : Network) → IsNetwork k → ¬ (IsSubnetOf m n) → IsSubnetOf n k → IsSubnetOf m k → IsSubnetOf s k }
{}

/// Each host of the network lies in its block: each address that the range lists, and each between its two ends.
pub fn hosts_lie_in_the_block(net: &Ipv4Net, hosts: &Ipv4AddrRange)
    ensures listed { IsHostRange (ipv4_network net.now) (ipv4_range hosts.now)
        → (x : Address) → Contains (ipv4_addresses hosts.now) x → InBlock (ipv4_network net.now) x }
    ensures between { let range = ipv4_range hosts.now in IsHostRange (ipv4_network net.now) range
        → (x : Address) → IsBetween range.family range.start range.end x → InBlock (ipv4_network net.now) x }
{}

/// The network is one of the subnets that the walk lists if and only if it has their length and lies in `net`, and has
/// no host bit.
pub fn subnets_have_their_length(net: &Ipv4Net, subnets: &Ipv4Subnets, subnet: &Ipv4Net)
    ensures { (prefix_len : ℕ) → AreSubnetsOfLength (ipv4_network net.now) prefix_len (ipv4_subnets_left subnets.now)
        → Contains (ipv4_subnets_left subnets.now) (ipv4_network subnet.now)
        ↔ IsSubnetOfLength (ipv4_network net.now) prefix_len (ipv4_network subnet.now) }
{}

/// `nth` of a walk returns the network at that place of its list, counted from 0, and leaves those after it.
pub fn nth_is_at_its_place(
    before: &Ipv4Subnets,
    place: usize,
    answer: &Option<Ipv4Net>,
    after: &Ipv4Subnets,
)
    ensures item { SkipsThenYields ⟦<Ipv4Subnets as Iterator>⟧.next_gives before.now place answer.now after.now
        → option_map ipv4_network answer.now ≡ slice_get (ipv4_subnets_left before.now) place }
    ensures member { SkipsThenYields ⟦<Ipv4Subnets as Iterator>⟧.next_gives before.now place answer.now after.now
        → IfSome answer.now (λ n. Contains (ipv4_subnets_left before.now) (ipv4_network n)) }
    ensures left { SkipsThenYields ⟦<Ipv4Subnets as Iterator>⟧.next_gives before.now place answer.now after.now
        → ipv4_subnets_left after.now ≡ drop (place + 1) (ipv4_subnets_left before.now) }
{}

/// A subnet that `nth` of a walk over `net` returns is truncated, has the length of the walk and lies in `net`.
pub fn nth_subnet_has_its_length(
    net: &Ipv4Net,
    before: &Ipv4Subnets,
    place: usize,
    answer: &Option<Ipv4Net>,
    after: &Ipv4Subnets,
)
    ensures { (prefix_len : ℕ) → AreSubnetsOfLength (ipv4_network net.now) prefix_len (ipv4_subnets_left before.now)
        → SkipsThenYields ⟦<Ipv4Subnets as Iterator>⟧.next_gives before.now place answer.now after.now
        → IfSome answer.now (λ n. IsSubnetOfLength (ipv4_network net.now) prefix_len (ipv4_network n)) }
{}

/// A network that begins at the address after a block, with a prefix at least as long, has no host bit and shares no
/// address with the block. The block has one last address (`last`).
pub fn next_network_begins_a_block(net: &Ipv4Net, last: &Ipv4Addr, next: &Ipv4Net)
    ensures last { IsGreatestOf (ipv4_network net.now) (ipv4_address last.now)
        → (x : Address) → IsGreatestOf (ipv4_network net.now) x → x.number ≡ (ipv4_address last.now).number }
    ensures truncated { let n = ipv4_network net.now in let k = ipv4_network next.now in
        IsGreatestOf n (ipv4_address last.now) → k.family ≡ n.family → k.number ≡ (ipv4_address last.now).number + 1
        → n.prefix_len ≤ k.prefix_len → IsTruncated k }
    ensures apart { let n = ipv4_network net.now in let k = ipv4_network next.now in
        IsGreatestOf n (ipv4_address last.now) → k.family ≡ n.family → k.number ≡ (ipv4_address last.now).number + 1
        → n.prefix_len ≤ k.prefix_len → AreDisjoint n k }
{}

/// The list is its own aggregate if and only if its neighbours meet the four conditions.
pub fn neighbours_show_the_aggregate(networks: &[Ipv4Net])
    ensures { AreAggregatedNeighbours (map ipv4_network networks.now)
        ↔ IsAggregateOf (map ipv4_network networks.now) (map ipv4_network networks.now) }
{}

/// A network of an aggregate has no host bit, and the list covers each of its addresses.
pub fn members_of_an_aggregate_are_covered(
    aggregate: &Vec<Ipv4Net>,
    networks: &Vec<Ipv4Net>,
    member: &Ipv4Net,
)
    ensures { IsAggregateOf (map ipv4_network aggregate.now.items) (map ipv4_network networks.now.items)
        → Contains (map ipv4_network aggregate.now.items) (ipv4_network member.now)
        → IsTruncated (ipv4_network member.now)
        × ((x : Address) → InBlock (ipv4_network member.now) x → IsCoveredBy (map ipv4_network networks.now.items) x) }
{}

/// If two lists have the same addresses, each covers a given address if and only if the other does.
pub fn same_cover_has_the_same_addresses(
    networks: &Vec<Ipv4Net>,
    others: &Vec<Ipv4Net>,
    address: &Ipv4Addr,
)
    ensures { HaveSameCover (map ipv4_network networks.now.items) (map ipv4_network others.now.items)
        → IsCoveredBy (map ipv4_network networks.now.items) (ipv4_address address.now)
        ↔ IsCoveredBy (map ipv4_network others.now.items) (ipv4_address address.now) }
{}

/// `from_bits` and `to_bits` go both ways: the address is the one that `from_bits` makes of the number if and only if
/// `to_bits` gives that number.
pub fn address_has_its_number(address: Ipv4Addr, number: u32)
    ensures { IsIpv4OfBits address number ↔ (ipv4_bits address ≡ number) }
{}
