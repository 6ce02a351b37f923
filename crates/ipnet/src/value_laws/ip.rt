//! Laws of given networks of either family: a caller passes the values, and may use the fact about them afterwards.
ghost use Rattle.std.specs.Prelude.{◌≡◌, ◌+◌, ◌<◌, ◌≤◌, ◌⊎◌, ◌↔◌, ℕ, map, drop, slice_get, option_map};
ghost use Rattle.std.specs.Prelude.{Contains, IfSome, IsTrue};
ghost use Rattle.std.specs.Iterator.{SkipsThenYields};
ghost use Rattle.ipnet_base.specs.Address.{Address, IsBetween, ip_address};
ghost use Rattle.ipnet_base.specs.Network.{Network, IsNetwork, InBlock, IsSubnetOf, AreDisjoint, IsTruncated};
ghost use Rattle.ipnet_base.specs.Network.{IsLeastOf, IsGreatestOf, IsSupernetOf};
ghost use Rattle.ipnet_base.specs.Blocks.{IsCoveredBy, HaveSameCover, IsAggregateOf, AreAggregatedNeighbours};
ghost use Rattle.ipnet_base.specs.RangeOf.{ip_range, ip_addresses};
ghost use Rattle.ipnet.specs.NetworkOf.{ip_network};
ghost use Rattle.ipnet.specs.NetworkParts.{own_address, IsHostRange, IsSubnetOfLength, AreSubnetsOfLength};
ghost use Rattle.ipnet.specs.SubnetsLeft.{ip_subnets_left};

use crate::net::IpNet;
use crate::subnets::IpSubnets;
use ipnet_base::{IpAddr, IpAddrRange};

/// The networks are nested or share no address; they share an address if and only if one contains the other.
pub fn nested_or_disjoint(net: &IpNet, other: &IpNet)
    ensures cases { let n = ip_network net.now in let k = ip_network other.now in
        IsSubnetOf n k ⊎ (IsSubnetOf k n ⊎ AreDisjoint n k) }
    ensures overlap { let n = ip_network net.now in let k = ip_network other.now in
        ¬ (AreDisjoint n k) ↔ (IsSubnetOf n k ⊎ IsSubnetOf k n) }
{}

/// The network's own address lies in its block.
pub fn own_address_lies_in_the_block(net: &IpNet)
    ensures { InBlock (ip_network net.now) (own_address (ip_network net.now)) }
{}

/// The other network lies in `net` if and only if its prefix is at least as long and its own address lies there.
pub fn subnets_are_found_by_their_own_address(net: &IpNet, other: &IpNet)
    ensures { let n = ip_network net.now in let k = ip_network other.now in
        IsSubnetOf k n ↔ ((n.prefix_len ≤ k.prefix_len) × InBlock n (own_address k)) }
{}

/// A block has one least address: any other that is least is the same address.
pub fn least_address_is_one(net: &IpNet, first: &IpAddr)
    ensures { IsLeastOf (ip_network net.now) (ip_address first.now)
        → (x : Address) → IsLeastOf (ip_network net.now) x → x ≡ ip_address first.now }
{}

/// A block has one greatest address: any other that is greatest is the same address.
pub fn greatest_address_is_one(net: &IpNet, last: &IpAddr)
    ensures { IsGreatestOf (ip_network net.now) (ip_address last.now)
        → (x : Address) → IsGreatestOf (ip_network net.now) x → x ≡ ip_address last.now }
{}

/// A block contains every address of its family from its least to its greatest, and no other address.
pub fn block_lies_between_its_ends(net: &IpNet, first: &IpAddr, last: &IpAddr)
    ensures { IsLeastOf (ip_network net.now) (ip_address first.now)
        → IsGreatestOf (ip_network net.now) (ip_address last.now)
        → (x : Address) → InBlock (ip_network net.now) x
        ↔ IsBetween (ip_network net.now).family (ip_address first.now).number (ip_address last.now).number x }
{}

/// The supernet is the next wider network. It lies in each network that contains `net` and has a shorter prefix, and in
/// each that contains both `net` and some network outside `net`.
pub fn supernet_is_the_next_wider(net: &IpNet, supernet: &IpNet)
    ensures wider { let n = ip_network net.now in let s = ip_network supernet.now in IsSupernetOf s n
        → (k : Network) → IsNetwork k → IsSubnetOf n k → k.prefix_len < n.prefix_len → IsSubnetOf s k }
    ensures common { let n = ip_network net.now in let s = ip_network supernet.now in IsSupernetOf s n
        → (m k : Network) → IsNetwork k → ¬ (IsSubnetOf m n) → IsSubnetOf n k → IsSubnetOf m k → IsSubnetOf s k }
{}

/// Each host of the network lies in its block: each address that the range lists, and each between its two ends.
pub fn hosts_lie_in_the_block(net: &IpNet, hosts: &IpAddrRange)
    ensures listed { IsHostRange (ip_network net.now) (ip_range hosts.now)
        → (x : Address) → Contains (ip_addresses hosts.now) x → InBlock (ip_network net.now) x }
    ensures between { let range = ip_range hosts.now in IsHostRange (ip_network net.now) range
        → (x : Address) → IsBetween range.family range.start range.end x → InBlock (ip_network net.now) x }
{}

/// The network is one of the subnets that the walk lists if and only if it has their length and lies in `net`, and has
/// no host bit.
pub fn subnets_have_their_length(net: &IpNet, subnets: &IpSubnets, subnet: &IpNet)
    ensures { (prefix_len : ℕ) → AreSubnetsOfLength (ip_network net.now) prefix_len (ip_subnets_left subnets.now)
        → Contains (ip_subnets_left subnets.now) (ip_network subnet.now)
        ↔ IsSubnetOfLength (ip_network net.now) prefix_len (ip_network subnet.now) }
{}

/// `nth` of a walk returns the network at that place of its list, counted from 0, and leaves those after it.
pub fn nth_is_at_its_place(
    before: &IpSubnets,
    place: usize,
    answer: &Option<IpNet>,
    after: &IpSubnets,
)
    ensures item { SkipsThenYields ⟦<IpSubnets as Iterator>⟧.next_gives before.now place answer.now after.now
        → option_map ip_network answer.now ≡ slice_get (ip_subnets_left before.now) place }
    ensures member { SkipsThenYields ⟦<IpSubnets as Iterator>⟧.next_gives before.now place answer.now after.now
        → IfSome answer.now (λ n. Contains (ip_subnets_left before.now) (ip_network n)) }
    ensures left { SkipsThenYields ⟦<IpSubnets as Iterator>⟧.next_gives before.now place answer.now after.now
        → ip_subnets_left after.now ≡ drop (place + 1) (ip_subnets_left before.now) }
{}

/// A subnet that `nth` of a walk over `net` returns is truncated, has the length of the walk and lies in `net`.
pub fn nth_subnet_has_its_length(
    net: &IpNet,
    before: &IpSubnets,
    place: usize,
    answer: &Option<IpNet>,
    after: &IpSubnets,
)
    ensures { (prefix_len : ℕ) → AreSubnetsOfLength (ip_network net.now) prefix_len (ip_subnets_left before.now)
        → SkipsThenYields ⟦<IpSubnets as Iterator>⟧.next_gives before.now place answer.now after.now
        → IfSome answer.now (λ n. IsSubnetOfLength (ip_network net.now) prefix_len (ip_network n)) }
{}

/// A network that begins at the address after a block, with a prefix at least as long, has no host bit and shares no
/// address with the block. The block has one last address (`last`).
pub fn next_network_begins_a_block(net: &IpNet, last: &IpAddr, next: &IpNet)
    ensures last { IsGreatestOf (ip_network net.now) (ip_address last.now)
        → (x : Address) → IsGreatestOf (ip_network net.now) x → x.number ≡ (ip_address last.now).number }
    ensures truncated { let n = ip_network net.now in let k = ip_network next.now in
        IsGreatestOf n (ip_address last.now) → k.family ≡ n.family → k.number ≡ (ip_address last.now).number + 1
        → n.prefix_len ≤ k.prefix_len → IsTruncated k }
    ensures apart { let n = ip_network net.now in let k = ip_network next.now in
        IsGreatestOf n (ip_address last.now) → k.family ≡ n.family → k.number ≡ (ip_address last.now).number + 1
        → n.prefix_len ≤ k.prefix_len → AreDisjoint n k }
{}

/// The list is its own aggregate if and only if its neighbours meet the four conditions.
pub fn neighbours_show_the_aggregate(networks: &[IpNet])
    ensures { AreAggregatedNeighbours (map ip_network networks.now)
        ↔ IsAggregateOf (map ip_network networks.now) (map ip_network networks.now) }
{}

/// A network of an aggregate has no host bit, and the list covers each of its addresses.
pub fn members_of_an_aggregate_are_covered(
    aggregate: &Vec<IpNet>,
    networks: &Vec<IpNet>,
    member: &IpNet,
)
    ensures { IsAggregateOf (map ip_network aggregate.now.items) (map ip_network networks.now.items)
        → Contains (map ip_network aggregate.now.items) (ip_network member.now)
        → IsTruncated (ip_network member.now)
        × ((x : Address) → InBlock (ip_network member.now) x → IsCoveredBy (map ip_network networks.now.items) x) }
{}

/// If `same` says whether two lists have the same addresses, as the result of `same_addresses` does, and is true, each
/// list covers a given address if and only if the other does.
pub fn same_addresses_agree(
    networks: &Vec<IpNet>,
    others: &Vec<IpNet>,
    same: bool,
    address: &IpAddr,
)
    ensures { (IsTrue same ↔ HaveSameCover (map ip_network networks.now.items) (map ip_network others.now.items))
        → IsTrue same
        → IsCoveredBy (map ip_network networks.now.items) (ip_address address.now)
        ↔ IsCoveredBy (map ip_network others.now.items) (ip_address address.now) }
{}

/// If two lists have the same addresses, each covers a given address if and only if the other does.
pub fn same_cover_has_the_same_addresses(
    networks: &Vec<IpNet>,
    others: &Vec<IpNet>,
    address: &IpAddr,
)
    ensures { HaveSameCover (map ip_network networks.now.items) (map ip_network others.now.items)
        → IsCoveredBy (map ip_network networks.now.items) (ip_address address.now)
        ↔ IsCoveredBy (map ip_network others.now.items) (ip_address address.now) }
{}
