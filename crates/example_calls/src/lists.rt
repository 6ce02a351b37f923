//! Lists of networks, and their aggregates.
ghost use Rattle.std.specs.Prelude.{◌↔◌, ◌≤◌, map, length, All, IfOk, IsTrue};
ghost use Rattle.ipnet.specs.Address.{Address, ip_address};
ghost use Rattle.ipnet.specs.Network.{IsTruncated, IsSubnetOf, IsNetwork, InBlock};
ghost use Rattle.ipnet.specs.Blocks.{IsCoveredBy, HaveSameCover, IsAscending, ArePairwiseDisjoint, IsShortestCover};
ghost use Rattle.ipnet.specs.Blocks.{IsAggregateOf, AreAggregatedNeighbours};
ghost use Rattle.ipnet.specs.NetworkOf.{ip_network};

use ipnet::value_laws::ip;
use ipnet::{IpAddr, IpNet, are_disjoint, is_aggregated, same_addresses};
use ipnet_sets::IpSet;
use std::alloc::{AllocError, Global};

/// The networks of the list that lie in the block. Fails only if memory runs out.
pub fn inside(alloc: Global, block: IpNet, list: &[IpNet]) -> Result<Vec<IpNet>, AllocError>
    ensures { IfOk result (λ kept. All (λ n. IsSubnetOf (ip_network n) (ip_network block)) kept.items) }
{
    list.iter()
        .filter(|n| block.contains(*n))
        .copied()
        .collect(alloc)
}

/// Whether two networks of the list share an address.
pub fn has_overlap(list: &[IpNet]) -> bool
    ensures { IsTrue result ↔ ¬ (ArePairwiseDisjoint (map ip_network list.now)) }
{
    !are_disjoint(list)
}

/// The shortest list over the same addresses, with the facts that a router needs. Fails only if memory runs out.
pub fn shortest(alloc: Global, list: &Vec<IpNet>) -> Result<Vec<IpNet>, AllocError>
    ensures cover { IfOk result (λ answer.
        HaveSameCover (map ip_network answer.items) (map ip_network list.now.items)) }
    ensures disjoint { IfOk result (λ answer. ArePairwiseDisjoint (map ip_network answer.items)) }
    ensures no_longer { IfOk result (λ answer. length answer.items ≤ length list.now.items) }
    ensures shortest { IfOk result (λ answer.
        IsShortestCover (IsCoveredBy (map ip_network list.now.items)) 0 (map ip_network answer.items)) }
    ensures truncated { IfOk result (λ answer. All IsTruncated (map ip_network answer.items)) }
    ensures ascending { IfOk result (λ answer. IsAscending (map ip_network answer.items)) }
    ensures valid { IfOk result (λ answer. All IsNetwork (map ip_network answer.items)) }
{
    IpNet::aggregate(alloc, list)
}

/// Whether the list is sorted, without host bits and overlaps, and with nothing left to join.
pub fn is_tidy(list: &[IpNet]) -> bool
    ensures neighbours { IsTrue result ↔ AreAggregatedNeighbours (map ip_network list.now) }
    ensures aggregate { IsTrue result ↔ IsAggregateOf (map ip_network list.now) (map ip_network list.now) }
{
    is_aggregated(list)
}

/// The shortest list, which covers the address if and only if `list` does. Fails only if memory runs out.
pub fn shortest_for(
    alloc: Global,
    list: &Vec<IpNet>,
    address: &IpAddr,
) -> Result<Vec<IpNet>, AllocError>
    ensures { IfOk result (λ answer. IsCoveredBy (map ip_network answer.items) (ip_address address.now)
        ↔ IsCoveredBy (map ip_network list.now.items) (ip_address address.now)) }
{
    let answer = IpNet::aggregate(alloc, list)?;
    ip::same_cover_has_the_same_addresses(&answer, list, address);
    Ok(answer)
}

/// Whether the lists have the same addresses; if so, an address of the first list is one of the second. Fails only if
/// memory runs out.
pub fn same_for(
    alloc: Global,
    list: &Vec<IpNet>,
    other: &Vec<IpNet>,
    address: &IpAddr,
) -> Result<bool, AllocError>
    ensures { IfOk result (λ same. IsTrue same → IsCoveredBy (map ip_network list.now.items) (ip_address address.now)
        → IsCoveredBy (map ip_network other.now.items) (ip_address address.now)) }
{
    let same = same_addresses(alloc, list, other)?;
    ip::same_addresses_agree(list, other, same, address);
    Ok(same)
}

/// Whether the list allows the network: each address of the network lies in a network of the list. Fails only if memory
/// runs out.
pub fn allows(alloc: Global, list: &Vec<IpNet>, net: &IpNet) -> Result<bool, AllocError>
    ensures { IfOk result (λ allowed. IsTrue allowed
        ↔ ((x : Address) → InBlock (ip_network net.now) x → IsCoveredBy (map ip_network list.now.items) x)) }
{
    let set = IpSet::from_networks(alloc, list)?;
    Ok(set.covers(net))
}

/// Whether the list allows the address. Fails only if memory runs out.
pub fn allows_address(
    alloc: Global,
    list: &Vec<IpNet>,
    address: &IpAddr,
) -> Result<bool, AllocError>
    ensures { IfOk result (λ allowed. IsTrue allowed
        ↔ IsCoveredBy (map ip_network list.now.items) (ip_address address.now)) }
{
    let set = IpSet::from_networks(alloc, list)?;
    Ok(set.contains(address))
}
