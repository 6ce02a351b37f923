//! Lists of networks that cover a set of addresses and avoid others: within a limit of networks, with as few other
//! addresses as possible; or within a limit of other addresses, with as few networks as possible.
ghost use Rattle.std.specs.Prelude.{◌↔◌, map, All, IfOk, IfSome, IfNone, IsNone};
ghost use Rattle.ipnet_base.specs.Address.{IPv4, IPv6};
ghost use Rattle.ipnet_base.specs.Blocks.{IsCoveredBy};
ghost use Rattle.ipnet_base.specs.Network.{IsTruncated};
ghost use Rattle.ipnet.specs.NetworkOf.{ip_network};
ghost use Rattle.ipnet_sets.specs.Members.{IsMember, IsMemberOf};
ghost use Rattle.ipnet_shortest.specs.Covers.{IsBestCover, HasCoverWithin, IsFewestCover, HasCoverAdding, AreInOrder};
ghost use Rattle.ipnet_shortest.specs.Halves.{AreBlocksIn, IsWholeFamily};
ghost use Rattle.ipnet_shortest.specs.PartCovers.{IsBestOf};
ghost use Rattle.ipnet_shortest.specs.Parts.{IsLimit, HasNoCover};

use crate::part::Terms;
use crate::plan::push_networks;
use crate::shares::first_within;
use ipnet::{IpAddr, IpNet, Ipv4Addr, Ipv6Addr};
use ipnet_sets::IpSet;
use std::alloc::{AllocError, Global};

/// Returns the best list within the limit for the blocks, which are in the network, or `None` if there is no list. Of
/// the lists that add at most `spare` addresses, it is one with the fewest networks. If no list adds so few, it is one
/// that adds the fewest.
fn best_list(
    alloc: Global,
    terms: &Terms,
    around: &IpNet,
    blocks: &[IpNet],
    spare: u128,
) -> Result<Option<Vec<IpNet>>, AllocError>
    requires limit { IsLimit terms.now.limit }
    requires blocks { AreBlocksIn (map ip_network blocks.now) (ip_network around.now) }
    ensures best { IfOk result (λ o. IfSome o (λ list. IsBestOf (IsCoveredBy (map ip_network blocks.now))
        (IsMember terms.now.allowed) terms.now.limit spare (map ip_network list.items))) }
    ensures none { IfOk result (λ o. IfNone o (HasNoCover (map ip_network blocks.now) terms.now)) }
    ensures order { All IsTruncated (map ip_network blocks.now)
        → IfOk result (λ o. IfSome o (λ list. AreInOrder (map ip_network list.items))) }
{
    let Some(part) = terms.part(alloc, around, blocks)? else {
        return Ok(None);
    };
    let index = first_within(part.costs.as_slice(), spare);
    let mut networks = Vec::new(alloc);
    push_networks(&mut networks, &part.plan, index)?;
    Ok(Some(networks))
}

/// Returns the whole family of the network as one network.
fn whole_family(network: &IpNet) -> IpNet
    ensures { IsWholeFamily (ip_network network.now) (ip_network result) }
{
    IpNet::new_assert(network.addr(), 0).trunc()
}

/// Returns the best list within the limit for the addresses of the set that are of the network's family, or `None` if
/// there is no list. Only the family of the network counts.
fn cover_of_family(
    alloc: Global,
    set: &IpSet,
    family: &IpNet,
    limit: usize,
    never: &IpSet,
) -> Result<Option<Vec<IpNet>>, AllocError>
    ensures best { IfOk result (λ o. IfSome o (λ list. IsBestCover limit
        (IsMemberOf (ip_network family.now).family set.now) (IsMember never.now) (map ip_network list.items))) }
    ensures none { IfOk result (λ o. IsNone o
        ↔ ¬ (HasCoverWithin limit (IsMemberOf (ip_network family.now).family set.now) (IsMember never.now))) }
    ensures order { IfOk result (λ o. IfSome o (λ list. AreInOrder (map ip_network list.items))) }
{
    let around = whole_family(family);
    let part = set.within(alloc, &around)?;
    if !part.is_disjoint(never) {
        return Ok(None);
    }
    let blocks = part.networks(alloc)?;
    if blocks.len() <= limit {
        return Ok(Some(blocks));
    }
    if limit == 0 {
        return Ok(None);
    }
    let allowed = never.complement(alloc)?;
    let terms = Terms { allowed, limit };
    best_list(alloc, &terms, &around, blocks.as_slice(), 0)
}

/// Returns the list of the fewest networks for the addresses of the set that are of the network's family, or `None` if
/// there is no list. Only the family of the network counts.
fn fewest_of_family(
    alloc: Global,
    set: &IpSet,
    family: &IpNet,
    spare: u128,
    never: &IpSet,
) -> Result<Option<Vec<IpNet>>, AllocError>
    ensures fewest { IfOk result (λ o. IfSome o (λ list. IsFewestCover spare
        (IsMemberOf (ip_network family.now).family set.now) (IsMember never.now) (map ip_network list.items))) }
    ensures none { IfOk result (λ o. IsNone o
        ↔ ¬ (HasCoverAdding spare (IsMemberOf (ip_network family.now).family set.now) (IsMember never.now))) }
    ensures order { IfOk result (λ o. IfSome o (λ list. AreInOrder (map ip_network list.items))) }
{
    let around = whole_family(family);
    let part = set.within(alloc, &around)?;
    if !part.is_disjoint(never) {
        return Ok(None);
    }
    let blocks = part.networks(alloc)?;
    if spare == 0 || blocks.is_empty() {
        return Ok(Some(blocks));
    }
    let terms = Terms {
        allowed: never.complement(alloc)?,
        limit: blocks.len(),
    };
    best_list(alloc, &terms, &around, blocks.as_slice(), spare)
}

/// Returns a list of at most `limit` networks that contains every IPv4 address of the set, and no address of `never`.
/// No such list contains fewer other addresses. If several contain as few, the result is one with the fewest networks.
/// The networks are in ascending order, share no address, and have no host bits.
///
/// The result is `None` if and only if there is no such list. There is none if an IPv4 address of the set is in
/// `never`. Fails only if memory runs out. If the set has at most `limit` networks and none of its addresses is in
/// `never`, its networks are the list. Else the call takes O(n · limit) time and memory, for n networks of the set.
///
/// ```text
/// of 10.0.0.0/32, 10.0.0.3/32, 10.0.0.8/32 with limit 2: 10.0.0.0/30, 10.0.0.8/32; with limit 1: 10.0.0.0/28
/// with limit 2 and never 10.0.0.1: None; with limit 3: the three networks
/// ```
pub fn shortest_ipv4_cover(
    alloc: Global,
    set: &IpSet,
    limit: usize,
    never: &IpSet,
) -> Result<Option<Vec<IpNet>>, AllocError>
    ensures best { IfOk result (λ o. IfSome o (λ list. IsBestCover limit (IsMemberOf IPv4 set.now) (IsMember never.now)
        (map ip_network list.items))) }
    ensures none { IfOk result (λ o. IsNone o
        ↔ ¬ (HasCoverWithin limit (IsMemberOf IPv4 set.now) (IsMember never.now))) }
    ensures order { IfOk result (λ o. IfSome o (λ list. AreInOrder (map ip_network list.items))) }
{
    let family = IpNet::new_assert(IpAddr::V4(Ipv4Addr::new(0, 0, 0, 0)), 0);
    cover_of_family(alloc, set, &family, limit, never)
}

/// Returns the list for the IPv6 addresses of the set, as `shortest_ipv4_cover` does for IPv4.
///
/// ```text
/// of ::1/128, 8000::/128, 10.0.0.0/8 with limit 1: ::/0; with limit 2: ::1/128, 8000::/128
/// ```
pub fn shortest_ipv6_cover(
    alloc: Global,
    set: &IpSet,
    limit: usize,
    never: &IpSet,
) -> Result<Option<Vec<IpNet>>, AllocError>
    ensures best { IfOk result (λ o. IfSome o (λ list. IsBestCover limit (IsMemberOf IPv6 set.now) (IsMember never.now)
        (map ip_network list.items))) }
    ensures none { IfOk result (λ o. IsNone o
        ↔ ¬ (HasCoverWithin limit (IsMemberOf IPv6 set.now) (IsMember never.now))) }
    ensures order { IfOk result (λ o. IfSome o (λ list. AreInOrder (map ip_network list.items))) }
{
    let family = IpNet::new_assert(IpAddr::V6(Ipv6Addr::new(0, 0, 0, 0, 0, 0, 0, 0)), 0);
    cover_of_family(alloc, set, &family, limit, never)
}

/// Returns a list of the fewest networks that contains every IPv4 address of the set, no address of `never`, and at
/// most `spare` other addresses. No list of as few networks contains fewer addresses.
/// The networks are in ascending order, share no address, and have no host bits.
///
/// The result is `None` if and only if there is no such list: an IPv4 address of the set is in `never`. Fails only if
/// memory runs out. The call takes O(n²) time, and memory for at most n numbers for each prefix length, for n networks
/// of the set.
///
/// ```text
/// of 10.0.0.0/32, 10.0.0.3/32, 10.0.0.8/32 with spare 1: the three networks; with spare 2: 10.0.0.0/30, 10.0.0.8/32
/// with spare 13: 10.0.0.0/28; with spare 2 and never 10.0.0.1: the three networks
/// ```
pub fn fewest_ipv4_networks(
    alloc: Global,
    set: &IpSet,
    spare: u128,
    never: &IpSet,
) -> Result<Option<Vec<IpNet>>, AllocError>
    ensures fewest { IfOk result (λ o. IfSome o (λ list. IsFewestCover spare (IsMemberOf IPv4 set.now)
        (IsMember never.now) (map ip_network list.items))) }
    ensures none { IfOk result (λ o. IsNone o
        ↔ ¬ (HasCoverAdding spare (IsMemberOf IPv4 set.now) (IsMember never.now))) }
    ensures order { IfOk result (λ o. IfSome o (λ list. AreInOrder (map ip_network list.items))) }
{
    let whole = IpNet::new_assert(IpAddr::V4(Ipv4Addr::new(0, 0, 0, 0)), 0);
    fewest_of_family(alloc, set, &whole, spare, never)
}

/// Returns the list for the IPv6 addresses of the set, as `fewest_ipv4_networks` does for IPv4.
///
/// ```text
/// of ::1/128, ::2/128, 10.0.0.0/8 with spare 1: ::1/128, ::2/128; with spare 2: ::/126
/// ```
pub fn fewest_ipv6_networks(
    alloc: Global,
    set: &IpSet,
    spare: u128,
    never: &IpSet,
) -> Result<Option<Vec<IpNet>>, AllocError>
    ensures fewest { IfOk result (λ o. IfSome o (λ list. IsFewestCover spare (IsMemberOf IPv6 set.now)
        (IsMember never.now) (map ip_network list.items))) }
    ensures none { IfOk result (λ o. IsNone o
        ↔ ¬ (HasCoverAdding spare (IsMemberOf IPv6 set.now) (IsMember never.now))) }
    ensures order { IfOk result (λ o. IfSome o (λ list. AreInOrder (map ip_network list.items))) }
{
    let whole = IpNet::new_assert(IpAddr::V6(Ipv6Addr::new(0, 0, 0, 0, 0, 0, 0, 0)), 0);
    fewest_of_family(alloc, set, &whole, spare, never)
}
