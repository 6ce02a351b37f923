//! Plans: a block of addresses that is divided into subnets of one length.
//!
//! For every caller it is proved that each subnet lies in the block and that no two subnets share an address.
ghost use Rattle.std.specs.Prelude.{◌≡◌, ◌-◌, ◌^◌, ◌<◌, ◌⊎◌, ◌↔◌, length, map, take, All, Err, IfOk, IsErr};
ghost use Rattle.ipnet.specs.Blocks.{ArePairwiseDisjoint};
ghost use Rattle.ipnet.specs.NetworkOf.{ipv4_network};
ghost use Rattle.ipnet.specs.NetworkParts.{IsSubnetOfLength};
ghost use Rattle.ipnet.specs.SubnetsLeft.{ipv4_subnets_left};
ghost use Rattle.example_pools.specs.declared.plan.PlanError.TheVariants.{PrefixLen, TooFew, Memory};

use ipnet::{Ipv4Net, Ipv4Subnets};
use std::alloc::{AllocError, Global};
use thiserror::Error;

/// The reasons why there is no plan.
#[derive(Debug, PartialEq, Eq, Drop, Error)]
pub enum PlanError {
    /// The prefix length of the subnets is below the prefix length of the block, or above 32.
    #[error("the block has no subnets of this length")]
    PrefixLen,
    /// The block has fewer subnets of this length than there are sites.
    #[error("the block has too few subnets of this length")]
    TooFew,
    /// Memory ran out.
    #[error("out of memory")]
    Memory,
}

impl From<AllocError> for PlanError {
    ghost from_gives = { λ _ result. result ≡ Memory };

    fn from(_: AllocError) -> PlanError {
        PlanError::Memory
    }
}

/// The first networks of the walk: the requested number, or all if there are fewer.
pub fn first_networks(
    alloc: Global,
    walk: Ipv4Subnets,
    count: usize,
) -> Result<Vec<Ipv4Net>, AllocError>
    ensures first { IfOk result (λ list. map ipv4_network list.items ≡ take count (ipv4_subnets_left walk)) }
{
    let mut list = Vec::new(alloc);
    for network in walk {
        if list.len() == count {
            return Ok(list);
        }
        list.push(network)?;
    }
    Ok(list)
}

/// A subnet of the block for each site: the first subnets of this length, in ascending order.
///
/// ```text
/// 10.1.0.0/24 in subnets of length 26 for three sites: 10.1.0.0/26, 10.1.0.64/26, 10.1.0.128/26
/// ```
pub fn site_plan(
    alloc: Global,
    block: &Ipv4Net,
    prefix_len: u8,
    sites: usize,
) -> Result<Vec<Ipv4Net>, PlanError>
    ensures one_for_each { IfOk result (λ plan. length plan.items ≡ sites) }
    ensures subnets { IfOk result (λ plan.
        All (IsSubnetOfLength (ipv4_network block.now) prefix_len) (map ipv4_network plan.items)) }
    ensures disjoint { IfOk result (λ plan. ArePairwiseDisjoint (map ipv4_network plan.items)) }
    ensures no_such_length { let n = ipv4_network block.now in
        (result ≡ Err PrefixLen) ↔ ((prefix_len < n.prefix_len) ⊎ (32 < prefix_len)) }
    ensures too_few { result ≡ Err TooFew → 2 ^ (prefix_len - (ipv4_network block.now).prefix_len) < sites }
{
    let Ok(walk) = block.subnets(prefix_len) else {
        return Err(PlanError::PrefixLen);
    };
    let plan = first_networks(alloc, walk, sites)?;
    if plan.len() < sites {
        return Err(PlanError::TooFew);
    }
    Ok(plan)
}
