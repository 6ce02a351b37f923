//! A pool that assigns the subnets of a block one by one.
ghost use Rattle.std.specs.Prelude.{◌≡◌, ◌<◌, ◌≤◌, ◌⊎◌, ◌↔◌, ◌++◌, [], ◌∷◌, map, All, IfOk, IsErr, MatchOption};
ghost use Rattle.ipnet.specs.Blocks.{ArePairwiseDisjoint};
ghost use Rattle.ipnet.specs.NetworkOf.{ipv4_network};
ghost use Rattle.ipnet.specs.NetworkParts.{IsSubnetOfLength, AreSubnetsOfLength};
ghost use Rattle.ipnet.specs.SubnetsLeft.{ipv4_subnets_left};

use ipnet::{Ipv4Net, Ipv4Subnets, PrefixLenError};
use std::alloc::{AllocError, Global};

/// A block whose subnets of one length are assigned in ascending order, each once.
///
/// In every pool, whatever calls were made, the assigned networks are subnets of the block with this length, and no two
/// of them share an address.
///
/// ```text
/// 10.1.0.0/24 in subnets of length 26: 10.1.0.0/26, 10.1.0.64/26, 10.1.0.128/26, 10.1.0.192/26, and then none
/// ```
#[derive(Drop)]
pub struct Pool {
    block: Ipv4Net,
    prefix_len: u8,
    assigned: Vec<Ipv4Net>,
    free: Ipv4Subnets,
    ghost within: { All (IsSubnetOfLength (ipv4_network block) prefix_len)
        (map ipv4_network assigned.items ++ ipv4_subnets_left free) },
    ghost apart: { ArePairwiseDisjoint (map ipv4_network assigned.items ++ ipv4_subnets_left free) },
}

impl Pool {
    ghost use Rattle.example_pools.specs.Pools.{block_of, length_of, assigned_of, free_of};

    /// The pool of all subnets of this length. None of them is assigned yet.
    ///
    /// Fails if the length is below the prefix length of the block, or above 32.
    pub fn new(alloc: Global, block: Ipv4Net, prefix_len: u8) -> Result<Pool, PrefixLenError>
        ensures block { IfOk result (λ pool. (block_of pool ≡ ipv4_network block) × (length_of pool ≡ prefix_len)) }
        ensures free { IfOk result (λ pool. AreSubnetsOfLength (ipv4_network block) prefix_len (free_of pool)) }
        ensures none_assigned { IfOk result (λ pool. assigned_of pool ≡ []) }
        ensures refused { IsErr result ↔ ((prefix_len < (ipv4_network block).prefix_len) ⊎ (32 < prefix_len)) }
    {
        let free = block.subnets(prefix_len)?;
        Ok(Pool {
            block,
            prefix_len,
            assigned: Vec::new(alloc),
            free,
        })
    }

    /// Assigns and returns the next free subnet; `None` if all are assigned.
    ///
    /// Fails only when memory runs out. Then the pool is unchanged.
    pub fn assign(&mut self) -> Result<Option<Ipv4Net>, AllocError>
        ensures next { IfOk result (λ answer. MatchOption answer
            ((free_of self.old ≡ []) × (free_of self.new ≡ []) × (assigned_of self.new ≡ assigned_of self.old))
            (λ n. (free_of self.old ≡ ipv4_network n ∷ free_of self.new)
            × (assigned_of self.new ≡ assigned_of self.old ++ (ipv4_network n ∷ [])))) }
        ensures block { (block_of self.new ≡ block_of self.old) × (length_of self.new ≡ length_of self.old) }
        ensures unchanged { IsErr result
            → (free_of self.new ≡ free_of self.old) × (assigned_of self.new ≡ assigned_of self.old) }
    {
        let mut free = self.free;
        let Some(subnet) = free.next() else {
            return Ok(None);
        };
        self.assigned.push(subnet)?;
        self.free = free;
        Ok(Some(subnet))
    }

    /// The subnets assigned so far, in the order of the calls.
    pub fn assigned(&self) -> &[Ipv4Net]
        ensures all { map ipv4_network result.now ≡ assigned_of self.now }
        ensures subnets { All (IsSubnetOfLength (block_of self.now) (length_of self.now))
            (map ipv4_network result.now) }
        ensures disjoint { ArePairwiseDisjoint (map ipv4_network result.now) }
    {
        self.assigned.as_slice()
    }
}
