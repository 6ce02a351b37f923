//! A pool that hands out networks of a block.
ghost use Rattle.std.specs.Prelude.{◌↔◌, ◌≡◌, ◌⊎◌, IfOk, IfSome, IsTrue, false};
ghost use Rattle.ipnet.specs.Address.{Address};
ghost use Rattle.ipnet.specs.Network.{InBlock};
ghost use Rattle.ipnet.specs.NetworkOf.{ip_network};

use ipnet::IpNet;
use ipnet_sets::IpSet;
use std::alloc::{AllocError, Global};

/// A block of addresses, some of which are free.
#[derive(Drop)]
pub struct Pool {
    block: IpNet,
    free: IpSet,
}

impl Pool {
    ghost use Rattle.example_first_crate.specs.Pools.{IsFree};

    /// The pool of a block, all free. Fails only if memory runs out, as the other calls do.
    pub fn new(alloc: Global, block: IpNet) -> Result<Pool, AllocError>
        ensures { IfOk result (λ pool. (x : Address) → IsFree pool x ↔ InBlock (ip_network block) x) }
    {
        let free = IpSet::from_network(alloc, &block)?;
        Ok(Pool { block, free })
    }

    /// A free network of this prefix length, if there is one.
    fn find(&self, alloc: Global, prefix_len: u8) -> Result<Option<IpNet>, AllocError>
        ensures free { IfOk result (λ found. IfSome found (λ n.
            (x : Address) → InBlock (ip_network n) x → IsFree self.now x)) }
        ensures length { IfOk result (λ found. IfSome found (λ n. (ip_network n).prefix_len ≡ prefix_len)) }
    {
        for network in &self.free.networks(alloc)? {
            if let Ok(subnets) = network.subnets(prefix_len) {
                let mut subnets = subnets;
                if let Some(found) = subnets.next() {
                    if found.prefix_len() == prefix_len && self.free.covers(&found) {
                        return Ok(Some(found));
                    }
                }
            }
        }
        Ok(None)
    }

    /// Takes a free network of this prefix length out of the pool; `None` if it finds none.
    pub fn allocate(&mut self, alloc: Global, prefix_len: u8) -> Result<Option<IpNet>, AllocError>
        ensures was_free { IfOk result (λ taken. IfSome taken (λ n.
            (x : Address) → InBlock (ip_network n) x → IsFree self.old x)) }
        ensures length { IfOk result (λ taken. IfSome taken (λ n. (ip_network n).prefix_len ≡ prefix_len)) }
        ensures rest { IfOk result (λ taken. IfSome taken (λ n. (x : Address) → IsFree self.new x
            ↔ IsFree self.old x × ¬ (InBlock (ip_network n) x))) }
    {
        let Some(found) = self.find(alloc, prefix_len)? else {
            return Ok(None);
        };
        let taken = IpSet::from_network(alloc, &found)?;
        self.free = self.free.difference(alloc, &taken)?;
        Ok(Some(found))
    }

    /// Puts a network back into the pool. Returns false, and changes nothing, if the network is not in the block or
    /// some address of it is free.
    pub fn release(&mut self, alloc: Global, network: &IpNet) -> Result<bool, AllocError>
        ensures free { IfOk result (λ done. IsTrue done → (x : Address) → IsFree self.new x
            ↔ IsFree self.old x ⊎ InBlock (ip_network network.now) x) }
        ensures was_taken { IfOk result (λ done. IsTrue done
            → (x : Address) → InBlock (ip_network network.now) x → ¬ (IsFree self.old x)) }
        ensures refused { IfOk result (λ done. done ≡ false → self.new ≡ self.old) }
    {
        let back = IpSet::from_network(alloc, network)?;
        if !back.is_disjoint(&self.free) || !self.block.contains(network) {
            return Ok(false);
        }
        self.free = self.free.union(alloc, &back)?;
        Ok(true)
    }
}
