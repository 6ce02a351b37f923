//! The free addresses of a pool.
ghost use Rattle.std.specs.Prelude.{◌≡◌, ◌↔◌, ◌⊎◌, Err, IfOk, OnOk, OnErr, IsErr, IfSome, IfNone};
ghost use Rattle.ipnet_base.specs.Address.{Address};
ghost use Rattle.ipnet_base.specs.Network.{InBlock, IsTruncated};
ghost use Rattle.ipnet.specs.NetworkOf.{ip_network};
ghost use Rattle.ipnet_sets.specs.Members.{IsMember};
ghost use Rattle.ipnet_pools.specs.BlocksOf.{blocks_of};
ghost use Rattle.ipnet_pools.specs.FitSteps.{HasRequested, shortened_to};
ghost use Rattle.ipnet_pools.specs.Fits.{HasRoom, IsBestFit};
ghost use Rattle.ipnet_pools.specs.OwnBlocks.{AreOwnBlocks};
ghost use Rattle.ipnet_pools.specs.declared.error.PoolError.TheVariants.{Exhausted, Memory};

use crate::block_set::BlockSet;
use crate::error::PoolError;
use crate::pieces;
use ipnet::IpNet;
use ipnet_sets::IpSet;
use std::alloc::{AllocError, Global};

/// Returns the first network of the request's length in the block.
fn at_start(block: &IpNet, request: &IpNet) -> IpNet
    requires { HasRequested (ip_network request.now) (ip_network block.now) }
    ensures { ip_network result ≡ shortened_to (ip_network request.now).prefix_len (ip_network block.now) }
{
    IpNet::new_assert(block.addr(), request.prefix_len())
}

/// The free addresses of a pool, as the fewest networks.
#[derive(Drop)]
pub(crate) struct FreeBlocks {
    blocks: BlockSet,
    ghost own: { AreOwnBlocks (blocks_of blocks) },
}

impl FreeBlocks {
    ghost use Rattle.ipnet_pools.specs.FreeOf.{IsIn, HaveSameFree, IsCut, IsAdded};

    /// Returns the addresses of the set. Fails only if memory runs out.
    pub(crate) fn new(alloc: Global, set: &IpSet) -> Result<FreeBlocks, AllocError>
        ensures { IfOk result (λ free. (x : Address) → IsIn free x ↔ IsMember set.now x) }
    {
        let networks = set.networks(alloc)?;
        let blocks = BlockSet::from_networks(alloc, &networks)?;
        Ok(FreeBlocks { blocks })
    }

    /// Returns the best fit for the request, or `None` if no network of its prefix length is free. Only the family and
    /// the prefix length of `request` count.
    pub(crate) fn best(&self, request: &IpNet) -> Option<IpNet>
        ensures best { IfSome result (λ n. IsBestFit (IsIn self.now) (ip_network request.now).family
            (ip_network request.now).prefix_len (ip_network n)) }
        ensures none { IfNone result (¬ (HasRoom (IsIn self.now) (ip_network request.now).family
            (ip_network request.now).prefix_len)) }
    {
        let block = self.blocks.first_for(request)?;
        Some(at_start(&block, request))
    }

    /// Removes and returns the best fit for the request. The error is `Exhausted` if no network of its prefix length is
    /// free, and otherwise `Memory`. After an error the same addresses are free.
    pub(crate) fn assign(&mut self, request: &IpNet) -> Result<IpNet, PoolError>
        ensures cut { IfOk result (λ n. IsCut self.old self.new (ip_network n)) }
        ensures best { IfOk result (λ n. IsBestFit (IsIn self.old) (ip_network request.now).family
            (ip_network request.now).prefix_len (ip_network n)) }
        ensures exhausted { result ≡ Err Exhausted → ¬ (HasRoom (IsIn self.old) (ip_network request.now).family
            (ip_network request.now).prefix_len) }
        ensures errors { IsErr result → (result ≡ Err Exhausted) ⊎ (result ≡ Err Memory) }
    {
        let Some(network) = self.best(request) else {
            return Err(PoolError::Exhausted);
        };
        self.cut(&network)?;
        Ok(network)
    }

    /// Removes the network's addresses, which are free. Fails only if memory runs out, and then the same addresses are
    /// free as before.
    pub(crate) fn cut(&mut self, network: &IpNet) -> Result<(), AllocError>
        requires truncated { IsTruncated (ip_network network.now) }
        requires free { (x : Address) → InBlock (ip_network network.now) x → IsIn self.old x }
        ensures cut { OnOk result (IsCut self.old self.new (ip_network network.now)) }
        ensures same { OnErr result (HaveSameFree self.old self.new) }
    {
        let Some(block) = pieces::holder(&self.blocks, network) else {
            unreachable!();
        };
        pieces::split(&mut self.blocks, network, &block)?;
        self.blocks.remove(&block);
        Ok(())
    }

    /// Adds the network's addresses, none of which is free. Fails only if memory runs out, and then the same addresses
    /// are free as before.
    pub(crate) fn add(&mut self, network: &IpNet) -> Result<(), AllocError>
        requires truncated { IsTruncated (ip_network network.now) }
        requires leased { (x : Address) → InBlock (ip_network network.now) x → ¬ (IsIn self.old x) }
        ensures added { OnOk result (IsAdded self.old self.new (ip_network network.now)) }
        ensures same { OnErr result (HaveSameFree self.old self.new) }
    {
        pieces::join(&mut self.blocks, network)
    }

    /// Returns the set of the free addresses. Fails only if memory runs out.
    pub(crate) fn set(&self, alloc: Global) -> Result<IpSet, AllocError>
        ensures { IfOk result (λ s. (x : Address) → IsMember s x ↔ IsIn self.now x) }
    {
        let networks = self.blocks.networks(alloc)?;
        IpSet::from_networks(alloc, &networks)
    }

    /// Adds the addresses of the set. Fails only if memory runs out, and then nothing changes.
    pub(crate) fn add_set(&mut self, alloc: Global, set: &IpSet) -> Result<(), AllocError>
        ensures added { OnOk result ((x : Address) → IsIn self.new x ↔ (IsIn self.old x ⊎ IsMember set.now x)) }
        ensures unchanged { OnErr result (self.new ≡ self.old) }
    {
        let all = self.set(alloc)?.union(alloc, set)?;
        let free = FreeBlocks::new(alloc, &all)?;
        *self = free;
        Ok(())
    }

    /// Removes the addresses of the set. Fails only if memory runs out, and then nothing changes.
    pub(crate) fn cut_set(&mut self, alloc: Global, set: &IpSet) -> Result<(), AllocError>
        ensures cut { OnOk result ((x : Address) → IsIn self.new x ↔ (IsIn self.old x × ¬ (IsMember set.now x))) }
        ensures unchanged { OnErr result (self.new ≡ self.old) }
    {
        let rest = self.set(alloc)?.difference(alloc, set)?;
        let free = FreeBlocks::new(alloc, &rest)?;
        *self = free;
        Ok(())
    }
}
