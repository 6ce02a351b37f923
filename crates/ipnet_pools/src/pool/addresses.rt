//! The addresses of a pool: sets and counts of them, and pools that grow or shrink.
ghost use Rattle.std.specs.Prelude.{◌≡◌, ◌↔◌, ◌⊎◌, Err, IfOk, OnOk, IsErr, IfSome, IfNone, IsNone};
ghost use Rattle.ipnet_base.specs.Address.{Address, IPv4, IPv6, IsAddress};
ghost use Rattle.ipnet.specs.declared.net.IpNet.{IpNet as Net};
ghost use Rattle.ipnet_sets.specs.Members.{IsMember, IsCountOf};
ghost use Rattle.ipnet_pools.specs.declared.error.PoolError.TheVariants.{NotFree, Memory};

use super::IpPool;
use crate::error::PoolError;
use crate::leases;
use ipnet::IpNet;
use ipnet_sets::IpSet;
use std::alloc::{AllocError, Global};

impl<V: Drop> IpPool<V> {
    ghost use Rattle.ipnet_pools.specs.PoolOf.{IsOfPool, IsFree, IsOfPoolIn, IsFreeIn, IsInUse, IsLeasedIn};
    ghost use Rattle.ipnet_pools.specs.PoolOf.{IsSamePool, IsExtended, IsShrunk, IsFirstInTheWay};

    /// Returns the set of the free addresses; its ranges are the free ranges. Fails only if memory runs out.
    ///
    /// ```text
    /// 10.0.0.0/24 after take 10.0.0.0/26: 10.0.0.64 to 10.0.0.255
    /// ```
    pub fn free_set(&self, alloc: Global) -> Result<IpSet, AllocError>
        ensures { IfOk result (λ s. (x : Address) → IsMember s x ↔ IsFree self.now x) }
    {
        self.free.set(alloc)
    }

    /// Returns the number of IPv4 addresses in the pool, 0 to 2^32.
    ///
    /// ```text
    /// 10.0.0.0/24 after take 10.0.0.0/26: 256
    /// ```
    pub fn ipv4_count(&self) -> u64
        ensures { IsCountOf (IsOfPoolIn IPv4 self.now) result }
    {
        self.whole.ipv4_count()
    }

    /// Returns the number of IPv6 addresses in the pool, or `None` if the pool has all 2^128 of them.
    ///
    /// ```text
    /// 2001:db8::/120 after take 2001:db8::/121: Some(256)
    /// ```
    pub fn ipv6_count(&self) -> Option<u128>
        ensures none { IsNone result ↔ ((x : Address) → IsAddress x → x.family ≡ IPv6 → IsOfPool self.now x) }
        ensures some { IfSome result (IsCountOf (IsOfPoolIn IPv6 self.now)) }
    {
        self.whole.ipv6_count()
    }

    /// Returns the set of the leased addresses. Fails only if memory runs out.
    ///
    /// ```text
    /// 10.0.0.0/24 after take 10.0.0.0/26: 10.0.0.0 to 10.0.0.63
    /// ```
    pub fn leased_set(&self, alloc: Global) -> Result<IpSet, AllocError>
        ensures { IfOk result (λ s. (x : Address) → IsMember s x ↔ IsInUse self.now x) }
    {
        let free = self.free_set(alloc)?;
        self.whole.difference(alloc, &free)
    }

    /// Returns the number of free IPv4 addresses, 0 to 2^32. Fails only if memory runs out.
    ///
    /// ```text
    /// 10.0.0.0/24 after take 10.0.0.0/26: 192
    /// ```
    pub fn ipv4_free_count(&self, alloc: Global) -> Result<u64, AllocError>
        ensures { IfOk result (IsCountOf (IsFreeIn IPv4 self.now)) }
    {
        let free = self.free_set(alloc)?;
        Ok(free.ipv4_count())
    }

    /// Returns the number of free IPv6 addresses, or `None` if all 2^128 of them are free. Fails only if memory runs
    /// out.
    ///
    /// ```text
    /// 2001:db8::/120 after take 2001:db8::/121: Some(128)
    /// ```
    pub fn ipv6_free_count(&self, alloc: Global) -> Result<Option<u128>, AllocError>
        ensures none { IfOk result (λ o. IsNone o
            ↔ ((x : Address) → IsAddress x → x.family ≡ IPv6 → IsFree self.now x)) }
        ensures some { IfOk result (λ o. IfSome o (IsCountOf (IsFreeIn IPv6 self.now))) }
    {
        let free = self.free_set(alloc)?;
        Ok(free.ipv6_count())
    }

    /// Returns the number of leased IPv4 addresses, 0 to 2^32. Fails only if memory runs out.
    ///
    /// ```text
    /// 10.0.0.0/24 after take 10.0.0.0/26: 64
    /// ```
    pub fn ipv4_leased_count(&self, alloc: Global) -> Result<u64, AllocError>
        ensures { IfOk result (IsCountOf (IsLeasedIn IPv4 self.now)) }
    {
        let leased = self.leased_set(alloc)?;
        Ok(leased.ipv4_count())
    }

    /// Returns the number of leased IPv6 addresses, or `None` if all 2^128 of them are leased. Fails only if memory
    /// runs out.
    ///
    /// ```text
    /// 2001:db8::/120 after take 2001:db8::/121: Some(128)
    /// ```
    pub fn ipv6_leased_count(&self, alloc: Global) -> Result<Option<u128>, AllocError>
        ensures none { IfOk result (λ o. IsNone o
            ↔ ((x : Address) → IsAddress x → x.family ≡ IPv6 → IsInUse self.now x)) }
        ensures some { IfOk result (λ o. IfSome o (IsCountOf (IsLeasedIn IPv6 self.now))) }
    {
        let leased = self.leased_set(alloc)?;
        Ok(leased.ipv6_count())
    }

    /// Adds the addresses of the set to the pool. The new addresses are free, and no lease changes. Fails only if
    /// memory runs out, and then the pool is as it was.
    ///
    /// ```text
    /// 10.0.0.0/25 after take 10.0.0.0/26, extended by 10.0.0.0/24: 10.0.0.64 to 10.0.0.255 are free
    /// ```
    pub fn extend(&mut self, alloc: Global, set: &IpSet) -> Result<(), AllocError>
        ensures extended { OnOk result (IsExtended self.old self.new set.now) }
        ensures unchanged { IsErr result → IsSamePool self.old self.new }
    {
        let whole = self.whole.union(alloc, set)?;
        let fresh = set.difference(alloc, &self.whole)?;
        self.free.add_set(alloc, &fresh)?;
        self.whole = whole;
        Ok(())
    }

    /// Returns the first lease that shares an address with the set, or `None` if there is no such lease. Allocates
    /// nothing.
    fn first_lease_in(&self, set: &IpSet) -> Option<IpNet>
        ensures found { IfSome result (IsFirstInTheWay self.now (IsMember set.now)) }
        ensures none { IfNone result ((x : Address) → IsMember set.now x → IsOfPool self.now x
            → IsFree self.now x) }
    {
        for network in set.iter_networks() {
            if let Some(lease) = leases::first_touching(&self.leases, &network) {
                return Some(lease);
            }
        }
        None
    }

    /// Removes the addresses of the set from the pool. No lease changes.
    ///
    /// The error is `NotFree` exactly if some address of the set is leased, also if no memory is left. The error has
    /// the first lease that shares an address with the set. After an error the pool is as it was.
    ///
    /// ```text
    /// 10.0.0.0/24 after take 10.0.0.0/26, without 10.0.0.128/25: 10.0.0.64/26 is free
    /// 10.0.0.0/24 after take 10.0.0.0/26, without 10.0.0.32/27: NotFree, with 10.0.0.0/26
    /// ```
    pub fn shrink(&mut self, alloc: Global, set: &IpSet) -> Result<(), PoolError>
        ensures shrunk { OnOk result (IsShrunk self.old self.new set.now) }
        ensures not_free { ((n : Net) × (result ≡ Err (NotFree n)))
            ↔ ¬ ((x : Address) → IsMember set.now x → IsOfPool self.old x → IsFree self.old x) }
        ensures in_the_way { (n : Net) → result ≡ Err (NotFree n)
            → IsFirstInTheWay self.old (IsMember set.now) n }
        ensures unchanged { IsErr result → IsSamePool self.old self.new }
        ensures errors { IsErr result → ((n : Net) × (result ≡ Err (NotFree n))) ⊎ (result ≡ Err Memory) }
    {
        if let Some(lease) = self.first_lease_in(set) {
            return Err(PoolError::NotFree(lease));
        }
        let whole = self.whole.difference(alloc, set)?;
        self.free.cut_set(alloc, set)?;
        self.whole = whole;
        Ok(())
    }
}
