//! Pools of addresses.
ghost use Rattle.std.specs.Prelude.{◌≡◌, ◌↔◌, ◌⊎◌, ◌<◌, ◌≤◌, ◌∷◌, List, Err, map, length, IfOk, OnOk, IfErr, IsErr};
ghost use Rattle.std.specs.Prelude.{IfSome, IfNone, IsTrue};
ghost use Rattle.ipnet_base.specs.Address.{Address, IPv4, IPv6, ip_address};
ghost use Rattle.ipnet_base.specs.Network.{Network, InBlock, AreDisjoint, IsTruncated, truncation};
ghost use Rattle.ipnet_base.specs.Blocks.{AreMaximalBlocks, IsAscending};
ghost use Rattle.ipnet.specs.NetworkOf.{ip_network};
ghost use Rattle.ipnet_sets.specs.Members.{IsMember};
ghost use Rattle.ipnet_pools.specs.Fits.{HasRoom, IsBestFit};
ghost use Rattle.ipnet_pools.specs.FreeOf.{IsIn};
ghost use Rattle.ipnet_pools.specs.Leases.{HasLeaseOf, AreLeases, LieIn, IsRestOf};
ghost use Rattle.ipnet_pools.specs.Placements.{Request, CanPlace};
ghost use Rattle.ipnet_pools.specs.declared.error.PoolError.TheVariants.{PrefixLen, Exhausted, NotLeased};
ghost use Rattle.ipnet_pools.specs.declared.error.PoolError.TheVariants.{NotInPool, Memory};

pub mod addresses;

use crate::error::{PoolError, Refused};
use crate::free::FreeBlocks;
use crate::leases;
use ipnet::{IpAddr, IpNet, Ipv4Addr, Ipv4Net, Ipv6Addr, Ipv6Net};
use ipnet_sets::IpSet;
use std::alloc::{AllocError, Global};
use std::collections::BTreeMap;
use std::collections::btree_map::Iter;
use std::fmt;

/// A set of addresses, and leases: networks inside it, each with a value. The addresses outside all leases are free.
///
/// ```text
/// from 10.0.0.0/24: a /26 is 10.0.0.0/26, then a /25 is 10.0.0.128/25, then a /27 is 10.0.0.64/27
/// ```
#[derive(Drop)]
pub struct IpPool<V> {
    whole: IpSet,
    free: FreeBlocks,
    leases: BTreeMap<IpNet, V>,
    ghost apart: { AreLeases leases.entries },
    ghost within: { LieIn leases.entries (IsMember whole) },
    ghost rest: { IsRestOf (IsIn free) leases.entries (IsMember whole) },
}

impl<V: Drop> IpPool<V> {
    ghost use Rattle.ipnet_pools.specs.PoolOf.{IsOfPool, IsFree, leases_of, IsLeased, IsLeaseOf};
    ghost use Rattle.ipnet_pools.specs.PoolOf.{IsSamePool, IsTaken, IsReleased};
    ghost use Rattle.ipnet_pools.specs.Refusals.{IsErrorOf, IsNotFree, IfNotFree};

    /// Returns the pool of the set's addresses, all of them free. Fails only if memory runs out.
    ///
    /// ```text
    /// from 10.0.0.0/24: 10.0.0.0/24 is free, and there is no lease
    /// ```
    pub fn new(alloc: Global, set: &IpSet) -> Result<IpPool<V>, AllocError>
        ensures whole { IfOk result (λ pool. (x : Address) → IsOfPool pool x ↔ IsMember set.now x) }
        ensures free { IfOk result (λ pool. (x : Address) → IsFree pool x ↔ IsMember set.now x) }
        ensures leases { IfOk result (λ pool. (n : Network) (v : V) → ¬ (IsLeased pool n v)) }
    {
        let whole = set.clone()?;
        let free = FreeBlocks::new(alloc, set)?;
        let leases = BTreeMap::new(alloc);
        Ok(IpPool {
            whole,
            free,
            leases,
        })
    }

    /// Leases the network, which is free and has no host bits.
    fn lease(&mut self, network: IpNet, value: V) -> Result<(), Refused<V>>
        requires truncated { IsTruncated (ip_network network) }
        requires free { (x : Address) → InBlock (ip_network network) x → IsFree self.old x }
        ensures taken { OnOk result (IsTaken self.old self.new (ip_network network) value) }
        ensures unchanged { IsErr result → IsSamePool self.old self.new }
        ensures value { IfErr result (λ refused. refused.value ≡ value) }
        ensures error { IfErr result (λ refused. refused.error ≡ Memory) }
    {
        if let Err(value) = leases::insert(&mut self.leases, network, value) {
            return Err(Refused {
                error: PoolError::Memory,
                value,
            });
        }
        match self.free.cut(&network) {
            Ok(()) => Ok(()),
            Err(_) => match leases::remove(&mut self.leases, &network) {
                Some(value) => Err(Refused {
                    error: PoolError::Memory,
                    value,
                }),
                None => unreachable!(),
            },
        }
    }

    /// Ends the lease of the network, and returns its value.
    fn end(&mut self, network: &IpNet) -> Result<V, PoolError>
        requires truncated { IsTruncated (ip_network network.now) }
        requires leased { HasLeaseOf self.old.leases.entries network.now }
        ensures released { IfOk result (λ v. IsReleased self.old self.new (ip_network network.now) v) }
        ensures unchanged { IsErr result → IsSamePool self.old self.new }
        ensures error { IsErr result → result ≡ Err Memory }
    {
        self.free.add(network)?;
        match leases::remove(&mut self.leases, network) {
            Some(value) => Ok(value),
            None => unreachable!(),
        }
    }

    /// Leases the network with the value. The network's host bits do not count.
    ///
    /// The error is `NotInPool` if some address of the network does not belong to the pool. Otherwise it is `NotFree`,
    /// with the lease in the way, if some address of the network is leased. An error hands the value back, and the pool
    /// is as it was.
    ///
    /// ```text
    /// take 10.0.0.64/26 from 10.0.0.0/24: then 10.0.0.0/26 and 10.0.0.128/25 are free
    /// ```
    pub fn take(&mut self, network: &IpNet, value: V) -> Result<(), Refused<V>>
        ensures taken { OnOk result (IsTaken self.old self.new (truncation (ip_network network.now)) value) }
        ensures not_in_pool { IsErrorOf result NotInPool
            ↔ ¬ ((x : Address) → InBlock (ip_network network.now) x → IsOfPool self.old x) }
        ensures not_free { IsNotFree result
            ↔ (((x : Address) → InBlock (ip_network network.now) x → IsOfPool self.old x)
            × ¬ ((x : Address) → InBlock (ip_network network.now) x → IsFree self.old x)) }
        ensures in_the_way { IfNotFree result (λ lease. IsLeaseOf self.old lease
            × ¬ (AreDisjoint (ip_network lease) (ip_network network.now))) }
        ensures unchanged { IsErr result → IsSamePool self.old self.new }
        ensures value { IfErr result (λ refused. refused.value ≡ value) }
        ensures errors { IsErr result
            → IsErrorOf result NotInPool ⊎ (IsNotFree result ⊎ IsErrorOf result Memory) }
    {
        if !self.whole.covers(network) {
            return Err(Refused {
                error: PoolError::NotInPool,
                value,
            });
        }
        if let Some((lease, _)) = leases::touching(&self.leases, network) {
            return Err(Refused {
                error: PoolError::NotFree(*lease),
                value,
            });
        }
        self.lease(network.trunc(), value)
    }

    /// Ends the lease of the network, and returns its value. The network's host bits do not count.
    ///
    /// The error is `NotLeased` if the network is not exactly a lease: a part of a lease is not enough. After an error
    /// the pool is as it was.
    ///
    /// ```text
    /// after take 10.0.0.64/26: release 10.0.0.64/27 is NotLeased, and release 10.0.0.64/26 returns the value
    /// ```
    pub fn release(&mut self, network: &IpNet) -> Result<V, PoolError>
        ensures released { IfOk result (λ v. IsReleased self.old self.new (truncation (ip_network network.now)) v) }
        ensures not_leased { (result ≡ Err NotLeased)
            ↔ ((v : V) → ¬ (IsLeased self.old (truncation (ip_network network.now)) v)) }
        ensures unchanged { IsErr result → IsSamePool self.old self.new }
        ensures errors { IsErr result → (result ≡ Err NotLeased) ⊎ (result ≡ Err Memory) }
    {
        let network = network.trunc();
        if !leases::contains(&self.leases, &network) {
            return Err(PoolError::NotLeased);
        }
        self.end(&network)
    }

    /// Leases the best fit for the request. Only the family and the prefix length of `request` count.
    fn assign(&mut self, request: &IpNet, value: V) -> Result<IpNet, Refused<V>>
        ensures taken { IfOk result (λ n. IsTaken self.old self.new (ip_network n) value) }
        ensures best { IfOk result (λ n. IsBestFit (IsFree self.old) (ip_network request.now).family
            (ip_network request.now).prefix_len (ip_network n)) }
        ensures exhausted { IsErrorOf result Exhausted ↔ ¬ (HasRoom (IsFree self.old) (ip_network request.now).family
            (ip_network request.now).prefix_len) }
        ensures unchanged { IsErr result → IsSamePool self.old self.new }
        ensures value { IfErr result (λ refused. refused.value ≡ value) }
        ensures errors { IfErr result (λ refused. (refused.error ≡ Exhausted) ⊎ (refused.error ≡ Memory)) }
    {
        let Some(network) = self.free.best(request) else {
            return Err(Refused {
                error: PoolError::Exhausted,
                value,
            });
        };
        match self.lease(network, value) {
            Ok(()) => Ok(network),
            Err(refused) => Err(refused),
        }
    }

    /// Leases the best fit for an IPv4 prefix length with the value, and returns it: the first network in the smallest
    /// free block that is large enough.
    ///
    /// The error is `PrefixLen` above 32, and `Exhausted` if no network of this length is free. An error hands the
    /// value back, and the pool is as it was.
    ///
    /// ```text
    /// from 10.0.0.0/25 and 10.0.0.192/26: a /27 is 10.0.0.192/27, and then a /25 is 10.0.0.0/25
    /// ```
    pub fn assign_ipv4(&mut self, prefix_len: u8, value: V) -> Result<IpNet, Refused<V>>
        ensures taken { IfOk result (λ n. IsTaken self.old self.new (ip_network n) value) }
        ensures best { IfOk result (λ n. IsBestFit (IsFree self.old) IPv4 prefix_len (ip_network n)) }
        ensures keeps { IfOk result (λ n. (requests : List Request)
            → CanPlace (IsFree self.old) ((IPv4, prefix_len) ∷ requests) → CanPlace (IsFree self.new) requests) }
        ensures prefix_len { IsErrorOf result PrefixLen ↔ (32 < prefix_len) }
        ensures exhausted { IsErrorOf result Exhausted
            ↔ ((prefix_len ≤ 32) × ¬ (HasRoom (IsFree self.old) IPv4 prefix_len)) }
        ensures unchanged { IsErr result → IsSamePool self.old self.new }
        ensures value { IfErr result (λ refused. refused.value ≡ value) }
        ensures errors { IfErr result (λ refused.
            (refused.error ≡ PrefixLen) ⊎ ((refused.error ≡ Exhausted) ⊎ (refused.error ≡ Memory))) }
    {
        match Ipv4Net::new(Ipv4Addr::new(0, 0, 0, 0), prefix_len) {
            Ok(request) => self.assign(&IpNet::V4(request), value),
            Err(_) => Err(Refused {
                error: PoolError::PrefixLen,
                value,
            }),
        }
    }

    /// Leases the best fit for an IPv6 prefix length with the value, and returns it, as `assign_ipv4` does. The error
    /// is `PrefixLen` above 128.
    ///
    /// ```text
    /// from 2001:db8::/32: a /48 is 2001:db8::/48
    /// ```
    pub fn assign_ipv6(&mut self, prefix_len: u8, value: V) -> Result<IpNet, Refused<V>>
        ensures taken { IfOk result (λ n. IsTaken self.old self.new (ip_network n) value) }
        ensures best { IfOk result (λ n. IsBestFit (IsFree self.old) IPv6 prefix_len (ip_network n)) }
        ensures keeps { IfOk result (λ n. (requests : List Request)
            → CanPlace (IsFree self.old) ((IPv6, prefix_len) ∷ requests) → CanPlace (IsFree self.new) requests) }
        ensures prefix_len { IsErrorOf result PrefixLen ↔ (128 < prefix_len) }
        ensures exhausted { IsErrorOf result Exhausted
            ↔ ((prefix_len ≤ 128) × ¬ (HasRoom (IsFree self.old) IPv6 prefix_len)) }
        ensures unchanged { IsErr result → IsSamePool self.old self.new }
        ensures value { IfErr result (λ refused. refused.value ≡ value) }
        ensures errors { IfErr result (λ refused.
            (refused.error ≡ PrefixLen) ⊎ ((refused.error ≡ Exhausted) ⊎ (refused.error ≡ Memory))) }
    {
        match Ipv6Net::new(Ipv6Addr::new(0, 0, 0, 0, 0, 0, 0, 0), prefix_len) {
            Ok(request) => self.assign(&IpNet::V6(request), value),
            Err(_) => Err(Refused {
                error: PoolError::PrefixLen,
                value,
            }),
        }
    }

    /// Returns the value of the network's lease, or `None` if the network is not exactly a lease. The network's host
    /// bits do not count.
    ///
    /// ```text
    /// after take 10.0.0.64/26: get 10.0.0.64/26 is the value, and get 10.0.0.64/27 is None
    /// ```
    pub fn get(&self, network: &IpNet) -> Option<&V>
        ensures found { IfSome result (λ v. IsLeased self.now (truncation (ip_network network.now)) v.now) }
        ensures none { IfNone result ((v : V) → ¬ (IsLeased self.now (truncation (ip_network network.now)) v)) }
    {
        let network = network.trunc();
        leases::get(&self.leases, &network)
    }

    /// Returns the lease that contains the address, with its value, or `None` if the address is not leased.
    ///
    /// ```text
    /// after take 10.0.0.64/26: lease_of 10.0.0.70 is 10.0.0.64/26, and lease_of 10.0.0.1 is None
    /// ```
    pub fn lease_of(&self, address: IpAddr) -> Option<(&IpNet, &V)>
        ensures found { IfSome result (λ r. IsLeased self.now (ip_network r.0.now) r.1.now
            × InBlock (ip_network r.0.now) (ip_address address)) }
        ensures none { IfNone result ((n : Network) (v : V) → IsLeased self.now n v
            → ¬ (InBlock n (ip_address address))) }
    {
        let host = IpNet::from(address);
        leases::touching(&self.leases, &host)
    }

    /// Returns the leases with their values, in the order of their networks.
    ///
    /// ```text
    /// after take 10.0.0.64/26 and assign_ipv4(26): 10.0.0.0/26, 10.0.0.64/26
    /// ```
    pub fn leases(&self) -> Iter<'_, IpNet, V>
        ensures leases { result ≡ leases_of self.now }
        ensures ascending { IsAscending (map (λ lease. ip_network lease.0) (leases_of self.now)) }
    {
        leases::are_ascending(&self.leases);
        self.leases.iter()
    }

    /// Returns the number of leases.
    ///
    /// ```text
    /// after take 10.0.0.64/26: 1
    /// ```
    pub fn lease_count(&self) -> usize
        ensures { result ≡ length (leases_of self.now) }
    {
        self.leases.len()
    }

    /// No address is in two leases of the pool. The call computes nothing; its contract is a fact for the proofs of its
    /// callers.
    ///
    /// ```text
    /// after take 10.0.0.64/26 with value 7: no other lease contains 10.0.0.70, and no lease of it has another value
    /// ```
    pub fn has_one_lease_of_each_address(&self)
        ensures { (n m : Network) (v w : V) (x : Address) → IsLeased self.now n v → IsLeased self.now m w
            → InBlock n x → InBlock m x → (n ≡ m) × (v ≡ w) }
    {
        leases::have_one_value(&self.leases);
    }

    /// Whether every address of the network is free.
    ///
    /// ```text
    /// after take 10.0.0.64/26: 10.0.0.128/25 is free, and 10.0.0.0/25 is not
    /// ```
    pub fn is_free(&self, network: &IpNet) -> bool
        ensures { IsTrue result ↔ ((x : Address) → InBlock (ip_network network.now) x → IsFree self.now x) }
    {
        match leases::touching(&self.leases, network) {
            Some(_) => false,
            None => self.whole.covers(network),
        }
    }

    /// Returns the free addresses as the fewest networks. Fails only if memory runs out.
    ///
    /// ```text
    /// 10.0.0.0/24 after take 10.0.0.64/26: 10.0.0.0/26, 10.0.0.128/25
    /// ```
    pub fn free_networks(&self, alloc: Global) -> Result<Vec<IpNet>, AllocError>
        ensures { IfOk result (λ list. AreMaximalBlocks (IsFree self.now) 0 (map ip_network list.items)) }
    {
        let free = self.free.set(alloc)?;
        free.networks(alloc)
    }
}

/// Writes the addresses of the pool and its leases, as `{10.0.0.0-10.0.0.255} {10.0.0.64/26: 7}`.
impl<V: Drop + fmt::Debug> fmt::Debug for IpPool<V> {
    fn fmt<W: fmt::Write>(&self, f: &mut fmt::Formatter<W>) -> fmt::Result {
        write!(f, "{:?} {:?}", self.whole, self.leases)
    }
}
