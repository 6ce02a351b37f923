//! Tenants who get networks of an address pool. It is proved for every caller: no two tenants ever share an address.
ghost use Rattle.std.specs.Prelude.{◌≡◌, ◌↔◌, ◌⊎◌, ℕ, IfOk, IsErr, IfSome, IfNone};
ghost use Rattle.ipnet.specs.Address.{Address, ip_address};
ghost use Rattle.ipnet.specs.Network.{InBlock};
ghost use Rattle.ipnet.specs.NetworkOf.{ip_network};

use ipnet::{IpAddr, IpNet};
use ipnet_pools::{IpPool, PoolError, Refused};
use ipnet_sets::IpSet;
use std::alloc::{AllocError, Global};

/// Tenants, each with a number, and their networks.
#[derive(Drop)]
pub struct Tenants {
    pool: IpPool<u32>,
}

impl Tenants {
    ghost use Rattle.example_pools.specs.Tenancies.{Has};

    /// Returns the set as a pool for tenants. No tenant has an address yet. Fails only if memory runs out.
    pub fn new(alloc: Global, set: &IpSet) -> Result<Tenants, AllocError>
        ensures { IfOk result (λ tenants. (tenant : ℕ) (x : Address) → ¬ (Has tenants tenant x)) }
    {
        let pool = IpPool::new(alloc, set)?;
        Ok(Tenants { pool })
    }

    /// Gives the tenant a network of this prefix length. After an error everybody has what they had.
    pub fn give(&mut self, tenant: u32, prefix_len: u8) -> Result<IpNet, Refused<u32>>
        ensures given { IfOk result (λ n. (t : ℕ) (x : Address) → Has self.new t x
            ↔ (Has self.old t x ⊎ ((t ≡ tenant) × InBlock (ip_network n) x))) }
        ensures unchanged { IsErr result → (t : ℕ) (x : Address) → Has self.new t x ↔ Has self.old t x }
    {
        self.pool.assign_ipv4(prefix_len, tenant)
    }

    /// Takes the network back, and returns the tenant who had it. After an error everybody has what they had.
    pub fn take_back(&mut self, network: &IpNet) -> Result<u32, PoolError>
        ensures others { IfOk result (λ tenant. (t : ℕ) (x : Address) → Has self.new t x → Has self.old t x) }
        ensures unchanged { IsErr result → (t : ℕ) (x : Address) → Has self.new t x ↔ Has self.old t x }
    {
        self.pool.release(network)
    }

    /// Returns the tenant who has the address.
    pub fn tenant_of(&self, address: IpAddr) -> Option<u32>
        ensures some { IfSome result (λ tenant. Has self.now tenant (ip_address address)) }
        ensures none { IfNone result ((t : ℕ) → ¬ (Has self.now t (ip_address address))) }
    {
        match self.pool.lease_of(address) {
            Some((_, tenant)) => Some(*tenant),
            None => None,
        }
    }

    /// No two tenants ever share an address: this holds of all tenants, whatever calls were made. The call computes
    /// nothing.
    pub fn share_no_address(&self)
        ensures { (t u : ℕ) (x : Address) → Has self.now t x → Has self.now u x → t ≡ u }
    {
        self.pool.has_one_lease_of_each_address();
    }
}
