//! Whether a pool is full, and whether its leases have changed.
ghost use Rattle.std.specs.Prelude.{◌≡◌, ◌↔◌, IsTrue, IfOk, true};
ghost use Rattle.ipnet.specs.Address.{Address};
ghost use Rattle.ipnet.specs.Network.{InBlock};
ghost use Rattle.ipnet.specs.NetworkOf.{ip_network};
ghost use Rattle.ipnet_sets.specs.Members.{IsMember};

use ipnet::IpNet;
use ipnet_bars::{Change, Level, change_in, level_in};
use ipnet_sets::IpSet;
use std::alloc::{AllocError, Global};

/// Whether all addresses of the pool are leased. No free address is overlooked, however large the pool is.
pub fn is_full(alloc: Global, leased: &IpSet, pool: &IpNet) -> Result<bool, AllocError>
    ensures { IfOk result (λ full. IsTrue full
        ↔ ((x : Address) → InBlock (ip_network pool.now) x → IsMember leased.now x)) }
{
    match level_in(alloc, leased, pool)? {
        Level::Whole => Ok(true),
        _ => Ok(false),
    }
}

/// Whether the leases of the pool are the same ones before and after. No change is overlooked, however small it is.
pub fn is_unchanged(
    alloc: Global,
    before: &IpSet,
    after: &IpSet,
    pool: &IpNet,
) -> Result<bool, AllocError>
    ensures { IfOk result (λ same. same ≡ true → (x : Address) → InBlock (ip_network pool.now) x
        → IsMember before.now x ↔ IsMember after.now x) }
{
    match change_in(alloc, before, after, pool)? {
        Change::Unused | Change::Unchanged => Ok(true),
        Change::Removed | Change::Added | Change::Mixed => Ok(false),
    }
}
