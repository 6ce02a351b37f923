//! Why calls on pools fail.
ghost use Rattle.std.specs.Prelude.{◌≡◌};
ghost use Rattle.ipnet_pools.specs.declared.error.PoolError.TheVariants.{PrefixLen, Memory};

use ipnet::{IpNet, PrefixLenError};
use std::alloc::{AllocError, AllocFailed};
use thiserror::Error;

/// Why a call on a pool failed.
#[derive(Debug, PartialEq, Eq, Drop, Error)]
pub enum PoolError {
    /// The prefix length is above 32 for IPv4, or above 128 for IPv6.
    #[error("invalid IP prefix length")]
    PrefixLen,
    /// No network of this prefix length is free.
    #[error("no free block is large enough")]
    Exhausted,
    /// The network, or the set that was to be removed, is not free: it shares an address with this lease.
    #[error("the network is not free")]
    NotFree(IpNet),
    /// The network is not a lease.
    #[error("the network is not leased")]
    NotLeased,
    /// Some address of the network does not belong to the pool.
    #[error("the network is not in the pool")]
    NotInPool,
    /// Memory ran out.
    #[error("out of memory")]
    Memory,
}

/// An error, and the value that was to be leased.
#[derive(Debug, PartialEq, Eq, Drop)]
pub struct Refused<V> {
    /// Why the call failed.
    pub error: PoolError,
    /// The value that was given to the call.
    pub value: V,
}

impl From<AllocError> for PoolError {
    ghost from_gives = { λ _ result. result ≡ Memory };

    fn from(_: AllocError) -> PoolError {
        PoolError::Memory
    }
}

impl<T: Drop> From<AllocFailed<T>> for PoolError {
    ghost from_gives = { λ _ result. result ≡ Memory };

    fn from(_: AllocFailed<T>) -> PoolError {
        PoolError::Memory
    }
}

impl From<PrefixLenError> for PoolError {
    ghost from_gives = { λ _ result. result ≡ PrefixLen };

    fn from(_: PrefixLenError) -> PoolError {
        PoolError::PrefixLen
    }
}
