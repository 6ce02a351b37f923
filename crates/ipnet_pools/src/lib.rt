//! Address pools: networks of any length, taken from a set of addresses and returned to it.
//!
//! The free addresses and the addresses in use share no address, and together they are the pool. Every call keeps this.
#![tactic(auto)]

mod block_set;
pub mod error;
mod free;
pub mod laws;
mod leases;
mod pieces;
pub mod plan;
pub mod pool;

pub use error::{PoolError, Refused};
pub use pool::IpPool;
