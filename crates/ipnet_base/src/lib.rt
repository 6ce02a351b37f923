//! Addresses, masks and ranges of addresses. Also defines networks, their blocks and lists of networks, with their
//! laws, for all crates that use this one.
#![tactic(auto)]

pub mod addr;
pub mod digits;
pub mod ipext;
pub mod laws;
pub mod mask;

pub use addr::{IpAddr, Ipv4Addr, Ipv6Addr};
pub use ipext::{IpAdd, IpAddrRange, IpBitAnd, IpBitOr, IpSub, Ipv4AddrRange, Ipv6AddrRange};
pub use mask::{PrefixLenError, ip_mask_to_prefix, ipv4_mask_to_prefix, ipv6_mask_to_prefix};
