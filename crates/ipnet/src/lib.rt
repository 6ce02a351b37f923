//! Networks of IPv4 and IPv6 addresses: their blocks, subnets, aggregates, texts and bytes.
#![tactic(auto)]

pub mod aggregate;
pub mod compact;
pub mod disjoint;
pub mod json;
pub mod net;
pub mod parser;
pub mod print;
pub mod subnets;
pub mod text_laws;
pub mod value_laws;

pub use aggregate::{is_aggregated, same_addresses};
pub use compact::CompactError;
pub use disjoint::are_disjoint;
pub use ipnet_base::{
    IpAdd, IpAddr, IpAddrRange, IpBitAnd, IpBitOr, IpSub, Ipv4Addr, Ipv4AddrRange, Ipv6Addr,
    Ipv6AddrRange, PrefixLenError, addr, ip_mask_to_prefix, ipext, ipv4_mask_to_prefix,
    ipv6_mask_to_prefix, laws, mask,
};
pub use json::JsonError;
pub use net::{Contains, IpNet, Ipv4Net, Ipv6Net, Net};
pub use parser::{AddrParseError, Grammar};
pub use print::{ipv4_addr_text, ipv6_addr_text};
pub use subnets::{IpSubnets, Ipv4Subnets, Ipv6Subnets};
