//! The address types of std.
//!
//! An address stands for a number: its octets, the most significant first. `to_bits` returns the number of an address,
//! and `from_bits` returns the address of a number.
ghost use Rattle.std.specs.Prelude.{◌≡◌};
ghost use Rattle.std.specs.Net.Addr.{ipv4_bits, ipv6_bits};

pub mod laws;

pub use std::net::{IpAddr, Ipv4Addr, Ipv6Addr};

/// The IPv4 address of the number. The contract of `from_bits` gives the octets; this contract gives the number, so
/// that callers need no proof of their own.
pub(crate) fn ipv4_from_number(number: u32) -> Ipv4Addr
    ensures { ipv4_bits result ≡ number }
{
    Ipv4Addr::from_bits(number)
}

/// The IPv6 address of the number, like `ipv4_from_number`.
pub(crate) fn ipv6_from_number(number: u128) -> Ipv6Addr
    ensures { ipv6_bits result ≡ number }
{
    Ipv6Addr::from_bits(number)
}
