//! Laws of all addresses: `==` and the order compare the numbers of addresses, and for `IpAddr` first the families.
//! Each law is the contract of a function that does nothing.
//!
//! ```text
//! 10.0.0.1 < 10.0.0.2 < ::ffff:10.0.0.1, and no two of these are equal
//! ```
ghost use Rattle.std.specs.Prelude.{◌<◌};
ghost use Rattle.std.specs.Net.Addr.{ipv4_bits, ipv6_bits};
ghost use Rattle.ipnet_base.specs.Address.{IsAddressBefore, ip_address};
ghost use Rattle.ipnet_base.specs.Values.{ComparesBy};

use super::{IpAddr, Ipv4Addr, Ipv6Addr};

/// IPv4 addresses are equal if and only if their numbers are equal, and they are ordered by their numbers.
pub fn ipv4_addresses_compare_by_number(a: Ipv4Addr, b: Ipv4Addr)
    ensures compare { ComparesBy ipv4_bits (λ m n. m < n) ⟦<Ipv4Addr as PartialEq>⟧.eq
        ⟦<Ipv4Addr as Ord>⟧.cmp ⟦<Ipv4Addr as PartialOrd>⟧.partial_cmp a b }
{}

/// IPv6 addresses are equal if and only if their numbers are equal, and they are ordered by their numbers.
pub fn ipv6_addresses_compare_by_number(a: Ipv6Addr, b: Ipv6Addr)
    ensures compare { ComparesBy ipv6_bits (λ m n. m < n) ⟦<Ipv6Addr as PartialEq>⟧.eq
        ⟦<Ipv6Addr as Ord>⟧.cmp ⟦<Ipv6Addr as PartialOrd>⟧.partial_cmp a b }
{}

/// Addresses of either family are equal if and only if their families and numbers are equal. They are ordered by family
/// and then by number: an IPv4 address comes before every IPv6 address.
pub fn ip_addresses_compare_by_number(a: IpAddr, b: IpAddr)
    ensures compare { ComparesBy ip_address IsAddressBefore ⟦<IpAddr as PartialEq>⟧.eq
        ⟦<IpAddr as Ord>⟧.cmp ⟦<IpAddr as PartialOrd>⟧.partial_cmp a b }
{
    match (a, b) {
        (IpAddr::V4(a), IpAddr::V4(b)) => ipv4_addresses_compare_by_number(a, b),
        (IpAddr::V6(a), IpAddr::V6(b)) => ipv6_addresses_compare_by_number(a, b),
        _ => {}
    }
}
