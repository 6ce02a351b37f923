//! Arithmetic on addresses, and ranges of addresses that are walked from both ends.
//!
//! No sum and no difference wraps: a sum saturates at the greatest value of its type, a difference at 0.
ghost use Rattle.std.specs.Prelude.{◌≡◌};
ghost use Rattle.std.specs.Net.Addr.{ipv4_bits, ipv6_bits};
ghost use Rattle.ipnet_base.specs.Address.{IPv4, IPv6};
ghost use Rattle.ipnet_base.specs.Arithmetic.{saturating_sum, saturating_difference, IsBitwiseAnd, IsBitwiseOr};

mod ip_range;
mod ipv4_range;
mod ipv6_range;
pub mod laws;
pub mod member_laws;

use crate::addr::{Ipv4Addr, Ipv6Addr, ipv4_from_number, ipv6_from_number};
pub use ip_range::IpAddrRange;
pub use ipv4_range::Ipv4AddrRange;
pub use ipv6_range::Ipv6AddrRange;

/// Sums that saturate at the greatest address.
///
/// ```text
/// 255.255.255.254 + 5   255.255.255.255
/// ```
pub trait IpAdd<RHS> {
    /// The type of a sum.
    type Output;

    /// The output is the sum of the two.
    ghost is_sum: { Self → RHS → Self.Output → Type 0 };

    /// The sum of the two, or the greatest address if the sum is above it.
    fn saturating_add(self, rhs: RHS) -> Self::Output
        ensures { is_sum self rhs result };
}

/// Differences that saturate at 0.
///
/// ```text
/// 192.168.1.100 - 192.168.1.5   95
/// 0.0.0.0 - 192.168.1.5         0
/// 192.168.1.5 - 5               192.168.1.0
/// ```
pub trait IpSub<RHS> {
    /// The type of a difference: a number of two addresses, an address of an address and a number.
    type Output;

    /// The output is what is left of the first without the second.
    ghost is_difference: { Self → RHS → Self.Output → Type 0 };

    /// The difference of the two, or 0 if the second is greater.
    fn saturating_sub(self, rhs: RHS) -> Self::Output
        ensures { is_difference self rhs result };
}

/// Bitwise and of two addresses, or of an address and a number.
///
/// ```text
/// fd00:1234::1 & ffff::   fd00::
/// ```
pub trait IpBitAnd<RHS> {
    /// The type of the bitwise and.
    type Output;

    /// The output has the bits that are set in both.
    ghost is_and: { Self → RHS → Self.Output → Type 0 };

    /// The bits that are set in both.
    fn bitand(self, rhs: RHS) -> Self::Output
        ensures { is_and self rhs result };
}

/// Bitwise or of two addresses, or of an address and a number.
///
/// ```text
/// 10.0.0.1 | 0.0.255.0   10.0.255.1
/// ```
pub trait IpBitOr<RHS> {
    /// The type of the bitwise or.
    type Output;

    /// The output has the bits that are set in either.
    ghost is_or: { Self → RHS → Self.Output → Type 0 };

    /// The bits that are set in either.
    fn bitor(self, rhs: RHS) -> Self::Output
        ensures { is_or self rhs result };
}

impl IpAdd<u32> for Ipv4Addr {
    type Output = Ipv4Addr;

    ghost is_sum = { λ a b r. ipv4_bits r ≡ saturating_sum IPv4 (ipv4_bits a) b };

    fn saturating_add(self, rhs: u32) -> Ipv4Addr {
        ipv4_from_number(self.to_bits().saturating_add(rhs))
    }
}

impl IpAdd<u128> for Ipv6Addr {
    type Output = Ipv6Addr;

    ghost is_sum = { λ a b r. ipv6_bits r ≡ saturating_sum IPv6 (ipv6_bits a) b };

    fn saturating_add(self, rhs: u128) -> Ipv6Addr {
        ipv6_from_number(self.to_bits().saturating_add(rhs))
    }
}

impl IpSub<Ipv4Addr> for Ipv4Addr {
    type Output = u32;

    ghost is_difference = { λ a b r. r ≡ saturating_difference (ipv4_bits a) (ipv4_bits b) };

    fn saturating_sub(self, rhs: Ipv4Addr) -> u32 {
        self.to_bits().saturating_sub(rhs.to_bits())
    }
}

impl IpSub<u32> for Ipv4Addr {
    type Output = Ipv4Addr;

    ghost is_difference = { λ a b r. ipv4_bits r ≡ saturating_difference (ipv4_bits a) b };

    fn saturating_sub(self, rhs: u32) -> Ipv4Addr {
        ipv4_from_number(self.to_bits().saturating_sub(rhs))
    }
}

impl IpSub<Ipv6Addr> for Ipv6Addr {
    type Output = u128;

    ghost is_difference = { λ a b r. r ≡ saturating_difference (ipv6_bits a) (ipv6_bits b) };

    fn saturating_sub(self, rhs: Ipv6Addr) -> u128 {
        self.to_bits().saturating_sub(rhs.to_bits())
    }
}

impl IpSub<u128> for Ipv6Addr {
    type Output = Ipv6Addr;

    ghost is_difference = { λ a b r. ipv6_bits r ≡ saturating_difference (ipv6_bits a) b };

    fn saturating_sub(self, rhs: u128) -> Ipv6Addr {
        ipv6_from_number(self.to_bits().saturating_sub(rhs))
    }
}

impl IpBitAnd<Ipv4Addr> for Ipv4Addr {
    type Output = Ipv4Addr;

    ghost is_and = { λ a b r. IsBitwiseAnd IPv4 (ipv4_bits a) (ipv4_bits b) (ipv4_bits r) };

    fn bitand(self, rhs: Ipv4Addr) -> Ipv4Addr {
        ipv4_from_number(self.to_bits() & rhs.to_bits())
    }
}

impl IpBitAnd<u32> for Ipv4Addr {
    type Output = Ipv4Addr;

    ghost is_and = { λ a b r. IsBitwiseAnd IPv4 (ipv4_bits a) b (ipv4_bits r) };

    fn bitand(self, rhs: u32) -> Ipv4Addr {
        ipv4_from_number(self.to_bits() & rhs)
    }
}

impl IpBitAnd<Ipv6Addr> for Ipv6Addr {
    type Output = Ipv6Addr;

    ghost is_and = { λ a b r. IsBitwiseAnd IPv6 (ipv6_bits a) (ipv6_bits b) (ipv6_bits r) };

    fn bitand(self, rhs: Ipv6Addr) -> Ipv6Addr {
        ipv6_from_number(self.to_bits() & rhs.to_bits())
    }
}

impl IpBitAnd<u128> for Ipv6Addr {
    type Output = Ipv6Addr;

    ghost is_and = { λ a b r. IsBitwiseAnd IPv6 (ipv6_bits a) b (ipv6_bits r) };

    fn bitand(self, rhs: u128) -> Ipv6Addr {
        ipv6_from_number(self.to_bits() & rhs)
    }
}

impl IpBitOr<Ipv4Addr> for Ipv4Addr {
    type Output = Ipv4Addr;

    ghost is_or = { λ a b r. IsBitwiseOr IPv4 (ipv4_bits a) (ipv4_bits b) (ipv4_bits r) };

    fn bitor(self, rhs: Ipv4Addr) -> Ipv4Addr {
        ipv4_from_number(self.to_bits() | rhs.to_bits())
    }
}

impl IpBitOr<u32> for Ipv4Addr {
    type Output = Ipv4Addr;

    ghost is_or = { λ a b r. IsBitwiseOr IPv4 (ipv4_bits a) b (ipv4_bits r) };

    fn bitor(self, rhs: u32) -> Ipv4Addr {
        ipv4_from_number(self.to_bits() | rhs)
    }
}

impl IpBitOr<Ipv6Addr> for Ipv6Addr {
    type Output = Ipv6Addr;

    ghost is_or = { λ a b r. IsBitwiseOr IPv6 (ipv6_bits a) (ipv6_bits b) (ipv6_bits r) };

    fn bitor(self, rhs: Ipv6Addr) -> Ipv6Addr {
        ipv6_from_number(self.to_bits() | rhs.to_bits())
    }
}

impl IpBitOr<u128> for Ipv6Addr {
    type Output = Ipv6Addr;

    ghost is_or = { λ a b r. IsBitwiseOr IPv6 (ipv6_bits a) b (ipv6_bits r) };

    fn bitor(self, rhs: u128) -> Ipv6Addr {
        ipv6_from_number(self.to_bits() | rhs)
    }
}
