//! The meaning of the ghost members of public traits for each implementation. The output of an arithmetic operation is
//! the sum, the difference, or the bitwise operation, of the addresses' numbers. A range made from another range is
//! that range. As an iterator, a range returns its addresses from both ends.
//!
//! A contract that names a ghost member, such as the contract of `IpAdd::saturating_add`, promises only what that
//! member says; these laws state it in the words of `specs/`.
ghost use Rattle.std.specs.Prelude.{◌≡◌, ◌↔◌};
ghost use Rattle.std.specs.Iterator.{YieldsFirstBy, YieldsLastBy, at_most};
ghost use Rattle.std.specs.Net.Addr.{ipv4_bits, ipv6_bits};
ghost use Rattle.ipnet_base.specs.Address.{IPv4, IPv6, ipv4_address, ipv6_address, ip_address};
ghost use Rattle.ipnet_base.specs.declared.ipext.ip_range.IpAddrRange.TheVariants.{V4, V6};
ghost use Rattle.ipnet_base.specs.Arithmetic.{saturating_sum, saturating_difference, IsBitwiseAnd, IsBitwiseOr};
ghost use Rattle.ipnet_base.specs.Ranges.{address_count};
ghost use Rattle.ipnet_base.specs.RangeOf.{ipv4_range, ipv6_range, ip_range};
ghost use Rattle.ipnet_base.specs.RangeOf.{ipv4_addresses, ipv6_addresses, ip_addresses};

use super::{IpAdd, IpAddrRange, IpBitAnd, IpBitOr, IpSub, Ipv4AddrRange, Ipv6AddrRange};
use crate::addr::{IpAddr, Ipv4Addr, Ipv6Addr};

/// An IPv4 address and a number have the sum of their numbers, saturated at 255.255.255.255.
pub fn ipv4_sum_saturates(a: Ipv4Addr, b: u32, sum: Ipv4Addr)
    ensures { ⟦<Ipv4Addr as IpAdd<u32>>⟧.is_sum a b sum ↔ (ipv4_bits sum ≡ saturating_sum IPv4 (ipv4_bits a) b) }
{}

/// An IPv6 address and a number have the sum of their numbers, saturated at the last IPv6 address.
pub fn ipv6_sum_saturates(a: Ipv6Addr, b: u128, sum: Ipv6Addr)
    ensures { ⟦<Ipv6Addr as IpAdd<u128>>⟧.is_sum a b sum ↔ (ipv6_bits sum ≡ saturating_sum IPv6 (ipv6_bits a) b) }
{}

/// Two IPv4 addresses have the difference of their numbers, and an address less a number is an address; both saturate
/// at 0.
pub fn ipv4_difference_saturates(
    a: Ipv4Addr,
    b: Ipv4Addr,
    number: u32,
    difference: u32,
    lower: Ipv4Addr,
)
    ensures of_addresses { ⟦<Ipv4Addr as IpSub<Ipv4Addr>>⟧.is_difference a b difference
        ↔ (difference ≡ saturating_difference (ipv4_bits a) (ipv4_bits b)) }
    ensures with_number { ⟦<Ipv4Addr as IpSub<u32>>⟧.is_difference a number lower
        ↔ (ipv4_bits lower ≡ saturating_difference (ipv4_bits a) number) }
{}

/// Two IPv6 addresses have the difference of their numbers, and an address less a number is an address; both saturate
/// at 0.
pub fn ipv6_difference_saturates(
    a: Ipv6Addr,
    b: Ipv6Addr,
    number: u128,
    difference: u128,
    lower: Ipv6Addr,
)
    ensures of_addresses { ⟦<Ipv6Addr as IpSub<Ipv6Addr>>⟧.is_difference a b difference
        ↔ (difference ≡ saturating_difference (ipv6_bits a) (ipv6_bits b)) }
    ensures with_number { ⟦<Ipv6Addr as IpSub<u128>>⟧.is_difference a number lower
        ↔ (ipv6_bits lower ≡ saturating_difference (ipv6_bits a) number) }
{}

/// The common bits of an IPv4 address and another, or a number, are those that are set in both.
pub fn ipv4_and_is_bitwise(a: Ipv4Addr, b: Ipv4Addr, number: u32, common: Ipv4Addr)
    ensures of_addresses { ⟦<Ipv4Addr as IpBitAnd<Ipv4Addr>>⟧.is_and a b common
        ↔ IsBitwiseAnd IPv4 (ipv4_bits a) (ipv4_bits b) (ipv4_bits common) }
    ensures with_number { ⟦<Ipv4Addr as IpBitAnd<u32>>⟧.is_and a number common
        ↔ IsBitwiseAnd IPv4 (ipv4_bits a) number (ipv4_bits common) }
{}

/// The common bits of an IPv6 address and another, or a number, are those that are set in both.
pub fn ipv6_and_is_bitwise(a: Ipv6Addr, b: Ipv6Addr, number: u128, common: Ipv6Addr)
    ensures of_addresses { ⟦<Ipv6Addr as IpBitAnd<Ipv6Addr>>⟧.is_and a b common
        ↔ IsBitwiseAnd IPv6 (ipv6_bits a) (ipv6_bits b) (ipv6_bits common) }
    ensures with_number { ⟦<Ipv6Addr as IpBitAnd<u128>>⟧.is_and a number common
        ↔ IsBitwiseAnd IPv6 (ipv6_bits a) number (ipv6_bits common) }
{}

/// The bits together of an IPv4 address and another, or a number, are those that are set in either.
pub fn ipv4_or_is_bitwise(a: Ipv4Addr, b: Ipv4Addr, number: u32, together: Ipv4Addr)
    ensures of_addresses { ⟦<Ipv4Addr as IpBitOr<Ipv4Addr>>⟧.is_or a b together
        ↔ IsBitwiseOr IPv4 (ipv4_bits a) (ipv4_bits b) (ipv4_bits together) }
    ensures with_number { ⟦<Ipv4Addr as IpBitOr<u32>>⟧.is_or a number together
        ↔ IsBitwiseOr IPv4 (ipv4_bits a) number (ipv4_bits together) }
{}

/// The bits together of an IPv6 address and another, or a number, are those that are set in either.
pub fn ipv6_or_is_bitwise(a: Ipv6Addr, b: Ipv6Addr, number: u128, together: Ipv6Addr)
    ensures of_addresses { ⟦<Ipv6Addr as IpBitOr<Ipv6Addr>>⟧.is_or a b together
        ↔ IsBitwiseOr IPv6 (ipv6_bits a) (ipv6_bits b) (ipv6_bits together) }
    ensures with_number { ⟦<Ipv6Addr as IpBitOr<u128>>⟧.is_or a number together
        ↔ IsBitwiseOr IPv6 (ipv6_bits a) number (ipv6_bits together) }
{}

/// A range of either family that is made from an IPv4 range, or an IPv6 range, is that range, with its stored ends.
pub fn ip_range_from_is_same(ipv4: Ipv4AddrRange, ipv6: Ipv6AddrRange, range: IpAddrRange)
    ensures from_ipv4 { ⟦<IpAddrRange as From<Ipv4AddrRange>>⟧.from_gives ipv4 range ↔ (range ≡ V4 ipv4) }
    ensures from_ipv6 { ⟦<IpAddrRange as From<Ipv6AddrRange>>⟧.from_gives ipv6 range ↔ (range ≡ V6 ipv6) }
{}

/// As an iterator, an IPv4 range returns the first remaining address from the front and the last from the back, and
/// keeps the others. Both calls may be made at any time, and each returns a remaining address until none is left.
pub fn ipv4_range_gives_its_addresses(
    old: Ipv4AddrRange,
    answer: Option<Ipv4Addr>,
    new: Ipv4AddrRange,
)
    ensures next { ⟦<Ipv4AddrRange as Iterator>⟧.next_gives old answer new
        ↔ YieldsFirstBy ipv4_address ipv4_addresses old answer new }
    ensures next_back { ⟦<Ipv4AddrRange as DoubleEndedIterator>⟧.next_back_gives old answer new
        ↔ YieldsLastBy ipv4_address ipv4_addresses old answer new }
    ensures at_any_time { ⟦<Ipv4AddrRange as Iterator>⟧.can_next old
        × ⟦<Ipv4AddrRange as DoubleEndedIterator>⟧.can_next_back old }
    ensures count { ⟦<Ipv4AddrRange as Iterator>⟧.remaining old ≡ at_most (address_count (ipv4_range old)) }
{}

/// As an iterator, an IPv6 range returns the first remaining address from the front and the last from the back, and
/// keeps the others. Both calls may be made at any time, and each returns a remaining address until none is left.
pub fn ipv6_range_gives_its_addresses(
    old: Ipv6AddrRange,
    answer: Option<Ipv6Addr>,
    new: Ipv6AddrRange,
)
    ensures next { ⟦<Ipv6AddrRange as Iterator>⟧.next_gives old answer new
        ↔ YieldsFirstBy ipv6_address ipv6_addresses old answer new }
    ensures next_back { ⟦<Ipv6AddrRange as DoubleEndedIterator>⟧.next_back_gives old answer new
        ↔ YieldsLastBy ipv6_address ipv6_addresses old answer new }
    ensures at_any_time { ⟦<Ipv6AddrRange as Iterator>⟧.can_next old
        × ⟦<Ipv6AddrRange as DoubleEndedIterator>⟧.can_next_back old }
    ensures count { ⟦<Ipv6AddrRange as Iterator>⟧.remaining old ≡ at_most (address_count (ipv6_range old)) }
{}

/// As an iterator, a range of either family returns the first remaining address from the front and the last from the
/// back, and keeps the others. Both calls may be made at any time, and each returns a remaining address until none is
/// left.
pub fn ip_range_gives_its_addresses(old: IpAddrRange, answer: Option<IpAddr>, new: IpAddrRange)
    ensures next { ⟦<IpAddrRange as Iterator>⟧.next_gives old answer new
        ↔ YieldsFirstBy ip_address ip_addresses old answer new }
    ensures next_back { ⟦<IpAddrRange as DoubleEndedIterator>⟧.next_back_gives old answer new
        ↔ YieldsLastBy ip_address ip_addresses old answer new }
    ensures at_any_time { ⟦<IpAddrRange as Iterator>⟧.can_next old
        × ⟦<IpAddrRange as DoubleEndedIterator>⟧.can_next_back old }
    ensures count { ⟦<IpAddrRange as Iterator>⟧.remaining old ≡ at_most (address_count (ip_range old)) }
{}
