//! The numbers of addresses, as machine words of the width of their family.
ghost use Rattle.std.specs.Prelude.{◌≡◌, ℕ, ◌+◌, ◌<◌, ◌≤◌, ◌↔◌, leb, IsTrue, IsPermutation};
ghost use Rattle.std.specs.List.Sorted.{IsNonDecreasingBy};
ghost use Rattle.ipnet_base.specs.Address.{Family, IPv4, IPv6, greatest_number, ip_address};
ghost use Rattle.ipnet_base.specs.RangeOf.{ip_range};
ghost use Rattle.ipnet_sets.specs.SetRanges.{range_of};

use ipnet::{IpAddr, IpAddrRange, Ipv4Addr, Ipv4AddrRange, Ipv6Addr, Ipv6AddrRange};

/// The numbers from a first to a last one.
#[derive(Clone, Copy)]
pub(crate) struct NumberRange<T> {
    pub(crate) first: T,
    pub(crate) last: T,
}

/// A machine word that holds the number of each address of one family.
pub(crate) trait Number: Copy {
    /// The family.
    ghost family: { Family };

    /// The number in the word.
    ghost number: { Self → ℕ };

    /// The number of the first address.
    fn first() -> Self
        ensures { number result ≡ 0 };

    /// The number of the last address.
    fn last() -> Self
        ensures { number result ≡ greatest_number family };

    /// A law: the number is at most the number of the last address. Computes nothing.
    fn fits(self)
        ensures { number self ≤ greatest_number family };

    /// Returns the next number. This one must not be the number of the last address.
    fn next(self) -> Self
        requires { number self < greatest_number family }
        ensures { number result ≡ number self + 1 };

    /// Returns the number before this one, which must not be the number of the first address.
    fn previous(self) -> Self
        requires { 0 < number self }
        ensures { number result + 1 ≡ number self };

    /// Whether this number is below the other.
    fn is_below(self, other: Self) -> bool
        ensures { IsTrue result ↔ (number self < number other) };

    /// Whether this number is at most the other.
    fn is_at_most(self, other: Self) -> bool
        ensures { result ≡ leb (number self) (number other) };

    /// Returns the distance from this number to the last one, which must not be below it.
    fn distance_to(self, last: Self) -> u128
        requires { number self ≤ number last }
        ensures { result + number self ≡ number last };

    /// The address of the number.
    fn address(self) -> IpAddr
        ensures { ip_address result ≡ record { family = family; number = number self } };

    /// The range of the addresses from this number to the last.
    fn range_to(self, last: Self) -> IpAddrRange
        ensures { ip_range result ≡ range_of family (number self) (number last) };

    /// Sorts the ranges by their first numbers.
    fn sort(ranges: &mut Vec<NumberRange<Self>>)
        ensures same { IsPermutation ranges.old.items ranges.new.items }
        ensures sorted { IsNonDecreasingBy (λ r. number r.first) ranges.new.items };
}

impl Number for u32 {
    ghost family = { IPv4 };

    ghost number = { λ n. n };

    fn first() -> u32 {
        0
    }

    fn last() -> u32 {
        u32::MAX
    }

    fn fits(self) {}

    fn next(self) -> u32 {
        self + 1
    }

    fn previous(self) -> u32 {
        self - 1
    }

    fn is_below(self, other: u32) -> bool {
        self < other
    }

    fn is_at_most(self, other: u32) -> bool {
        self <= other
    }

    fn distance_to(self, last: u32) -> u128 {
        u128::from(last - self)
    }

    fn address(self) -> IpAddr {
        IpAddr::V4(Ipv4Addr::from_bits(self))
    }

    fn range_to(self, last: u32) -> IpAddrRange {
        let start = Ipv4Addr::from_bits(self);
        let end = Ipv4Addr::from_bits(last);
        IpAddrRange::V4(Ipv4AddrRange::new(start, end))
    }

    fn sort(ranges: &mut Vec<NumberRange<u32>>) {
        ranges.sort_unstable_by_key(|range| range.first);
    }
}

impl Number for u128 {
    ghost family = { IPv6 };

    ghost number = { λ n. n };

    fn first() -> u128 {
        0
    }

    fn last() -> u128 {
        u128::MAX
    }

    fn fits(self) {}

    fn next(self) -> u128 {
        self + 1
    }

    fn previous(self) -> u128 {
        self - 1
    }

    fn is_below(self, other: u128) -> bool {
        self < other
    }

    fn is_at_most(self, other: u128) -> bool {
        self <= other
    }

    fn distance_to(self, last: u128) -> u128 {
        last - self
    }

    fn address(self) -> IpAddr {
        IpAddr::V6(Ipv6Addr::from_bits(self))
    }

    fn range_to(self, last: u128) -> IpAddrRange {
        let start = Ipv6Addr::from_bits(self);
        let end = Ipv6Addr::from_bits(last);
        IpAddrRange::V6(Ipv6AddrRange::new(start, end))
    }

    fn sort(ranges: &mut Vec<NumberRange<u128>>) {
        ranges.sort_unstable_by_key(|range| range.first);
    }
}
