//! Ranges of addresses of either family.
ghost use Rattle.std.specs.Prelude.{◌≡◌, ◌+◌, ◌-◌, ◌^◌, ◌<◌, ◌≤◌, option_map, slice_get, drop, take, reverse};
ghost use Rattle.std.specs.Option.{SomeIff};
ghost use Rattle.ipnet_base.specs.Address.{ip_address, address_at};
ghost use Rattle.ipnet_base.specs.Ranges.{address_count, IsNth, IsNthBack};

use super::{Ipv4AddrRange, Ipv6AddrRange};
use crate::addr::IpAddr;
use std::iter::FusedIterator;

/// The addresses of one family from a first to a last one, in ascending order from the front and in descending order
/// from the back.
///
/// Two ranges are equal, and ordered, by their stored ends, and not by the addresses that they still yield; an IPv4
/// range comes before every IPv6 range.
///
/// ```text
/// from 10.0.0.0 to 10.0.0.3:
///     next()        10.0.0.0, leaves 10.0.0.1 to 10.0.0.3
///     next_back()   10.0.0.3, leaves 10.0.0.1 to 10.0.0.2
///     nth(1)        10.0.0.2, and nothing is left
///     next()        None, at this and every later call
/// ```
#[derive(Clone, Copy, PartialEq, Eq, PartialOrd, Ord, Hash, Debug)]
pub enum IpAddrRange {
    /// A range of IPv4 addresses.
    V4(Ipv4AddrRange),
    /// A range of IPv6 addresses.
    V6(Ipv6AddrRange),
}

impl From<Ipv4AddrRange> for IpAddrRange {
    ghost use Rattle.std.specs.Prelude.{◌≡◌};
    ghost use Rattle.ipnet_base.specs.declared.ipext.ip_range.IpAddrRange.TheVariants.{V4};

    ghost from_gives = { λ range result. result ≡ V4 range };

    /// The same range, with its stored ends.
    fn from(range: Ipv4AddrRange) -> IpAddrRange {
        IpAddrRange::V4(range)
    }
}

impl From<Ipv6AddrRange> for IpAddrRange {
    ghost use Rattle.std.specs.Prelude.{◌≡◌};
    ghost use Rattle.ipnet_base.specs.declared.ipext.ip_range.IpAddrRange.TheVariants.{V6};

    ghost from_gives = { λ range result. result ≡ V6 range };

    /// The same range, with its stored ends.
    fn from(range: Ipv6AddrRange) -> IpAddrRange {
        IpAddrRange::V6(range)
    }
}

impl IpAddrRange {
    ghost use Rattle.ipnet_base.specs.RangeOf.{ip_range, ip_addresses};

    /// How many addresses are left. The caller has shown that a `usize` holds the number: an IPv6 range may have 2^128
    /// of them.
    ///
    /// To test this, call `size_hint`: it has an upper bound if and only if the number fits.
    ///
    /// ```text
    /// from 10.0.0.0 to 10.0.0.3: 4; from fd00:: to fd00::3: 4; from 0.0.0.5 to 0.0.0.3: 0
    /// ```
    pub fn count(self) -> usize
        requires { address_count (ip_range self) < 2 ^ 64 }
        ensures { result ≡ address_count (ip_range self) }
    {
        match self {
            IpAddrRange::V4(range) => range.count(),
            IpAddrRange::V6(range) => range.count(),
        }
    }

    /// The least address that is left, or `None` if none is.
    ///
    /// ```text
    /// from 10.0.0.0 to 10.0.0.3: Some(10.0.0.0); from fd00:: to fd00::3: Some(fd00::); from 0.0.0.5 to 0.0.0.3: None
    /// ```
    pub fn min(self) -> Option<IpAddr>
        ensures { let r = ip_range self in
            SomeIff (option_map ip_address result) (r.start ≤ r.end) (address_at r.family r.start) }
    {
        match self {
            IpAddrRange::V4(range) => range.min().map(IpAddr::V4),
            IpAddrRange::V6(range) => range.min().map(IpAddr::V6),
        }
    }

    /// The greatest address that is left, or `None` if none is.
    ///
    /// ```text
    /// from 10.0.0.0 to 10.0.0.3: Some(10.0.0.3); from fd00:: to fd00::3: Some(fd00::3); from 0.0.0.5 to 0.0.0.3: None
    /// ```
    pub fn max(self) -> Option<IpAddr>
        ensures { let r = ip_range self in
            SomeIff (option_map ip_address result) (r.start ≤ r.end) (address_at r.family r.end) }
    {
        match self {
            IpAddrRange::V4(range) => range.max().map(IpAddr::V4),
            IpAddrRange::V6(range) => range.max().map(IpAddr::V6),
        }
    }

    /// The last address from the front, which is the greatest, or `None` if none is left.
    ///
    /// ```text
    /// from 10.0.0.0 to 10.0.0.3: Some(10.0.0.3); from fd00:: to fd00::3: Some(fd00::3); from 0.0.0.5 to 0.0.0.3: None
    /// ```
    pub fn last(self) -> Option<IpAddr>
        ensures { let r = ip_range self in
            SomeIff (option_map ip_address result) (r.start ≤ r.end) (address_at r.family r.end) }
    {
        match self {
            IpAddrRange::V4(range) => range.last().map(IpAddr::V4),
            IpAddrRange::V6(range) => range.last().map(IpAddr::V6),
        }
    }

    /// Skips `n` addresses from the front and returns the next one. If at most `n` are left, it returns `None` and
    /// nothing is left.
    ///
    /// If nothing is left, the stored ends are 1 and 0, even if the range was empty before and had other ends.
    ///
    /// ```text
    /// from 10.0.0.0 to 10.0.0.3:
    ///     nth(1)   10.0.0.1, leaves 10.0.0.2 to 10.0.0.3
    ///     nth(1)   10.0.0.3, and nothing is left
    ///     nth(0)   None
    /// ```
    pub fn nth(&mut self, n: usize) -> Option<IpAddr>
        ensures item { option_map ip_address result ≡ slice_get (ip_addresses self.old) n }
        ensures left { ip_addresses self.new ≡ drop (n + 1) (ip_addresses self.old) }
        ensures ends { IsNth n (ip_range self.old) (option_map ip_address result) (ip_range self.new) }
    {
        match self {
            IpAddrRange::V4(range) => range.nth(n).map(IpAddr::V4),
            IpAddrRange::V6(range) => range.nth(n).map(IpAddr::V6),
        }
    }

    /// Skips `n` addresses from the back and returns the next one. If at most `n` are left, it returns `None` and
    /// nothing is left.
    ///
    /// If nothing is left, the stored ends are 1 and 0, even if the range was empty before and had other ends.
    ///
    /// ```text
    /// from 10.0.0.0 to 10.0.0.3:
    ///     nth_back(1)   10.0.0.2, leaves 10.0.0.0 to 10.0.0.1
    ///     nth_back(1)   10.0.0.0, and nothing is left
    ///     nth_back(0)   None
    /// ```
    pub fn nth_back(&mut self, n: usize) -> Option<IpAddr>
        ensures item { option_map ip_address result ≡ slice_get (reverse (ip_addresses self.old)) n }
        ensures left { ip_addresses self.new
            ≡ take (address_count (ip_range self.old) - (n + 1)) (ip_addresses self.old) }
        ensures ends { IsNthBack n (ip_range self.old) (option_map ip_address result) (ip_range self.new) }
    {
        match self {
            IpAddrRange::V4(range) => range.nth_back(n).map(IpAddr::V4),
            IpAddrRange::V6(range) => range.nth_back(n).map(IpAddr::V6),
        }
    }
}

impl Iterator for IpAddrRange {
    type Item = IpAddr;

    ghost use Rattle.std.specs.Prelude.{◌+◌, ◌-◌, IfSome};
    ghost use Rattle.std.specs.Iterator.{YieldsFirstBy, UpTo, at_most};
    ghost use Rattle.std.specs.Iterator.SizeHint.{IsWithinCount, IsExactHint};
    ghost use Rattle.ipnet_base.specs.Address.{ip_address};
    ghost use Rattle.ipnet_base.specs.Ranges.{address_count, IsRangeStep};
    ghost use Rattle.ipnet_base.specs.RangeOf.{ip_range, ip_addresses};

    ghost next_gives = { YieldsFirstBy ip_address ip_addresses };

    ghost remaining = { λ r. at_most (address_count (ip_range r)) };

    /// The first address that is left, or `None` when none is left, at this and every later call.
    ///
    /// After its only address a range stores the ends 1 and 0; a range with no address keeps its ends.
    fn next(&mut self) -> Option<IpAddr>
        ensures steps { YieldsFirstBy ip_address ip_addresses self.old result self.new }
        ensures goes { IsRangeStep ip_address ip_range self.old result self.new }
    {
        match self {
            IpAddrRange::V4(range) => range.next().map(IpAddr::V4),
            IpAddrRange::V6(range) => range.next().map(IpAddr::V6),
        }
    }

    /// The count of the addresses that are left, as both bounds, or `(usize::MAX, None)` if the count does not fit in a
    /// `usize`.
    fn size_hint(&self) -> (usize, Option<usize>)
        ensures exact { IsExactHint result (address_count (ip_range self.now)) }
        ensures lower { IsWithinCount result.0 (at_most (address_count (ip_range self.now))) }
        ensures upper { IfSome result.1 (UpTo (at_most (address_count (ip_range self.now)))) }
    {
        match self {
            IpAddrRange::V4(range) => range.size_hint(),
            IpAddrRange::V6(range) => range.size_hint(),
        }
    }
}

impl DoubleEndedIterator for IpAddrRange {
    ghost use Rattle.ipnet_base.specs.Address.{ip_address};
    ghost use Rattle.std.specs.Iterator.{YieldsLastBy};
    ghost use Rattle.ipnet_base.specs.Ranges.{IsRangeStepBack};
    ghost use Rattle.ipnet_base.specs.RangeOf.{ip_range, ip_addresses};

    ghost next_back_gives = { YieldsLastBy ip_address ip_addresses };

    /// The last address that is left, or `None` when none is left, at this and every later call.
    ///
    /// After its only address a range stores the ends 1 and 0; a range with no address keeps its ends.
    fn next_back(&mut self) -> Option<IpAddr>
        ensures steps { YieldsLastBy ip_address ip_addresses self.old result self.new }
        ensures goes { IsRangeStepBack ip_address ip_range self.old result self.new }
    {
        match self {
            IpAddrRange::V4(range) => range.next_back().map(IpAddr::V4),
            IpAddrRange::V6(range) => range.next_back().map(IpAddr::V6),
        }
    }
}

impl FusedIterator for IpAddrRange {}
