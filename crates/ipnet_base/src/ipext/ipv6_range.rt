//! Ranges of IPv6 addresses.
ghost use Rattle.std.specs.Prelude.{◌≡◌, ◌+◌, ◌-◌, ◌^◌, ◌<◌, ◌≤◌, ◌↔◌, IsTrue, option_map, slice_get, drop, take};
ghost use Rattle.std.specs.Prelude.{reverse};
ghost use Rattle.std.specs.Option.{SomeIff};
ghost use Rattle.std.specs.Net.Addr.{ipv6_bits};
ghost use Rattle.ipnet_base.specs.Address.{ipv6_address, address_at};
ghost use Rattle.ipnet_base.specs.Ranges.{address_count, with_ends, IsNth, IsNthBack};

use crate::addr::{Ipv6Addr, ipv6_from_number};
use std::iter::FusedIterator;

/// The IPv6 addresses from a first to a last one, in ascending order from the front and in descending order from the
/// back.
///
/// Two ranges are equal, and ordered, by their stored ends, and not by the addresses that they still yield.
///
/// ```text
/// from fd00:: to fd00::3:
///     next()        fd00::, leaves fd00::1 to fd00::3
///     next_back()   fd00::3, leaves fd00::1 to fd00::2
///     nth(1)        fd00::2, and nothing is left
///     next()        None, at this and every later call
/// ```
#[derive(Clone, Copy, PartialEq, Eq, PartialOrd, Ord, Hash, Debug)]
pub struct Ipv6AddrRange {
    /// The numbers `start..=end` are left. After the last address was returned, or `nth` or `nth_back` passed over all,
    /// the two are 1 and 0; until then a range that was made with its start above its end keeps both.
    start: u128,
    /// The last number that is left, or 0 as described at `start`.
    end: u128,
    ghost start_fits: { start < 2 ^ 128 },
    ghost end_fits: { end < 2 ^ 128 },
}

impl Ipv6AddrRange {
    ghost use Rattle.ipnet_base.specs.RangeOf.{ipv6_range, ipv6_addresses};

    /// The range from `start` to `end`, both of them in it. If `start` is above `end`, the range has no address and
    /// still stores both ends.
    ///
    /// ```text
    /// from fd00:: to fd00::3: the addresses fd00::, fd00::1, fd00::2, fd00::3; from ::2 to ::1: none
    /// ```
    pub fn new(start: Ipv6Addr, end: Ipv6Addr) -> Ipv6AddrRange
        ensures start { (ipv6_range result).start ≡ ipv6_bits start }
        ensures end { (ipv6_range result).end ≡ ipv6_bits end }
    {
        Ipv6AddrRange {
            start: start.to_bits(),
            end: end.to_bits(),
        }
    }

    /// How many addresses are left. The caller has shown that a `usize` holds the number: a range may have 2^128 of
    /// them.
    ///
    /// To test this, call `size_hint`: it has an upper bound if and only if the number fits.
    ///
    /// ```text
    /// from fd00:: to fd00::3: 4; from ::2 to ::1: 0; from :: to ::ffff:ffff:ffff:fffe: 18446744073709551615
    /// ```
    pub fn count(self) -> usize
        requires { address_count (ipv6_range self) < 2 ^ 64 }
        ensures { result ≡ address_count (ipv6_range self) }
    {
        if self.start <= self.end {
            (self.end - self.start) as usize + 1
        } else {
            0
        }
    }

    /// The least address that is left, or `None` if none is.
    ///
    /// ```text
    /// from fd00:: to fd00::3: Some(fd00::); from ::2 to ::1: None
    /// ```
    pub fn min(self) -> Option<Ipv6Addr>
        ensures { let r = ipv6_range self in
            SomeIff (option_map ipv6_address result) (r.start ≤ r.end) (address_at r.family r.start) }
    {
        if self.start <= self.end {
            Some(ipv6_from_number(self.start))
        } else {
            None
        }
    }

    /// The greatest address that is left, or `None` if none is.
    ///
    /// ```text
    /// from fd00:: to fd00::3: Some(fd00::3); from ::2 to ::1: None
    /// ```
    pub fn max(self) -> Option<Ipv6Addr>
        ensures { let r = ipv6_range self in
            SomeIff (option_map ipv6_address result) (r.start ≤ r.end) (address_at r.family r.end) }
    {
        if self.start <= self.end {
            Some(ipv6_from_number(self.end))
        } else {
            None
        }
    }

    /// The last address from the front, which is the greatest, or `None` if none is left.
    ///
    /// ```text
    /// from fd00:: to fd00::3: Some(fd00::3); from ::2 to ::1: None
    /// ```
    pub fn last(self) -> Option<Ipv6Addr>
        ensures { let r = ipv6_range self in
            SomeIff (option_map ipv6_address result) (r.start ≤ r.end) (address_at r.family r.end) }
    {
        self.max()
    }

    /// Skips `n` addresses from the front and returns the next one. If at most `n` are left, it returns `None` and
    /// nothing is left.
    ///
    /// If nothing is left, the stored ends are 1 and 0, even if the range was empty before and had other ends.
    ///
    /// ```text
    /// from fd00:: to fd00::3:
    ///     nth(1)   fd00::1, leaves fd00::2 to fd00::3
    ///     nth(1)   fd00::3, and nothing is left
    ///     nth(0)   None
    /// ```
    pub fn nth(&mut self, n: usize) -> Option<Ipv6Addr>
        ensures item { option_map ipv6_address result ≡ slice_get (ipv6_addresses self.old) n }
        ensures left { ipv6_addresses self.new ≡ drop (n + 1) (ipv6_addresses self.old) }
        ensures ends { IsNth n (ipv6_range self.old) (option_map ipv6_address result) (ipv6_range self.new) }
    {
        let past_end = self.has_at_most(n);
        if past_end {
            self.use_up();
            return None;
        }
        let item = self.start + n as u128;
        if item < self.end {
            self.start = item + 1;
        } else {
            self.use_up();
        }
        Some(ipv6_from_number(item))
    }

    /// Skips `n` addresses from the back and returns the next one. If at most `n` are left, it returns `None` and
    /// nothing is left.
    ///
    /// If nothing is left, the stored ends are 1 and 0, even if the range was empty before and had other ends.
    ///
    /// ```text
    /// from fd00:: to fd00::3:
    ///     nth_back(1)   fd00::2, leaves fd00:: to fd00::1
    ///     nth_back(1)   fd00::, and nothing is left
    ///     nth_back(0)   None
    /// ```
    pub fn nth_back(&mut self, n: usize) -> Option<Ipv6Addr>
        ensures item { option_map ipv6_address result ≡ slice_get (reverse (ipv6_addresses self.old)) n }
        ensures left { ipv6_addresses self.new
            ≡ take (address_count (ipv6_range self.old) - (n + 1)) (ipv6_addresses self.old) }
        ensures ends { IsNthBack n (ipv6_range self.old) (option_map ipv6_address result) (ipv6_range self.new) }
    {
        let past_start = self.has_at_most(n);
        if past_start {
            self.use_up();
            return None;
        }
        let item = self.end - n as u128;
        if self.start < item {
            self.end = item - 1;
        } else {
            self.use_up();
        }
        Some(ipv6_from_number(item))
    }

    /// Whether no more than `n` addresses are left.
    fn has_at_most(&self, n: usize) -> bool
        ensures { IsTrue result ↔ (address_count (ipv6_range self.now) ≤ n) }
    {
        self.start > self.end || n as u128 > self.end - self.start
    }

    /// Stores the ends of a range that was walked to its end.
    //
    // 1 and 0 as in the Rust crate. A start one above the end does not always exist: the last address of all has no
    // next number.
    fn use_up(&mut self)
        ensures { ipv6_range self.new ≡ with_ends (ipv6_range self.old) 1 0 }
    {
        self.start = 1;
        self.end = 0;
    }
}

impl Iterator for Ipv6AddrRange {
    type Item = Ipv6Addr;

    ghost use Rattle.std.specs.Prelude.{◌+◌, ◌-◌, IfSome};
    ghost use Rattle.std.specs.Iterator.{YieldsFirstBy, UpTo, at_most};
    ghost use Rattle.std.specs.Iterator.SizeHint.{IsWithinCount, IsExactHint};
    ghost use Rattle.ipnet_base.specs.Address.{ipv6_address};
    ghost use Rattle.ipnet_base.specs.Ranges.{address_count, IsRangeStep};
    ghost use Rattle.ipnet_base.specs.RangeOf.{ipv6_range, ipv6_addresses};

    ghost next_gives = { YieldsFirstBy ipv6_address ipv6_addresses };

    ghost remaining = { λ r. at_most (address_count (ipv6_range r)) };

    /// The first address that is left, or `None` when none is left, at this and every later call.
    ///
    /// After its only address a range stores the ends 1 and 0; a range with no address keeps its ends.
    fn next(&mut self) -> Option<Ipv6Addr>
        ensures steps { YieldsFirstBy ipv6_address ipv6_addresses self.old result self.new }
        ensures goes { IsRangeStep ipv6_address ipv6_range self.old result self.new }
    {
        let first = self.start;
        if first < self.end {
            self.start = first + 1;
        } else if first == self.end {
            self.use_up();
        } else {
            return None;
        }
        Some(ipv6_from_number(first))
    }

    /// The count of the addresses that are left, as both bounds, or `(usize::MAX, None)` if the count does not fit in a
    /// `usize`.
    fn size_hint(&self) -> (usize, Option<usize>)
        ensures exact { IsExactHint result (address_count (ipv6_range self.now)) }
        ensures lower { IsWithinCount result.0 (at_most (address_count (ipv6_range self.now))) }
        ensures upper { IfSome result.1 (UpTo (at_most (address_count (ipv6_range self.now)))) }
    {
        if self.start > self.end {
            return (0, Some(0));
        }
        let distance = self.end - self.start;
        if distance < usize::MAX as u128 {
            let count = distance as usize + 1;
            (count, Some(count))
        } else {
            (usize::MAX, None)
        }
    }
}

impl DoubleEndedIterator for Ipv6AddrRange {
    ghost use Rattle.ipnet_base.specs.Address.{ipv6_address};
    ghost use Rattle.std.specs.Iterator.{YieldsLastBy};
    ghost use Rattle.ipnet_base.specs.Ranges.{IsRangeStepBack};
    ghost use Rattle.ipnet_base.specs.RangeOf.{ipv6_range, ipv6_addresses};

    ghost next_back_gives = { YieldsLastBy ipv6_address ipv6_addresses };

    /// The last address that is left, or `None` when none is left, at this and every later call.
    ///
    /// After its only address a range stores the ends 1 and 0; a range with no address keeps its ends.
    fn next_back(&mut self) -> Option<Ipv6Addr>
        ensures steps { YieldsLastBy ipv6_address ipv6_addresses self.old result self.new }
        ensures goes { IsRangeStepBack ipv6_address ipv6_range self.old result self.new }
    {
        let last = self.end;
        if self.start < last {
            self.end = last - 1;
        } else if self.start == last {
            self.use_up();
        } else {
            return None;
        }
        Some(ipv6_from_number(last))
    }
}

impl FusedIterator for Ipv6AddrRange {}
