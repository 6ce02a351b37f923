//! Ranges of IPv4 addresses.
ghost use Rattle.std.specs.Prelude.{◌≡◌, ◌+◌, ◌-◌, ◌^◌, ◌<◌, ◌≤◌, ◌↔◌, IsTrue, option_map, slice_get, drop, take};
ghost use Rattle.std.specs.Prelude.{reverse};
ghost use Rattle.std.specs.Option.{SomeIff};
ghost use Rattle.std.specs.Net.Addr.{ipv4_bits};
ghost use Rattle.ipnet_base.specs.Address.{ipv4_address, address_at};
ghost use Rattle.ipnet_base.specs.Ranges.{address_count, with_ends, IsNth, IsNthBack};

use crate::addr::{Ipv4Addr, ipv4_from_number};
use std::iter::FusedIterator;

/// The IPv4 addresses from a first to a last one, in ascending order from the front and in descending order from the
/// back.
///
/// Two ranges are equal, and ordered, by their stored ends, and not by the addresses that they still yield.
///
/// ```text
/// from 10.0.0.0 to 10.0.0.3:
///     next()        10.0.0.0, leaves 10.0.0.1 to 10.0.0.3
///     next_back()   10.0.0.3, leaves 10.0.0.1 to 10.0.0.2
///     nth(1)        10.0.0.2, and nothing is left
///     next()        None, at this and every later call
/// ```
#[derive(Clone, Copy, PartialEq, Eq, PartialOrd, Ord, Hash, Debug)]
pub struct Ipv4AddrRange {
    /// The numbers `start..=end` are left. After the last address was returned, or `nth` or `nth_back` passed over all,
    /// the two are 1 and 0; until then a range that was made with its start above its end keeps both.
    start: u32,
    /// The last number that is left, or 0 as described at `start`.
    end: u32,
    ghost start_fits: { start < 2 ^ 32 },
    ghost end_fits: { end < 2 ^ 32 },
}

impl Ipv4AddrRange {
    ghost use Rattle.ipnet_base.specs.RangeOf.{ipv4_range, ipv4_addresses};

    /// The range from `start` to `end`, both of them in it. If `start` is above `end`, the range has no address and
    /// still stores both ends.
    ///
    /// ```text
    /// from 10.0.0.0 to 10.0.0.3: the addresses 10.0.0.0, 10.0.0.1, 10.0.0.2, 10.0.0.3; from 0.0.0.5 to 0.0.0.3: none
    /// ```
    pub fn new(start: Ipv4Addr, end: Ipv4Addr) -> Ipv4AddrRange
        ensures start { (ipv4_range result).start ≡ ipv4_bits start }
        ensures end { (ipv4_range result).end ≡ ipv4_bits end }
    {
        Ipv4AddrRange {
            start: start.to_bits(),
            end: end.to_bits(),
        }
    }

    /// How many addresses are left: 0 to 2^32.
    ///
    /// ```text
    /// from 10.0.0.0 to 10.0.0.3: 4; from 0.0.0.5 to 0.0.0.3: 0; from 0.0.0.0 to 255.255.255.255: 4294967296
    /// ```
    pub fn count(self) -> usize
        ensures { result ≡ address_count (ipv4_range self) }
    {
        if self.start <= self.end {
            (self.end - self.start) as usize + 1
        } else {
            0
        }
    }

    /// The least address that is left, or `None` if none is.
    ///
    /// ```text
    /// from 10.0.0.0 to 10.0.0.3: Some(10.0.0.0); from 0.0.0.5 to 0.0.0.3: None
    /// ```
    pub fn min(self) -> Option<Ipv4Addr>
        ensures { let r = ipv4_range self in
            SomeIff (option_map ipv4_address result) (r.start ≤ r.end) (address_at r.family r.start) }
    {
        if self.start <= self.end {
            Some(ipv4_from_number(self.start))
        } else {
            None
        }
    }

    /// The greatest address that is left, or `None` if none is.
    ///
    /// ```text
    /// from 10.0.0.0 to 10.0.0.3: Some(10.0.0.3); from 0.0.0.5 to 0.0.0.3: None
    /// ```
    pub fn max(self) -> Option<Ipv4Addr>
        ensures { let r = ipv4_range self in
            SomeIff (option_map ipv4_address result) (r.start ≤ r.end) (address_at r.family r.end) }
    {
        if self.start <= self.end {
            Some(ipv4_from_number(self.end))
        } else {
            None
        }
    }

    /// The last address from the front, which is the greatest, or `None` if none is left.
    ///
    /// ```text
    /// from 10.0.0.0 to 10.0.0.3: Some(10.0.0.3); from 0.0.0.5 to 0.0.0.3: None
    /// ```
    pub fn last(self) -> Option<Ipv4Addr>
        ensures { let r = ipv4_range self in
            SomeIff (option_map ipv4_address result) (r.start ≤ r.end) (address_at r.family r.end) }
    {
        self.max()
    }

    /// Skips `n` addresses from the front and returns the next one. If at most `n` are left, it returns `None` and
    /// nothing is left.
    ///
    /// If nothing is left, the stored ends are 1 and 0, even if the range was empty before and had other ends.
    ///
    /// ```text
    /// from 10.0.0.0 to 10.0.0.3:
    ///     nth(1)   10.0.0.1, leaves 10.0.0.2 to 10.0.0.3
    ///     nth(1)   10.0.0.3, and nothing is left
    ///     nth(0)   None
    /// ```
    pub fn nth(&mut self, n: usize) -> Option<Ipv4Addr>
        ensures item { option_map ipv4_address result ≡ slice_get (ipv4_addresses self.old) n }
        ensures left { ipv4_addresses self.new ≡ drop (n + 1) (ipv4_addresses self.old) }
        ensures ends { IsNth n (ipv4_range self.old) (option_map ipv4_address result) (ipv4_range self.new) }
    {
        let past_end = self.has_at_most(n);
        if past_end {
            self.use_up();
            return None;
        }
        let item = self.start + n as u32;
        if item < self.end {
            self.start = item + 1;
        } else {
            self.use_up();
        }
        Some(ipv4_from_number(item))
    }

    /// Skips `n` addresses from the back and returns the next one. If at most `n` are left, it returns `None` and
    /// nothing is left.
    ///
    /// If nothing is left, the stored ends are 1 and 0, even if the range was empty before and had other ends.
    ///
    /// ```text
    /// from 10.0.0.0 to 10.0.0.3:
    ///     nth_back(1)   10.0.0.2, leaves 10.0.0.0 to 10.0.0.1
    ///     nth_back(1)   10.0.0.0, and nothing is left
    ///     nth_back(0)   None
    /// ```
    pub fn nth_back(&mut self, n: usize) -> Option<Ipv4Addr>
        ensures item { option_map ipv4_address result ≡ slice_get (reverse (ipv4_addresses self.old)) n }
        ensures left { ipv4_addresses self.new
            ≡ take (address_count (ipv4_range self.old) - (n + 1)) (ipv4_addresses self.old) }
        ensures ends { IsNthBack n (ipv4_range self.old) (option_map ipv4_address result) (ipv4_range self.new) }
    {
        let past_start = self.has_at_most(n);
        if past_start {
            self.use_up();
            return None;
        }
        let item = self.end - n as u32;
        if self.start < item {
            self.end = item - 1;
        } else {
            self.use_up();
        }
        Some(ipv4_from_number(item))
    }

    /// Whether no more than `n` addresses are left.
    fn has_at_most(&self, n: usize) -> bool
        ensures { IsTrue result ↔ (address_count (ipv4_range self.now) ≤ n) }
    {
        self.start > self.end || n > (self.end - self.start) as usize
    }

    /// Stores the ends of a range that was walked to its end.
    //
    // 1 and 0 as in the Rust crate. A start one above the end would not always do: there is no number after the last
    // address of all.
    fn use_up(&mut self)
        ensures { ipv4_range self.new ≡ with_ends (ipv4_range self.old) 1 0 }
    {
        self.start = 1;
        self.end = 0;
    }
}

impl Iterator for Ipv4AddrRange {
    type Item = Ipv4Addr;

    ghost use Rattle.std.specs.Prelude.{◌+◌, ◌-◌, IfSome};
    ghost use Rattle.std.specs.Iterator.{YieldsFirstBy, UpTo, at_most};
    ghost use Rattle.std.specs.Iterator.SizeHint.{IsWithinCount, IsExactHint};
    ghost use Rattle.ipnet_base.specs.Address.{ipv4_address};
    ghost use Rattle.ipnet_base.specs.Ranges.{address_count, IsRangeStep};
    ghost use Rattle.ipnet_base.specs.RangeOf.{ipv4_range, ipv4_addresses};

    ghost next_gives = { YieldsFirstBy ipv4_address ipv4_addresses };

    ghost remaining = { λ r. at_most (address_count (ipv4_range r)) };

    /// The first address that is left, or `None` when none is left, at this and every later call.
    ///
    /// After its only address a range stores the ends 1 and 0; a range with no address keeps its ends.
    fn next(&mut self) -> Option<Ipv4Addr>
        ensures steps { YieldsFirstBy ipv4_address ipv4_addresses self.old result self.new }
        ensures goes { IsRangeStep ipv4_address ipv4_range self.old result self.new }
    {
        let first = self.start;
        if first < self.end {
            self.start = first + 1;
        } else if first == self.end {
            self.use_up();
        } else {
            return None;
        }
        Some(ipv4_from_number(first))
    }

    /// The count of the addresses that are left, as both bounds: it always fits.
    fn size_hint(&self) -> (usize, Option<usize>)
        ensures exact { IsExactHint result (address_count (ipv4_range self.now)) }
        ensures lower { IsWithinCount result.0 (at_most (address_count (ipv4_range self.now))) }
        ensures upper { IfSome result.1 (UpTo (at_most (address_count (ipv4_range self.now)))) }
    {
        let count = self.count();
        (count, Some(count))
    }
}

impl DoubleEndedIterator for Ipv4AddrRange {
    ghost use Rattle.ipnet_base.specs.Address.{ipv4_address};
    ghost use Rattle.std.specs.Iterator.{YieldsLastBy};
    ghost use Rattle.ipnet_base.specs.Ranges.{IsRangeStepBack};
    ghost use Rattle.ipnet_base.specs.RangeOf.{ipv4_range, ipv4_addresses};

    ghost next_back_gives = { YieldsLastBy ipv4_address ipv4_addresses };

    /// The last address that is left, or `None` when none is left, at this and every later call.
    ///
    /// After its only address a range stores the ends 1 and 0; a range with no address keeps its ends.
    fn next_back(&mut self) -> Option<Ipv4Addr>
        ensures steps { YieldsLastBy ipv4_address ipv4_addresses self.old result self.new }
        ensures goes { IsRangeStepBack ipv4_address ipv4_range self.old result self.new }
    {
        let last = self.end;
        if self.start < last {
            self.end = last - 1;
        } else if self.start == last {
            self.use_up();
        } else {
            return None;
        }
        Some(ipv4_from_number(last))
    }
}

impl FusedIterator for Ipv4AddrRange {}
