//! The ranges of a set, one after the other.
ghost use Rattle.std.specs.Prelude.{map};
ghost use Rattle.std.specs.Iterator.{YieldsFirstBy, YieldsLastBy, item_count};
ghost use Rattle.ipnet_base.specs.Address.{IPv4, IPv6};
ghost use Rattle.ipnet_base.specs.RangeOf.{ip_range};
ghost use Rattle.ipnet_sets.specs.Boundaries.{AreBoundaries};

pub mod laws;

use crate::boundaries;
use crate::number::Number;
use ipnet::IpAddrRange;
use std::iter::FusedIterator;

/// The ranges of a set: the fewest ranges that have together its addresses, IPv4 before IPv6 and ascending. No two of
/// them touch. Made by `IpSet::ranges`; allocates nothing.
///
/// ```text
/// of 10.0.0.0/30, 10.0.0.4/31, fd00::/126: 10.0.0.0 to 10.0.0.5, then fd00:: to fd00::3, then None
/// ```
#[derive(Clone, Copy)]
pub struct IpSetRanges<'a> {
    pub(crate) ipv4: &'a [u32],
    pub(crate) ipv6: &'a [u128],
    ghost ipv4_boundaries: { AreBoundaries IPv4 (map (λ n. n) ipv4.now) },
    ghost ipv6_boundaries: { AreBoundaries IPv6 (map (λ n. n) ipv6.now) },
}

impl Iterator for IpSetRanges<'_> {
    type Item = IpAddrRange;

    ghost use Rattle.std.specs.Prelude.{IfSome, length};
    ghost use Rattle.std.specs.Iterator.{UpTo};
    ghost use Rattle.std.specs.Iterator.SizeHint.{IsWithinCount, IsExactHint};
    ghost use Rattle.ipnet_sets.specs.RangesLeft.{ranges_left};

    ghost next_gives = { YieldsFirstBy ip_range ranges_left };

    ghost remaining = { item_count ranges_left };

    /// The first range that is left, or `None`, then and ever after, if none is.
    fn next(&mut self) -> Option<IpAddrRange> {
        if let Some(range) = boundaries::first_range(self.ipv4) {
            self.ipv4 = boundaries::after_first_range(self.ipv4);
            return Some(range.first.range_to(range.last));
        }
        let range = boundaries::first_range(self.ipv6)?;
        self.ipv6 = boundaries::after_first_range(self.ipv6);
        Some(range.first.range_to(range.last))
    }

    /// Returns the number of the ranges that are left, as both bounds.
    fn size_hint(&self) -> (usize, Option<usize>)
        ensures exact { IsExactHint result (length (ranges_left self.now)) }
        ensures lower { IsWithinCount result.0 (item_count ranges_left self.now) }
        ensures upper { IfSome result.1 (UpTo (item_count ranges_left self.now)) }
    {
        let len = self.len();
        (len, Some(len))
    }
}

impl DoubleEndedIterator for IpSetRanges<'_> {
    ghost use Rattle.ipnet_sets.specs.RangesLeft.{ranges_left};

    ghost next_back_gives = { YieldsLastBy ip_range ranges_left };

    /// Returns the last range that is left, or `None`, then and ever after, if none is.
    fn next_back(&mut self) -> Option<IpAddrRange> {
        if let Some(range) = boundaries::last_range(self.ipv6) {
            self.ipv6 = boundaries::before_last_range(self.ipv6);
            return Some(range.first.range_to(range.last));
        }
        let range = boundaries::last_range(self.ipv4)?;
        self.ipv4 = boundaries::before_last_range(self.ipv4);
        Some(range.first.range_to(range.last))
    }
}

impl ExactSizeIterator for IpSetRanges<'_> {
    /// Returns the number of the ranges that are left.
    fn len(&self) -> usize {
        boundaries::range_count(self.ipv4) + boundaries::range_count(self.ipv6)
    }
}

impl FusedIterator for IpSetRanges<'_> {}
