//! A fact about the ranges of all sets: the contract of a function that computes nothing.
ghost use Rattle.std.specs.Prelude.{◌≡◌, ◌↔◌, Option};
ghost use Rattle.std.specs.Iterator.{YieldsFirstBy, YieldsLastBy, item_count};
ghost use Rattle.ipnet_base.specs.declared.ipext.ip_range.IpAddrRange.{IpAddrRange};
ghost use Rattle.ipnet_base.specs.RangeOf.{ip_range};
ghost use Rattle.ipnet_sets.specs.declared.set_ranges.IpSetRanges.{IpSetRanges};
ghost use Rattle.ipnet_sets.specs.RangesLeft.{ranges_left};

use super::IpSetRanges;

/// `next` returns the first of the ranges that are left, and leaves the others; `next_back` returns the last. Both may
/// be called at any time, and they return as many ranges as are left.
pub fn ranges_are_given_in_order()
    ensures next { (old new : IpSetRanges) (answer : Option IpAddrRange)
        → ⟦<IpSetRanges<'static> as Iterator>⟧.next_gives old answer new
        ↔ YieldsFirstBy ip_range ranges_left old answer new }
    ensures next_back { (old new : IpSetRanges) (answer : Option IpAddrRange)
        → ⟦<IpSetRanges<'static> as DoubleEndedIterator>⟧.next_back_gives old answer new
        ↔ YieldsLastBy ip_range ranges_left old answer new }
    ensures at_any_time { (old : IpSetRanges) → ⟦<IpSetRanges<'static> as Iterator>⟧.can_next old }
    ensures count { (old : IpSetRanges)
        → ⟦<IpSetRanges<'static> as Iterator>⟧.remaining old ≡ item_count ranges_left old }
{}
