//! Sets of the numbers of one family, put together from ranges in any order.
ghost use Rattle.std.specs.Prelude.{◌≡◌, ℕ, ◌-◌, ◌<◌, ◌≤◌, ◌%◌, ◌⊎◌, ◌↔◌, IsTrue, true, false, length, map, All};
ghost use Rattle.std.specs.Prelude.{get_or, IsOk, IfOk, OnOk, OnErr};
ghost use Rattle.std.specs.List.Sorted.{IsNonDecreasingBy};
ghost use Rattle.ipnet_base.specs.Address.{greatest_number};
ghost use Rattle.ipnet_sets.specs.Gather.{IsInSomeRange, IsHeld, BeginsBy, IsJoined};
ghost use Rattle.ipnet_sets.specs.Boundaries.{is_inside, AreBoundaries};

use crate::boundaries;
use crate::number::{Number, NumberRange};
use crate::operation::Operation;
use std::alloc::{AllocError, Global};

/// Returns whether no range of the set begins after the number.
fn begins_by<T: Number>(boundaries: &[T], first: T) -> bool
    requires { AreBoundaries T.family (map T.number boundaries.now) }
    ensures { IsTrue result ↔ BeginsBy (map T.number boundaries.now) (T.number first) }
{
    boundaries.is_empty() || !first.is_below(boundaries[(boundaries.len() - 1) / 2 * 2])
}

/// Returns whether all boundaries of the set are below the number.
fn ends_before<T: Number>(boundaries: &[T], first: T) -> bool
    requires { AreBoundaries T.family (map T.number boundaries.now) }
    ensures before { result ≡ true → All (λ t. t < T.number first) (map T.number boundaries.now) }
    ensures later { result ≡ false → (0 < length boundaries.now) × ((d : ℕ)
        → T.number first ≤ get_or (map T.number boundaries.now) (length boundaries.now - 1) d) }
{
    boundaries.is_empty() || boundaries[boundaries.len() - 1].is_below(first)
}

/// Adds the numbers from the first to the last. They come after the numbers of the set, and do not touch them.
fn append_range<T: Number>(boundaries: &mut Vec<T>, first: T, last: T) -> Result<(), AllocError>
    requires boundaries { AreBoundaries T.family (map T.number boundaries.old.items) }
    requires even { length boundaries.old.items % 2 ≡ 0 }
    requires after { All (λ t. t < T.number first) (map T.number boundaries.old.items) }
    requires ordered { T.number first ≤ T.number last }
    requires fits { T.number last ≤ greatest_number T.family }
    ensures joined { OnOk result (IsJoined T.family (map T.number boundaries.old.items) (T.number first) (T.number last)
        (map T.number boundaries.new.items)) }
    ensures err { OnErr result (boundaries.new.items ≡ boundaries.old.items) }
{
    // With room for both boundaries, a failure leaves the set as it is.
    boundaries.reserve(2)?;
    boundaries.push(first)?;
    if last.is_below(T::last()) {
        boundaries.push(last.next())?;
    }
    Ok(())
}

/// Extends the last range of the set to `last`, if it ends before that. It begins at or before `first`, and touches it.
fn extend_last<T: Number>(boundaries: &mut Vec<T>, first: T, last: T)
    requires boundaries { AreBoundaries T.family (map T.number boundaries.old.items) }
    requires even { length boundaries.old.items % 2 ≡ 0 }
    requires begins { BeginsBy (map T.number boundaries.old.items) (T.number first) }
    requires some { 0 < length boundaries.old.items }
    requires touches { (d : ℕ)
        → T.number first ≤ get_or (map T.number boundaries.old.items) (length boundaries.old.items - 1) d }
    requires ordered { T.number first ≤ T.number last }
    requires fits { T.number last ≤ greatest_number T.family }
    ensures { IsJoined T.family (map T.number boundaries.old.items) (T.number first) (T.number last)
        (map T.number boundaries.new.items) }
{
    let slice = boundaries.as_slice();
    let end = slice.len() - 1;
    if last.is_below(slice[end]) {
        return;
    }
    if last.is_below(T::last()) {
        boundaries[end] = last.next();
    } else {
        boundaries.pop();
    }
}

/// Adds the numbers from the first to the last to a set of which no range begins after the first; none if the first is
/// above the last.
pub(crate) fn join_range<T: Number>(
    boundaries: &mut Vec<T>,
    first: T,
    last: T,
) -> Result<(), AllocError>
    requires boundaries { AreBoundaries T.family (map T.number boundaries.old.items) }
    requires begins { BeginsBy (map T.number boundaries.old.items) (T.number first) }
    requires fits { T.number last ≤ greatest_number T.family }
    ensures empty { T.number last < T.number first → IsOk result }
    ensures joined { OnOk result (IsJoined T.family (map T.number boundaries.old.items) (T.number first) (T.number last)
        (map T.number boundaries.new.items)) }
    ensures err { OnErr result (boundaries.new.items ≡ boundaries.old.items) }
{
    if last.is_below(first) || boundaries.len() % 2 == 1 {
        return Ok(());
    }
    if ends_before(boundaries.as_slice(), first) {
        return append_range(boundaries, first, last);
    }
    extend_last(boundaries, first, last);
    Ok(())
}

/// Adds the numbers from the first to the last: to the set, if no range of it begins after the first, and else to the
/// ranges that wait.
pub(crate) fn push<T: Number>(
    boundaries: &mut Vec<T>,
    waiting: &mut Vec<NumberRange<T>>,
    first: T,
    last: T,
) -> Result<(), AllocError>
    requires boundaries { AreBoundaries T.family (map T.number boundaries.old.items) }
    requires fits { T.number last ≤ greatest_number T.family }
    ensures boundaries { AreBoundaries T.family (map T.number boundaries.new.items) }
    ensures members { OnOk result ((x : ℕ) → x ≤ greatest_number T.family
        → IsHeld T.number boundaries.new.items waiting.new.items x
        ↔ (IsHeld T.number boundaries.old.items waiting.old.items x ⊎ ((T.number first ≤ x) × (x ≤ T.number last)))) }
    ensures err { OnErr result ((boundaries.new.items ≡ boundaries.old.items)
        × (waiting.new.items ≡ waiting.old.items)) }
{
    if begins_by(boundaries.as_slice(), first) {
        return join_range(boundaries, first, last);
    }
    waiting.push(NumberRange { first, last })?;
    Ok(())
}

/// The set of the numbers of ranges that are sorted by their first numbers.
fn join_sorted<T: Number>(alloc: Global, ranges: &[NumberRange<T>]) -> Result<Vec<T>, AllocError>
    requires { IsNonDecreasingBy (λ r. T.number r.first) ranges.now }
    ensures empty { ((x : ℕ) → x ≤ greatest_number T.family → ¬ (IsInSomeRange T.number ranges.now x)) → IsOk result }
    ensures boundaries { IfOk result (λ boundaries. AreBoundaries T.family (map T.number boundaries.items)) }
    ensures members { IfOk result (λ boundaries. (x : ℕ) → x ≤ greatest_number T.family
        → (is_inside (map T.number boundaries.items) x ≡ true) ↔ IsInSomeRange T.number ranges.now x) }
{
    let mut boundaries = Vec::new(alloc);
    for range in ranges {
        range.last.fits();
        join_range(&mut boundaries, range.first, range.last)?;
    }
    Ok(boundaries)
}

/// Returns the set of the numbers of the ranges.
pub(crate) fn join_all<T: Number>(
    alloc: Global,
    ranges: Vec<NumberRange<T>>,
) -> Result<Vec<T>, AllocError>
    ensures empty { ((x : ℕ) → x ≤ greatest_number T.family → ¬ (IsInSomeRange T.number ranges.items x)) → IsOk result }
    ensures boundaries { IfOk result (λ boundaries. AreBoundaries T.family (map T.number boundaries.items)) }
    ensures members { IfOk result (λ boundaries. (x : ℕ) → x ≤ greatest_number T.family
        → (is_inside (map T.number boundaries.items) x ≡ true) ↔ IsInSomeRange T.number ranges.items x) }
{
    let mut ranges = ranges;
    T::sort(&mut ranges);
    join_sorted(alloc, ranges.as_slice())
}

/// Returns the set of the numbers of the set in order and of the ranges that wait. It is the set in order itself if no
/// range that waits has a number.
pub(crate) fn united<T: Number>(
    alloc: Global,
    in_order: Vec<T>,
    waiting: Vec<NumberRange<T>>,
) -> Result<Vec<T>, AllocError>
    requires { AreBoundaries T.family (map T.number in_order.items) }
    ensures empty { ((x : ℕ) → x ≤ greatest_number T.family → ¬ (IsInSomeRange T.number waiting.items x))
        → IsOk result }
    ensures boundaries { IfOk result (λ boundaries. AreBoundaries T.family (map T.number boundaries.items)) }
    ensures members { IfOk result (λ boundaries. (x : ℕ) → x ≤ greatest_number T.family
        → (is_inside (map T.number boundaries.items) x ≡ true) ↔ IsHeld T.number in_order.items waiting.items x) }
{
    let late = join_all(alloc, waiting)?;
    if late.as_slice().is_empty() {
        return Ok(in_order);
    }
    boundaries::combine(
        alloc,
        Operation::Union,
        in_order.as_slice(),
        late.as_slice(),
    )
}

/// The set of the numbers from the first to the last; it is empty if the first is above the last.
pub(crate) fn from_range<T: Number>(alloc: Global, first: T, last: T) -> Result<Vec<T>, AllocError>
    requires { T.number last ≤ greatest_number T.family }
    ensures boundaries { IfOk result (λ boundaries. AreBoundaries T.family (map T.number boundaries.items)) }
    ensures members { IfOk result (λ boundaries. (x : ℕ) → x ≤ greatest_number T.family
        → (is_inside (map T.number boundaries.items) x ≡ true) ↔ ((T.number first ≤ x) × (x ≤ T.number last))) }
{
    let mut boundaries = Vec::new(alloc);
    join_range(&mut boundaries, first, last)?;
    Ok(boundaries)
}
