//! Sets of the numbers of one family. Each is stored by its boundaries: the ascending list of the numbers at which it
//! begins or ends. A number is inside if an odd number of the boundaries are at most it. An end at the family's last
//! number is left out.
ghost use Rattle.std.specs.Prelude.{◌≡◌, ℕ, ◌+◌, ◌^◌, ◌%◌, ◌<◌, ◌≤◌, ◌⊎◌, ◌↔◌, IsTrue, true, false, List, [], ◌∷◌};
ghost use Rattle.std.specs.Prelude.{◌++◌, length, map, take, drop, All, IfOk, OnOk, IsNone, IfSome};
ghost use Rattle.ipnet_base.specs.Address.{greatest_number};
ghost use Rattle.ipnet_sets.specs.Boundaries.{is_inside, combined, AreBoundaries, IsBoundary, IsSplitAt};
ghost use Rattle.ipnet_sets.specs.SetRanges.{range_of};
ghost use Rattle.ipnet_sets.specs.BoundaryRanges.{ranges_of, count_of, before_last};
ghost use Rattle.ipnet_sets.specs.Boundaries.{IsLeastInside, IsGreatestInside};
ghost use Rattle.ipnet_sets.specs.Parts.{IsPartBetween};

use crate::number::{Number, NumberRange};
use crate::operation::Operation;
use std::alloc::{AllocError, Global};

/// Whether the operation takes a number that is, or is not, in the first set and in the second.
fn takes(operation: Operation, first: bool, second: bool) -> bool
    ensures { result ≡ combined operation first second }
{
    match operation {
        Operation::Union => first || second,
        Operation::Intersection => first && second,
        Operation::Difference => first && !second,
        Operation::SymmetricDifference => first != second,
    }
}

/// The next number at which one of two sets begins or ends, and the places after it in both lists.
#[derive(Clone, Copy)]
struct Boundary<T> {
    number: T,
    first: usize,
    second: usize,
}

/// The least boundary of both lists from these places on.
fn next_boundary<T: Number>(
    first: &[T],
    first_at: usize,
    second: &[T],
    second_at: usize,
) -> Boundary<T>
    requires first_within { first_at ≤ length first.now }
    requires second_within { second_at ≤ length second.now }
    requires some { (first_at < length first.now) ⊎ (second_at < length second.now) }
    ensures { IsBoundary (map T.number first.now) first_at (map T.number second.now) second_at
        (T.number result.number) result.first result.second }
{
    if first_at == first.len() {
        return Boundary {
            number: second[second_at],
            first: first_at,
            second: second_at + 1,
        };
    }
    if second_at == second.len() {
        return Boundary {
            number: first[first_at],
            first: first_at + 1,
            second: second_at,
        };
    }
    // The processor cannot predict which list is next, so the choice is made by sums, without a branch.
    let one = first[first_at];
    let other = second[second_at];
    let first_begins = !other.is_below(one);
    let second_begins = !one.is_below(other);
    let number = if first_begins { one } else { other };
    Boundary {
        number,
        first: first_at + usize::from(first_begins),
        second: second_at + usize::from(second_begins),
    }
}

/// Returns the result of the operation on two sets. Each of its boundaries is a boundary of one of them.
pub(crate) fn combine<T: Number>(
    alloc: Global,
    operation: Operation,
    first: &[T],
    second: &[T],
) -> Result<Vec<T>, AllocError>
    requires first { AreBoundaries T.family (map T.number first.now) }
    requires second { AreBoundaries T.family (map T.number second.now) }
    ensures boundaries { IfOk result (λ boundaries. AreBoundaries T.family (map T.number boundaries.items)) }
    ensures members { IfOk result (λ boundaries. (x : ℕ) → is_inside (map T.number boundaries.items) x
        ≡ combined operation (is_inside (map T.number first.now) x) (is_inside (map T.number second.now) x)) }
    ensures no_more { IfOk result (λ boundaries. length boundaries.items ≤ length first.now + length second.now) }
{
    let mut boundaries = Vec::new(alloc);
    let mut first_at = 0;
    let mut second_at = 0;
    while first_at < first.len() || second_at < second.len() {
        let boundary = next_boundary(first, first_at, second, second_at);
        first_at = boundary.first;
        second_at = boundary.second;
        let inside = takes(operation, first_at % 2 == 1, second_at % 2 == 1);
        let made = boundaries.len();
        let changes = inside != (made % 2 == 1);
        if changes {
            boundaries.push(boundary.number)?;
        }
    }
    Ok(boundaries)
}

/// Returns whether the result of the operation is the empty set.
pub(crate) fn makes_nothing<T: Number>(operation: Operation, first: &[T], second: &[T]) -> bool
    requires first { AreBoundaries T.family (map T.number first.now) }
    requires second { AreBoundaries T.family (map T.number second.now) }
    ensures { IsTrue result ↔ ((x : ℕ) → x ≤ greatest_number T.family
        → combined operation (is_inside (map T.number first.now) x) (is_inside (map T.number second.now) x) ≡ false) }
{
    let mut first_at = 0;
    let mut second_at = 0;
    while first_at < first.len() || second_at < second.len() {
        let boundary = next_boundary(first, first_at, second, second_at);
        first_at = boundary.first;
        second_at = boundary.second;
        if takes(operation, first_at % 2 == 1, second_at % 2 == 1) {
            return false;
        }
    }
    true
}

/// Returns the number of boundaries that are at most the number, by binary search.
fn boundaries_up_to<T: Number>(boundaries: &[T], number: T) -> usize
    requires { AreBoundaries T.family (map T.number boundaries.now) }
    ensures { IsSplitAt (map T.number boundaries.now) (T.number number) result }
{
    boundaries.partition_point(|boundary| boundary.is_at_most(number))
}

/// Returns the boundaries from the place on, after the first number if that is inside: if the place is odd.
fn begun_at<T: Number>(
    alloc: Global,
    boundaries: &[T],
    place: usize,
    first: T,
) -> Result<Vec<T>, AllocError>
    requires { place ≤ length boundaries.now }
    ensures inside { place % 2 ≡ 1 → IfOk result (λ part. part.items ≡ first ∷ drop place boundaries.now) }
    ensures outside { ¬ (place % 2 ≡ 1) → IfOk result (λ part. part.items ≡ drop place boundaries.now) }
{
    let mut part = Vec::new(alloc);
    if place % 2 == 1 {
        part.push(first)?;
    }
    part.extend_from_slice(&boundaries[place..])?;
    Ok(part)
}

/// Returns the set of the numbers from the first to the last that are in the set. Allocates nothing if there are none.
pub(crate) fn part_between<T: Number>(
    alloc: Global,
    boundaries: &[T],
    first: T,
    last: T,
) -> Result<Vec<T>, AllocError>
    requires boundaries { AreBoundaries T.family (map T.number boundaries.now) }
    requires ordered { T.number first ≤ T.number last }
    ensures { IfOk result (λ part. IsPartBetween T.family (map T.number boundaries.now) (T.number first) (T.number last)
        (map T.number part.items)) }
{
    last.fits();
    let before = boundaries_up_to(boundaries, first);
    let after = boundaries_up_to(boundaries, last);
    let mut part = begun_at(alloc, &boundaries[..after], before, first)?;
    if after % 2 == 1 && last.is_below(T::last()) {
        part.push(last.next())?;
    }
    Ok(part)
}

/// Whether the number is in the set.
pub(crate) fn contains<T: Number>(boundaries: &[T], number: T) -> bool
    requires { AreBoundaries T.family (map T.number boundaries.now) }
    ensures { result ≡ is_inside (map T.number boundaries.now) (T.number number) }
{
    boundaries_up_to(boundaries, number) % 2 == 1
}

/// Whether all numbers from the first to the last are in the set.
fn covers<T: Number>(boundaries: &[T], first: T, last: T) -> bool
    requires boundaries { AreBoundaries T.family (map T.number boundaries.now) }
    requires ordered { T.number first ≤ T.number last }
    ensures { IsTrue result ↔ ((x : ℕ) → T.number first ≤ x → x ≤ T.number last
        → is_inside (map T.number boundaries.now) x ≡ true) }
{
    let place = boundaries_up_to(boundaries, first);
    place % 2 == 1 && (place == boundaries.len() || last.is_below(boundaries[place]))
}

/// Whether all numbers from the first to the last are in the set; true if the first is above the last.
pub(crate) fn covers_range<T: Number>(boundaries: &[T], first: T, last: T) -> bool
    requires { AreBoundaries T.family (map T.number boundaries.now) }
    ensures { IsTrue result ↔ ((x : ℕ) → T.number first ≤ x → x ≤ T.number last
        → is_inside (map T.number boundaries.now) x ≡ true) }
{
    last.is_below(first) || covers(boundaries, first, last)
}

/// The least number of the set.
pub(crate) fn first<T: Number>(boundaries: &[T]) -> Option<T>
    requires { AreBoundaries T.family (map T.number boundaries.now) }
    ensures none { IsNone result ↔ ((x : ℕ) → x ≤ greatest_number T.family
        → is_inside (map T.number boundaries.now) x ≡ false) }
    ensures some { IfSome result (λ n. IsLeastInside T.family (map T.number boundaries.now) (T.number n)) }
{
    if boundaries.is_empty() {
        return None;
    }
    Some(boundaries[0])
}

/// The greatest number of the set.
pub(crate) fn last<T: Number>(boundaries: &[T]) -> Option<T>
    requires { AreBoundaries T.family (map T.number boundaries.now) }
    ensures none { IsNone result ↔ ((x : ℕ) → x ≤ greatest_number T.family
        → is_inside (map T.number boundaries.now) x ≡ false) }
    ensures some { IfSome result (λ n. IsGreatestInside T.family (map T.number boundaries.now) (T.number n)) }
{
    if boundaries.is_empty() {
        return None;
    }
    if boundaries.len() % 2 == 1 {
        return Some(T::last());
    }
    Some(boundaries[boundaries.len() - 1].previous())
}

/// The first range of the set.
pub(crate) fn first_range<T: Number>(boundaries: &[T]) -> Option<NumberRange<T>>
    requires { AreBoundaries T.family (map T.number boundaries.now) }
    ensures none { IsNone result ↔ (boundaries.now ≡ []) }
    ensures some { IfSome result (λ r. ranges_of T.family (map T.number boundaries.now)
        ≡ range_of T.family (T.number r.first) (T.number r.last)
        ∷ ranges_of T.family (map T.number (drop 2 boundaries.now))) }
{
    if boundaries.is_empty() {
        return None;
    }
    let first = boundaries[0];
    if boundaries.len() == 1 {
        return Some(NumberRange {
            first,
            last: T::last(),
        });
    }
    let last = boundaries[1].previous();
    Some(NumberRange { first, last })
}

/// Returns the boundaries after the first range.
pub(crate) fn after_first_range<T>(boundaries: &[T]) -> &[T]
    ensures { result.now ≡ drop 2 boundaries.now }
{
    if boundaries.len() <= 2 {
        return &[];
    }
    &boundaries[2..]
}

/// Returns the last range of the set.
pub(crate) fn last_range<T: Number>(boundaries: &[T]) -> Option<NumberRange<T>>
    requires { AreBoundaries T.family (map T.number boundaries.now) }
    ensures none { IsNone result ↔ (boundaries.now ≡ []) }
    ensures some { IfSome result (λ r. ranges_of T.family (map T.number boundaries.now)
        ≡ ranges_of T.family (map T.number (take (before_last boundaries.now) boundaries.now))
        ++ range_of T.family (T.number r.first) (T.number r.last) ∷ []) }
{
    if boundaries.is_empty() {
        return None;
    }
    let last = boundaries.len() - 1;
    if last % 2 == 0 {
        return Some(NumberRange {
            first: boundaries[last],
            last: T::last(),
        });
    }
    Some(NumberRange {
        first: boundaries[last - 1],
        last: boundaries[last].previous(),
    })
}

/// Returns the boundaries before the last range.
pub(crate) fn before_last_range<T>(boundaries: &[T]) -> &[T]
    ensures { result.now ≡ take (before_last boundaries.now) boundaries.now }
{
    if boundaries.is_empty() {
        return boundaries;
    }
    &boundaries[..(boundaries.len() - 1) / 2 * 2]
}

/// Returns how many ranges the set has.
pub(crate) fn range_count<T: Number>(boundaries: &[T]) -> usize
    requires { AreBoundaries T.family (map T.number boundaries.now) }
    ensures count { result ≡ length (ranges_of T.family (map T.number boundaries.now)) }
    ensures fits { result ≤ greatest_number T.family + 1 }
    ensures half { result ≤ 2 ^ 63 }
{
    boundaries.len() / 2 + boundaries.len() % 2
}

/// Whether every number of the family is in the set.
pub(crate) fn is_whole<T: Number>(boundaries: &[T]) -> bool
    requires { AreBoundaries T.family (map T.number boundaries.now) }
    ensures { IsTrue result ↔ (count_of (ranges_of T.family (map T.number boundaries.now))
        ≡ greatest_number T.family + 1) }
{
    boundaries.len() == 1 && !T::first().is_below(boundaries[0])
}

/// How many numbers are in the set.
pub(crate) fn count<T: Number>(boundaries: &[T]) -> u128
    requires boundaries { AreBoundaries T.family (map T.number boundaries.now) }
    requires fits { count_of (ranges_of T.family (map T.number boundaries.now)) < 2 ^ 128 }
    ensures { result ≡ count_of (ranges_of T.family (map T.number boundaries.now)) }
{
    let mut total = 0;
    let mut left = boundaries;
    while let Some(range) = first_range(left) {
        total += range.first.distance_to(range.last) + 1;
        left = after_first_range(left);
    }
    total
}
