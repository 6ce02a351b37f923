//! Lists of numbers in ascending order: the values that are best for a block.
ghost use Rattle.std.specs.Prelude.{◌≡◌, ◌<◌, ◌⊎◌, ◌↔◌, [], ◌∷◌, ℕ, length, Contains, IsTrue, IfOk};
ghost use Rattle.std.specs.List.Sorted.{IsNonDecreasing};
ghost use Rattle.ipnet_fewest.specs.ItemsOf.{items_of};
ghost use Rattle.ipnet_fewest.specs.Solved.{AreValuesOfBoth, AreValuesBeside};

use std::alloc::{AllocError, Global};
use std::slice;

/// The values with which a block needs the fewest routes, in ascending order. Most blocks have one.
#[derive(Drop)]
pub(crate) enum Values {
    One(usize),
    Many(Box<Vec<usize>>),
}

impl Values {
    /// Returns the values as a list.
    pub(crate) fn as_slice(&self) -> &[usize]
        ensures { result.now ≡ items_of self.now }
    {
        match self {
            Values::One(value) => slice::from_ref(value),
            Values::Many(list) => list.as_slice(),
        }
    }

    /// Returns the values of the list.
    pub(crate) fn of(alloc: Global, list: Vec<usize>) -> Result<Values, AllocError>
        ensures { IfOk result (λ values. items_of values ≡ list.items) }
    {
        if list.len() == 1 {
            return Ok(Values::One(list[0]));
        }
        Ok(Values::Many(Box::new(alloc, list)?))
    }
}

/// Whether the value is in the list.
pub(crate) fn has_value(values: &[usize], value: usize) -> bool
    requires { IsNonDecreasing values.now }
    ensures { IsTrue result ↔ Contains values.now value }
{
    values.binary_search(&value).is_ok()
}

/// Returns the values of the first list that are in the second.
fn values_in(alloc: Global, first: &[usize], second: &[usize]) -> Result<Vec<usize>, AllocError>
    requires first { IsNonDecreasing first.now }
    requires second { IsNonDecreasing second.now }
    ensures sorted { IfOk result (λ values. IsNonDecreasing values.items) }
    ensures members { IfOk result (λ values. (v : ℕ)
        → Contains values.items v ↔ (Contains first.now v × Contains second.now v)) }
{
    let mut common = Vec::new(alloc);
    for index in 0..first.len() {
        let value = first[index];
        if has_value(second, value) {
            common.push(value)?;
        }
    }
    Ok(common)
}

/// Returns the values that are in both lists. The time grows with the length of the shorter list.
pub(crate) fn common_values(
    alloc: Global,
    first: &[usize],
    second: &[usize],
) -> Result<Vec<usize>, AllocError>
    requires first { IsNonDecreasing first.now }
    requires second { IsNonDecreasing second.now }
    ensures sorted { IfOk result (λ values. IsNonDecreasing values.items) }
    ensures members { IfOk result (λ values. (v : ℕ)
        → Contains values.items v ↔ (Contains first.now v × Contains second.now v)) }
{
    if first.len() <= second.len() {
        return values_in(alloc, first, second);
    }
    values_in(alloc, second, first)
}

/// Returns the values that are in one of the lists.
fn all_values(alloc: Global, first: &[usize], second: &[usize]) -> Result<Vec<usize>, AllocError>
    ensures sorted { IfOk result (λ values. IsNonDecreasing values.items) }
    ensures members { IfOk result (λ values. (v : ℕ)
        → Contains values.items v ↔ (Contains first.now v ⊎ Contains second.now v)) }
{
    let mut values = Vec::from_slice(alloc, first)?;
    values.extend_from_slice(second)?;
    values.sort()?;
    Ok(values)
}

/// Returns the best values of a block if its halves have these best values, and none in common. If an address of the
/// block has no value, then only 0 is possible.
pub(crate) fn values_of_both(
    alloc: Global,
    first: &[usize],
    second: &[usize],
) -> Result<Values, AllocError>
    requires first { 0 < length first.now }
    requires second { 0 < length second.now }
    ensures { IfOk result (λ values. AreValuesOfBoth first.now second.now (items_of values)) }
{
    if first[0] == 0 || second[0] == 0 {
        return Ok(Values::One(0));
    }
    Values::of(alloc, all_values(alloc, first, second)?)
}

/// Returns the best values of a block if one half has these best values, and all addresses of the other half have the
/// value; or, if it is not a half, of a block around such a block in which all other addresses have the value too.
pub(crate) fn values_beside(
    alloc: Global,
    first: &[usize],
    value: usize,
    is_half: bool,
) -> Result<Values, AllocError>
    requires { 0 < length first.now }
    ensures { IfOk result (λ values. AreValuesBeside is_half first.now value (items_of values)) }
{
    if is_half {
        return values_of_both(alloc, first, slice::from_ref(&value));
    }
    Ok(Values::One(value))
}
