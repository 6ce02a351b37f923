//! Numbers stored in bytes, little-endian, and the boundaries of one family among them.
ghost use Rattle.std.specs.Prelude.{◌≡◌, ℕ, ◌+◌, ◌*◌, ◌≤◌, ◌↔◌, true, IsTrue, length, map, IfOk, OnOk};
ghost use Rattle.ipnet_base.specs.Address.{greatest_number};
ghost use Rattle.ipnet_sets.specs.Boundaries.{is_inside, AreBoundaries, IsSplitAt};
ghost use Rattle.ipnet_sets.specs.Images.{number_from, numbers_from, IsAppended, AreAppended};

use crate::number::Number;
use std::alloc::{AllocError, Global};

/// A number of a family, as bytes hold it.
pub(crate) trait StoredNumber: Number {
    /// How many bytes the number takes.
    ghost width: { ℕ };

    /// Returns the number at this index among the numbers from byte `start` on.
    fn read(bytes: &[u8], start: usize, index: usize) -> Self
        requires { start + (index + 1) * width ≤ length bytes.now }
        ensures value { Self.number result ≡ number_from width bytes.now (start + index * width) }
        ensures fits { Self.number result ≤ greatest_number Self.family };

    /// Appends the bytes of the number.
    fn append_to(self, bytes: &mut Vec<u8>) -> Result<(), AllocError>
        ensures { OnOk result (IsAppended width (Self.number self) bytes.old.items bytes.new.items) };
}

/// Returns the number in the eight bytes from byte `at` on, the least significant first.
///
/// ```text
/// the bytes 0, 1, 2, 0, 0, 0, 0, 0, 0, from byte 1 on    513
/// ```
#[inline(always)]
pub fn read_u64(bytes: &[u8], at: usize) -> u64
    requires { at + 8 ≤ length bytes.now }
    ensures { result ≡ number_from 8 bytes.now at }
{
    let low = u64::from(read_u32(bytes, at));
    let high = u64::from(read_u32(bytes, at + 4));
    low + high * 0x1_0000_0000
}

/// Returns the number in the four bytes from byte `at` on, the least significant first.
///
/// ```text
/// the bytes 0, 1, 2, 0, 0, from byte 1 on    513
/// ```
#[inline(always)]
pub fn read_u32(bytes: &[u8], at: usize) -> u32
    requires { at + 4 ≤ length bytes.now }
    ensures { result ≡ number_from 4 bytes.now at }
{
    u32::from(bytes[at])
        + u32::from(bytes[at + 1]) * 0x100
        + u32::from(bytes[at + 2]) * 0x1_0000
        + u32::from(bytes[at + 3]) * 0x100_0000
}

/// Returns the number in the sixteen bytes from byte `at` on, the least significant first.
///
/// ```text
/// the bytes 0, 1, 2 and fourteen times 0, from byte 1 on    513
/// ```
#[inline(always)]
pub fn read_u128(bytes: &[u8], at: usize) -> u128
    requires { at + 16 ≤ length bytes.now }
    ensures { result ≡ number_from 16 bytes.now at }
{
    let low = u128::from(read_u64(bytes, at));
    let high = u128::from(read_u64(bytes, at + 8));
    low + high * 0x1_0000_0000_0000_0000
}

/// Appends the four bytes of the number, the least significant first. Fails only if memory runs out.
///
/// ```text
/// of 513: 1, 2, 0, 0
/// ```
pub fn append_u32(bytes: &mut Vec<u8>, number: u32) -> Result<(), AllocError>
    ensures { OnOk result (IsAppended 4 number bytes.old.items bytes.new.items) }
{
    bytes.extend_from_slice(&number.to_le_bytes())?;
    Ok(())
}

/// Appends the eight bytes of the number, the least significant first. Fails only if memory runs out.
///
/// ```text
/// of 513: 1, 2, 0, 0, 0, 0, 0, 0
/// ```
pub fn append_u64(bytes: &mut Vec<u8>, number: u64) -> Result<(), AllocError>
    ensures { OnOk result (IsAppended 8 number bytes.old.items bytes.new.items) }
{
    let eight = number.to_le_bytes();
    bytes.extend_from_slice(&eight)?;
    Ok(())
}

/// Appends the sixteen bytes of the number, the least significant first. Fails only if memory runs out.
///
/// ```text
/// of 513: 1, 2, and fourteen times 0
/// ```
pub fn append_u128(bytes: &mut Vec<u8>, number: u128) -> Result<(), AllocError>
    ensures { OnOk result (IsAppended 16 number bytes.old.items bytes.new.items) }
{
    append_u64(bytes, (number % 0x1_0000_0000_0000_0000) as u64)?;
    append_u64(bytes, (number / 0x1_0000_0000_0000_0000) as u64)?;
    Ok(())
}

impl StoredNumber for u32 {
    ghost width = { 4 };

    fn read(bytes: &[u8], start: usize, index: usize) -> u32 {
        read_u32(bytes, start + index * 4)
    }

    fn append_to(self, bytes: &mut Vec<u8>) -> Result<(), AllocError> {
        append_u32(bytes, self)
    }
}

impl StoredNumber for u128 {
    ghost width = { 16 };

    fn read(bytes: &[u8], start: usize, index: usize) -> u128 {
        read_u128(bytes, start + index * 16)
    }

    fn append_to(self, bytes: &mut Vec<u8>) -> Result<(), AllocError> {
        append_u128(bytes, self)
    }
}

/// The place of the numbers of one family: their count, and the byte at which they start.
#[derive(Clone, Copy)]
pub(crate) struct Place {
    pub(crate) start: usize,
    pub(crate) count: usize,
}

/// Returns how many of the boundaries are at most the number, by halving.
///
/// The bytes may be any: the call reads only the stored numbers and it ends. If they are not boundaries, the result
/// means nothing.
pub(crate) fn boundaries_up_to<T: StoredNumber>(bytes: &[u8], place: Place, number: T) -> usize
    requires { place.start + place.count * T.width ≤ length bytes.now }
    ensures within { result ≤ place.count }
    ensures split { AreBoundaries T.family (numbers_from T.width place.count bytes.now place.start)
        → IsSplitAt (numbers_from T.width place.count bytes.now place.start) (T.number number) result }
{
    let mut low = 0;
    let mut high = place.count;
    while low < high {
        let middle = low + (high - low) / 2;
        let boundary = T::read(bytes, place.start, middle);
        if number.is_below(boundary) {
            high = middle;
        } else {
            low = middle + 1;
        }
    }
    low
}

/// Returns whether the number is in the set of the boundaries.
pub(crate) fn contains<T: StoredNumber>(bytes: &[u8], place: Place, number: T) -> bool
    requires { place.start + place.count * T.width ≤ length bytes.now }
    ensures { AreBoundaries T.family (numbers_from T.width place.count bytes.now place.start)
        → result ≡ is_inside (numbers_from T.width place.count bytes.now place.start) (T.number number) }
{
    boundaries_up_to(bytes, place, number) % 2 == 1
}

/// Returns whether all numbers from the first to the last are in the set of the boundaries; true if the first is above
/// the last.
pub(crate) fn covers<T: StoredNumber>(bytes: &[u8], place: Place, first: T, last: T) -> bool
    requires { place.start + place.count * T.width ≤ length bytes.now }
    ensures { AreBoundaries T.family (numbers_from T.width place.count bytes.now place.start)
        → IsTrue result ↔ ((x : ℕ) → T.number first ≤ x → x ≤ T.number last
        → is_inside (numbers_from T.width place.count bytes.now place.start) x ≡ true) }
{
    if last.is_below(first) {
        return true;
    }
    let turned = boundaries_up_to(bytes, place, first);
    if turned % 2 == 0 {
        return false;
    }
    if turned == place.count {
        return true;
    }
    let next: T = StoredNumber::read(bytes, place.start, turned);
    last.is_below(next)
}

/// Returns whether the stored numbers are boundaries: whether they ascend.
pub(crate) fn are_boundaries<T: StoredNumber>(bytes: &[u8], place: Place) -> bool
    requires { place.start + place.count * T.width ≤ length bytes.now }
    ensures { IsTrue result ↔ AreBoundaries T.family (numbers_from T.width place.count bytes.now place.start) }
{
    if place.count == 0 {
        return true;
    }
    let mut previous = T::read(bytes, place.start, 0);
    for index in 1..place.count {
        let number = T::read(bytes, place.start, index);
        if !previous.is_below(number) {
            return false;
        }
        previous = number;
    }
    true
}

/// Returns the stored numbers. Fails only if memory runs out.
pub(crate) fn read_all<T: StoredNumber>(
    alloc: Global,
    bytes: &[u8],
    place: Place,
) -> Result<Vec<T>, AllocError>
    requires { place.start + place.count * T.width ≤ length bytes.now }
    ensures { IfOk result (λ numbers. map T.number numbers.items
        ≡ numbers_from T.width place.count bytes.now place.start) }
{
    let mut numbers = Vec::with_capacity(alloc, place.count)?;
    for index in 0..place.count {
        numbers.push(T::read(bytes, place.start, index))?;
    }
    Ok(numbers)
}

/// Appends the four bytes of each number, as `append_u32` does. Fails only if memory runs out.
///
/// ```text
/// of 513 and 1: 1, 2, 0, 0, 1, 0, 0, 0
/// ```
pub fn append_u32s(bytes: &mut Vec<u8>, numbers: &[u32]) -> Result<(), AllocError>
    ensures { OnOk result (AreAppended 4 numbers.now bytes.old.items bytes.new.items) }
{
    append_all(bytes, numbers)
}

/// Appends the bytes of the numbers.
pub(crate) fn append_all<T: StoredNumber>(
    bytes: &mut Vec<u8>,
    numbers: &[T],
) -> Result<(), AllocError>
    ensures { OnOk result (AreAppended T.width (map T.number numbers.now) bytes.old.items bytes.new.items) }
{
    for number in numbers {
        number.append_to(bytes)?;
    }
    Ok(())
}
