//! Eight searches in the stored IPv4 boundaries of a set, in step.
//!
//! Each step of a search waits for memory, and meanwhile the processor makes the same step of the other seven.
ghost use Rattle.std.specs.Prelude.{◌≡◌, ℕ, ◌+◌, ◌-◌, ◌*◌, ◌<◌, ◌≤◌, ◌⊎◌, length, slice_index};
ghost use Rattle.ipnet_base.specs.Address.{IPv4};
ghost use Rattle.ipnet_sets.specs.Boundaries.{AreBoundaries, IsSplitAt};
ghost use Rattle.ipnet_sets.specs.Images.{number_from, numbers_from};

use crate::image::stored::{Place, read_u32};

/// Returns 1 if the first number is at most the second, and else 0.
//
// Computed, not chosen by a branch: a processor cannot foresee the choice, and a wrong guess costs more than a step of
// a search. The compiler would make a branch of a comparison, and of the highest bit of the difference, which is its
// sign. The next bit is the same.
#[inline(always)]
fn is_at_most(first: u32, second: u32) -> usize
    ensures { ((result ≡ 1) × (first ≤ second)) ⊎ ((result ≡ 0) × (second < first)) }
{
    let difference = u64::from(first).wrapping_sub(u64::from(second) + 1);
    ((difference >> 62) % 2) as usize
}

/// Returns `low + half` if the last of the `half` boundaries from `low` on is at most the number, and else `low`.
fn step(bytes: &[u8], place: Place, number: u32, low: usize, half: usize) -> usize
    requires room { place.start + place.count * 4 ≤ length bytes.now }
    requires some { 0 < half }
    requires within { low + half ≤ place.count }
    ensures { ((result ≡ low + half)
        × (number_from 4 bytes.now (place.start + (low + half - 1) * 4) ≤ number))
        ⊎ ((result ≡ low) × (number < number_from 4 bytes.now (place.start + (low + half - 1) * 4))) }
{
    let boundary = read_u32(bytes, place.start + (low + half - 1) * 4);
    low + half * is_at_most(boundary, number)
}

/// Returns for each of eight numbers how many of the boundaries are at most it, by halving.
///
/// The bytes may be any: the call reads only the stored numbers and it ends. If they are not boundaries, the result
/// means nothing.
pub(crate) fn boundaries_up_to_eight(bytes: &[u8], place: Place, numbers: &[u32; 8]) -> [usize; 8]
    requires { place.start + place.count * 4 ≤ length bytes.now }
    ensures { AreBoundaries IPv4 (numbers_from 4 place.count bytes.now place.start)
        → (lane : ℕ) → lane < 8 → IsSplitAt (numbers_from 4 place.count bytes.now place.start)
        (slice_index numbers.now lane) (slice_index result lane) }
{
    let mut low = [0; 8];
    let mut left = place.count;
    while left > 0 {
        let half = left - left / 2;
        for lane in 0..8 {
            low[lane] = step(bytes, place, numbers[lane], low[lane], half);
        }
        left -= half;
    }
    low
}
