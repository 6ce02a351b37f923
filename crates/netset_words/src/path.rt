//! The path after an address.
ghost use Rattle.std.specs.Prelude.{◌≡◌, ◌<◌, ◌≤◌, ℕ, length, slice_index, true, false};
ghost use Rattle.std.specs.Char.{is_ascii_alphabetic, is_ascii_digit};
ghost use Rattle.std.specs.List.{list_all, list_any};
ghost use Rattle.netset_words.specs.Places as places;

use ipnet_lists::has_byte;

/// The number of bytes before the first letter.
fn letter_place(text: &[u8]) -> usize
    ensures before { (k : ℕ) → k < result → is_ascii_alphabetic (slice_index text.now k) ≡ false }
    ensures letter { result < length text.now → is_ascii_alphabetic (slice_index text.now result) ≡ true }
    ensures within { result ≤ length text.now }
{
    for index in 0..text.len() {
        if text[index].is_ascii_alphabetic() {
            return index;
        }
    }
    text.len()
}

/// Returns the text up to its first letter, or the whole text.
fn before_letter(text: &[u8]) -> &[u8]
    ensures { result.now ≡ places.before_letter text.now }
{
    &text[..letter_place(text)]
}

/// Whether the text has a digit.
fn has_digit(text: &[u8]) -> bool
    ensures { result ≡ list_any is_ascii_digit text.now }
{
    text.iter().any(|byte| byte.is_ascii_digit())
}

/// Whether the text has a letter.
fn has_letter(text: &[u8]) -> bool
    ensures { result ≡ list_any is_ascii_alphabetic text.now }
{
    text.iter().any(|byte| byte.is_ascii_alphabetic())
}

/// Whether each byte is a digit or "/".
fn are_digits_or_slashes(text: &[u8]) -> bool
    ensures { result ≡ list_all places.is_digit_or_slash text.now }
{
    text.iter()
        .all(|byte| byte.is_ascii_digit() || *byte == b'/')
}

/// Whether the text after an address and "/" is a path, in which a person sees no length.
pub(crate) fn is_path(text: &[u8]) -> bool
    ensures { result ≡ places.is_path text.now }
{
    let front = before_letter(text);
    if !has_digit(front) {
        return true;
    }
    has_letter(text) && are_digits_or_slashes(front)
}

/// Whether both texts have a ":".
pub(crate) fn have_colons(front: &[u8], back: &[u8]) -> bool
    ensures { result ≡ places.have_colons front.now back.now }
{
    has_byte(front, b':') && has_byte(back, b':')
}
