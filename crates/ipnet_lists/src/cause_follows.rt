//! Causes in dashes, and in the text after an entry.
ghost use Rattle.std.specs.Prelude.{◌≡◌, ◌≤◌, ◌↔◌, ◌==◌, drop, length, IsTrue};
ghost use Rattle.std.specs.List.{before_first, position_or_len};
ghost use Rattle.ipnet_lists.specs.Entries.{after_blanks, before_blanks};
ghost use Rattle.ipnet_lists.specs.Causes as causes;
ghost use Rattle.ipnet_lists.specs.Causes.{AreEnds, GoesOn, HasRemark, IsCutAt, IsDashed, IsFollowed};
ghost use Rattle.ipnet_lists.specs.Causes.{IsRangeRemark, IsRemark, IsSomeEntry};

use crate::bytes::has_byte;
use crate::cause_words::is_entry_word;
use crate::entry::read_range;
use crate::word::{after_leading, leading_word};
use ipnet::Grammar;
use std::str;

/// U+2013, a dash, in UTF-8.
const EN_DASH: [u8; 3] = [0xE2, 0x80, 0x93];

/// U+2014, a dash, in UTF-8.
const EM_DASH: [u8; 3] = [0xE2, 0x80, 0x94];

/// U+2212, a minus sign, in UTF-8.
const MINUS: [u8; 3] = [0xE2, 0x88, 0x92];

/// Whether a dash other than "-" begins the text.
fn is_long_dash(text: &[u8]) -> bool
    ensures test { result ≡ causes.is_long_dash text.now }
    ensures within { IsTrue result → 3 ≤ length text.now }
{
    text.starts_with(&EN_DASH) || text.starts_with(&EM_DASH) || text.starts_with(&MINUS)
}

/// Whether such a dash begins with the byte.
fn is_dash_byte(byte: u8) -> bool
    ensures { result ≡ (byte == 226) }
{
    byte == 0xE2
}

/// The index of the first byte with which such a dash begins, or the length of the text.
fn dash_start(text: &[u8]) -> usize
    ensures index { result ≡ position_or_len (λ b. b == 226) text.now }
    ensures within { result ≤ length text.now }
{
    for index in 0..text.len() {
        if is_dash_byte(text[index]) {
            return index;
        }
    }
    text.len()
}

/// The text before its first byte with which such a dash begins.
fn before_dash(text: &[u8]) -> &[u8]
    ensures { result.now ≡ before_first (λ b. b == 226) text.now }
{
    &text[..dash_start(text)]
}

/// The text from that byte on.
fn from_dash(text: &[u8]) -> &[u8]
    ensures { result.now ≡ causes.from_dash text.now }
{
    &text[dash_start(text)..]
}

/// Whether the bytes without the blanks at their end are an entry.
fn is_first_entry(bytes: &[u8]) -> bool
    ensures { IsTrue result ↔ IsSomeEntry (before_blanks bytes.now) }
{
    is_entry_word(bytes.trim_ascii_end())
}

/// The bytes from this index on, without the blanks at their start.
fn behind_blanks(bytes: &[u8], index: usize) -> &[u8]
    requires { index ≤ length bytes.now }
    ensures { result.now ≡ after_blanks (drop index bytes.now) }
{
    bytes[index..].trim_ascii_start()
}

/// Whether two entries are around such a dash.
pub(crate) fn is_dashed(text: &str) -> bool
    ensures { IsTrue result ↔ IsDashed text.now }
{
    let text = text.as_bytes();
    let back = from_dash(text);
    if !is_long_dash(back) {
        return false;
    }
    is_first_entry(before_dash(text)) && is_entry_word(behind_blanks(back, EN_DASH.len()))
}

/// The number of bytes of the dash that begins the text, or 0 if none does.
fn dash_len(text: &[u8]) -> usize
    ensures len { result ≡ causes.dash_len text.now }
    ensures within { result ≤ length text.now }
{
    if text.starts_with(b"-") {
        1
    } else if is_long_dash(text) {
        EN_DASH.len()
    } else {
        0
    }
}

/// Whether the text begins with a digit.
fn begins_with_digit(text: &[u8]) -> bool
    ensures { result ≡ causes.begins_with_digit text.now }
{
    match text.first() {
        Some(byte) => byte.is_ascii_digit(),
        None => false,
    }
}

/// Whether the text begins with a digit, or its first word has a ":".
fn is_like_address(text: &[u8]) -> bool
    ensures { result ≡ causes.is_like_address text.now }
{
    begins_with_digit(text) || has_byte(leading_word(text), b':')
}

/// Whether the text goes on with a range.
fn goes_on(text: &[u8]) -> bool
    ensures { IsTrue result ↔ GoesOn text.now }
{
    let len = dash_len(text);
    if len == 0 {
        return false;
    }
    is_like_address(behind_blanks(text, len))
}

/// Whether the text is a remark.
fn is_remark(text: &[u8]) -> bool
    ensures { IsTrue result ↔ IsRemark text.now }
{
    if text.is_empty() {
        return false;
    }
    !goes_on(text)
}

/// Whether the first word is an entry, and the rest a remark.
fn has_remark(text: &str) -> bool
    ensures { IsTrue result ↔ HasRemark text.now }
{
    let text = text.as_bytes();
    is_entry_word(leading_word(text)) && is_remark(after_leading(text))
}

/// Whether the texts are the first and the last address of a range.
fn are_end_texts(first: &str, last: &str) -> bool
    ensures { IsTrue result ↔ AreEnds first.now last.now }
{
    match read_range(first, last, Grammar::Legacy) {
        Some(_) => true,
        None => false,
    }
}

/// Whether the text and the word are the first and the last address of a range.
fn are_ends(first: &str, last: &[u8]) -> bool
    ensures { IsTrue result ↔ AreEnds first.now last.now }
{
    match str::from_utf8(last) {
        Ok(last) => are_end_texts(first, last),
        Err(_) => false,
    }
}

/// Whether the parts are the ends of a range, the last of which a remark follows.
fn is_range_remark(front: &str, back: &str) -> bool
    ensures { IsTrue result ↔ IsRangeRemark front.now back.now }
{
    let back = behind_blanks(back.as_bytes(), 0);
    are_ends(front.trim_ascii_end(), leading_word(back)) && is_remark(after_leading(back))
}

/// Whether a remark follows a range.
fn has_range_remark(text: &str) -> bool
    ensures { IsTrue result ↔ IsCutAt 45 IsRangeRemark text.now }
{
    match text.split_once('-') {
        Some((front, back)) => is_range_remark(front, back),
        None => false,
    }
}

/// Whether a remark follows an entry.
pub(crate) fn is_followed(text: &str) -> bool
    ensures { IsTrue result ↔ IsFollowed text.now }
{
    has_remark(text) || has_range_remark(text)
}
