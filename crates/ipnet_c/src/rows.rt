//! Rows of addresses that are read from text: from lines, and from texts that lie between offsets.
ghost use Rattle.std.specs.Prelude.{◌≡◌, ◌≢◌, ℕ, ◌+◌, ◌*◌, ◌^◌, ◌<◌, ◌≤◌, ◌⊎◌, ◌↔◌, ◌==◌, IsTrue, IfSome, None, Some};
ghost use Rattle.std.specs.Prelude.{[], ◌∷◌, length, take, filter, option_map, slice_set};
ghost use Rattle.ipnet_base.specs.Address.{ip_address};
ghost use Rattle.ipnet.specs.declared.parser.Grammar.TheVariants.{Strict};
ghost use Rattle.memchr.specs.Find.{IsFirstByte, is_byte};
ghost use Rattle.ipnet_lists.specs.Entries.{IsAddressText, ReadsAs};
ghost use Rattle.ipnet_c.specs.Rows.{AreRows, row_bytes, written_family, written_octets};
ghost use Rattle.ipnet_c.specs.TextRows.{column, IsEnded, HasLines, IsLinesReply, AreOffsets, offset_at, AreAscending};
ghost use Rattle.ipnet_c.specs.TextRows.{IsOffsetsReply};

use crate::row_form::{are_rows, padded_octets, write_octets};
use crate::statuses::{BAD_OFFSETS, OK, WRONG_LENGTH};
use ipnet::{Grammar, IpAddr};
use ipnet_lists::parse_address;
use ipnet_sets::{read_u32, read_u64};
use ipnet_text::ipv4_addr_at;
use memchr::memchr;
use std::str;

/// Returns the address that the whole text is in the strict grammar, or `None` if it is not an address.
fn text_address(text: &[u8]) -> Option<IpAddr>
    ensures { ReadsAs ip_address (IsAddressText Strict) text.now result }
{
    let Ok(text) = str::from_utf8(text) else {
        return None;
    };
    parse_address(text, Grammar::Strict)
}

/// Returns the address that the first bytes, of this length, are in the strict grammar, or `None` if they are not an
/// address.
fn front_address(bytes: &[u8], len: usize) -> Option<IpAddr>
    requires { len ≤ length bytes.now }
    ensures { ReadsAs ip_address (IsAddressText Strict) (take len bytes.now) result }
{
    // Most rows are IPv4 addresses with more bytes after them.
    if bytes.len() >= 16 {
        if let Some((address, end)) = ipv4_addr_at(bytes) {
            if end == len {
                return Some(IpAddr::V4(address));
            }
        }
    }
    text_address(&bytes[..len])
}

/// Returns the byte of the family and the 16 bytes of the octets of a row.
fn row_form(row: Option<IpAddr>) -> (u8, [u8; 16])
    ensures family { result.0 ≡ written_family (option_map ip_address row) }
    ensures octets { result.1 ≡ written_octets (option_map ip_address row) }
{
    match row {
        Some(IpAddr::V4(address)) => (4, padded_octets(IpAddr::V4(address))),
        Some(IpAddr::V6(address)) => (6, padded_octets(IpAddr::V6(address))),
        None => (0, [0; 16]),
    }
}

/// Writes the row with this index, and returns the number of rows that are not an address: 1 or 0.
pub(crate) fn write_row(
    families: &mut [u8],
    octets: &mut [u8],
    index: usize,
    row: Option<IpAddr>,
) -> usize
    requires within { index < length families.old }
    requires rows { AreRows families.old octets.old }
    ensures family { families.new ≡ slice_set families.old index (written_family (option_map ip_address row)) }
    ensures as_many { length octets.new ≡ length octets.old }
    ensures written { row_bytes octets.new index ≡ written_octets (option_map ip_address row) }
    ensures others { (i : ℕ) → i ≢ index → row_bytes octets.new i ≡ row_bytes octets.old i }
    ensures bad { result ≡ length (filter (λ family. family == 0)
        (written_family (option_map ip_address row) ∷ [])) }
    ensures few { result ≤ 1 }
{
    let (family, bytes) = row_form(row);
    families[index] = family;
    write_octets(octets, index, &bytes);
    usize::from(family == 0)
}

/// Returns the number of line ends in the text.
fn count_line_ends(text: &[u8]) -> usize
    ensures { result ≡ length (filter (λ b. b == 10) text.now) }
{
    let mut count = 0;
    for byte in text {
        count += usize::from(*byte == b'\n');
    }
    count
}

/// Returns whether the text is empty or ends with a line end.
fn is_ended(text: &[u8]) -> bool
    ensures { IsTrue result ↔ IsEnded text.now }
{
    text.is_empty() || text[text.len() - 1] == b'\n'
}

/// Returns whether the text is this number of lines, each with its "\n".
fn has_lines(text: &[u8], count: usize) -> bool
    ensures { IsTrue result ↔ HasLines text.now count }
{
    is_ended(text) && count_line_ends(text) == count
}

/// Returns the length of the first line, without its "\n".
fn line_len(text: &[u8]) -> usize
    requires { ¬ (IsFirstByte (is_byte 10) text.now None) }
    ensures end { IsFirstByte (is_byte 10) text.now (Some result) }
    ensures within { result < length text.now }
    ensures fits { result < 2 ^ 63 }
{
    let Some(len) = memchr(b'\n', text) else {
        unreachable!();
    };
    len
}

/// Reads a row from each line of a text, and writes the number of rows that are not an address into `bad`. Allocates
/// nothing.
///
/// Each line ends with "\n", the last one too. A line is an address in the strict grammar, as `10.0.0.1` and `fd00::1`,
/// with nothing before or after it; every other line is a row that is not an address. `families` gets 4, 6, or 0 if
/// the row is not an address; `octets` gets 16 bytes: the octets of an IPv6 address, or the 4 octets of an IPv4 address
/// and 12 zeros, or 16 zeros.
///
/// Returns 0; 6 if the text is not as many lines as there are bytes in `families`, or if `octets` does not have 16
/// bytes for each of them. `families`, `octets` and `bad` change only at 0.
///
/// ```text
/// "10.0.0.1\nx\nfd00::1\n" and 3 rows    0, the families 4, 0, 6, and the number 1
/// "10.0.0.1\nx" and 2 rows               6
/// ```
#[unsafe(no_mangle)]
pub extern "C" fn ipnet_rows_from_lines(
    text: &[u8],
    families: &mut [u8],
    octets: &mut [u8],
    bad: &mut usize,
) -> u32
    ensures { IsLinesReply text.now (column families.old octets.old bad.old)
        (column families.new octets.new bad.new) result }
{
    if !are_rows(families.len(), octets.len()) || !has_lines(text, families.len()) {
        return WRONG_LENGTH;
    }
    let mut rest = text;
    let mut count = 0;
    for index in 0..families.len() {
        let len = line_len(rest);
        count += write_row(families, octets, index, front_address(rest, len));
        rest = &rest[len + 1..];
    }
    *bad = count;
    OK
}

/// Returns the width of offsets in bytes, 4 or 8, if they are one more than `count`.
fn offset_width(offsets: &[u8], count: usize) -> Option<usize>
    requires { count < 2 ^ 63 }
    ensures some { IfSome result (λ width. AreOffsets width offsets.now count) }
    ensures none { (result ≡ None) ↔ ((width : ℕ) → ¬ (AreOffsets width offsets.now count)) }
{
    let size = offsets.len();
    if size % 4 == 0 && size / 4 == count + 1 {
        return Some(4);
    }
    if size % 8 == 0 && size / 8 == count + 1 {
        return Some(8);
    }
    None
}

/// Returns the offset with this index.
fn read_offset(offsets: &[u8], width: usize, index: usize) -> usize
    requires width { (width ≡ 4) ⊎ (width ≡ 8) }
    requires within { (index + 1) * width ≤ length offsets.now }
    ensures { result ≡ offset_at width offsets.now index }
{
    let at = index * width;
    if width == 4 {
        return read_u32(offsets, at) as usize;
    }
    read_u64(offsets, at) as usize
}

/// Returns whether none of the offsets is less than the one before it, or greater than `size`.
fn are_ascending(size: usize, offsets: &[u8], width: usize, count: usize) -> bool
    requires { AreOffsets width offsets.now count }
    ensures { IsTrue result ↔ AreAscending size width offsets.now count }
{
    let mut before = read_offset(offsets, width, 0);
    for index in 1..count + 1 {
        let next = read_offset(offsets, width, index);
        if next < before {
            return false;
        }
        before = next;
    }
    before <= size
}

/// Reads a row from each text between two offsets, and writes the number of rows that are not an address into `bad`.
/// Allocates nothing.
///
/// `offsets` has one offset more than there are rows, of 4 or 8 bytes each, the least significant byte first. Row i is
/// read from the bytes of `text` from offset i up to offset i + 1, as Arrow keeps a column of strings. A text is an
/// address as for `ipnet_rows_from_lines`, and `families` and `octets` get what they get there.
///
/// Returns 0; 6 if `offsets` has another length, or if `octets` does not have 16 bytes for each byte of `families`;
/// else 14 if an offset is less than the offset before it, or greater than the length of `text`. `families`, `octets`
/// and `bad` change only at 0.
///
/// ```text
/// "10.0.0.1fd00::1", the offsets 0, 8, 15, and 2 rows    0, the families 4, 6, and the number 0
/// "10.0.0.1fd00::1", the offsets 0, 8, 16, and 2 rows    14
/// ```
#[unsafe(no_mangle)]
pub extern "C" fn ipnet_rows_from_offsets(
    text: &[u8],
    offsets: &[u8],
    families: &mut [u8],
    octets: &mut [u8],
    bad: &mut usize,
) -> u32
    ensures { IsOffsetsReply text.now offsets.now (column families.old octets.old bad.old)
        (column families.new octets.new bad.new) result }
{
    if !are_rows(families.len(), octets.len()) {
        return WRONG_LENGTH;
    }
    let Some(width) = offset_width(offsets, families.len()) else {
        return WRONG_LENGTH;
    };
    if !are_ascending(text.len(), offsets, width, families.len()) {
        return BAD_OFFSETS;
    }
    let mut count = 0;
    for index in 0..families.len() {
        let start = read_offset(offsets, width, index);
        let end = read_offset(offsets, width, index + 1);
        count += write_row(
            families,
            octets,
            index,
            front_address(&text[start..], end - start),
        );
    }
    *bad = count;
    OK
}
