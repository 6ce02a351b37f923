//! Columns of addresses of both families as rows: one call for all of them.
ghost use Rattle.std.specs.Prelude.{◌≡◌, ◌≢◌, ℕ, ◌+◌, ◌*◌, ◌<◌, ◌≤◌, length, slice_index, IfSome, None};
ghost use Rattle.ipnet_base.specs.Address.{Address, width, ip_address, ipv4_address};
ghost use Rattle.ipnet_base.specs.Network.{InBlock};
ghost use Rattle.ipnet_c.specs.Rows.{AreRows, row_bytes, IsRowOf};
ghost use Rattle.ipnet_c.specs.RowReplies.{AreRowsWith, IsRowAnswer, IsContainsRowsReply, IsRowValue, IsMatchRowsReply};
ghost use Rattle.ipnet_c.specs.RowReplies.{mapped_network, last_ipv4, IsUnmappedRow, IsUnmapReply};
ghost use Rattle.ipnet_c.specs.RowReplies.{length_for, IsTruncatedRow, IsTruncateReply};

use crate::row_form::{are_rows, padded_octets, read_row, write_octets};
use crate::statuses::{NOT_A_SET, NOT_A_TABLE, OK, PREFIX_TOO_LONG, WRONG_LENGTH};
use ipnet::{IpAddr, IpNet, Ipv4Addr};
use ipnet_routes::RouteTableImage;
use ipnet_sets::IpSetImage;

/// The answer for a row that is not an address.
const NO_ADDRESS: u8 = 2;

/// Returns 1 if the set of the image contains the address of the row, 0 if it does not, and 2 if the row is not an
/// address.
fn row_answer(image: &IpSetImage<'_>, family: u8, bytes: &[u8]) -> u8
    requires { length bytes.now ≡ 16 }
    ensures { IsRowAnswer image.now.bytes.now family bytes.now result }
{
    match read_row(family, bytes) {
        Some(address) => u8::from(image.contains(&address)),
        None => NO_ADDRESS,
    }
}

/// Writes for each row 1 if the set, given by its image, contains its address, 0 if it does not, and 2 if the row is
/// not an address.
///
/// `families` has one byte for each row: 4, 6, or another number if the row is not an address. `octets` has 16 bytes
/// for each row: the octets of an IPv6 address, or the 4 octets of an IPv4 address and 12 bytes that are not read.
/// `answers` gets one byte for each row. Only the header of the image is tested.
///
/// Returns 0; 6 if there are not 16 octets and one answer for each family; else 11 if the bytes of the set do not begin
/// with the header of an image, or have another length than it states. `answers` changes only at 0.
///
/// ```text
/// the image of 10.0.0.0/30, the families 4, 4, 0, and the octets of 10.0.0.1, 10.0.0.4 and none    0, and 1, 0, 2
/// ```
#[unsafe(no_mangle)]
pub extern "C" fn ipnet_set_contains_rows(
    set: &[u8],
    families: &[u8],
    octets: &[u8],
    answers: &mut [u8],
) -> u32
    ensures { IsContainsRowsReply set.now families.now octets.now answers.old answers.new result }
{
    if !are_rows(families.len(), octets.len()) || answers.len() != families.len() {
        return WRONG_LENGTH;
    }
    let Ok(image) = IpSetImage::from_header(set) else {
        return NOT_A_SET;
    };
    for index in 0..answers.len() {
        answers[index] = row_answer(
            &image,
            families[index],
            &octets[index * 16..(index + 1) * 16],
        );
    }
    OK
}

/// Returns the value of the longest match for the address of the row; `missing` if there is none, or if the row is not
/// an address.
#[inline(always)]
fn row_value(image: &RouteTableImage<'_>, family: u8, bytes: &[u8], missing: u32) -> u32
    requires { length bytes.now ≡ 16 }
    ensures { IsRowValue image.now.table.bytes.now family bytes.now missing result }
{
    match read_row(family, bytes) {
        Some(address) => match image.longest_match(&address) {
            Some(route) => route.1,
            None => missing,
        },
        None => missing,
    }
}

/// Writes for each row the value of the longest network of the table, given by its image, that holds its address;
/// `missing` if no network of the table does, or if the row is not an address.
///
/// The rows are given as for `ipnet_set_contains_rows`; `values` gets one number for each. Only the header of the image
/// is tested.
///
/// Returns 0; 6 if there are not 16 octets and one value for each family; else 13 if the bytes of the table do not
/// begin with the header of an image, or have another length than it states. `values` changes only at 0.
///
/// ```text
/// the image of 10.0.0.0/8 with 7, the rows of 10.0.0.1, 11.0.0.1 and none, and 9 if none    0, and 7, 9, 9
/// ```
#[unsafe(no_mangle)]
pub extern "C" fn ipnet_table_longest_match_rows(
    table: &[u8],
    families: &[u8],
    octets: &[u8],
    missing: u32,
    values: &mut [u32],
) -> u32
    ensures { IsMatchRowsReply table.now families.now octets.now missing values.old values.new result }
{
    if !are_rows(families.len(), octets.len()) || values.len() != families.len() {
        return WRONG_LENGTH;
    }
    let Ok(image) = RouteTableImage::from_header(table) else {
        return NOT_A_TABLE;
    };
    for index in 0..values.len() {
        values[index] = row_value(
            &image,
            families[index],
            &octets[index * 16..(index + 1) * 16],
            missing,
        );
    }
    OK
}

/// Returns the IPv4 address of the last four octets if the row is an IPv4-mapped address.
fn mapped_address(family: u8, bytes: &[u8]) -> Option<Ipv4Addr>
    requires { length bytes.now ≡ 16 }
    ensures some { IfSome result (λ ip. (x : Address) × IsRowOf family bytes.now x × InBlock mapped_network x
        × (ipv4_address ip ≡ last_ipv4 x)) }
    ensures none { result ≡ None → (x : Address) → IsRowOf family bytes.now x → ¬ (InBlock mapped_network x) }
{
    let Some(IpAddr::V6(ip)) = read_row(family, bytes) else {
        return None;
    };
    let number = ip.to_bits();
    if number / 0x1_0000_0000 != 0xffff {
        return None;
    }
    Some(Ipv4Addr::from_bits((number % 0x1_0000_0000) as u32))
}

/// Makes an IPv4 row of the row with this index if it is an IPv4-mapped address.
fn unmap_row(families: &mut [u8], octets: &mut [u8], index: usize)
    requires within { index < length families.old }
    requires rows { AreRows families.old octets.old }
    ensures unmapped { IsUnmappedRow (slice_index families.old index) (row_bytes octets.old index)
        (slice_index families.new index) (row_bytes octets.new index) }
    ensures as_many { length families.new ≡ length families.old }
    ensures as_many_octets { length octets.new ≡ length octets.old }
    ensures others { (i : ℕ) → i ≢ index → slice_index families.new i ≡ slice_index families.old i }
    ensures other_octets { (i : ℕ) → i ≢ index → row_bytes octets.new i ≡ row_bytes octets.old i }
{
    let bytes = &octets[index * 16..(index + 1) * 16];
    if let Some(ip) = mapped_address(families[index], bytes) {
        families[index] = 4;
        write_octets(octets, index, &padded_octets(IpAddr::V4(ip)));
    }
}

/// Makes an IPv4 row of each row of an IPv4-mapped address, of its last four octets. All other rows keep their bytes.
///
/// The rows are given as for `ipnet_set_contains_rows`; the 12 bytes after the octets of an IPv4 address become zeros.
///
/// Returns 0; 6 if there are not 16 octets for each family. `families` and `octets` change only at 0.
///
/// ```text
/// the family 6 and the octets of ::ffff:10.0.0.1    0, and the family 4 and 10, 0, 0, 1 and twelve zeros
/// ```
#[unsafe(no_mangle)]
pub extern "C" fn ipnet_unmap_rows(families: &mut [u8], octets: &mut [u8]) -> u32
    ensures { IsUnmapReply families.old families.new octets.old octets.new result }
{
    if !are_rows(families.len(), octets.len()) {
        return WRONG_LENGTH;
    }
    for index in 0..families.len() {
        unmap_row(families, octets, index);
    }
    OK
}

/// The prefix length of each family.
#[derive(Clone, Copy)]
struct PrefixLengths {
    ipv4: u8,
    ipv6: u8,
    ghost ipv4_fits: { ipv4 ≤ 32 },
    ghost ipv6_fits: { ipv6 ≤ 128 },
}

impl PrefixLengths {
    /// Returns the prefix length for the family of the address.
    fn length_for(&self, ip: &IpAddr) -> u8
        ensures value { result ≡ length_for self.now.ipv4 self.now.ipv6 (ip_address ip.now).family }
        ensures fits { result ≤ width (ip_address ip.now).family }
    {
        match ip {
            IpAddr::V4(_) => self.ipv4,
            IpAddr::V6(_) => self.ipv6,
        }
    }
}

/// Replaces the address of the row with this index by the first address of its network.
fn truncate_row(lengths: &PrefixLengths, family: u8, octets: &mut [u8], index: usize)
    requires { (index + 1) * 16 ≤ length octets.old }
    ensures truncated { IsTruncatedRow lengths.now.ipv4 lengths.now.ipv6 family (row_bytes octets.old index)
        (row_bytes octets.new index) }
    ensures as_many { length octets.new ≡ length octets.old }
    ensures others { (i : ℕ) → i ≢ index → row_bytes octets.new i ≡ row_bytes octets.old i }
{
    let Some(ip) = read_row(family, &octets[index * 16..(index + 1) * 16]) else {
        return;
    };
    let first = IpNet::new_assert(ip, lengths.length_for(&ip)).network();
    write_octets(octets, index, &padded_octets(first));
}

/// Replaces the address of each row by the first address of its network with the prefix length for its family.
///
/// The rows are given as for `ipnet_set_contains_rows`; the 12 bytes after the octets of an IPv4 address become zeros.
/// Rows that are not an address keep their bytes.
///
/// Returns 0; 8 if `ipv4_length` is above 32 or `ipv6_length` above 128; else 6 if there are not 16 octets for each
/// family. `octets` changes only at 0.
///
/// ```text
/// 24, 48, the family 4 and the octets of 10.1.2.3    0, and the octets of 10.1.2.0
/// ```
#[unsafe(no_mangle)]
pub extern "C" fn ipnet_truncate_rows(
    ipv4_length: u32,
    ipv6_length: u32,
    families: &[u8],
    octets: &mut [u8],
) -> u32
    ensures { IsTruncateReply ipv4_length ipv6_length families.now octets.old octets.new result }
{
    if ipv4_length > 32 || ipv6_length > 128 {
        return PREFIX_TOO_LONG;
    }
    if !are_rows(families.len(), octets.len()) {
        return WRONG_LENGTH;
    }
    let lengths = PrefixLengths {
        ipv4: ipv4_length as u8,
        ipv6: ipv6_length as u8,
    };
    for index in 0..families.len() {
        truncate_row(&lengths, families[index], octets, index);
    }
    OK
}
