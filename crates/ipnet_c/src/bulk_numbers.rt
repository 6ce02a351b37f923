//! Columns of IPv4 addresses as numbers: one call for all of them.
ghost use Rattle.std.specs.Prelude.{◌≡◌, ℕ, ◌+◌, ◌<◌, ◌≤◌, length, slice_index};
ghost use Rattle.ipnet_base.specs.Address.{IPv4, address_at};
ghost use Rattle.ipnet_c.specs.SetReplies.{IsAnswerAt};
ghost use Rattle.ipnet_c.specs.TableReplies.{IsValueAt};
ghost use Rattle.ipnet_c.specs.RowReplies.{IsContainsNumbersReply, IsMatchNumbersReply};

use crate::statuses::{NOT_A_SET, NOT_A_TABLE, OK, WRONG_LENGTH};
use ipnet::{IpAddr, Ipv4Addr};
use ipnet_routes::RouteTableImage;
use ipnet_sets::IpSetImage;

/// Returns 1 if the set of the image contains the IPv4 address with this number, and 0 if it does not.
fn number_answer(image: &IpSetImage<'_>, number: u32) -> u8
    ensures { IsAnswerAt image.now.bytes.now (address_at IPv4 number) result }
{
    u8::from(image.contains(&IpAddr::V4(Ipv4Addr::from_bits(number))))
}

/// Writes what `number_answer` returns for each of the eight addresses from `start` on. The searches go in step.
fn answer_eight(image: &IpSetImage<'_>, addresses: &[u32], answers: &mut [u8], start: usize)
    requires room { start + 8 ≤ length addresses.now }
    requires lens { length addresses.now ≡ length answers.old }
    ensures as_many { length answers.new ≡ length answers.old }
    ensures done { (i : ℕ) → start ≤ i → i < start + 8
        → IsAnswerAt image.now.bytes.now (address_at IPv4 (slice_index addresses.now i)) (slice_index answers.new i) }
    ensures before { (i : ℕ) → i < start → slice_index answers.new i ≡ slice_index answers.old i }
{
    let mut numbers = [0; 8];
    numbers.copy_from_slice(&addresses[start..start + 8]);
    let inside = image.contains_eight(&numbers);
    for lane in 0..8 {
        answers[start + lane] = u8::from(inside[lane]);
    }
}

/// Writes for each IPv4 address of a column 1 if the set, given by its image, contains it, and 0 if it does not.
///
/// `addresses` has the number of each address: 10.0.0.1 is 10 * 2^24 + 1. `answers` gets one byte for each. Only the
/// header of the image is tested.
///
/// Returns 0; 6 if the numbers of addresses and bytes differ; else 11 if the bytes of the set do not begin with the
/// header of an image, or have another length than it states. `answers` changes only at 0.
///
/// ```text
/// the image of 10.0.0.0/30 and 0x0a000001, 0x0a000004    0, and 1, 0
/// ```
#[unsafe(no_mangle)]
pub extern "C" fn ipnet_set_contains_u32(set: &[u8], addresses: &[u32], answers: &mut [u8]) -> u32
    ensures { IsContainsNumbersReply set.now addresses.now answers.old answers.new result }
{
    if addresses.len() != answers.len() {
        return WRONG_LENGTH;
    }
    let Ok(image) = IpSetImage::from_header(set) else {
        return NOT_A_SET;
    };
    let eights = answers.len() / 8;
    for eight in 0..eights {
        answer_eight(&image, addresses, answers, eight * 8);
    }
    for index in eights * 8..answers.len() {
        answers[index] = number_answer(&image, addresses[index]);
    }
    OK
}

/// Returns the value of the longest match for the IPv4 address with this number, or `missing` if there is none.
#[inline(always)]
fn number_value(image: &RouteTableImage<'_>, number: u32, missing: u32) -> u32
    ensures { IsValueAt image.now.table.bytes.now (address_at IPv4 number) missing result }
{
    match image.longest_match(&IpAddr::V4(Ipv4Addr::from_bits(number))) {
        Some(route) => route.1,
        None => missing,
    }
}

/// Writes for each IPv4 address of a column the value of the longest network of the table, given by its image, that
/// holds it, or `missing` if no network of the table does.
///
/// `addresses` has the number of each address, as for `ipnet_set_contains_u32`; `values` gets one number for each. Only
/// the header of the image is tested.
///
/// Returns 0; 6 if there are not as many values as addresses; else 13 if the bytes of the table do not begin with the
/// header of an image, or have another length than it states. `values` changes only at 0.
///
/// ```text
/// the image of 10.0.0.0/8 with 7, 0x0a000001, 0x0b000001, and 9 if none    0, and 7, 9
/// ```
#[unsafe(no_mangle)]
pub extern "C" fn ipnet_table_longest_match_u32(
    table: &[u8],
    addresses: &[u32],
    missing: u32,
    values: &mut [u32],
) -> u32
    ensures { IsMatchNumbersReply table.now addresses.now missing values.old values.new result }
{
    if addresses.len() != values.len() {
        return WRONG_LENGTH;
    }
    let Ok(image) = RouteTableImage::from_header(table) else {
        return NOT_A_TABLE;
    };
    for index in 0..values.len() {
        values[index] = number_value(&image, addresses[index], missing);
    }
    OK
}
