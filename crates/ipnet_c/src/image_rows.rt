//! The content of images as rows: the ranges of a set, and the networks and the values of a table.
ghost use Rattle.std.specs.Prelude.{◌≡◌, ◌≢◌, ℕ, ◌+◌, ◌*◌, ◌^◌, ◌<◌, ◌≤◌, ◌↔◌, IsTrue, length, option_map, slice_index};
ghost use Rattle.ipnet_base.specs.Address.{width, ip_address};
ghost use Rattle.ipnet_base.specs.RangeOf.{ip_range};
ghost use Rattle.ipnet.specs.NetworkOf.{ip_network};
ghost use Rattle.ipnet.specs.NetworkParts.{own_address};
ghost use Rattle.ipnet_sets.specs.RangesLeft.{ranges_left};
ghost use Rattle.ipnet_routes.specs.TableImages.{route_count};
ghost use Rattle.ipnet_c.specs.Rows.{AreRows, row_bytes};
ghost use Rattle.ipnet_c.specs.ImageRows.{AreEndsAt, AreRowsOfRanges, IsRangeRowsReply, length_of};
ghost use Rattle.ipnet_c.specs.ImageRows.{network_rows, IsNetworksReply, IsValueOfRoute, IsValuesReply};
ghost use Rattle.ipnet_c.specs.ImageRows.{IsOtherValuesReply};

use crate::row_form::are_rows;
use crate::rows::write_row;
use crate::statuses::{BUFFER_TOO_SHORT, NOT_A_SET, NOT_A_TABLE, OK, OUT_OF_MEMORY, WRONG_LENGTH};
use ipnet::{IpAddr, IpAddrRange, IpNet};
use ipnet_routes::RouteTableImage;
use ipnet_sets::{IpSetRanges, IpSetRef};
use std::alloc::Global;

/// Writes the first address of the range into the row with this index, and the last address into the next row.
fn write_ends(families: &mut [u8], octets: &mut [u8], index: usize, range: IpAddrRange)
    requires within { index + 1 < length families.old }
    requires rows { AreRows families.old octets.old }
    requires some { let r = ip_range range in r.start ≤ r.end }
    requires fits { let r = ip_range range in r.end < 2 ^ width r.family }
    ensures ends { AreEndsAt families.new octets.new index (ip_range range) }
    ensures as_many { length families.new ≡ length families.old }
    ensures as_long { length octets.new ≡ length octets.old }
    ensures others { (i : ℕ) → i ≢ index → i ≢ index + 1
        → slice_index families.new i ≡ slice_index families.old i }
    ensures other_octets { (i : ℕ) → i ≢ index → i ≢ index + 1
        → row_bytes octets.new i ≡ row_bytes octets.old i }
{
    write_row(families, octets, index, range.min());
    write_row(families, octets, index + 1, range.max());
}

/// Writes the ends of the ranges into the first rows, two rows for each range.
fn write_ranges(ranges: IpSetRanges<'_>, families: &mut [u8], octets: &mut [u8])
    requires room { 2 * length (ranges_left ranges) ≤ length families.old }
    requires rows { AreRows families.old octets.old }
    ensures { AreRowsOfRanges (ranges_left ranges.entry) families.old octets.old families.new octets.new }
{
    let mut index = 0;
    for range in ranges {
        write_ends(families, octets, index, range);
        index += 2;
    }
}

/// Writes the fewest ranges of the set, given by its image, as rows: for each range the row of its first address, and
/// then the row of its last address. Writes the number of ranges into `count`.
///
/// The rows have the form of `ipnet_rows_from_lines`. The ranges ascend, IPv4 first, and no two of them overlap or
/// touch. If there are more rows, the others keep their bytes.
///
/// Returns 0; 6 if there are not 16 octets for each family; 11 if the bytes are not the image of a set; 3 if memory
/// runs out; 4 if there are fewer than two rows for each range. `families` and `octets` change only at 0, `count` only
/// at 0 and 4.
///
/// ```text
/// the image of 10.0.0.0/30 and 10.0.0.4/31, and 2 rows    0, the rows of 10.0.0.0 and 10.0.0.5, and the number 1
/// the same image, and 1 row                               4, and the number 1
/// ```
#[unsafe(no_mangle)]
pub extern "C" fn ipnet_set_range_rows(
    alloc: Global,
    set: &[u8],
    families: &mut [u8],
    octets: &mut [u8],
    count: &mut usize,
) -> u32
    ensures { IsRangeRowsReply set.now families.old octets.old families.new octets.new count.old count.new result }
{
    if !are_rows(families.len(), octets.len()) {
        return WRONG_LENGTH;
    }
    let Ok(image) = IpSetRef::from_bytes(set) else {
        return NOT_A_SET;
    };
    let Ok(set) = image.to_set(alloc) else {
        return OUT_OF_MEMORY;
    };
    let ranges = set.ranges();
    *count = ranges.len();
    if families.len() / 2 < *count {
        return BUFFER_TOO_SHORT;
    }
    write_ranges(ranges, families, octets);
    OK
}

/// Returns whether the table has this number of routes from the index `start` on.
fn has_routes(image: &RouteTableImage<'_>, start: usize, count: usize) -> bool
    ensures { IsTrue result ↔ (start + count ≤ route_count image.now.table.bytes.now) }
{
    let all = image.len();
    start <= all && count <= all - start
}

/// Returns the address and the prefix length of the network of a route; no address and 0 if there is none.
fn row_of(route: Option<(IpNet, u32)>) -> (Option<IpAddr>, u8)
    ensures address { option_map ip_address result.0 ≡ option_map (λ r. own_address (ip_network r.0)) route }
    ensures len { result.1 ≡ length_of (option_map (λ r. ip_network r.0) route) }
{
    match route {
        Some(route) => (Some(route.0.addr()), route.0.prefix_len()),
        None => (None, 0),
    }
}

/// Writes the networks of the routes of the table, given by its image, from the index `start` on: their addresses as
/// rows, and their prefix lengths into `lengths`. As many networks are written as there are rows.
///
/// The rows have the form of `ipnet_rows_from_lines`. The routes are IPv4 first, ascending, a network before those that
/// it contains. Only the header of the image is tested. Whatever the bytes are, nothing outside of them is read; a
/// route that is none has the family 0, and 0 for the octets and the length.
///
/// Returns 0; 13 if the bytes do not begin with the header of an image of a table, or have another length than it
/// states; 6 if there are not 16 octets and one length for each family, or if the table does not have that many routes
/// from `start` on. `families`, `octets` and `lengths` change only at 0.
///
/// ```text
/// the image of 10.0.0.0/8 and 10.1.0.0/16, from 1 on, and 1 row    0, the row of 10.1.0.0, and the length 16
/// the same image, from 1 on, and 2 rows                            6
/// ```
#[unsafe(no_mangle)]
pub extern "C" fn ipnet_table_networks(
    table: &[u8],
    start: usize,
    families: &mut [u8],
    octets: &mut [u8],
    lengths: &mut [u8],
) -> u32
    ensures { IsNetworksReply table.now start (network_rows families.old octets.old lengths.old)
        (network_rows families.new octets.new lengths.new) result }
{
    let Ok(image) = RouteTableImage::from_header(table) else {
        return NOT_A_TABLE;
    };
    if !are_rows(families.len(), octets.len()) || lengths.len() != families.len() {
        return WRONG_LENGTH;
    }
    if !has_routes(&image, start, families.len()) {
        return WRONG_LENGTH;
    }
    for index in 0..families.len() {
        let (address, len) = row_of(image.route(start + index));
        write_row(families, octets, index, address);
        lengths[index] = len;
    }
    OK
}

/// Returns the value of the route with this index; 0 if there is none.
fn value_of(image: &RouteTableImage<'_>, index: usize) -> u32
    requires { index < route_count image.now.table.bytes.now }
    ensures { IsValueOfRoute image.now.table.bytes.now index result }
{
    match image.route(index) {
        Some(route) => route.1,
        None => 0,
    }
}

/// Writes the values of the routes of the table, given by its image, from the index `start` on, as many as `values` has
/// room for. They are in the order of `ipnet_table_networks`. Only the header of the image is tested.
///
/// Returns 0; 13 if the bytes do not begin with the header of an image of a table, or have another length than it
/// states; 6 if the table does not have that many routes from `start` on. `values` changes only at 0.
///
/// ```text
/// the image of 10.0.0.0/8 with 1 and 10.1.0.0/16 with 2, from 0 on, and room for 2    0, and 1, 2
/// ```
#[unsafe(no_mangle)]
pub extern "C" fn ipnet_table_values(table: &[u8], start: usize, values: &mut [u32]) -> u32
    ensures { IsValuesReply table.now start values.old values.new result }
{
    let Ok(image) = RouteTableImage::from_header(table) else {
        return NOT_A_TABLE;
    };
    if !has_routes(&image, start, values.len()) {
        return WRONG_LENGTH;
    }
    for index in 0..values.len() {
        values[index] = value_of(&image, start + index);
    }
    OK
}

/// Writes the image of the table with the same networks and these values into the buffer, and its length into `count`.
///
/// `values` has one number for each route, in the order of `ipnet_table_networks`. The image is as long as the image of
/// the table. Only the header of this image is tested.
///
/// Returns 0; 13 if the bytes do not begin with the header of an image of a table, or have another length than it
/// states; 6 if there are not as many values as routes; 4 if the buffer is too short, with the length needed in
/// `count`. The buffer changes only at 0, `count` only at 0 and 4.
///
/// ```text
/// the image of 10.0.0.0/8 with 1, and 7       0, the image of 10.0.0.0/8 with 7, and the number 48
/// the image of 10.0.0.0/8 with 1, and 7, 8    6
/// ```
#[unsafe(no_mangle)]
pub extern "C" fn ipnet_table_with_values(
    table: &[u8],
    values: &[u32],
    buffer: &mut [u8],
    count: &mut usize,
) -> u32
    ensures { IsOtherValuesReply table.now values.now buffer.old buffer.new count.old count.new result }
{
    let Ok(image) = RouteTableImage::from_header(table) else {
        return NOT_A_TABLE;
    };
    if values.len() != image.len() {
        return WRONG_LENGTH;
    }
    *count = table.len();
    if buffer.len() < table.len() {
        return BUFFER_TOO_SHORT;
    }
    image.copy_with_values(values, &mut buffer[..table.len()]);
    OK
}
