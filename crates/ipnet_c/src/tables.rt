//! Tables of routes as images: the bytes of a table, which the caller keeps, and the longest match for an address.
ghost use Rattle.std.specs.Prelude.{◌≡◌, map, length, IfOk};
ghost use Rattle.ipnet_base.specs.Address.{Address};
ghost use Rattle.ipnet.specs.NetworkOf.{ip_network};
ghost use Rattle.ipnet_routes.specs.Routes.{ip_routes};
ghost use Rattle.ipnet_c.specs.SetReplies.{AreOctetsOf};
ghost use Rattle.ipnet_c.specs.TableReplies.{ArePairs, IsTableWith, IsValueAt, IsTableReply, IsTableCountReply};
ghost use Rattle.ipnet_c.specs.TableReplies.{IsTableCheckReply, IsMatchReply, IsMatchAllReply};

use crate::buffers::write_to_buffer;
use crate::lists::read_networks;
use crate::set_questions::{are_items, read_address};
use crate::statuses::{BAD_LINE, NOT_A_TABLE, NOT_UTF8, OK, OUT_OF_MEMORY, WRONG_LENGTH};
use ipnet::IpNet;
use ipnet_routes::{RouteTable, RouteTableImage, RouteTableRef};
use ipnet_text::ToolError;
use std::alloc::{AllocError, Global};
use std::str;

/// Returns the networks, each with the value at its place.
fn with_values(
    alloc: Global,
    networks: &[IpNet],
    values: &[u32],
) -> Result<Vec<(IpNet, u32)>, AllocError>
    requires { length values.now ≡ length networks.now }
    ensures { IfOk result (λ routes. ArePairs (map ip_network networks.now) values.now (ip_routes routes.items)) }
{
    let mut routes = Vec::with_capacity(alloc, networks.len())?;
    for index in 0..networks.len() {
        routes.push((networks[index], values[index]))?;
    }
    Ok(routes)
}

/// Returns the image of the table of these networks, each with the value at its place.
fn table_image(alloc: Global, networks: &[IpNet], values: &[u32]) -> Result<Vec<u8>, AllocError>
    requires { length values.now ≡ length networks.now }
    ensures { IfOk result (λ image. IsTableWith (map ip_network networks.now) values.now image.items) }
{
    let routes = with_values(alloc, networks, values)?;
    let table = RouteTable::from_routes(alloc, routes)?;
    table.to_bytes(alloc)
}

/// Writes the image of a table of routes into the buffer, and its length in bytes into `count`.
///
/// The text has one network per line, in the strict grammar; empty lines are skipped. `values` has one number for each
/// network, in the same order. Networks are equal if they are equal without their host bits; if one is given twice, the
/// last value counts. The image has 32 bytes, 16 for each IPv4 route and 32 for each IPv6 route, and from 256 routes of
/// a family on an index, of at most 8 bytes for each route and 12 more.
///
/// Returns 0; 4 if the buffer is too short, with the length needed in `count`; 1 if a line is not a network, with the
/// number of the first such line in `count`; 2 if the text is not UTF-8; 6 if there are not as many values as networks;
/// 3 if memory runs out, or if there are 2^32 routes or more. The buffer changes only at 0, `count` only at 0, 1 and 4.
///
/// ```text
/// "10.0.0.0/8\n10.1.0.0/16\n" and 1, 2    0, and an image of 64 bytes
/// "10.0.0.0/8\n" and 1, 2                 6
/// ```
#[unsafe(no_mangle)]
pub extern "C" fn ipnet_table_from_text(
    alloc: Global,
    text: &[u8],
    values: &[u32],
    buffer: &mut [u8],
    count: &mut usize,
) -> u32
    ensures { IsTableReply text.now values.now buffer.old buffer.new count.old count.new result }
{
    let Ok(text) = str::from_utf8(text) else {
        return NOT_UTF8;
    };
    let networks = match read_networks(alloc, text) {
        Ok(networks) => networks,
        Err(ToolError::Line(number)) => {
            *count = number;
            return BAD_LINE;
        }
        Err(ToolError::Memory) => return OUT_OF_MEMORY,
    };
    if networks.len() != values.len() {
        return WRONG_LENGTH;
    }
    let Ok(image) = table_image(alloc, networks.as_slice(), values) else {
        return OUT_OF_MEMORY;
    };
    write_to_buffer(image.as_slice(), buffer, count)
}

/// Writes the number of routes of the table, given by its image, into `count`.
///
/// Returns 0; 13 if the bytes do not begin with the header of an image of a table, or have another length than it
/// states. `count` changes only at 0.
///
/// ```text
/// the image of 10.0.0.0/8 with 1 and 10.1.0.0/16 with 2    0, and the number 2
/// ```
#[unsafe(no_mangle)]
pub extern "C" fn ipnet_table_count(table: &[u8], count: &mut usize) -> u32
    ensures { IsTableCountReply table.now count.old count.new result }
{
    let Ok(image) = RouteTableImage::from_header(table) else {
        return NOT_A_TABLE;
    };
    *count = image.len();
    OK
}

/// Returns 0 if the bytes are the image of a table, and 13 if they are not. Reads all routes and the index once.
///
/// ```text
/// the image of 10.0.0.0/8 with 1    0
/// no bytes                          13
/// ```
#[unsafe(no_mangle)]
pub extern "C" fn ipnet_table_check(table: &[u8]) -> u32
    ensures { IsTableCheckReply table.now result }
{
    match RouteTableRef::from_bytes(table) {
        Ok(_) => OK,
        Err(_) => NOT_A_TABLE,
    }
}

/// Does what `ipnet_table_longest_match` does.
//
// A search waits for memory, and the processor begins the next one before this one ends, if its code is short. So there
// is a copy of the search for four octets: the compiler leaves out of it what only sixteen octets need.
#[inline(always)]
fn find_match(table: &[u8], address: &[u8], value: &mut u32) -> u32
    ensures { IsMatchReply table.now address.now value.old value.new result }
{
    let Some(address) = read_address(address) else {
        return WRONG_LENGTH;
    };
    let Ok(image) = RouteTableImage::from_header(table) else {
        return NOT_A_TABLE;
    };
    match image.longest_match(&address) {
        Some(route) => {
            *value = route.1;
            1
        }
        None => 0,
    }
}

/// Does what `find_match` does, and is not copied into its caller.
#[inline(never)]
fn find_other_match(table: &[u8], address: &[u8], value: &mut u32) -> u32
    ensures { IsMatchReply table.now address.now value.old value.new result }
{
    find_match(table, address, value)
}

/// Writes the value of the longest network of the table, given by its image, that holds the address into `value`.
///
/// The address is given by its octets, the most significant first: 4 for IPv4, 16 for IPv6. Only the header of the
/// image is tested. Whatever the bytes are, nothing outside of them is read.
///
/// Returns 1; 0 if no network of the table holds the address; 6 if the number of octets is neither 4 nor 16; else 13 if
/// the bytes do not begin with the header of an image of a table, or have another length than it states. `value`
/// changes only at 1.
///
/// ```text
/// the image of 10.0.0.0/8 with 1 and 10.1.0.0/16 with 2, and 10, 1, 2, 3    1, and the value 2
/// the same image, and 11, 0, 0, 0                                          0
/// ```
#[unsafe(no_mangle)]
pub extern "C" fn ipnet_table_longest_match(table: &[u8], address: &[u8], value: &mut u32) -> u32
    ensures { IsMatchReply table.now address.now value.old value.new result }
{
    if address.len() == 4 {
        return find_match(table, address, value);
    }
    find_other_match(table, address, value)
}

/// Returns the value of the longest match for the address of these octets, or `missing` if there is none.
#[inline(always)]
fn value_for(image: &RouteTableImage<'_>, octets: &[u8], missing: u32) -> u32
    ensures { (x : Address) → AreOctetsOf octets.now x → IsValueAt image.now.table.bytes.now x missing result }
{
    match read_address(octets) {
        Some(address) => match image.longest_match(&address) {
            Some(route) => route.1,
            None => missing,
        },
        None => missing,
    }
}

/// Writes for each of many addresses the value of the longest network of the table, given by its image, that holds it,
/// or `missing` if no network of the table does.
///
/// `addresses` has `width` octets for each address, 4 for IPv4 or 16 for IPv6, one address after the other; `values`
/// gets one number for each. Only the header of the image is tested.
///
/// Returns 0; 6 if the width is neither 4 nor 16, or if the number of octets is not the width for each number of
/// `values`; else 13 if the bytes of the table do not begin with the header of an image, or have another length than it
/// states. `values` changes only at 0.
///
/// ```text
/// the image of 10.0.0.0/8 with 1, the width 4, 10, 0, 0, 1, 11, 0, 0, 1, and 9 if none    0, and 1, 9
/// ```
#[unsafe(no_mangle)]
pub extern "C" fn ipnet_table_longest_match_all(
    table: &[u8],
    addresses: &[u8],
    width: usize,
    missing: u32,
    values: &mut [u32],
) -> u32
    ensures { IsMatchAllReply table.now addresses.now width missing values.old values.new result }
{
    if !are_items(addresses.len(), values.len(), width, (4, 16)) {
        return WRONG_LENGTH;
    }
    let Ok(image) = RouteTableImage::from_header(table) else {
        return NOT_A_TABLE;
    };
    for index in 0..values.len() {
        values[index] = value_for(
            &image,
            &addresses[index * width..(index + 1) * width],
            missing,
        );
    }
    OK
}
