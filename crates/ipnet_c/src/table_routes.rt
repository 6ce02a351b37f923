//! The longest route of a table for an address or a network: the network of the route and its value. The table is
//! given by its image.
ghost use Rattle.std.specs.Prelude.{◌≤◌, length};
ghost use Rattle.ipnet.specs.NetworkOf.{ip_network};
ghost use Rattle.ipnet_c.specs.RouteReplies.{HasNetwork, IsRouteReply, IsCoveringReply};

use crate::set_questions::read_address;
use crate::statuses::{BUFFER_TOO_SHORT, NOT_A_TABLE, WRONG_LENGTH, status_of};
use ipnet::IpNet;
use ipnet_routes::RouteTableImage;

/// The length of the longest byte form of a network.
const LONGEST_FORM: usize = 18;

/// Writes the byte form of the network to the start of the buffer.
fn write_network(network: &IpNet, buffer: &mut [u8])
    requires { 18 ≤ length buffer.old }
    ensures { HasNetwork (ip_network network.now) buffer.old buffer.new }
{
    let bytes = network.to_bytes();
    buffer[..bytes.len()].copy_from_slice(&bytes);
}

/// Writes the longest network of the table, given by its image, that holds the address into `network`, and its value
/// into `value`.
///
/// The address is given by its octets, the most significant first: 4 for IPv4, 16 for IPv6. The network is written in
/// byte form, without host bits: 6 bytes for an IPv4 address, 18 for an IPv6 address. `network` has room for 18 bytes.
/// Only the header of the image is tested. Whatever the bytes are, nothing outside of them is read.
///
/// Returns 1; 0 if no network of the table holds the address; 6 if the number of octets is neither 4 nor 16; 4 if
/// `network` has fewer than 18 bytes; else 13 if the bytes do not begin with the header of an image of a table, or have
/// another length than it states. `network` and `value` change only at 1, and `network` only as far as the byte form.
///
/// ```text
/// the image of 10.0.0.0/8 with 1 and 10.1.0.0/16 with 2, and 10, 1, 2, 3    1, and 0, 10, 1, 0, 0, 16, and the value 2
/// the same image, and 11, 0, 0, 0                                          0
/// ```
#[unsafe(no_mangle)]
pub extern "C" fn ipnet_table_longest_route(
    table: &[u8],
    address: &[u8],
    network: &mut [u8],
    value: &mut u32,
) -> u32
    ensures { IsRouteReply table.now address.now network.old network.new value.old value.new result }
{
    let Some(address) = read_address(address) else {
        return WRONG_LENGTH;
    };
    if network.len() < LONGEST_FORM {
        return BUFFER_TOO_SHORT;
    }
    let Ok(image) = RouteTableImage::from_header(table) else {
        return NOT_A_TABLE;
    };
    match image.longest_match(&address) {
        Some(route) => {
            write_network(&route.0, network);
            *value = route.1;
            1
        }
        None => 0,
    }
}

/// Writes the longest network of the table, given by its image, that contains every address of `network` into
/// `covering`, and its value into `value`.
///
/// `network` is given by its bytes, as for `ipnet_is_covered`. The longest network is written in byte form, without
/// host bits: 6 bytes for an IPv4 network, 18 for an IPv6 network. `covering` has room for 18 bytes. Only the header of
/// the image is tested. Whatever the bytes are, nothing outside of them is read.
///
/// Returns 1; 0 if no network of the table contains the network; 6, 7 or 8 if the bytes of `network` have this fault; 4
/// if `covering` has fewer than 18 bytes; else 13 if the bytes do not begin with the header of an image of a table, or
/// have another length than it states. `covering` and `value` change only at 1, and `covering` only as far as the byte
/// form.
///
/// ```text
/// the image of 10.0.0.0/8 with 1 and 10.1.0.0/16 with 2, and 0, 10, 1, 2, 0, 24    1, 0, 10, 1, 0, 0, 16, and 2
/// the same image, and 0, 10, 0, 0, 0, 15                                          1, 0, 10, 0, 0, 0, 8, and 1
/// the same image, and 0, 0, 0, 0, 0, 0                                            0
/// ```
#[unsafe(no_mangle)]
pub extern "C" fn ipnet_table_longest_covering(
    table: &[u8],
    network: &[u8],
    covering: &mut [u8],
    value: &mut u32,
) -> u32
    ensures { IsCoveringReply table.now network.now covering.old covering.new value.old value.new result }
{
    let network = match IpNet::from_bytes(network) {
        Ok(network) => network,
        Err(error) => return status_of(error),
    };
    if covering.len() < LONGEST_FORM {
        return BUFFER_TOO_SHORT;
    }
    let Ok(image) = RouteTableImage::from_header(table) else {
        return NOT_A_TABLE;
    };
    match image.covering(&network) {
        Some(route) => {
            write_network(&route.0, covering);
            *value = route.1;
            1
        }
        None => 0,
    }
}
