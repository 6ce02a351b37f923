//! Single networks, as text and as bytes.
//!
//! The bytes of a network are a byte for the family, 0 for IPv4 and 1 for IPv6, the octets of the address, the most
//! significant first and host bits and all, and the prefix length: 6 bytes, or 18.
ghost use Rattle.ipnet.specs.declared.parser.Grammar.TheVariants.{Strict, Legacy};
ghost use Rattle.ipnet_c.specs.Replies.{IsParseReply, IsPrintReply};

use crate::buffers::write_to_buffer;
use crate::statuses::{NOT_A_NETWORK, NOT_UTF8, status_of};
use ipnet::{Grammar, IpNet};
use std::str;

/// Writes the bytes of the network of a text in this grammar into the buffer.
fn parse(text: &[u8], grammar: Grammar, buffer: &mut [u8], count: &mut usize) -> u32
    ensures { IsParseReply grammar text.now buffer.old buffer.new count.old count.new result }
{
    let Ok(text) = str::from_utf8(text) else {
        return NOT_UTF8;
    };
    let Ok(network) = IpNet::parse_as(text, grammar) else {
        return NOT_A_NETWORK;
    };
    write_to_buffer(&network.to_bytes(), buffer, count)
}

/// Writes the bytes of the network of a text in the strict grammar into the buffer, and their number, 6 or 18, into
/// `count`. Allocates nothing.
///
/// The text is an address, "/" and a prefix length (RFC 4632, section 3.1; RFC 4291, sections 2.2 and 2.3), and no
/// decimal number except 0 begins with a zero.
///
/// Returns 0; 4 if the buffer is too short, with the number of bytes needed in `count`; 5 if the text is not a network;
/// 2 if it is not UTF-8. The buffer changes only at 0, `count` only at 0 and 4.
///
/// ```text
/// "10.1.1.0/24"    0, and the 6 bytes 0, 10, 1, 1, 0, 24
/// "10.1.1.0"       5
/// ```
#[unsafe(no_mangle)]
pub extern "C" fn ipnet_parse(text: &[u8], buffer: &mut [u8], count: &mut usize) -> u32
    ensures { IsParseReply Strict text.now buffer.old buffer.new count.old count.new result }
{
    parse(text, Grammar::Strict, buffer, count)
}

/// Like `ipnet_parse`, for a text of the legacy grammar: octets and lengths may have leading zeros, and "::" may
/// replace no group.
///
/// ```text
/// "010.1.1.0/24"   0, and the 6 bytes 0, 10, 1, 1, 0, 24
/// ```
#[unsafe(no_mangle)]
pub extern "C" fn ipnet_parse_legacy(text: &[u8], buffer: &mut [u8], count: &mut usize) -> u32
    ensures { IsParseReply Legacy text.now buffer.old buffer.new count.old count.new result }
{
    parse(text, Grammar::Legacy, buffer, count)
}

/// Writes the canonical text of the network of these bytes into the buffer, and its length, at most 43 bytes, into
/// `count`. Allocates nothing. No NUL follows the text.
///
/// The canonical text is the address with its host bits (RFC 5952), "/", and the prefix length without leading zeros.
///
/// Returns 0; 4 if the buffer is too short, with the length needed in `count`; 6 if the number of bytes is wrong; 7 if
/// the first is neither 0 nor 1; 8 if the last is above 32, or 128. The buffer changes only at 0, `count` only at 0 and
/// 4.
///
/// ```text
/// 0, 10, 1, 1, 0, 24    0, and the text "10.1.1.0/24"
/// 0, 10, 1, 1, 0, 33    8
/// ```
#[unsafe(no_mangle)]
pub extern "C" fn ipnet_print(network: &[u8], buffer: &mut [u8], count: &mut usize) -> u32
    ensures { IsPrintReply network.now buffer.old buffer.new count.old count.new result }
{
    match IpNet::from_bytes(network) {
        Ok(network) => write_to_buffer(network.to_text().as_bytes(), buffer, count),
        Err(error) => status_of(error),
    }
}
