//! The addresses that lists of networks cover.
ghost use Rattle.ipnet_c.specs.Replies.{IsSameAddressesReply, IsCoveredReply};

use crate::lists::{set_of_text, sets_of_texts};
use crate::statuses::{OK, status_of};
use ipnet::{Grammar, IpNet};
use std::alloc::Global;

/// Compares the addresses of two lists, and writes 1 into `same` if they are the same, and 0 if they are not.
///
/// Each text has one network per line, in the strict grammar; empty lines are skipped.
///
/// Returns 0; 1 if a line of the first text is not a network, and 9 if only a line of the second is not, with the
/// number of the first such line in `line`, counted from 1 with the empty ones; 2 if the first text is not UTF-8, and
/// 10 if only the second is not; 3 if memory runs out, but never if all lines of both texts are empty, nor if the first
/// line that is not empty, of the first text and then of the second, is bad. `same` changes only at 0, `line` only at 1
/// and 9.
///
/// ```text
/// "10.0.0.0/25\n10.0.0.128/25" and "10.0.0.7/24"    0, and 1
/// "10.0.0.0/25" and "10.0.0.0/24"                   0, and 0
/// "" and "x"                                        9, and line 1
/// ```
#[unsafe(no_mangle)]
pub extern "C" fn ipnet_same_addresses(
    alloc: Global,
    text: &[u8],
    other: &[u8],
    same: &mut u8,
    line: &mut usize,
) -> u32
    ensures { IsSameAddressesReply text.now other.now same.old same.new line.old line.new result }
{
    let (set, others) = match sets_of_texts(alloc, text, other, line) {
        Ok(sets) => sets,
        Err(status) => return status,
    };
    *same = u8::from(set == others);
    OK
}

/// Writes 1 into `covered` if the list covers every address of the network, and 0 if it does not. Several networks of
/// the list may cover it together.
///
/// The text has one network per line, in the strict grammar; empty lines are skipped. The network is given by its
/// bytes: a byte for the family, 0 for IPv4 and 1 for IPv6, the octets of the address, and the prefix length, in all 6
/// bytes or 18. An address is the network of its full length.
///
/// Returns 0; 6 if the number of bytes is wrong, 7 if the first is neither 0 nor 1, 8 if the last is above 32, or 128;
/// then 2 if the text is not UTF-8; 1 if a line is not a network, with the number of the first such line in `line`,
/// counted from 1 with the empty ones; 3 if memory runs out, but never if all lines are empty, nor if the first line
/// that is not empty is bad. `covered` changes only at 0, `line` only at 1.
///
/// ```text
/// "10.0.0.0/25\n10.0.0.128/25" and 0, 10, 0, 0, 0, 24    0, and 1
/// "10.0.0.0/25" and 0, 10, 0, 0, 200, 32                 0, and 0
/// ```
#[unsafe(no_mangle)]
pub extern "C" fn ipnet_is_covered(
    alloc: Global,
    text: &[u8],
    network: &[u8],
    covered: &mut u8,
    line: &mut usize,
) -> u32
    ensures { IsCoveredReply text.now network.now covered.old covered.new line.old line.new result }
{
    let network = match IpNet::from_bytes(network) {
        Ok(network) => network,
        Err(error) => return status_of(error),
    };
    let set = match set_of_text(alloc, text, Grammar::Strict, line) {
        Ok(set) => set,
        Err(status) => return status,
    };
    *covered = u8::from(set.covers(&network));
    OK
}
