//! The union, intersection and difference of two lists of networks, from text to text.
ghost use Rattle.std.specs.Prelude.{IfOk, string_bytes};
ghost use Rattle.ipnet_sets.specs.declared.operation.Operation.TheVariants.{Union, Intersection, Difference};
ghost use Rattle.ipnet_sets.specs.declared.set.IpSet.{IpSet as SetValue};
ghost use Rattle.ipnet_sets.specs.Members.{IsMember, IsResultOf};
ghost use Rattle.ipnet_lists.specs.SetLines.{AreNetworkLines};
ghost use Rattle.ipnet_c.specs.Replies.{IsSetReply};

use crate::buffers::write_to_buffer;
use crate::lists::sets_of_texts;
use crate::statuses::OUT_OF_MEMORY;
use ipnet_lists::network_lines;
use ipnet_sets::{IpSet, Operation};
use std::alloc::{AllocError, Global};

/// Returns the text of the result of the operation on the two sets.
fn combined_text(
    alloc: Global,
    operation: Operation,
    set: &IpSet,
    other: &IpSet,
) -> Result<String, AllocError>
    ensures { IfOk result (λ text. (s : SetValue) × IsResultOf operation s set.now other.now
        × AreNetworkLines (IsMember s) (string_bytes text)) }
{
    let combined = set.combine(alloc, operation, other)?;
    network_lines(alloc, &combined)
}

/// Writes the networks of the result of the operation on the two texts into the buffer, as text.
fn write_combined_text(
    alloc: Global,
    operation: Operation,
    texts: (&[u8], &[u8]),
    buffer: &mut [u8],
    count: &mut usize,
) -> u32
    ensures { IsSetReply operation texts.entry.0.now texts.entry.1.now buffer.old buffer.new count.old count.new
        result }
{
    let (set, other) = match sets_of_texts(alloc, texts.0, texts.1, count) {
        Ok(sets) => sets,
        Err(status) => return status,
    };
    // Nothing is made of nothing, and needs no memory.
    if set.is_empty() && other.is_empty() {
        return write_to_buffer(&[], buffer, count);
    }
    let Ok(answer) = combined_text(alloc, operation, &set, &other) else {
        return OUT_OF_MEMORY;
    };
    write_to_buffer(answer.as_bytes(), buffer, count)
}

/// Writes the shortest list of networks with exactly the addresses of either list into the buffer, as canonical text
/// with one network per line, and its length in bytes into `count`.
///
/// Each text has one network per line, in the strict grammar; empty lines are skipped. The result is the maximal
/// aligned blocks of the addresses, IPv4 first, ascending, each followed by "\n".
///
/// Returns 0; 4 if the buffer is too short, with the length needed in `count`; 1 if a line of the first text is not a
/// network, and 9 if only a line of the second is not, with the number of the first such line in `count`, counted from
/// 1 with the empty ones; 2 if the first text is not UTF-8, and 10 if only the second is not; 3 if memory runs out, but
/// never if all lines of both texts are empty, nor if the first line that is not empty, of the first text and then of
/// the second, is bad. The buffer changes only at 0, `count` only at 0, 1, 4 and 9.
///
/// ```text
/// "10.0.0.0/25" and "10.0.0.128/25"    0, and the text "10.0.0.0/24\n"
/// "10.0.0.0/25" and "x"                9, and the number 1
/// ```
#[unsafe(no_mangle)]
pub extern "C" fn ipnet_union_text(
    alloc: Global,
    text: &[u8],
    other: &[u8],
    buffer: &mut [u8],
    count: &mut usize,
) -> u32
    ensures { IsSetReply Union text.now other.now buffer.old buffer.new count.old count.new result }
{
    write_combined_text(alloc, Operation::Union, (text, other), buffer, count)
}

/// Like `ipnet_union_text`, for exactly the addresses that are in both lists.
///
/// ```text
/// "10.0.0.0/24" and "10.0.0.128/25\n10.0.1.0/24"    0, and the text "10.0.0.128/25\n"
/// ```
#[unsafe(no_mangle)]
pub extern "C" fn ipnet_intersection_text(
    alloc: Global,
    text: &[u8],
    other: &[u8],
    buffer: &mut [u8],
    count: &mut usize,
) -> u32
    ensures { IsSetReply Intersection text.now other.now buffer.old buffer.new count.old count.new result }
{
    write_combined_text(alloc, Operation::Intersection, (text, other), buffer, count)
}

/// Like `ipnet_union_text`, for exactly the addresses of the first list that are not in the second.
///
/// ```text
/// "10.0.0.0/24" and "10.0.0.0/26"    0, and the text "10.0.0.64/26\n10.0.0.128/25\n"
/// ```
#[unsafe(no_mangle)]
pub extern "C" fn ipnet_difference_text(
    alloc: Global,
    text: &[u8],
    other: &[u8],
    buffer: &mut [u8],
    count: &mut usize,
) -> u32
    ensures { IsSetReply Difference text.now other.now buffer.old buffer.new count.old count.new result }
{
    write_combined_text(alloc, Operation::Difference, (text, other), buffer, count)
}
