//! Lists of networks as text, one network a line, aggregated.
ghost use Rattle.ipnet.specs.declared.parser.Grammar.TheVariants.{Strict, Legacy};
ghost use Rattle.ipnet_c.specs.Replies.{IsAggregateReply};

use crate::buffers::write_to_buffer;
use crate::statuses::{BAD_LINE, NOT_UTF8, OUT_OF_MEMORY};
use ipnet::Grammar;
use ipnet_text::ToolError;
use ipnet_tool::aggregate_text_as;
use std::alloc::Global;
use std::str;

/// Writes the aggregate of a text in this grammar into the buffer.
fn aggregate(
    alloc: Global,
    text: &[u8],
    grammar: Grammar,
    buffer: &mut [u8],
    count: &mut usize,
) -> u32
    ensures { IsAggregateReply grammar text.now buffer.old buffer.new count.old count.new result }
{
    let Ok(text) = str::from_utf8(text) else {
        return NOT_UTF8;
    };
    match aggregate_text_as(alloc, text, grammar) {
        Ok(answer) => write_to_buffer(answer.as_bytes(), buffer, count),
        Err(ToolError::Line(number)) => {
            *count = number;
            BAD_LINE
        }
        Err(ToolError::Memory) => OUT_OF_MEMORY,
    }
}

/// Writes the shortest list of networks with exactly the addresses of the text's networks into the buffer, as canonical
/// text with one network per line, and its length in bytes into `count`.
///
/// The text has one network per line, in the strict grammar (RFC 4632, section 3.1; RFC 4291, sections 2.2 and 2.3);
/// empty lines are skipped. `aggregate_text` of `ipnet_tool` makes the result: the maximal aligned blocks of the
/// addresses, IPv4 first, ascending, each followed by "\n".
///
/// Returns 0; 4 if the buffer is too short, with the length needed in `count`; 1 if a line is not a network, with the
/// number of the first such line in `count`, counted from 1 with the empty ones; 2 if the text is not UTF-8; 3 if
/// memory runs out, but never if all lines are empty, nor if the first line that is not empty is bad. The buffer
/// changes only at 0, `count` only at 0, 1 and 4.
///
/// ```text
/// "10.0.1.0/24\n\n10.0.0.0/24"    0, and the text "10.0.0.0/23\n"
/// "10.0.0.0/24\n\nx\n"            1, and the number 3
/// ```
#[unsafe(no_mangle)]
pub extern "C" fn ipnet_aggregate_text(
    alloc: Global,
    text: &[u8],
    buffer: &mut [u8],
    count: &mut usize,
) -> u32
    ensures { IsAggregateReply Strict text.now buffer.old buffer.new count.old count.new result }
{
    aggregate(alloc, text, Grammar::Strict, buffer, count)
}

/// Like `ipnet_aggregate_text`, for a text of the legacy grammar: octets and lengths may have leading zeros, and "::"
/// may replace no group. The result is strict text.
///
/// ```text
/// "10.0.0.0/24\n10.0.01.0/24\n"    0, and the text "10.0.0.0/23\n"
/// ```
#[unsafe(no_mangle)]
pub extern "C" fn ipnet_aggregate_text_legacy(
    alloc: Global,
    text: &[u8],
    buffer: &mut [u8],
    count: &mut usize,
) -> u32
    ensures { IsAggregateReply Legacy text.now buffer.old buffer.new count.old count.new result }
{
    aggregate(alloc, text, Grammar::Legacy, buffer, count)
}
