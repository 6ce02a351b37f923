//! Sets of addresses made of lists as people keep them.
ghost use Rattle.ipnet.specs.declared.parser.Grammar.TheVariants.{Strict, Legacy};
ghost use Rattle.ipnet_c.specs.ListReplies.{IsListReply};

use crate::buffers::write_to_buffer;
use crate::statuses::{BAD_LINE, OUT_OF_MEMORY};
use ipnet::Grammar;
use ipnet_lists::read_list_text;
use std::alloc::Global;

/// Writes the image of the addresses of a list as people keep it, in this grammar, into the buffer, and its length into
/// `count`.
fn compile_list(
    alloc: Global,
    text: &[u8],
    grammar: Grammar,
    buffer: &mut [u8],
    count: &mut usize,
) -> u32
    ensures { IsListReply grammar text.now buffer.old buffer.new count.old count.new result }
{
    let Ok(list) = read_list_text(alloc, text, grammar) else {
        return OUT_OF_MEMORY;
    };
    let refused = list.refused.shown.as_slice();
    if !refused.is_empty() {
        *count = refused[0].number;
        return BAD_LINE;
    }
    let Ok(image) = list.set.to_bytes(alloc) else {
        return OUT_OF_MEMORY;
    };
    write_to_buffer(image.as_slice(), buffer, count)
}

/// Writes the image of the addresses of a list as people keep it into the buffer, and its length in bytes into `count`.
///
/// The text is read as the program `netset` reads its files, in the strict grammar. A line is a network, an address, a
/// range of addresses, `FIRST-LAST`, or empty. It may have blanks around it, end with "\r\n", and have a comment after
/// `#` or `;`. A byte order mark at the start is skipped. The text need not be UTF-8.
///
/// Returns 0; 4 if the buffer is too short, with the length needed in `count`; 1 if a line is not an entry, with the
/// number of the first such line in `count`; 3 if memory runs out. The buffer changes only at 0, `count` only at 0, 1
/// and 4.
///
/// ```text
/// "# ours\n10.0.0.0-10.0.0.3\r\n"    0, and an image of 40 bytes
/// "10.0.0.1\n10.0.0.1 10.0.0.2\n"     1, and the number 2
/// ```
#[unsafe(no_mangle)]
pub extern "C" fn ipnet_set_from_list(
    alloc: Global,
    text: &[u8],
    buffer: &mut [u8],
    count: &mut usize,
) -> u32
    ensures { IsListReply Strict text.now buffer.old buffer.new count.old count.new result }
{
    compile_list(alloc, text, Grammar::Strict, buffer, count)
}

/// Like `ipnet_set_from_list`, for a list of the legacy grammar, as `netset --legacy` reads its files: octets and
/// lengths may have leading zeros, and "::" may replace no group.
///
/// ```text
/// "010.0.0.0-10.0.0.03 # ours\n"    0, and the image of 10.0.0.0/30, of 40 bytes
/// ```
#[unsafe(no_mangle)]
pub extern "C" fn ipnet_set_from_list_legacy(
    alloc: Global,
    text: &[u8],
    buffer: &mut [u8],
    count: &mut usize,
) -> u32
    ensures { IsListReply Legacy text.now buffer.old buffer.new count.old count.new result }
{
    compile_list(alloc, text, Grammar::Legacy, buffer, count)
}
