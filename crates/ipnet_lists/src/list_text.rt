//! A list whose bytes are at hand, read into a set.
ghost use Rattle.std.specs.Prelude.{IfOk};
ghost use Rattle.ipnet_lists.specs.ListTexts.{IsReadList};

use crate::list::Addresses;
use crate::mark::skip_mark;
use crate::reader::LineReader;
use crate::refused::RefusedLines;
use ipnet::Grammar;
use ipnet_sets::{IpSet, IpSetBuilder};
use std::alloc::{AllocError, Global};

/// A list that was read: the set of its addresses, and its refused lines.
///
/// ```text
/// of "10.0.0.0-10.0.0.3 # ours\nx\n": the set of 10.0.0.0/30, and the refused line 2, "x"
/// ```
#[derive(Drop)]
pub struct ListText {
    /// The addresses of the entries.
    pub set: IpSet,
    /// The lines that are not entries. The index of the list is 0 in each.
    pub refused: RefusedLines,
}

/// Reads the bytes of a list into the set of its addresses, and keeps its refused lines.
///
/// A line is an entry (a network, an address or a range of addresses), or empty; it may have blanks around it, and a
/// comment. Fails only if memory runs out.
///
/// ```text
/// "# ours\n10.0.0.1\r\n10.0.0.0\n": the set of 10.0.0.0/31, and no refused line
/// ```
pub fn read_list_text(alloc: Global, bytes: &[u8], grammar: Grammar) -> Result<ListText, AllocError>
    ensures { IfOk result (λ list. IsReadList grammar bytes.now list.set list.refused) }
{
    let mut lines = LineReader::new(alloc, grammar);
    let mut builder = IpSetBuilder::new(alloc);
    lines.read(skip_mark(bytes), &Addresses, &mut builder)?;
    let set = builder.into_set(alloc)?;
    let LineReader { refused, .. } = lines;
    Ok(ListText { set, refused })
}
