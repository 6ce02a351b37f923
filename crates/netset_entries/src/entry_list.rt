//! The entries of a list, each with its line.
ghost use Rattle.std.specs.Prelude.{◌≡◌, ◌∷◌, ◌++◌, [], IfOk};
ghost use Rattle.netset_entries.specs.EntryLineOf.{numbered, IsReadOf};
ghost use Rattle.netset_entries.specs.NumberedEntries.{IsEntryOfLine, IsRefusedFor, not_entry};

use ipnet::Grammar;
use ipnet_lists::{ContentLine, Entry, LineHandler, NotEntry, RefusedLines, read_lines, read_text};
use std::alloc::{AllocError, Global};

/// An entry of a list, and its line.
#[derive(Clone, Copy)]
pub(crate) struct EntryLine<'a> {
    /// The number of its line, from 1.
    pub(crate) number: usize,
    /// The entry as written.
    pub(crate) text: &'a [u8],
    /// The entry.
    pub(crate) entry: Entry,
}

/// The entries of a list, and the lines that are refused.
#[derive(Drop)]
pub(crate) struct EntryList<'a> {
    pub(crate) entries: Vec<EntryLine<'a>>,
    pub(crate) refused: RefusedLines,
}

/// Takes the entries of lines.
#[derive(Drop)]
struct EntryReader {
    grammar: Grammar,
}

impl<'a> LineHandler<'a, Vec<EntryLine<'a>>, NotEntry> for EntryReader {
    ghost takes = { λ h line old new. (entry : _) × IsEntryOfLine h.grammar line (numbered entry)
        × (new.items ≡ old.items ++ entry ∷ []) };

    ghost is_cause = { λ h. IsRefusedFor h.grammar };

    ghost broken = { λ h. not_entry h.grammar };

    fn refuse_broken(&self) -> NotEntry
        ensures { result ≡ not_entry self.now.grammar }
    {
        let grammar = self.grammar;
        NotEntry { grammar }
    }

    fn take(
        &self,
        made: &mut Vec<EntryLine<'a>>,
        line: ContentLine<'a>,
    ) -> Result<Result<(), NotEntry>, AllocError> {
        let (number, text) = (line.number, line.text);
        match read_text(text, self.grammar) {
            Some(found) => {
                let entry = found.entry;
                made.push(EntryLine {
                    number,
                    text,
                    entry,
                })?;
                Ok(Ok(()))
            }
            None => Ok(Err(NotEntry {
                grammar: self.grammar,
            })),
        }
    }
}

/// Returns the entries of the list that the bytes are, and its refused lines. Fails if memory runs out.
pub(crate) fn entry_list<'a>(
    alloc: Global,
    bytes: &'a [u8],
    grammar: Grammar,
) -> Result<EntryList<'a>, AllocError>
    ensures { IfOk result (IsReadOf grammar bytes.now) }
{
    let mut entries = Vec::new(alloc);
    let refused = read_lines(alloc, bytes, &EntryReader { grammar }, &mut entries)?;
    Ok(EntryList { entries, refused })
}
