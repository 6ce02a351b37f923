//! The lines of a list: the entries, one a line, and the lines that are refused.
ghost use Rattle.std.specs.Prelude.{◌≡◌, ◌<◌, ◌∷◌, List, [], length, OnOk, IfOk, IfSome, false};
ghost use Rattle.ipnet.specs.Lines.{lines_of};
ghost use Rattle.std.specs.Str.{IsUtf8};
ghost use Rattle.ipnet_lists.specs.Entries.{IsEntryText, IsEntryWord, ReadsAs};
ghost use Rattle.ipnet_lists.specs.EntryOf.{entry_range, IsWrittenAs};
ghost use Rattle.ipnet_lists.specs.Lists.{ListEntry};
ghost use Rattle.ipnet_lists.specs.FoundEntry.{entry_of, found_range};
ghost use Rattle.ipnet_lists.specs.Reading.{Adds};

use crate::cause::NotEntry;
use crate::comment::contents_of;
use crate::entry::{Entry, read_entry};
use crate::front::front_entry;
use crate::number::next_number;
use crate::refused::{RefusedLines, RefusedPart};
use ipnet::Grammar;
use memchr::memchr;
use std::alloc::{AllocError, Global};
use std::str;

/// Takes the entries of a list, one after another, and makes a value of type `M` of them.
pub trait Collector<M> {
    /// Whether the value is made of these entries.
    ghost is_made: { Self → M → List ListEntry → Type 0 };

    /// Adds an entry, which is spelled as the text. Fails if memory runs out.
    fn push(&self, made: &mut M, text: &[u8], entry: Entry) -> Result<(), AllocError>
        requires { IsUtf8 text.now }
        ensures { OnOk result
            (Adds (is_made self.now made.old) (is_made self.now made.new) (entry_of text.now entry ∷ [])) };
}

/// Returns the first line of bytes that are not empty, and the bytes after its end.
///
/// ```text
/// "10.0.0.1\n\nx":  "10.0.0.1" and "\nx"
/// "x":              "x" and ""
/// ```
pub fn first_line_of_bytes(bytes: &[u8]) -> (&[u8], &[u8])
    requires { 0 < length bytes.now }
    ensures lines { lines_of bytes.now ≡ result.0.now ∷ lines_of result.1.now }
    ensures shorter { length result.1.now < length bytes.now }
{
    match memchr(b'\n', bytes) {
        Some(end) => (&bytes[..end], &bytes[end + 1..]),
        None => (bytes, &[]),
    }
}

/// An entry that was read, and its text.
#[derive(Clone, Copy)]
pub struct FoundEntry<'a> {
    /// The text of the entry.
    pub text: &'a str,
    /// The entry.
    pub entry: Entry,
}

/// Returns the entry that the bytes are, or `None` if they are not one, as `read_entry` does. Bytes that are not UTF-8
/// are not an entry.
///
/// ```text
/// b"10.0.0.9/8":  the text "10.0.0.9/8", and Network(10.0.0.9/8)
/// b"\xff":        None
/// ```
pub fn read_text<'a>(text: &'a [u8], grammar: Grammar) -> Option<FoundEntry<'a>>
    ensures reads { ReadsAs found_range (IsEntryText grammar) text.now result }
    ensures spelled { IfSome result (λ found. found.text.now ≡ text.now) }
    ensures kind { IfSome result (λ found. IsWrittenAs grammar text.now found.entry) }
{
    let text = match str::from_utf8(text) {
        Ok(text) => text,
        Err(_) => return None,
    };
    match read_entry(text, grammar) {
        Some(entry) => Some(FoundEntry { text, entry }),
        None => None,
    }
}

/// A first line that is an entry and nothing else.
#[derive(Clone, Copy)]
struct FrontLine<'a> {
    /// The line, which is the text of the entry.
    text: &'a [u8],
    entry: Entry,
    /// The bytes after the end of the line.
    after: &'a [u8],
}

/// The first line, if it is an entry and nothing else, in both grammars. `None` says nothing about the line.
fn front_line(bytes: &[u8]) -> Option<FrontLine<'_>>
    ensures entry { IfSome result (λ line. (grammar : Grammar)
        → IsEntryWord grammar line.text.now (entry_range line.entry)) }
    ensures some { IfSome result (λ line. 0 < length line.text.now) }
    ensures lines { IfSome result (λ line. lines_of bytes.now ≡ line.text.now ∷ lines_of line.after.now) }
    ensures shorter { IfSome result (λ line. length line.after.now < length bytes.now) }
{
    let (entry, len) = front_entry(bytes)?;
    Some(FrontLine {
        text: &bytes[..len],
        entry,
        after: &bytes[len + 1..],
    })
}

/// Reads the lines of lists. It hands over their entries, and keeps their refused lines.
#[derive(Drop)]
pub struct LineReader {
    /// The allocator of the refused lines.
    pub alloc: Global,
    /// How entries are read.
    pub grammar: Grammar,
    /// The index of the list, from 0.
    pub list: usize,
    /// The number of lines that were read of the list.
    pub line: usize,
    /// The refused lines of all lists that were read.
    pub refused: RefusedLines,
    /// Whether an entry of the list was read.
    pub has_entry: bool,
}

impl LineReader {
    ghost use Rattle.ipnet_lists.specs.Reading.{ReadsLines, ReadsFirst};
    ghost use Rattle.ipnet_lists.specs.RefusedLines.{AreRefused};

    /// Returns a reader of the first list, which has read no line.
    pub fn new(alloc: Global, grammar: Grammar) -> LineReader
        ensures grammar { result.grammar ≡ grammar }
        ensures first { result.list ≡ 0 }
        ensures line { result.line ≡ 0 }
        ensures none { AreRefused result.refused [] }
        ensures no_entry { result.has_entry ≡ false }
    {
        LineReader {
            alloc,
            grammar,
            list: 0,
            line: 0,
            refused: RefusedLines::new(alloc),
            has_entry: false,
        }
    }

    /// Reads a line: hands its entry over, if it has one, or keeps it as refused. Fails if memory runs out, or if there
    /// are more lines than a `usize` counts.
    fn read_line<M, C: Collector<M>>(
        &mut self,
        line: &[u8],
        collector: &C,
        made: &mut M,
    ) -> Result<(), AllocError>
        ensures { OnOk result (ReadsLines self.old self.new (line.now ∷ [])
            (C.is_made collector.now made.old) (C.is_made collector.now made.new)) }
    {
        let number = next_number(self.line)?;
        self.line = number;
        let text = contents_of(line);
        if text.is_empty() {
            return Ok(());
        }
        match read_text(text, self.grammar) {
            Some(found) => {
                self.has_entry = true;
                collector.push(made, text, found.entry)
            }
            None => {
                let part = RefusedPart {
                    list: self.list,
                    number,
                    text,
                    cause: NotEntry {
                        grammar: self.grammar,
                    },
                };
                self.refused.push(self.alloc, part)
            }
        }
    }

    /// Reads a line that is an entry and nothing else: hands the entry over. Fails as `read_line` does.
    fn push_found<M, C: Collector<M>>(
        &mut self,
        text: &[u8],
        entry: Entry,
        collector: &C,
        made: &mut M,
    ) -> Result<(), AllocError>
        requires entry { IsEntryWord self.old.grammar text.now (entry_range entry) }
        requires some { 0 < length text.now }
        ensures { OnOk result (ReadsLines self.old self.new (text.now ∷ [])
            (C.is_made collector.now made.old) (C.is_made collector.now made.new)) }
    {
        let number = next_number(self.line)?;
        self.line = number;
        self.has_entry = true;
        collector.push(made, text, entry)
    }

    /// Reads the first line of bytes that are not empty, and returns the bytes after its end. Fails as `read_line`
    /// does.
    fn read_first<'a, M, C: Collector<M>>(
        &mut self,
        bytes: &'a [u8],
        collector: &C,
        made: &mut M,
    ) -> Result<&'a [u8], AllocError>
        requires { 0 < length bytes.now }
        ensures { IfOk result (λ rest. ReadsFirst self.old self.new bytes.now rest.now
            (C.is_made collector.now made.old) (C.is_made collector.now made.new)) }
    {
        if let Some(front) = front_line(bytes) {
            self.push_found(front.text, front.entry, collector, made)?;
            return Ok(front.after);
        }
        let (line, after) = first_line_of_bytes(bytes);
        self.read_line(line, collector, made)?;
        Ok(after)
    }

    /// Reads the lines of the bytes: hands over their entries, and keeps the lines that are refused. Fails if memory
    /// runs out, or if there are more lines than a `usize` counts.
    ///
    /// ```text
    /// "10.0.0.1 # ours\n\nx\n": the entry 10.0.0.1 is handed over, and line 3 is refused
    /// ```
    pub fn read<M, C: Collector<M>>(
        &mut self,
        bytes: &[u8],
        collector: &C,
        made: &mut M,
    ) -> Result<(), AllocError>
        ensures { OnOk result (ReadsLines self.old self.new (lines_of bytes.now)
            (C.is_made collector.now made.old) (C.is_made collector.now made.new)) }
    {
        let mut rest = bytes;
        'lines: while !rest.is_empty() {
            let after = self.read_first(rest, collector, made)?;
            rest = after;
        }
        Ok(())
    }
}
