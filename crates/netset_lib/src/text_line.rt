//! A line of a table with texts: an entry, and the text after it.
ghost use Rattle.std.specs.Prelude.{◌↔◌, length, IsTrue};
ghost use Rattle.ipnet_lists.specs.Entries.{IsNoEntry, ReadsAs};
ghost use Rattle.ipnet_lists.specs.Comments.{IsCommentAt};
ghost use Rattle.netset_lib.specs.TextSteps.{line_in, IsAllowed};
ghost use Rattle.netset_lib.specs.TextTables.{IsTextLine, IsTextCause};

use ipnet::Grammar;
use ipnet_lists::{
    Cause, Entry, cause_of, comment_start, cut_word, has_byte, has_mask_word, read_text,
};
use std::str;

/// An entry of a table, and the text after it, which is empty if there is none.
#[derive(Clone, Copy)]
pub(crate) struct TableLine<'a> {
    pub(crate) entry: Entry,
    pub(crate) text: &'a str,
}

/// Whether the line has no comment.
fn has_no_comment(line: &[u8]) -> bool
    ensures { IsTrue result ↔ IsCommentAt line.now (length line.now) }
{
    comment_start(line) == line.len()
}

/// Whether the text, which is UTF-8 and follows the entry in these contents of a line, may do so.
fn is_allowed(contents: &[u8], text: &str) -> bool
    ensures { IsTrue result ↔ IsAllowed contents.now text.now }
{
    let Ok(line) = str::from_utf8(contents) else {
        return false;
    };
    let bytes = text.as_bytes();
    if bytes.is_empty() || bytes[0] == b'-' {
        return false;
    }
    if has_byte(contents, 0) || !has_no_comment(contents) {
        return false;
    }
    !has_mask_word(line)
}

/// Says that a line of a table is refused because its contents are not an entry, with or without a text. `text_cause`
/// finds the cause when the line is reported.
#[derive(Clone, Copy, Debug, Drop)]
pub struct NotTextLine {
    /// The grammar.
    pub(crate) grammar: Grammar,
}

/// Returns why contents that are not an entry with a text are not such a line.
pub(crate) fn text_cause(contents: &[u8], grammar: Grammar) -> Option<Cause>
    ensures { IsTextCause grammar contents.now result }
{
    if has_byte(contents, b'\r') {
        return cause_of(contents, grammar);
    }
    let (word, _) = cut_word(contents);
    match read_text(word, grammar) {
        Some(_) => cause_of(contents, grammar),
        None => cause_of(word, grammar),
    }
}

/// Reads the first word as an entry, and what follows as its text. The contents are not an entry.
fn read_after<'a>(contents: &'a [u8], grammar: Grammar) -> Option<TableLine<'a>>
    requires { IsNoEntry grammar contents.now }
    ensures { ReadsAs line_in (IsTextLine grammar) contents.now result }
{
    let (word, rest) = cut_word(contents);
    let Some(found) = read_text(word, grammar) else {
        return None;
    };
    let Ok(text) = str::from_utf8(rest) else {
        return None;
    };
    if !is_allowed(contents, text) {
        return None;
    }
    let entry = found.entry;
    Some(TableLine { entry, text })
}

/// Returns the entry and the text that the contents of a line are, or `None` if they are not such a line.
pub(crate) fn read_table_line<'a>(contents: &'a [u8], grammar: Grammar) -> Option<TableLine<'a>>
    ensures { ReadsAs line_in (IsTextLine grammar) contents.now result }
{
    match read_text(contents, grammar) {
        Some(found) => {
            let entry = found.entry;
            Some(TableLine { entry, text: "" })
        }
        None => read_after(contents, grammar),
    }
}
