//! The options `-e`: entries on the command line, which are one list, the last.
ghost use Rattle.std.specs.Prelude.{◌≡◌, ◌↔◌, ◌<◌, ◌++◌, ◌∷◌, [], map, length, All, IsTrue, IfOk, IfErr, OnOk};
ghost use Rattle.std.specs.Prelude.{string_bytes};
ghost use Rattle.netset_commands.specs.Arguments.{entries_of};
ghost use Rattle.netset_commands.specs.EntryOptions.{IsEntryFailure, IsEntryText, IsOneLine, entry_lines};

use crate::arguments::{ArgumentFailure, FIRST, OTHERS, report_argument_failure};
use crate::table::{ARGUMENT, Argument, Form};
use clap::ArgMatches;
use ipnet_lists::has_byte;
use std::alloc::{AllocError, Global};

/// The id of the entries.
pub const ENTRY: &str = "entry";

/// The option for an entry of the last list.
pub const ENTRY_OPTION: Argument = Argument {
    id: ENTRY,
    form: Form::Repeated("ENTRY"),
    letter: Some('e'),
    help: "An entry; all of them together are the last list. Standard input is then read only if - is named",
    ..ARGUMENT
};

/// The option of a command that takes one list.
pub const ENTRY_OR_FIRST: Argument = Argument {
    conflicts: &[FIRST],
    ..ENTRY_OPTION
};

/// The option of a command that takes two lists.
pub const ENTRY_OR_OTHER: Argument = Argument {
    conflicts: &[OTHERS],
    ..ENTRY_OPTION
};

/// Whether there are entries.
pub fn has_entries(matches: &ArgMatches) -> bool
    ensures { IsTrue result ↔ (0 < length (entries_of matches.now)) }
{
    let entries = matches.get_strs(ENTRY).unwrap_or(&[]);
    !entries.is_empty()
}

/// Appends the entry as a line.
fn push_line(text: &mut String, entry: &str) -> Result<(), AllocError>
    ensures { OnOk result (string_bytes text.new ≡ string_bytes text.old ++ (entry.now ++ 10 ∷ [])) }
{
    text.push_str(entry)?;
    text.push_str("\n")
}

/// The lines of the entries. Fails with the number of the first entry, from 1, that has a line break.
fn entry_lines(alloc: Global, entries: &[&str]) -> Result<String, ArgumentFailure>
    ensures one_line { IfOk result (λ _. All IsOneLine (map (λ entry. entry.now) entries.now)) }
    ensures lines { IfOk result (λ text. string_bytes text ≡ entry_lines (map (λ entry. entry.now) entries.now)) }
    ensures failed { IfErr result (IsEntryFailure (map (λ entry. entry.now) entries.now)) }
{
    let mut text = String::new(alloc);
    let mut number: usize = 0;
    for entry in entries {
        if has_byte(entry.as_bytes(), b'\n') {
            return Err(ArgumentFailure::LineBreak(number + 1));
        }
        let Ok(()) = push_line(&mut text, entry) else {
            return Err(ArgumentFailure::Memory);
        };
        number += 1;
    }
    Ok(text)
}

/// The text of the list of entries, a line for each; `None` if there are no entries.
fn entry_text(alloc: Global, matches: &ArgMatches) -> Result<Option<String>, ArgumentFailure>
    ensures text { IfOk result (IsEntryText (entries_of matches.now)) }
    ensures failed { IfErr result (IsEntryFailure (entries_of matches.now)) }
{
    let entries = matches.get_strs(ENTRY).unwrap_or(&[]);
    if entries.is_empty() {
        return Ok(None);
    }
    Ok(Some(entry_lines(alloc, entries)?))
}

/// Returns what `entry_text` does. If that fails, it is reported, and the error is the exit status.
pub fn entries_or_report(rt: &HostRuntime, matches: &ArgMatches) -> Result<Option<String>, u8>
    ensures text { IfOk result (IsEntryText (entries_of matches.now)) }
    ensures failed { IfErr result (λ status. status ≡ 2) }
{
    match entry_text(rt.alloc(), matches) {
        Ok(text) => Ok(text),
        Err(failure) => Err(report_argument_failure(rt, failure)),
    }
}
