//! Lines about entries, written piece by piece, so that an answer of any length takes little memory.
ghost use Rattle.std.specs.Prelude.{◌≡◌, ◌++◌, OnOk, map};
ghost use Rattle.ipnet_text.specs.Outputs.{IsWritten, IsFrontWritten};
ghost use Rattle.netset_entries.specs.EntryTexts.{entry_line, entry_line_at};
ghost use Rattle.netset_entries.specs.EntryLineOf.{numbered};
ghost use Rattle.netset_entries.specs.WriteReports.{IsWriteReported};
ghost use Rattle.netset_entries.specs.declared.lines.WriteFailure.TheVariants.{Memory, Unwritable};

use crate::entry_list::EntryLine;
use ipnet_lists::{RefusedLines, report_refused};
use netset_lib::numbered::push_numbered;
use netset_lib::reports::{OUT_OF_MEMORY, UNWRITABLE, report_words};
use netset_lib::runs::Report;
use std::alloc::AllocError;
use std::io;
use std::io::Write;

/// Why an answer was not written.
#[derive(Debug, Drop)]
pub enum WriteFailure {
    /// These lines of the list are refused, and these of the other list.
    Refused(RefusedLines, RefusedLines),
    /// Memory ran out.
    Memory,
    /// A write failed.
    Unwritable,
}

impl From<AllocError> for WriteFailure {
    ghost from_gives = { λ _ result. result ≡ Memory };

    fn from(_: AllocError) -> WriteFailure {
        WriteFailure::Memory
    }
}

impl From<io::Error> for WriteFailure {
    ghost from_gives = { λ _ result. result ≡ Unwritable };

    fn from(_: io::Error) -> WriteFailure {
        WriteFailure::Unwritable
    }
}

/// Appends the line of the entry.
fn push_line(text: &mut Vec<u8>, line: &EntryLine<'_>) -> Result<(), AllocError>
    ensures { OnOk result (text.new.items ≡ text.old.items ++ entry_line (numbered line.now)) }
{
    push_numbered(text, line.number, line.text)?;
    text.extend_from_slice(b"\n")
}

/// Appends the line of the entry at this index, if there is one.
pub(crate) fn push_line_at(
    text: &mut Vec<u8>,
    lines: &[EntryLine<'_>],
    index: usize,
) -> Result<(), AllocError>
    ensures { OnOk result
        (text.new.items ≡ text.old.items ++ entry_line_at (map numbered lines.now) index) }
{
    match lines.get(index) {
        Some(line) => push_line(text, line),
        None => Ok(()),
    }
}

impl Report for WriteFailure {
    ghost exit = { λ _. 2 };

    ghost is_reported = { λ failure _. IsWriteReported IsWritten failure };

    ghost is_begun = { λ failure _. IsWriteReported IsFrontWritten failure };

    fn status(&self) -> u8 {
        2
    }

    fn report<X: Write>(&self, names: &[&str], faults: &mut X) -> io::Result<()> {
        match self {
            WriteFailure::Refused(first, second) => {
                report_refused(faults, names, 0, first)?;
                report_refused(faults, names, 1, second)
            }
            WriteFailure::Memory => report_words(faults, OUT_OF_MEMORY),
            WriteFailure::Unwritable => report_words(faults, UNWRITABLE),
        }
    }
}
