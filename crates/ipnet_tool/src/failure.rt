//! Why a run of the program writes no answer, or only part of it.
ghost use Rattle.std.specs.Prelude.{◌≡◌, ◌++◌, ◌+◌, ◌≤◌, ◌∷◌, [], length, Some};
ghost use Rattle.arrayvec.specs.ArrayString.{array_string_len};
ghost use Rattle.std.specs.Fmt.{DisplaysOnOk, DisplaysStyledOnOk};
ghost use Rattle.ipnet_tool.specs.FailureTexts.{failure_text, failure_line};
ghost use Rattle.ipnet_tool.specs.Statuses.{status_of};
ghost use Rattle.ipnet_tool.specs.declared.failure.Failure.TheVariants.{Memory, Unreadable};

use arrayvec::ArrayString;
use ipnet_text::ReadError;
use itoa::Buffer;
use std::alloc::AllocError;
use std::error::Error;
use std::fmt;
use std::fmt::{Display, Formatter};

pub mod laws;

/// The length of the longest line that reports a failure, with its "\n".
pub const LONGEST_LINE: usize = "line 18446744073709551615: invalid IP address syntax\n".len();

/// Why a run writes no answer, or not the whole of it. The text is the line that `program::report` writes.
///
/// ```text
/// Failure::Line(2), whose text is  line 2: invalid IP address syntax
/// ```
#[derive(Clone, Copy, Debug, Drop)]
pub enum Failure {
    /// The arguments are other than none or the one word `legacy`.
    Arguments,
    /// A read failed.
    Unreadable,
    /// The input is not UTF-8.
    NotUtf8,
    /// An allocation was refused.
    Memory,
    /// The line of this number, counted from 1 with the empty ones, is the first that is neither empty nor a
    /// network.
    Line(usize),
    /// A write failed, or the flush after it.
    Unwritable,
}

impl Failure {
    ghost use Rattle.ipnet_tool.specs.FailureTexts.{failure_text, failure_line};
    ghost use Rattle.ipnet_tool.specs.Statuses.{status_of};

    /// The exit status for this failure.
    pub(crate) fn status(self) -> u8
        ensures { result ≡ status_of self }
    {
        match self {
            Failure::Line(_) => 1,
            Failure::Arguments => 2,
            Failure::Unreadable | Failure::NotUtf8 | Failure::Memory | Failure::Unwritable => 3,
        }
    }

    /// The text of the failure.
    fn to_text(self) -> ArrayString<LONGEST_LINE>
        ensures bytes { result.bytes ≡ failure_text self }
        ensures short { array_string_len result + 1 ≤ LONGEST_LINE }
    {
        let mut text = ArrayString::new();
        match self {
            Failure::Arguments => text.push_str("ipnet: takes no argument or the word legacy"),
            Failure::Unreadable => text.push_str("ipnet: input cannot be read"),
            Failure::NotUtf8 => text.push_str("ipnet: input is not UTF-8"),
            Failure::Memory => text.push_str("ipnet: out of memory"),
            Failure::Line(number) => {
                text.push_str("line ");
                text.push_str(Buffer::new().format(number));
                text.push_str(": invalid IP address syntax");
            }
            Failure::Unwritable => text.push_str("ipnet: output cannot be written"),
        }
        text
    }

    /// The line that reports the failure: its text and a newline.
    pub(crate) fn to_line(self) -> ArrayString<LONGEST_LINE>
        ensures { result.bytes ≡ failure_line self }
    {
        let mut line = self.to_text();
        line.push_str("\n");
        line
    }
}

impl Display for Failure {
    ghost output = { λ failure. Some (failure_text failure) };

    fn fmt<W: fmt::Write>(&self, f: &mut Formatter<W>) -> fmt::Result {
        f.write_str(self.to_text().as_str())
    }
}

impl Error for Failure {}

impl From<AllocError> for Failure {
    ghost from_gives = { λ _ result. result ≡ Memory };

    /// Memory ran out.
    fn from(_: AllocError) -> Failure {
        Failure::Memory
    }
}

impl From<ReadError> for Failure {
    ghost from_gives = { λ _ result. result ≡ Unreadable };

    /// The input cannot be read.
    fn from(_: ReadError) -> Failure {
        Failure::Unreadable
    }
}
