//! The lines that are refused for one of their words.
ghost use Rattle.std.specs.Prelude.{◌≡◌};
ghost use Rattle.netset_words.specs.WordReports.{word_words, ExplainsWord};

use ipnet_lists::{Explanation, LineCause, Refusals, Refused};

/// Why a line is refused.
#[derive(Clone, Copy, Debug, PartialEq, Eq, Drop)]
pub enum WordCause {
    /// The line has a NUL byte.
    NulByte,
    /// A word of the line is an IPv4 netmask of length 1 to 31, so its length belongs to an address.
    Netmask,
    /// The first MiB of the line does not decide whether it is printed.
    Undecided,
}

impl WordCause {
    /// The words of a report.
    fn words(self) -> &'static str
        ensures { result.now ≡ word_words self }
    {
        match self {
            WordCause::NulByte => "a NUL byte: is the file UTF-16?",
            WordCause::Netmask => "a mask: write ADDRESS/LENGTH",
            WordCause::Undecided => "undecided after 1 MiB",
        }
    }
}

impl LineCause for WordCause {
    ghost explains = { ExplainsWord };

    fn explain(&self, _: &[u8]) -> Explanation {
        Explanation {
            what: self.words(),
            why: None,
        }
    }
}

/// A line that is refused: the first netmask, or the whole line if it has a NUL byte; of an undecided line of a log the
/// first 101 bytes. The index of a log is 1.
///
/// ```text
/// of the text "ip route 10.0.0.0 255.0.0.0\n", the second one named: list 1, line 1, text "255.0.0.0", Netmask
/// ```
pub type RefusedWord = Refused<WordCause>;

/// The refused lines of all texts that were read.
pub type RefusedWords = Refusals<WordCause>;
