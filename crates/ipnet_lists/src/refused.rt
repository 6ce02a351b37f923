//! The lines of lists that are refused.
ghost use Rattle.std.specs.Prelude.{◌≡◌, ◌≤◌, ℕ, List, [], ◌∷◌, ◌++◌, length, take, Option, OnOk};
ghost use Rattle.ipnet_lists.specs.Explanations.{words_of};

use crate::cause::NotEntry;
use crate::number::next_number;
use std::alloc::{AllocError, Global};

/// At most this many refused lines are reported.
const MOST_LINES: usize = 10;

/// The words of a report for a refused text: what it is not, and why.
///
/// ```text
/// of 10.0.0.0/33: what "not a network, an address or a range", why "the prefix length is above 32"
/// ```
#[derive(Clone, Copy, Debug)]
pub struct Explanation {
    /// The words for what the text is not.
    pub what: &'static str,
    /// Why, if that can be named.
    pub why: Option<&'static str>,
}

/// Why a line is refused.
pub trait LineCause: Drop {
    /// The relation of a cause, the text that is refused for it, what the text is not, and the reason.
    ghost explains: { Self → List ℕ → List ℕ → Option (List ℕ) → Type 0 };

    /// Returns what this text is not, and why. The text is refused for this cause.
    fn explain(&self, text: &[u8]) -> Explanation
        ensures { explains self.now text.now result.what.now (words_of result.why) };
}

/// A line that is refused, or the part of it that is.
///
/// ```text
/// of the list "10.0.0.0/8\nx # y\n", the second one named: list 1, number 2, text "x"
/// ```
#[derive(Debug, Drop)]
pub struct Refused<C> {
    /// The index of its list among the lists that were read, from 0.
    pub list: usize,
    /// Its number, from 1.
    pub number: usize,
    /// The refused part: if the line is not an entry, its contents, without a comment and blanks around them.
    pub text: Vec<u8>,
    /// Why it is refused.
    pub cause: C,
}

/// A refused line whose text is part of the list's bytes. It has the fields of `Refused`.
#[derive(Drop)]
pub struct RefusedPart<'a, C> {
    /// The index of its list.
    pub list: usize,
    /// Its number.
    pub number: usize,
    /// The refused part.
    pub text: &'a [u8],
    /// Why it is refused.
    pub cause: C,
}

/// The refused lines of all lists that were read: the first ten, and the number of all.
#[derive(Debug, Drop)]
pub struct Refusals<C> {
    /// The first ten of them.
    pub shown: Vec<Refused<C>>,
    /// The number of all of them.
    pub count: usize,
    ghost few: { length shown.items ≤ 10 },
}

/// A line that is not an entry. `line.cause.cause(line.text.as_slice())` is why, if a cause can be named.
pub type RefusedLine = Refused<NotEntry>;

/// The lines of lists that are not entries.
pub type RefusedLines = Refusals<NotEntry>;

impl<C: Drop> Refusals<C> {
    ghost use Rattle.ipnet_lists.specs.RefusedLines.{AreRefused, HasMore, shown_refusals, most_shown};
    ghost use Rattle.ipnet_lists.specs.RefusedParts.{refusal_in};

    /// No line.
    pub fn new(alloc: Global) -> Refusals<C>
        ensures { AreRefused result [] }
    {
        Refusals {
            shown: Vec::new(alloc),
            count: 0,
        }
    }

    /// Adds a line, and why it is refused. Fails if memory runs out, or if there are more lines than a `usize` counts.
    pub fn push(&mut self, alloc: Global, part: RefusedPart<'_, C>) -> Result<(), AllocError>
        ensures { OnOk result (HasMore self.old self.new (refusal_in part.entry ∷ [])) }
    {
        let count = next_number(self.count)?;
        self.keep(alloc, part)?;
        self.count = count;
        Ok(())
    }

    /// Keeps the line, if it is one of the first ten.
    fn keep(&mut self, alloc: Global, part: RefusedPart<'_, C>) -> Result<(), AllocError>
        ensures shown { OnOk result (shown_refusals self.new
            ≡ take most_shown (shown_refusals self.old ++ refusal_in part.entry ∷ [])) }
        ensures count { self.new.count ≡ self.old.count }
    {
        if self.shown.len() == MOST_LINES {
            return Ok(());
        }
        let text = part.text.to_vec(alloc)?;
        self.shown.push(Refused {
            list: part.list,
            number: part.number,
            text,
            cause: part.cause,
        })?;
        Ok(())
    }
}
