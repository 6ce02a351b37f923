//! The lines of a list that are not empty, taken one after another, and the lines that are refused.
ghost use Rattle.std.specs.Prelude.{◌≡◌, ◌↔◌, List, ℕ, IsTrue, IfOk, OnOk, Any};
ghost use Rattle.ipnet.specs.Lines.{lines_of};
ghost use Rattle.ipnet_lists.specs.ContentLines as lists;
ghost use Rattle.ipnet_lists.specs.ContentLines.{IsSomeLine, IsTaken, IsTakenList, AddsTaken, OrBroken, refused_line};
ghost use Rattle.ipnet_lists.specs.ContentLineOf.{line_of};
ghost use Rattle.ipnet_lists.specs.Lists.{after_mark};
ghost use Rattle.ipnet_lists.specs.RefusedLines.{AreRefused};
ghost use Rattle.ipnet_lists.specs.RefusedParts.{refusal_in};
ghost use Rattle.ipnet_lists.specs.declared.content_line.ListFailure.TheVariants.{Memory};

use crate::bytes::has_byte;
use crate::comment::contents_of;
use crate::mark::skip_mark;
use crate::number::next_number;
use crate::reader::first_line_of_bytes;
use crate::refused::{LineCause, Refusals, RefusedPart};
use std::alloc::{AllocError, Global};

/// A line that is not empty.
///
/// ```text
/// of "10.0.0.0/8\n\n10.0.0.1 # x\n", the second one: number 3, text "10.0.0.1"
/// ```
#[derive(Clone, Copy)]
pub struct ContentLine<'a> {
    /// Its number, from 1.
    pub number: usize,
    /// Its contents, without a comment and blanks around them.
    pub text: &'a [u8],
}

/// Takes the lines of a list, one after another, and makes a value of type `M` of them. It refuses a line with a cause
/// of type `C`.
pub trait LineHandler<'a, M, C> {
    /// The line makes the second value of the first.
    ghost takes: { Self → lists.ContentLine → M → M → Type 0 };

    /// Why a line with these contents, without a carriage return in them, is refused.
    ghost is_cause: { Self → List ℕ → C → Type 0 };

    /// Why a line with a carriage return in its contents is refused.
    ghost broken: { Self → C };

    /// Returns why a line with a carriage return in its contents is refused.
    fn refuse_broken(&self) -> C
        ensures { result ≡ broken self.now };

    /// Takes the line, or returns why it is refused. Fails if memory runs out.
    fn take(&self, made: &mut M, line: ContentLine<'a>) -> Result<Result<(), C>, AllocError>
        ensures { IfOk result (IsTaken (takes self.now (line_of line.entry) made.old made.new)
            (is_cause self.now line.entry.text.now) (made.new ≡ made.old)) };
}

/// Why a list has no answer.
#[derive(Debug, Drop)]
pub enum ListFailure<C> {
    /// These lines are refused.
    Refused(Refusals<C>),
    /// Memory ran out.
    Memory,
}

impl<C: Drop> From<AllocError> for ListFailure<C> {
    ghost from_gives = { λ _ result. result ≡ Memory };

    fn from(_: AllocError) -> ListFailure<C> {
        ListFailure::Memory
    }
}

/// Returns whether a line of the bytes is not empty, without its comment and blanks.
///
/// ```text
/// "# nothing\n\n": false; "x\n": true
/// ```
pub fn has_lines(bytes: &[u8]) -> bool
    ensures { IsTrue result ↔ Any IsSomeLine (lines_of (after_mark bytes.now)) }
{
    let mut rest = skip_mark(bytes);
    'lines: while !rest.is_empty() {
        let (line, after) = first_line_of_bytes(rest);
        if !contents_of(line).is_empty() {
            return true;
        }
        rest = after;
    }
    false
}

/// The line, refused for this cause.
fn refused_part<'a, C>(line: ContentLine<'a>, cause: C) -> RefusedPart<'a, C>
    ensures { refusal_in result ≡ refused_line (line_of line.entry) cause }
{
    RefusedPart {
        list: 0,
        number: line.number,
        text: line.text,
        cause,
    }
}

/// Hands the line over, unless it is empty or has a carriage return in its contents, and keeps it if it is refused.
/// Fails if memory runs out, or if there are more lines than a `usize` counts.
fn take_line<'a, M, C: Drop, H: LineHandler<'a, M, C>>(
    alloc: Global,
    handler: &H,
    made: &mut M,
    refused: &mut Refusals<C>,
    line: ContentLine<'a>,
) -> Result<(), AllocError>
    ensures { OnOk result (AddsTaken (H.takes handler.now) (OrBroken (H.broken handler.now) (H.is_cause handler.now))
        (line_of line.entry) made.old made.new refused.old refused.new) }
{
    if line.text.is_empty() {
        return Ok(());
    }
    if has_byte(line.text, b'\r') {
        let cause = handler.refuse_broken();
        return refused.push(alloc, refused_part(line, cause));
    }
    match handler.take(made, line)? {
        Ok(()) => Ok(()),
        Err(cause) => refused.push(alloc, refused_part(line, cause)),
    }
}

/// Hands over the lines of the bytes that are not empty, without comments and blanks around their contents, and returns
/// the refused lines. A line with a carriage return between other bytes than blanks is refused. A byte order mark at
/// the start is skipped. Fails if memory runs out.
///
/// ```text
/// "10.0.0.0/8 # ours\n\n::1\n": line 1, "10.0.0.0/8", and line 3, "::1"
/// ```
pub fn read_lines<'a, M, C: Drop, H: LineHandler<'a, M, C>>(
    alloc: Global,
    bytes: &'a [u8],
    handler: &H,
    made: &mut M,
) -> Result<Refusals<C>, AllocError>
    ensures { IfOk result (λ refused. (refusals : _)
        × IsTakenList (H.takes handler.now) (OrBroken (H.broken handler.now) (H.is_cause handler.now)) bytes.now
        made.old made.new refusals
        × AreRefused refused refusals) }
{
    let mut refused = Refusals::new(alloc);
    let mut number: usize = 0;
    let mut rest = skip_mark(bytes);
    'lines: while !rest.is_empty() {
        let (line, after) = first_line_of_bytes(rest);
        number = next_number(number)?;
        let text = contents_of(line);
        take_line(
            alloc,
            handler,
            made,
            &mut refused,
            ContentLine { number, text },
        )?;
        rest = after;
    }
    Ok(refused)
}
