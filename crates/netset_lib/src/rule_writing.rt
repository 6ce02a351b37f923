//! The rules that decide on no address, found and written one after the other, so that an answer of any length takes
//! little memory.
ghost use Rattle.std.specs.Prelude.{◌≡◌, ◌++◌, ℕ, List, length, map, IfOk, IfErr, OnOk};
ghost use Rattle.std.specs.Io.{StartsWith};
ghost use Rattle.std.specs.Io.KnownBytes.{Appends};
ghost use Rattle.ipnet_rules.specs.Decisions.{AreDecisions};
ghost use Rattle.ipnet_text.specs.Outputs.{IsWritten, IsFrontWritten};
ghost use Rattle.ipnet_text.specs.Pieces.{IsInPieces};
ghost use Rattle.netset_lib.specs.RuleAnswers.{AreUnreachedLines, IsRuleFailure};
ghost use Rattle.netset_lib.specs.RuleContentsOf.{contents_of, line_of_rule};
ghost use Rattle.netset_lib.specs.RuleWriting.{AreAnswered, IsPrepared, rule_lines, contents_in};

use crate::piece_failure::PieceFailure;
use crate::rule_answer::push_rule;
use crate::rule_cause::RuleCause;
use crate::rule_list::{RuleLine, RuleList};
use crate::write::{write_and_flush, write_if_long};
use ipnet_lists::ListFailure;
use ipnet_rules::{Decisions, Rule, Unreached};
use std::alloc::{AllocError, Global};
use std::io::Write;

/// The rules of a list, what they decide, their lines, and whether one of them decides on no address.
#[derive(Drop)]
pub(crate) struct Prepared {
    pub(crate) alloc: Global,
    pub(crate) rules: Vec<Rule>,
    pub(crate) decisions: Decisions,
    pub(crate) lines: Vec<RuleLine>,
    pub(crate) has_unreached: bool,
}

/// Returns whether one of the rules decides on no address. It finds all of them, one after the other, as they are found
/// to be written, so memory runs out here rather than there.
fn has_unreached(alloc: Global, rules: &[Rule], decisions: &Decisions) -> Result<bool, AllocError>
    requires { AreDecisions rules.now decisions.now }
    ensures { IfOk result (AreAnswered rules.now (length rules.now)) }
{
    let mut some = false;
    for place in 0..rules.len() {
        if let Some(_unreached) = decisions.unreached(alloc, rules, place)? {
            some = true;
        }
    }
    Ok(some)
}

/// Returns what the rules of the list decide, and whether one of them decides on no address.
fn decided(list: RuleList) -> Result<Prepared, AllocError>
    ensures { IfOk result (IsPrepared (contents_of list)) }
{
    let RuleList {
        alloc,
        rules,
        lines,
        ..
    } = list;
    let decisions = Decisions::of(alloc, rules.as_slice())?;
    let has_unreached = has_unreached(alloc, rules.as_slice(), &decisions)?;
    Ok(Prepared {
        alloc,
        rules,
        decisions,
        lines,
        has_unreached,
    })
}

/// Returns what is to be written of the list.
pub(crate) fn prepare(list: RuleList) -> Result<Prepared, ListFailure<RuleCause>>
    ensures none { IfOk result (λ _. list.refused.count ≡ 0) }
    ensures prepared { IfOk result (IsPrepared (contents_of list)) }
    ensures failure { IfErr result (IsRuleFailure list) }
{
    if list.refused.count != 0 {
        return Err(ListFailure::Refused(list.refused));
    }
    match decided(list) {
        Ok(prepared) => Ok(prepared),
        Err(_) => Err(ListFailure::Memory),
    }
}

/// Appends the lines of the unreached rule to the piece, and writes a piece that is long.
fn put_rule<W: Write>(
    out: &mut W,
    piece: &mut Vec<u8>,
    lines: &[RuleLine],
    unreached: &Unreached,
) -> Result<(), PieceFailure>
    ensures whole { let text = rule_lines (map line_of_rule lines.now) unreached.now in OnOk result
        (IsInPieces (W.contents out.old) (W.contents out.new) piece.new.items (piece.old.items ++ text)) }
    ensures front { let text = rule_lines (map line_of_rule lines.now) unreached.now in
        (front : List ℕ) × StartsWith (piece.old.items ++ text) front
        × Appends (W.contents out.old) (W.contents out.new) front }
{
    push_rule(piece, lines, unreached)?;
    write_if_long(out, piece)?;
    Ok(())
}

/// Writes the lines of the unreached rules, and flushes the writer. If that fails, a front of the lines may be written.
pub(crate) fn write_unreached<W: Write>(
    out: &mut W,
    prepared: &Prepared,
) -> Result<(), PieceFailure>
    requires { IsPrepared (contents_in prepared.now) prepared.now }
    ensures whole { OnOk result
        (IsWritten (AreUnreachedLines (contents_in prepared.now)) (W.contents out.old) (W.contents out.new)) }
    ensures front { IsFrontWritten (AreUnreachedLines (contents_in prepared.now))
        (W.contents out.old) (W.contents out.new) }
{
    let rules = prepared.rules.as_slice();
    let mut piece = Vec::new(prepared.alloc);
    for place in 0..rules.len() {
        let found = prepared.decisions.unreached(prepared.alloc, rules, place)?;
        if let Some(unreached) = found {
            put_rule(out, &mut piece, prepared.lines.as_slice(), &unreached)?;
        }
    }
    if write_and_flush(out, piece.as_slice()) {
        Ok(())
    } else {
        Err(PieceFailure::Unwritable)
    }
}
