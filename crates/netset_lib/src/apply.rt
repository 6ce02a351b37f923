//! The addresses that a list of changes makes of a set.
ghost use Rattle.std.specs.Prelude.{◌↔◌, IfOk, IfErr, OnOk, All, Some, string_bytes};
ghost use Rattle.ipnet_base.specs.Address.{Address};
ghost use Rattle.ipnet_sets.specs.Members.{IsMember};
ghost use Rattle.netset_lib.specs.ApplySteps.{AreChangesRead, AreParts, AddsPart, parts_of};
ghost use Rattle.netset_lib.specs.ApplySteps.{IsChangeFailure};
ghost use Rattle.netset_lib.specs.ChangeLists.{IsAnswerNetwork, Fits, IsFittingChange, IsChangeCause, IsInChanged};
ghost use Rattle.netset_lib.specs.ChangeLists.{IsChangedText};
ghost use Rattle.netset_lib.specs.ChangeSteps.{change_of};
ghost use Rattle.netset_lib.specs.declared.change_line.ChangeCause.TheVariants.{NoNetwork};
ghost use Rattle.netset_lib.specs.declared.network_entry.NetworkCause.TheVariants.{NoEntry};
ghost use Rattle.ipnet_lists.specs.declared.cause.Cause.TheVariants.{CarriageReturn};

pub mod laws;

use crate::answer::{Form, set_text};
use crate::change_line::{ChangeCause, read_change};
use crate::changes::Change;
use crate::network_entry::NetworkCause;
use ipnet::{Grammar, IpNet};
use ipnet_lists::{Cause, ContentLine, LineHandler, ListFailure, Refusals, read_lines};
use ipnet_sets::IpSet;
use std::alloc::{AllocError, Global};

/// The networks that changes add, and those that they remove.
#[derive(Drop)]
struct Parts {
    added: Vec<IpNet>,
    removed: Vec<IpNet>,
}

/// Appends the network of the change to those that are added, or to those that are removed. Fails if memory runs out.
fn push_part(parts: &mut Parts, change: Change) -> Result<(), AllocError>
    ensures { OnOk result (AddsPart (change_of change) (parts_of parts.old) (parts_of parts.new)) }
{
    match change {
        Change::Added(network) => {
            parts.added.push(network)?;
        }
        Change::Removed(network) => {
            parts.removed.push(network)?;
        }
    }
    Ok(())
}

/// The networks of the changes of a set that were read, and the refused lines.
#[derive(Drop)]
struct ChangeList {
    parts: Parts,
    refused: Refusals<ChangeCause>,
}

/// Takes the changes of a set's networks.
#[derive(Drop)]
struct ChangeReader<'s> {
    set: &'s IpSet,
    grammar: Grammar,
}

impl<'a, 's> LineHandler<'a, Parts, ChangeCause> for ChangeReader<'s> {
    ghost takes = { λ h line old new. (change : _)
        × IsFittingChange h.grammar (IsAnswerNetwork (IsMember h.set.now)) line.text change
        × AddsPart change (parts_of old) (parts_of new) };

    ghost is_cause = { λ h. IsChangeCause h.grammar (IsAnswerNetwork (IsMember h.set.now)) };

    ghost broken = { λ h. NoNetwork (NoEntry (Some CarriageReturn)) };

    fn refuse_broken(&self) -> ChangeCause {
        ChangeCause::NoNetwork(NetworkCause::NoEntry(Some(Cause::CarriageReturn)))
    }

    fn take(
        &self,
        made: &mut Parts,
        line: ContentLine<'a>,
    ) -> Result<Result<(), ChangeCause>, AllocError> {
        match read_change(self.set, line.text, self.grammar) {
            Ok(change) => {
                push_part(made, change)?;
                Ok(Ok(()))
            }
            Err(cause) => Ok(Err(cause)),
        }
    }
}

/// Reads the changes of the set's networks. Fails if memory runs out.
fn read_changes(
    alloc: Global,
    set: &IpSet,
    bytes: &[u8],
    grammar: Grammar,
) -> Result<ChangeList, AllocError>
    ensures { IfOk result (AreChangesRead grammar (IsAnswerNetwork (IsMember set.now)) bytes.now) }
{
    let mut parts = Parts {
        added: Vec::new(alloc),
        removed: Vec::new(alloc),
    };
    let refused = read_lines(alloc, bytes, &ChangeReader { set, grammar }, &mut parts)?;
    Ok(ChangeList { parts, refused })
}

/// Returns the addresses of the set's networks after the changes.
fn changed_set(alloc: Global, set: &IpSet, parts: Parts) -> Result<IpSet, AllocError>
    ensures { IfOk result (λ s. (changes : _) → AreParts changes (parts_of parts)
        → All (Fits (IsAnswerNetwork (IsMember set.now))) changes
        → (x : Address) → IsMember s x ↔ IsInChanged (IsAnswerNetwork (IsMember set.now)) changes x) }
{
    let Parts { added, removed } = parts;
    let added = IpSet::from_networks(alloc, added.as_slice())?;
    let removed = IpSet::from_networks(alloc, removed.as_slice())?;
    let kept = set.difference(alloc, &removed)?;
    kept.union(alloc, &added)
}

/// Returns the addresses that changes make of a set, in this form. The changes are of its fewest networks, and are
/// spelled as `changes_text` spells them: `+` or `-`, blanks, and a network or an address, one a line. Blanks, comments
/// and a byte order mark do not matter, nor do the order of the lines and repeated lines.
///
/// The error is `Refused` if a line is not a change, adds a network that is one of the set's, or removes one that is
/// not; it has the first ten such lines and their number. The error is `Memory` if memory runs out.
///
/// ```text
/// of 10.0.0.0/8, "- 10.0.0.0/8\n+ 10.0.0.0/9\n+ ::1\n": "10.0.0.0/9\n::1/128\n"
/// of 10.0.0.0/8, "+ 10.128.0.0/9\n":                     "10.0.0.0/8\n"
/// of 10.0.0.0/8, "- 10.128.0.0/9\n":                     Refused, because 10.128.0.0/9 is absent
/// ```
pub fn changed_text(
    alloc: Global,
    form: Form,
    set: &IpSet,
    bytes: &[u8],
    grammar: Grammar,
) -> Result<String, ListFailure<ChangeCause>>
    ensures text { IfOk result (λ text.
        IsChangedText form grammar (IsMember set.now) bytes.now (string_bytes text)) }
    ensures failure { IfErr result (IsChangeFailure grammar (IsMember set.now) bytes.now) }
{
    let ChangeList { parts, refused } = read_changes(alloc, set, bytes, grammar)?;
    if refused.count != 0 {
        return Err(ListFailure::Refused(refused));
    }
    let changed = changed_set(alloc, set, parts)?;
    Ok(set_text(alloc, form, &changed)?)
}
