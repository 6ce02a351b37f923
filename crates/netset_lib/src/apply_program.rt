//! The command `apply` of the program.
ghost use Rattle.std.specs.Prelude.{IsTrue};
ghost use Rattle.ipnet_sets.specs.Members.{IsMember};
ghost use Rattle.netset_lib.specs.ApplySteps.{IsChangeFailure};
ghost use Rattle.netset_lib.specs.ChangeLists.{IsChangedText};

use crate::answer::Form;
use crate::apply::changed_text;
use crate::change_line::ChangeCause;
use crate::runs::TextCommand;
use ipnet::Grammar;
use ipnet_lists::ListFailure;
use ipnet_sets::IpSet;
use std::alloc::Global;

/// The addresses that the changes make of the set, as `changed_text` makes them.
///
/// The last of the names is the name of the changes.
///
/// | Status | On `faults` | When |
/// |---|---|---|
/// | 2 | `NAME:LINE: not a change of the list: TEXT (CAUSE)`, ten at most | as `changed_text` refuses them |
/// | 2 | `netset: out of memory` | memory runs out |
/// | 2 | `netset: output cannot be written` | a write fails, or the flush after it; the answer may be out in part |
/// | 0 | nothing | otherwise |
///
/// ```text
/// 10.0.0.0/8, and "- 10.0.0.0/8\n+ 10.0.0.0/9\n": status 0, and out gets "10.0.0.0/9\n"
/// 10.0.0.0/8, and "- 10.0.0.0/9\n", named c:      status 2, and faults gets
///     "c:1: not a change of the list: - 10.0.0.0/9 (the list has no such network)\n"
/// ```
pub struct ApplyCommand<'a> {
    /// The allocator.
    pub alloc: Global,
    /// The set.
    pub set: IpSet,
    /// The changes.
    pub changes: &'a [u8],
    /// The grammar of the changes.
    pub grammar: Grammar,
    /// The form of the answer.
    pub form: Form,
}

impl<'a> TextCommand for ApplyCommand<'a> {
    type Text = String;

    type Failure = ListFailure<ChangeCause>;

    ghost is_answer = { λ c text. IsChangedText c.form c.grammar (IsMember c.set) c.changes.now text };

    ghost is_outcome = { λ _ succeeded. IsTrue succeeded };

    ghost is_failure = { λ c. IsChangeFailure c.grammar (IsMember c.set) c.changes.now };

    fn answer(self) -> Result<(String, bool), ListFailure<ChangeCause>> {
        let ApplyCommand {
            alloc,
            set,
            changes,
            grammar,
            form,
        } = self;
        match changed_text(alloc, form, &set, changes, grammar) {
            Ok(text) => Ok((text, true)),
            Err(failure) => Err(failure),
        }
    }
}
