//! Facts about changes that are applied, each the contract of a function that computes nothing.
ghost use Rattle.std.specs.Prelude.{List};
ghost use Rattle.ipnet_lists.specs.Lists.{RefusalFor};
ghost use Rattle.ipnet_sets.specs.Members.{IsMember};
ghost use Rattle.netset_lib.specs.Answers.{IsSetText};
ghost use Rattle.netset_lib.specs.Changes.{AreChangeLines};
ghost use Rattle.netset_lib.specs.ChangeLists.{IsChangedText, HasRefusedChanges};
ghost use Rattle.netset_lib.specs.declared.change_line.ChangeCause.{ChangeCause};

use crate::answer::Form;
use ipnet::Grammar;
use ipnet_sets::IpSet;

/// The changes from one set to another, applied to the first set, give the text of the other set. None of them is
/// refused, in either grammar.
pub fn applied_changes_make_the_other_answer(
    form: Form,
    grammar: Grammar,
    before: &IpSet,
    after: &IpSet,
    changes: &[u8],
    text: &[u8],
)
    ensures answer { AreChangeLines (IsMember before.now) (IsMember after.now) changes.now
        → IsChangedText form grammar (IsMember before.now) changes.now text.now
        → IsSetText form (IsMember after.now) text.now }
    ensures accepted { (refused : List (RefusalFor ChangeCause))
        → AreChangeLines (IsMember before.now) (IsMember after.now) changes.now
        → ¬ (HasRefusedChanges grammar (IsMember before.now) changes.now refused) }
{}
