//! Facts about results over sets that were read from lists, each the contract of a function that computes nothing.
//!
//! `SetReader` says which set a list has. So the answer over the sets is the answer over the lists.
ghost use Rattle.std.specs.Prelude.{◌↔◌, ◌∷◌, [], ℕ, List, IsTrue};
ghost use Rattle.ipnet_sets.specs.Members.{IsMember};
ghost use Rattle.netset_lib.specs.Answers.{AreListsRead, IsAnswer, IsNamedOperation};
ghost use Rattle.netset_lib.specs.Combinations.{HasFamily, IsCombinedText, operation_of, sets_of};
ghost use Rattle.netset_lib.specs.Counts.{IsComparison, IsCompareAnswer, IsCountAnswer, IsCountText, HaveSame};
ghost use Rattle.netset_lib.specs.Replies.{AreCompared};
ghost use Rattle.netset_lib.specs.SetsOf.{AreSetsOf};

use crate::answer::Form;
use crate::operation::Combination;
use ipnet::Grammar;
use ipnet_sets::IpSet;

/// The text of an operation on sets is the answer over their lists. If a complement for the families of a set has no
/// family, the list has no entry.
pub fn an_operation_answers_its_lists(
    form: Form,
    grammar: Grammar,
    combination: &Combination,
    text: &[u8],
)
    ensures answer { (lists : List (List ℕ)) → AreSetsOf grammar lists (sets_of combination.now)
        → IsCombinedText combination.now form text.now
        → IsAnswer (operation_of combination.now) grammar form lists text.now }
    ensures no_family { (lists : List (List ℕ)) → AreSetsOf grammar lists (sets_of combination.now)
        → ¬ (HasFamily combination.now)
        → IsNamedOperation (operation_of combination.now) × AreListsRead grammar 0 lists ([] ∷ []) [] }
{}

/// The counts of sets are the counts of their lists.
pub fn a_count_is_of_its_lists(grammar: Grammar, names: &[&str], sets: &[IpSet], text: &[u8])
    ensures { (lists : List (List ℕ)) → AreSetsOf grammar lists sets.now
        → IsCountText IsMember names.now sets.now text.now → IsCountAnswer names.now grammar lists text.now }
{}

/// A comparison of two sets is the comparison of their lists.
pub fn a_comparison_is_of_its_lists(
    grammar: Grammar,
    first: &IpSet,
    second: &IpSet,
    text: &[u8],
    same: bool,
)
    ensures text { (lists : List (List ℕ)) → AreSetsOf grammar lists (first.now ∷ second.now ∷ [])
        → IsComparison (IsMember first.now) (IsMember second.now) text.now → IsCompareAnswer grammar lists text.now }
    ensures same { (lists : List (List ℕ)) → AreSetsOf grammar lists (first.now ∷ second.now ∷ [])
        → (IsTrue same ↔ HaveSame (IsMember first.now) (IsMember second.now)) → AreCompared grammar lists same }
{}
