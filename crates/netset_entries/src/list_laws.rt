//! Facts about results over sets that were read from lists, each the contract of a function that computes nothing.
//!
//! `SetReader` of `netset_lib` says which set a list has. So the answer over the sets is the answer over the lists.
ghost use Rattle.std.specs.Prelude.{◌↔◌, ℕ, List, IsTrue};
ghost use Rattle.ipnet_sets.specs.Members.{IsMember};
ghost use Rattle.netset_entries.specs.Lengths.{AreLengthLines, IsLengthsAnswer};
ghost use Rattle.netset_entries.specs.ListPairs.{ArePairs, HaveAllSame, IsPairsAnswer, IsPairsOutcome};
ghost use Rattle.netset_lib.specs.Combinations.{OfUnion};
ghost use Rattle.netset_lib.specs.SetsOf.{AreSetsOf};

use ipnet::Grammar;
use ipnet_sets::IpSet;

/// The prefix lengths of the union of sets are those of their lists.
pub fn prefix_lengths_are_of_their_lists(grammar: Grammar, sets: &[IpSet], text: &[u8])
    ensures { (lists : List (List ℕ)) → AreSetsOf grammar lists sets.now
        → OfUnion (λ set. AreLengthLines (IsMember set) text.now) sets.now → IsLengthsAnswer grammar lists text.now }
{}

/// The lines of pairs of sets are those of the pairs of their lists. The sets are all the same iff the lists are.
pub fn pairs_are_of_their_lists(
    grammar: Grammar,
    names: &[&str],
    sets: &[IpSet],
    text: &[u8],
    same: bool,
)
    ensures text { (lists : List (List ℕ)) → AreSetsOf grammar lists sets.now
        → ArePairs IsMember names.now sets.now text.now → IsPairsAnswer names.now grammar lists text.now }
    ensures same { (lists : List (List ℕ)) → AreSetsOf grammar lists sets.now
        → (IsTrue same ↔ HaveAllSame IsMember sets.now) → IsPairsOutcome grammar lists same }
{}
