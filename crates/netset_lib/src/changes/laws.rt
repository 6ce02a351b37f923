//! Facts about changes, each the contract of a function that computes nothing.
ghost use Rattle.std.specs.Prelude.{◌≡◌, ◌⊎◌, ◌↔◌, List, [], Contains};
ghost use Rattle.ipnet_base.specs.Network.{Network};
ghost use Rattle.netset_lib.specs.Changes.{ListChange, Added, Removed, AreChanges};

/// The changes from one list to another make the other list: its networks are the networks of the first that no change
/// removes, and the networks that are added. A list has no changes to itself.
pub fn changes_make_the_other_list()
    ensures made { (before after : List Network) → (changes : List ListChange) → AreChanges before after changes
        → (n : Network) → Contains after n
        ↔ ((Contains before n × ¬ (Contains changes (Removed n))) ⊎ Contains changes (Added n)) }
    ensures none { (networks : List Network) → (changes : List ListChange) → AreChanges networks networks changes
        → changes ≡ [] }
{}
