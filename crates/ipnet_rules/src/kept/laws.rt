//! Laws of the rules that `kept_rules` keeps.
ghost use Rattle.std.specs.Prelude.{◌≢◌, ◌<◌, ℕ, Bool, List, length};
ghost use Rattle.ipnet_base.specs.Address.{Address};
ghost use Rattle.ipnet_rules.specs.KeptRules.{AreKept, IsKept};
ghost use Rattle.ipnet_rules.specs.UnreachedRules.{MatchesAt};
ghost use Rattle.ipnet_rules.specs.declared.rules.Rule.{Rule};

/// The kept rules match each address that a rule of the list matches.
pub fn kept_rules_are_enough()
    ensures { (rules : List Rule) → (kept : List Bool) → AreKept (MatchesAt rules) (length rules) kept
        → (i : ℕ) → i < length rules → (x : Address) → MatchesAt rules i x
        → ((k : ℕ) × IsKept kept k × MatchesAt rules k x) }
{}

/// The other kept rules do not match all addresses of a kept rule.
pub fn kept_rules_are_needed()
    ensures { (rules : List Rule) → (kept : List Bool) → AreKept (MatchesAt rules) (length rules) kept
        → (i : ℕ) → IsKept kept i
        → ¬ ((x : Address) → MatchesAt rules i x → ((k : ℕ) × (k ≢ i) × IsKept kept k × MatchesAt rules k x)) }
{}
