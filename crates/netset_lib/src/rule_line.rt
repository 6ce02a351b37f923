//! A line of a list of rules: `permit` or `deny`, and what names its addresses.
ghost use Rattle.std.specs.Prelude.{◌≡◌, ◌↔◌, IfOk, IfErr, Some};
ghost use Rattle.ipnet_base.specs.Address.{Address};
ghost use Rattle.ipnet_rules.specs.declared.rules.Action.{Action};
ghost use Rattle.ipnet_rules.specs.Rules.{Matches};
ghost use Rattle.ipnet_sets.specs.SetRanges.{IsInRange};
ghost use Rattle.ipnet_lists.specs.EntryOf.{entry_range};
ghost use Rattle.netset_lib.specs.RuleLines.{word_of, IsRuleText, IsNoRule, IsRuleCause};

use crate::rule_addresses::{addresses_cause, addresses_of, read_addresses};
use crate::rule_cause::RuleCause;
use ipnet::Grammar;
use ipnet_lists::{Entry, cut_word};
use ipnet_rules::{Action, Rule};

/// Returns the action of this word, or `None` if it has none.
pub(crate) fn action_of(word: &[u8]) -> Option<Action>
    ensures { (action : Action) → (result ≡ Some action) ↔ (word.now ≡ word_of action) }
{
    if word == b"permit".as_slice() {
        Some(Action::Permit)
    } else if word == b"deny".as_slice() {
        Some(Action::Deny)
    } else {
        None
    }
}

/// Returns the rule for the addresses of the entry.
///
/// ```text
/// Permit and Address(10.0.0.1): permit 10.0.0.1-10.0.0.1
/// ```
pub fn rule_for(action: Action, entry: Entry) -> Rule
    ensures action { result.action ≡ action }
    ensures matched { (x : Address) → Matches result x ↔ IsInRange (entry_range entry) x }
{
    Rule {
        action,
        addresses: addresses_of(entry),
    }
}

/// Returns the rule that the text is, or why it is not one.
pub(crate) fn read_rule(text: &[u8], grammar: Grammar) -> Result<Rule, RuleCause>
    ensures rule { IfOk result (IsRuleText grammar text.now) }
    ensures none { IfErr result (λ _. IsNoRule grammar text.now) }
    ensures cause { IfErr result (IsRuleCause grammar text.now) }
{
    let (word, rest) = cut_word(text);
    let Some(action) = action_of(word) else {
        return Err(RuleCause::UnknownWord);
    };
    match read_addresses(rest, grammar) {
        Some(addresses) => Ok(Rule { action, addresses }),
        None => Err(addresses_cause(rest, grammar)),
    }
}
