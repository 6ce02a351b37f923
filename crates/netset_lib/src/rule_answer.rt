//! The queries on a list of rules: the addresses that it permits, and the rules that decide on no address.
ghost use Rattle.std.specs.Prelude.{◌≡◌, ◌↔◌, ◌++◌, IfOk, IfErr, OnOk, map};
ghost use Rattle.ipnet_base.specs.Address.{Address};
ghost use Rattle.ipnet_sets.specs.Members.{IsMember};
ghost use Rattle.ipnet_lists.specs.RefusedLines.{refusal_of, shown_refusals};
ghost use Rattle.netset_lib.specs.RuleAnswers.{IsPermittedBy, line_text, line_at, covering_lines};
ghost use Rattle.netset_lib.specs.RuleAnswers.{IsRuleFailure, unreached_lines, AreUnreachedLines, IsPermittedSet};
ghost use Rattle.netset_lib.specs.RuleContentsOf.{contents_of, line_of_rule};
ghost use Rattle.netset_lib.specs.RuleWriting.{rule_lines};

use crate::numbered::push_numbered;
use crate::rule_cause::RuleCause;
use crate::rule_list::{RuleLine, RuleList};
use ipnet_lists::{ListFailure, Refused};
use ipnet_rules::{Action, Rule, Rules, Unreached};
use ipnet_sets::IpSet;
use std::alloc::{AllocError, Global};

/// Returns the set of the addresses that the rules permit.
fn permitted_set(alloc: Global, rules: Vec<Rule>, default: Action) -> Result<IpSet, AllocError>
    ensures { IfOk result (IsPermittedSet default rules.items) }
{
    let rules = Rules {
        list: rules,
        default,
    };
    rules.permitted(alloc)
}

/// Appends the number of the line and its text.
fn push_line(text: &mut Vec<u8>, line: &RuleLine) -> Result<(), AllocError>
    ensures { OnOk result (text.new.items ≡ text.old.items ++ line_text (line_of_rule line.now)) }
{
    push_numbered(text, line.number, line.text.as_slice())?;
    text.extend_from_slice(b"\n")
}

/// Appends the line at this index, if there is one.
fn push_line_at(text: &mut Vec<u8>, lines: &[RuleLine], index: usize) -> Result<(), AllocError>
    ensures { OnOk result (text.new.items ≡ text.old.items ++ line_at (map line_of_rule lines.now) index) }
{
    match lines.get(index) {
        Some(line) => push_line(text, line),
        None => Ok(()),
    }
}

/// Appends the lines at these indexes, each after two spaces.
fn push_covering(
    text: &mut Vec<u8>,
    lines: &[RuleLine],
    indexes: &[usize],
) -> Result<(), AllocError>
    ensures { OnOk result
        (text.new.items ≡ text.old.items ++ covering_lines (map line_of_rule lines.now) indexes.now) }
{
    for place in 0..indexes.len() {
        text.extend_from_slice(b"  ")?;
        push_line_at(text, lines, indexes[place])?;
    }
    Ok(())
}

/// Appends the line of the unreached rule, and the lines of the rules that decide on its addresses.
pub(crate) fn push_rule(
    text: &mut Vec<u8>,
    lines: &[RuleLine],
    unreached: &Unreached,
) -> Result<(), AllocError>
    ensures { OnOk result
        (text.new.items ≡ text.old.items ++ rule_lines (map line_of_rule lines.now) unreached.now) }
{
    push_line_at(text, lines, unreached.rule)?;
    push_covering(text, lines, unreached.deciders.as_slice())
}

/// Appends the lines of these unreached rules, each with the lines of the rules that decide on its addresses.
fn push_unreached(
    text: &mut Vec<u8>,
    lines: &[RuleLine],
    found: &[Unreached],
) -> Result<(), AllocError>
    ensures { OnOk result
        (text.new.items ≡ text.old.items ++ unreached_lines (map line_of_rule lines.now) found.now) }
{
    for unreached in found {
        push_line_at(text, lines, unreached.rule)?;
        push_covering(text, lines, unreached.deciders.as_slice())?;
    }
    Ok(())
}

/// Returns the lines of the rules that decide on no address.
fn unreached_text(list: RuleList) -> Result<Vec<u8>, AllocError>
    ensures { IfOk result (λ text. AreUnreachedLines (contents_of list) text.items) }
{
    let RuleList {
        alloc,
        rules,
        lines,
        ..
    } = list;
    let rules = Rules {
        list: rules,
        default: Action::Deny,
    };
    let found = rules.unreached(alloc)?;
    let mut text = Vec::new(alloc);
    push_unreached(&mut text, lines.as_slice(), found.as_slice())?;
    Ok(text)
}

impl RuleList {
    /// The allocator of the list.
    pub fn alloc(&self) -> Global
        ensures { result ≡ self.now.alloc }
    {
        self.alloc
    }

    /// The lines of the rules, in order.
    ///
    /// ```text
    /// of "permit 10.0.0.0/8\n\nallow ::1\ndeny ::1\n": line 1, "permit 10.0.0.0/8", and line 4, "deny ::1"
    /// ```
    pub fn lines(&self) -> &[RuleLine]
        ensures { map line_of_rule result.now ≡ (contents_of self.now).lines }
    {
        self.lines.as_slice()
    }

    /// The first ten lines that are not rules, in order.
    ///
    /// ```text
    /// of "permit 10.0.0.0/8\n\nallow ::1\n": line 3, "allow ::1", with the cause UnknownWord
    /// ```
    pub fn refused(&self) -> &[Refused<RuleCause>]
        ensures { map refusal_of result.now ≡ shown_refusals self.now.refused }
    {
        self.refused.shown.as_slice()
    }

    /// Returns the rules, in order, with this action for the addresses that no rule matches. Refused lines are left
    /// out.
    ///
    /// ```text
    /// Deny of "permit 10.0.0.0/8\nallow ::1\n": permit 10.0.0.0/8, and deny by default
    /// ```
    pub fn into_rules(self, default: Action) -> Rules
        ensures rules { result.list.items ≡ (contents_of self).rules }
        ensures default { result.default ≡ default }
    {
        Rules {
            list: self.rules,
            default,
        }
    }

    /// Returns the set of the addresses that the rules permit. `default` is for the addresses that no rule matches.
    ///
    /// If lines are not rules, the error is `Refused`, with the first ten of them and their number. Otherwise it is
    /// `Memory`, only if memory runs out.
    ///
    /// ```text
    /// Deny of "deny 10.0.0.0/9\npermit 10.0.0.0/8\n": 10.128.0.0/9
    /// ```
    pub fn permitted(self, default: Action) -> Result<IpSet, ListFailure<RuleCause>>
        ensures none { IfOk result (λ _. self.refused.count ≡ 0) }
        ensures set { IfOk result (IsPermittedSet default (contents_of self).rules) }
        ensures failure { IfErr result (IsRuleFailure self) }
    {
        let RuleList {
            alloc,
            rules,
            refused,
            ..
        } = self;
        if refused.count != 0 {
            return Err(ListFailure::Refused(refused));
        }
        match permitted_set(alloc, rules, default) {
            Ok(set) => Ok(set),
            Err(_) => Err(ListFailure::Memory),
        }
    }

    /// Returns the lines of the rules that decide on no address. After each are the lines of the earlier rules that
    /// decide on its addresses.
    ///
    /// If lines are not rules, the error is `Refused`, with the first ten of them and their number. Otherwise it is
    /// `Memory`, only if memory runs out.
    ///
    /// ```text
    /// of "deny 10.0.0.0/9\npermit 10.0.0.0/8\npermit 10.1.0.0/16\n":
    /// "line 3: permit 10.1.0.0/16\n  line 1: deny 10.0.0.0/9\n"
    /// ```
    pub fn unreached(self) -> Result<Vec<u8>, ListFailure<RuleCause>>
        ensures none { IfOk result (λ _. self.refused.count ≡ 0) }
        ensures text { IfOk result (λ text. AreUnreachedLines (contents_of self) text.items) }
        ensures failure { IfErr result (IsRuleFailure self) }
    {
        if self.refused.count != 0 {
            return Err(ListFailure::Refused(self.refused));
        }
        match unreached_text(self) {
            Ok(text) => Ok(text),
            Err(_) => Err(ListFailure::Memory),
        }
    }
}
