//! Lists of rules, one rule a line.
ghost use Rattle.std.specs.Prelude.{ℕ, List, IfOk, Some};
ghost use Rattle.ipnet_lists.specs.declared.cause.Cause.TheVariants.{CarriageReturn};
ghost use Rattle.ipnet_text.specs.Inputs.{GaveWhole};
ghost use Rattle.netset_lib.specs.RuleContentsOf.{WasRuleListRead, contents_of};
ghost use Rattle.netset_lib.specs.RuleLines.{IsRefusedRule};
ghost use Rattle.netset_lib.specs.RuleSteps.{AddsRule};
ghost use Rattle.netset_lib.specs.declared.rule_cause.RuleCause.TheVariants.{BadEntry};

use crate::rule_cause::RuleCause;
use crate::rule_line::read_rule;
use ipnet::Grammar;
use ipnet_lists::{Cause, ContentLine, LineHandler, ReadFailure, Refusals, read_bytes, read_lines};
use ipnet_rules::Rule;
use std::alloc::{AllocError, Global};
use std::io::Read;

/// The line of a rule.
///
/// ```text
/// of "permit 10.0.0.0/8\n\ndeny ::1 # x\n", the second rule: number 3, text "deny ::1"
/// ```
#[derive(Debug, Drop)]
pub struct RuleLine {
    /// Its number, from 1.
    pub number: usize,
    /// Its contents, without a comment and blanks around them.
    pub text: Vec<u8>,
}

/// A list of rules that was read: the rules, the line of each, and the lines that are not rules.
#[derive(Drop)]
pub struct RuleList {
    pub(crate) alloc: Global,
    /// The rules, in order.
    pub(crate) rules: Vec<Rule>,
    /// The line of each rule.
    pub(crate) lines: Vec<RuleLine>,
    /// The lines that are not rules.
    pub(crate) refused: Refusals<RuleCause>,
}

/// Takes the rules of lines.
#[derive(Drop)]
struct RuleLines {
    alloc: Global,
    grammar: Grammar,
}

impl<'a> LineHandler<'a, RuleList, RuleCause> for RuleLines {
    ghost takes = { λ h line old new. AddsRule h.grammar line (contents_of old) (contents_of new) };

    ghost is_cause = { λ h. IsRefusedRule h.grammar };

    ghost broken = { λ h. BadEntry (Some CarriageReturn) };

    fn refuse_broken(&self) -> RuleCause {
        RuleCause::BadEntry(Some(Cause::CarriageReturn))
    }

    fn take(
        &self,
        made: &mut RuleList,
        line: ContentLine<'a>,
    ) -> Result<Result<(), RuleCause>, AllocError> {
        match read_rule(line.text, self.grammar) {
            Ok(rule) => {
                let text = line.text.to_vec(self.alloc)?;
                let number = line.number;
                made.rules.push(rule)?;
                made.lines.push(RuleLine { number, text })?;
                Ok(Ok(()))
            }
            Err(cause) => Ok(Err(cause)),
        }
    }
}

impl RuleList {
    /// Returns the list of rules that the bytes are.
    ///
    /// A line has one rule: `permit` or `deny`, blanks, and a network, an address or a range. Empty lines, comments, a
    /// carriage return at the end of a line and a byte order mark at the start are skipped as in lists of entries. A
    /// line that is not a rule is refused with its cause. Fails only if memory runs out.
    ///
    /// ```text
    /// "permit 10.0.0.0/8 # ours\n\ndeny 10.0.0.1-10.0.0.9\n": two rules, on the lines 1 and 3
    /// "permit 10.0.0.0/33\n":                                 no rule, and line 1 is refused
    /// ```
    pub fn from_bytes(alloc: Global, bytes: &[u8], grammar: Grammar) -> Result<RuleList, AllocError>
        ensures { IfOk result (WasRuleListRead grammar bytes.now) }
    {
        let mut list = RuleList {
            alloc,
            rules: Vec::new(alloc),
            lines: Vec::new(alloc),
            refused: Refusals::new(alloc),
        };
        let refused = read_lines(alloc, bytes, &RuleLines { alloc, grammar }, &mut list)?;
        list.refused = refused;
        Ok(list)
    }

    /// Reads a list of rules up to the end of the input, as `from_bytes` does.
    ///
    /// The error is `Unreadable` if a read fails, and `Memory` if memory runs out.
    ///
    /// ```text
    /// a file of "permit 10.0.0.0/8\n": one rule, on line 1
    /// ```
    pub fn read<R: Read>(
        alloc: Global,
        input: &mut R,
        grammar: Grammar,
    ) -> Result<RuleList, ReadFailure>
        ensures { IfOk result (λ list. (bytes : List ℕ)
            × GaveWhole (R.remaining input.old) (R.remaining input.new) bytes
            × WasRuleListRead grammar bytes list) }
    {
        let bytes = read_bytes(alloc, input)?;
        Ok(RuleList::from_bytes(alloc, bytes.as_slice(), grammar)?)
    }
}
