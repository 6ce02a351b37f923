//! The command `unreached` of the program.
ghost use Rattle.std.specs.Prelude.{◌≡◌};
ghost use Rattle.netset_lib.specs.RuleAnswers.{IsUnreachedText, IsRuleFailure, AreReached};
ghost use Rattle.netset_lib.specs.Runs.{IsFault};

use crate::piece_failure::PieceFailure;
use crate::rule_cause::RuleCause;
use crate::rule_list::RuleList;
use crate::rule_writing::{prepare, write_unreached};
use crate::runs::{Command, Fault};
use ipnet_lists::ListFailure;
use std::io::Write;

/// The lines of the rules that decide on no address.
///
/// | Status | On `faults` | When |
/// |---|---|---|
/// | 2 | `NAME:LINE: not a rule: TEXT (CAUSE)`, ten at most | some lines are not rules |
/// | 2 | `netset: out of memory` | memory runs out; the answer may be out in part |
/// | 2 | `netset: output cannot be written` | a write fails, or the flush after it; the answer may be out in part |
/// | 1 | nothing | there are such rules; `out` has them |
/// | 0 | nothing | otherwise |
///
/// If a text has more than 100 bytes, the first 100 are reported, and `..` after them.
///
/// The rules are found and written one after the other, so the memory grows with the list and not with the answer. The
/// answer of a list with many rules that many others decide grows with the square of the number of rules. The rules are
/// found twice: if memory runs out at the first time, nothing is written.
///
/// ```text
/// "deny 10.0.0.0/8\npermit 10.0.0.1\n": status 1, and out gets "line 2: permit 10.0.0.1\n  line 1: deny 10.0.0.0/8\n"
/// ```
#[derive(Drop)]
pub struct UnreachedCommand {
    /// The rules.
    pub list: RuleList,
}

impl Command for UnreachedCommand {
    type Failure = Fault<ListFailure<RuleCause>, PieceFailure>;

    ghost is_answer = { λ command. IsUnreachedText command.list };

    ghost is_outcome = { λ command. AreReached command.list };

    ghost is_failure = { λ command. IsFault (IsRuleFailure command.list) (λ _. command.list.refused.count ≡ 0) };

    fn write<W: Write>(
        self,
        out: &mut W,
    ) -> Result<bool, Fault<ListFailure<RuleCause>, PieceFailure>> {
        let prepared = match prepare(self.list) {
            Ok(prepared) => prepared,
            Err(failure) => return Err(Fault::Lists(failure)),
        };
        match write_unreached(out, &prepared) {
            Ok(()) => Ok(!prepared.has_unreached),
            Err(failure) => Err(Fault::Other(failure)),
        }
    }
}
