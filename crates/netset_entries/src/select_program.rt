//! The command `select` of the program: the selected entries of the lists that were read, as written, one a line.
//!
//! | Status | On `faults` | When |
//! |---|---|---|
//! | 2 | `NAME:LINE: not a network, an address or a range: TEXT (CAUSE)`, ten at most | some lines are not entries |
//! | 2 | `netset: out of memory` | memory runs out |
//! | 2 | `netset: output cannot be written` | a write fails, or the flush after it; the lines may be out in part |
//! | 1 | nothing | no entry is chosen |
//! | 0 | nothing | otherwise |
//!
//! ```text
//! IPv4 of "10.0.0.1 # web\n::1\n":  status 0, and out gets "10.0.0.1\n"
//! IPv4 of "::1\n":                  status 1, and out gets nothing
//! ```
ghost use Rattle.std.specs.Prelude.{List, ℕ};
ghost use Rattle.netset_entries.specs.Selections.{IsSelectAnswer, IsSelectFailure, IsSelectOutcome};
ghost use Rattle.netset_entries.specs.SelectSteps.{WereSelected};
ghost use Rattle.netset_entries.specs.declared.selected.SelectRequest.{SelectRequest};

use crate::selection::Selection;
use ipnet_lists::RefusedLines;
use netset_lib::{Failure, Fault, TextCommand};

impl TextCommand for Selection {
    type Text = Vec<u8>;

    type Failure = Fault<RefusedLines, Failure>;

    ghost is_answer = { λ s text. (request : SelectRequest) → (lists : List (List ℕ)) → WereSelected request lists s
        → IsSelectAnswer request lists text };

    ghost is_outcome = { λ s found. (request : SelectRequest) → (lists : List (List ℕ)) → WereSelected request lists s
        → IsSelectOutcome request lists found };

    ghost is_failure = { λ s failure. (request : SelectRequest) → (lists : List (List ℕ)) → WereSelected request lists s
        → IsSelectFailure request lists failure };

    fn answer(self) -> Result<(Vec<u8>, bool), Fault<RefusedLines, Failure>> {
        let Selection {
            request,
            reading,
            selected,
        } = self;
        let lines = reading.lines;
        if lines.refused.count != 0 {
            return Err(Fault::Lists(lines.refused));
        }
        match selected.into_text(lines.alloc, request.sort) {
            Ok(answer) => Ok(answer),
            Err(_) => Err(Fault::Other(Failure::Memory)),
        }
    }
}
