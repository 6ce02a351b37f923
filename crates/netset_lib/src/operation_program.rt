//! An operation as a command.
ghost use Rattle.std.specs.Prelude.{IsTrue};
ghost use Rattle.netset_lib.specs.Combinations.{IsCombinedText, IsCombineFailure};

use crate::answer::{Form, set_text};
use crate::failure::Failure;
use crate::operation::{Combination, combine};
use crate::runs::TextCommand;
use std::alloc::Global;

/// The result of an operation as one text, as `combine` makes it. `FormCommand` of `netset_forms` writes the result in
/// pieces, and in more forms.
///
/// | Status | On `faults` | When |
/// |---|---|---|
/// | 2 | `netset: the list has no entries: choose --ipv4 or --ipv6, or both` | as `Failure::NoFamily` says |
/// | 2 | `netset: out of memory` | memory runs out |
/// | 2 | `netset: output cannot be written` | a write fails, or the flush after it; the answer may be out in part |
/// | 0 | nothing | otherwise |
///
/// ```text
/// Union of 10.0.0.0/9 and 10.128.0.0/9:  status 0, and out gets "10.0.0.0/8\n"
/// ```
pub struct OperationCommand {
    /// The allocator.
    pub alloc: Global,
    /// The operation and its sets.
    pub combination: Combination,
    /// The form of the answer.
    pub form: Form,
}

impl TextCommand for OperationCommand {
    type Text = String;

    type Failure = Failure;

    ghost is_answer = { λ c text. IsCombinedText c.combination c.form text };

    ghost is_outcome = { λ _ succeeded. IsTrue succeeded };

    ghost is_failure = { λ c. IsCombineFailure c.combination };

    fn answer(self) -> Result<(String, bool), Failure> {
        let OperationCommand {
            alloc,
            combination,
            form,
        } = self;
        let set = combine(alloc, combination)?;
        let text = set_text(alloc, form, &set)?;
        Ok((text, true))
    }
}
