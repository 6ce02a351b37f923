//! The form of a set, and an answer that is made.
ghost use Rattle.std.specs.Prelude.{◌≡◌, IfOk, string_bytes};
ghost use Rattle.ipnet_sets.specs.Members.{IsMember};
ghost use Rattle.netset_lib.specs.Answers.{IsSetText};

use crate::failure::Failure;
use crate::runs::TextCommand;
use ipnet_lists::{network_lines, range_lines};
use ipnet_sets::IpSet;
use std::alloc::{AllocError, Global};

/// How a set is written.
///
/// ```text
/// 10.0.0.0 to 10.0.0.5: as Networks 10.0.0.0/30 and 10.0.0.4/31, as Ranges 10.0.0.0-10.0.0.5
/// ```
#[derive(Clone, Copy, Debug, PartialEq, Eq)]
pub enum Form {
    /// By the fewest networks.
    Networks,
    /// By the fewest ranges.
    Ranges,
}

/// The answer of a filter or a route, which is made while its second list is read.
#[derive(Debug, Drop)]
pub struct Answer {
    /// Its text.
    pub text: String,
    /// Whether a filter printed an entry, or each entry has a route.
    pub succeeded: bool,
}

impl TextCommand for Answer {
    type Text = String;

    type Failure = Failure;

    ghost is_answer = { λ answer text. text ≡ string_bytes answer.text };

    ghost is_outcome = { λ answer succeeded. succeeded ≡ answer.succeeded };

    ghost is_failure = { λ _ _. ⊥ };

    fn answer(self) -> Result<(String, bool), Failure> {
        Ok((self.text, self.succeeded))
    }
}

/// The set in this form.
pub(crate) fn set_text(alloc: Global, form: Form, set: &IpSet) -> Result<String, AllocError>
    ensures { IfOk result (λ text. IsSetText form (IsMember set.now) (string_bytes text)) }
{
    match form {
        Form::Networks => network_lines(alloc, set),
        Form::Ranges => range_lines(alloc, set),
    }
}
