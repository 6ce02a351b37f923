//! Facts about all failures of the program. The law is a function with an empty body, whose contract is the fact.
ghost use Rattle.ipnet.specs.Values.{ClonesExactly};

use super::Failure;

/// The clone of a failure is the failure, and is never refused.
pub fn failures_clone()
    ensures { ClonesExactly ⟦<Failure as Clone>⟧.is_clone ⟦<Failure as Clone>⟧.is_infallible }
{}
