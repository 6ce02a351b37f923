//! Facts about all errors of texts. Each law is a function with an empty body, whose contract is the fact.
ghost use Rattle.ipnet.specs.Values.{EqualsExactly, ClonesExactly};

use super::ToolError;

/// `==` says whether two errors are one: the same error, with the same line.
pub fn tool_errors_compare_by_value()
    ensures { EqualsExactly ⟦<ToolError as PartialEq>⟧.eq }
{}

/// The clone of an error is the error, and is never refused.
pub fn tool_errors_clone()
    ensures { ClonesExactly ⟦<ToolError as Clone>⟧.is_clone ⟦<ToolError as Clone>⟧.is_infallible }
{}
