//! The numbers of lines and of lists.
ghost use Rattle.std.below.core.specs.declared.int.usize.TheConstants.{MAX};
ghost use Rattle.std.specs.Prelude.{◌≡◌, ◌+◌, IfOk, OnErr};

use std::alloc::AllocError;

/// Returns the next number. Fails if a `usize` cannot count so far.
///
/// ```text
/// after 2: 3; after usize::MAX: an error
/// ```
pub fn next_number(number: usize) -> Result<usize, AllocError>
    ensures next { IfOk result (λ next. next ≡ number + 1) }
    ensures full { OnErr result (number ≡ MAX) }
{
    match number.checked_add(1) {
        Some(next) => Ok(next),
        None => Err(AllocError),
    }
}
