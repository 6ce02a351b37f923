//! Laws of `PrefixLenError`, and which masks are refused. Each law is a function with nothing to
//! run, whose contract is the law; the last two have no contract, and are compiled only for errors with `Eq`.
ghost use Rattle.std.specs.Prelude.{◌↔◌, ℕ, IsErr};
ghost use Rattle.ipnet_base.specs.Address.{Family};
ghost use Rattle.ipnet_base.specs.Masks.{IsNetmaskOf};
ghost use Rattle.ipnet_base.specs.Results.{IsOkExactlyAt};
ghost use Rattle.ipnet_base.specs.Values.{EqualsExactly, ClonesExactly};

use super::PrefixLenError;
use std::error::Error;

/// Any two values of the error are equal, since there is one, and `==` says so.
pub fn prefix_len_errors_compare_by_value()
    ensures { EqualsExactly ⟦<PrefixLenError as PartialEq>⟧.eq }
{}

/// The clone of the error is equal, and cloning never fails.
pub fn prefix_len_errors_clone()
    ensures { ClonesExactly ⟦<PrefixLenError as Clone>⟧.is_clone ⟦<PrefixLenError as Clone>⟧.is_infallible }
{}

/// If a result is `Ok` with exactly the prefix length of a netmask, it is an error if and only if the number is not a
/// netmask.
pub fn masks_of_no_prefix_len_are_refused(prefix_len: Result<u8, PrefixLenError>)
    ensures { (f : Family) (number : ℕ) → IsOkExactlyAt prefix_len (IsNetmaskOf f number)
        → IsErr prefix_len ↔ ((p : ℕ) → ¬ (IsNetmaskOf f number p)) }
{}

/// The error is an `Error` with `Eq`.
//
// The contract says nothing: the body does not compile if an implementation is missing.
pub fn prefix_len_errors_have_eq(error: &PrefixLenError) {
    is_error_with_eq(error);
}

/// Does nothing when run: it compiles only for an `Error` with `Eq`.
pub fn is_error_with_eq<E: Error + Eq>(_: &E) {}
