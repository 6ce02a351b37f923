//! Laws of all networks as JSON values, and of all values of `JsonError`. The first three functions write a network
//! and read it back. Each of the others does nothing, and its contract is the law.
ghost use Rattle.std.specs.Prelude.{◌≡◌, Ok, IfOk};
ghost use Rattle.ipnet_base.specs.Values.{EqualsExactly, ClonesExactly};

use super::JsonError;
use crate::net::{IpNet, Ipv4Net, Ipv6Net};
use ipnet_base::mask::laws::is_error_with_eq;
use std::alloc::{AllocError, Global};

/// The JSON value of an IPv4 network reads back as that network.
///
/// Fails if memory runs out.
pub fn ipv4_json_reads_back(
    network: &Ipv4Net,
    alloc: Global,
) -> Result<Result<Ipv4Net, JsonError>, AllocError>
    ensures { IfOk result (λ read. read ≡ Ok network.now) }
{
    Ok(Ipv4Net::from_json(&network.to_json(alloc)?))
}

/// The JSON value of an IPv6 network reads back as that network.
///
/// Fails if memory runs out.
pub fn ipv6_json_reads_back(
    network: &Ipv6Net,
    alloc: Global,
) -> Result<Result<Ipv6Net, JsonError>, AllocError>
    ensures { IfOk result (λ read. read ≡ Ok network.now) }
{
    Ok(Ipv6Net::from_json(&network.to_json(alloc)?))
}

/// The JSON value of a network of either family reads back as that network.
///
/// Fails if memory runs out.
pub fn ip_json_reads_back(
    network: &IpNet,
    alloc: Global,
) -> Result<Result<IpNet, JsonError>, AllocError>
    ensures { IfOk result (λ read. read ≡ Ok network.now) }
{
    Ok(IpNet::from_json(&network.to_json(alloc)?))
}

/// `==` returns whether two values of the error are the same.
pub fn json_errors_compare_by_value()
    ensures { EqualsExactly ⟦<JsonError as PartialEq>⟧.eq }
{}

/// The clone of the error is equal, and cloning never fails.
pub fn json_errors_clone()
    ensures { ClonesExactly ⟦<JsonError as Clone>⟧.is_clone ⟦<JsonError as Clone>⟧.is_infallible }
{}

/// The error is an `Error` with `Eq`.
//
// The contract says nothing: the body does not compile if an implementation is missing.
pub fn json_errors_have_eq(error: &JsonError) {
    is_error_with_eq(error);
}
