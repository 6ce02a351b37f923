//! Laws of all networks as bytes, and of all values of `CompactError`. The first three functions write a network and
//! read it back. Each of the others does nothing, and its contract is the law.
ghost use Rattle.std.specs.Prelude.{◌≡◌, Ok};
ghost use Rattle.ipnet_base.specs.Values.{EqualsExactly, ClonesExactly};

use super::CompactError;
use crate::net::{IpNet, Ipv4Net, Ipv6Net};
use ipnet_base::mask::laws::is_error_with_eq;

/// The bytes of an IPv4 network read back as that network.
pub fn ipv4_bytes_read_back(network: &Ipv4Net) -> Result<Ipv4Net, CompactError>
    ensures { result ≡ Ok network.now }
{
    Ipv4Net::from_bytes(&network.to_bytes())
}

/// The bytes of an IPv6 network read back as that network.
pub fn ipv6_bytes_read_back(network: &Ipv6Net) -> Result<Ipv6Net, CompactError>
    ensures { result ≡ Ok network.now }
{
    Ipv6Net::from_bytes(&network.to_bytes())
}

/// The bytes of a network of either family read back as that network.
pub fn ip_bytes_read_back(network: &IpNet) -> Result<IpNet, CompactError>
    ensures { result ≡ Ok network.now }
{
    IpNet::from_bytes(network.to_bytes().as_slice())
}

/// `==` returns whether two values of the error are the same.
pub fn compact_errors_compare_by_value()
    ensures { EqualsExactly ⟦<CompactError as PartialEq>⟧.eq }
{}

/// The clone of the error is equal, and cloning never fails.
pub fn compact_errors_clone()
    ensures { ClonesExactly ⟦<CompactError as Clone>⟧.is_clone ⟦<CompactError as Clone>⟧.is_infallible }
{}

/// The error is an `Error` with `Eq`.
//
// The contract says nothing: the body does not compile if an implementation is missing.
pub fn compact_errors_have_eq(error: &CompactError) {
    is_error_with_eq(error);
}
