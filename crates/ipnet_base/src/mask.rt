//! Netmasks, read as prefix lengths (RFC 4632, section 3.1).
ghost use Rattle.std.specs.Prelude.{◌≡◌, ◌≤◌};
ghost use Rattle.std.specs.Net.Addr.{ipv4_bits, ipv6_bits};
ghost use Rattle.ipnet_base.specs.Address.{IPv4, IPv6, ip_address};
ghost use Rattle.ipnet_base.specs.Masks.{netmask_number, IsNetmaskOf};
ghost use Rattle.ipnet_base.specs.Results.{IsOkExactlyAt};

pub mod laws;

use crate::addr::{IpAddr, Ipv4Addr, Ipv6Addr};
use thiserror::Error;

/// The prefix length was above 32 (IPv4) or 128 (IPv6), or shorter than the network's own in `subnets`; or the address
/// was not a netmask.
///
/// Displayed as `invalid IP prefix length`.
///
/// ```text
/// ipv4_mask_to_prefix(255.0.255.0)   Err(PrefixLenError)
/// Ipv4Net::new(10.1.1.0, 33)         Err(PrefixLenError)
/// subnets(23) of 10.0.0.0/24         Err(PrefixLenError)
/// ```
#[derive(Clone, Debug, PartialEq, Eq, Drop, Error)]
#[error("invalid IP prefix length")]
pub struct PrefixLenError;

/// The IPv4 netmask with the given number of ones, as a number.
fn ipv4_netmask(prefix_len: u32) -> u32
    requires { prefix_len ≤ 32 }
    ensures { result ≡ netmask_number IPv4 prefix_len }
{
    u32::MAX.checked_shl(32 - prefix_len).unwrap_or(0)
}

/// The IPv6 netmask with the given number of ones, as a number.
fn ipv6_netmask(prefix_len: u32) -> u128
    requires { prefix_len ≤ 128 }
    ensures { result ≡ netmask_number IPv6 prefix_len }
{
    u128::MAX.checked_shl(128 - prefix_len).unwrap_or(0)
}

/// The prefix length, 0 to 32, of an IPv4 netmask: the count of its leading ones.
///
/// Fails unless the bits of the address are ones followed by zeros. All zeros give prefix length 0, and all ones give
/// 32.
///
/// ```text
/// 255.255.255.128   Ok(25)
/// 0.0.0.0           Ok(0)
/// 255.0.255.0       Err(PrefixLenError)
/// ```
pub fn ipv4_mask_to_prefix(mask: Ipv4Addr) -> Result<u8, PrefixLenError>
    ensures { IsOkExactlyAt result (IsNetmaskOf IPv4 (ipv4_bits mask)) }
{
    let number = mask.to_bits();
    let ones = number.leading_ones();
    if number == ipv4_netmask(ones) {
        Ok(ones as u8)
    } else {
        Err(PrefixLenError)
    }
}

/// The prefix length, 0 to 128, of an IPv6 netmask: the count of its leading ones.
///
/// Fails unless the bits of the address are ones followed by zeros. All zeros give prefix length 0, and all ones give
/// 128.
///
/// ```text
/// ffff:ffff:ffff::   Ok(48)
/// ::                 Ok(0)
/// 0:0:ffff::         Err(PrefixLenError)
/// ```
pub fn ipv6_mask_to_prefix(mask: Ipv6Addr) -> Result<u8, PrefixLenError>
    ensures { IsOkExactlyAt result (IsNetmaskOf IPv6 (ipv6_bits mask)) }
{
    let number = mask.to_bits();
    let ones = number.leading_ones();
    if number == ipv6_netmask(ones) {
        Ok(ones as u8)
    } else {
        Err(PrefixLenError)
    }
}

/// The prefix length of a netmask of either family, as `ipv4_mask_to_prefix` or `ipv6_mask_to_prefix` returns it.
///
/// ```text
/// 255.255.0.0   Ok(16)
/// ffff::        Ok(16)
/// ::ffff        Err(PrefixLenError)
/// ```
pub fn ip_mask_to_prefix(mask: IpAddr) -> Result<u8, PrefixLenError>
    ensures { let a = ip_address mask in IsOkExactlyAt result (IsNetmaskOf a.family a.number) }
{
    match mask {
        IpAddr::V4(mask) => ipv4_mask_to_prefix(mask),
        IpAddr::V6(mask) => ipv6_mask_to_prefix(mask),
    }
}
