//! The addresses of a set that a picture of a network does not show: how many they are.
ghost use Rattle.std.specs.Prelude.{◌≡◌, ◌↔◌, ◌++◌, List, ℕ, IfOk, OnOk, string_bytes};
ghost use Rattle.ipnet_base.specs.Address.{Address};
ghost use Rattle.ipnet.specs.NetworkOf.{ip_network};
ghost use Rattle.ipnet_sets.specs.Members.{IsMember};
ghost use Rattle.ipnet_bars.specs.Outsides.{IsOutside, IsOutsideText, outside_line, outside_text};
ghost use Rattle.ipnet_bars.specs.Parts.{counted};

use crate::summary::push_count;
use ipnet::IpNet;
use ipnet_sets::IpSet;
use std::alloc::{AllocError, Global};

/// Returns the addresses of the set that are not in the network's block. Fails only if memory runs out.
///
/// ```text
/// of 10.0.0.7-10.0.0.9 and ::1 outside 10.0.0.8/29: 10.0.0.7, ::1
/// ```
pub fn outside_of(alloc: Global, set: &IpSet, network: &IpNet) -> Result<IpSet, AllocError>
    ensures { IfOk result (λ s. (x : Address)
        → IsMember s x ↔ IsOutside (IsMember set.now) (ip_network network.now) x) }
{
    let block = IpSet::from_network(alloc, network)?;
    set.difference(alloc, &block)
}

/// Appends the line of the two numbers, after the sign.
fn push_outside_line(
    text: &mut String,
    sign: &str,
    ipv4: u64,
    ipv6: Option<u128>,
) -> Result<(), AllocError>
    ensures { OnOk result (string_bytes text.new
        ≡ string_bytes text.old ++ outside_line sign.now ipv4 (counted ipv6)) }
{
    text.push_str(sign)?;
    text.push_str("outside: IPv4 ")?;
    write!(text, "{ipv4}")?;
    text.push_str(", IPv6 ")?;
    push_count(text, ipv6)?;
    text.push_str("\n")?;
    Ok(())
}

/// Appends the line of the two numbers, or nothing if both are 0.
fn push_outside_text(
    text: &mut String,
    sign: &str,
    ipv4: u64,
    ipv6: Option<u128>,
) -> Result<(), AllocError>
    ensures { OnOk result (string_bytes text.new
        ≡ string_bytes text.old ++ outside_text sign.now ipv4 (counted ipv6)) }
{
    match (ipv4, ipv6) {
        (0, Some(0)) => Ok(()),
        _ => push_outside_line(text, sign, ipv4, ipv6),
    }
}

/// Appends how many addresses of the set are outside the network, after the sign; nothing if there are none.
pub(crate) fn push_outside(
    alloc: Global,
    text: &mut String,
    sign: &str,
    set: &IpSet,
    network: &IpNet,
) -> Result<(), AllocError>
    ensures { OnOk result ((line : List ℕ)
        × IsOutsideText (IsMember set.now) (ip_network network.now) sign.now line
        × (string_bytes text.new ≡ string_bytes text.old ++ line)) }
{
    let outside = outside_of(alloc, set, network)?;
    let ipv4 = outside.ipv4_count();
    let ipv6 = outside.ipv6_count();
    push_outside_text(text, sign, ipv4, ipv6)?;
    Ok(())
}
