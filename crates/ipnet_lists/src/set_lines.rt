//! The text of a set: its fewest networks, or its fewest ranges, one a line.
ghost use Rattle.std.specs.Prelude.{◌≡◌, ◌≤◌, ◌++◌, ◌∷◌, [], IfOk, OnOk, string_bytes};
ghost use Rattle.ipnet_base.specs.RangeOf.{ip_range};
ghost use Rattle.ipnet_sets.specs.Members.{IsMember};
ghost use Rattle.ipnet_lists.specs.SetLines.{range_text, AreNetworkLines, AreRangeLines};

use crate::address_text::ip_addr_text;
use ipnet::IpAddrRange;
use ipnet_sets::IpSet;
use ipnet_text::push_line;
use std::alloc::{AllocError, Global};

/// Appends the text of the range, which has an address, and a newline.
fn push_range(text: &mut String, range: IpAddrRange) -> Result<(), AllocError>
    requires { let r = ip_range range in r.start ≤ r.end }
    ensures { OnOk result (string_bytes text.new ≡ string_bytes text.old ++ range_text (ip_range range) ++ 10 ∷ []) }
{
    if let (Some(first), Some(last)) = (range.min(), range.max()) {
        text.push_str(ip_addr_text(first).as_str())?;
        text.push_str("-")?;
        text.push_str(ip_addr_text(last).as_str())?;
        text.push_str("\n")?;
    }
    Ok(())
}

/// Returns the text of the fewest networks of the set, one a line. IPv4 comes before IPv6, and the networks ascend.
/// Fails only if memory runs out.
///
/// ```text
/// of 10.0.0.0-10.0.0.5 and fd00::1: "10.0.0.0/30\n10.0.0.4/31\nfd00::1/128\n"
/// ```
pub fn network_lines(alloc: Global, set: &IpSet) -> Result<String, AllocError>
    ensures { IfOk result (λ text. AreNetworkLines (IsMember set.now) (string_bytes text)) }
{
    let mut text = String::new(alloc);
    for network in set.iter_networks() {
        push_line(&mut text, network)?;
    }
    Ok(text)
}

/// Returns the text of the fewest ranges of the set, one a line: the first and the last address, joined by "-". IPv4
/// comes before IPv6, and the ranges ascend. Fails only if memory runs out.
///
/// ```text
/// of 10.0.0.0/30, 10.0.0.4/31 and fd00::1: "10.0.0.0-10.0.0.5\nfd00::1-fd00::1\n"
/// ```
pub fn range_lines(alloc: Global, set: &IpSet) -> Result<String, AllocError>
    ensures { IfOk result (λ text. AreRangeLines (IsMember set.now) (string_bytes text)) }
{
    let mut text = String::new(alloc);
    for range in set.ranges() {
        push_range(&mut text, range)?;
    }
    Ok(text)
}
