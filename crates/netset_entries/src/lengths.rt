//! How many of the fewest networks of a set have each prefix length, as text.
ghost use Rattle.std.specs.Prelude.{◌≡◌, ◌++◌, nat_eq, ℕ, List, IfOk, OnOk, map, string_bytes};
ghost use Rattle.ipnet_base.specs.Address.{family_index, width};
ghost use Rattle.ipnet.specs.NetworkOf.{ip_network};
ghost use Rattle.ipnet_sets.specs.Members.{IsMember};
ghost use Rattle.netset_entries.specs.Lengths.{count_with, has_length, length_line, AreFamilyLines, AreLengthLines};
ghost use Rattle.netset_entries.specs.Spans.{family_of};

use crate::span::Family;
use ipnet::IpNet;
use ipnet_sets::IpSet;
use std::alloc::{AllocError, Global};

/// Returns whether the network is of the family.
fn is_of(network: &IpNet, family: Family) -> bool
    ensures { result ≡ nat_eq (family_index (ip_network network.now).family) (family_index (family_of family)) }
{
    matches!(
        (network, family),
        (IpNet::V4(_), Family::Ipv4) | (IpNet::V6(_), Family::Ipv6)
    )
}

/// Returns whether the network is of the family and has the prefix length.
fn has_length(network: &IpNet, family: Family, len: u8) -> bool
    ensures { result ≡ has_length (family_of family) len (ip_network network.now) }
{
    is_of(network, family) && network.prefix_len() == len
}

/// Returns how many of the networks are of the family and have the prefix length.
fn count_of(networks: &[IpNet], family: Family, len: u8) -> usize
    ensures { result ≡ count_with (family_of family) len (map ip_network networks.now) }
{
    let mut count = 0;
    for network in networks {
        count += usize::from(has_length(network, family, len));
    }
    count
}

/// Appends the line of a prefix length; nothing if no network has it.
fn push_length(text: &mut String, family: Family, len: u8, count: usize) -> Result<(), AllocError>
    ensures { OnOk result
        (string_bytes text.new ≡ string_bytes text.old ++ length_line (family_of family) len count) }
{
    if count == 0 {
        return Ok(());
    }
    text.push_str(match family {
        Family::Ipv4 => "IPv4",
        Family::Ipv6 => "IPv6",
    })?;
    write!(text, "\t{len}\t{count}\n")
}

/// Returns the number of bits of an address of the family.
fn width_of(family: Family) -> u8
    ensures { result ≡ width (family_of family) }
{
    match family {
        Family::Ipv4 => 32,
        Family::Ipv6 => 128,
    }
}

/// Appends the lines of the family's prefix lengths.
fn push_family(text: &mut String, networks: &[IpNet], family: Family) -> Result<(), AllocError>
    ensures { OnOk result ((lines : List ℕ)
        × AreFamilyLines (family_of family) (map ip_network networks.now) lines
        × (string_bytes text.new ≡ string_bytes text.old ++ lines)) }
{
    let end = width_of(family) + 1;
    for len in 0..end {
        push_length(text, family, len, count_of(networks, family, len))?;
    }
    Ok(())
}

/// Returns how many of the fewest networks of the set have each prefix length, a line for each that occurs. A line has
/// the family, the length and the number of networks, with tabs between. IPv4 comes first.
///
/// Fails only if memory runs out.
///
/// ```text
/// of 10.0.0.0-10.0.0.5 and fd00::/8: "IPv4\t30\t1\nIPv4\t31\t1\nIPv6\t8\t1\n"
/// of no address: ""
/// ```
pub fn lengths_text(alloc: Global, set: &IpSet) -> Result<String, AllocError>
    ensures { IfOk result (λ text. AreLengthLines (IsMember set.now) (string_bytes text)) }
{
    let networks = set.networks(alloc)?;
    let mut text = String::new(alloc);
    push_family(&mut text, networks.as_slice(), Family::Ipv4)?;
    push_family(&mut text, networks.as_slice(), Family::Ipv6)?;
    Ok(text)
}
