//! The smallest network around the addresses of each family of a set, as text.
ghost use Rattle.std.specs.Prelude.{◌≡◌, ◌++◌, IfOk, OnOk, map, string_bytes};
ghost use Rattle.ipnet_base.specs.Address.{IPv4, IPv6};
ghost use Rattle.ipnet.specs.NetworkOf.{ip_network};
ghost use Rattle.ipnet_sets.specs.Members.{IsMember};
ghost use Rattle.netset_entries.specs.Supernets.{AreSupernets, AreSupernetLines, IsSupernetFor, found_network};

use ipnet::IpNet;
use ipnet_sets::IpSet;
use ipnet_text::lines_of_networks;
use std::alloc::{AllocError, Global};

/// Appends the network, if there is one.
fn push_found(networks: &mut Vec<IpNet>, found: Option<IpNet>) -> Result<(), AllocError>
    ensures { OnOk result (map ip_network networks.new.items
        ≡ map ip_network networks.old.items ++ found_network found) }
{
    if let Some(network) = found {
        networks.push(network)?;
    }
    Ok(())
}

/// Returns the smallest network around the IPv4 addresses of the set.
fn ipv4_supernet(set: &IpSet) -> Option<IpNet>
    ensures { IsSupernetFor (IsMember set.now) IPv4 (found_network result) }
{
    match set.ipv4_supernet() {
        Some(network) => Some(IpNet::V4(network)),
        None => None,
    }
}

/// Returns the smallest network around the IPv6 addresses of the set.
fn ipv6_supernet(set: &IpSet) -> Option<IpNet>
    ensures { IsSupernetFor (IsMember set.now) IPv6 (found_network result) }
{
    match set.ipv6_supernet() {
        Some(network) => Some(IpNet::V6(network)),
        None => None,
    }
}

/// Returns the smallest network around the IPv4 addresses of the set, and the smallest around its IPv6 addresses.
fn supernets_of(alloc: Global, set: &IpSet) -> Result<Vec<IpNet>, AllocError>
    ensures { IfOk result (λ list. AreSupernets (IsMember set.now) (map ip_network list.items)) }
{
    let mut networks = Vec::new(alloc);
    push_found(&mut networks, ipv4_supernet(set))?;
    push_found(&mut networks, ipv6_supernet(set))?;
    Ok(networks)
}

/// Returns the smallest network that contains all IPv4 addresses of the set, and the smallest that contains all IPv6
/// addresses, one a line. A family of which the set has no address has no line.
///
/// Fails only if memory runs out.
///
/// ```text
/// of 10.20.3.0-10.20.4.9 and fd00::1: "10.20.0.0/21\nfd00::1/128\n"
/// of no address: ""
/// ```
pub fn supernet_text(alloc: Global, set: &IpSet) -> Result<String, AllocError>
    ensures { IfOk result (λ text. AreSupernetLines (IsMember set.now) (string_bytes text)) }
{
    let networks = supernets_of(alloc, set)?;
    lines_of_networks(alloc, networks.as_slice())
}
