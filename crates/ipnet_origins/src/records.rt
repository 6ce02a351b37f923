//! The payloads in the image of a table: what is read of their bytes and what is written.
ghost use Rattle.std.specs.Prelude.{◌≡◌, ℕ, ◌+◌, ◌*◌, ◌<◌, ◌≤◌, ◌↔◌, length, IsTrue, IfSome, IsNone, OnOk};
ghost use Rattle.ipnet_base.specs.Network.{Network, IsNetwork};
ghost use Rattle.ipnet.specs.NetworkOf.{ipv4_network_of, ipv6_network_of, ip_network};
ghost use Rattle.ipnet_origins.specs.OriginImages.{payload_place, family_number, IsNetworkAt, IsPayloadAt};
ghost use Rattle.ipnet_origins.specs.OriginImages.{IsPayloadAdded, ArePayloadsAdded};
ghost use Rattle.ipnet_origins.specs.declared.payload.Payload.{Payload};

use crate::groups::is_of;
use crate::payload::Payload;
use ipnet::{IpAddr, IpNet, Ipv4Addr, Ipv4Net, Ipv6Addr, Ipv6Net};
use ipnet_sets::{append_u32, append_u128, read_u32, read_u128};
use std::alloc::AllocError;

/// Returns the IPv4 network with this number and prefix length; `None` if one of them is too great.
fn ipv4_net(number: u128, prefix_len: u32) -> Option<IpNet>
    ensures some { IfSome result (λ network. ip_network network ≡ ipv4_network_of number prefix_len) }
    ensures none { IsNone result → ¬ (IsNetwork (ipv4_network_of number prefix_len)) }
{
    if number >= 0x1_0000_0000 || prefix_len > 32 {
        return None;
    }
    let address = Ipv4Addr::from_bits(number as u32);
    Some(IpNet::V4(Ipv4Net::new_assert(address, prefix_len as u8)))
}

/// Returns the IPv6 network with this number and prefix length; `None` if the length is too great.
fn ipv6_net(number: u128, prefix_len: u32) -> Option<IpNet>
    ensures some { IfSome result (λ network. ip_network network ≡ ipv6_network_of number prefix_len) }
    ensures none { IsNone result → ¬ (IsNetwork (ipv6_network_of number prefix_len)) }
{
    if prefix_len > 128 {
        return None;
    }
    let address = Ipv6Addr::from_bits(number);
    Some(IpNet::V6(Ipv6Net::new_assert(address, prefix_len as u8)))
}

/// Returns the network of the payload that begins at byte `at`; `None` if it has none.
fn stored_network(bytes: &[u8], at: usize) -> Option<IpNet>
    requires { at + 32 ≤ length bytes.now }
    ensures some { IfSome result (λ network. IsNetworkAt bytes.now at (ip_network network)) }
    ensures none { IsNone result → (n : Network) → IsNetwork n → ¬ (IsNetworkAt bytes.now at n) }
{
    let prefix_len = read_u32(bytes, at + 4);
    let number = read_u128(bytes, at + 16);
    match read_u32(bytes, at) {
        4 => ipv4_net(number, prefix_len),
        6 => ipv6_net(number, prefix_len),
        _ => None,
    }
}

/// Returns the payload that begins at byte `at`; `None` if the bytes are not one.
pub(crate) fn stored_payload(bytes: &[u8], at: usize) -> Option<Payload>
    requires { at + 32 ≤ length bytes.now }
    ensures some { IfSome result (IsPayloadAt bytes.now at) }
    ensures none { IsNone result → (vrp : Payload) → ¬ (IsPayloadAt bytes.now at vrp) }
{
    let network = stored_network(bytes, at)?;
    let max_len = read_u32(bytes, at + 8);
    if max_len > 128 {
        return None;
    }
    let Ok(payload) = Payload::new(network, max_len as u8, read_u32(bytes, at + 12)) else {
        return None;
    };
    if !is_of(&payload, &network) {
        return None;
    }
    Some(payload)
}

/// Returns whether each of the first `count` payloads is one.
pub(crate) fn are_payloads(bytes: &[u8], count: usize) -> bool
    requires { payload_place count ≤ length bytes.now }
    ensures { IsTrue result ↔ ((i : ℕ) → i < count → (vrp : Payload) × IsPayloadAt bytes.now (payload_place i) vrp) }
{
    for index in 0..count {
        let Some(_payload) = stored_payload(bytes, 24 + index * 32) else {
            return false;
        };
    }
    true
}

/// Returns the number of a network's family, and the number of its address.
fn family_and_number(network: &IpNet) -> (u32, u128)
    ensures family { result.0 ≡ family_number (ip_network network.now).family }
    ensures number { result.1 ≡ (ip_network network.now).number }
{
    match network.addr() {
        IpAddr::V4(address) => (4, u128::from(address.to_bits())),
        IpAddr::V6(address) => (6, address.to_bits()),
    }
}

/// Appends the 32 bytes of a payload.
fn append_payload(bytes: &mut Vec<u8>, payload: &Payload) -> Result<(), AllocError>
    ensures { OnOk result (IsPayloadAdded payload.now bytes.old.items bytes.new.items) }
{
    let network = payload.network();
    let (family, number) = family_and_number(&network);
    append_u32(bytes, family)?;
    append_u32(bytes, u32::from(network.prefix_len()))?;
    append_u32(bytes, u32::from(payload.max_len()))?;
    append_u32(bytes, payload.asn())?;
    append_u128(bytes, number)?;
    Ok(())
}

/// Appends the payloads, 32 bytes each.
pub(crate) fn append_payloads(bytes: &mut Vec<u8>, payloads: &[Payload]) -> Result<(), AllocError>
    ensures { OnOk result (ArePayloadsAdded payloads.now bytes.old.items bytes.new.items) }
{
    for index in 0..payloads.len() {
        let payload = payloads[index];
        append_payload(bytes, &payload)?;
    }
    Ok(())
}
