//! The routes in the image of a table, row by row: what is read of them and what is written.
ghost use Rattle.std.specs.Prelude.{◌≡◌, ℕ, ◌+◌, ◌^◌, ◌<◌, ◌≤◌, length, IfSome, IfOk, OnOk};
ghost use Rattle.ipnet_base.specs.Address.{IPv4, IPv6};
ghost use Rattle.ipnet_base.specs.Network.{Network, IsNetwork};
ghost use Rattle.ipnet.specs.NetworkOf.{ipv4_network, ipv6_network, ip_network};
ghost use Rattle.ipnet_routes.specs.TableImages.{stated_routes, route_place, IsRowAt, IsRouteAt, IsSomeRoute};
ghost use Rattle.ipnet_routes.specs.TableImages.{IsRowAdded};

use ipnet::{IpNet, Ipv4Addr, Ipv4Net, Ipv6Addr, Ipv6Net};
use ipnet_sets::{append_u32, append_u64, append_u128, read_u32, read_u64, read_u128};
use std::alloc::AllocError;

/// A route as an image has it.
#[derive(Clone, Copy)]
pub(crate) struct StoredRoute {
    pub(crate) network: IpNet,
    pub(crate) value: u32,
    pub(crate) link: usize,
}

/// Returns the number of an IPv4 network's address.
#[inline(always)]
pub(crate) fn ipv4_number(network: &Ipv4Net) -> u32
    ensures { result ≡ (ipv4_network network.now).number }
{
    network.addr().to_bits()
}

/// Returns the number of an IPv6 network's address.
#[inline(always)]
pub(crate) fn ipv6_number(network: &Ipv6Net) -> u128
    ensures { result ≡ (ipv6_network network.now).number }
{
    network.addr().to_bits()
}

/// Returns the IPv4 route in the 16 bytes from byte `at` on; `None` if they are not one.
#[inline(always)]
fn ipv4_row(bytes: &[u8], at: usize) -> Option<StoredRoute>
    requires { at + 16 ≤ length bytes.now }
    ensures read { (n : Network) (value link : ℕ) → n.family ≡ IPv4 → IsNetwork n → IsRowAt bytes.now at n value link
        → IsSomeRoute result n value link }
    ensures stored { IfSome result (λ route. ((ip_network route.network).family ≡ IPv4)
        × IsRowAt bytes.now at (ip_network route.network) route.value route.link) }
{
    let prefix_len = read_u32(bytes, at + 4);
    if prefix_len > 32 {
        return None;
    }
    let address = Ipv4Addr::from_bits(read_u32(bytes, at));
    Some(StoredRoute {
        network: IpNet::V4(Ipv4Net::new_assert(address, prefix_len as u8)),
        value: read_u32(bytes, at + 8),
        link: read_u32(bytes, at + 12) as usize,
    })
}

/// Returns the IPv6 route in the 32 bytes from byte `at` on; `None` if they are not one.
#[inline(always)]
fn ipv6_row(bytes: &[u8], at: usize) -> Option<StoredRoute>
    requires { at + 32 ≤ length bytes.now }
    ensures read { (n : Network) (value link : ℕ) → n.family ≡ IPv6 → IsNetwork n → IsRowAt bytes.now at n value link
        → IsSomeRoute result n value link }
    ensures stored { IfSome result (λ route. ((ip_network route.network).family ≡ IPv6)
        × IsRowAt bytes.now at (ip_network route.network) route.value route.link) }
{
    let prefix_len = read_u32(bytes, at + 16);
    if prefix_len > 128 {
        return None;
    }
    let address = Ipv6Addr::from_bits(read_u128(bytes, at));
    Some(StoredRoute {
        network: IpNet::V6(Ipv6Net::new_assert(address, prefix_len as u8)),
        value: read_u32(bytes, at + 20),
        link: read_u64(bytes, at + 24) as usize,
    })
}

/// Returns the route with this index; `None` if its bytes are not one. `ipv4` is the number of IPv4 routes.
#[inline(always)]
pub(crate) fn row(bytes: &[u8], ipv4: usize, index: usize) -> Option<StoredRoute>
    requires stated { ipv4 ≡ stated_routes bytes.now IPv4 }
    requires within { route_place bytes.now (index + 1) ≤ length bytes.now }
    ensures read { (n : Network) (value link : ℕ) → IsNetwork n → IsRouteAt bytes.now index n value link
        → IsSomeRoute result n value link }
    ensures stored { IfSome result (λ route.
        IsRouteAt bytes.now index (ip_network route.network) route.value route.link) }
{
    if index < ipv4 {
        ipv4_row(bytes, 32 + index * 16)
    } else {
        ipv6_row(bytes, 32 + ipv4 * 16 + (index - ipv4) * 32)
    }
}

/// Appends an IPv4 route and its link, 16 bytes.
fn append_ipv4_row(
    bytes: &mut Vec<u8>,
    network: &Ipv4Net,
    value: u32,
    link: usize,
) -> Result<(), AllocError>
    requires { link < 2 ^ 32 }
    ensures { OnOk result (IsRowAdded (ipv4_network network.now) value link bytes.old.items bytes.new.items) }
{
    append_u32(bytes, ipv4_number(network))?;
    append_u32(bytes, u32::from(network.prefix_len()))?;
    append_u32(bytes, value)?;
    append_u32(bytes, link as u32)?;
    Ok(())
}

/// Appends an IPv6 route and its link, 32 bytes.
fn append_ipv6_row(
    bytes: &mut Vec<u8>,
    network: &Ipv6Net,
    value: u32,
    link: usize,
) -> Result<(), AllocError>
    ensures { OnOk result (IsRowAdded (ipv6_network network.now) value link bytes.old.items bytes.new.items) }
{
    append_u128(bytes, ipv6_number(network))?;
    append_u32(bytes, u32::from(network.prefix_len()))?;
    append_u32(bytes, value)?;
    append_u64(bytes, link as u64)?;
    Ok(())
}

/// Appends a route and its link.
pub(crate) fn append_row(
    bytes: &mut Vec<u8>,
    network: &IpNet,
    value: u32,
    link: usize,
) -> Result<(), AllocError>
    requires { link < 2 ^ 32 }
    ensures { OnOk result (IsRowAdded (ip_network network.now) value link bytes.old.items bytes.new.items) }
{
    match network {
        IpNet::V4(network) => append_ipv4_row(bytes, network, value, link),
        IpNet::V6(network) => append_ipv6_row(bytes, network, value, link),
    }
}
