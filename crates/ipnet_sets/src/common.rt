//! The smallest network that contains two networks.
ghost use Rattle.std.specs.Prelude.{◌≡◌, ◌≢◌, IfSome, IfNone};
ghost use Rattle.ipnet_base.specs.Address.{ipv4_address, ipv6_address, ip_address};
ghost use Rattle.ipnet.specs.NetworkOf.{ip_network};
ghost use Rattle.ipnet_sets.specs.CommonSupernets.{AreSharedBits, IsCommonSupernet};

use ipnet::{IpAddr, IpNet, Ipv4Addr, Ipv6Addr};

/// How many of the first bits two IPv4 addresses share.
fn ipv4_shared_bits(ip: Ipv4Addr, other: Ipv4Addr) -> u8
    ensures { AreSharedBits (ipv4_address ip) (ipv4_address other) result }
{
    (ip.to_bits() ^ other.to_bits()).leading_zeros() as u8
}

/// How many of the first bits two IPv6 addresses share.
fn ipv6_shared_bits(ip: Ipv6Addr, other: Ipv6Addr) -> u8
    ensures { AreSharedBits (ipv6_address ip) (ipv6_address other) result }
{
    (ip.to_bits() ^ other.to_bits()).leading_zeros() as u8
}

/// How many of the first bits the addresses share; `None` if they are of two families.
fn shared_bits(ip: IpAddr, other: IpAddr) -> Option<u8>
    ensures some { IfSome result (λ bits. AreSharedBits (ip_address ip) (ip_address other) bits) }
    ensures none { IfNone result ((ip_address ip).family ≢ (ip_address other).family) }
{
    match (ip, other) {
        (IpAddr::V4(ip), IpAddr::V4(other)) => Some(ipv4_shared_bits(ip, other)),
        (IpAddr::V6(ip), IpAddr::V6(other)) => Some(ipv6_shared_bits(ip, other)),
        _ => None,
    }
}

/// Returns the smallest network that contains both, without host bits; `None` if they are of two families.
///
/// ```text
/// 10.1.0.0/16 and 10.2.0.0/16:  10.0.0.0/14
/// 10.1.0.0/16 and fd00::/8:     None
/// ```
pub fn common_supernet(network: &IpNet, other: &IpNet) -> Option<IpNet>
    ensures some { IfSome result (λ s.
        IsCommonSupernet (ip_network network.now) (ip_network other.now) (ip_network s)) }
    ensures none { IfNone result ((ip_network network.now).family ≢ (ip_network other.now).family) }
{
    let ip = network.addr();
    let shared = shared_bits(ip, other.addr())?;
    let len = shared.min(network.prefix_len()).min(other.prefix_len());
    Some(IpNet::new_assert(ip, len).trunc())
}
