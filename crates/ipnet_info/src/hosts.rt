//! The first and the last host of a network.
ghost use Rattle.ipnet_base.specs.Address.{ip_address};
ghost use Rattle.ipnet.specs.NetworkOf.{ip_network};
ghost use Rattle.ipnet_info.specs.Hosts.{IsFirstHost, IsLastHost};

use ipnet::net::laws::ip_nets_compare_by_network;
use ipnet::{IpAddr, IpNet};

/// Returns the least of the addresses of `IpNet::hosts`. Every network has one.
///
/// ```text
/// 10.0.0.0/24: 10.0.0.1; 10.0.0.0/31: 10.0.0.0; 10.0.0.7/32: 10.0.0.7; fd00::/64: fd00::
/// ```
pub fn first_host(network: &IpNet) -> IpAddr
    ensures { IsFirstHost (ip_network network.now) (ip_address result) }
{
    ip_nets_compare_by_network();
    match network.hosts().min() {
        Some(host) => host,
        None => unreachable!(),
    }
}

/// Returns the greatest of the addresses of `IpNet::hosts`. Every network has one.
///
/// ```text
/// 10.0.0.0/24: 10.0.0.254; 10.0.0.0/31: 10.0.0.1; 10.0.0.7/32: 10.0.0.7; fd00::/126: fd00::3
/// ```
pub fn last_host(network: &IpNet) -> IpAddr
    ensures { IsLastHost (ip_network network.now) (ip_address result) }
{
    ip_nets_compare_by_network();
    match network.hosts().max() {
        Some(host) => host,
        None => unreachable!(),
    }
}
