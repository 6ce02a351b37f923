//! The halves of a network, and the routes in each of them.
ghost use Rattle.std.specs.Prelude.{◌≡◌, ◌<◌, length};
ghost use Rattle.ipnet_base.specs.Address.{width};
ghost use Rattle.ipnet_base.specs.Network.{IsTruncated};
ghost use Rattle.ipnet.specs.NetworkOf.{ip_network};
ghost use Rattle.ipnet_routes.specs.Routes.{ip_networks};
ghost use Rattle.ipnet_routes.specs.RouteSteps.{IsTable, IsPlaceOf};
ghost use Rattle.ipnet_fewest.specs.Plans.{sibling};
ghost use Rattle.ipnet_fewest.specs.Solved.{AreHalvesOf, AreTableIn, IsAroundAll};

use ipnet::IpNet;
use ipnet::net::laws::ip_nets_compare_by_network;
use ipnet_sets::common_supernet;

/// Returns the two halves of the network.
pub(crate) fn halves(around: &IpNet) -> (IpNet, IpNet)
    requires truncated { IsTruncated (ip_network around.now) }
    requires shorter { (ip_network around.now).prefix_len < width (ip_network around.now).family }
    ensures halves { AreHalvesOf (ip_network result.0) (ip_network result.1) (ip_network around.now) }
    ensures order { (ip_network result.0).number < (ip_network result.1).number }
{
    let len = around.prefix_len() + 1;
    let first = IpNet::new_assert(around.network(), len).trunc();
    let second = IpNet::new_assert(around.broadcast(), len).trunc();
    (first, second)
}

/// Returns how many of the routes come before the network in the order of networks.
pub(crate) fn count_before(routes: &[(IpNet, usize)], network: &IpNet) -> usize
    requires { IsTable (ip_networks routes.now) }
    ensures { IsPlaceOf (ip_networks routes.now) (ip_network network.now) result }
{
    ip_nets_compare_by_network();
    routes.partition_point(|route| route.0 < *network)
}

/// Returns the network one bit shorter, and its other half.
pub(crate) fn parent_and_sibling(network: &IpNet) -> (IpNet, IpNet)
    requires truncated { IsTruncated (ip_network network.now) }
    requires longer { 0 < (ip_network network.now).prefix_len }
    ensures { AreHalvesOf (ip_network network.now) (ip_network result.1) (ip_network result.0) }
{
    ip_nets_compare_by_network();
    let Some(parent) = network.supernet() else {
        return (*network, *network);
    };
    let (first, second) = halves(&parent);
    if first == *network {
        return (parent, second);
    }
    (parent, first)
}

/// Returns the other half of the network one bit shorter.
pub(crate) fn sibling(network: &IpNet) -> IpNet
    requires truncated { IsTruncated (ip_network network.now) }
    requires longer { 0 < (ip_network network.now).prefix_len }
    ensures { ip_network result ≡ sibling (ip_network network.now) }
{
    parent_and_sibling(network).1
}

/// Returns the smallest network around the first and the last of the routes, which is around all of them.
pub(crate) fn near_network(routes: &[(IpNet, usize)], around: &IpNet) -> IpNet
    requires some { 0 < length routes.now }
    requires table { AreTableIn (ip_network around.now) (ip_networks routes.now) }
    ensures { IsAroundAll (ip_networks routes.now) (ip_network around.now) (ip_network result) }
{
    match common_supernet(&routes[0].0, &routes[routes.len() - 1].0) {
        Some(near) => near,
        None => *around,
    }
}
