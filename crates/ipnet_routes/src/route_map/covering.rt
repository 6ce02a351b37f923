//! The search for the longest route around a network in the chunks of a map.
ghost use Rattle.std.specs.Prelude.{◌≤◌, ◌↔◌, IsNone, IfSome, Contains};
ghost use Rattle.ipnet_base.specs.Network.{Network, IsSubnetOf, IsTruncationOf};
ghost use Rattle.ipnet.specs.NetworkOf.{ip_network};
ghost use Rattle.ipnet_routes.specs.Routes.{networks_of, ip_routes, ip_networks, IsLongestHolder};
ghost use Rattle.ipnet_routes.specs.RouteSteps.{IsTable};
ghost use Rattle.ipnet_routes.specs.RouteMapSteps.{all_of, AreFilled};
ghost use Rattle.ipnet_routes.specs.RouteLengths.{AreKnown};

use super::chunks::{Chunk, last_up_to};
use super::index::ChunkIndex;
use super::lengths::KnownLengths;
use ipnet::IpNet;
use ipnet_sets::common_supernet;

/// The network of a shorter prefix length that contains the network, without host bits.
fn shorten(network: &IpNet, len: u8) -> IpNet
    requires { len ≤ (ip_network network.now).prefix_len }
    ensures { IsTruncationOf (ip_network result) (record (ip_network network.now) { prefix_len = len }) }
{
    IpNet::new_assert(network.addr(), len).trunc()
}

/// Returns the route of the longest network in the chunks that contains the network's whole block.
pub(super) fn covering_in<'a, V>(
    chunks: &'a [Chunk<V>],
    index: &ChunkIndex,
    lengths: &KnownLengths,
    network: &IpNet,
) -> Option<&'a (IpNet, V)>
    requires table { IsTable (ip_networks (all_of chunks.now)) }
    requires filled { AreFilled chunks.now }
    requires known { AreKnown lengths.now.masks.items lengths.now.width (ip_networks (all_of chunks.now)) }
    ensures none { IsNone result ↔ ((k : Network) → Contains (networks_of (ip_routes (all_of chunks.now))) k
        → ¬ (IsSubnetOf (ip_network network.now) k)) }
    ensures some { IfSome result (λ route. IsLongestHolder (ip_routes (all_of chunks.now)) (ip_network network.now)
        (ip_network route.now.0, route.now.1)) }
{
    let mut wanted = network.trunc();
    loop {
        let hint = index.hint(&wanted);
        let Some(route) = last_up_to(chunks, hint, &wanted) else {
            return None;
        };
        if route.0.contains(network) {
            return Some(route);
        }
        let Some(common) = common_supernet(&wanted, &route.0) else {
            return None;
        };
        let Some(len) = lengths.longest_up_to(network.addr(), common.prefix_len()) else {
            return None;
        };
        wanted = shorten(&common, len);
    }
}
