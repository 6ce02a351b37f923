//! Whether the networks of a list share addresses.
ghost use Rattle.std.specs.Prelude.{◌↔◌, ◌≤◌, All, IsTrue, length, map, take};
ghost use Rattle.ipnet_base.specs.Network.{AreDisjoint};
ghost use Rattle.ipnet_base.specs.Blocks.{ArePairwiseDisjoint};
ghost use Rattle.ipnet.specs.NetworkOf.{ip_network};

use crate::net::IpNet;
use crate::value_laws::ip;

/// Whether the two networks share no address: neither contains the other.
fn is_apart(first: &IpNet, second: &IpNet) -> bool
    ensures { IsTrue result ↔ AreDisjoint (ip_network first.now) (ip_network second.now) }
{
    ip::nested_or_disjoint(first, second);
    !first.contains(second) && !second.contains(first)
}

/// Whether the network shares no address with any of the first `count` networks of the list.
fn is_apart_from_first(networks: &[IpNet], count: usize, network: &IpNet) -> bool
    requires { count ≤ length networks.now }
    ensures { IsTrue result
        ↔ All (λ k. AreDisjoint k (ip_network network.now)) (map ip_network (take count networks.now)) }
{
    for index in 0..count {
        let other = networks[index];
        if !is_apart(&other, network) {
            return false;
        }
    }
    true
}

/// Whether no two networks of the list share an address.
///
/// Host bits and the order of the list do not matter. A network that occurs twice shares its addresses with itself, so
/// the result is `false`. Compares each pair of networks once and allocates nothing, so the time grows with the square
/// of the length; for a long list, aggregate it first. The empty list is disjoint.
///
/// ```text
/// 10.0.0.0/25, fd00::/16, 10.0.0.128/25     are disjoint
/// 10.0.0.0/8, 10.1.0.0/16                   are not: the first contains the second
/// ```
pub fn are_disjoint(networks: &[IpNet]) -> bool
    ensures { IsTrue result ↔ ArePairwiseDisjoint (map ip_network networks.now) }
{
    for index in 0..networks.len() {
        let network = networks[index];
        if !is_apart_from_first(networks, index, &network) {
            return false;
        }
    }
    true
}
