//! Questions about two networks.
ghost use Rattle.std.specs.Prelude.{◌≡◌, ◌↔◌, IsTrue, IfSome, IsNone};
ghost use Rattle.ipnet.specs.Address.{Address};
ghost use Rattle.ipnet.specs.Network.{Network, IsNetwork, InBlock, IsSubnetOf, AreDisjoint, IsTruncated, HaveSameBlock};
ghost use Rattle.ipnet.specs.NetworkOf.{ip_network};

use ipnet::IpNet;
use ipnet::value_laws::ip;

/// Whether the networks share an address.
pub fn overlap(a: &IpNet, b: &IpNet) -> bool
    ensures { IsTrue result ↔ ¬ (AreDisjoint (ip_network a.now) (ip_network b.now)) }
{
    ip::nested_or_disjoint(a, b);
    a.contains(b) || b.contains(a)
}

/// The addresses of both networks, as a network; `None` if they share none.
pub fn intersection(a: &IpNet, b: &IpNet) -> Option<IpNet>
    ensures some { IfSome result (λ n. (x : Address) → InBlock (ip_network n) x
        ↔ (InBlock (ip_network a.now) x × InBlock (ip_network b.now) x)) }
    ensures none { IsNone result ↔ AreDisjoint (ip_network a.now) (ip_network b.now) }
{
    ip::nested_or_disjoint(a, b);
    if a.contains(b) {
        Some(*b)
    } else if b.contains(a) {
        Some(*a)
    } else {
        None
    }
}

/// The smallest network that contains both, without host bits; `None` if they are of two families.
pub fn common_supernet(a: &IpNet, b: &IpNet) -> Option<IpNet>
    ensures truncated { IfSome result (λ n. IsTruncated (ip_network n)) }
    ensures first { IfSome result (λ n. IsSubnetOf (ip_network a.now) (ip_network n)) }
    ensures second { IfSome result (λ n. IsSubnetOf (ip_network b.now) (ip_network n)) }
    ensures smallest { IfSome result (λ n. (k : Network) → IsNetwork k → IsSubnetOf (ip_network a.now) k
        → IsSubnetOf (ip_network b.now) k → IsSubnetOf (ip_network n) k) }
{
    if a.contains(b) {
        return Some(a.trunc());
    }
    let supernet = a.supernet()?;
    ip::supernet_is_the_next_wider(a, &supernet);
    let smallest = common_supernet(&supernet, b)?;
    Some(smallest)
}

/// The network without host bits: what `trunc` promises, one fact in each clause.
pub fn without_host_bits(net: &IpNet) -> IpNet
    ensures block { HaveSameBlock (ip_network result) (ip_network net.now) }
    ensures truncated { IsTruncated (ip_network result) }
    ensures length { (ip_network result).prefix_len ≡ (ip_network net.now).prefix_len }
{
    net.trunc()
}
