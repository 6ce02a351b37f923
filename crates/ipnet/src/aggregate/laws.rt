//! A law of all lists of values that are their own aggregates.
ghost use Rattle.std.specs.Prelude.{◌↔◌, List, map};
ghost use Rattle.ipnet_base.specs.Blocks.{AreAggregatedNeighbours, IsAggregateOf};
ghost use Rattle.ipnet.specs.NetworkOf.{ipv4_network, ipv6_network, ip_network};
ghost use Rattle.ipnet.specs.declared.net.IpNet.{IpNet};
ghost use Rattle.ipnet.specs.declared.net.ipv4_net.Ipv4Net.{Ipv4Net};
ghost use Rattle.ipnet.specs.declared.net.ipv6_net.Ipv6Net.{Ipv6Net};

/// A list of networks of each type is its own aggregate if and only if four conditions hold: no network has a host bit;
/// IPv4 comes before IPv6; within a family each network starts after the last address of the network before it; and no
/// two neighbours are the two halves of one supernet.
///
/// So [`is_aggregated`](super::is_aggregated) returns `true` if and only if these conditions hold.
pub fn neighbours_show_their_own_aggregate()
    ensures of_ipv4 { (networks : List Ipv4Net) → AreAggregatedNeighbours (map ipv4_network networks)
        ↔ IsAggregateOf (map ipv4_network networks) (map ipv4_network networks) }
    ensures of_ipv6 { (networks : List Ipv6Net) → AreAggregatedNeighbours (map ipv6_network networks)
        ↔ IsAggregateOf (map ipv6_network networks) (map ipv6_network networks) }
    ensures of_either { (networks : List IpNet) → AreAggregatedNeighbours (map ip_network networks)
        ↔ IsAggregateOf (map ip_network networks) (map ip_network networks) }
{}
