//! Laws of each walk, whatever it stores, and the meaning of the ghost members of public traits for walks.
//!
//! A contract that names a ghost member, such as the contract of std's `collect`, promises only what that member says;
//! these laws state it in the words of `specs/`.
ghost use Rattle.std.specs.Prelude.{◌≡◌, ◌↔◌, Option, IsNone};
ghost use Rattle.std.specs.Iterator.{YieldsFirstBy, item_count};
ghost use Rattle.ipnet.specs.NetworkOf.{ipv4_network, ipv6_network, ip_network};
ghost use Rattle.ipnet.specs.SubnetsLeft.{IsWalkOf, IsSubnetStep, ipv4_subnet_range, ipv4_subnets_left};
ghost use Rattle.ipnet.specs.SubnetsLeft.{ipv6_subnet_range, ipv6_subnets_left, ip_subnet_range, ip_subnets_left};
ghost use Rattle.ipnet.specs.declared.net.IpNet.{IpNet};
ghost use Rattle.ipnet.specs.declared.net.ipv4_net.Ipv4Net.{Ipv4Net};
ghost use Rattle.ipnet.specs.declared.net.ipv6_net.Ipv6Net.{Ipv6Net};
ghost use Rattle.ipnet.specs.declared.subnets.ipv4_subnets.Ipv4Subnets.{Ipv4Subnets};
ghost use Rattle.ipnet.specs.declared.subnets.ipv6_subnets.Ipv6Subnets.{Ipv6Subnets};
ghost use Rattle.ipnet.specs.declared.subnets.IpSubnets.{IpSubnets};
ghost use Rattle.ipnet.specs.declared.subnets.IpSubnets.TheVariants.{V4, V6};

use super::{IpSubnets, Ipv4Subnets, Ipv6Subnets};
use crate::net::{IpNet, Ipv4Net, Ipv6Net};

/// The networks that an IPv4 walk still yields are the walk over its remaining range.
pub fn ipv4_walk_is_of_its_range(subnets: Ipv4Subnets)
    ensures { IsWalkOf (ipv4_subnet_range subnets) (ipv4_subnets_left subnets) }
{}

/// The networks that an IPv6 walk still yields are the walk over its remaining range.
pub fn ipv6_walk_is_of_its_range(subnets: Ipv6Subnets)
    ensures { IsWalkOf (ipv6_subnet_range subnets) (ipv6_subnets_left subnets) }
{}

/// The networks that a walk of either family still yields are the walk over its remaining range.
pub fn ip_walk_is_of_its_range(subnets: IpSubnets)
    ensures { IsWalkOf (ip_subnet_range subnets) (ip_subnets_left subnets) }
{}

/// After `None`, each call on an IPv4 walk returns `None`, and the walk stays the same.
pub fn ipv4_walk_stays_over()
    ensures { (before between after : Ipv4Subnets) (first second : Option Ipv4Net) →
        IsSubnetStep ipv4_network ipv4_subnet_range ipv4_subnets_left before first between →
        IsSubnetStep ipv4_network ipv4_subnet_range ipv4_subnets_left between second after →
        IsNone first → IsNone second × (after ≡ before) }
{}

/// After `None`, each call on an IPv6 walk returns `None`, and the walk stays the same.
pub fn ipv6_walk_stays_over()
    ensures { (before between after : Ipv6Subnets) (first second : Option Ipv6Net) →
        IsSubnetStep ipv6_network ipv6_subnet_range ipv6_subnets_left before first between →
        IsSubnetStep ipv6_network ipv6_subnet_range ipv6_subnets_left between second after →
        IsNone first → IsNone second × (after ≡ before) }
{}

/// After `None`, each call on a walk returns `None`, and the walk stays the same.
pub fn ip_walk_stays_over()
    ensures { (before between after : IpSubnets) (first second : Option IpNet) →
        IsSubnetStep ip_network ip_subnet_range ip_subnets_left before first between →
        IsSubnetStep ip_network ip_subnet_range ip_subnets_left between second after →
        IsNone first → IsNone second × (after ≡ before) }
{}

/// As an iterator, an IPv4 walk returns the first remaining network, and keeps the others. The call may be made at any
/// time, and returns no more networks than remain.
pub fn ipv4_walk_gives_its_networks(old: Ipv4Subnets, answer: Option<Ipv4Net>, new: Ipv4Subnets)
    ensures next { ⟦<Ipv4Subnets as Iterator>⟧.next_gives old answer new
        ↔ YieldsFirstBy ipv4_network ipv4_subnets_left old answer new }
    ensures at_any_time { ⟦<Ipv4Subnets as Iterator>⟧.can_next old }
    ensures count { ⟦<Ipv4Subnets as Iterator>⟧.remaining old ≡ item_count ipv4_subnets_left old }
{}

/// As an iterator, an IPv6 walk returns the first remaining network, and keeps the others. The call may be made at any
/// time, and returns no more networks than remain.
pub fn ipv6_walk_gives_its_networks(old: Ipv6Subnets, answer: Option<Ipv6Net>, new: Ipv6Subnets)
    ensures next { ⟦<Ipv6Subnets as Iterator>⟧.next_gives old answer new
        ↔ YieldsFirstBy ipv6_network ipv6_subnets_left old answer new }
    ensures at_any_time { ⟦<Ipv6Subnets as Iterator>⟧.can_next old }
    ensures count { ⟦<Ipv6Subnets as Iterator>⟧.remaining old ≡ item_count ipv6_subnets_left old }
{}

/// As an iterator, a walk of either family returns the first remaining network, and keeps the others. The call may be
/// made at any time, and returns no more networks than remain.
pub fn ip_walk_gives_its_networks(old: IpSubnets, answer: Option<IpNet>, new: IpSubnets)
    ensures next { ⟦<IpSubnets as Iterator>⟧.next_gives old answer new
        ↔ YieldsFirstBy ip_network ip_subnets_left old answer new }
    ensures at_any_time { ⟦<IpSubnets as Iterator>⟧.can_next old }
    ensures count { ⟦<IpSubnets as Iterator>⟧.remaining old ≡ item_count ip_subnets_left old }
{}

/// A walk of either family that is made from a walk of one family is that walk.
pub fn ip_walk_from_is_same(ipv4: Ipv4Subnets, ipv6: Ipv6Subnets, subnets: IpSubnets)
    ensures from_ipv4 { ⟦<IpSubnets as From<Ipv4Subnets>>⟧.from_gives ipv4 subnets ↔ (subnets ≡ V4 ipv4) }
    ensures from_ipv6 { ⟦<IpSubnets as From<Ipv6Subnets>>⟧.from_gives ipv6 subnets ↔ (subnets ≡ V6 ipv6) }
{}
