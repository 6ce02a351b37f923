//! Laws of all walks: `==`, the order and the hash depend on the stored ends and the minimum prefix length, and the
//! clone is the same value.
//!
//! ```text
//! 0.0.0.0 to 0.0.0.6 at 0 < 0.0.0.0 to 0.0.0.6 at 31 < 0.0.0.0 to 0.0.0.7 at 0 < :: to ::6 at 0
//! ```
ghost use Rattle.std.specs.Prelude.{◌≤◌};
ghost use Rattle.ipnet_base.specs.Address.{width};
ghost use Rattle.ipnet_base.specs.Subnets.{IsWalkBefore};
ghost use Rattle.ipnet_base.specs.Values.{ComparesBy, HashesBy, ClonesExactly};
ghost use Rattle.ipnet.specs.SubnetsLeft.{ipv4_subnet_range, ipv6_subnet_range, ip_subnet_range};
ghost use Rattle.ipnet.specs.declared.subnets.IpSubnets.{IpSubnets};
ghost use Rattle.ipnet.specs.declared.subnets.ipv4_subnets.Ipv4Subnets.{Ipv4Subnets};
ghost use Rattle.ipnet.specs.declared.subnets.ipv6_subnets.Ipv6Subnets.{Ipv6Subnets};

use crate::subnets::{IpSubnets, Ipv4Subnets, Ipv6Subnets};
use std::fmt::Debug;
use std::hash::Hash;
use std::iter::FusedIterator;

/// Walks of each type are `Copy` and `Debug`, and they are fused iterators: after `None` they always return `None`. No
/// contract describes the text of `Debug`.
//
// The contract says nothing: the body does not compile if one of the nine implementations, three for each type, is
// missing.
pub fn walks_are_fused_and_debug(ipv4: &Ipv4Subnets, ipv6: &Ipv6Subnets, ip: &IpSubnets) {
    is_fused_and_debug(ipv4);
    is_fused_and_debug(ipv6);
    is_fused_and_debug(ip);
}

/// Does nothing when run: it compiles only for types that are `Copy`, fused and `Debug`.
fn is_fused_and_debug<W: Copy + FusedIterator + Debug>(_: &W) {}

/// Each walk over an IPv4 range has a minimum prefix length of at most 32. Two walks are equal if and only if their
/// stored ends and minimum prefix lengths are equal. They are ordered by these, and feed a hasher the same if and only
/// if they are equal. The clone is the same walk, and cloning never fails.
pub fn ipv4_walks_compare_by_range()
    ensures valid { (s : Ipv4Subnets) → (ipv4_subnet_range s).min_prefix_len ≤ 32 }
    ensures compare { (a b : Ipv4Subnets) → ComparesBy ipv4_subnet_range IsWalkBefore ⟦<Ipv4Subnets as PartialEq>⟧.eq
        ⟦<Ipv4Subnets as Ord>⟧.cmp ⟦<Ipv4Subnets as PartialOrd>⟧.partial_cmp a b }
    ensures hash { (a b : Ipv4Subnets) → HashesBy ipv4_subnet_range ⟦<Ipv4Subnets as Hash>⟧.hash_input a b }
    ensures clone { ClonesExactly ⟦<Ipv4Subnets as Clone>⟧.is_clone ⟦<Ipv4Subnets as Clone>⟧.is_infallible }
{}

/// Each walk over an IPv6 range has a minimum prefix length of at most 128. Two walks are equal if and only if their
/// stored ends and minimum prefix lengths are equal. They are ordered by these, and feed a hasher the same if and only
/// if they are equal. The clone is the same walk, and cloning never fails.
pub fn ipv6_walks_compare_by_range()
    ensures valid { (s : Ipv6Subnets) → (ipv6_subnet_range s).min_prefix_len ≤ 128 }
    ensures compare { (a b : Ipv6Subnets) → ComparesBy ipv6_subnet_range IsWalkBefore ⟦<Ipv6Subnets as PartialEq>⟧.eq
        ⟦<Ipv6Subnets as Ord>⟧.cmp ⟦<Ipv6Subnets as PartialOrd>⟧.partial_cmp a b }
    ensures hash { (a b : Ipv6Subnets) → HashesBy ipv6_subnet_range ⟦<Ipv6Subnets as Hash>⟧.hash_input a b }
    ensures clone { ClonesExactly ⟦<Ipv6Subnets as Clone>⟧.is_clone ⟦<Ipv6Subnets as Clone>⟧.is_infallible }
{}

/// Walks of either family have a minimum prefix length within its width. Two walks are equal if and only if their
/// families, stored ends and minimum prefix lengths are equal. They are ordered by these with IPv4 before IPv6, and
/// feed a hasher the same if and only if they are equal. The clone is the same walk, and cloning never fails.
pub fn ip_walks_compare_by_range()
    ensures valid { (s : IpSubnets) → (ip_subnet_range s).min_prefix_len ≤ width (ip_subnet_range s).family }
    ensures compare { (a b : IpSubnets) → ComparesBy ip_subnet_range IsWalkBefore ⟦<IpSubnets as PartialEq>⟧.eq
        ⟦<IpSubnets as Ord>⟧.cmp ⟦<IpSubnets as PartialOrd>⟧.partial_cmp a b }
    ensures hash { (a b : IpSubnets) → HashesBy ip_subnet_range ⟦<IpSubnets as Hash>⟧.hash_input a b }
    ensures clone { ClonesExactly ⟦<IpSubnets as Clone>⟧.is_clone ⟦<IpSubnets as Clone>⟧.is_infallible }
{}
