//! Laws of all values of the network types: `==`, the order and the hash depend on the network that a value represents,
//! including host bits; the clone is the same value; a network's netmask reads back as its prefix length; and which
//! addresses of a network are hosts, and how many.
//!
//! ```text
//! 10.0.0.0/24 < 10.0.0.1/8 < 10.0.0.1/24 < ::/0, and no two of these are equal or feed a hasher the same
//! ```
ghost use Rattle.std.specs.Prelude.{◌≡◌, ◌-◌, ◌^◌, ◌<◌, ◌≤◌, ◌↔◌, Contains};
ghost use Rattle.ipnet_base.specs.Address.{Address, IPv4, IPv6};
ghost use Rattle.ipnet_base.specs.Network.{Network, IsNetwork, IsBefore, InBlock, IsLeastOf, IsGreatestOf};
ghost use Rattle.ipnet_base.specs.Ranges.{AddressRange, addresses_of, address_count};
ghost use Rattle.ipnet_base.specs.Values.{ComparesBy, HashesBy, ClonesExactly};
ghost use Rattle.ipnet.specs.NetworkOf.{ipv4_network, ipv6_network, ip_network};
ghost use Rattle.ipnet.specs.NetworkParts.{IsHostRange};
ghost use Rattle.ipnet.specs.declared.net.IpNet.{IpNet};
ghost use Rattle.ipnet.specs.declared.net.ipv4_net.Ipv4Net.{Ipv4Net};
ghost use Rattle.ipnet.specs.declared.net.ipv6_net.Ipv6Net.{Ipv6Net};

use super::{IpNet, Ipv4Net, Ipv6Net};
use ipnet_base::{PrefixLenError, ip_mask_to_prefix, ipv4_mask_to_prefix, ipv6_mask_to_prefix};
use std::hash::Hash;

/// Each IPv4 network has a number of 32 bits and a prefix length of at most 32. Two values are equal if and only if
/// they represent the same network. They are ordered as networks, and feed a hasher the same if and only if they are
/// equal. The clone is the same network, and cloning never fails.
pub fn ipv4_nets_compare_by_network()
    ensures valid { (n : Ipv4Net) → IsNetwork (ipv4_network n) }
    ensures compare { (a b : Ipv4Net) → ComparesBy ipv4_network IsBefore ⟦<Ipv4Net as PartialEq>⟧.eq
        ⟦<Ipv4Net as Ord>⟧.cmp ⟦<Ipv4Net as PartialOrd>⟧.partial_cmp a b }
    ensures hash { (a b : Ipv4Net) → HashesBy ipv4_network ⟦<Ipv4Net as Hash>⟧.hash_input a b }
    ensures clone { ClonesExactly ⟦<Ipv4Net as Clone>⟧.is_clone ⟦<Ipv4Net as Clone>⟧.is_infallible }
{}

/// Each IPv6 network has a number of 128 bits and a prefix length of at most 128. Two values are equal if and only if
/// they represent the same network. They are ordered as networks, and feed a hasher the same if and only if they are
/// equal. The clone is the same network, and cloning never fails.
pub fn ipv6_nets_compare_by_network()
    ensures valid { (n : Ipv6Net) → IsNetwork (ipv6_network n) }
    ensures compare { (a b : Ipv6Net) → ComparesBy ipv6_network IsBefore ⟦<Ipv6Net as PartialEq>⟧.eq
        ⟦<Ipv6Net as Ord>⟧.cmp ⟦<Ipv6Net as PartialOrd>⟧.partial_cmp a b }
    ensures hash { (a b : Ipv6Net) → HashesBy ipv6_network ⟦<Ipv6Net as Hash>⟧.hash_input a b }
    ensures clone { ClonesExactly ⟦<Ipv6Net as Clone>⟧.is_clone ⟦<Ipv6Net as Clone>⟧.is_infallible }
{}

/// Networks of either family have a number and a prefix length within its width. Two values are equal if and only if
/// they represent the same network. They are ordered as networks, so IPv4 before IPv6, and feed a hasher the same if
/// and only if they are equal. The clone is the same network, and cloning never fails.
pub fn ip_nets_compare_by_network()
    ensures valid { (n : IpNet) → IsNetwork (ip_network n) }
    ensures compare { (a b : IpNet) → ComparesBy ip_network IsBefore ⟦<IpNet as PartialEq>⟧.eq
        ⟦<IpNet as Ord>⟧.cmp ⟦<IpNet as PartialOrd>⟧.partial_cmp a b }
    ensures hash { (a b : IpNet) → HashesBy ip_network ⟦<IpNet as Hash>⟧.hash_input a b }
    ensures clone { ClonesExactly ⟦<IpNet as Clone>⟧.is_clone ⟦<IpNet as Clone>⟧.is_infallible }
{}

/// The netmask of an IPv4 network reads back as its prefix length.
pub fn ipv4_netmask_reads_back(network: &Ipv4Net) -> Result<u8, PrefixLenError>
    ensures { result ≡ Ok (ipv4_network network.now).prefix_len }
{
    ipv4_mask_to_prefix(network.netmask())
}

/// The netmask of an IPv6 network reads back as its prefix length.
pub fn ipv6_netmask_reads_back(network: &Ipv6Net) -> Result<u8, PrefixLenError>
    ensures { result ≡ Ok (ipv6_network network.now).prefix_len }
{
    ipv6_mask_to_prefix(network.netmask())
}

/// The netmask of a network of either family reads back as its prefix length.
pub fn ip_netmask_reads_back(network: &IpNet) -> Result<u8, PrefixLenError>
    ensures { result ≡ Ok (ip_network network.now).prefix_len }
{
    ip_mask_to_prefix(network.netmask())
}

/// The hosts of an IPv4 network below prefix length 31 are the addresses of its block except the least and the
/// greatest. At 31 and 32, and in an IPv6 network of any prefix length, they are the whole block.
pub fn hosts_lie_in_the_block()
    ensures ipv4_below_31 { (n : Network) (hosts : AddressRange) (x : Address) → n.family ≡ IPv4 → n.prefix_len < 31
        → IsHostRange n hosts
        → Contains (addresses_of hosts) x ↔ (InBlock n x × ¬ (IsLeastOf n x) × ¬ (IsGreatestOf n x)) }
    ensures ipv4_from_31 { (n : Network) (hosts : AddressRange) (x : Address) → n.family ≡ IPv4 → 31 ≤ n.prefix_len
        → IsHostRange n hosts → Contains (addresses_of hosts) x ↔ InBlock n x }
    ensures ipv6 { (n : Network) (hosts : AddressRange) (x : Address) → n.family ≡ IPv6
        → IsHostRange n hosts → Contains (addresses_of hosts) x ↔ InBlock n x }
{}

/// Below prefix length 31 an IPv4 network has two hosts fewer than addresses; at 31 it has two hosts, and at 32 one. In
/// an IPv6 network every address is a host.
pub fn hosts_are_counted()
    ensures ipv4_below_31 { (n : Network) (hosts : AddressRange) → n.family ≡ IPv4 → n.prefix_len < 31
        → IsHostRange n hosts → address_count hosts ≡ 2 ^ (32 - n.prefix_len) - 2 }
    ensures ipv4_at_31 { (n : Network) (hosts : AddressRange) → n.family ≡ IPv4 → n.prefix_len ≡ 31
        → IsHostRange n hosts → address_count hosts ≡ 2 }
    ensures ipv4_at_32 { (n : Network) (hosts : AddressRange) → n.family ≡ IPv4 → n.prefix_len ≡ 32
        → IsHostRange n hosts → address_count hosts ≡ 1 }
    ensures ipv6 { (n : Network) (hosts : AddressRange) → n.family ≡ IPv6
        → IsHostRange n hosts → address_count hosts ≡ 2 ^ (128 - n.prefix_len) }
{}
