//! The meaning of the ghost members of public traits for each network type: the relation that `contains` decides, the
//! default network, the network that another value is converted to, and the text that is printed.
//!
//! A contract that names a ghost member, such as the contract of `Contains::contains`, promises only what that member
//! says; these laws state it in the words of `specs/`.
ghost use Rattle.std.specs.Prelude.{◌≡◌, ◌↔◌, Some};
ghost use Rattle.ipnet_base.specs.Address.{width, ipv4_address, ipv6_address, ip_address};
ghost use Rattle.ipnet_base.specs.Network.{InBlock, IsSubnetOf};
ghost use Rattle.ipnet.specs.NetworkOf.{ipv4_network, ipv4_network_of, ipv6_network, ipv6_network_of, ip_network};
ghost use Rattle.ipnet.specs.NetworkParts.{network_at};
ghost use Rattle.ipnet.specs.CanonicalTexts.{canonical_text};

use super::{Contains, IpNet, Ipv4Net, Ipv6Net};
use ipnet_base::{IpAddr, Ipv4Addr, Ipv6Addr};
use std::fmt;

/// An IPv4 network contains exactly the addresses in its block, and exactly the networks whose blocks lie in its block.
pub fn ipv4_net_contains_its_block<'a>(net: Ipv4Net, address: &'a Ipv4Addr, other: &'a Ipv4Net)
    ensures addresses { ⟦<Ipv4Net as Contains<&'a Ipv4Addr>>⟧.holds net address.entry
        ↔ InBlock (ipv4_network net) (ipv4_address address.now) }
    ensures networks { ⟦<Ipv4Net as Contains<&'a Ipv4Net>>⟧.holds net other.entry
        ↔ IsSubnetOf (ipv4_network other.now) (ipv4_network net) }
{}

/// An IPv6 network contains exactly the addresses in its block, and exactly the networks whose blocks lie in its block.
pub fn ipv6_net_contains_its_block<'a>(net: Ipv6Net, address: &'a Ipv6Addr, other: &'a Ipv6Net)
    ensures addresses { ⟦<Ipv6Net as Contains<&'a Ipv6Addr>>⟧.holds net address.entry
        ↔ InBlock (ipv6_network net) (ipv6_address address.now) }
    ensures networks { ⟦<Ipv6Net as Contains<&'a Ipv6Net>>⟧.holds net other.entry
        ↔ IsSubnetOf (ipv6_network other.now) (ipv6_network net) }
{}

/// A network of either family contains exactly the addresses in its block, and exactly the networks whose blocks lie in
/// its block. So it contains nothing of the other family.
pub fn ip_net_contains_its_block<'a>(net: IpNet, address: &'a IpAddr, other: &'a IpNet)
    ensures addresses { ⟦<IpNet as Contains<&'a IpAddr>>⟧.holds net address.entry
        ↔ InBlock (ip_network net) (ip_address address.now) }
    ensures networks { ⟦<IpNet as Contains<&'a IpNet>>⟧.holds net other.entry
        ↔ IsSubnetOf (ip_network other.now) (ip_network net) }
{}

/// The defaults are 0.0.0.0/0 and `::/0`; of the type of either family it is 0.0.0.0/0.
pub fn default_nets_contain_all_addresses(ipv4: Ipv4Net, ipv6: Ipv6Net, net: IpNet)
    ensures of_ipv4 { ⟦<Ipv4Net as Default>⟧.is_default ipv4 ↔ (ipv4_network ipv4 ≡ ipv4_network_of 0 0) }
    ensures of_ipv6 { ⟦<Ipv6Net as Default>⟧.is_default ipv6 ↔ (ipv6_network ipv6 ≡ ipv6_network_of 0 0) }
    ensures of_either { ⟦<IpNet as Default>⟧.is_default net ↔ (ip_network net ≡ ipv4_network_of 0 0) }
{}

/// An address becomes the network of this one address, of the prefix length 32 or 128.
pub fn addresses_become_single_nets(
    ipv4: Ipv4Addr,
    ipv6: Ipv6Addr,
    address: IpAddr,
    v4: Ipv4Net,
    v6: Ipv6Net,
    net: IpNet,
)
    ensures of_ipv4 { ⟦<Ipv4Net as From<Ipv4Addr>>⟧.from_gives ipv4 v4
        ↔ (ipv4_network v4 ≡ network_at (ipv4_address ipv4) 32) }
    ensures of_ipv6 { ⟦<Ipv6Net as From<Ipv6Addr>>⟧.from_gives ipv6 v6
        ↔ (ipv6_network v6 ≡ network_at (ipv6_address ipv6) 128) }
    ensures of_either { ⟦<IpNet as From<IpAddr>>⟧.from_gives address net
        ↔ (ip_network net ≡ network_at (ip_address address) (width (ip_address address).family)) }
{}

/// A network of one family becomes the same network, host bits and all, as one of either family.
pub fn nets_of_one_family_stay_the_same(v4: Ipv4Net, v6: Ipv6Net, net: IpNet)
    ensures of_ipv4 { ⟦<IpNet as From<Ipv4Net>>⟧.from_gives v4 net ↔ (ip_network net ≡ ipv4_network v4) }
    ensures of_ipv6 { ⟦<IpNet as From<Ipv6Net>>⟧.from_gives v6 net ↔ (ip_network net ≡ ipv6_network v6) }
{}

/// Networks print as canonical text: under `{}` with every width, fill and flag, and under plain `{:?}`, for
/// whose flags its own `fmt` has a clause.
pub fn nets_print_canonical_text(v4: Ipv4Net, v6: Ipv6Net, net: IpNet)
    ensures of_ipv4 { ⟦<Ipv4Net as fmt::Display>⟧.output v4 ≡ Some (canonical_text (ipv4_network v4)) }
    ensures of_ipv6 { ⟦<Ipv6Net as fmt::Display>⟧.output v6 ≡ Some (canonical_text (ipv6_network v6)) }
    ensures of_either { ⟦<IpNet as fmt::Display>⟧.output net ≡ Some (canonical_text (ip_network net)) }
    ensures styled_ipv4 { ⟦<Ipv4Net as fmt::Display>⟧.styled_output v4
        ≡ (λ _. Some (canonical_text (ipv4_network v4))) }
    ensures styled_ipv6 { ⟦<Ipv6Net as fmt::Display>⟧.styled_output v6
        ≡ (λ _. Some (canonical_text (ipv6_network v6))) }
    ensures styled_either { ⟦<IpNet as fmt::Display>⟧.styled_output net
        ≡ (λ _. Some (canonical_text (ip_network net))) }
    ensures debug_ipv4 { ⟦<Ipv4Net as fmt::Debug>⟧.debug_output v4 ≡ Some (canonical_text (ipv4_network v4)) }
    ensures debug_ipv6 { ⟦<Ipv6Net as fmt::Debug>⟧.debug_output v6 ≡ Some (canonical_text (ipv6_network v6)) }
    ensures debug_either { ⟦<IpNet as fmt::Debug>⟧.debug_output net ≡ Some (canonical_text (ip_network net)) }
{}
