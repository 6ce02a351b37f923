//! The smallest network around the addresses of one family of a set.
ghost use Rattle.std.specs.Prelude.{◌≡◌, ◌≤◌, ◌↔◌, ℕ, IfSome, IsNone, map, false};
ghost use Rattle.ipnet_base.specs.Address.{IPv4, IPv6, greatest_number};
ghost use Rattle.ipnet.specs.NetworkOf.{ip_network, ipv4_network, ipv6_network};
ghost use Rattle.ipnet_sets.specs.Boundaries.{AreBoundaries, is_inside};
ghost use Rattle.ipnet_sets.specs.Supernets.{IsSmallestAround, IsWithin};

use crate::boundaries;
use crate::common::common_supernet;
use crate::number::Number;
use crate::set::IpSet;
use ipnet::{IpNet, Ipv4Net, Ipv6Net};

/// The smallest network that contains the numbers of one family, or `None` if there are none.
fn smallest_around<T: Number>(boundaries: &[T]) -> Option<IpNet>
    requires { AreBoundaries T.family (map T.number boundaries.now) }
    ensures some { IfSome result (λ n.
        IsSmallestAround (IsWithin T.family (map T.number boundaries.now)) (ip_network n)) }
    ensures none { IsNone result ↔ ((x : ℕ) → x ≤ greatest_number T.family
        → is_inside (map T.number boundaries.now) x ≡ false) }
{
    let first = boundaries::first(boundaries)?;
    let last = boundaries::last(boundaries)?;
    common_supernet(&IpNet::from(first.address()), &IpNet::from(last.address()))
}

impl IpSet {
    ghost use Rattle.ipnet_sets.specs.Members.{IsMemberOf, HasFamily};

    /// Returns the smallest network that contains all IPv4 addresses of the set, or `None` if it has none. Allocates
    /// nothing; the time does not depend on the set.
    ///
    /// ```text
    /// of 10.20.3.0-10.20.4.9 and fd00::1: Some(10.20.0.0/21); of fd00::1: None
    /// ```
    pub fn ipv4_supernet(&self) -> Option<Ipv4Net>
        ensures some { IfSome result (λ n. IsSmallestAround (IsMemberOf IPv4 self.now) (ipv4_network n)) }
        ensures none { IsNone result ↔ ¬ (HasFamily IPv4 self.now) }
    {
        match smallest_around(self.ipv4.as_slice()) {
            Some(IpNet::V4(network)) => Some(network),
            _ => None,
        }
    }

    /// Returns the smallest network that contains all IPv6 addresses of the set, or `None` if it has none. Allocates
    /// nothing; the time does not depend on the set.
    ///
    /// ```text
    /// of 10.20.3.0-10.20.4.9 and fd00::1: Some(fd00::1/128); of 10.0.0.1: None
    /// ```
    pub fn ipv6_supernet(&self) -> Option<Ipv6Net>
        ensures some { IfSome result (λ n. IsSmallestAround (IsMemberOf IPv6 self.now) (ipv6_network n)) }
        ensures none { IsNone result ↔ ¬ (HasFamily IPv6 self.now) }
    {
        match smallest_around(self.ipv6.as_slice()) {
            Some(IpNet::V6(network)) => Some(network),
            _ => None,
        }
    }
}
