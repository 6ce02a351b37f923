//! Sets of addresses of both families.
ghost use Rattle.std.specs.Prelude.{◌≡◌, ◌↔◌, IsTrue, false, map, [], ◌++◌, IsOk, IfOk, OnOk, IsNone, IfSome};
ghost use Rattle.ipnet_base.specs.Address.{IPv4, IPv6, Address, IsAddress, ip_address};
ghost use Rattle.ipnet_base.specs.Network.{InBlock};
ghost use Rattle.ipnet_base.specs.Blocks.{AreMaximalBlocks};
ghost use Rattle.ipnet.specs.NetworkOf.{ip_network};
ghost use Rattle.ipnet_sets.specs.SetRanges.{AreRangesOf, AreFewestRangesOf};
ghost use Rattle.ipnet_sets.specs.Boundaries.{AreBoundaries, combined};

use crate::number::Number;
use crate::operation::Operation;
use crate::set_networks::{IpSetNetworks, empty_walk};
use crate::set_ranges::IpSetRanges;
use crate::{boundaries, gather};
use ipnet::{IpAddr, IpAddrRange, IpNet};
use std::alloc::{AllocError, Global};
use std::fmt;

pub mod builder;
mod combine;
pub mod laws;
mod many;
mod supernets;
mod within;

/// A set of IPv4 and IPv6 addresses.
///
/// The set is stored by the numbers at which it begins and ends. So a set of a few ranges is small, even if it has many
/// addresses.
///
/// Sets are equal if and only if they have the same addresses. The order and the hash depend only on the addresses too.
///
/// ```text
/// from 10.0.0.0/30 and 10.0.0.4/31: the addresses 10.0.0.0 to 10.0.0.5
/// ```
#[derive(PartialEq, Eq, PartialOrd, Ord, Hash, Drop)]
pub struct IpSet {
    pub(crate) ipv4: Vec<u32>,
    pub(crate) ipv6: Vec<u128>,
    ghost ipv4_boundaries: { AreBoundaries IPv4 (map (λ n. n) ipv4.items) },
    ghost ipv6_boundaries: { AreBoundaries IPv6 (map (λ n. n) ipv6.items) },
}

impl IpSet {
    ghost use Rattle.ipnet_sets.specs.NetworksLeft.{networks_left};
    ghost use Rattle.ipnet_sets.specs.RangesLeft.{ranges_left};
    ghost use Rattle.ipnet_sets.specs.Members.{is_member, IsMember, IsMemberOf, IsCountOf, HasFamily};
    ghost use Rattle.ipnet_sets.specs.Members.{HasNoMoreRanges, HasOneMoreRange};
    ghost use Rattle.ipnet_sets.specs.Members.{HasNoAddress, IsSubset, IsUnion, IsIntersection, IsDifference};
    ghost use Rattle.ipnet_sets.specs.Members.{IsSymmetricDifference, IsComplement, HasAddressesOf};
    ghost use Rattle.ipnet_sets.specs.Members.{IsFirstOf, IsLastOf, IsFromTo};

    /// The empty set.
    pub fn new(alloc: Global) -> IpSet
        ensures { HasNoAddress result }
    {
        IpSet {
            ipv4: Vec::new(alloc),
            ipv6: Vec::new(alloc),
        }
    }

    /// Returns the set of the addresses from `start` to `end`, both included.
    ///
    /// It is empty if `start` is above `end`, or if the two have different families. Fails only if memory runs out.
    ///
    /// ```text
    /// from 10.0.0.3 to 10.0.0.8: 10.0.0.3, 10.0.0.4, 10.0.0.5, 10.0.0.6, 10.0.0.7, 10.0.0.8
    /// from 10.0.0.8 to 10.0.0.3: no address
    /// ```
    pub fn from_range(alloc: Global, start: IpAddr, end: IpAddr) -> Result<IpSet, AllocError>
        ensures { IfOk result (λ s. (x : Address)
            → IsMember s x ↔ IsFromTo (ip_address start) (ip_address end) x) }
    {
        let mut set = IpSet::new(alloc);
        match (start, end) {
            (IpAddr::V4(start), IpAddr::V4(end)) => {
                set.ipv4 = gather::from_range(alloc, start.to_bits(), end.to_bits())?;
            }
            (IpAddr::V6(start), IpAddr::V6(end)) => {
                set.ipv6 = gather::from_range(alloc, start.to_bits(), end.to_bits())?;
            }
            _ => {}
        }
        Ok(set)
    }

    /// Returns the set of the addresses of the network's block; host bits do not matter. Fails only if memory runs out.
    ///
    /// ```text
    /// of 10.0.0.5/30: 10.0.0.4-10.0.0.7
    /// ```
    pub fn from_network(alloc: Global, network: &IpNet) -> Result<IpSet, AllocError>
        ensures { IfOk result (λ s. (x : Address) → IsMember s x ↔ InBlock (ip_network network.now) x) }
    {
        IpSet::from_range(alloc, network.network(), network.broadcast())
    }

    /// The addresses that are in this set or in the other. Fails only when memory runs out.
    ///
    /// ```text
    /// 10.0.0.0-10.0.0.5 and 10.0.0.3-10.0.0.9: 10.0.0.0-10.0.0.9
    /// ```
    pub fn union(&self, alloc: Global, other: &IpSet) -> Result<IpSet, AllocError>
        ensures members { IfOk result (λ s. IsUnion s self.now other.now) }
        ensures ranges { IfOk result (λ s. HasNoMoreRanges s self.now other.now) }
    {
        self.combine(alloc, Operation::Union, other)
    }

    /// The addresses that are in this set and in the other. Fails only when memory runs out.
    ///
    /// ```text
    /// 10.0.0.0-10.0.0.5 and 10.0.0.3-10.0.0.9: 10.0.0.3-10.0.0.5
    /// ```
    pub fn intersection(&self, alloc: Global, other: &IpSet) -> Result<IpSet, AllocError>
        ensures members { IfOk result (λ s. IsIntersection s self.now other.now) }
        ensures ranges { IfOk result (λ s. HasNoMoreRanges s self.now other.now) }
    {
        self.combine(alloc, Operation::Intersection, other)
    }

    /// The addresses that are in this set and not in the other. Fails only when memory runs out.
    ///
    /// ```text
    /// 10.0.0.0-10.0.0.5 and 10.0.0.3-10.0.0.9: 10.0.0.0-10.0.0.2
    /// ```
    pub fn difference(&self, alloc: Global, other: &IpSet) -> Result<IpSet, AllocError>
        ensures members { IfOk result (λ s. IsDifference s self.now other.now) }
        ensures ranges { IfOk result (λ s. HasNoMoreRanges s self.now other.now) }
    {
        self.combine(alloc, Operation::Difference, other)
    }

    /// The addresses that are in exactly one of the two sets. Fails only if memory runs out.
    ///
    /// ```text
    /// 10.0.0.0-10.0.0.5 and 10.0.0.3-10.0.0.9: 10.0.0.0-10.0.0.2 and 10.0.0.6-10.0.0.9
    /// ```
    pub fn symmetric_difference(&self, alloc: Global, other: &IpSet) -> Result<IpSet, AllocError>
        ensures members { IfOk result (λ s. IsSymmetricDifference s self.now other.now) }
        ensures ranges { IfOk result (λ s. HasNoMoreRanges s self.now other.now) }
    {
        self.combine(alloc, Operation::SymmetricDifference, other)
    }

    /// The addresses of both families that are not in this set. Fails only when memory runs out.
    ///
    /// ```text
    /// of no address: 0.0.0.0-255.255.255.255 and ::-ffff:ffff:ffff:ffff:ffff:ffff:ffff:ffff
    /// ```
    pub fn complement(&self, alloc: Global) -> Result<IpSet, AllocError>
        ensures members { IfOk result (λ s. IsComplement s self.now) }
        ensures ranges { IfOk result (λ s. HasOneMoreRange s self.now) }
    {
        // The boundary 0 is the set of all numbers. The numbers in exactly one of this set and that are the complement.
        let not_both = Operation::SymmetricDifference;
        let ipv4 = boundaries::combine(alloc, not_both, self.ipv4.as_slice(), &[0])?;
        let ipv6 = boundaries::combine(alloc, not_both, self.ipv6.as_slice(), &[0])?;
        Ok(IpSet { ipv4, ipv6 })
    }

    /// Returns whether the address is in the set. Allocates nothing, and takes O(log n) time for n ranges.
    ///
    /// An IPv4 address and the IPv6 address that maps it are two addresses.
    ///
    /// ```text
    /// 10.0.0.0-10.0.0.5 contains 10.0.0.5, and neither 10.0.0.6 nor ::ffff:10.0.0.5
    /// ```
    pub fn contains(&self, ip: &IpAddr) -> bool
        ensures { IsTrue result ↔ IsMember self.now (ip_address ip.now) }
    {
        match ip {
            IpAddr::V4(ip) => boundaries::contains(self.ipv4.as_slice(), ip.to_bits()),
            IpAddr::V6(ip) => boundaries::contains(self.ipv6.as_slice(), ip.to_bits()),
        }
    }

    /// Returns whether every address of the network's block is in the set. Allocates nothing, and takes O(log n) time
    /// for n ranges.
    ///
    /// ```text
    /// 10.0.0.0-10.0.0.5 covers 10.0.0.4/31, and does not cover 10.0.0.4/30
    /// ```
    pub fn covers(&self, network: &IpNet) -> bool
        ensures { IsTrue result ↔ ((x : Address) → InBlock (ip_network network.now) x → IsMember self.now x) }
    {
        self.covers_range(network.network(), network.broadcast())
    }

    /// Returns whether every address from `start` to `end`, both included, is in the set. Allocates nothing, and takes
    /// O(log n) time for n ranges.
    ///
    /// If `start` is above `end`, or they have different families, there is no such address, and the result is true.
    ///
    /// ```text
    /// 10.0.0.0-10.0.0.5 covers 10.0.0.3 to 10.0.0.5, and does not cover 10.0.0.3 to 10.0.0.6
    /// ```
    pub fn covers_range(&self, start: IpAddr, end: IpAddr) -> bool
        ensures { IsTrue result ↔ ((x : Address)
            → IsFromTo (ip_address start) (ip_address end) x → IsMember self.now x) }
    {
        match (start, end) {
            (IpAddr::V4(start), IpAddr::V4(end)) => {
                boundaries::covers_range(self.ipv4.as_slice(), start.to_bits(), end.to_bits())
            }
            (IpAddr::V6(start), IpAddr::V6(end)) => {
                boundaries::covers_range(self.ipv6.as_slice(), start.to_bits(), end.to_bits())
            }
            _ => true,
        }
    }

    /// Returns whether the set has an IPv4 address. Allocates nothing; the time does not depend on the set.
    ///
    /// ```text
    /// of 10.0.0.0/8: true; of fd00::/8: false
    /// ```
    pub fn has_ipv4(&self) -> bool
        ensures { IsTrue result ↔ HasFamily IPv4 self.now }
    {
        !self.ipv4.as_slice().is_empty()
    }

    /// Returns whether the set has an IPv6 address. Allocates nothing; the time does not depend on the set.
    ///
    /// ```text
    /// of 10.0.0.0/8: false; of fd00::/8: true
    /// ```
    pub fn has_ipv6(&self) -> bool
        ensures { IsTrue result ↔ HasFamily IPv6 self.now }
    {
        !self.ipv6.as_slice().is_empty()
    }

    /// Whether the operation makes the empty set of this one and the other.
    fn makes_nothing(&self, operation: Operation, other: &IpSet) -> bool
        ensures { IsTrue result ↔ ((x : Address) → IsAddress x
            → combined operation (is_member self.now x) (is_member other.now x) ≡ false) }
    {
        boundaries::makes_nothing(operation, self.ipv4.as_slice(), other.ipv4.as_slice())
            && boundaries::makes_nothing(operation, self.ipv6.as_slice(), other.ipv6.as_slice())
    }

    /// Returns whether every address of this set is in the other. Allocates nothing.
    ///
    /// ```text
    /// 10.0.0.1-10.0.0.3 is a subset of 10.0.0.0-10.0.0.5; the empty set is one of each set
    /// ```
    pub fn is_subset(&self, other: &IpSet) -> bool
        ensures { IsTrue result ↔ IsSubset self.now other.now }
    {
        self.makes_nothing(Operation::Difference, other)
    }

    /// Returns whether no address is in both sets. Allocates nothing.
    ///
    /// ```text
    /// 10.0.0.0-10.0.0.5 and 10.0.0.6-10.0.0.9 are disjoint; 10.0.0.0-10.0.0.5 and 10.0.0.5-10.0.0.9 are not
    /// ```
    pub fn is_disjoint(&self, other: &IpSet) -> bool
        ensures { IsTrue result ↔ ((x : Address) → IsMember self.now x → ¬ (IsMember other.now x)) }
    {
        self.makes_nothing(Operation::Intersection, other)
    }

    /// Returns whether the set has no address. Allocates nothing.
    ///
    /// ```text
    /// from 10.0.0.8 to 10.0.0.3: true; from 10.0.0.8 to 10.0.0.8: false
    /// ```
    pub fn is_empty(&self) -> bool
        ensures { IsTrue result ↔ HasNoAddress self.now }
    {
        self.first().is_none()
    }

    /// Returns the fewest ranges that contain exactly the addresses of the set, IPv4 before IPv6, ascending. No two of
    /// them touch. Allocates nothing.
    ///
    /// ```text
    /// of 10.0.0.0/30, 10.0.0.4/31, fd00::/126: 10.0.0.0 to 10.0.0.5, fd00:: to fd00::3
    /// ```
    pub fn ranges(&self) -> IpSetRanges<'_>
        ensures ranges { AreRangesOf (IsMember self.now) (ranges_left result) }
        ensures fewest { AreFewestRangesOf (IsMember self.now) (ranges_left result) }
    {
        IpSetRanges {
            ipv4: self.ipv4.as_slice(),
            ipv6: self.ipv6.as_slice(),
        }
    }

    /// Returns the fewest networks that contain exactly the addresses of the set, one after the other, without host
    /// bits, IPv4 before IPv6 and ascending. They are the networks of `networks`. Allocates nothing.
    ///
    /// ```text
    /// of 10.0.0.0 to 10.0.0.5: 10.0.0.0/30, then 10.0.0.4/31
    /// ```
    pub fn iter_networks(&self) -> IpSetNetworks<'_>
        ensures { AreMaximalBlocks (IsMember self.now) 0 (networks_left result) }
    {
        let ranges = self.ranges();
        IpSetNetworks {
            walk: empty_walk(),
            ranges,
        }
    }

    /// Returns the fewest networks that contain exactly the addresses of the set, without host bits, in order. They are
    /// the maximal blocks of the set. Sets with the same addresses have the same networks, and the networks of a set
    /// made from a list are the aggregate of the list. Fails only if memory runs out, and never for the empty set.
    ///
    /// ```text
    /// of 10.0.0.0 to 10.0.0.5: 10.0.0.0/30, 10.0.0.4/31
    /// ```
    pub fn networks(&self, alloc: Global) -> Result<Vec<IpNet>, AllocError>
        ensures empty { HasNoAddress self.now → IsOk result }
        ensures blocks { IfOk result (λ list. AreMaximalBlocks (IsMember self.now) 0 (map ip_network list.items)) }
    {
        let mut networks = Vec::new(alloc);
        for network in self.iter_networks() {
            networks.push(network)?;
        }
        Ok(networks)
    }

    /// Returns the number of IPv4 addresses in the set: 0 to 2^32.
    ///
    /// ```text
    /// of 10.0.0.0-10.0.0.5: 6; of 0.0.0.0/0: 4294967296; of fd00::/8: 0
    /// ```
    pub fn ipv4_count(&self) -> u64
        ensures { IsCountOf (IsMemberOf IPv4 self.now) result }
    {
        boundaries::count(self.ipv4.as_slice()) as u64
    }

    /// Returns the number of IPv6 addresses in the set: 0 to 2^128 - 1, or `None` if it has all 2^128.
    ///
    /// ```text
    /// of fd00::/126: Some(4); of 10.0.0.0/8: Some(0); of ::/0: None
    /// ```
    pub fn ipv6_count(&self) -> Option<u128>
        ensures none { IsNone result ↔ ((x : Address) → IsAddress x → x.family ≡ IPv6 → IsMember self.now x) }
        ensures some { IfSome result (IsCountOf (IsMemberOf IPv6 self.now)) }
    {
        if boundaries::is_whole(self.ipv6.as_slice()) {
            return None;
        }
        Some(boundaries::count(self.ipv6.as_slice()))
    }

    /// The first address of the set, IPv4 before IPv6, or `None` if it has none.
    ///
    /// ```text
    /// of fd00::/126 and 10.0.0.0/30: Some(10.0.0.0)
    /// ```
    pub fn first(&self) -> Option<IpAddr>
        ensures none { IsNone result ↔ HasNoAddress self.now }
        ensures some { IfSome result (λ a. IsFirstOf (IsMember self.now) (ip_address a)) }
    {
        match boundaries::first(self.ipv4.as_slice()) {
            Some(number) => Some(number.address()),
            None => {
                let number = boundaries::first(self.ipv6.as_slice())?;
                Some(number.address())
            }
        }
    }

    /// The last address of the set, IPv6 after IPv4, or `None` if it has none.
    ///
    /// ```text
    /// of fd00::/126 and 10.0.0.0/30: Some(fd00::3)
    /// ```
    pub fn last(&self) -> Option<IpAddr>
        ensures none { IsNone result ↔ HasNoAddress self.now }
        ensures some { IfSome result (λ a. IsLastOf (IsMember self.now) (ip_address a)) }
    {
        match boundaries::last(self.ipv6.as_slice()) {
            Some(number) => Some(number.address()),
            None => {
                let number = boundaries::last(self.ipv4.as_slice())?;
                Some(number.address())
            }
        }
    }
}

impl Clone for IpSet {
    ghost use Rattle.ipnet_sets.specs.Members.{IsMember};

    ghost is_clone = { λ s t. (x : Address) → IsMember t x ↔ IsMember s x };

    /// A set with the same addresses. Fails only when memory runs out.
    fn clone(&self) -> Result<IpSet, AllocError> {
        let ipv4 = self.ipv4.clone()?;
        let ipv6 = self.ipv6.clone()?;
        Ok(IpSet { ipv4, ipv6 })
    }
}

impl<'a> IntoIterator for &'a IpSet {
    type Item = IpAddrRange;

    type IntoIter = IpSetRanges<'a>;

    ghost use Rattle.ipnet_sets.specs.NetworksLeft.{networks_left};
    ghost use Rattle.ipnet_sets.specs.RangesLeft.{ranges_left};
    ghost use Rattle.ipnet_sets.specs.Members.{IsMember};

    ghost into_iter_gives = { λ set ranges. AreRangesOf (IsMember set.now) (ranges_left ranges) };

    /// The ranges of the set, as `IpSet::ranges` returns them. A loop `for range in &set` goes through them.
    fn into_iter(self) -> IpSetRanges<'a> {
        self.ranges()
    }
}

/// Writes the ranges of the set, as `{10.0.0.0-10.0.0.5, fd00::-fd00::3}`.
impl fmt::Debug for IpSet {
    fn fmt<W: fmt::Write>(&self, f: &mut fmt::Formatter<W>) -> fmt::Result {
        f.write_str("{")?;
        let mut is_first = true;
        for range in self.ranges() {
            if let (Some(start), Some(end)) = (range.min(), range.max()) {
                if !is_first {
                    f.write_str(", ")?;
                }
                is_first = false;
                write!(f, "{start}-{end}")?;
            }
        }
        f.write_str("}")
    }
}
