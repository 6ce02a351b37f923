//! A set that is put together range by range.
ghost use Rattle.std.specs.Prelude.{◌≡◌, ◌⊎◌, ◌↔◌, map, IsOk, IfOk, OnOk, OnErr};
ghost use Rattle.ipnet_base.specs.Address.{IPv4, IPv6, Address, IsAddress, ip_address};
ghost use Rattle.ipnet_base.specs.Network.{InBlock};
ghost use Rattle.ipnet_base.specs.RangeOf.{ip_range};
ghost use Rattle.ipnet.specs.NetworkOf.{ip_network};
ghost use Rattle.ipnet_sets.specs.Members.{IsMember, IsFromTo};
ghost use Rattle.ipnet_sets.specs.SetRanges.{IsInRange};
ghost use Rattle.ipnet_sets.specs.Boundaries.{AreBoundaries};

use crate::gather;
use crate::number::NumberRange;
use crate::set::IpSet;
use ipnet::{IpAddr, IpAddrRange, IpNet};
use std::alloc::{AllocError, Global};

/// Collects ranges of addresses, in any order, and makes a set of them.
///
/// Ranges that come in order are joined at once, so a sorted list needs no more memory than its set. Until the set is
/// made, every other range needs 8 bytes in IPv4, and 32 bytes in IPv6.
///
/// ```text
/// push_range(10.0.0.4, 10.0.0.5), push_network(10.0.0.0/30), into_set(): the set of 10.0.0.0-10.0.0.5
/// ```
#[derive(Drop)]
pub struct IpSetBuilder {
    ipv4: Vec<u32>,
    ipv6: Vec<u128>,
    ipv4_waiting: Vec<NumberRange<u32>>,
    ipv6_waiting: Vec<NumberRange<u128>>,
    ghost ipv4_boundaries: { AreBoundaries IPv4 (map (λ n. n) ipv4.items) },
    ghost ipv6_boundaries: { AreBoundaries IPv6 (map (λ n. n) ipv6.items) },
}

impl IpSetBuilder {
    ghost use Rattle.ipnet_sets.specs.Pushed.{IsPushed};

    /// Returns a builder without an address. Allocates nothing.
    pub fn new(alloc: Global) -> IpSetBuilder
        ensures { (x : Address) → ¬ (IsPushed result x) }
    {
        IpSetBuilder {
            ipv4: Vec::new(alloc),
            ipv6: Vec::new(alloc),
            ipv4_waiting: Vec::new(alloc),
            ipv6_waiting: Vec::new(alloc),
        }
    }

    /// Adds the addresses from the first to the last, both included.
    ///
    /// Adds none if `start` is above `end`, or if they are of different families. Fails only when memory runs out; the
    /// builder then has the addresses that it had before.
    ///
    /// ```text
    /// from 10.0.0.3 to 10.0.0.5: adds 10.0.0.3, 10.0.0.4 and 10.0.0.5
    /// ```
    pub fn push_range(&mut self, start: IpAddr, end: IpAddr) -> Result<(), AllocError>
        ensures added { OnOk result ((x : Address) → IsPushed self.new x
            ↔ (IsPushed self.old x ⊎ IsFromTo (ip_address start) (ip_address end) x)) }
        ensures err { OnErr result ((x : Address) → IsPushed self.new x ↔ IsPushed self.old x) }
    {
        match (start, end) {
            (IpAddr::V4(start), IpAddr::V4(end)) => {
                let waiting = &mut self.ipv4_waiting;
                gather::push(&mut self.ipv4, waiting, start.to_bits(), end.to_bits())
            }
            (IpAddr::V6(start), IpAddr::V6(end)) => {
                let waiting = &mut self.ipv6_waiting;
                gather::push(&mut self.ipv6, waiting, start.to_bits(), end.to_bits())
            }
            _ => Ok(()),
        }
    }

    /// Adds the addresses of the range; none if its start is above its end. Fails as `push_range` does.
    pub fn push(&mut self, range: IpAddrRange) -> Result<(), AllocError>
        ensures added { OnOk result ((x : Address) → IsPushed self.new x
            ↔ (IsPushed self.old x ⊎ IsInRange (ip_range range) x)) }
        ensures err { OnErr result ((x : Address) → IsPushed self.new x ↔ IsPushed self.old x) }
    {
        if let (Some(start), Some(end)) = (range.min(), range.max()) {
            self.push_range(start, end)?;
        }
        Ok(())
    }

    /// Adds the addresses of the network's block, whatever its host bits. Fails as `push_range` does.
    ///
    /// ```text
    /// of 10.0.0.5/30: adds 10.0.0.4 to 10.0.0.7
    /// ```
    pub fn push_network(&mut self, network: &IpNet) -> Result<(), AllocError>
        ensures added { OnOk result ((x : Address) → IsPushed self.new x
            ↔ (IsPushed self.old x ⊎ InBlock (ip_network network.now) x)) }
        ensures err { OnErr result ((x : Address) → IsPushed self.new x ↔ IsPushed self.old x) }
    {
        self.push_range(network.network(), network.broadcast())
    }

    /// Adds the address. Fails as `push_range` does.
    pub fn push_address(&mut self, address: IpAddr) -> Result<(), AllocError>
        ensures added { OnOk result ((x : Address) → IsPushed self.new x
            ↔ (IsPushed self.old x ⊎ (x ≡ ip_address address))) }
        ensures err { OnErr result ((x : Address) → IsPushed self.new x ↔ IsPushed self.old x) }
    {
        self.push_range(address, address)
    }

    /// Returns the set of the addresses. Fails only when memory runs out; a builder without an address needs none.
    ///
    /// The time grows with the number of ranges that came out of order and its logarithm, and linearly with the ranges
    /// of each family that has such a range. A family without one is not copied.
    ///
    /// ```text
    /// after push_address(10.0.0.1), push_address(10.0.0.0): the set of 10.0.0.0-10.0.0.1
    /// ```
    pub fn into_set(self, alloc: Global) -> Result<IpSet, AllocError>
        ensures empty { ((x : Address) → ¬ (IsPushed self x)) → IsOk result }
        ensures members { IfOk result (λ s. (x : Address) → IsMember s x ↔ IsPushed self x) }
    {
        let IpSetBuilder {
            ipv4,
            ipv6,
            ipv4_waiting,
            ipv6_waiting,
        } = self;
        let ipv4 = gather::united(alloc, ipv4, ipv4_waiting)?;
        let ipv6 = gather::united(alloc, ipv6, ipv6_waiting)?;
        Ok(IpSet { ipv4, ipv6 })
    }
}
