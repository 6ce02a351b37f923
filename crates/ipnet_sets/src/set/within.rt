//! The addresses of a set that are in a network.
ghost use Rattle.std.specs.Prelude.{◌↔◌, IsTrue, IfOk};
ghost use Rattle.ipnet_base.specs.Address.{Address};
ghost use Rattle.ipnet_base.specs.Network.{InBlock};
ghost use Rattle.ipnet.specs.NetworkOf.{ip_network};
ghost use Rattle.ipnet_sets.specs.Parts.{IsInPart};

use crate::boundaries;
use crate::set::IpSet;
use ipnet::IpNet;
use std::alloc::{AllocError, Global};

impl IpSet {
    ghost use Rattle.ipnet_sets.specs.Members.{IsMember, HasOneMoreRange};

    /// Returns the addresses of the set that are in the network's block; host bits do not matter. Fails only if memory
    /// runs out.
    ///
    /// Takes O(log n + k) time, for n ranges of the set of which k have addresses of the block.
    ///
    /// ```text
    /// of 10.0.0.0-10.0.0.9 and 10.0.1.0 within 10.0.0.8/29: 10.0.0.8-10.0.0.9
    /// ```
    pub fn within(&self, alloc: Global, network: &IpNet) -> Result<IpSet, AllocError>
        ensures members { IfOk result (λ s. (x : Address)
            → IsMember s x ↔ IsInPart (IsMember self.now) (ip_network network.now) x) }
        ensures ranges { IfOk result (λ s. HasOneMoreRange s self.now) }
    {
        match network {
            IpNet::V4(network) => {
                let first = network.network().to_bits();
                let last = network.broadcast().to_bits();
                let ipv4 = boundaries::part_between(alloc, self.ipv4.as_slice(), first, last)?;
                let ipv6 = Vec::new(alloc);
                Ok(IpSet { ipv4, ipv6 })
            }
            IpNet::V6(network) => {
                let first = network.network().to_bits();
                let last = network.broadcast().to_bits();
                let ipv6 = boundaries::part_between(alloc, self.ipv6.as_slice(), first, last)?;
                let ipv4 = Vec::new(alloc);
                Ok(IpSet { ipv4, ipv6 })
            }
        }
    }
    /// Returns whether all addresses of the set are in the network's block. Allocates nothing; the time does not depend
    /// on the set.
    ///
    /// ```text
    /// 10.0.0.8-10.0.0.9 is within 10.0.0.8/29, and not within 10.0.0.8/32; the empty set is within each network
    /// ```
    pub fn is_within(&self, network: &IpNet) -> bool
        ensures { IsTrue result ↔ ((x : Address) → IsMember self.now x → InBlock (ip_network network.now) x) }
    {
        match (self.first(), self.last()) {
            (Some(first), Some(last)) => network.contains(&first) && network.contains(&last),
            _ => true,
        }
    }
}
