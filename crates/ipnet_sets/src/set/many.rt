//! Sets made of lists: of networks, of ranges, and of sets.
ghost use Rattle.std.specs.Prelude.{◌≡◌, ◌↔◌, [], map, Any, IsOk, IfOk};
ghost use Rattle.ipnet_base.specs.Address.{Address};
ghost use Rattle.ipnet_base.specs.RangeOf.{ip_range};
ghost use Rattle.ipnet.specs.NetworkOf.{ip_network};
ghost use Rattle.ipnet_sets.specs.ManySets.{IsInSome, IsInEach};
ghost use Rattle.ipnet_sets.specs.Members.{IsMember, HasAddressesOf};
ghost use Rattle.ipnet_sets.specs.SetRanges.{IsInRange};

use crate::set::IpSet;
use crate::set::builder::IpSetBuilder;
use ipnet::{IpAddrRange, IpNet};
use std::alloc::{AllocError, Global};

impl IpSet {
    /// The set of the addresses that lie in the networks' blocks. Order, repeats, overlaps and host bits of the list
    /// do not matter. Fails only when memory runs out; an empty list needs none.
    ///
    /// ```text
    /// 10.0.0.0/30, 10.0.0.4/31: 10.0.0.0-10.0.0.5
    /// ```
    pub fn from_networks(alloc: Global, networks: &[IpNet]) -> Result<IpSet, AllocError>
        ensures empty { networks.now ≡ [] → IsOk result }
        ensures members { IfOk result (λ s. HasAddressesOf s (map ip_network networks.now)) }
    {
        let mut builder = IpSetBuilder::new(alloc);
        for network in networks {
            builder.push_network(network)?;
        }
        builder.into_set(alloc)
    }

    /// Returns the set of the addresses that lie in the ranges. Order, repeats and overlaps do not matter, and a range
    /// whose start is above its end adds nothing. Fails only when memory runs out; an empty list needs none.
    ///
    /// ```text
    /// 10.0.0.4 to 10.0.0.5, 10.0.0.0 to 10.0.0.3, fd00::3 to fd00::: 10.0.0.0-10.0.0.5
    /// ```
    pub fn from_ranges(alloc: Global, ranges: &[IpAddrRange]) -> Result<IpSet, AllocError>
        ensures empty { ranges.now ≡ [] → IsOk result }
        ensures members { IfOk result (λ s. (x : Address)
            → IsMember s x ↔ Any (λ r. IsInRange r x) (map ip_range ranges.now)) }
    {
        let mut builder = IpSetBuilder::new(alloc);
        for range in ranges {
            builder.push(*range)?;
        }
        builder.into_set(alloc)
    }

    /// Returns the set of the addresses that are in one of the sets at least. Fails only when memory runs out; an empty
    /// list needs none.
    ///
    /// Takes the sets by halves, so the time grows with the number of their ranges and the logarithm of the number of
    /// sets.
    ///
    /// ```text
    /// 10.0.0.0-10.0.0.5, 10.0.0.9, 10.0.0.3-10.0.0.8: 10.0.0.0-10.0.0.9; of no set: no address
    /// ```
    pub fn union_all(alloc: Global, sets: &[IpSet]) -> Result<IpSet, AllocError>
        ensures empty { sets.now ≡ [] → IsOk result }
        ensures members { IfOk result (λ s. (x : Address) → IsMember s x ↔ IsInSome IsMember sets.now x) }
    {
        match sets {
            [] => Ok(IpSet::new(alloc)),
            [set] => set.clone(),
            [first, second] => first.union(alloc, second),
            _ => {
                let (front, back) = sets.split_at(sets.len() / 2);
                let front = IpSet::union_all(alloc, front)?;
                let back = IpSet::union_all(alloc, back)?;
                front.union(alloc, &back)
            }
        }
    }

    /// Returns the set of the addresses that are in every one of the sets; no address if there is no set. Fails only
    /// when memory runs out; an empty list needs none. Takes the sets by halves, as `union_all` does.
    ///
    /// ```text
    /// 10.0.0.0-10.0.0.5, 10.0.0.2-10.0.0.9, 10.0.0.3-10.0.0.8: 10.0.0.3-10.0.0.5; of no set: no address
    /// ```
    pub fn intersection_all(alloc: Global, sets: &[IpSet]) -> Result<IpSet, AllocError>
        ensures empty { sets.now ≡ [] → IsOk result }
        ensures members { IfOk result (λ s. (x : Address) → IsMember s x ↔ IsInEach IsMember sets.now x) }
    {
        match sets {
            [] => Ok(IpSet::new(alloc)),
            [set] => set.clone(),
            [first, second] => first.intersection(alloc, second),
            _ => {
                let (front, back) = sets.split_at(sets.len() / 2);
                let front = IpSet::intersection_all(alloc, front)?;
                let back = IpSet::intersection_all(alloc, back)?;
                front.intersection(alloc, &back)
            }
        }
    }
}
