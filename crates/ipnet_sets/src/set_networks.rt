//! The networks of a set, one after the other.
ghost use Rattle.std.specs.Prelude.{◌≡◌, ◌≤◌, []};
ghost use Rattle.std.specs.Iterator.{YieldsFirstBy, item_count};
ghost use Rattle.ipnet_base.specs.Address.{width};
ghost use Rattle.ipnet_base.specs.Blocks.{AreMaximalBlocks};
ghost use Rattle.ipnet_base.specs.RangeOf.{ip_range};
ghost use Rattle.ipnet.specs.NetworkOf.{ip_network};
ghost use Rattle.ipnet.specs.SubnetsLeft.{ip_subnets_left, ip_subnet_range};
ghost use Rattle.ipnet_sets.specs.NetworksLeft.{networks_left};
ghost use Rattle.ipnet_sets.specs.SetRanges.{IsInRange};

use crate::set_ranges::IpSetRanges;
use ipnet::{IpAddrRange, IpNet, IpSubnets, Ipv4Addr, Ipv4Subnets, Ipv6Addr, Ipv6Subnets};
use std::iter::FusedIterator;

/// The networks of a set: the fewest networks that have together its addresses, without host bits, IPv4 before IPv6 and
/// ascending. Made by `IpSet::iter_networks`; allocates nothing.
///
/// ```text
/// of 10.0.0.0 to 10.0.0.5: 10.0.0.0/30, 10.0.0.4/31, then None
/// ```
#[derive(Clone, Copy)]
pub struct IpSetNetworks<'a> {
    pub(crate) walk: IpSubnets,
    pub(crate) ranges: IpSetRanges<'a>,
}

/// A walk over no address.
pub(crate) fn empty_walk() -> IpSubnets
    ensures { ip_subnets_left result ≡ [] }
{
    let last = Ipv4Addr::from_bits(u32::MAX);
    IpSubnets::V4(Ipv4Subnets::new(last, Ipv4Addr::from_bits(0), 0))
}

/// Returns the walk over the addresses of a range that has some, by networks of at least this prefix length.
///
/// The caller sees to it that the prefix length is at most the width of the range's family, 32 or 128.
///
/// ```text
/// of 10.0.0.0 to 10.0.0.2, and 0:   10.0.0.0/31, 10.0.0.2/32
/// of 10.0.0.0 to 10.0.0.2, and 32:  10.0.0.0/32, 10.0.0.1/32, 10.0.0.2/32
/// ```
pub fn walk_of(range: IpAddrRange, min_length: u8) -> IpSubnets
    requires some { let r = ip_range range in r.start ≤ r.end }
    requires fits { min_length ≤ width (ip_range range).family }
    ensures blocks { AreMaximalBlocks (IsInRange (ip_range range)) min_length (ip_subnets_left result) }
    ensures some { let walk = ip_subnet_range result in walk.start ≤ walk.end }
{
    match range {
        IpAddrRange::V4(range) => {
            let first = range.min().unwrap_or(Ipv4Addr::from_bits(0));
            let last = range.max().unwrap_or(Ipv4Addr::from_bits(0));
            IpSubnets::V4(Ipv4Subnets::new(first, last, min_length))
        }
        IpAddrRange::V6(range) => {
            let first = range.min().unwrap_or(Ipv6Addr::from_bits(0));
            let last = range.max().unwrap_or(Ipv6Addr::from_bits(0));
            IpSubnets::V6(Ipv6Subnets::new(first, last, min_length))
        }
    }
}

impl Iterator for IpSetNetworks<'_> {
    type Item = IpNet;

    ghost next_gives = { YieldsFirstBy ip_network networks_left };

    ghost remaining = { item_count networks_left };

    /// The first network that is left, or `None`, then and ever after, if none is.
    fn next(&mut self) -> Option<IpNet> {
        if let Some(network) = self.walk.next() {
            return Some(network);
        }
        let range = self.ranges.next()?;
        self.walk = walk_of(range, 0);
        let network = self.walk.next()?;
        Some(network)
    }
}

impl FusedIterator for IpSetNetworks<'_> {}
