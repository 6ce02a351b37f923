//! Tables of validated ROA payloads, and the validity of the origin of a route.
ghost use Rattle.std.specs.Prelude.{◌≡◌, ◌↔◌, Any, Contains, IfOk, IsOk, IsPermutation};
ghost use Rattle.ipnet.specs.NetworkOf.{ip_network};
ghost use Rattle.ipnet_routes.specs.RoutesOf.{routes_of};
ghost use Rattle.ipnet_origins.specs.Groups.{AreInOrder, AreRanked, AreLasts};
ghost use Rattle.ipnet_origins.specs.Origins.{IsCovered};
ghost use Rattle.ipnet_origins.specs.declared.payload.Payload.{Payload};

use crate::groups::{any_matches, group, places, sort};
use crate::payload::Payload;
use ipnet::IpNet;
use ipnet_routes::RouteTable;
use std::alloc::{AllocError, Global};

/// The validity of the origin of a route (RFC 6811, section 2).
#[derive(Clone, Copy, PartialEq, Eq, Debug)]
pub enum Validity {
    /// At least one payload matches the route.
    Valid,
    /// At least one payload covers the route, and none matches it.
    Invalid,
    /// No payload covers the route.
    NotFound,
}

/// A table of validated ROA payloads, which says whether an AS may announce a network. The payloads may overlap and
/// repeat.
///
/// ```text
/// of 192.0.2.0/24 with greatest length 25 and AS 64496:
/// 192.0.2.0/25 of AS 64496 is valid, 192.0.2.0/26 of AS 64496 is invalid, 192.0.0.0/16 of AS 64496 is not found
/// ```
#[derive(Drop)]
pub struct OriginTable {
    payloads: Vec<Payload>,
    lasts: RouteTable<usize>,
    ghost order: { AreInOrder payloads.items },
    ghost ranked: { AreRanked payloads.items },
    ghost reach: { AreLasts payloads.items (routes_of lasts) },
}

impl OriginTable {
    ghost use Rattle.ipnet_origins.specs.OriginsOf.{payloads_of};
    ghost use Rattle.ipnet_origins.specs.Origins.{IsValidity, AreCovering, AreLongestFirst};

    /// Returns the table of the payloads, in any order. They may overlap and repeat. Fails only if memory runs out.
    ///
    /// ```text
    /// 198.51.100.0/24 with 24 and AS 64497, 192.0.2.0/24 with 25 and AS 64496: a table of two payloads
    /// ```
    pub fn from_payloads(alloc: Global, payloads: Vec<Payload>) -> Result<OriginTable, AllocError>
        ensures { IfOk result (λ table. IsPermutation payloads.items (payloads_of table)) }
    {
        let mut payloads = payloads;
        sort(&mut payloads)?;
        let routes = places(alloc, payloads.as_slice())?;
        let lasts = RouteTable::from_routes(alloc, routes)?;
        Ok(OriginTable { payloads, lasts })
    }

    /// Returns the payloads of the table, in the order of their networks: IPv4 before IPv6, then by number, then by
    /// length. Payloads of one network are in the order of their AS numbers, and then of their greatest lengths.
    /// Allocates nothing.
    ///
    /// ```text
    /// the table of 198.51.100.0/24 with 24 and AS 64497, 192.0.2.0/24 with 25 and AS 64496: the second, then the first
    /// ```
    pub fn payloads(&self) -> &[Payload]
        ensures payloads { result.now ≡ payloads_of self.now }
        ensures order { AreInOrder (payloads_of self.now) }
        ensures ranked { AreRanked (payloads_of self.now) }
    {
        self.payloads.as_slice()
    }

    /// Returns the validity of a route with this network and this origin. If the path ends with a set of AS numbers,
    /// the route has no single origin, and `origin` is `None`. Host bits of the network do not matter.
    ///
    /// Allocates nothing. For n payloads, the time is the time of `RouteTable::longest_match`, and O(log n) for each
    /// network of the table that contains the network's address. The search in the payloads of one network is binary.
    ///
    /// ```text
    /// of 192.0.2.0/24 with greatest length 25 and AS 64496, and 198.51.100.0/24 with greatest length 24 and AS 0:
    /// 192.0.2.0/25 of AS 64496     Valid
    /// 192.0.2.0/26 of AS 64496     Invalid: it is too long
    /// 192.0.2.0/25 of AS 64497     Invalid: another AS may announce it
    /// 198.51.100.0/24 of AS 0      Invalid: AS 0 never matches
    /// 192.0.0.0/16 of AS 64496     NotFound
    /// ```
    pub fn validity(&self, network: &IpNet, origin: Option<u32>) -> Validity
        ensures { IsValidity (payloads_of self.now) (ip_network network.now) origin result }
    {
        let payloads = self.payloads.as_slice();
        let mut is_covered = false;
        for route in self.lasts.matches(&network.addr()) {
            if route.0.prefix_len() <= network.prefix_len() {
                if any_matches(group(payloads, route.1, &route.0), network, origin) {
                    return Validity::Valid;
                }
                is_covered = true;
            }
        }
        if is_covered {
            Validity::Invalid
        } else {
            Validity::NotFound
        }
    }

    /// Returns the payloads that cover a route with this network, the longest networks first. Payloads of one network
    /// are in the order of `payloads`, and each comes as often as the table has it. Fails only if memory runs out; an
    /// empty list needs none.
    ///
    /// ```text
    /// of 192.0.2.0/24 with 25 and AS 64496, 192.0.0.0/16 with 16 and AS 64497, 192.0.2.0/25 with 25 and AS 64496:
    /// for 192.0.2.0/24 the first, then the second
    /// ```
    pub fn covering(&self, alloc: Global, network: &IpNet) -> Result<Vec<Payload>, AllocError>
        ensures empty { ¬ (Any (IsCovered (ip_network network.now)) (payloads_of self.now)) → IsOk result }
        ensures covering { IfOk result (λ covering. AreCovering (payloads_of self.now) (ip_network network.now)
            covering.items) }
        ensures members { IfOk result (λ covering. (vrp : Payload) → Contains covering.items vrp
            ↔ (Contains (payloads_of self.now) vrp × IsCovered (ip_network network.now) vrp)) }
        ensures longest_first { IfOk result (λ covering. AreLongestFirst covering.items) }
    {
        let payloads = self.payloads.as_slice();
        let mut covering = Vec::new(alloc);
        for route in self.lasts.matches(&network.addr()) {
            if route.0.prefix_len() <= network.prefix_len() {
                covering.extend_from_slice(group(payloads, route.1, &route.0))?;
            }
        }
        Ok(covering)
    }
}
