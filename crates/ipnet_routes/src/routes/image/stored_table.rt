//! A table that lies in bytes: the search in it, and the test of its routes and of its index.
ghost use Rattle.std.specs.Prelude.{◌≡◌, ℕ, ◌+◌, ◌-◌, ◌*◌, ◌<◌, ◌≤◌, ◌↔◌, List, length, Contains};
ghost use Rattle.std.specs.Prelude.{IsTrue, IfSome, Some};
ghost use Rattle.ipnet_base.specs.Address.{IPv4, IPv6};
ghost use Rattle.ipnet_base.specs.Network.{Network, IsNetwork, IsTruncated, IsBefore};
ghost use Rattle.ipnet_base.specs.Stack.{IsBeforeOrEqual};
ghost use Rattle.ipnet.specs.NetworkOf.{ip_network};
ghost use Rattle.ipnet.specs.declared.net.IpNet.{IpNet};
ghost use Rattle.ipnet_routes.specs.Routes.{Route, networks_of};
ghost use Rattle.ipnet_routes.specs.RouteSteps.{IsPlaceAfter, IsPlaceOf, IsNearest};
ghost use Rattle.ipnet_sets.specs.Images.{number_from};
ghost use Rattle.ipnet_routes.specs.TableImages.{stated_routes, stated_index, route_count, index_place, IsRouteAt};
ghost use Rattle.ipnet_routes.specs.TableImages.{IsSomeRoute, AreRoutesIn, HasRoutes, AreStartsIn, IsTableIn};
ghost use Rattle.ipnet_routes.specs.TableImages.{IsHolderAt};

use super::buckets::Buckets;
use super::rows::{StoredRoute, row};
use crate::routes::is_same;
use ipnet::IpNet;
use ipnet::net::laws::ip_nets_compare_by_network;
use ipnet_sets::read_u32;

/// Bytes with room for the routes and the index that their header states. They may be any.
///
/// Each call ends and reads only the bytes, which may be any. What is said of a table holds if they hold one.
#[derive(Clone, Copy)]
pub(crate) struct StoredTable<'a> {
    pub(crate) bytes: &'a [u8],
    ipv4: usize,
    ipv6: usize,
    ghost ipv4_stated: { ipv4 ≡ stated_routes bytes.now IPv4 },
    ghost ipv6_stated: { ipv6 ≡ stated_routes bytes.now IPv6 },
    ghost room: { index_place bytes.now + stated_index bytes.now * 4 ≤ length bytes.now },
}

/// Two indices of routes between which the place after a network lies.
#[derive(Clone, Copy)]
struct Between {
    start: usize,
    end: usize,
}

/// Whether the network has no host bits, and the one before it comes before it.
fn follows(previous: Option<IpNet>, network: &IpNet) -> bool
    ensures { IsTrue result ↔ (IsTruncated (ip_network network.now)
        × ((p : IpNet) → previous ≡ Some p → IsBefore (ip_network p) (ip_network network.now))) }
{
    ip_nets_compare_by_network();
    let first = network.trunc();
    if !is_same(&first, network) {
        return false;
    }
    match previous {
        Some(before) => before < *network,
        None => true,
    }
}

impl<'a> StoredTable<'a> {
    /// Returns the bytes with the numbers of routes that their header states.
    pub(crate) fn new(bytes: &'a [u8], ipv4: usize, ipv6: usize) -> StoredTable<'a>
        requires ipv4 { ipv4 ≡ stated_routes bytes.now IPv4 }
        requires ipv6 { ipv6 ≡ stated_routes bytes.now IPv6 }
        requires room { index_place bytes.now + stated_index bytes.now * 4 ≤ length bytes.now }
        ensures { result.bytes.now ≡ bytes.now }
    {
        StoredTable { bytes, ipv4, ipv6 }
    }

    /// Returns how many routes the table has.
    #[inline(always)]
    pub(crate) fn len(&self) -> usize
        ensures { result ≡ route_count self.now.bytes.now }
    {
        self.ipv4 + self.ipv6
    }

    /// Returns how many of the routes are IPv4 routes.
    pub(super) fn ipv4_len(&self) -> usize
        ensures { result ≡ stated_routes self.now.bytes.now IPv4 }
    {
        self.ipv4
    }

    /// Returns the route with this index, or `None` if its bytes are not one.
    #[inline(always)]
    pub(crate) fn route(&self, index: usize) -> Option<StoredRoute>
        requires { index < route_count self.now.bytes.now }
        ensures read { (n : Network) (value link : ℕ) → IsNetwork n → IsRouteAt self.now.bytes.now index n value link
            → IsSomeRoute result n value link }
        ensures stored { IfSome result (λ route.
            IsRouteAt self.now.bytes.now index (ip_network route.network) route.value route.link) }
    {
        row(self.bytes, self.ipv4, index)
    }

    /// Returns the entry of the index for the bucket.
    #[inline(always)]
    fn start(&self, bucket: usize) -> usize
        requires { bucket < stated_index self.now.bytes.now }
        ensures { result ≡ number_from 4 self.now.bytes.now (index_place self.now.bytes.now + bucket * 4) }
    {
        let index = 32 + self.ipv4 * 16 + self.ipv6 * 32;
        read_u32(self.bytes, index + bucket * 4) as usize
    }

    /// Returns the indices between which the place after the network lies, by its bucket.
    #[inline(always)]
    fn between(&self, network: &IpNet) -> Between
        ensures ordered { result.start ≤ result.end }
        ensures within { result.end ≤ route_count self.now.bytes.now }
        ensures up_to { (t : List (Route ℕ)) → IsTableIn self.now.bytes.now t → (k : Network)
            (c : Contains (networks_of t) k) → c.0 < result.start → IsBeforeOrEqual k (ip_network network.now) }
        ensures above { (t : List (Route ℕ)) → IsTableIn self.now.bytes.now t → (k : Network)
            (c : Contains (networks_of t) k) → result.end ≤ c.0 → IsBefore (ip_network network.now) k }
    {
        let all = Between {
            start: 0,
            end: self.len(),
        };
        let buckets = Buckets::new(self.ipv4, self.ipv6);
        let Some(bucket) = buckets.bucket_of(network) else {
            return all;
        };
        let start = self.start(bucket);
        let end = self.start(bucket + 1);
        if start > end || end > self.len() {
            return all;
        }
        Between { start, end }
    }

    /// Returns the place after the networks that are this one or come before it.
    #[inline(always)]
    fn place_after(&self, network: &IpNet) -> usize
        ensures within { result ≤ route_count self.now.bytes.now }
        ensures place { (t : List (Route ℕ)) → IsTableIn self.now.bytes.now t
            → IsPlaceAfter (networks_of t) (ip_network network.now) result }
    {
        ip_nets_compare_by_network();
        let between = self.between(network);
        let mut low = between.start;
        let mut high = between.end;
        while low < high {
            let middle = low + (high - low) / 2;
            let Some(other) = self.route(middle) else {
                return 0;
            };
            if *network < other.network {
                high = middle;
            } else {
                low = middle + 1;
            }
        }
        low
    }

    /// Returns the place after the nearest network before the limit that contains the network, or 0 if none does.
    #[inline(always)]
    fn nearest(&self, limit: usize, network: &IpNet) -> usize
        requires { limit ≤ route_count self.now.bytes.now }
        ensures within { result ≤ limit }
        ensures nearest { (count : ℕ) (t : List (Route ℕ)) → AreRoutesIn self.now.bytes.now count t → limit ≤ count
            → ((k : Network) (c : Contains (networks_of t) k) → c.0 < limit
            → IsBeforeOrEqual k (ip_network network.now))
            → IsNearest (networks_of t) (ip_network network.now) limit result }
        ensures stored { 0 < result → IsHolderAt self.now.bytes.now (result - 1) (ip_network network.now) }
    {
        let mut place = limit;
        while place > 0 {
            let Some(other) = self.route(place - 1) else {
                return 0;
            };
            if other.network.contains(network) {
                return place;
            }
            if other.link >= place {
                return 0;
            }
            place = other.link;
        }
        0
    }

    /// Returns one more than the index of the route of the longest network that contains the network's whole block; 0
    /// if none does.
    #[inline(always)]
    pub(crate) fn holder(&self, network: &IpNet) -> usize
        ensures within { result ≤ route_count self.now.bytes.now }
        ensures place { (t : List (Route ℕ)) → IsTableIn self.now.bytes.now t → (limit : ℕ)
            × IsPlaceAfter (networks_of t) (ip_network network.now) limit
            × IsNearest (networks_of t) (ip_network network.now) limit result }
        ensures stored { 0 < result → IsHolderAt self.now.bytes.now (result - 1) (ip_network network.now) }
    {
        self.nearest(self.place_after(network), network)
    }

    /// Returns whether the stored routes are the routes of a table in order, each with its link.
    pub(crate) fn has_routes(&self) -> bool
        ensures { IsTrue result ↔ HasRoutes self.now.bytes.now }
    {
        let mut previous = None;
        for index in 0..self.len() {
            let Some(route) = self.route(index) else {
                return false;
            };
            if !follows(previous, &route.network) {
                return false;
            }
            let link = self.nearest(index, &route.network);
            if link != route.link {
                return false;
            }
            previous = Some(route.network);
        }
        true
    }

    /// Returns whether the network before this place, if there is one, comes before the given one.
    fn is_after(&self, place: usize, network: &IpNet) -> bool
        requires { place ≤ route_count self.now.bytes.now }
        ensures { (t : List (Route ℕ)) → AreRoutesIn self.now.bytes.now (route_count self.now.bytes.now) t
            → IsTrue result ↔ ((k : Network) (c : Contains (networks_of t) k) → c.0 + 1 ≡ place
            → IsBefore k (ip_network network.now)) }
    {
        ip_nets_compare_by_network();
        if place == 0 {
            return true;
        }
        match self.route(place - 1) {
            Some(before) => before.network < *network,
            None => false,
        }
    }

    /// Returns whether the network at this place, if there is one, does not come before the given one.
    fn is_up_to(&self, place: usize, network: &IpNet) -> bool
        requires { place ≤ route_count self.now.bytes.now }
        ensures { (t : List (Route ℕ)) → AreRoutesIn self.now.bytes.now (route_count self.now.bytes.now) t
            → IsTrue result ↔ ((k : Network) (c : Contains (networks_of t) k) → c.0 ≡ place
            → IsBeforeOrEqual (ip_network network.now) k) }
    {
        ip_nets_compare_by_network();
        if place == self.len() {
            return true;
        }
        let Some(next) = self.route(place) else {
            return false;
        };
        if next.network < *network {
            return false;
        }
        true
    }

    /// Returns whether this is the place of the network: whether the networks before it come before the network, and
    /// the others do not.
    fn is_place_of(&self, place: usize, network: &IpNet) -> bool
        ensures { (t : List (Route ℕ)) → AreRoutesIn self.now.bytes.now (route_count self.now.bytes.now) t
            → IsTrue result ↔ IsPlaceOf (networks_of t) (ip_network network.now) place }
    {
        if place > self.len() {
            return false;
        }
        if !self.is_after(place, network) {
            return false;
        }
        self.is_up_to(place, network)
    }

    /// Returns whether the index is the index of the routes.
    pub(crate) fn has_index(&self) -> bool
        ensures { (t : List (Route ℕ)) → AreRoutesIn self.now.bytes.now (route_count self.now.bytes.now) t
            → IsTrue result ↔ AreStartsIn self.now.bytes.now (networks_of t) }
    {
        let buckets = Buckets::new(self.ipv4, self.ipv6);
        for bucket in 0..buckets.entries() {
            if !self.is_place_of(self.start(bucket), &buckets.start_of(bucket)) {
                return false;
            }
        }
        true
    }
}
