//! Maps of routes: tables that can be changed, with the longest match for an address.
ghost use Rattle.std.specs.Prelude.{◌≡◌, ◌<◌, ◌≤◌, ◌↔◌, length, [], IsTrue, IsOk, IfOk, OnOk, OnErr, IsNone, IfSome};
ghost use Rattle.std.specs.Prelude.{All, Contains};
ghost use Rattle.std.specs.Borrow.{sem};
ghost use Rattle.ipnet_base.specs.Address.{ip_address};
ghost use Rattle.ipnet_base.specs.Network.{Network, IsSubnetOf, IsTruncated, IsTruncationOf, truncation};
ghost use Rattle.ipnet_base.specs.Blocks.{IsCoveredBy, IsAscending};
ghost use Rattle.ipnet.specs.NetworkOf.{ip_network};
ghost use Rattle.ipnet_routes.specs.Routes.{Route, networks_of, ip_routes, ip_networks, IsLongestMatch};
ghost use Rattle.ipnet_routes.specs.Routes.{IsLongestHolder, AreMatches, AreWithin};
ghost use Rattle.ipnet_routes.specs.RouteSteps.{IsTable};
ghost use Rattle.ipnet_routes.specs.RouteMaps.{IsWithRoute, IsWithoutRoute};
ghost use Rattle.ipnet_routes.specs.RouteMapSteps.{all_of, AreFilled};
ghost use Rattle.ipnet_routes.specs.RouteLengths.{AreKnown};

use crate::routes::{RouteTable, is_same};
use chunks::Chunk;
use covering::covering_in;
use index::ChunkIndex;
use ipnet::{IpAddr, IpNet};
use lengths::KnownLengths;
use matches::MapMatches;
use routes::MapRoutes;
use std::alloc::{AllocError, Global};

mod changes;
mod chunks;
mod covering;
mod index;
pub mod laws;
mod lengths;
pub mod matches;
pub mod routes;
mod values;

/// A table of routes that can be changed: networks of both families, each once, with a value each.
///
/// The routes are kept in order, in chunks of at most 128, so that a change moves only the routes of one chunk. A
/// search finds its place by an index of numbers, and looks only for networks of the lengths that routes have in its
/// region.
///
/// ```text
/// of 0.0.0.0/0, 10.0.0.0/8 and 10.1.0.0/16: 10.1.2.3 is in 10.1.0.0/16, 10.2.0.1 in 10.0.0.0/8, 11.0.0.1 in 0.0.0.0/0
/// ```
#[derive(Drop)]
pub struct RouteMap<V> {
    alloc: Global,
    chunks: Vec<Chunk<V>>,
    index: ChunkIndex,
    lengths: KnownLengths,
    count: usize,
    ghost table: { IsTable (ip_networks (all_of chunks.items)) },
    ghost filled: { AreFilled chunks.items },
    ghost known: { AreKnown lengths.masks.items lengths.width (ip_networks (all_of chunks.items)) },
    ghost size: { count ≡ length (all_of chunks.items) },
}

impl<V> RouteMap<V> {
    ghost use Rattle.ipnet_routes.specs.RoutesOf.{routes_of};
    ghost use Rattle.ipnet_routes.specs.RouteMapsOf.{map_routes};
    ghost use Rattle.ipnet_routes.specs.RouteMapsLeft.{routes_left, map_matches_left};
    ghost use Rattle.ipnet_routes.specs.RouteLends.{LendsMapValue};

    /// Returns the map without routes. Allocates nothing.
    pub fn new(alloc: Global) -> RouteMap<V>
        ensures { map_routes result ≡ [] }
    {
        RouteMap {
            alloc,
            chunks: Vec::new(alloc),
            index: ChunkIndex::new(alloc),
            lengths: KnownLengths::new(alloc),
            count: 0,
        }
    }

    /// Returns the map of the routes of a table. Fails only if memory runs out.
    pub fn from_table(alloc: Global, table: RouteTable<V>) -> Result<RouteMap<V>, AllocError>
    where
        V: Drop,
        ensures { IfOk result (λ m. map_routes m ≡ routes_of table) }
    {
        let count = table.len();
        let chunks = chunks::chunks_of(alloc, table.into_routes())?;
        Ok(RouteMap::from_chunks(alloc, chunks, count))
    }

    /// Returns the map of the chunks, with its index and its lengths.
    fn from_chunks(alloc: Global, chunks: Vec<Chunk<V>>, count: usize) -> RouteMap<V>
        requires table { IsTable (ip_networks (all_of chunks.items)) }
        requires filled { AreFilled chunks.items }
        requires size { count ≡ length (all_of chunks.items) }
        ensures { result.chunks ≡ chunks }
    {
        let mut index = ChunkIndex::new(alloc);
        index.fill(chunks.as_slice());
        let mut lengths = KnownLengths::new(alloc);
        lengths.fill(chunks.as_slice(), count);
        RouteMap {
            alloc,
            chunks,
            index,
            lengths,
            count,
        }
    }

    /// Returns the table of the routes of the map. Fails only if memory runs out.
    pub fn into_table(self) -> Result<RouteTable<V>, AllocError>
    where
        V: Drop,
        ensures { IfOk result (λ table. routes_of table ≡ map_routes self) }
    {
        let RouteMap {
            alloc,
            chunks,
            index,
            lengths,
            count,
        } = self;
        drop(index);
        drop(lengths);
        let routes = chunks::joined(alloc, chunks, count)?;
        RouteTable::from_routes(alloc, routes)
    }

    /// How many routes the map has.
    pub fn len(&self) -> usize
        ensures { result ≡ length (map_routes self.now) }
    {
        self.count
    }

    /// Whether the map has no route.
    pub fn is_empty(&self) -> bool
        ensures { IsTrue result ↔ (length (map_routes self.now) ≡ 0) }
    {
        self.count == 0
    }

    /// Puts a route into the map, and returns the value that its network had; `None` if the map did not have it. Host
    /// bits of the network do not matter. Fails only if memory runs out, and then drops the value and changes nothing.
    ///
    /// ```text
    /// 10.0.0.0/8 with 1, insert 10.1.0.0/16 with 2: None; the map has both
    /// 10.0.0.0/8 with 1, insert 10.0.0.7/8 with 3: 1; the map has 10.0.0.0/8 with 3
    /// ```
    pub fn insert(&mut self, network: &IpNet, value: V) -> Result<Option<V>, AllocError>
    where
        V: Drop,
        ensures put { OnOk result (IsWithRoute (map_routes self.old) (truncation (ip_network network.now), value)
            (map_routes self.new)) }
        ensures unchanged { OnErr result (map_routes self.new ≡ map_routes self.old) }
        ensures none { IfOk result (λ old. IsNone old
            ↔ ¬ (Contains (networks_of (map_routes self.old)) (truncation (ip_network network.now)))) }
        ensures some { IfOk result (λ old. IfSome old (λ v.
            Contains (map_routes self.old) (truncation (ip_network network.now), v))) }
    {
        let network = network.trunc();
        if self.count == usize::MAX {
            return Err(AllocError);
        }
        let chunks = self.chunks.as_slice();
        let hint = self.index.hint(&network);
        let place = chunks::place_after_all(chunks, hint, &network);
        if chunks::is_behind(chunks, place, &network) {
            let old = changes::exchange(&mut self.chunks, place, &network, value);
            return Ok(Some(old));
        }
        let count = chunks.len();
        self.lengths.add(&network);
        changes::put_route(self.alloc, &mut self.chunks, place, (network, value))?;
        self.count += 1;
        self.index.follow_put(self.chunks.as_slice(), count, place);
        self.lengths.count(self.chunks.as_slice(), self.count);
        Ok(None)
    }

    /// Removes the route of the network, and returns its value; `None` if the map does not have it. Host bits of the
    /// network do not matter.
    ///
    /// ```text
    /// 10.0.0.0/8 with 1 and 10.1.0.0/16 with 2, remove 10.0.0.0/8: 1; the map has 10.1.0.0/16 with 2
    /// ```
    pub fn remove(&mut self, network: &IpNet) -> Option<V>
        ensures taken { IsWithoutRoute (map_routes self.old) (truncation (ip_network network.now))
            (map_routes self.new) }
        ensures none { IsNone result
            ↔ ¬ (Contains (networks_of (map_routes self.old)) (truncation (ip_network network.now))) }
        ensures some { IfSome result (λ v.
            Contains (map_routes self.old) (truncation (ip_network network.now), v)) }
    {
        let network = network.trunc();
        let chunks = self.chunks.as_slice();
        let hint = self.index.hint(&network);
        let place = chunks::place_after_all(chunks, hint, &network);
        if !chunks::is_behind(chunks, place, &network) {
            return None;
        }
        let count = chunks.len();
        let value = changes::take_out(&mut self.chunks, place, &network);
        self.count -= 1;
        self.index.follow_take(self.chunks.as_slice(), count, place);
        Some(value)
    }

    /// The value of the network, without its host bits, or `None` if the map doesn't have it. Allocates nothing; the
    /// time grows with the logarithm of the number of routes.
    ///
    /// ```text
    /// of 10.0.0.0/8 with 1: 10.0.0.0/8 and 10.2.3.4/8 have 1; 10.0.0.0/9 has none
    /// ```
    pub fn get(&self, network: &IpNet) -> Option<&V>
        ensures none { IsNone result
            ↔ ¬ (Contains (networks_of (map_routes self.now)) (truncation (ip_network network.now))) }
        ensures some { IfSome result (λ value.
            Contains (map_routes self.now) (truncation (ip_network network.now), value.now)) }
    {
        let network = network.trunc();
        let chunks = self.chunks.as_slice();
        let hint = self.index.hint(&network);
        let Some(route) = chunks::last_up_to(chunks, hint, &network) else {
            return None;
        };
        if !is_same(&route.0, &network) {
            return None;
        }
        Some(&route.1)
    }

    /// Returns a reference to the value of the network, to change it; `None` if the map does not have the network.
    /// Host bits do not matter, and nothing but this value can change. Allocates nothing, and takes as long as `get`.
    ///
    /// ```text
    /// of 10.0.0.0/8 with 1 and 11.0.0.0/8 with 2, if 3 is written for 10.0.0.7/8: 10.0.0.0/8 with 3 and 11.0.0.0/8
    /// with 2
    /// ```
    pub fn get_mut(&mut self, network: &IpNet) -> Option<&mut V>
        ensures* writes_back { sem 𝓛 (LendsMapValue V.row self.entry (ip_network network.now) result) }
        ensures none { IsNone result
            ↔ ¬ (Contains (networks_of (map_routes self.old)) (truncation (ip_network network.now))) }
        ensures some { IfSome result (λ value.
            Contains (map_routes self.old) (truncation (ip_network network.now), value.now)) }
    {
        let network = network.trunc();
        let chunks = self.chunks.as_slice();
        let hint = self.index.hint(&network);
        let place = chunks::place_after_all(chunks, hint, &network);
        if !chunks::is_behind(chunks, place, &network) {
            return None;
        }
        let place = place.before();
        Some(&mut self.chunks[place.chunk][place.index].1)
    }

    /// The route of the longest network that holds the address, or `None` if no network of the map holds it.
    /// Allocates nothing.
    ///
    /// ```text
    /// of 0.0.0.0/0, 10.0.0.0/8 and 10.1.0.0/16: 10.1.2.3 is in 10.1.0.0/16, 10.2.0.1 in 10.0.0.0/8
    /// ```
    pub fn longest_match(&self, ip: &IpAddr) -> Option<&(IpNet, V)>
        ensures none { IsNone result ↔ ¬ (IsCoveredBy (networks_of (map_routes self.now)) (ip_address ip.now)) }
        ensures some { IfSome result (λ route.
            IsLongestMatch (map_routes self.now) (ip_address ip.now) (ip_network route.now.0, route.now.1)) }
    {
        let host = IpNet::from(*ip);
        self.covering(&host)
    }

    /// Returns the route of the longest network that contains the network's whole block, or `None` if no network of the
    /// map does. The host bits of `network` do not matter, and the network itself counts. Allocates nothing.
    ///
    /// ```text
    /// of 0.0.0.0/0, 10.0.0.0/8 and 10.1.0.0/16: 10.1.2.0/24 is in 10.1.0.0/16, 10.0.0.0/15 in 10.0.0.0/8,
    /// 10.0.0.0/7 in 0.0.0.0/0
    /// ```
    pub fn covering(&self, network: &IpNet) -> Option<&(IpNet, V)>
        ensures none { IsNone result ↔ ((k : Network) → Contains (networks_of (map_routes self.now)) k
            → ¬ (IsSubnetOf (ip_network network.now) k)) }
        ensures some { IfSome result (λ route. IsLongestHolder (map_routes self.now) (ip_network network.now)
            (ip_network route.now.0, route.now.1)) }
    {
        covering_in(self.chunks.as_slice(), &self.index, &self.lengths, network)
    }
    /// Returns the routes whose networks contain the address, the longest first. Allocates nothing; each route takes as
    /// long as `longest_match`.
    ///
    /// ```text
    /// of 0.0.0.0/0, 10.0.0.0/8 and 10.1.0.0/16, for 10.2.0.1: 10.0.0.0/8, then 0.0.0.0/0
    /// ```
    pub fn matches(&self, ip: &IpAddr) -> MapMatches<'_, V>
        ensures { AreMatches (map_routes self.now) (ip_address ip.now) (map_matches_left result) }
    {
        let host = IpNet::from(*ip);
        let chunks = self.chunks.as_slice();
        MapMatches {
            chunks,
            index: &self.index,
            lengths: &self.lengths,
            wanted: Some(host),
        }
    }

    /// Returns the routes of the map, in the order of their networks: IPv4 before IPv6, then by number, then by length.
    /// Allocates nothing.
    ///
    /// ```text
    /// of 10.1.0.0/16 with 2 and 10.0.0.0/8 with 1: 10.0.0.0/8 with 1, then 10.1.0.0/16 with 2
    /// ```
    pub fn routes(&self) -> MapRoutes<'_, V>
        ensures routes { routes_left result ≡ map_routes self.now }
        ensures ascending { IsAscending (networks_of (map_routes self.now)) }
        ensures truncated { All IsTruncated (networks_of (map_routes self.now)) }
    {
        MapRoutes {
            first: &[],
            middle: self.chunks.as_slice(),
            last: &[],
        }
    }

    /// Returns the routes whose networks lie in the network's block, in order; the network itself is one if the map has
    /// it. The host bits of `network` do not matter. Allocates nothing.
    ///
    /// ```text
    /// of 0.0.0.0/0, 10.0.0.0/8, 10.1.0.0/16 and 11.0.0.0/8: 10.0.0.0/8 has 10.0.0.0/8 and 10.1.0.0/16 within it,
    /// 10.0.0.0/9 has 10.1.0.0/16, and 12.0.0.0/8 has none
    /// ```
    pub fn within(&self, network: &IpNet) -> MapRoutes<'_, V>
        ensures { AreWithin (map_routes self.now) (ip_network network.now) (routes_left result) }
    {
        let chunks = self.chunks.as_slice();
        let first = network.trunc();
        let last = IpNet::from(network.broadcast());
        let start = chunks::place_of_all(chunks, self.index.hint(&first), &first);
        let end = chunks::place_after_all(chunks, self.index.hint(&last), &last);
        MapRoutes::from_places(chunks, start, end)
    }
}

impl<'a, V> IntoIterator for &'a RouteMap<V> {
    type Item = &'a (IpNet, V);

    type IntoIter = MapRoutes<'a, V>;

    ghost use Rattle.ipnet_routes.specs.RouteMapsOf.{map_routes};
    ghost use Rattle.ipnet_routes.specs.RouteMapsLeft.{routes_left};

    ghost into_iter_gives = { λ m routes. routes_left routes ≡ map_routes m.now };

    /// The routes of the map, as `RouteMap::routes` lists them. A loop `for route in &map` goes through them.
    fn into_iter(self) -> MapRoutes<'a, V> {
        self.routes()
    }
}
