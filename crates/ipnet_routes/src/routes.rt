//! Route tables: networks with a value each, and the longest network that contains an address.
ghost use Rattle.std.specs.Prelude.{◌≡◌, ℕ, ◌<◌, ◌≤◌, ◌↔◌, IsTrue, [], length, IsOk, IfOk, OnOk, IsNone, IfSome};
ghost use Rattle.std.specs.Prelude.{All, Any, Contains, IsPermutation, take, drop, ◌-◌, ◌^◌};
ghost use Rattle.std.specs.Borrow.{sem};
ghost use Rattle.std.specs.Slice.Iter.{iter_rest};
ghost use Rattle.std.specs.Iterator.Adapters.{IterYieldsInOrder};
ghost use Rattle.ipnet_base.specs.Address.{ip_address};
ghost use Rattle.ipnet_base.specs.Network.{Network, IsSubnetOf, IsTruncated, IsBefore, truncation};
ghost use Rattle.ipnet_base.specs.Blocks.{IsCoveredBy, IsAscending};
ghost use Rattle.ipnet_base.specs.Stack.{IsBeforeOrEqual, IsInOrder};
ghost use Rattle.ipnet.specs.NetworkOf.{ip_network};
ghost use Rattle.ipnet.specs.declared.net.IpNet.{IpNet};
ghost use Rattle.ipnet_routes.specs.Routes.{Route, networks_of, ip_routes, ip_networks, without_host_bits, IsLatest};
ghost use Rattle.ipnet_routes.specs.Routes.{IsTableOf, IsLongestMatch, IsLongestHolder, AreMatches, AreWithin};
ghost use Rattle.ipnet_routes.specs.RouteSteps.{EndsWith, AreOthers, IsTable, IsPlaceAfter, IsPlaceOf, IsNearest};
ghost use Rattle.ipnet_routes.specs.RouteSteps.{AreLinks, AreChanged};

use index::{Bucket, RouteIndex, probe};
use ipnet::net::laws::ip_nets_compare_by_network;
use ipnet::{IpAddr, IpNet};
use matches::RouteMatches;
use std::alloc::{AllocError, Global};
use std::slice;

pub mod changes;
pub mod image;
pub(crate) mod index;
pub mod laws;
pub mod matches;
mod values;

/// A table of routes: networks of both families, each once, with a value each.
///
/// It finds the longest of its networks that contains an address, by halving and then following the links from each
/// network to the nearest that encloses it. A value may have any type; calls that drop values ask that it is `Drop`.
///
/// ```text
/// of 0.0.0.0/0, 10.0.0.0/8 and 10.1.0.0/16: 10.1.2.3 is in 10.1.0.0/16, 10.2.0.1 in 10.0.0.0/8, 11.0.0.1 in 0.0.0.0/0
/// ```
#[derive(Drop)]
pub struct RouteTable<V> {
    routes: Vec<(IpNet, V)>,
    enclosing: Vec<usize>,
    index: RouteIndex,
    ghost table: { IsTable (ip_networks routes.items) },
    ghost links: { AreLinks (ip_networks routes.items) enclosing.items },
    ghost all: { length enclosing.items ≡ length routes.items },
}

/// Whether the two are one network.
pub(crate) fn is_same(network: &IpNet, other: &IpNet) -> bool
    ensures { IsTrue result ↔ (ip_network network.now ≡ ip_network other.now) }
{
    ip_nets_compare_by_network();
    network == other
}

/// Sets the host bits of all networks to 0.
fn truncate_all<V>(routes: &mut Vec<(IpNet, V)>)
    ensures { ip_routes routes.new.items
        ≡ without_host_bits (ip_routes routes.old.items) }
{
    for index in 0..routes.len() {
        let network = routes[index].0.trunc();
        routes[index].0 = network;
    }
}

/// Puts the routes in the order of their networks. Routes of one network stay in their order.
fn sort<V>(routes: &mut Vec<(IpNet, V)>) -> Result<(), AllocError>
    ensures order { OnOk result (IsInOrder (ip_networks routes.new.items)) }
    ensures permutation { IsPermutation routes.old.items routes.new.items }
    ensures latest { OnOk result ((route : Route V)
        → IsLatest (ip_routes routes.new.items) route
        ↔ IsLatest (ip_routes routes.old.items) route) }
{
    ip_nets_compare_by_network();
    routes.sort_by_key(|route| route.0)?;
    Ok(())
}

/// Whether the last of the routes is of the network.
fn ends_with<V>(routes: &[(IpNet, V)], network: &IpNet) -> bool
    ensures { IsTrue result ↔ EndsWith (ip_networks routes.now) (ip_network network.now) }
{
    if routes.is_empty() {
        return false;
    }
    is_same(&routes[routes.len() - 1].0, network)
}

/// Removes the last route if it is of the network. The network comes before no network of the routes.
fn drop_last<V: Drop>(routes: &mut Vec<(IpNet, V)>, network: &IpNet)
    requires ascending { IsAscending (ip_networks routes.old.items) }
    requires order { All (λ n. IsBeforeOrEqual n (ip_network network.now)) (ip_networks routes.old.items) }
    ensures ascending { IsAscending (ip_networks routes.new.items) }
    ensures before { All (λ n. IsBefore n (ip_network network.now)) (ip_networks routes.new.items) }
    ensures others { AreOthers (ip_routes routes.old.items) (ip_network network.now) (ip_routes routes.new.items) }
{
    if ends_with(routes.as_slice(), network) {
        routes.pop();
    }
}

/// Returns the last route of each network. The routes are in order.
fn latest<V: Drop>(alloc: Global, routes: Vec<(IpNet, V)>) -> Result<Vec<(IpNet, V)>, AllocError>
    requires { IsInOrder (ip_networks routes.items) }
    ensures ascending { IfOk result (λ kept. IsAscending (ip_networks kept.items)) }
    ensures members { IfOk result (λ kept. (route : Route V)
        → Contains (ip_routes kept.items) route ↔ IsLatest (ip_routes routes.items) route) }
{
    let mut kept: Vec<(IpNet, V)> = Vec::with_capacity(alloc, routes.len())?;
    for route in routes {
        drop_last(&mut kept, &route.0);
        kept.push(route)?;
    }
    Ok(kept)
}

/// The place after the networks that are this one or come before it: by the bucket, and then by halving.
pub(crate) fn place_after<V>(routes: &[(IpNet, V)], bucket: Bucket, network: &IpNet) -> usize
    requires { IsTable (ip_networks routes.now) }
    ensures { IsPlaceAfter (ip_networks routes.now) (ip_network network.now) result }
{
    ip_nets_compare_by_network();
    let mut low = 0;
    let mut high = routes.len();
    while low < high {
        let middle = probe(low, high, bucket);
        let other = routes[middle].0;
        if *network < other {
            high = middle;
        } else {
            low = middle + 1;
        }
    }
    low
}

/// Returns the index of the network; if the list does not have it, the index of the next network.
pub(crate) fn place_of<V>(routes: &[(IpNet, V)], bucket: Bucket, network: &IpNet) -> usize
    requires { IsTable (ip_networks routes.now) }
    ensures { IsPlaceOf (ip_networks routes.now) (ip_network network.now) result }
{
    let place = place_after(routes, bucket, network);
    if place == 0 {
        return 0;
    }
    if is_same(&routes[place - 1].0, network) {
        return place - 1;
    }
    place
}

/// The place after the nearest network before the limit that contains the network, or 0 if none does. If one doesn't
/// contain it, only networks that enclose that one can.
fn nearest<V>(routes: &[(IpNet, V)], enclosing: &[usize], limit: usize, network: &IpNet) -> usize
    requires table { IsTable (ip_networks routes.now) }
    requires links { AreLinks (ip_networks routes.now) enclosing.now }
    requires within { limit ≤ length enclosing.now }
    requires up_to { (k : Network) (c : Contains (ip_networks routes.now) k)
        → c.0 < limit → IsBeforeOrEqual k (ip_network network.now) }
    ensures { IsNearest (ip_networks routes.now) (ip_network network.now) limit result }
{
    let mut place = limit;
    while place > 0 {
        let other = routes[place - 1].0;
        if other.contains(network) {
            return place;
        }
        place = enclosing[place - 1];
    }
    0
}

/// For each network the place after the nearest one that encloses it.
fn links<V>(alloc: Global, routes: &[(IpNet, V)]) -> Result<Vec<usize>, AllocError>
    requires { IsTable (ip_networks routes.now) }
    ensures all { IfOk result (λ links. length links.items ≡ length routes.now) }
    ensures links { IfOk result (λ links. AreLinks (ip_networks routes.now) links.items) }
{
    let mut links = Vec::with_capacity(alloc, routes.len())?;
    for index in 0..routes.len() {
        let network = routes[index].0;
        let link = nearest(routes, links.as_slice(), index, &network);
        links.push(link)?;
    }
    Ok(links)
}

/// Returns the routes from one index up to another.
fn part<V>(routes: &[(IpNet, V)], start: usize, end: usize) -> &[(IpNet, V)]
    requires order { start ≤ end }
    requires within { end ≤ length routes.now }
    ensures { result.now ≡ take (end - start) (drop start routes.now) }
{
    &routes[start..end]
}

/// Returns the routes of the same networks; each new value is the result of `change` for the old one.
fn change_values<V: Drop, W: Drop, F: Fn(V) -> W + Drop>(
    alloc: Global,
    routes: Vec<(IpNet, V)>,
    change: F,
) -> Result<Vec<(IpNet, W)>, AllocError>
    requires { F.IsAlwaysCallable change }
    ensures { IfOk result (λ changed. AreChanged (F.post change) routes.items changed.items) }
{
    let mut changed = Vec::with_capacity(alloc, routes.len())?;
    for route in routes {
        let (network, value) = route;
        changed.push((network, change(value)))?;
    }
    Ok(changed)
}

impl<V> RouteTable<V> {
    ghost use Rattle.ipnet_routes.specs.RoutesOf.{routes_of};
    ghost use Rattle.ipnet_routes.specs.MatchesLeft.{matches_left};
    ghost use Rattle.ipnet_routes.specs.RouteLends.{LendsValue};

    /// Returns the table of the routes, in any order. Networks are equal if they are equal without their host bits; if
    /// one is given twice, the last value counts, and the others are dropped. Fails only if memory runs out; an empty
    /// list needs none.
    ///
    /// ```text
    /// 10.0.0.0/8 with 1, 10.1.0.0/16 with 2, 10.0.0.7/8 with 3: 10.0.0.0/8 with 3, 10.1.0.0/16 with 2
    /// ```
    pub fn from_routes(alloc: Global, routes: Vec<(IpNet, V)>) -> Result<RouteTable<V>, AllocError>
    where
        V: Drop,
        ensures empty { routes.items ≡ [] → IsOk result }
        ensures table { IfOk result (λ table. IsTableOf (ip_routes routes.items) (routes_of table)) }
    {
        if routes.is_empty() {
            return Ok(RouteTable {
                routes: Vec::new(alloc),
                enclosing: Vec::new(alloc),
                index: RouteIndex::new(alloc),
            });
        }
        let mut routes = routes;
        truncate_all(&mut routes);
        sort(&mut routes)?;
        let routes = latest(alloc, routes)?;
        let enclosing = links(alloc, routes.as_slice())?;
        let index = RouteIndex::from_routes(alloc, routes.as_slice())?;
        Ok(RouteTable {
            routes,
            enclosing,
            index,
        })
    }

    /// The routes of the table, in the order of their networks: IPv4 before IPv6, then by number, then by length. Takes
    /// no memory.
    pub fn routes(&self) -> &[(IpNet, V)]
        ensures routes { ip_routes result.now ≡ routes_of self.now }
        ensures ascending { IsAscending (networks_of (routes_of self.now)) }
        ensures truncated { All IsTruncated (networks_of (routes_of self.now)) }
    {
        self.routes.as_slice()
    }

    /// Returns the routes of the table, as `routes` lists them, with their values. Allocates nothing.
    ///
    /// `get_mut` changes a value in its place. To change the networks, take the routes out, and make a new table.
    ///
    /// ```text
    /// the table of 10.1.0.0/16 with 2 and 10.0.0.0/8 with 1: 10.0.0.0/8 with 1, 10.1.0.0/16 with 2
    /// ```
    pub fn into_routes(self) -> Vec<(IpNet, V)>
        ensures { ip_routes result.items ≡ routes_of self }
    {
        let RouteTable {
            routes,
            enclosing,
            index,
        } = self;
        drop(enclosing);
        drop(index);
        routes
    }

    /// How many routes the table has.
    pub fn len(&self) -> usize
        ensures { result ≡ length (routes_of self.now) }
    {
        self.routes.len()
    }

    /// Whether the table has no route.
    pub fn is_empty(&self) -> bool
        ensures { IsTrue result ↔ (length (routes_of self.now) ≡ 0) }
    {
        self.routes.is_empty()
    }

    /// Returns the value of the network, or `None` if the table does not have it; host bits do not matter. Allocates
    /// nothing, and takes O(log n) time for n routes.
    ///
    /// ```text
    /// of 10.0.0.0/8 with 1: 10.0.0.0/8 and 10.2.3.4/8 have 1; 10.0.0.0/9 has none
    /// ```
    pub fn get(&self, network: &IpNet) -> Option<&V>
        ensures none { IsNone result
            ↔ ¬ (Contains (networks_of (routes_of self.now)) (truncation (ip_network network.now))) }
        ensures some { IfSome result (λ value.
            Contains (routes_of self.now) (truncation (ip_network network.now), value.now)) }
    {
        let network = network.trunc();
        let bucket = self.index.bucket(&network, self.routes.len());
        let place = place_after(self.routes.as_slice(), bucket, &network);
        if place == 0 {
            return None;
        }
        let route = &self.routes[place - 1];
        if !is_same(&route.0, &network) {
            return None;
        }
        Some(&route.1)
    }

    /// Returns a reference to the value of the network, to change it; `None` if the table does not have the network.
    /// Host bits do not matter, and nothing but this value can change. Allocates nothing, and takes as long as `get`.
    ///
    /// ```text
    /// of 10.0.0.0/8 with 1 and 11.0.0.0/8 with 2, if 3 is written for 10.0.0.7/8: 10.0.0.0/8 with 3 and 11.0.0.0/8
    /// with 2
    /// ```
    pub fn get_mut(&mut self, network: &IpNet) -> Option<&mut V>
        ensures* writes_back { sem 𝓛 (LendsValue V.row self.entry (ip_network network.now) result) }
        ensures none { IsNone result
            ↔ ¬ (Contains (networks_of (routes_of self.old)) (truncation (ip_network network.now))) }
        ensures some { IfSome result (λ value.
            Contains (routes_of self.old) (truncation (ip_network network.now), value.now)) }
    {
        let network = network.trunc();
        let bucket = self.index.bucket(&network, self.routes.len());
        let place = place_after(self.routes.as_slice(), bucket, &network);
        if place == 0 {
            return None;
        }
        if !is_same(&self.routes[place - 1].0, &network) {
            return None;
        }
        Some(&mut self.routes[place - 1].1)
    }

    /// Returns the route of the longest network that contains the address, or `None` if no network of the table does.
    /// Allocates nothing. The time is O(log n) for n routes, and grows with the depth of nested networks that do not
    /// contain the address.
    ///
    /// ```text
    /// of 0.0.0.0/0, 10.0.0.0/8 and 10.1.0.0/16: 10.1.2.3 is in 10.1.0.0/16, 10.2.0.1 in 10.0.0.0/8
    /// ```
    pub fn longest_match(&self, ip: &IpAddr) -> Option<&(IpNet, V)>
        ensures none { IsNone result ↔ ¬ (IsCoveredBy (networks_of (routes_of self.now)) (ip_address ip.now)) }
        ensures some { IfSome result (λ route.
            IsLongestMatch (routes_of self.now) (ip_address ip.now) (ip_network route.now.0, route.now.1)) }
    {
        let host = IpNet::from(*ip);
        self.covering(&host)
    }

    /// Returns the route of the longest network that contains the network's whole block, or `None` if no network of the
    /// table does. The host bits of `network` do not matter, and the network itself counts. Allocates nothing, and
    /// takes as long as `longest_match`.
    ///
    /// ```text
    /// of 0.0.0.0/0, 10.0.0.0/8 and 10.1.0.0/16: 10.1.2.0/24 is in 10.1.0.0/16, 10.0.0.0/15 in 10.0.0.0/8,
    /// 10.0.0.0/7 in 0.0.0.0/0
    /// ```
    pub fn covering(&self, network: &IpNet) -> Option<&(IpNet, V)>
        ensures none { IsNone result ↔ ((k : Network) → Contains (networks_of (routes_of self.now)) k
            → ¬ (IsSubnetOf (ip_network network.now) k)) }
        ensures some { IfSome result (λ route. IsLongestHolder (routes_of self.now) (ip_network network.now)
            (ip_network route.now.0, route.now.1)) }
    {
        let routes = self.routes.as_slice();
        let bucket = self.index.bucket(network, routes.len());
        let limit = place_after(routes, bucket, network);
        let place = nearest(routes, self.enclosing.as_slice(), limit, network);
        if place == 0 {
            return None;
        }
        Some(&self.routes[place - 1])
    }
    /// Returns the routes whose networks contain the address, the longest first. Allocates nothing; the first takes as
    /// long as `longest_match`, and each further one a step.
    ///
    /// ```text
    /// of 0.0.0.0/0, 10.0.0.0/8 and 10.1.0.0/16, for 10.2.0.1: 10.0.0.0/8, then 0.0.0.0/0
    /// ```
    pub fn matches(&self, ip: &IpAddr) -> RouteMatches<'_, V>
        ensures { AreMatches (routes_of self.now) (ip_address ip.now) (matches_left result) }
    {
        let host = IpNet::from(*ip);
        let routes = self.routes.as_slice();
        let enclosing = self.enclosing.as_slice();
        let bucket = self.index.bucket(&host, routes.len());
        let limit = place_after(routes, bucket, &host);
        let place = nearest(routes, enclosing, limit, &host);
        RouteMatches {
            routes,
            enclosing,
            place,
        }
    }

    /// Returns the routes whose networks lie in the network's block, in order; the network itself is one if the table
    /// has it. The host bits of `network` do not matter. Allocates nothing; the time grows with the logarithm of the
    /// number of routes.
    ///
    /// ```text
    /// of 0.0.0.0/0, 10.0.0.0/8, 10.1.0.0/16 and 11.0.0.0/8: 10.0.0.0/8 has 10.0.0.0/8 and 10.1.0.0/16 within it,
    /// 10.0.0.0/9 has 10.1.0.0/16, and 12.0.0.0/8 has none
    /// ```
    pub fn within(&self, network: &IpNet) -> &[(IpNet, V)]
        ensures { AreWithin (routes_of self.now) (ip_network network.now) (ip_routes result.now) }
    {
        let routes = self.routes.as_slice();
        let first = network.trunc();
        let last = IpNet::from(network.broadcast());
        let start = place_of(routes, self.index.bucket(&first, routes.len()), &first);
        let end = place_after(routes, self.index.bucket(&last, routes.len()), &last);
        part(routes, start, end)
    }

    /// Returns the table of the same networks; each new value is the result of `change` for the old one. The values are
    /// moved, and nothing is sorted again. Allocates one list. If memory runs out, it fails, and drops the values.
    ///
    /// ```text
    /// 10.0.0.0/8 with 1 and 10.1.0.0/16 with 2, change(v) = v * 10: 10.0.0.0/8 with 10, 10.1.0.0/16 with 20
    /// ```
    pub fn map<W: Drop, F: Fn(V) -> W + Drop>(
        self,
        alloc: Global,
        change: F,
    ) -> Result<RouteTable<W>, AllocError>
    where
        V: Drop,
        requires { F.IsAlwaysCallable change }
        ensures networks { IfOk result (λ table. networks_of (routes_of table) ≡ networks_of (routes_of self)) }
        ensures values { IfOk result (λ table. (n : Network) (v : V) (w : W) → Contains (routes_of self) (n, v)
            → Contains (routes_of table) (n, w) → F.post change v w) }
    {
        let RouteTable {
            routes,
            enclosing,
            index,
        } = self;
        let mapped = change_values(alloc, routes, change)?;
        Ok(RouteTable {
            routes: mapped,
            enclosing,
            index,
        })
    }
}

impl<'a, V> IntoIterator for &'a RouteTable<V> {
    type Item = &'a (IpNet, V);

    type IntoIter = slice::Iter<'a, (IpNet, V)>;

    ghost use Rattle.ipnet_routes.specs.RoutesOf.{routes_of};

    ghost into_iter_gives = { λ table routes. (ip_routes (iter_rest routes) ≡ routes_of table.now)
        × (length (iter_rest routes) < 2 ^ 64) × IterYieldsInOrder (IpNet × V) };

    /// The routes of the table, as `RouteTable::routes` lists them. A loop `for route in &table` goes through them.
    fn into_iter(self) -> slice::Iter<'a, (IpNet, V)> {
        let routes = self.routes.as_slice();
        routes.iter()
    }
}
