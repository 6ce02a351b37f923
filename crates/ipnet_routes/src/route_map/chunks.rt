//! The chunks of a map of routes: lists of routes, one after the other in the order of networks. The search for a place
//! in them, and the changes at a place.
ghost use Rattle.std.specs.Prelude.{◌≡◌, ◌<◌, ◌≤◌, ◌+◌, ◌++◌, ◌∷◌, [], length, set, OnOk, OnErr, IfOk, IfSome, IfNone};
ghost use Rattle.std.specs.Prelude.{slice_index_or, IsTrue, Contains, ◌↔◌};
ghost use Rattle.std.specs.List.{insert, remove};
ghost use Rattle.ipnet_base.specs.Network.{Network, IsBefore};
ghost use Rattle.ipnet.specs.NetworkOf.{ip_network};
ghost use Rattle.ipnet_routes.specs.Routes.{ip_networks};
ghost use Rattle.ipnet_routes.specs.RouteSteps.{IsTable, IsPlaceAfter, IsPlaceOf};
ghost use Rattle.ipnet_routes.specs.RouteMapSteps.{all_of, AreFilled, firsts_of, chunk_at, position_of, IsLastUpTo};
ghost use Rattle.ipnet_routes.specs.RouteMapSteps.{IsInsertedInOrder};

use crate::routes::index::{Bucket, probe};
use crate::routes::{is_same, place_after};
use ipnet::IpNet;
use ipnet::net::laws::ip_nets_compare_by_network;
use std::alloc::{AllocError, Global};
use std::mem;

/// The most routes of a chunk.
pub(crate) const FULL: usize = 128;

/// How many routes a chunk has that is made of routes in order.
const FILLED: usize = 96;

/// A list of routes that are next to each other in the map.
pub(crate) type Chunk<V> = Vec<(IpNet, V)>;

/// The index of a chunk, and the index of a route in it.
#[derive(Clone, Copy)]
pub(crate) struct Place {
    pub(crate) chunk: usize,
    pub(crate) index: usize,
}

impl Place {
    /// The place one route before, in the same chunk.
    pub(crate) fn before(self) -> Place
        requires { 0 < self.index }
        ensures chunk { result.chunk ≡ self.chunk }
        ensures index { result.index + 1 ≡ self.index }
    {
        Place {
            chunk: self.chunk,
            index: self.index - 1,
        }
    }
}

/// The place at which a search begins: a chunk, and two indices of routes in it. A search is right for any hint; a good
/// one makes it short.
#[derive(Clone, Copy)]
pub(crate) struct Hint {
    pub(crate) chunk: usize,
    pub(crate) bucket: Bucket,
}

impl Hint {
    /// The hint at the start of all chunks.
    pub(crate) fn none() -> Hint {
        Hint {
            chunk: 0,
            bucket: Bucket { start: 0, end: 0 },
        }
    }

    /// The bucket beside the chunk.
    fn beside(self) -> Bucket {
        let next = self.chunk.saturating_add(1);
        Bucket {
            start: next,
            end: next,
        }
    }
}

/// How many chunks begin with this network or one that comes before it.
pub(crate) fn chunk_after<V>(chunks: &[Chunk<V>], bucket: Bucket, network: &IpNet) -> usize
    requires table { IsTable (ip_networks (all_of chunks.now)) }
    requires filled { AreFilled chunks.now }
    ensures { IsPlaceAfter (firsts_of chunks.now) (ip_network network.now) result }
{
    ip_nets_compare_by_network();
    let mut low = 0;
    let mut high = chunks.len();
    while low < high {
        let middle = probe(low, high, bucket);
        let first = chunks[middle][0].0;
        if *network < first {
            high = middle;
        } else {
            low = middle + 1;
        }
    }
    low
}

/// Whether the place lies between two routes of its chunk, the first of which is this network or comes before it, and
/// the second comes after it.
fn is_between<V>(chunks: &[Chunk<V>], place: Place, network: &IpNet) -> bool
    requires table { IsTable (ip_networks (all_of chunks.now)) }
    ensures chunk { IsTrue result → place.chunk < length chunks.now }
    ensures some { IsTrue result → 0 < place.index }
    ensures index { IsTrue result → place.index ≤ length (chunk_at chunks.now place.chunk) }
    ensures place { IsTrue result → IsPlaceAfter (ip_networks (all_of chunks.now)) (ip_network network.now)
        (position_of chunks.now place.chunk place.index) }
{
    ip_nets_compare_by_network();
    if place.index == 0 {
        return false;
    }
    if place.chunk >= chunks.len() {
        return false;
    }
    let routes = chunks[place.chunk].as_slice();
    if place.index >= routes.len() {
        return false;
    }
    let first = routes[place.index - 1].0;
    if *network < first {
        return false;
    }
    let second = routes[place.index].0;
    *network < second
}

/// The last route whose network is this one or comes before it.
pub(crate) fn last_up_to<'a, V>(
    chunks: &'a [Chunk<V>],
    hint: Hint,
    network: &IpNet,
) -> Option<&'a (IpNet, V)>
    requires table { IsTable (ip_networks (all_of chunks.now)) }
    requires filled { AreFilled chunks.now }
    ensures some { IfSome result (λ route. IsLastUpTo (all_of chunks.now) (ip_network network.now)
        (ip_network route.now.0, route.now.1)) }
    ensures none { IfNone result ((k : Network) → Contains (ip_networks (all_of chunks.now)) k
        → IsBefore (ip_network network.now) k) }
{
    let place = place_after_all(chunks, hint, network);
    if place.index == 0 {
        return None;
    }
    Some(&chunks[place.chunk][place.index - 1])
}

/// The place after the routes whose networks are this one or come before it; in the chunk of the last of them.
pub(crate) fn place_after_all<V>(chunks: &[Chunk<V>], hint: Hint, network: &IpNet) -> Place
    requires table { IsTable (ip_networks (all_of chunks.now)) }
    requires filled { AreFilled chunks.now }
    ensures chunk { 0 < length chunks.now → result.chunk < length chunks.now }
    ensures index { result.index ≤ length (chunk_at chunks.now result.chunk) }
    ensures start { result.index ≡ 0 → position_of chunks.now result.chunk 0 ≡ 0 }
    ensures place { IsPlaceAfter (ip_networks (all_of chunks.now)) (ip_network network.now)
        (position_of chunks.now result.chunk result.index) }
{
    let place = Place {
        chunk: hint.chunk,
        index: hint.bucket.end,
    };
    if is_between(chunks, place, network) {
        return place;
    }
    let count = chunks.len();
    if count == 0 {
        return Place { chunk: 0, index: 0 };
    }
    let chunk = chunk_after(chunks, hint.beside(), network).saturating_sub(1);
    let routes = chunks[chunk].as_slice();
    let index = place_after(routes, hint.bucket, network);
    Place { chunk, index }
}

/// Whether the chunks have the network, if this is the place after the networks that are it or come before it. The
/// route of the network is then just before the place.
pub(crate) fn is_behind<V>(chunks: &[Chunk<V>], place: Place, network: &IpNet) -> bool
    requires table { IsTable (ip_networks (all_of chunks.now)) }
    requires filled { AreFilled chunks.now }
    requires index { place.index ≤ length (chunk_at chunks.now place.chunk) }
    requires start { place.index ≡ 0 → position_of chunks.now place.chunk 0 ≡ 0 }
    requires place { IsPlaceAfter (ip_networks (all_of chunks.now)) (ip_network network.now)
        (position_of chunks.now place.chunk place.index) }
    ensures has { IsTrue result ↔ Contains (ip_networks (all_of chunks.now)) (ip_network network.now) }
    ensures index { IsTrue result → 0 < place.index }
{
    if place.index == 0 {
        return false;
    }
    is_same(&chunks[place.chunk][place.index - 1].0, network)
}

/// The place of the network; if the chunks do not have it, the place of the next one.
pub(crate) fn place_of_all<V>(chunks: &[Chunk<V>], hint: Hint, network: &IpNet) -> Place
    requires table { IsTable (ip_networks (all_of chunks.now)) }
    requires filled { AreFilled chunks.now }
    ensures chunk { 0 < length chunks.now → result.chunk < length chunks.now }
    ensures index { result.index ≤ length (chunk_at chunks.now result.chunk) }
    ensures place { IsPlaceOf (ip_networks (all_of chunks.now)) (ip_network network.now)
        (position_of chunks.now result.chunk result.index) }
{
    let place = place_after_all(chunks, hint, network);
    if is_behind(chunks, place, network) {
        return place.before();
    }
    place
}

/// Inserts a route at a place.
pub(crate) fn put_at<V: Drop>(
    chunks: &mut Vec<Chunk<V>>,
    place: Place,
    route: (IpNet, V),
) -> Result<(), AllocError>
    requires filled { AreFilled chunks.old.items }
    requires chunk { place.chunk < length chunks.old.items }
    requires index { place.index ≤ length (chunk_at chunks.old.items place.chunk) }
    ensures filled { AreFilled chunks.new.items }
    ensures put { OnOk result (all_of chunks.new.items ≡ insert (all_of chunks.old.items)
        (position_of chunks.old.items place.chunk place.index) route) }
    ensures unchanged { OnErr result (all_of chunks.new.items ≡ all_of chunks.old.items) }
{
    chunks[place.chunk].insert(place.index, route)?;
    Ok(())
}

/// Replaces the value of the route at a place, and returns the value that it had.
pub(crate) fn replace_at<V>(chunks: &mut Vec<Chunk<V>>, place: Place, value: V) -> V
    requires filled { AreFilled chunks.old.items }
    requires chunk { place.chunk < length chunks.old.items }
    requires index { place.index < length (chunk_at chunks.old.items place.chunk) }
    ensures filled { AreFilled chunks.new.items }
    ensures set { (d : IpNet × V) → all_of chunks.new.items ≡ set (all_of chunks.old.items)
        (position_of chunks.old.items place.chunk place.index) (
          (slice_index_or (all_of chunks.old.items) (position_of chunks.old.items place.chunk place.index) d).0,
          value,
        ) }
    ensures value { (d : IpNet × V) → result
        ≡ (slice_index_or (all_of chunks.old.items) (position_of chunks.old.items place.chunk place.index) d).1 }
{
    mem::replace(&mut chunks[place.chunk][place.index].1, value)
}

/// Removes the route at a place, and returns it. A chunk that has no other route is removed too.
pub(crate) fn take_at<V>(chunks: &mut Vec<Chunk<V>>, place: Place) -> (IpNet, V)
    requires filled { AreFilled chunks.old.items }
    requires chunk { place.chunk < length chunks.old.items }
    requires index { place.index < length (chunk_at chunks.old.items place.chunk) }
    ensures filled { AreFilled chunks.new.items }
    ensures taken { all_of chunks.new.items ≡ remove (all_of chunks.old.items)
        (position_of chunks.old.items place.chunk place.index) }
    ensures route { (d : IpNet × V) → result
        ≡ slice_index_or (all_of chunks.old.items) (position_of chunks.old.items place.chunk place.index) d }
{
    let route = chunks[place.chunk].remove(place.index);
    if chunks[place.chunk].len() == 0 {
        let chunk = chunks.remove(place.chunk);
        chunk.destroy_empty();
    }
    route
}

/// How many of a chunk's routes stay in it if it is divided.
fn kept_of(count: usize, is_last: bool) -> usize
    requires { 2 ≤ count }
    ensures some { 0 < result }
    ensures not_all { result < count }
{
    if is_last { count - 1 } else { count / 2 }
}

/// Divides a chunk of at least two routes into two chunks: in halves, but the last chunk of all before its last route,
/// so that routes that come in order fill their chunks.
pub(crate) fn split<V: Drop>(chunks: &mut Vec<Chunk<V>>, chunk: usize) -> Result<(), AllocError>
    requires filled { AreFilled chunks.old.items }
    requires chunk { chunk < length chunks.old.items }
    requires two { 2 ≤ length (chunk_at chunks.old.items chunk) }
    ensures filled { AreFilled chunks.new.items }
    ensures some { 0 < length chunks.new.items }
    ensures unchanged { all_of chunks.new.items ≡ all_of chunks.old.items }
{
    chunks.reserve(1)?;
    let kept = kept_of(chunks[chunk].len(), chunk + 1 == chunks.len());
    let others = chunks[chunk].split_off(kept)?;
    let Ok(()) = chunks.insert(chunk + 1, others) else {
        unreachable!()
    };
    Ok(())
}

/// Adds a route after all others.
pub(crate) fn push_last<V: Drop>(
    alloc: Global,
    chunks: &mut Vec<Chunk<V>>,
    route: (IpNet, V),
) -> Result<(), AllocError>
    requires filled { AreFilled chunks.old.items }
    ensures filled { AreFilled chunks.new.items }
    ensures pushed { OnOk result (all_of chunks.new.items ≡ all_of chunks.old.items ++ route ∷ []) }
    ensures unchanged { OnErr result (all_of chunks.new.items ≡ all_of chunks.old.items) }
{
    let count = chunks.len();
    if count > 0 && chunks[count - 1].len() < FILLED {
        chunks[count - 1].push(route)?;
        return Ok(());
    }
    let mut chunk = Vec::new(alloc);
    chunk.push(route)?;
    chunks.push(chunk)?;
    Ok(())
}

/// Inserts a route at the place after the networks that come before it; divides its chunk first if it is full.
pub(crate) fn put_in_order<V: Drop>(
    alloc: Global,
    chunks: &mut Vec<Chunk<V>>,
    place: Place,
    route: (IpNet, V),
) -> Result<(), AllocError>
    requires table { IsTable (ip_networks (all_of chunks.old.items)) }
    requires filled { AreFilled chunks.old.items }
    requires chunk { 0 < length chunks.old.items → place.chunk < length chunks.old.items }
    requires index { place.index ≤ length (chunk_at chunks.old.items place.chunk) }
    requires place { IsPlaceAfter (ip_networks (all_of chunks.old.items)) (ip_network route.0)
        (position_of chunks.old.items place.chunk place.index) }
    ensures filled { AreFilled chunks.new.items }
    ensures put { OnOk result (IsInsertedInOrder (all_of chunks.old.items) route (all_of chunks.new.items)) }
    ensures unchanged { OnErr result (all_of chunks.new.items ≡ all_of chunks.old.items) }
{
    if chunks.len() == 0 {
        return push_last(alloc, chunks, route);
    }
    if chunks[place.chunk].len() < FULL {
        return put_at(chunks, place, route);
    }
    split(chunks, place.chunk)?;
    let hint = Hint::none();
    let place = place_after_all(chunks.as_slice(), hint, &route.0);
    put_at(chunks, place, route)
}

/// The chunks of a list of routes.
pub(crate) fn chunks_of<V: Drop>(
    alloc: Global,
    routes: Vec<(IpNet, V)>,
) -> Result<Vec<Chunk<V>>, AllocError>
    ensures filled { IfOk result (λ chunks. AreFilled chunks.items) }
    ensures routes { IfOk result (λ chunks. all_of chunks.items ≡ routes.items) }
{
    let mut chunks = Vec::new(alloc);
    for route in routes {
        push_last(alloc, &mut chunks, route)?;
    }
    Ok(chunks)
}

/// The routes of the chunks, in one list.
pub(crate) fn joined<V: Drop>(
    alloc: Global,
    chunks: Vec<Chunk<V>>,
    count: usize,
) -> Result<Vec<(IpNet, V)>, AllocError>
    ensures { IfOk result (λ routes. routes.items ≡ all_of chunks.items) }
{
    let mut routes = Vec::with_capacity(alloc, count)?;
    for chunk in chunks {
        let mut chunk = chunk;
        routes.append(&mut chunk)?;
    }
    Ok(routes)
}
