//! The routes of a map, or of a part of it, one after the other.
ghost use Rattle.std.specs.Prelude.{◌≡◌, ◌<◌, ◌≤◌, ◌-◌, [], length, take, drop};
ghost use Rattle.std.specs.Iterator.{YieldsFirstBy, item_count};
ghost use Rattle.ipnet_routes.specs.Routes.{ip_route, ip_routes};
ghost use Rattle.ipnet_routes.specs.RouteMapSteps.{AreFilled, all_of, chunk_at, position_of};

use super::chunks::{Chunk, Place};
use ipnet::IpNet;
use std::iter::FusedIterator;

/// The routes of a map, or those within a network, in the order of their networks. Made by `RouteMap::routes` and
/// `RouteMap::within`; allocates nothing.
///
/// ```text
/// of 10.0.0.0/8 with 1 and 10.1.0.0/16 with 2: 10.0.0.0/8 with 1, then 10.1.0.0/16 with 2, then None
/// ```
#[derive(Drop)]
pub struct MapRoutes<'a, V> {
    pub(crate) first: &'a [(IpNet, V)],
    pub(crate) middle: &'a [Chunk<V>],
    pub(crate) last: &'a [(IpNet, V)],
    ghost filled: { AreFilled middle.now },
}

impl<'a, V> MapRoutes<'a, V> {
    ghost use Rattle.ipnet_routes.specs.RouteMapsLeft.{routes_left};

    /// Returns the routes from one place up to another.
    pub(crate) fn from_places(chunks: &'a [Chunk<V>], start: Place, end: Place) -> MapRoutes<'a, V>
        requires filled { AreFilled chunks.now }
        requires start_chunk { 0 < length chunks.now → start.chunk < length chunks.now }
        requires end_chunk { 0 < length chunks.now → end.chunk < length chunks.now }
        requires start_index { start.index ≤ length (chunk_at chunks.now start.chunk) }
        requires end_index { end.index ≤ length (chunk_at chunks.now end.chunk) }
        requires order { position_of chunks.now start.chunk start.index ≤ position_of chunks.now end.chunk end.index }
        ensures { routes_left result ≡ ip_routes
            (take (position_of chunks.now end.chunk end.index - position_of chunks.now start.chunk start.index)
            (drop (position_of chunks.now start.chunk start.index) (all_of chunks.now))) }
    {
        if chunks.len() == 0 {
            return MapRoutes {
                first: &[],
                middle: &[],
                last: &[],
            };
        }
        if start.chunk > end.chunk {
            return MapRoutes {
                first: &[],
                middle: &[],
                last: &[],
            };
        }
        let routes = chunks[start.chunk].as_slice();
        if start.chunk == end.chunk {
            let first = cut(routes, start.index, end.index);
            return MapRoutes {
                first,
                middle: &[],
                last: &[],
            };
        }
        let first = cut(routes, start.index, routes.len());
        let middle = cut(chunks, start.chunk + 1, end.chunk);
        let last = cut(chunks[end.chunk].as_slice(), 0, end.index);
        MapRoutes {
            first,
            middle,
            last,
        }
    }

    /// Goes on to the next chunk if the routes of the first are all yielded.
    fn refill(&mut self)
        ensures left { routes_left self.new ≡ routes_left self.old }
        ensures none { length self.new.first.now ≡ 0 → routes_left self.new ≡ [] }
    {
        if !self.first.is_empty() {
            return;
        }
        if let Some((chunk, others)) = self.middle.split_first() {
            self.first = chunk.as_slice();
            self.middle = others;
            return;
        }
        self.first = self.last;
        self.last = &self.last[..0];
    }
}

impl<'a, V> Iterator for MapRoutes<'a, V> {
    type Item = &'a (IpNet, V);

    ghost use Rattle.ipnet_routes.specs.RouteMapsLeft.{routes_left};

    ghost next_gives = { YieldsFirstBy ip_route routes_left };

    ghost remaining = { item_count routes_left };

    /// Returns the first route that is left, or `None`, then and ever after, if none is.
    fn next(&mut self) -> Option<&'a (IpNet, V)> {
        self.refill();
        if self.first.is_empty() {
            return None;
        }
        let route = &self.first[0];
        self.first = &self.first[1..];
        Some(route)
    }
}

impl<V> FusedIterator for MapRoutes<'_, V> {}

/// Returns the elements from one index up to another.
fn cut<T>(list: &[T], start: usize, end: usize) -> &[T]
    requires order { start ≤ end }
    requires within { end ≤ length list.now }
    ensures { result.now ≡ take (end - start) (drop start list.now) }
{
    &list[start..end]
}
