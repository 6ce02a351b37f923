//! The routes of a map that hold an address, one after the other.
ghost use Rattle.std.specs.Iterator.{YieldsFirstBy, item_count};
ghost use Rattle.ipnet_routes.specs.Routes.{ip_route, ip_networks};
ghost use Rattle.ipnet_routes.specs.RouteSteps.{IsTable};
ghost use Rattle.ipnet_routes.specs.RouteMapSteps.{all_of, AreFilled};
ghost use Rattle.ipnet_routes.specs.RouteLengths.{AreKnown};

use super::chunks::Chunk;
use super::covering::covering_in;
use super::index::ChunkIndex;
use super::lengths::KnownLengths;
use ipnet::IpNet;
use std::iter::FusedIterator;

/// The routes of a map whose networks contain an address, the longest first. Made by `RouteMap::matches`; allocates
/// nothing.
///
/// ```text
/// of 0.0.0.0/0, 10.0.0.0/8 and 10.1.0.0/16, for 10.2.0.1: 10.0.0.0/8, then 0.0.0.0/0, then None
/// ```
#[derive(Drop)]
pub struct MapMatches<'a, V> {
    pub(crate) chunks: &'a [Chunk<V>],
    pub(crate) index: &'a ChunkIndex,
    pub(crate) lengths: &'a KnownLengths,
    pub(crate) wanted: Option<IpNet>,
    ghost table: { IsTable (ip_networks (all_of chunks.now)) },
    ghost filled: { AreFilled chunks.now },
    ghost known: { AreKnown lengths.now.masks.items lengths.now.width (ip_networks (all_of chunks.now)) },
}

impl<'a, V> Iterator for MapMatches<'a, V> {
    type Item = &'a (IpNet, V);

    ghost use Rattle.ipnet_routes.specs.RouteMapsLeft.{map_matches_left};

    ghost next_gives = { YieldsFirstBy ip_route map_matches_left };

    ghost remaining = { item_count map_matches_left };

    /// Returns the longest route that is left, or `None`, then and ever after, if none is.
    fn next(&mut self) -> Option<&'a (IpNet, V)> {
        let Some(wanted) = self.wanted else {
            return None;
        };
        let Some(route) = covering_in(self.chunks, self.index, self.lengths, &wanted) else {
            self.wanted = None;
            return None;
        };
        self.wanted = route.0.supernet();
        Some(route)
    }
}

impl<V> FusedIterator for MapMatches<'_, V> {}
