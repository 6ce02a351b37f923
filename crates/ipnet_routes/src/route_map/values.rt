//! Maps of routes as values: copies, equality and text.
ghost use Rattle.std.specs.Cmp.{on_per, on_equiv};
ghost use Rattle.std.specs.Prelude.{◌≡◌};
ghost use Rattle.ipnet_routes.specs.RouteMapsLeft.{routes_left};
ghost use Rattle.ipnet_routes.specs.RouteValues.{AreClones, are_equal, equal_per, equal_equiv};

use super::RouteMap;
use super::routes::MapRoutes;
use ipnet::net::laws::ip_nets_compare_by_network;
use std::alloc::AllocError;
use std::fmt;

/// Whether the same routes are left.
fn are_same<V: PartialEq>(routes: MapRoutes<'_, V>, others: MapRoutes<'_, V>) -> bool
    ensures { result ≡ are_equal V.eq (routes_left routes.entry) (routes_left others.entry) }
{
    ip_nets_compare_by_network();
    let mut routes = routes;
    let mut others = others;
    while let Some(route) = routes.next() {
        let Some(other) = others.next() else {
            return false;
        };
        if route != other {
            return false;
        }
    }
    others.next().is_none()
}

impl<V: Clone + Drop> Clone for RouteMap<V> {
    ghost use Rattle.ipnet_routes.specs.RouteMapsOf.{map_routes};

    ghost is_clone = { λ m n. AreClones V.is_clone (map_routes m) (map_routes n) };

    /// A map of the same networks, each with a clone of its value. Fails only if memory runs out, or if the clone of a
    /// value fails.
    fn clone(&self) -> Result<RouteMap<V>, AllocError> {
        let chunks = self.chunks.clone()?;
        Ok(RouteMap::from_chunks(self.alloc, chunks, self.count))
    }
}

impl<V: PartialEq> PartialEq for RouteMap<V> {
    ghost use Rattle.ipnet_routes.specs.RouteMapsOf.{map_routes};

    ghost eq = { λ t u. are_equal V.eq (map_routes t) (map_routes u) };

    ghost laws = { on_per map_routes (equal_per V.laws) };

    /// Whether the maps have the same networks, each with equal values.
    fn eq(&self, other: &RouteMap<V>) -> bool {
        are_same(self.routes(), other.routes())
    }
}

impl<V: Eq> Eq for RouteMap<V> {
    ghost use Rattle.ipnet_routes.specs.RouteMapsOf.{map_routes};

    ghost laws = { on_equiv map_routes (equal_equiv V.Eq.laws) };
}

/// Writes the routes of the map, as `{10.0.0.0/8: 1, 10.1.0.0/16: 2}`.
impl<V: fmt::Debug> fmt::Debug for RouteMap<V> {
    fn fmt<W: fmt::Write>(&self, f: &mut fmt::Formatter<W>) -> fmt::Result {
        let mut map = f.debug_map();
        for (network, value) in self {
            map.entry(network, value);
        }
        map.finish()
    }
}
