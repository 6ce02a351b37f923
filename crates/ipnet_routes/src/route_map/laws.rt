//! The laws of all maps of routes: functions with nothing to run, whose contracts are the laws.
ghost use Rattle.std.specs.Prelude.{◌↔◌, IsTrue};
ghost use Rattle.ipnet_routes.specs.RouteMapsOf.{map_routes};
ghost use Rattle.ipnet_routes.specs.RouteValues.{AreClones, AreEqual};
ghost use Rattle.ipnet_routes.specs.declared.route_map.RouteMap.{RouteMap};

use super::RouteMap;

/// Maps are equal if and only if they have the same networks, each with equal values. A map is a clone of another if
/// and only if it has the same networks, each with a clone of its value.
pub fn maps_follow_routes<V: PartialEq + Clone>()
    ensures equality { (m n : RouteMap V) → IsTrue (⟦<RouteMap<V> as PartialEq>⟧.eq m n)
        ↔ AreEqual V.eq (map_routes m) (map_routes n) }
    ensures clone { (m n : RouteMap V) → ⟦<RouteMap<V> as Clone>⟧.is_clone m n
        ↔ AreClones V.is_clone (map_routes m) (map_routes n) }
{}
