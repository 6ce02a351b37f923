//! Tables of routes as values: copies, equality and text.
ghost use Rattle.std.specs.Cmp.{on_per, on_equiv};
ghost use Rattle.ipnet_routes.specs.RouteValues.{AreClones, are_equal, equal_per, equal_equiv};

use super::RouteTable;
use ipnet::net::laws::ip_nets_compare_by_network;
use std::alloc::AllocError;
use std::fmt;

impl<V: Clone + Drop> Clone for RouteTable<V> {
    ghost use Rattle.ipnet_routes.specs.RoutesOf.{routes_of};

    ghost is_clone = { λ t u. AreClones V.is_clone (routes_of t) (routes_of u) };

    /// A table of the same networks, each with a clone of its value. Fails only if memory runs out, or if the clone of
    /// a value fails.
    fn clone(&self) -> Result<RouteTable<V>, AllocError> {
        let routes = self.routes.clone()?;
        let enclosing = self.enclosing.clone()?;
        let index = self.index.clone()?;
        Ok(RouteTable {
            routes,
            enclosing,
            index,
        })
    }
}

impl<V: PartialEq> PartialEq for RouteTable<V> {
    ghost use Rattle.ipnet_routes.specs.RoutesOf.{routes_of};

    ghost eq = { λ t u. are_equal V.eq (routes_of t) (routes_of u) };

    ghost laws = { on_per routes_of (equal_per V.laws) };

    /// Whether the tables have the same networks, each with equal values.
    fn eq(&self, other: &RouteTable<V>) -> bool {
        ip_nets_compare_by_network();
        self.routes == other.routes
    }
}

impl<V: Eq> Eq for RouteTable<V> {
    ghost use Rattle.ipnet_routes.specs.RoutesOf.{routes_of};

    ghost laws = { on_equiv routes_of (equal_equiv V.Eq.laws) };
}

/// Writes the routes of the table, as `{10.0.0.0/8: 1, 10.1.0.0/16: 2}`.
impl<V: fmt::Debug> fmt::Debug for RouteTable<V> {
    fn fmt<W: fmt::Write>(&self, f: &mut fmt::Formatter<W>) -> fmt::Result {
        let mut map = f.debug_map();
        for (network, value) in &self.routes {
            map.entry(network, value);
        }
        map.finish()
    }
}
