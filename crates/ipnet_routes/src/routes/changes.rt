//! Changes between two tables of routes.
ghost use Rattle.std.specs.Prelude.{◌≡◌, false, IsTrue, IfOk, ◌↔◌, Contains, map};
ghost use Rattle.ipnet_base.specs.Network.{IsTruncated};
ghost use Rattle.ipnet.specs.NetworkOf.{ip_network};
ghost use Rattle.ipnet_routes.specs.Routes.{ip_route, AreLacking, AreChanges};
ghost use Rattle.ipnet_routes.specs.RouteSteps.{same_value};

use super::RouteTable;
use ipnet::IpNet;
use std::alloc::{AllocError, Global};

/// The changes from an old table to a new one. Made by `RouteTable::changes`.
#[derive(Drop)]
pub struct RouteChanges<'a, V> {
    /// The routes of the old table whose network the new one doesn't have, in order.
    pub removed: Vec<&'a (IpNet, V)>,
    /// The routes of the new table whose network the old one doesn't have, or has with another value, in order.
    pub put: Vec<&'a (IpNet, V)>,
}

impl<V> RouteTable<V> {
    ghost use Rattle.ipnet_routes.specs.RoutesOf.{routes_of};

    /// Whether the table lacks the network of the route; if values count, also whether it gives it another value.
    fn lacks(&self, route: &(IpNet, V), values_count: bool) -> bool
    where
        V: PartialEq,
        requires { IsTruncated (ip_network route.now.0) }
        ensures { IsTrue result ↔ ((w : V) → Contains (routes_of self.now) (ip_network route.now.0, w)
            → same_value values_count V.eq w route.now.1 ≡ false) }
    {
        match self.get(&route.0) {
            Some(value) => values_count && *value != route.1,
            None => true,
        }
    }

    /// The routes of this table that the other lacks, in order; if values count, also those to which it gives another
    /// value.
    fn lacking<'a>(
        &'a self,
        alloc: Global,
        other: &RouteTable<V>,
        values_count: bool,
    ) -> Result<Vec<&'a (IpNet, V)>, AllocError>
    where
        V: PartialEq,
        ensures { IfOk result (λ found. AreLacking (same_value values_count V.eq) (routes_of self.now)
            (routes_of other.now) (map ip_route found.items)) }
    {
        let routes = self.routes.as_slice();
        let mut found = Vec::new(alloc);
        for index in 0..routes.len() {
            let route = &routes[index];
            if other.lacks(route, values_count) {
                found.push(route)?;
            }
        }
        Ok(found)
    }

    /// Returns the changes from this table to the new one: the routes to remove, and the routes to put in, in order.
    ///
    /// A network that both tables have, with equal values by `==`, is in neither list; with other values, the new route
    /// is put. Fails only if memory runs out. The time grows with the number of routes and its logarithm.
    ///
    /// ```text
    /// from 10.0.0.0/8 with 1 and 10.1.0.0/16 with 2 to 10.0.0.0/8 with 3 and 11.0.0.0/8 with 1:
    /// 10.1.0.0/16 is removed; 10.0.0.0/8 with 3 and 11.0.0.0/8 with 1 are put
    /// ```
    pub fn changes<'a>(
        &'a self,
        alloc: Global,
        new: &'a RouteTable<V>,
    ) -> Result<RouteChanges<'a, V>, AllocError>
    where
        V: PartialEq,
        ensures { IfOk result (λ changes. AreChanges V.eq (routes_of self.now) (routes_of new.now)
            (map ip_route changes.removed.items) (map ip_route changes.put.items)) }
    {
        let removed = self.lacking(alloc, new, false)?;
        let put = new.lacking(alloc, self, true)?;
        Ok(RouteChanges { removed, put })
    }
}
