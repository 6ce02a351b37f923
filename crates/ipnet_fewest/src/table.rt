//! Tables with the fewest routes.
ghost use Rattle.std.specs.Prelude.{IfOk};
ghost use Rattle.ipnet_routes.specs.RoutesOf.{routes_of};
ghost use Rattle.ipnet_fewest.specs.Shortest.{AreEqualBy, IsShortest};

use crate::fewest::fewest_routes;
use crate::numbers::{distinct_values, numbered, valued};
use ipnet_routes::RouteTable;
use std::alloc::{AllocError, Global};

/// Returns a table that routes every address as the given one does: each address has the same value in both, or no
/// value in both. No such table, and no such list of routes, has fewer routes. Values are the same if they compare as
/// equal.
///
/// Fails only if memory runs out. An IPv4 route takes at most 32 steps, an IPv6 route at most 128, and each step takes
/// time for the values that are as good there. This is the algorithm ORTC (Draves, King, Venkatachary, Zill, 1999),
/// extended to addresses without a value.
///
/// ```text
/// 10.0.0.0/8 with 1, 10.0.0.0/9 with 2, 10.128.0.0/9 with 2: 10.0.0.0/8 with 2
/// 10.0.0.0/9 with 1, 10.128.0.0/10 with 1: the same two routes, since 10.192.0.0 has no value
/// ```
pub fn shortest_table<V: Ord + Copy + Drop>(
    alloc: Global,
    table: &RouteTable<V>,
) -> Result<RouteTable<V>, AllocError>
    ensures { IfOk result (λ shortest. IsShortest (AreEqualBy V.cmp) (routes_of table.now) (routes_of shortest)) }
{
    let routes = table.routes();
    if routes.is_empty() {
        return RouteTable::from_routes(alloc, Vec::new(alloc));
    }
    let values = distinct_values(alloc, routes)?;
    let numbers = numbered(alloc, routes, values.as_slice())?;
    let fewest = fewest_routes(alloc, numbers)?;
    let list = valued(alloc, fewest.as_slice(), values.as_slice())?;
    drop(fewest);
    drop(values);
    RouteTable::from_routes(alloc, list)
}
