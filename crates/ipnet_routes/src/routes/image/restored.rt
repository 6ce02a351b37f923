//! A table made again from the bytes that hold it.
ghost use Rattle.std.specs.Prelude.{◌≡◌, IfOk};
ghost use Rattle.ipnet_routes.specs.TableImages.{route_count, AreRoutesIn, HasRoutes};
ghost use Rattle.ipnet_routes.specs.RoutesOf.{routes_of};

use super::stored_table::StoredTable;
use crate::routes::RouteTable;
use crate::routes::index::RouteIndex;
use std::alloc::{AllocError, Global};

/// Returns the table of the stored routes, which keep their links. Fails only if memory runs out.
pub(super) fn restored_table(
    alloc: Global,
    stored: &StoredTable<'_>,
) -> Result<RouteTable<u32>, AllocError>
    requires { HasRoutes stored.now.bytes.now }
    ensures { IfOk result (λ table.
        AreRoutesIn stored.now.bytes.now (route_count stored.now.bytes.now) (routes_of table)) }
{
    let mut routes = Vec::with_capacity(alloc, stored.len())?;
    let mut enclosing = Vec::with_capacity(alloc, stored.len())?;
    for index in 0..stored.len() {
        let Some(route) = stored.route(index) else {
            unreachable!();
        };
        routes.push((route.network, route.value))?;
        enclosing.push(route.link)?;
    }
    let index = RouteIndex::from_routes(alloc, routes.as_slice())?;
    Ok(RouteTable {
        routes,
        enclosing,
        index,
    })
}
