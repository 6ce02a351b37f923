//! Memory that runs out while a route map grows, and while tables and maps are cloned. A call fails in the first run,
//! succeeds in the last, and never returns a wrong result. The other calls that allocate are asked from tests/memory.
//!
//! The lists are short, because memory that a call releases does not serve the requests of later runs.
use ipnet::IpNet;
use ipnet_routes::{RouteMap, RouteTable};
use std::alloc::{AllocError, Global};
use std::test::Fail;
use test_support::memory::{Outcome, grow_stack, is_refused_and_answered, needs_no_memory};

/// The networks of the routes, in their order.
const NETWORKS: [&str; 4] = ["10.0.0.0/8", "10.1.0.0/16", "10.1.2.0/24", "fd00::/8"];

/// Puts a route to each network into a map. If one is refused, the map has the routes that it had.
fn fill_map(alloc: Global, networks: &[IpNet]) -> Outcome {
    let mut map = RouteMap::new(alloc);
    for network in networks {
        let count = map.len();
        if map.insert(network, count).is_err() {
            return if map.len() == count && map.get(network).is_none() {
                Outcome::Refused
            } else {
                Outcome::Wrong
            };
        }
    }
    let mut routes = map.routes();
    for network in networks {
        if routes.next().is_none_or(|route| route.0 != *network) {
            return Outcome::Wrong;
        }
    }
    outcome(Ok(routes.next().is_none()))
}

/// Whether the clone of the table is equal to the table.
fn is_cloned_table_equal(table: &RouteTable<usize>) -> Result<bool, AllocError> {
    Ok(table.clone()? == *table)
}

/// Whether the clone of the map is equal to the map.
fn is_cloned_map_equal(map: &RouteMap<usize>) -> Result<bool, AllocError> {
    Ok(map.clone()? == *map)
}

/// The outcome of a call that returned whether its result is right.
fn outcome(is_right: Result<bool, AllocError>) -> Outcome {
    match is_right {
        Ok(true) => Outcome::Answered,
        Ok(false) => Outcome::Wrong,
        Err(_) => Outcome::Refused,
    }
}

#[test]
fn maps_and_clones(rt: HostRuntime) -> Result<(), Fail> {
    grow_stack(rt.alloc())?;
    let alloc = rt.alloc();
    let mut networks = Vec::new(alloc);
    let mut routes = Vec::new(alloc);
    let mut map = RouteMap::new(alloc);
    for text in NETWORKS {
        let network: IpNet = text.parse()?;
        networks.push(network)?;
        routes.push((network, 7usize))?;
        map.insert(&network, 7usize)?;
    }
    let table = RouteTable::from_routes(alloc, routes)?;
    let list = networks.as_slice();
    let is_right = is_refused_and_answered(alloc, || fill_map(alloc, list))?;
    assert!(rt; is_right, "insert");
    let is_right = is_refused_and_answered(alloc, || outcome(is_cloned_table_equal(&table)))?;
    assert!(rt; is_right, "the clone of a table");
    let is_right = is_refused_and_answered(alloc, || outcome(is_cloned_map_equal(&map)))?;
    assert!(rt; is_right, "the clone of a map");
    Ok(())
}

#[test]
fn clones_of_nothing_need_no_memory(rt: HostRuntime) -> Result<(), Fail> {
    grow_stack(rt.alloc())?;
    let alloc = rt.alloc();
    let table = RouteTable::<usize>::from_routes(alloc, Vec::new(alloc))?;
    let map = RouteMap::<usize>::new(alloc);
    let is_right = needs_no_memory(alloc, || is_cloned_table_equal(&table) == Ok(true))?;
    assert!(rt; is_right, "the clone of a table");
    let is_right = needs_no_memory(alloc, || is_cloned_map_equal(&map) == Ok(true))?;
    assert!(rt; is_right, "the clone of a map");
    Ok(())
}
