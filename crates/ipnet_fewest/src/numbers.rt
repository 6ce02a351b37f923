//! Numbers for the values of a table: values that compare as equal have the same number.
ghost use Rattle.std.specs.Prelude.{◌<◌, length, IfOk};
ghost use Rattle.std.specs.List.Sorted.{IsSorted};
ghost use Rattle.ipnet.specs.NetworkOf.{ip_network};
ghost use Rattle.ipnet_routes.specs.Routes.{Route, ip_routes};
ghost use Rattle.ipnet_fewest.specs.Numbers.{IsRank, HasEqual, HasValuesOf, AreNumbered, AreValued};

use ipnet::IpNet;
use std::alloc::{AllocError, Global};

/// The fewest values that are collected before repeated values are dropped.
const LEAST_LIMIT: usize = 1_024;

/// Sorts the values, and drops repeated ones.
fn drop_repeated<V: Ord + Copy>(values: &mut Vec<V>)
    ensures sorted { IsSorted V.cmp values.new.items }
    ensures kept { (v : V) → HasEqual V.cmp values.old.items v → HasEqual V.cmp values.new.items v }
{
    values.sort_unstable();
    values.dedup();
}

/// Drops repeated values if the list is as long as the limit. Returns the limit for the values that come later.
fn with_room<V: Ord + Copy>(values: &mut Vec<V>, limit: usize) -> usize
    ensures { (v : V) → HasEqual V.cmp values.old.items v → HasEqual V.cmp values.new.items v }
{
    if values.len() < limit {
        return limit;
    }
    drop_repeated(values);
    values.len().saturating_mul(2).max(LEAST_LIMIT)
}

/// Returns the values of the routes in order, and values that compare as equal once. The list that is sorted is never
/// longer than twice the number of different values, or the least limit.
pub(crate) fn distinct_values<V: Ord + Copy>(
    alloc: Global,
    routes: &[(IpNet, V)],
) -> Result<Vec<V>, AllocError>
    ensures sorted { IfOk result (λ values. IsSorted V.cmp values.items) }
    ensures all { IfOk result (λ values. HasValuesOf V.cmp (ip_routes routes.now) values.items) }
{
    let mut values = Vec::new(alloc);
    let mut limit = LEAST_LIMIT;
    for index in 0..routes.len() {
        limit = with_room(&mut values, limit);
        values.push(routes[index].1)?;
    }
    drop_repeated(&mut values);
    values.shrink_to_fit();
    Ok(values)
}

/// Returns how many of the values are less than this one.
fn rank<V: Ord + Copy>(values: &[V], value: V) -> usize
    requires { IsSorted V.cmp values.now }
    ensures { IsRank V.cmp values.now value result }
{
    let mut low = 0;
    let mut high = values.len();
    while low < high {
        let middle = low + (high - low) / 2;
        if values[middle].cmp(&value).is_lt() {
            low = middle + 1;
        } else {
            high = middle;
        }
    }
    low
}

/// Returns the routes with the number of each value in its place: one more than its rank.
pub(crate) fn numbered<V: Ord + Copy>(
    alloc: Global,
    routes: &[(IpNet, V)],
    values: &[V],
) -> Result<Vec<(IpNet, usize)>, AllocError>
    requires sorted { IsSorted V.cmp values.now }
    requires has { HasValuesOf V.cmp (ip_routes routes.now) values.now }
    ensures { IfOk result (λ numbered. AreNumbered V.cmp values.now (ip_routes routes.now)
        (ip_routes numbered.items)) }
{
    let mut numbered = Vec::with_capacity(alloc, routes.len())?;
    for index in 0..routes.len() {
        let route = routes[index];
        numbered.push((route.0, rank(values, route.1) + 1))?;
    }
    Ok(numbered)
}

/// Returns the routes with the value of each number in its place. A number for which there is no value gets the last.
pub(crate) fn valued<V: Copy>(
    alloc: Global,
    routes: &[(IpNet, usize)],
    values: &[V],
) -> Result<Vec<(IpNet, V)>, AllocError>
    requires some { 0 < length values.now }
    ensures { IfOk result (λ valued. AreValued values.now (ip_routes routes.now) (ip_routes valued.items)) }
{
    let last = values.len() - 1;
    let mut valued = Vec::with_capacity(alloc, routes.len())?;
    for index in 0..routes.len() {
        let route = routes[index];
        let place = route.1.saturating_sub(1).min(last);
        valued.push((route.0, values[place]))?;
    }
    Ok(valued)
}
