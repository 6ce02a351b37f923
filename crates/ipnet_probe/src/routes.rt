//! Questions about tables of routes. Routes are networks with a value each, such as `10.0.0.0/8=x`, separated by
//! commas; `-` is the empty list. Values are texts, because texts are not `Copy`.
use crate::show;
use ipnet::{IpAddr, IpNet};
use ipnet_routes::RouteTable;
use std::alloc::{AllocError, Global};

/// The result of a call on the table of the routes; `None` if the call is unknown or its arguments are invalid. A call
/// with one argument has `-` as the second.
pub fn ask(
    alloc: Global,
    call: &str,
    routes: &str,
    part: &str,
) -> Result<Option<String>, AllocError> {
    let Some(routes) = read_routes(alloc, routes)? else {
        return Ok(None);
    };
    let table = RouteTable::from_routes(alloc, routes)?;
    match call {
        "get" => ask_get(alloc, &table, part),
        "longest_match" => ask_longest_match(alloc, &table, part),
        "covering" => ask_covering(alloc, &table, part),
        "matches" => ask_matches(alloc, &table, part),
        "within" => ask_within(alloc, &table, part),
        "removed" | "put" => ask_changes(alloc, call, &table, part),
        "into_routes" => Ok(Some(show(alloc, table.into_routes())?)),
        "map" => Ok(Some(show(alloc, table.map(alloc, |value| value.len())?.routes())?)),
        _ => ask_table(alloc, call, &table),
    }
}

/// Parses routes, in the order of the text; `None` if the text is not a list of routes.
fn read_routes(alloc: Global, text: &str) -> Result<Option<Vec<(IpNet, String)>>, AllocError> {
    let mut routes = Vec::new(alloc);
    if text == "-" {
        return Ok(Some(routes));
    }
    for part in text.split(',') {
        let Some((network, value)) = part.split_once('=') else {
            return Ok(None);
        };
        let Ok(network) = network.parse::<IpNet>() else {
            return Ok(None);
        };
        routes.push((network, String::from_str(alloc, value)?))?;
    }
    Ok(Some(routes))
}

/// The result of a call without arguments on the table; `None` if the call is unknown.
fn ask_table(
    alloc: Global,
    call: &str,
    table: &RouteTable<String>,
) -> Result<Option<String>, AllocError> {
    let text = match call {
        "routes" => show(alloc, table.routes())?,
        "loop" => loop_over(alloc, table)?,
        "len" => show(alloc, table.len())?,
        "is_empty" => show(alloc, table.is_empty())?,
        _ => return Ok(None),
    };
    Ok(Some(text))
}

/// The value of the network; `None` if the text is not a network.
fn ask_get(
    alloc: Global,
    table: &RouteTable<String>,
    network: &str,
) -> Result<Option<String>, AllocError> {
    let Ok(network) = network.parse::<IpNet>() else {
        return Ok(None);
    };
    Ok(Some(show(alloc, table.get(&network))?))
}

/// The longest match of the address; `None` if the text is not an address.
fn ask_longest_match(
    alloc: Global,
    table: &RouteTable<String>,
    ip: &str,
) -> Result<Option<String>, AllocError> {
    let Ok(ip) = ip.parse::<IpAddr>() else {
        return Ok(None);
    };
    Ok(Some(show(alloc, table.longest_match(&ip))?))
}

/// The route of the longest network that contains the network; none if the text is not a network.
fn ask_covering(
    alloc: Global,
    table: &RouteTable<String>,
    network: &str,
) -> Result<Option<String>, AllocError> {
    let Ok(network) = network.parse::<IpNet>() else {
        return Ok(None);
    };
    Ok(Some(show(alloc, table.covering(&network))?))
}

/// The matches of the address, one after the other; `None` if the text is not an address.
fn ask_matches(
    alloc: Global,
    table: &RouteTable<String>,
    ip: &str,
) -> Result<Option<String>, AllocError> {
    let Ok(ip) = ip.parse::<IpAddr>() else {
        return Ok(None);
    };
    let mut matches = Vec::new(alloc);
    for route in table.matches(&ip) {
        matches.push(route)?;
    }
    Ok(Some(show(alloc, matches)?))
}

/// The routes within the network; `None` if the text is not a network.
fn ask_within(
    alloc: Global,
    table: &RouteTable<String>,
    network: &str,
) -> Result<Option<String>, AllocError> {
    let Ok(network) = network.parse::<IpNet>() else {
        return Ok(None);
    };
    Ok(Some(show(alloc, table.within(&network))?))
}

/// The routes that are removed or put on the way to the table of other routes; `None` if the text is not a list of
/// routes.
fn ask_changes(
    alloc: Global,
    call: &str,
    table: &RouteTable<String>,
    routes: &str,
) -> Result<Option<String>, AllocError> {
    let Some(routes) = read_routes(alloc, routes)? else {
        return Ok(None);
    };
    let new = RouteTable::from_routes(alloc, routes)?;
    let changes = table.changes(alloc, &new)?;
    if call == "put" {
        return Ok(Some(show(alloc, changes.put)?));
    }
    Ok(Some(show(alloc, changes.removed)?))
}

/// The routes of the table, by a loop over it.
fn loop_over(alloc: Global, table: &RouteTable<String>) -> Result<String, AllocError> {
    let mut routes = Vec::new(alloc);
    for route in table {
        routes.push(route)?;
    }
    show(alloc, routes)
}
