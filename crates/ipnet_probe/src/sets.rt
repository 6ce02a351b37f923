//! Questions about sets of addresses. A set is a list of networks and ranges, separated by commas; `-` is the empty
//! set.
use crate::show;
use ipnet::{IpAddr, IpAddrRange, IpNet, Ipv4AddrRange, Ipv6AddrRange};
use ipnet_sets::{IpSet, IpSetBuilder, IpSetRanges};
use std::alloc::{AllocError, Global};
use std::hash::{DefaultHasher, Hash, Hasher};

/// The result of a call on a set; `None` if the call is unknown or its arguments are invalid. A call with one argument
/// has `-` as the second.
pub fn ask(
    alloc: Global,
    call: &str,
    first: &str,
    second: &str,
) -> Result<Option<String>, AllocError> {
    if call == "from_range" {
        return ask_range(alloc, first, second);
    }
    if call == "from_network" {
        return ask_network(alloc, first);
    }
    if call == "from_networks" {
        return ask_networks(alloc, first);
    }
    if call == "from_ranges" {
        return ask_ranges(alloc, first);
    }
    if call == "union_all" || call == "intersection_all" {
        return ask_many(alloc, call, first);
    }
    let Some(set) = read_set(alloc, first)? else {
        return Ok(None);
    };
    if let Some(answer) = ask_one(alloc, call, &set)? {
        return Ok(Some(answer));
    }
    if let Some(answer) = ask_part(alloc, call, &set, second)? {
        return Ok(Some(answer));
    }
    let Some(other) = read_set(alloc, second)? else {
        return Ok(None);
    };
    if let Some(answer) = combine(alloc, call, &set, &other)? {
        return Ok(Some(answer));
    }
    compare(alloc, call, &set, &other)
}

/// The set of the networks, addresses and ranges, put together in the order of the text; `None` if the text is not a
/// list of them.
fn read_set(alloc: Global, text: &str) -> Result<Option<IpSet>, AllocError> {
    let mut builder = IpSetBuilder::new(alloc);
    if text == "-" {
        return Ok(Some(builder.into_set(alloc)?));
    }
    for part in text.split(',') {
        if let Ok(network) = part.parse::<IpNet>() {
            builder.push_network(&network)?;
        } else if let Ok(address) = part.parse::<IpAddr>() {
            builder.push_address(address)?;
        } else {
            let Some((start, end)) = read_range(part) else {
                return Ok(None);
            };
            builder.push_range(start, end)?;
        }
    }
    Ok(Some(builder.into_set(alloc)?))
}

/// The ends of the range; `None` if the text is not a range.
fn read_range(text: &str) -> Option<(IpAddr, IpAddr)> {
    let (start, end) = text.split_once('-')?;
    match (start.parse::<IpAddr>(), end.parse::<IpAddr>()) {
        (Ok(start), Ok(end)) => Some((start, end)),
        _ => None,
    }
}

/// The set of the networks; `None` if the text is not a list of networks.
fn ask_networks(alloc: Global, text: &str) -> Result<Option<String>, AllocError> {
    let mut networks = Vec::new(alloc);
    if text != "-" {
        for part in text.split(',') {
            let Ok(network) = part.parse::<IpNet>() else {
                return Ok(None);
            };
            networks.push(network)?;
        }
    }
    let set = IpSet::from_networks(alloc, networks.as_slice())?;
    Ok(Some(show(alloc, set)?))
}

/// The set of the ranges; `None` if the text is not a list of ranges, each of one family.
fn ask_ranges(alloc: Global, text: &str) -> Result<Option<String>, AllocError> {
    let mut ranges = Vec::new(alloc);
    if text != "-" {
        for part in text.split(',') {
            match read_range(part) {
                Some((IpAddr::V4(start), IpAddr::V4(end))) => {
                    ranges.push(IpAddrRange::V4(Ipv4AddrRange::new(start, end)))?;
                }
                Some((IpAddr::V6(start), IpAddr::V6(end))) => {
                    ranges.push(IpAddrRange::V6(Ipv6AddrRange::new(start, end)))?;
                }
                _ => return Ok(None),
            }
        }
    }
    Ok(Some(show(alloc, IpSet::from_ranges(alloc, ranges.as_slice())?)?))
}

/// The result of the call on the sets between `;`, or on no set for `none`; `None` if a text is not a set.
fn ask_many(alloc: Global, call: &str, text: &str) -> Result<Option<String>, AllocError> {
    let mut sets = Vec::new(alloc);
    if text != "none" {
        for part in text.split(';') {
            let Some(set) = read_set(alloc, part)? else {
                return Ok(None);
            };
            sets.push(set)?;
        }
    }
    let made = match call {
        "union_all" => IpSet::union_all(alloc, sets.as_slice())?,
        _ => IpSet::intersection_all(alloc, sets.as_slice())?,
    };
    Ok(Some(show(alloc, made)?))
}

/// The set of the range; `None` if one of the texts is not an address.
fn ask_range(alloc: Global, start: &str, end: &str) -> Result<Option<String>, AllocError> {
    let (Ok(start), Ok(end)) = (start.parse::<IpAddr>(), end.parse::<IpAddr>()) else {
        return Ok(None);
    };
    Ok(Some(show(alloc, IpSet::from_range(alloc, start, end)?)?))
}

/// The set of the network; `None` if the text is not a network.
fn ask_network(alloc: Global, network: &str) -> Result<Option<String>, AllocError> {
    let Ok(network) = network.parse::<IpNet>() else {
        return Ok(None);
    };
    Ok(Some(show(alloc, IpSet::from_network(alloc, &network)?)?))
}

/// The result of a call without arguments on the set; `None` if the call is unknown.
fn ask_one(alloc: Global, call: &str, set: &IpSet) -> Result<Option<String>, AllocError> {
    let text = match call {
        "set" => format!(in alloc; "{set:?}")?,
        "clone" => show(alloc, set.clone()?)?,
        "complement" => show(alloc, set.complement(alloc)?)?,
        "networks" => show(alloc, set.networks(alloc)?)?,
        _ => return ask_ends(alloc, call, set),
    };
    Ok(Some(text))
}

/// The result of a call about the ends of the set, or about its families.
fn ask_ends(alloc: Global, call: &str, set: &IpSet) -> Result<Option<String>, AllocError> {
    let text = match call {
        "is_empty" => show(alloc, set.is_empty())?,
        "first" => show(alloc, set.first())?,
        "last" => show(alloc, set.last())?,
        "has_ipv4" => show(alloc, set.has_ipv4())?,
        "has_ipv6" => show(alloc, set.has_ipv6())?,
        _ => return ask_family(alloc, call, set),
    };
    Ok(Some(text))
}

/// The result of a call about the addresses of one family, or the hash of the set.
fn ask_family(alloc: Global, call: &str, set: &IpSet) -> Result<Option<String>, AllocError> {
    let text = match call {
        "ipv4_count" => show(alloc, set.ipv4_count())?,
        "ipv6_count" => show(alloc, set.ipv6_count())?,
        "ipv4_supernet" => show(alloc, set.ipv4_supernet())?,
        "ipv6_supernet" => show(alloc, set.ipv6_supernet())?,
        "hash" => show(alloc, hash_of(set))?,
        _ => return ask_ranges_of(alloc, call, set),
    };
    Ok(Some(text))
}

/// The result of a call about the ranges of the set.
fn ask_ranges_of(alloc: Global, call: &str, set: &IpSet) -> Result<Option<String>, AllocError> {
    let text = match call {
        "ranges" => show(alloc, list(alloc, set.ranges())?)?,
        "ranges_of_loop" => show(alloc, list_of_loop(alloc, set)?)?,
        "ranges_back" => show(alloc, list_back(alloc, set.ranges())?)?,
        "ranges_len" => show(alloc, set.ranges().len())?,
        "ranges_size_hint" => show(alloc, set.ranges().size_hint())?,
        _ => return Ok(None),
    };
    Ok(Some(text))
}

/// The hash of the value.
fn hash_of<T: Hash>(value: &T) -> u64 {
    let mut state = DefaultHasher::new();
    value.hash(&mut state);
    state.finish()
}

/// The remaining ranges.
fn list(alloc: Global, ranges: IpSetRanges<'_>) -> Result<Vec<IpAddrRange>, AllocError> {
    let mut list = Vec::new(alloc);
    for range in ranges {
        list.push(range)?;
    }
    Ok(list)
}

/// The ranges that a loop over the set goes through.
fn list_of_loop(alloc: Global, set: &IpSet) -> Result<Vec<IpAddrRange>, AllocError> {
    let mut list = Vec::new(alloc);
    for range in set {
        list.push(range)?;
    }
    Ok(list)
}

/// The ranges that are left, from the last to the first.
fn list_back(alloc: Global, ranges: IpSetRanges<'_>) -> Result<Vec<IpAddrRange>, AllocError> {
    let mut list = Vec::new(alloc);
    for range in ranges.rev() {
        list.push(range)?;
    }
    Ok(list)
}

/// The result of a call on the set with an address, a network, a range or a number; `None` if the call is unknown.
fn ask_part(
    alloc: Global,
    call: &str,
    set: &IpSet,
    part: &str,
) -> Result<Option<String>, AllocError> {
    match call {
        "contains" => match part.parse::<IpAddr>() {
            Ok(ip) => Ok(Some(show(alloc, set.contains(&ip))?)),
            Err(_) => Ok(None),
        },
        "covers" => match part.parse::<IpNet>() {
            Ok(network) => Ok(Some(show(alloc, set.covers(&network))?)),
            Err(_) => Ok(None),
        },
        "covers_range" => match read_range(part) {
            Some((start, end)) => Ok(Some(show(alloc, set.covers_range(start, end))?)),
            None => Ok(None),
        },
        "ranges_after" => match part.parse::<usize>() {
            Ok(steps) => ask_ranges_after(alloc, set, steps),
            Err(_) => Ok(None),
        },
        _ => Ok(None),
    }
}

/// The remaining ranges after `steps` calls of `next`: from the iterator, from its copy and from its clone.
fn ask_ranges_after(
    alloc: Global,
    set: &IpSet,
    steps: usize,
) -> Result<Option<String>, AllocError> {
    let mut ranges = set.ranges();
    for _ in 0..steps {
        ranges.next();
    }
    let copy = ranges;
    let clone = ranges.clone()?;
    let left = list(alloc, ranges)?;
    Ok(Some(show(alloc, (left, list(alloc, copy)?, list(alloc, clone)?))?))
}

/// The set that the call makes from the two sets; `None` if the call is unknown.
fn combine(
    alloc: Global,
    call: &str,
    set: &IpSet,
    other: &IpSet,
) -> Result<Option<String>, AllocError> {
    let made = match call {
        "union" => set.union(alloc, other)?,
        "intersection" => set.intersection(alloc, other)?,
        "difference" => set.difference(alloc, other)?,
        "symmetric_difference" => set.symmetric_difference(alloc, other)?,
        _ => return Ok(None),
    };
    Ok(Some(show(alloc, made)?))
}

/// The result of a call that compares the two sets; `None` if the call is unknown.
fn compare(
    alloc: Global,
    call: &str,
    set: &IpSet,
    other: &IpSet,
) -> Result<Option<String>, AllocError> {
    let text = match call {
        "is_subset" => show(alloc, set.is_subset(other))?,
        "is_disjoint" => show(alloc, set.is_disjoint(other))?,
        "eq" => show(alloc, set == other)?,
        "lt" => show(alloc, set < other)?,
        "cmp" => show(alloc, set.cmp(other))?,
        "partial_cmp" => show(alloc, set.partial_cmp(other))?,
        _ => return Ok(None),
    };
    Ok(Some(text))
}
