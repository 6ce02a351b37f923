//! Questions about lists of networks.
use crate::{Answer, Question, show};
use ipnet::{IpNet, Ipv4Net, Ipv6Net, is_aggregated, same_addresses};
use std::alloc::{AllocError, Global};
use std::str::FromStr;

/// Parses the items of a list; `None` if an item is not of its type. The empty text is the empty list.
pub fn items<T: FromStr + Drop>(alloc: Global, text: &str) -> Result<Option<Vec<T>>, AllocError>
where
    T::Err: Drop,
{
    let mut items = Vec::new(alloc);
    if text.is_empty() {
        return Ok(Some(items));
    }
    for item in text.split(',') {
        match item.parse::<T>() {
            Ok(item) => items.push(item)?,
            Err(_) => return Ok(None),
        }
    }
    Ok(Some(items))
}

/// Asks for the aggregate of IPv4 networks.
pub fn ask_ipv4(alloc: Global, question: Question<'_>) -> Answer {
    match items::<Ipv4Net>(alloc, question.first)? {
        Some(networks) => show(alloc, Ipv4Net::aggregate(alloc, &networks)?).map(Some),
        None => Ok(None),
    }
}

/// Asks for the aggregate of IPv6 networks.
pub fn ask_ipv6(alloc: Global, question: Question<'_>) -> Answer {
    match items::<Ipv6Net>(alloc, question.first)? {
        Some(networks) => show(alloc, Ipv6Net::aggregate(alloc, &networks)?).map(Some),
        None => Ok(None),
    }
}

/// Asks about lists of networks of either family.
pub fn ask_ip(alloc: Global, question: Question<'_>) -> Answer {
    let Some(networks) = items::<IpNet>(alloc, question.first)? else {
        return Ok(None);
    };
    let Some(others) = items::<IpNet>(alloc, question.second)? else {
        return Ok(None);
    };
    match question.call {
        "aggregate" => show(alloc, IpNet::aggregate(alloc, &networks)?).map(Some),
        "is_aggregated" => show(alloc, is_aggregated(networks.as_slice())).map(Some),
        _ => show(alloc, same_addresses(alloc, &networks, &others)?).map(Some),
    }
}
