//! Questions about walks: all items, and the stored ends after them.
use crate::pairs::compare;
use crate::{Answer, Question, show};
use ipnet::{IpNet, IpSubnets, Ipv4Addr, Ipv4Net, Ipv4Subnets, Ipv6Addr, Ipv6Net, Ipv6Subnets};
use std::alloc::Global;

/// The maximum number of items of a walk that are printed.
const MOST_ITEMS: usize = 100_000;

/// Parses a walk, such as `10.0.0.0-10.0.0.239-26`: the start, the end and the minimum prefix length.
fn ipv4_walk(text: &str) -> Option<Ipv4Subnets> {
    let (range, min_prefix_len) = text.rsplit_once('-')?;
    let (start, end) = range.split_once('-')?;
    let start = start.parse::<Ipv4Addr>().ok()?;
    let end = end.parse::<Ipv4Addr>().ok()?;
    let min_prefix_len = min_prefix_len.parse::<u8>().ok()?;
    if min_prefix_len > 32 {
        return None;
    }
    Some(Ipv4Subnets::new(start, end, min_prefix_len))
}

/// Parses a walk, such as `fd00::-fd00::ff-120`: the start, the end and the minimum prefix length.
fn ipv6_walk(text: &str) -> Option<Ipv6Subnets> {
    let (range, min_prefix_len) = text.rsplit_once('-')?;
    let (start, end) = range.split_once('-')?;
    let start = start.parse::<Ipv6Addr>().ok()?;
    let end = end.parse::<Ipv6Addr>().ok()?;
    let min_prefix_len = min_prefix_len.parse::<u8>().ok()?;
    if min_prefix_len > 128 {
        return None;
    }
    Some(Ipv6Subnets::new(start, end, min_prefix_len))
}

/// Parses a walk of either family.
fn ip_walk(text: &str) -> Option<IpSubnets> {
    if let Some(walk) = ipv4_walk(text) {
        return Some(IpSubnets::from(walk));
    }
    Some(IpSubnets::from(ipv6_walk(text)?))
}

/// All items of a walk, and its stored ends after the last item.
macro_rules! items {
    ($alloc:expr, $walk:expr) => {{
        let mut walk = $walk;
        let mut items = Vec::new($alloc);
        for _ in 0..MOST_ITEMS {
            match walk.next() {
                Some(network) => items.push(network)?,
                None => break,
            }
        }
        format!(in $alloc; "{items:?} {walk:?}").map(Some)
    }};
}

fn ipv4_items(alloc: Global, walk: Ipv4Subnets) -> Answer {
    items!(alloc, walk)
}

fn ipv6_items(alloc: Global, walk: Ipv6Subnets) -> Answer {
    items!(alloc, walk)
}

fn ip_items(alloc: Global, walk: IpSubnets) -> Answer {
    items!(alloc, walk)
}

/// The answer of a question about a walk, or about the subnets of a network.
macro_rules! ask {
    ($network:ty, $walk:path, $items:path, $alloc:expr, $question:expr) => {{
        if let Some(walk) = $walk($question.first) {
            return match $question.call {
                "items" => $items($alloc, walk),
                _ => compare($alloc, Some(walk), $walk($question.second)),
            };
        }
        let Ok(net) = $question.first.parse::<$network>() else {
            return Ok(None);
        };
        let Ok(new_prefix_len) = $question.second.parse::<u8>() else {
            return Ok(None);
        };
        match net.subnets(new_prefix_len) {
            Ok(walk) => $items($alloc, walk),
            Err(error) => show($alloc, error).map(Some),
        }
    }};
}

/// Answers questions about an IPv4 walk, or about the subnets of an IPv4 network.
pub fn ask_ipv4(alloc: Global, question: Question<'_>) -> Answer {
    ask!(Ipv4Net, ipv4_walk, ipv4_items, alloc, question)
}

/// Answers questions about an IPv6 walk, or about the subnets of an IPv6 network.
pub fn ask_ipv6(alloc: Global, question: Question<'_>) -> Answer {
    ask!(Ipv6Net, ipv6_walk, ipv6_items, alloc, question)
}

/// Answers questions about a walk of either family, or about the subnets of a network.
pub fn ask_ip(alloc: Global, question: Question<'_>) -> Answer {
    ask!(IpNet, ip_walk, ip_items, alloc, question)
}
