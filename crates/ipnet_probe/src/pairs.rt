//! Questions about a network and another network or an address, and comparisons of two values of one type.
use crate::{Answer, Question, show};
use ipnet::{IpAddr, IpNet, Ipv4Addr, Ipv4Net, Ipv6Addr, Ipv6Net};
use std::alloc::Global;
use std::hash::{DefaultHasher, Hash, Hasher};

/// The hash of the value.
fn hash_of<T: Hash>(value: &T) -> u64 {
    let mut hasher = DefaultHasher::new();
    value.hash(&mut hasher);
    hasher.finish()
}

/// Whether the two values are equal, which comes first, and whether their hashes are equal.
pub fn compare<T: Ord + Hash + Drop>(alloc: Global, left: Option<T>, right: Option<T>) -> Answer {
    let (Some(left), Some(right)) = (left, right) else {
        return Ok(None);
    };
    let is_same_hash = hash_of(&left) == hash_of(&right);
    show(alloc, (left == right, left.cmp(&right), is_same_hash)).map(Some)
}

/// The result of a call on a network, and another network or an address.
macro_rules! ask {
    ($network:ty, $address:ty, $alloc:expr, $question:expr) => {{
        let Ok(net) = $question.first.parse::<$network>() else {
            return Ok(None);
        };
        if let Ok(ip) = $question.second.parse::<$address>() {
            return show($alloc, net.contains(&ip)).map(Some);
        }
        let Ok(other) = $question.second.parse::<$network>() else {
            return Ok(None);
        };
        match $question.call {
            "is_sibling" => show($alloc, net.is_sibling(&other)).map(Some),
            "contains" => show($alloc, net.contains(&other)).map(Some),
            "compare" => compare($alloc, Some(net), Some(other)),
            _ => Ok(None),
        }
    }};
}

/// Calls on an IPv4 network, and another network or an address.
pub fn ask_ipv4(alloc: Global, question: Question<'_>) -> Answer {
    ask!(Ipv4Net, Ipv4Addr, alloc, question)
}

/// Calls on an IPv6 network, and another network or an address.
pub fn ask_ipv6(alloc: Global, question: Question<'_>) -> Answer {
    ask!(Ipv6Net, Ipv6Addr, alloc, question)
}

/// Calls on a network of either family, and another network or an address.
pub fn ask_ip(alloc: Global, question: Question<'_>) -> Answer {
    ask!(IpNet, IpAddr, alloc, question)
}
