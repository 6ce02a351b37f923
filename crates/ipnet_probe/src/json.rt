//! Questions about JSON values.
use crate::texts::decoded;
use crate::{Answer, Question, show};
use ipnet::{IpNet, Ipv4Net, Ipv6Net};
use serde_json::Value;
use std::alloc::Global;

/// The JSON value of a network, or the network of a JSON value.
macro_rules! ask {
    ($network:ty, $alloc:expr, $question:expr) => {{
        if let Ok(net) = $question.first.parse::<$network>() {
            return net.to_json($alloc)?.to_string($alloc).map(Some);
        }
        let Some(text) = decoded($alloc, $question.first) else {
            return Ok(None);
        };
        match Value::from_str($alloc, text.as_str()) {
            Ok(value) => show($alloc, <$network>::from_json(&value)).map(Some),
            Err(_) => Ok(None),
        }
    }};
}

/// Asks for the JSON of IPv4 networks.
pub fn ask_ipv4(alloc: Global, question: Question<'_>) -> Answer {
    ask!(Ipv4Net, alloc, question)
}

/// Asks for the JSON of IPv6 networks.
pub fn ask_ipv6(alloc: Global, question: Question<'_>) -> Answer {
    ask!(Ipv6Net, alloc, question)
}

/// Asks for the JSON of networks of either family.
pub fn ask_ip(alloc: Global, question: Question<'_>) -> Answer {
    ask!(IpNet, alloc, question)
}
