//! Questions about one network. Other questions about networks go to the module for them.
use crate::{Answer, Question, bytes, constructors, json, lists, pairs, show, texts, walks};
use ipnet::{IpNet, Ipv4Net, Ipv6Net};
use std::alloc::Global;

/// The result of a call on a network without arguments.
macro_rules! one {
    ($network:ty, $alloc:expr, $question:expr) => {{
        let Ok(net) = $question.first.parse::<$network>() else {
            return Ok(None);
        };
        let text = match $question.call {
            "addr" => show($alloc, net.addr()),
            "prefix_len" => show($alloc, net.prefix_len()),
            "max_prefix_len" => show($alloc, net.max_prefix_len()),
            "netmask" => show($alloc, net.netmask()),
            "hostmask" => show($alloc, net.hostmask()),
            "network" => show($alloc, net.network()),
            "broadcast" => show($alloc, net.broadcast()),
            "trunc" => show($alloc, net.trunc()),
            "supernet" => show($alloc, net.supernet()),
            "hosts" => show($alloc, net.hosts()),
            "to_text" => show($alloc, net.to_text()),
            "to_text_capacity" => show($alloc, net.to_text().capacity()),
            "to_bytes" => show($alloc, net.to_bytes()),
            _ => return Ok(None),
        };
        text.map(Some)
    }};
}

/// Calls without arguments on an IPv4 network.
fn one_ipv4(alloc: Global, question: Question<'_>) -> Answer {
    one!(Ipv4Net, alloc, question)
}

/// Calls without arguments on an IPv6 network.
fn one_ipv6(alloc: Global, question: Question<'_>) -> Answer {
    one!(Ipv6Net, alloc, question)
}

/// Calls without arguments on a network of either family.
fn one_ip(alloc: Global, question: Question<'_>) -> Answer {
    one!(IpNet, alloc, question)
}

/// Passes the question to the modules in turn; the first answer counts.
macro_rules! ask {
    ($one:path, $ask:ident, $alloc:expr, $question:expr) => {
        match $question.call {
            "new" | "new_assert" | "with_netmask" | "from" | "default" => {
                constructors::$ask($alloc, $question)
            }
            "is_sibling" | "contains" | "compare" => pairs::$ask($alloc, $question),
            "subnets" => walks::$ask($alloc, $question),
            "from_str" | "parse_legacy" | "formats" => texts::$ask($alloc, $question),
            "from_bytes" => bytes::$ask($alloc, $question),
            "to_json" | "from_json" => json::$ask($alloc, $question),
            "aggregate" | "is_aggregated" | "same_addresses" => lists::$ask($alloc, $question),
            _ => $one($alloc, $question),
        }
    };
}

/// Calls on an IPv4 network.
pub fn ask_ipv4(alloc: Global, question: Question<'_>) -> Answer {
    ask!(one_ipv4, ask_ipv4, alloc, question)
}

/// Calls on an IPv6 network.
pub fn ask_ipv6(alloc: Global, question: Question<'_>) -> Answer {
    ask!(one_ipv6, ask_ipv6, alloc, question)
}

/// Calls on a network of either family.
pub fn ask_ip(alloc: Global, question: Question<'_>) -> Answer {
    ask!(one_ip, ask_ip, alloc, question)
}
