//! Questions about addresses: sums, differences and bits, masks, and texts.
use crate::{Answer, Question, show};
use ipnet::{
    IpAdd, IpAddr, IpBitAnd, IpBitOr, IpSub, Ipv4Addr, Ipv6Addr, ip_mask_to_prefix, ipv4_addr_text,
    ipv4_mask_to_prefix, ipv6_addr_text, ipv6_mask_to_prefix,
};
use std::alloc::Global;

/// The result of a call on an address, and another address or a number.
macro_rules! arithmetic {
    ($address:ty, $number:ty, $left:expr, $alloc:expr, $question:expr) => {{
        if let Ok(right) = $question.second.parse::<$address>() {
            return match $question.call {
                "saturating_sub" => show($alloc, $left.saturating_sub(right)).map(Some),
                "bitand" => show($alloc, $left.bitand(right)).map(Some),
                "bitor" => show($alloc, $left.bitor(right)).map(Some),
                _ => Ok(None),
            };
        }
        let Ok(right) = $question.second.parse::<$number>() else {
            return Ok(None);
        };
        match $question.call {
            "saturating_add" => show($alloc, $left.saturating_add(right)).map(Some),
            "saturating_sub" => show($alloc, $left.saturating_sub(right)).map(Some),
            "bitand" => show($alloc, $left.bitand(right)).map(Some),
            "bitor" => show($alloc, $left.bitor(right)).map(Some),
            _ => Ok(None),
        }
    }};
}

/// Calls on an IPv4 address, and another address or a number.
fn two_ipv4(alloc: Global, question: Question<'_>, left: Ipv4Addr) -> Answer {
    arithmetic!(Ipv4Addr, u32, left, alloc, question)
}

/// Calls on an IPv6 address, and another address or a number.
fn two_ipv6(alloc: Global, question: Question<'_>, left: Ipv6Addr) -> Answer {
    arithmetic!(Ipv6Addr, u128, left, alloc, question)
}

/// Calls on an IPv4 address.
pub fn ask_ipv4(alloc: Global, question: Question<'_>) -> Answer {
    let Ok(ip) = question.first.parse::<Ipv4Addr>() else {
        return Ok(None);
    };
    match question.call {
        "mask_to_prefix" => show(alloc, ipv4_mask_to_prefix(ip)).map(Some),
        "text" => ipv4_addr_text(ip).to_string(alloc).map(Some),
        _ => two_ipv4(alloc, question, ip),
    }
}

/// Calls on an IPv6 address.
pub fn ask_ipv6(alloc: Global, question: Question<'_>) -> Answer {
    let Ok(ip) = question.first.parse::<Ipv6Addr>() else {
        return Ok(None);
    };
    match question.call {
        "mask_to_prefix" => show(alloc, ipv6_mask_to_prefix(ip)).map(Some),
        "text" => ipv6_addr_text(ip).to_string(alloc).map(Some),
        _ => two_ipv6(alloc, question, ip),
    }
}

/// Calls on an address of either family.
pub fn ask_ip(alloc: Global, question: Question<'_>) -> Answer {
    match question.first.parse::<IpAddr>() {
        Ok(ip) => show(alloc, ip_mask_to_prefix(ip)).map(Some),
        Err(_) => Ok(None),
    }
}
