//! Questions about networks that are read from bytes.
use crate::{Answer, Question, lists, show};
use ipnet::{IpNet, Ipv4Net, Ipv6Net};
use std::alloc::Global;

/// Reads the byte form of an IPv4 network.
pub fn ask_ipv4(alloc: Global, question: Question<'_>) -> Answer {
    match lists::items::<u8>(alloc, question.first)? {
        Some(bytes) => show(alloc, Ipv4Net::from_bytes(bytes.as_slice())).map(Some),
        None => Ok(None),
    }
}

/// Reads the byte form of an IPv6 network.
pub fn ask_ipv6(alloc: Global, question: Question<'_>) -> Answer {
    match lists::items::<u8>(alloc, question.first)? {
        Some(bytes) => show(alloc, Ipv6Net::from_bytes(bytes.as_slice())).map(Some),
        None => Ok(None),
    }
}

/// Reads the byte form of a network of either family.
pub fn ask_ip(alloc: Global, question: Question<'_>) -> Answer {
    match lists::items::<u8>(alloc, question.first)? {
        Some(bytes) => show(alloc, IpNet::from_bytes(bytes.as_slice())).map(Some),
        None => Ok(None),
    }
}
