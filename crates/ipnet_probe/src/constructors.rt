//! Questions about constructors of networks: from an address and a prefix length or a netmask, from an address, from a
//! network of one family, and the default.
use crate::{Answer, Question, show};
use ipnet::{IpAddr, IpNet, Ipv4Addr, Ipv4Net, Ipv6Addr, Ipv6Net};
use std::alloc::Global;

/// Calls the constructors of `Ipv4Net`.
pub fn ask_ipv4(alloc: Global, question: Question<'_>) -> Answer {
    if question.call == "default" {
        return show(alloc, Ipv4Net::default()).map(Some);
    }
    let Ok(ip) = question.first.parse::<Ipv4Addr>() else {
        return Ok(None);
    };
    if question.call == "from" {
        return show(alloc, Ipv4Net::from(ip)).map(Some);
    }
    if let Ok(mask) = question.second.parse::<Ipv4Addr>() {
        return show(alloc, Ipv4Net::with_netmask(ip, mask)).map(Some);
    }
    let Ok(len) = question.second.parse::<u8>() else {
        return Ok(None);
    };
    if question.call == "new" {
        return show(alloc, Ipv4Net::new(ip, len)).map(Some);
    }
    if len > 32 {
        return Ok(None);
    }
    show(alloc, Ipv4Net::new_assert(ip, len)).map(Some)
}

/// Calls the constructors of `Ipv6Net`.
pub fn ask_ipv6(alloc: Global, question: Question<'_>) -> Answer {
    if question.call == "default" {
        return show(alloc, Ipv6Net::default()).map(Some);
    }
    let Ok(ip) = question.first.parse::<Ipv6Addr>() else {
        return Ok(None);
    };
    if question.call == "from" {
        return show(alloc, Ipv6Net::from(ip)).map(Some);
    }
    if let Ok(mask) = question.second.parse::<Ipv6Addr>() {
        return show(alloc, Ipv6Net::with_netmask(ip, mask)).map(Some);
    }
    let Ok(len) = question.second.parse::<u8>() else {
        return Ok(None);
    };
    if question.call == "new" {
        return show(alloc, Ipv6Net::new(ip, len)).map(Some);
    }
    if len > 128 {
        return Ok(None);
    }
    show(alloc, Ipv6Net::new_assert(ip, len)).map(Some)
}

/// The network with the address and the prefix length, by `IpNet::new_assert`; `None` if the length is too large.
fn asserted(ip: IpAddr, len: u8) -> Option<IpNet> {
    match ip {
        IpAddr::V4(ip) if len <= 32 => Some(IpNet::new_assert(IpAddr::V4(ip), len)),
        IpAddr::V6(ip) if len <= 128 => Some(IpNet::new_assert(IpAddr::V6(ip), len)),
        _ => None,
    }
}

/// The network of one family in the text, converted to the type of either family.
fn from_network(text: &str) -> Option<IpNet> {
    if let Ok(net) = text.parse::<Ipv4Net>() {
        return Some(IpNet::from(net));
    }
    let net = text.parse::<Ipv6Net>().ok()?;
    Some(IpNet::from(net))
}

/// Calls the constructors of `IpNet`.
pub fn ask_ip(alloc: Global, question: Question<'_>) -> Answer {
    if question.call == "default" {
        return show(alloc, IpNet::default()).map(Some);
    }
    let Ok(ip) = question.first.parse::<IpAddr>() else {
        return show(alloc, from_network(question.first)).map(Some);
    };
    if question.call == "from" {
        return show(alloc, IpNet::from(ip)).map(Some);
    }
    if let Ok(mask) = question.second.parse::<IpAddr>() {
        return show(alloc, IpNet::with_netmask(ip, mask)).map(Some);
    }
    let Ok(len) = question.second.parse::<u8>() else {
        return Ok(None);
    };
    if question.call == "new" {
        return show(alloc, IpNet::new(ip, len)).map(Some);
    }
    show(alloc, asserted(ip, len)).map(Some)
}
