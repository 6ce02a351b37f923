//! Loops that write to borrowed values, or iterate over the fields of a value.
use ipnet::{
    IpAddrRange, IpNet, IpSubnets, Ipv4Addr, Ipv4AddrRange, Ipv4Net, Ipv4Subnets, Ipv6Net,
    Ipv6Subnets,
};
use std::alloc::{AllocError, Global};

/// Appends the remaining networks of the walk to the list. Fails only when memory runs out.
pub fn ipv4_push_all(walk: Ipv4Subnets, list: &mut Vec<Ipv4Net>) -> Result<(), AllocError> {
    for subnet in walk {
        list.push(subnet)?;
    }
    Ok(())
}

/// Appends the remaining networks of an IPv6 walk.
pub fn ipv6_push_all(walk: Ipv6Subnets, list: &mut Vec<Ipv6Net>) -> Result<(), AllocError> {
    for subnet in walk {
        list.push(subnet)?;
    }
    Ok(())
}

/// Appends the remaining networks of a walk of either family.
pub fn ip_push_all(walk: IpSubnets, list: &mut Vec<IpNet>) -> Result<(), AllocError> {
    for subnet in walk {
        list.push(subnet)?;
    }
    Ok(())
}

/// The subnets of four addresses (prefix length 30 in IPv4, 126 in IPv6), each with the range of its hosts. A network
/// with a longer prefix has none. Fails only when memory runs out.
pub fn links_with_hosts(
    alloc: Global,
    network: &IpNet,
    hosts: &mut Vec<IpAddrRange>,
) -> Result<Vec<IpNet>, AllocError> {
    let prefix_len = match network {
        IpNet::V4(_) => 30,
        IpNet::V6(_) => 126,
    };
    let mut links = Vec::new(alloc);
    if let Ok(walk) = network.subnets(prefix_len) {
        for subnet in walk {
            hosts.push(subnet.hosts())?;
            links.push(subnet)?;
        }
    }
    Ok(links)
}

/// Takes networks from the walk, up to and including the first with a prefix length above 30. Returns the prefix length
/// of the network before it. The caller can use the rest of the walk, because the loop iterates over `by_ref`.
pub fn last_length_up_to_30(walk: &mut Ipv4Subnets) -> u8 {
    let mut last = 0;
    for subnet in walk.by_ref() {
        if subnet.prefix_len() > 30 {
            break;
        }
        last = subnet.prefix_len();
    }
    last
}

/// The IPv4 addresses from the first to the last.
pub struct Span {
    /// The first address.
    pub first: Ipv4Addr,
    /// The last address.
    pub last: Ipv4Addr,
}

impl Span {
    /// The longest prefix length in the walk over the span with minimum prefix length 24. The loop iterates over fields
    /// of `self`.
    pub fn longest_prefix(&self) -> u8 {
        let mut longest = 0;
        for subnet in Ipv4Subnets::new(self.first, self.last, 24) {
            longest = longest.max(subnet.prefix_len());
        }
        longest
    }
}

/// A pool of addresses for hosts.
pub trait Pool {
    /// The number of addresses for hosts; `u32::MAX` if there are more.
    fn host_count(&self) -> u32;
}

impl Pool for Span {
    fn host_count(&self) -> u32 {
        let mut count: u32 = 0;
        for _ in Ipv4AddrRange::new(self.first, self.last) {
            count = count.saturating_add(1);
        }
        count
    }
}

impl Pool for Ipv4Net {
    fn host_count(&self) -> u32 {
        let mut count: u32 = 0;
        for _ in self.hosts() {
            count = count.saturating_add(1);
        }
        count
    }
}
