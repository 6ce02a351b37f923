//! Loops over all items: counts, sums and maxima.
ghost use Rattle.std.specs.Prelude.{◌≡◌, ◌<◌, ◌⊎◌, ◌↔◌, IsErr};
ghost use Rattle.ipnet.specs.Address.{width};
ghost use Rattle.ipnet.specs.NetworkOf.{ipv4_network, ipv6_network, ip_network};

use ipnet::{
    IpAddr, IpNet, IpSubnets, Ipv4Addr, Ipv4AddrRange, Ipv4Net, Ipv4Subnets, Ipv6Addr,
    Ipv6AddrRange, Ipv6Net, Ipv6Subnets, PrefixLenError,
};

/// The number of subnets of this length, counted one by one; `u32::MAX` if there are more.
///
/// Fails if the length is below the network's prefix length, or above 32.
///
/// ```text
/// 10.1.0.0/16 has 256 subnets of length 24
/// ```
pub fn ipv4_subnet_count(network: Ipv4Net, prefix_len: u8) -> Result<u32, PrefixLenError>
    ensures refused { IsErr result ↔ ((prefix_len < (ipv4_network network).prefix_len) ⊎ (32 < prefix_len)) }
{
    let mut count: u32 = 0;
    for _ in network.subnets(prefix_len)? {
        count = count.saturating_add(1);
    }
    Ok(count)
}

/// The number of subnets of an IPv6 network. Fails if the length is below the network's prefix length, or above 128.
///
/// ```text
/// fd00:1::/48 has 65536 subnets of length 64
/// ```
pub fn ipv6_subnet_count(network: Ipv6Net, prefix_len: u8) -> Result<u32, PrefixLenError>
    ensures refused { IsErr result ↔ ((prefix_len < (ipv6_network network).prefix_len) ⊎ (128 < prefix_len)) }
{
    let mut count: u32 = 0;
    for _ in network.subnets(prefix_len)? {
        count = count.saturating_add(1);
    }
    Ok(count)
}

/// The number of subnets of a network of either family. Fails if the length is below the network's prefix length, or
/// above the width of its addresses.
pub fn ip_subnet_count(network: IpNet, prefix_len: u8) -> Result<u32, PrefixLenError>
    ensures refused { let n = ip_network network in
        IsErr result ↔ ((prefix_len < n.prefix_len) ⊎ (width n.family < prefix_len)) }
{
    let mut count: u32 = 0;
    for _ in network.subnets(prefix_len)? {
        count = count.saturating_add(1);
    }
    Ok(count)
}

/// The longest prefix length in the walk from the first address to the last; 0 if the range is empty.
///
/// ```text
/// 10.0.0.0 to 10.0.0.239: 10.0.0.0/25, 10.0.0.128/26, 10.0.0.192/27, 10.0.0.224/28, so 28
/// ```
pub fn ipv4_longest_prefix(first: Ipv4Addr, last: Ipv4Addr) -> u8 {
    let mut longest = 0;
    for subnet in Ipv4Subnets::new(first, last, 0) {
        longest = longest.max(subnet.prefix_len());
    }
    longest
}

/// The longest prefix length in a walk over IPv6 addresses; 0 if the range is empty.
pub fn ipv6_longest_prefix(first: Ipv6Addr, last: Ipv6Addr) -> u8 {
    let mut longest = 0;
    for subnet in Ipv6Subnets::new(first, last, 0) {
        longest = longest.max(subnet.prefix_len());
    }
    longest
}

/// The longest prefix length of the remaining networks of a walk of either family.
pub fn ip_longest_prefix(walk: IpSubnets) -> u8 {
    let mut longest = 0;
    for subnet in walk {
        if subnet.prefix_len() > longest {
            longest = subnet.prefix_len();
        }
    }
    longest
}

/// The number of hosts of the network, counted one by one; `u32::MAX` if there are more.
///
/// ```text
/// 10.0.0.0/24 has 254
/// ```
pub fn ipv4_host_count(network: Ipv4Net) -> u32 {
    let mut count: u32 = 0;
    for _ in network.hosts() {
        count = count.saturating_add(1);
    }
    count
}

/// The sum of the numbers of all hosts, modulo 2^128.
pub fn ipv6_host_sum(network: Ipv6Net) -> u128 {
    let mut sum: u128 = 0;
    for host in network.hosts() {
        sum = sum.wrapping_add(host.to_bits());
    }
    sum
}

/// The number of hosts that are IPv4 addresses: all of them, or none.
pub fn ip_ipv4_host_count(network: IpNet) -> u32 {
    let mut count: u32 = 0;
    for host in network.hosts() {
        if let IpAddr::V4(_) = host {
            count = count.saturating_add(1);
        }
    }
    count
}

/// The total number of hosts in all subnets of this length: a loop over subnets, with a loop over hosts inside.
///
/// ```text
/// 10.0.0.0/24 at 26: four times 62, so 248
/// ```
pub fn ipv4_host_count_by_subnets(network: Ipv4Net, prefix_len: u8) -> Result<u32, PrefixLenError>
    ensures refused { IsErr result ↔ ((prefix_len < (ipv4_network network).prefix_len) ⊎ (32 < prefix_len)) }
{
    let mut count: u32 = 0;
    for subnet in network.subnets(prefix_len)? {
        for _ in subnet.hosts() {
            count = count.saturating_add(1);
        }
    }
    Ok(count)
}

/// The number of pairs of a network of each walk with equal prefix lengths. The inner loop starts from the beginning
/// each time, because a walk is `Copy`.
pub fn pairs_of_one_length(walk: IpSubnets, other: Ipv6Subnets) -> u32 {
    let mut count: u32 = 0;
    for subnet in walk {
        for other_subnet in other {
            if subnet.prefix_len() == other_subnet.prefix_len() {
                count = count.saturating_add(1);
            }
        }
    }
    count
}

/// The number of the last address that a loop over the range reaches; 0 if the range is empty.
pub fn ipv4_last_number(range: Ipv4AddrRange) -> u32 {
    let mut last = 0;
    for address in range {
        last = address.to_bits();
    }
    last
}

/// The number of the first address, which a loop from the back reaches last; 0 if the range is empty.
pub fn ipv4_first_number(range: Ipv4AddrRange) -> u32 {
    let mut first = 0;
    for address in range.rev() {
        first = address.to_bits();
    }
    first
}

/// The number of the last of the first `limit` addresses of the range; 0 if there is none.
pub fn ipv6_last_number_within(range: Ipv6AddrRange, limit: u32) -> u128 {
    let mut last = 0;
    let mut left = limit;
    for address in range {
        if left == 0 {
            break;
        }
        left -= 1;
        last = address.to_bits();
    }
    last
}
