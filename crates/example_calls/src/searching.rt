//! Loops that search and stop early: `break`, `continue`, and `return` inside the loop.
//!
//! If a loop ends by `return`, it is proved without a proof file that the returned item comes from the walk and passed
//! the test. Values that a loop keeps in a variable are known after the loop only by an invariant, so the function with
//! `break` has no contract.
ghost use Rattle.std.specs.Prelude.{◌<◌, Contains, IfSome};
ghost use Rattle.ipnet.specs.Address.{ipv4_address, ipv6_address};
ghost use Rattle.ipnet.specs.NetworkOf.{ipv4_network, ipv6_network, ip_network};
ghost use Rattle.ipnet.specs.RangeOf.{ipv4_addresses, ipv6_addresses};
ghost use Rattle.ipnet.specs.SubnetsLeft.{ipv4_subnets_left, ipv6_subnets_left, ip_subnets_left};

use ipnet::{
    IpNet, IpSubnets, Ipv4Addr, Ipv4AddrRange, Ipv4Net, Ipv4Subnets, Ipv6Addr, Ipv6AddrRange,
    Ipv6Net, Ipv6Subnets,
};

/// The first network of the walk with a prefix length above this one. The loop ends by `break`.
pub fn ipv4_first_longer(walk: Ipv4Subnets, prefix_len: u8) -> Option<Ipv4Net> {
    let mut found = None;
    for subnet in walk {
        if subnet.prefix_len() > prefix_len {
            found = Some(subnet);
            break;
        }
    }
    found
}

/// The first network of an IPv6 walk with a prefix length above this one. The loop skips the others by `continue`.
pub fn ipv6_first_longer(walk: Ipv6Subnets, prefix_len: u8) -> Option<Ipv6Net>
    ensures member { IfSome result (λ n. Contains (ipv6_subnets_left walk) (ipv6_network n)) }
    ensures longer { IfSome result (λ n. prefix_len < (ipv6_network n).prefix_len) }
{
    for subnet in walk {
        if subnet.prefix_len() <= prefix_len {
            continue;
        }
        return Some(subnet);
    }
    None
}

/// The first network of a walk of either family with a prefix length above this one, by `return`.
pub fn ip_first_longer(walk: IpSubnets, prefix_len: u8) -> Option<IpNet>
    ensures member { IfSome result (λ n. Contains (ip_subnets_left walk) (ip_network n)) }
    ensures longer { IfSome result (λ n. prefix_len < (ip_network n).prefix_len) }
{
    for subnet in walk {
        if subnet.prefix_len() > prefix_len {
            return Some(subnet);
        }
    }
    None
}

/// Whether the walk has a network with a prefix length above this one, by `any`.
pub fn ip_has_longer(walk: IpSubnets, prefix_len: u8) -> bool {
    let mut walk = walk;
    walk.any(|subnet| subnet.prefix_len() > prefix_len)
}

/// The first network of the walk that is not in use, if any.
pub fn ipv4_free_subnet(walk: Ipv4Subnets, used: &[Ipv4Net]) -> Option<Ipv4Net>
    ensures member { IfSome result (λ n. Contains (ipv4_subnets_left walk) (ipv4_network n)) }
    ensures free { IfSome result (λ n. ¬ (Contains used.now n)) }
{
    for subnet in walk {
        if !used.contains(&subnet) {
            return Some(subnet);
        }
    }
    None
}

/// The lowest address of the range that is not leased, if any.
pub fn ipv6_free_address(range: Ipv6AddrRange, leases: &[Ipv6Addr]) -> Option<Ipv6Addr>
    ensures member { IfSome result (λ a. Contains (ipv6_addresses range) (ipv6_address a)) }
    ensures free { IfSome result (λ a. ¬ (Contains leases.now a)) }
{
    for address in range {
        if !leases.contains(&address) {
            return Some(address);
        }
    }
    None
}

/// The highest address of the range that is not leased, if any: a loop from the back.
pub fn ipv4_free_address_from_the_back(
    range: Ipv4AddrRange,
    leases: &[Ipv4Addr],
) -> Option<Ipv4Addr>
    ensures member { IfSome result (λ a. Contains (ipv4_addresses range) (ipv4_address a)) }
    ensures free { IfSome result (λ a. ¬ (Contains leases.now a)) }
{
    for address in range.rev() {
        if !leases.contains(&address) {
            return Some(address);
        }
    }
    None
}

/// The lowest host of the network that is not leased, if any. An inner loop searches the leases.
pub fn ipv6_free_host(network: Ipv6Net, leases: &[Ipv6Addr]) -> Option<Ipv6Addr> {
    for host in network.hosts() {
        let mut leased = false;
        for lease in leases {
            leased = leased || *lease == host;
        }
        if !leased {
            return Some(host);
        }
    }
    None
}
