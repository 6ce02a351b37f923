//! A first crate over sets and routes: the allow list of a firewall, the gateway of a route, and a pool of addresses.
//! It has no proof file.
//!
//! The program hands out networks of 10.0.0.0/24, and prints the gateway of each address, by the longest route. The
//! input has lines `take LENGTH`, `give NETWORK`, `NETWORK via GATEWAY` and `ask ADDRESS`.
#![tactic(auto)]

mod allow_list;
mod first_calls;
mod gateways;
mod pool;

use crate::pool::Pool;
use anyhow::{Result, bail};
use ipnet::{IpAddr, IpNet};
use ipnet_routes::RouteTable;

/// Allocates a network of this length, and prints it.
fn take(rt: &HostRuntime, pool: &mut Pool, length: &str) -> Result<()> {
    let length = length.parse::<u8>()?;
    match pool.allocate(rt.alloc(), length)? {
        Some(network) => println!(rt; "{network}")?,
        None => println!(rt; "no /{length} is free")?,
    }
    Ok(())
}

/// Releases the network, and prints whether it was taken.
fn give(rt: &HostRuntime, pool: &mut Pool, network: &str) -> Result<()> {
    let network = network.parse::<IpNet>()?;
    if pool.release(rt.alloc(), &network)? {
        println!(rt; "{network} is free again")?;
    } else {
        println!(rt; "{network} was not taken")?;
    }
    Ok(())
}

/// The routes of the input, and the addresses that are asked.
#[derive(Drop)]
struct Lookups {
    routes: Vec<(IpNet, IpAddr)>,
    asked: Vec<IpAddr>,
}

impl Lookups {
    /// Reads a line `NETWORK via GATEWAY` or `ask ADDRESS`.
    fn push(&mut self, line: &str) -> Result<()> {
        if let Some((network, gateway)) = line.split_once(" via ") {
            let network = network.parse::<IpNet>()?;
            self.routes.push((network, gateway.parse::<IpAddr>()?))?;
        } else if let Some(address) = line.strip_prefix("ask ") {
            self.asked.push(address.parse::<IpAddr>()?)?;
        } else {
            bail!("{line}: not a request");
        }
        Ok(())
    }
}

/// Prints the gateway of each address, by the longest route.
fn print_gateways(rt: &HostRuntime, lookups: Lookups) -> Result<()> {
    let Lookups { routes, asked } = lookups;
    let table = RouteTable::from_routes(rt.alloc(), routes)?;
    for address in &asked {
        match table.longest_match(address) {
            Some((network, gateway)) => println!(rt; "{address} via {gateway}, by {network}")?,
            None => println!(rt; "{address} unreachable")?,
        }
    }
    Ok(())
}

fn main(rt: HostRuntime) -> Result<()> {
    first_calls::test_all(&rt)?;
    let mut pool = Pool::new(rt.alloc(), "10.0.0.0/24".parse::<IpNet>()?)?;
    let routes = Vec::new(rt.alloc());
    let asked = Vec::new(rt.alloc());
    let mut lookups = Lookups { routes, asked };
    for line in rt.lines(rt.alloc()) {
        let line = line?;
        match line.as_str().split_once(' ') {
            Some(("take", length)) => take(&rt, &mut pool, length)?,
            Some(("give", network)) => give(&rt, &mut pool, network)?,
            _ => lookups.push(line.as_str())?,
        }
    }
    print_gateways(&rt, lookups)
}
