//! Prints the lines of a log, without those whose first word is an address of the office.
use anyhow::Result;
use ipnet::{IpAddr, IpNet};
use ipnet_sets::IpSet;

/// Whether the line begins with an address of the set. A line that begins with anything else is kept in the log.
fn is_from(set: &IpSet, line: &str) -> bool {
    let word = match line.split_once(' ') {
        Some((first, _)) => first,
        None => line,
    };
    match word.parse::<IpAddr>() {
        Ok(address) => set.contains(&address),
        Err(_) => false,
    }
}

/// Prints the lines of the log, except the lines from the office.
pub fn print_others(rt: &HostRuntime, log: &[String]) -> Result<()> {
    let mut office = Vec::new(rt.alloc());
    for network in ["10.0.0.0/8", "192.0.2.0/24", "2001:db8::/32"] {
        office.push(network.parse::<IpNet>()?)?;
    }
    let office = IpSet::from_networks(rt.alloc(), &office)?;
    for line in log {
        if !is_from(&office, line.as_str()) {
            println!(rt; "{line}")?;
        }
    }
    Ok(())
}
