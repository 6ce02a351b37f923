//! Address pools: plans, pools and tenants, each with its promises. The program plans a subnet for each site.
//!
//! The first line of the input has the block and the prefix length of the subnets; each further line has a site.
#![tactic(auto)]

mod examples;
mod plan;
mod pool;
mod tenants;

use anyhow::{Result, bail};
use ipnet::IpNet;
use ipnet_pools::plan::plan_ipv4;
use ipnet_sets::IpSet;

/// Reads the block and the sites, and prints the plan.
fn plan_sites(rt: &HostRuntime) -> Result<()> {
    let mut lines = rt.lines(rt.alloc());
    let Some(first) = lines.next() else {
        bail!("a block and a prefix length are wanted");
    };
    let first = first?;
    let Some((block, prefix_len)) = first.as_str().split_once(' ') else {
        bail!("{first}: a block and a prefix length are wanted");
    };
    let block = block.parse::<IpNet>()?;
    let prefix_len = prefix_len.parse::<u8>()?;
    let mut sites = Vec::new(rt.alloc());
    let mut lengths = Vec::new(rt.alloc());
    for site in lines {
        sites.push(site?)?;
        lengths.push(prefix_len)?;
    }
    let set = IpSet::from_network(rt.alloc(), &block)?;
    let plan = plan_ipv4(rt.alloc(), &set, &lengths)?;
    for (site, subnet) in sites.iter().zip(&plan) {
        let IpNet::V4(subnet) = subnet else {
            bail!("{subnet}: an IPv4 network is wanted");
        };
        let hosts = subnet.hosts().count();
        println!(rt; "{site} {subnet} {hosts} hosts")?;
    }
    Ok(())
}

fn main(rt: HostRuntime) -> Result<()> {
    examples::test_all(&rt)?;
    plan_sites(&rt)
}
