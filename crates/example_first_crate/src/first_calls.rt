//! First calls of the library, each with its result. The program makes them before it reads its input; a result that
//! differs is an error.
use anyhow::{Result, ensure};
use ipnet::{IpAddr, IpNet, Ipv4Addr, Ipv4Net, same_addresses};
use ipnet_routes::{RouteMap, RouteTable};
use ipnet_sets::IpSet;

/// Makes all calls below. Fails if a result differs, or if memory runs out.
pub fn test_all(rt: &HostRuntime) -> Result<()> {
    networks_and_their_aggregate(rt)?;
    sets_of_addresses(rt)?;
    routes(rt)?;
    routes_that_change(rt)
}

fn networks_and_their_aggregate(rt: &HostRuntime) -> Result<()> {
    let office = "10.1.1.7/24".parse::<Ipv4Net>()?;
    ensure!(office.network() == Ipv4Addr::new(10, 1, 1, 0));
    ensure!(office.contains(&Ipv4Addr::new(10, 1, 1, 200)));
    ensure!(office.hosts().count() == 254);
    let subnets: Vec<Ipv4Net> = office.subnets(26)?.collect(rt.alloc())?;
    ensure!(subnets.len() == 4);
    let mut networks = Vec::new(rt.alloc());
    for text in ["10.0.1.0/24", "fd00::/32", "10.0.0.7/24"] {
        networks.push(text.parse::<IpNet>()?)?;
    }
    let shortest = IpNet::aggregate(rt.alloc(), &networks)?;
    ensure!(shortest.len() == 2);
    ensure!(same_addresses(rt.alloc(), &shortest, &networks)?);
    Ok(())
}

fn sets_of_addresses(rt: &HostRuntime) -> Result<()> {
    let alloc = rt.alloc();
    let mut allow = Vec::new(alloc);
    allow.push("10.0.0.0/24".parse::<IpNet>()?)?;
    let mut deny = Vec::new(alloc);
    deny.push("10.0.0.128/25".parse::<IpNet>()?)?;
    let allowed = IpSet::from_networks(alloc, allow.as_slice())?;
    let denied = IpSet::from_networks(alloc, deny.as_slice())?;
    let open = allowed.difference(alloc, &denied)?;
    ensure!(open.contains(&"10.0.0.5".parse::<IpAddr>()?));
    ensure!(open.covers(&"10.0.0.64/25".parse::<IpNet>()?));
    ensure!(open.ipv4_count() == 128);
    ensure!(open.networks(alloc)?.len() == 1);
    ensure!(open.ranges().next().is_some());
    Ok(())
}

fn routes(rt: &HostRuntime) -> Result<()> {
    let mut routes = Vec::new(rt.alloc());
    routes.push(("0.0.0.0/0".parse::<IpNet>()?, 1))?;
    routes.push(("10.0.0.0/8".parse::<IpNet>()?, 2))?;
    let table = RouteTable::from_routes(rt.alloc(), routes)?;
    let network = "10.0.0.0/8".parse::<IpNet>()?;
    ensure!(table.longest_match(&"10.1.2.3".parse::<IpAddr>()?) == Some(&(network, 2)));
    ensure!(table.get(&network) == Some(&2));
    ensure!(table.len() == 2);
    Ok(())
}

fn routes_that_change(rt: &HostRuntime) -> Result<()> {
    let mut map = RouteMap::new(rt.alloc());
    map.insert(&"10.0.0.0/8".parse::<IpNet>()?, 1)?;
    map.insert(&"10.1.0.0/16".parse::<IpNet>()?, 2)?;
    ensure!(map.remove(&"10.1.0.0/16".parse::<IpNet>()?) == Some(2));
    let network = "10.0.0.0/8".parse::<IpNet>()?;
    ensure!(map.longest_match(&"10.1.2.3".parse::<IpAddr>()?) == Some(&(network, 1)));
    Ok(())
}
