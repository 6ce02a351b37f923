//! Plans and pools that succeed, and the errors. The program makes them before it reads its input; a result that
//! differs is an error.
use crate::plan::{PlanError, site_plan};
use crate::pool::Pool;
use anyhow::{Result, ensure};
use ipnet::Ipv4Net;

/// Makes all plans and pools below. Fails if a result differs, or if memory runs out.
pub fn test_all(rt: &HostRuntime) -> Result<()> {
    three_sites(rt)?;
    refusals(rt)?;
    pool_hands_out_all_subnets(rt)
}

fn three_sites(rt: &HostRuntime) -> Result<()> {
    let block = "10.1.0.0/24".parse::<Ipv4Net>()?;
    let plan = site_plan(rt.alloc(), &block, 26, 3)?;
    let mut want = Vec::new(rt.alloc());
    for text in ["10.1.0.0/26", "10.1.0.64/26", "10.1.0.128/26"] {
        want.push(text.parse::<Ipv4Net>()?)?;
    }
    ensure!(plan == want);
    Ok(())
}

fn refusals(rt: &HostRuntime) -> Result<()> {
    let block = "10.1.0.0/24".parse::<Ipv4Net>()?;
    ensure!(site_plan(rt.alloc(), &block, 26, 5).err() == Some(PlanError::TooFew));
    ensure!(site_plan(rt.alloc(), &block, 23, 1).err() == Some(PlanError::PrefixLen));
    ensure!(site_plan(rt.alloc(), &block, 33, 1).err() == Some(PlanError::PrefixLen));
    Ok(())
}

fn pool_hands_out_all_subnets(rt: &HostRuntime) -> Result<()> {
    let block = "10.1.0.0/30".parse::<Ipv4Net>()?;
    let mut pool = Pool::new(rt.alloc(), block, 31)?;
    for text in ["10.1.0.0/31", "10.1.0.2/31"] {
        ensure!(pool.assign()? == Some(text.parse::<Ipv4Net>()?));
    }
    ensure!(pool.assign()?.is_none());
    ensure!(pool.assigned().len() == 2);
    ensure!(Pool::new(rt.alloc(), block, 29).is_err());
    Ok(())
}
