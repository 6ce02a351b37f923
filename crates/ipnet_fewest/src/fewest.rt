//! The fewest routes for a table whose values are numbers.
ghost use Rattle.std.specs.Prelude.{◌<◌, ℕ, List, length, OnOk, IfOk};
ghost use Rattle.ipnet_base.specs.Address.{ip_address};
ghost use Rattle.ipnet_base.specs.Network.{Network};
ghost use Rattle.ipnet.specs.NetworkOf.{ip_network};
ghost use Rattle.ipnet_routes.specs.Routes.{Route, ip_routes, ip_networks};
ghost use Rattle.ipnet_routes.specs.RouteSteps.{IsTable};
ghost use Rattle.ipnet_fewest.specs.ItemsOf.{items_of};
ghost use Rattle.ipnet_fewest.specs.Plans.{HasPlan};
ghost use Rattle.ipnet_fewest.specs.Solved.{AreTableIn, HaveValues};
ghost use Rattle.ipnet_fewest.specs.SolvedBlocks.{IsSolution};
ghost use Rattle.ipnet_fewest.specs.FewestRoutes.{IsWhole, AreFewestAdded, AreFewest};

use crate::block::{Block, solved};
use crate::choice::{Choice, push_routes};
use crate::halves::count_before;
use ipnet::{IpAddr, IpNet, Ipv4Addr, Ipv6Addr};
use std::alloc::{AllocError, Global};

/// Returns the network of all addresses of the address's family.
fn whole(ip: IpAddr) -> IpNet
    ensures { IsWhole (ip_address ip).family (ip_network result) }
{
    IpNet::new_assert(ip, 0).trunc()
}

/// A network whose fewest routes are known, but not made yet.
#[derive(Drop)]
struct Solution {
    block: Block,
    /// The choices in the block.
    choices: Vec<Choice>,
}

/// Finds the fewest routes for the block of the network, which contains the networks of the routes.
fn solve(alloc: Global, routes: &[(IpNet, usize)], around: &IpNet) -> Result<Solution, AllocError>
    requires table { AreTableIn (ip_network around.now) (ip_networks routes.now) }
    requires values { HaveValues (ip_routes routes.now) }
    ensures { IfOk result (λ s. IsSolution (ip_routes routes.now) (ip_network around.now) s.block s.choices.items) }
{
    let mut choices = Vec::new(alloc);
    let block = solved(alloc, &mut choices, routes, around, 0)?;
    Ok(Solution { block, choices })
}

/// Adds the fewest routes for the block of the solution.
fn push_fewest(fewest: &mut Vec<(IpNet, usize)>, solution: &Solution) -> Result<(), AllocError>
    requires some { 0 < length (items_of solution.now.block.values) }
    requires plan { HasPlan solution.now.choices.items }
    ensures { OnOk result ((routes : List (Route ℕ)) (around : Network)
        → IsSolution routes around solution.now.block solution.now.choices.items
        → AreFewestAdded routes around (ip_routes fewest.old.items) (ip_routes fewest.new.items)) }
{
    let value = solution.block.values.as_slice()[0];
    push_routes(fewest, solution.choices.as_slice(), value)?;
    if value == 0 {
        return Ok(());
    }
    fewest.push((solution.block.network, value))?;
    Ok(())
}

/// Returns the fewest routes that route each address as the routes of a table do. The last routes come first. Both
/// families are solved, and the routes of the table are freed, before the fewest routes are made.
pub(crate) fn fewest_routes(
    alloc: Global,
    routes: Vec<(IpNet, usize)>,
) -> Result<Vec<(IpNet, usize)>, AllocError>
    requires table { IsTable (ip_networks routes.items) }
    requires values { HaveValues (ip_routes routes.items) }
    ensures { IfOk result (λ fewest. AreFewest (ip_routes routes.items) (ip_routes fewest.items)) }
{
    let ipv4 = whole(IpAddr::V4(Ipv4Addr::new(0, 0, 0, 0)));
    let ipv6 = whole(IpAddr::V6(Ipv6Addr::new(0, 0, 0, 0, 0, 0, 0, 0)));
    let list = routes.as_slice();
    let (front, back) = list.split_at(count_before(list, &ipv6));
    let ipv6_routes = solve(alloc, back, &ipv6)?;
    let ipv4_routes = solve(alloc, front, &ipv4)?;
    drop(routes);
    let mut fewest = Vec::new(alloc);
    push_fewest(&mut fewest, &ipv6_routes)?;
    push_fewest(&mut fewest, &ipv4_routes)?;
    Ok(fewest)
}
