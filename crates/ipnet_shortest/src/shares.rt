//! How a number of networks is shared by two parts of a list so that both together add the fewest addresses.
//!
//! The costs of a part are the numbers of addresses that it adds: `costs[more]` is for its fewest networks and `more`.
ghost use Rattle.std.specs.Prelude.{◌≡◌, ◌+◌, ◌<◌, ◌≤◌, ◌++◌, length, IfOk, OnOk};
ghost use Rattle.ipnet_shortest.specs.PartCovers.{IsBestShare, AreBestShares, HaveRoom, costs_from};
ghost use Rattle.ipnet_shortest.specs.Halves.{IsFirstWithin};

use std::alloc::{AllocError, Global};

/// Returns how many of the `more` networks the first part gets, so that both parts together cost the least.
fn best_share(first: &[u128], second: &[u128], more: usize) -> usize
    requires first { 0 < length first.now }
    requires second { 0 < length second.now }
    requires more { more + 1 < length first.now + length second.now }
    requires room { HaveRoom first.now second.now }
    ensures { IsBestShare first.now second.now more result }
{
    let start = more.saturating_sub(second.len() - 1);
    let end = first.len().min(more + 1);
    let mut best = start;
    let mut least = first[start] + second[more - start];
    for share in start + 1..end {
        let cost = first[share] + second[more - share];
        if cost < least {
            best = share;
            least = cost;
        }
    }
    best
}

/// Returns the best shares of 0 to `count - 1` networks.
pub(crate) fn best_shares(
    alloc: Global,
    first: &[u128],
    second: &[u128],
    count: usize,
) -> Result<Vec<usize>, AllocError>
    requires first { 0 < length first.now }
    requires second { 0 < length second.now }
    requires count { count + 1 ≤ length first.now + length second.now }
    requires room { HaveRoom first.now second.now }
    ensures count { IfOk result (λ shares. length shares.items ≡ count) }
    ensures best { IfOk result (λ shares. AreBestShares first.now second.now shares.items) }
{
    let mut shares = Vec::with_capacity(alloc, count)?;
    for more in 0..count {
        shares.push(best_share(first, second, more))?;
    }
    Ok(shares)
}

/// Adds the costs of both parts with these shares.
pub(crate) fn push_costs(
    costs: &mut Vec<u128>,
    first: &[u128],
    second: &[u128],
    shares: &[usize],
) -> Result<(), AllocError>
    requires best { AreBestShares first.now second.now shares.now }
    requires room { HaveRoom first.now second.now }
    ensures { OnOk result (costs.new.items ≡ costs.old.items ++ costs_from first.now second.now 0 shares.now) }
{
    for more in 0..shares.len() {
        let share = shares[more];
        costs.push(first[share] + second[more - share])?;
    }
    Ok(())
}

/// Returns the first index whose cost is at most `spare`, or at most the last cost if no cost is.
pub(crate) fn first_within(costs: &[u128], spare: u128) -> usize
    requires { 0 < length costs.now }
    ensures { IsFirstWithin costs.now spare result }
{
    let last = costs.len() - 1;
    let most = costs[last].max(spare);
    for index in 0..last {
        if costs[index] <= most {
            return index;
        }
    }
    last
}
