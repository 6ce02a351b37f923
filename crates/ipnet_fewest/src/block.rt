//! The best values of a block, from its halves.
ghost use Rattle.std.specs.Prelude.{◌≡◌, ◌<◌, ◌≤◌, ◌++◌, [], ◌∷◌, ℕ, List, length, Contains, IfOk};
ghost use Rattle.std.specs.List.Sorted.{IsNonDecreasing};
ghost use Rattle.ipnet_base.specs.Network.{Network, IsSubnetOf, IsTruncated};
ghost use Rattle.ipnet.specs.NetworkOf.{ip_network};
ghost use Rattle.ipnet_routes.specs.Routes.{Route, ip_routes, ip_networks};
ghost use Rattle.ipnet_fewest.specs.declared.choice.Choice.{Choice};
ghost use Rattle.ipnet_fewest.specs.ItemsOf.{items_of};
ghost use Rattle.ipnet_fewest.specs.Solved.{AreTableIn, HaveValues};
ghost use Rattle.ipnet_fewest.specs.SolvedBlocks.{AreBestValues, IsBlock, AreHalfBlocks};

use crate::choice::Choice;
use crate::halves::{count_before, halves, near_network, parent_and_sibling};
use crate::values::{Values, common_values, has_value, values_beside, values_of_both};
use ipnet::IpNet;
use std::alloc::{AllocError, Global};

/// A block that is solved: its best values are known.
#[derive(Drop)]
pub(crate) struct Block {
    pub(crate) network: IpNet,
    /// The values with which the block needs the fewest routes, in ascending order. The value 0 is for no route.
    pub(crate) values: Values,
    /// How many choices are in the block. It needs this many routes if its value is one of these, and else one more.
    pub(crate) size: usize,
}

/// Returns the block of the network if all of its addresses have the value.
fn block_of_value(network: &IpNet, value: usize) -> Block
    ensures network { ip_network result.network ≡ ip_network network.now }
    ensures values { items_of result.values ≡ value ∷ [] }
    ensures size { result.size ≡ 0 }
{
    Block {
        network: *network,
        values: Values::One(value),
        size: 0,
    }
}

/// Returns the best values of a block with these halves. If the halves have no best value in common, it adds a choice.
fn joined(
    alloc: Global,
    choices: &mut Vec<Choice>,
    first: Block,
    second: Block,
) -> Result<Values, AllocError>
    requires first { 0 < length (items_of first.values) }
    requires second { 0 < length (items_of second.values) }
    requires first_sorted { IsNonDecreasing (items_of first.values) }
    requires second_sorted { IsNonDecreasing (items_of second.values) }
    ensures { (old : List Choice) (front back : List (Route ℕ)) (value : ℕ) (around : Network)
        → AreHalfBlocks old choices.old.items front back value around first second
        → IfOk result (λ values.
        AreBestValues old choices.new.items (front ++ back) value around (items_of values)) }
{
    let common = common_values(alloc, first.values.as_slice(), second.values.as_slice())?;
    if !common.is_empty() {
        return Values::of(alloc, common);
    }
    let values = values_of_both(alloc, first.values.as_slice(), second.values.as_slice())?;
    let second_value = second.values.as_slice()[0];
    choices.push(Choice {
        first: first.network,
        first_values: first.values,
        second_value,
        first_size: first.size,
        second_size: second.size,
    })?;
    Ok(values)
}

/// Returns what is known of a larger block around a solved one, if all other addresses have the value.
fn widened(
    alloc: Global,
    choices: &mut Vec<Choice>,
    around: &IpNet,
    inner: Block,
    value: usize,
) -> Result<Block, AllocError>
    requires truncated { IsTruncated (ip_network around.now) }
    requires inner_truncated { IsTruncated (ip_network inner.network) }
    requires within { IsSubnetOf (ip_network inner.network) (ip_network around.now) }
    requires longer { (ip_network around.now).prefix_len < (ip_network inner.network).prefix_len }
    requires some { 0 < length (items_of inner.values) }
    requires sorted { IsNonDecreasing (items_of inner.values) }
    requires size { inner.size ≤ length choices.old.items }
    ensures { (old : List Choice) (routes : List (Route ℕ))
        → IsBlock old choices.old.items routes value (ip_network inner.network) inner
        → ((r : Route ℕ) → Contains routes r → IsSubnetOf r.0 (ip_network inner.network))
        → IfOk result (IsBlock old choices.new.items routes value (ip_network around.now)) }
{
    if has_value(inner.values.as_slice(), value) {
        return Ok(Block {
            network: *around,
            values: Values::One(value),
            size: inner.size,
        });
    }
    let start = choices.len() - inner.size;
    let (parent, _) = parent_and_sibling(&inner.network);
    let is_half = parent.prefix_len() == around.prefix_len();
    let values = values_beside(alloc, inner.values.as_slice(), value, is_half)?;
    choices.push(Choice {
        first: inner.network,
        first_values: inner.values,
        second_value: value,
        first_size: inner.size,
        second_size: 0,
    })?;
    Ok(Block {
        network: *around,
        values,
        size: choices.len() - start,
    })
}

/// Returns what is known of the block of the network, which contains the networks of the routes. The value is the one
/// that addresses without a route have.
pub(crate) fn solved(
    alloc: Global,
    choices: &mut Vec<Choice>,
    routes: &[(IpNet, usize)],
    around: &IpNet,
    value: usize,
) -> Result<Block, AllocError>
    requires table { AreTableIn (ip_network around.now) (ip_networks routes.now) }
    requires values { HaveValues (ip_routes routes.now) }
    ensures { IfOk result (λ block. IsBlock choices.old.items choices.new.items (ip_routes routes.now) value
        (ip_network around.now) block) }
{
    let start = choices.len();
    let Some((first, rest)) = routes.split_first() else {
        return Ok(block_of_value(around, value));
    };
    if first.0.prefix_len() == around.prefix_len() {
        return solved(alloc, choices, rest, around, first.1);
    }
    if rest.is_empty() {
        let inner = block_of_value(&first.0, first.1);
        return widened(alloc, choices, around, inner, value);
    }
    let near = near_network(routes, around);
    if near.prefix_len() > around.prefix_len() {
        let inner = solved(alloc, choices, routes, &near, value)?;
        return widened(alloc, choices, around, inner, value);
    }
    let (first_half, second_half) = halves(around);
    let (front, back) = routes.split_at(count_before(routes, &second_half));
    let first = solved(alloc, choices, front, &first_half, value)?;
    let second = solved(alloc, choices, back, &second_half, value)?;
    let values = joined(alloc, choices, first, second)?;
    Ok(Block {
        network: *around,
        values,
        size: choices.len() - start,
    })
}
