//! Every set of leases of eight cells, 677 of them, with every call.
use super::model::{Model, NODES, Refusal, cells, leases_in_half, level};
use super::places::{PLACES, Place};
use ipnet_pools::{PoolError, Refused};
use std::alloc::Global;
use std::test::Fail;

/// The number of sets of leases of eight cells.
const SETS: u32 = 677;

/// Whether the call has the model's result: for a refusal also the value.
fn is_result(place: Place, answer: Result<(), Refused<usize>>, model: Result<(), Refusal>) -> bool {
    match (answer, model) {
        (Ok(()), Ok(())) => true,
        (Err(refused), Err(refusal)) => {
            refused.value == 99 && place.is_refusal(&refused.error, refusal)
        }
        _ => false,
    }
}

/// Whether `take` of the node does what the model says. Its value is the node's number, or 99 if it has to be refused.
fn is_right_take(alloc: Global, place: Place, model: Model, node: usize) -> Result<bool, Fail> {
    let mut pool = place.pool(alloc, model)?;
    let mut after = model;
    let expected = after.take(node);
    let value = if expected.is_ok() { node } else { 99 };
    let result = pool.take(&place.network(node)?, value);
    Ok(is_result(place, result, expected) && place.is_same(alloc, &pool, after)?)
}

/// Whether `release` of the node does what the model says.
fn is_right_release(alloc: Global, place: Place, model: Model, node: usize) -> Result<bool, Fail> {
    let mut pool = place.pool(alloc, model)?;
    let mut after = model;
    let expected = after.release(node);
    let is_right = match (pool.release(&place.network(node)?), expected) {
        (Ok(value), Ok(())) => value == node,
        (Err(error), Err(refusal)) => place.is_refusal(&error, refusal),
        _ => false,
    };
    Ok(is_right && place.is_same(alloc, &pool, after)?)
}

/// Whether the assignment of a network of the level does what the model says.
fn is_right_assign(alloc: Global, place: Place, model: Model, wanted: u8) -> Result<bool, Fail> {
    let mut pool = place.pool(alloc, model)?;
    let mut after = model;
    let prefix_len = place.prefix_len(wanted);
    let best = model.best(wanted);
    let value = best.unwrap_or(99);
    let result = if place.is_ipv4() {
        pool.assign_ipv4(prefix_len, value)
    } else {
        pool.assign_ipv6(prefix_len, value)
    };
    let is_right = match (result, best) {
        (Ok(network), Some(node)) => {
            after.take(node).is_ok() && place.network(node) == Ok(network)
        }
        (Err(refused), None) => refused.value == 99 && refused.error == PoolError::Exhausted,
        _ => false,
    };
    Ok(is_right && place.is_same(alloc, &pool, after)?)
}

/// Whether `shrink` and `extend` by the node's cells do what the model says.
fn is_right_change(alloc: Global, place: Place, model: Model, node: usize) -> Result<bool, Fail> {
    let mut pool = place.pool(alloc, model)?;
    let mut after = model;
    let set = place.set(alloc, cells(node))?;
    let is_right = match (pool.shrink(alloc, &set), after.shrink(cells(node))) {
        (Ok(()), Ok(())) => true,
        (Err(error), Err(refusal)) => place.is_refusal(&error, refusal),
        _ => false,
    };
    if !is_right || !place.is_same(alloc, &pool, after)? {
        return Ok(false);
    }
    pool.extend(alloc, &set)?;
    after.pool |= cells(node);
    place.is_same(alloc, &pool, after)
}

/// A call of one kind, of each node.
#[derive(Clone, Copy, Debug, PartialEq, Eq)]
enum Kind {
    Take,
    Release,
    Change,
}

/// Whether a call of the node does what the model says.
fn is_right(
    alloc: Global,
    place: Place,
    model: Model,
    kind: Kind,
    node: usize,
) -> Result<bool, Fail> {
    match kind {
        Kind::Take => is_right_take(alloc, place, model, node),
        Kind::Release => is_right_release(alloc, place, model, node),
        Kind::Change => is_right_change(alloc, place, model, node),
    }
}

/// Returns the pool of eight cells with this set of leases. The other eight cells do not belong to it.
fn half(number: u32) -> Model {
    Model {
        pool: cells(1),
        leases: leases_in_half(number),
    }
}

/// Whether each call of the kind on each pool of eight cells does what the model says.
fn are_right(alloc: Global, place: Place, kind: Kind) -> Result<bool, Fail> {
    for number in 0..SETS {
        for node in 0..NODES {
            if !is_right(alloc, place, half(number), kind, node)? {
                return Ok(false);
            }
        }
    }
    Ok(true)
}

/// Whether each assignment on each pool of eight cells does what the model says.
fn are_right_assignments(alloc: Global, place: Place) -> Result<bool, Fail> {
    for number in 0..SETS {
        for node in [0, 1, 3, 7, 15] {
            if !is_right_assign(alloc, place, half(number), level(node))? {
                return Ok(false);
            }
        }
    }
    Ok(true)
}

#[test]
fn assignments(rt: HostRuntime) -> Result<(), Fail> {
    for place in PLACES {
        assert!(rt; are_right_assignments(rt.alloc(), place)?);
    }
    Ok(())
}

/// Whether each call on each pool of eight cells does what the model says.
fn are_right_calls(alloc: Global, place: Place) -> Result<bool, Fail> {
    for kind in [Kind::Take, Kind::Release, Kind::Change] {
        if !are_right(alloc, place, kind)? {
            return Ok(false);
        }
    }
    Ok(true)
}

#[test]
fn calls_on_the_first_ipv4_addresses(rt: HostRuntime) -> Result<(), Fail> {
    assert!(rt; are_right_calls(rt.alloc(), Place::FirstIpv4)?);
    Ok(())
}

#[test]
fn calls_on_the_last_ipv4_addresses(rt: HostRuntime) -> Result<(), Fail> {
    assert!(rt; are_right_calls(rt.alloc(), Place::LastIpv4)?);
    Ok(())
}

#[test]
fn calls_on_the_first_ipv6_addresses(rt: HostRuntime) -> Result<(), Fail> {
    assert!(rt; are_right_calls(rt.alloc(), Place::FirstIpv6)?);
    Ok(())
}

#[test]
fn calls_on_the_last_ipv6_addresses(rt: HostRuntime) -> Result<(), Fail> {
    assert!(rt; are_right_calls(rt.alloc(), Place::LastIpv6)?);
    Ok(())
}
