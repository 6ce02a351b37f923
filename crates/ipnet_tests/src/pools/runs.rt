//! Random runs of calls on sixteen cells.
use super::model::{Model, NODES, Refusal, cells};
use super::places::{PLACES, Place};
use ipnet_pools::{IpPool, PoolError};
use std::alloc::Global;
use std::test::Fail;

/// The number of runs, and of calls in each.
const RUNS: u32 = 10_000;

const CALLS: u32 = 64;

/// Returns the next number of a sequence, and one of its numbers below the bound.
fn draw(state: &mut u64, bound: u64) -> u64 {
    let next = state
        .wrapping_mul(6364136223846793005)
        .wrapping_add(1442695040888963407);
    *state = next;
    if bound == 0 {
        return 0;
    }
    (next >> 33) % bound
}

/// Whether a random call does what the model says.
fn is_right_call(
    alloc: Global,
    place: Place,
    pool: &mut IpPool<usize>,
    model: &mut Model,
    state: &mut u64,
) -> Result<bool, Fail> {
    let kind = draw(state, 16);
    let node = draw(state, 31) as usize % NODES;
    let network = place.network(node)?;
    if kind < 5 {
        let expected = model.take(node);
        return Ok(match (pool.take(&network, node), expected) {
            (Ok(()), Ok(())) => true,
            (Err(refused), Err(refusal)) => place.is_refusal(&refused.error, refusal),
            _ => false,
        });
    }
    if kind < 10 {
        let expected = model.release(node);
        return Ok(match (pool.release(&network), expected) {
            (Ok(value), Ok(())) => value == node,
            (Err(error), Err(refusal)) => place.is_refusal(&error, refusal),
            _ => false,
        });
    }
    if kind < 14 {
        return assigned(place, pool, model, (node % 5) as u8);
    }
    let set = place.set(alloc, cells(node))?;
    if kind == 14 {
        let expected = model.shrink(cells(node));
        return Ok(match (pool.shrink(alloc, &set), expected) {
            (Ok(()), Ok(())) => true,
            (Err(error), Err(refusal)) => place.is_refusal(&error, refusal),
            _ => false,
        });
    }
    pool.extend(alloc, &set)?;
    model.pool |= cells(node);
    Ok(true)
}

/// Whether an assignment has the model's result.
fn assigned(
    place: Place,
    pool: &mut IpPool<usize>,
    model: &mut Model,
    wanted: u8,
) -> Result<bool, Fail> {
    let prefix_len = place.prefix_len(wanted);
    let best = model.best(wanted);
    let value = best.unwrap_or(99);
    let result = if place.is_ipv4() {
        pool.assign_ipv4(prefix_len, value)
    } else {
        pool.assign_ipv6(prefix_len, value)
    };
    Ok(match (result, best) {
        (Ok(network), Some(node)) => model.take(node).is_ok() && place.network(node) == Ok(network),
        (Err(refused), None) => refused.value == 99 && refused.error == PoolError::Exhausted,
        _ => false,
    })
}

/// Whether the run from this state does what the model says.
fn is_right_run(alloc: Global, place: Place, seed: u64) -> Result<bool, Fail> {
    let mut state = seed;
    let mut model = Model {
        pool: cells(0),
        leases: 0,
    };
    let mut pool = place.pool(alloc, model)?;
    for _ in 0..CALLS {
        if !is_right_call(alloc, place, &mut pool, &mut model, &mut state)? {
            return Ok(false);
        }
    }
    place.is_same(alloc, &pool, model)
}

#[test]
fn random_runs(rt: HostRuntime) -> Result<(), Fail> {
    for run in 0..RUNS {
        let place = PLACES[run as usize % 4];
        assert!(rt;
            is_right_run(rt.alloc(), place, u64::from(run))?,
            "run {run}"
        );
    }
    Ok(())
}
