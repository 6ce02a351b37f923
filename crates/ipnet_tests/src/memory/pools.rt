//! Memory that runs out while leases are made and ended. A call that fails leaves the pool as it was.
//!
//! A map keeps its memory for the next entries, so each run makes many leases and ends all of them.
use ipnet::{IpAddr, IpNet, Ipv4Addr};
use ipnet_pools::{IpPool, PoolError};
use ipnet_sets::IpSet;
use std::alloc::Global;
use std::test::Fail;
use test_support::memory::{Outcome, grow_stack, is_refused};

/// The number of leases, each of an even address.
const COUNT: usize = 24;

/// Returns the network of the even address with this index, or with `odd` 1 of the address after it.
fn host(index: usize, odd: u32) -> IpNet {
    let number = ((index % COUNT) as u32).wrapping_mul(2).wrapping_add(odd);
    IpNet::from(IpAddr::V4(Ipv4Addr::from_bits(number)))
}

/// Whether exactly these even addresses are leased, and the odd addresses are free. It needs no memory.
fn has_leases(pool: &IpPool<usize>, leased: &[bool; COUNT]) -> bool {
    for index in 0..COUNT {
        let network = host(index, 0);
        if pool.get(&network).copied() != leased[index].then_some(index)
            || pool.is_free(&network) == leased[index]
            || !pool.is_free(&host(index, 1))
        {
            return false;
        }
    }
    true
}

/// Takes the addresses that are not leased, up to the first that is refused.
fn take_all(pool: &mut IpPool<usize>, leased: &mut [bool; COUNT]) -> Outcome {
    for index in 0..COUNT {
        if !leased[index] {
            if let Err(refused) = pool.take(&host(index, 0), index) {
                if refused.error == PoolError::Memory
                    && refused.value == index
                    && has_leases(pool, leased)
                {
                    return Outcome::Refused;
                }
                return Outcome::Wrong;
            }
            leased[index] = true;
        }
    }
    if has_leases(pool, leased) {
        Outcome::Answered
    } else {
        Outcome::Wrong
    }
}

/// Releases the addresses that are leased, up to the first that is refused.
fn release_all(pool: &mut IpPool<usize>, leased: &mut [bool; COUNT]) -> Outcome {
    for index in 0..COUNT {
        if leased[index] {
            match pool.release(&host(index, 0)) {
                Ok(value) => {
                    if value != index {
                        return Outcome::Wrong;
                    }
                }
                Err(error) => {
                    if error == PoolError::Memory && has_leases(pool, leased) {
                        return Outcome::Refused;
                    }
                    return Outcome::Wrong;
                }
            }
            leased[index] = false;
        }
    }
    if has_leases(pool, leased) {
        Outcome::Answered
    } else {
        Outcome::Wrong
    }
}

/// Takes all addresses and releases them.
fn take_and_release(pool: &mut IpPool<usize>, leased: &mut [bool; COUNT]) -> Outcome {
    let taken = take_all(pool, leased);
    let released = release_all(pool, leased);
    if taken == Outcome::Wrong || released == Outcome::Wrong {
        return Outcome::Wrong;
    }
    if taken == Outcome::Refused || released == Outcome::Refused {
        return Outcome::Refused;
    }
    Outcome::Answered
}

#[test]
fn leases_with_memory_refused(rt: HostRuntime) -> Result<(), Fail> {
    grow_stack(rt.alloc())?;
    let whole = IpNet::new(IpAddr::V4(Ipv4Addr::from_bits(0)), 24)?;
    let set = IpSet::from_network(rt.alloc(), &whole)?;
    let mut pool = IpPool::new(rt.alloc(), &set)?;
    let mut leased = [false; COUNT];
    let is_right = is_refused(rt.alloc(), || take_and_release(&mut pool, &mut leased))?;
    assert!(rt; is_right);
    assert!(rt; take_and_release(&mut pool, &mut leased) == Outcome::Answered);
    Ok(())
}
