//! The memory of `test_support` itself.
use std::test::Fail;
use test_support::memory::{RUNS, grow_stack, needs_no_memory, outcomes};

#[test]
fn one_request(rt: HostRuntime) -> Result<(), Fail> {
    grow_stack(rt.alloc())?;
    let alloc = rt.alloc();
    if let Some(answers) = outcomes(alloc, || Vec::<u8>::with_capacity(alloc, 100).is_ok())? {
        for run in 0..RUNS {
            assert!(&rt;
                answers[run] == (run >= 7),
                "a request of 100 bytes: run {run}"
            );
        }
    }
    Ok(())
}

#[test]
fn no_request(rt: HostRuntime) -> Result<(), Fail> {
    grow_stack(rt.alloc())?;
    assert!(&rt; needs_no_memory(rt.alloc(), || true)?, "no request");
    Ok(())
}
