//! Memory that runs out, for the tests of calls that allocate.
use std::alloc::{AllocError, Global};

/// The number of runs of [`outcomes`]. With more runs, the part of the spare block that is still withheld would be a
/// small block, which the allocator keeps in lists by size.
pub const RUNS: usize = 180;

/// The size of the spare block, which [`outcomes`] frees piece by piece. It is too large for these lists.
const SPARE: usize = 4096;

/// How many bytes each run of [`outcomes`] has more than the previous run: the allocator's smallest block.
const STEP: usize = 16;

/// The largest size of the allocator's small blocks. A free small block only serves requests of its own size.
const GREATEST_SMALL: usize = 1040;

/// More blocks than all memory has.
const MOST_BLOCKS: usize = 100_000;

/// How much of the stack a test uses, without its call.
const STACK: usize = 262_144;

fn block(alloc: Global, len: usize) -> Result<Vec<u8>, AllocError> {
    Vec::with_capacity(alloc, len)
}

/// Makes the stack grow. A test calls this once before it calls [`outcomes`], and never again: without memory the stack
/// cannot grow, and afterwards the allocator may keep a block close below it.
///
/// Some of the bytes go into a block, so that no compiler leaves the array out.
//
// If this were inlined, the array would be in the frame of the test, and the frames of its calls below it.
#[inline(never)]
pub fn grow_stack(alloc: Global) -> Result<(), AllocError> {
    let mut kept = block(alloc, STEP)?;
    let mut room = [0u8; STACK];
    for at in 0..STACK {
        room[at] = (at % 251) as u8;
    }
    let from = kept.capacity().min(STACK - STEP);
    kept.extend_from_slice(&room[from..from + STEP])
}

/// Allocates blocks of this size until an allocation fails.
fn take(alloc: Global, len: usize, held: &mut Vec<Vec<u8>>) -> Result<(), AllocError> {
    for _ in 0..MOST_BLOCKS {
        if held.len() >= MOST_BLOCKS {
            break;
        }
        match block(alloc, len) {
            Ok(taken) => held.push(taken)?,
            Err(_) => break,
        }
    }
    Ok(())
}

/// Allocates all memory, in blocks of smaller and smaller sizes, and then each free small block.
fn take_all(alloc: Global) -> Result<Vec<Vec<u8>>, AllocError> {
    let mut held = Vec::with_capacity(alloc, MOST_BLOCKS)?;
    let mut len = 1usize << 46;
    for _ in 0..43 {
        take(alloc, len, &mut held)?;
        len /= 2;
    }
    for steps in 0..GREATEST_SMALL / STEP {
        take(alloc, GREATEST_SMALL - STEP * steps, &mut held)?;
    }
    Ok(held)
}

/// The results of [`RUNS`] runs of the call, the first run with no memory and each later run with a little more; `None`
/// if allocations never fail, as under a sanitizer.
///
/// The test has called [`grow_stack`] before. A call may use 200 KiB of the stack.
///
/// A block that one run freed may serve a later run. So a call with several allocations may succeed in one run and fail
/// in the next.
///
/// ```text
/// a call that requests 100 bytes once: refused in the first seven runs, answered in all others
/// ```
pub fn outcomes<T: Copy, F: FnMut() -> T>(
    alloc: Global,
    mut call: F,
) -> Result<Option<[T; RUNS]>, AllocError>
    requires { F.IsAlwaysCallable call }
{
    let mut answers = [call(); RUNS];
    let spare = block(alloc, SPARE)?;
    let held = take_all(alloc)?;
    if block(alloc, STEP).is_ok() {
        return Ok(None);
    }
    answers[0] = call();
    drop(spare);
    for run in 1..RUNS {
        let rest = block(alloc, SPARE - STEP * run)?;
        answers[run] = call();
        drop(rest);
    }
    drop(held);
    Ok(Some(answers))
}

/// The outcome of one run of a call.
#[derive(Clone, Copy, Debug, PartialEq, Eq, Drop)]
pub enum Outcome {
    /// The call reported that memory ran out, and changed nothing.
    Refused,
    /// The call returned the result that is right with enough memory.
    Answered,
    /// The call returned anything else.
    Wrong,
}

/// Whether the first run of the call fails, and each other run fails or succeeds; true if allocations never fail.
///
/// The test has called [`grow_stack`] before.
pub fn is_refused<F: FnMut() -> Outcome>(alloc: Global, call: F) -> Result<bool, AllocError>
    requires { F.IsAlwaysCallable call }
{
    let Some(runs) = outcomes(alloc, call)? else {
        return Ok(true);
    };
    Ok(runs[0] == Outcome::Refused && has_no_wrong(&runs))
}

/// Whether the first run of the call fails, the last run succeeds, and each other run fails or succeeds; true if
/// allocations never fail.
///
/// The test has called [`grow_stack`] before.
pub fn is_refused_and_answered<F: FnMut() -> Outcome>(
    alloc: Global,
    call: F,
) -> Result<bool, AllocError>
    requires { F.IsAlwaysCallable call }
{
    let Some(runs) = outcomes(alloc, call)? else {
        return Ok(true);
    };
    Ok(has_both_ends(&runs) && has_no_wrong(&runs))
}

/// Whether the runs of the call fail up to one run and succeed from then on, and the first run fails and the last
/// succeeds; true if allocations never fail.
///
/// The test has called [`grow_stack`] before.
pub fn is_refused_then_answered<F: FnMut() -> Outcome>(
    alloc: Global,
    call: F,
) -> Result<bool, AllocError>
    requires { F.IsAlwaysCallable call }
{
    let Some(runs) = outcomes(alloc, call)? else {
        return Ok(true);
    };
    Ok(has_both_ends(&runs) && has_no_wrong(&runs) && is_never_refused_again(&runs))
}

/// Whether the call returns true in each run, even without memory.
///
/// The test has called [`grow_stack`] before.
pub fn needs_no_memory<F: FnMut() -> bool>(alloc: Global, call: F) -> Result<bool, AllocError>
    requires { F.IsAlwaysCallable call }
{
    let Some(runs) = outcomes(alloc, call)? else {
        return Ok(true);
    };
    Ok(runs == [true; RUNS])
}

/// Whether the first run fails and the last succeeds.
fn has_both_ends(runs: &[Outcome; RUNS]) -> bool {
    runs[0] == Outcome::Refused && runs[RUNS - 1] == Outcome::Answered
}

/// Whether each run fails or succeeds with the right result.
fn has_no_wrong(runs: &[Outcome; RUNS]) -> bool {
    for run in 0..RUNS {
        if runs[run] == Outcome::Wrong {
            return false;
        }
    }
    true
}

/// Whether no run fails after a run that succeeded.
fn is_never_refused_again(runs: &[Outcome; RUNS]) -> bool {
    let mut is_answered = false;
    for run in 0..RUNS {
        match runs[run] {
            Outcome::Answered => is_answered = true,
            Outcome::Refused if is_answered => return false,
            _ => {}
        }
    }
    true
}
