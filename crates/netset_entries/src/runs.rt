//! Runs of spans whose entries are of the same list, of two lists that come one after the other.
ghost use Rattle.std.specs.Prelude.{◌≡◌, IfOk, All, length};
ghost use Rattle.netset_entries.specs.Sweeps as sweeps;
ghost use Rattle.netset_entries.specs.Sweeps.{AreRuns};

use crate::span::Span;
use std::alloc::{AllocError, Global};

/// Returns whether the entry at this index is of the first list, which has this number of entries. One list is the
/// first.
fn is_of_first(count: Option<usize>, index: usize) -> bool
    ensures { result ≡ sweeps.is_of_first count index }
{
    match count {
        None => true,
        Some(count) => index < count,
    }
}

/// Returns this many ones.
fn ones(alloc: Global, count: usize) -> Result<Vec<usize>, AllocError>
    ensures count { IfOk result (λ runs. length runs.items ≡ count) }
    ensures each { IfOk result (λ runs. All (λ run. run ≡ 1) runs.items) }
{
    let mut runs = Vec::new(alloc);
    for _ in 0..count {
        runs.push(1)?;
    }
    Ok(runs)
}

/// Returns a number for each span: from that span on, the entries of this many spans are of the same list.
pub(crate) fn runs_of(
    alloc: Global,
    count: Option<usize>,
    spans: &[Span],
) -> Result<Vec<usize>, AllocError>
    ensures { IfOk result (λ runs. AreRuns count spans.now runs.items) }
{
    let mut runs = ones(alloc, spans.len())?;
    for index in (0..spans.len().saturating_sub(1)).rev() {
        let one = is_of_first(count, spans[index].place);
        let next = is_of_first(count, spans[index + 1].place);
        if one == next {
            runs[index] = runs[index + 1] + 1;
        }
    }
    Ok(runs)
}
