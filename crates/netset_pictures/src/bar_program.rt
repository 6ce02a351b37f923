//! The command `bar` of the program.
ghost use Rattle.std.specs.Prelude.{◌≡◌, ◌↔◌, IsTrue};
ghost use Rattle.ipnet_bars.specs.Frames.{HasNoFrame};
ghost use Rattle.ipnet_sets.specs.Members.{IsMember};
ghost use Rattle.netset_lib.specs.Combinations.{OfUnion};
ghost use Rattle.netset_lib.specs.Counts.{HaveSame};
ghost use Rattle.netset_pictures.specs.BarAnswers.{IsFramedBar, IsFramedComparison, HasNoCommonFrame};
ghost use Rattle.netset_pictures.specs.declared.bar.PictureFailure.TheVariants.{NoFrame};

use crate::bar::{BarRequest, PictureFailure, framed_bar_text, framed_comparison_text};
use ipnet_sets::IpSet;
use netset_lib::{Combination, TextCommand, combine};
use std::alloc::Global;

/// The bar of the addresses of all the sets, as `framed_bar_text` makes it.
///
/// | Status | On `faults` | When |
/// |---|---|---|
/// | 2 | `netset: no address to draw: name a network with --in` | as `PictureFailure::NoFrame` says |
/// | 2 | `netset: out of memory` | memory runs out |
/// | 2 | `netset: output cannot be written` | a write fails, or the flush after it; the bar may be out in part |
/// | 0 | nothing | otherwise |
///
/// ```text
/// 10.0.0.0/31 in 10.0.0.0/30: status 0, and out gets "10.0.0.0/30, a mark is one /32\n
///     10.0.0.0/30 |##..| 50.0 %\nused 2 of 4, 50.0 %\nfree blocks: 1, 1 of /31\nlargest free: 10.0.0.2/31\n"
/// ```
pub struct BarCommand {
    /// The allocator.
    pub alloc: Global,
    /// The sets.
    pub sets: Vec<IpSet>,
    /// The network and the form of the bar.
    pub request: BarRequest,
}

impl TextCommand for BarCommand {
    type Text = String;

    type Failure = PictureFailure;

    ghost is_answer = { λ c text.
        OfUnion (λ set. IsFramedBar (IsMember set) c.request.frame c.request.form text) c.sets.items };

    ghost is_outcome = { λ _ succeeded. IsTrue succeeded };

    ghost is_failure = { λ c failure.
        failure ≡ NoFrame → OfUnion (λ set. HasNoFrame c.request.frame (IsMember set)) c.sets.items };

    fn answer(self) -> Result<(String, bool), PictureFailure> {
        let BarCommand {
            alloc,
            sets,
            request,
        } = self;
        let Ok(set) = combine(alloc, Combination::Union(sets)) else {
            return Err(PictureFailure::Memory);
        };
        match framed_bar_text(alloc, &set, request) {
            Ok(text) => Ok((text, true)),
            Err(failure) => Err(failure),
        }
    }
}

/// The bar that compares the first set with the second, as `framed_comparison_text` makes it.
///
/// | Status | On `faults` | When |
/// |---|---|---|
/// | 2 | `netset: no address to draw: name a network with --in` | as `PictureFailure::NoFrame` says |
/// | 2 | `netset: out of memory` | memory runs out |
/// | 2 | `netset: output cannot be written` | a write fails, or the flush after it; the bar may be out in part |
/// | 1 | nothing | the sets do not have the same addresses |
/// | 0 | nothing | the sets have the same addresses |
///
/// ```text
/// 10.0.0.0/31 and 10.0.0.1/32, in 10.0.0.0/30: status 1, and out gets "10.0.0.0/30, a mark is one /32\n
///     10.0.0.0/30 |-=..| -1 +0\n- only in the first: 1\n+ only in the second: 0\n= in both: 1\n
///     ! is - and + in one mark\n"
/// ```
pub struct ComparisonBarCommand {
    /// The allocator.
    pub alloc: Global,
    /// The first set.
    pub before: IpSet,
    /// The second set.
    pub after: IpSet,
    /// The network and the form of the bar.
    pub request: BarRequest,
}

impl TextCommand for ComparisonBarCommand {
    type Text = String;

    type Failure = PictureFailure;

    ghost is_answer = { λ c. IsFramedComparison c.before c.after c.request.frame c.request.form };

    ghost is_outcome = { λ c same. IsTrue same ↔ HaveSame (IsMember c.before) (IsMember c.after) };

    ghost is_failure = { λ c failure. failure ≡ NoFrame → HasNoCommonFrame c.request.frame c.before c.after };

    fn answer(self) -> Result<(String, bool), PictureFailure> {
        let ComparisonBarCommand {
            alloc,
            before,
            after,
            request,
        } = self;
        match framed_comparison_text(alloc, &before, &after, request) {
            Ok(text) => Ok((text, before == after)),
            Err(failure) => Err(failure),
        }
    }
}
