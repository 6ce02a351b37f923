//! The command `plan --bar` of the program.
ghost use Rattle.std.specs.Prelude.{IsTrue};
ghost use Rattle.ipnet_sets.specs.Members.{IsMember};
ghost use Rattle.netset_lib.specs.PlanAnswers.{HasNoPlacement, IsPlanFailure};
ghost use Rattle.netset_pictures.specs.PlanBars.{IsPlanBarText};

use crate::plan_bar::{PlanBarRequest, plan_bar_text};
use ipnet_sets::IpSet;
use netset_lib::{PlanFailure, TextCommand};
use std::alloc::Global;

/// The bar of a plan in the addresses of the set, as `plan_bar_text` makes it.
///
/// | Status | On `faults` | When |
/// |---|---|---|
/// | 2 | as `PlanCommand` says | the family is not chosen, or a length is too long |
/// | 2 | `netset: out of memory` | memory runs out |
/// | 2 | `netset: output cannot be written` | a write fails, or the flush after it; the bar may be out in part |
/// | 1 | `netset: no placement: the list has no room for these networks` | no such networks exist |
/// | 0 | nothing | otherwise |
///
/// ```text
/// 10.0.0.0/30, the length 31: status 0, and out gets "10.0.0.0/30, a mark is one /32\n
///     10.0.0.0/30 |##..| 50.0 %\nused 2 of 4, 50.0 %\nfree blocks: 1, 1 of /31\nlargest free: 10.0.0.2/31\n"
/// ```
pub struct PlanBarCommand<'a> {
    /// The allocator.
    pub alloc: Global,
    /// The set.
    pub set: IpSet,
    /// The plan, and what its bar shows.
    pub request: PlanBarRequest<'a>,
}

impl<'a> TextCommand for PlanBarCommand<'a> {
    type Text = String;

    type Failure = PlanFailure;

    ghost is_answer = { λ c. let p = c.request.plan in
        IsPlanBarText (IsMember c.set) p.families p.lengths.now c.request.form };

    ghost is_outcome = { λ c succeeded. let p = c.request.plan in
        IsTrue succeeded × ¬ (HasNoPlacement (IsMember c.set) p.families p.lengths.now) };

    ghost is_failure = { λ c. let p = c.request.plan in
        IsPlanFailure (IsMember c.set) p.families p.lengths.now };

    fn answer(self) -> Result<(String, bool), PlanFailure> {
        let PlanBarCommand {
            alloc,
            set,
            request,
        } = self;
        Ok((plan_bar_text(alloc, &set, request)?, true))
    }
}
