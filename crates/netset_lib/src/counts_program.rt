//! The commands `count` and `compare` of the program.
ghost use Rattle.std.specs.Prelude.{◌≡◌, ◌↔◌, IsTrue};
ghost use Rattle.ipnet_sets.specs.Members.{IsMember};
ghost use Rattle.netset_lib.specs.Counts.{IsCountText, IsComparison, HaveSame};
ghost use Rattle.netset_lib.specs.declared.failure.Failure.TheVariants.{Memory};

use crate::counts::{comparison_text, counts_text};
use crate::failure::Failure;
use crate::runs::TextCommand;
use ipnet_sets::IpSet;
use std::alloc::Global;

/// The number of addresses of each set, and of all together.
///
/// | Status | On `faults` | When |
/// |---|---|---|
/// | 2 | `netset: out of memory` | memory runs out |
/// | 2 | `netset: output cannot be written` | a write fails, or the flush after it; the answer may be out in part |
/// | 0 | nothing | otherwise |
///
/// ```text
/// 10.0.0.0/31, named a: status 0, and out gets "a\t2\t0\n"
/// ```
pub struct CountCommand<'a> {
    /// The allocator.
    pub alloc: Global,
    /// The names of the sets, in order.
    pub names: &'a [&'a str],
    /// The sets.
    pub sets: Vec<IpSet>,
}

impl<'a> TextCommand for CountCommand<'a> {
    type Text = String;

    type Failure = Failure;

    ghost is_answer = { λ c text. IsCountText IsMember c.names.now c.sets.items text };

    ghost is_outcome = { λ _ succeeded. IsTrue succeeded };

    ghost is_failure = { λ _ failure. failure ≡ Memory };

    fn answer(self) -> Result<(String, bool), Failure> {
        let CountCommand { alloc, names, sets } = self;
        let text = counts_text(alloc, names, sets.as_slice())?;
        Ok((text, true))
    }
}

/// The number of addresses that are in only one of two sets. It succeeds if both have the same addresses.
///
/// | Status | On `faults` | When |
/// |---|---|---|
/// | 2 | `netset: out of memory` | memory runs out |
/// | 2 | `netset: output cannot be written` | a write fails, or the flush after it; the answer may be out in part |
/// | 1 | nothing | the sets do not have the same addresses |
/// | 0 | nothing | the sets have the same addresses; `out` has nothing new |
///
/// ```text
/// 10.0.0.0/31 and 10.0.0.0: status 1, and out gets
///     "only in the first: IPv4 1, IPv6 0\nonly in the second: IPv4 0, IPv6 0\n"
/// ```
pub struct CompareCommand {
    /// The allocator.
    pub alloc: Global,
    /// The first set.
    pub first: IpSet,
    /// The second set.
    pub second: IpSet,
}

impl TextCommand for CompareCommand {
    type Text = String;

    type Failure = Failure;

    ghost is_answer = { λ c text. IsComparison (IsMember c.first) (IsMember c.second) text };

    ghost is_outcome = { λ c same. IsTrue same ↔ HaveSame (IsMember c.first) (IsMember c.second) };

    ghost is_failure = { λ _ failure. failure ≡ Memory };

    fn answer(self) -> Result<(String, bool), Failure> {
        let CompareCommand {
            alloc,
            first,
            second,
        } = self;
        let text = comparison_text(alloc, &first, &second)?;
        Ok((text, first == second))
    }
}
