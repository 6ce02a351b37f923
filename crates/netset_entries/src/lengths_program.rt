//! The command `count` of the program with `--lengths`.
ghost use Rattle.std.specs.Prelude.{◌≡◌, IsTrue};
ghost use Rattle.ipnet_sets.specs.Members.{IsMember};
ghost use Rattle.netset_entries.specs.Lengths.{AreLengthLines};
ghost use Rattle.netset_lib.specs.Combinations.{OfUnion};
ghost use Rattle.netset_lib.specs.declared.failure.Failure.TheVariants.{Memory};

use crate::lengths::lengths_text;
use ipnet_sets::IpSet;
use netset_lib::{Combination, Failure, TextCommand, combine};
use std::alloc::Global;

/// How many of the fewest networks of all the sets have each prefix length, as `lengths_text` writes it.
///
/// | Status | On `faults` | When |
/// |---|---|---|
/// | 2 | `netset: out of memory` | memory runs out |
/// | 2 | `netset: output cannot be written` | a write fails, or the flush after it; the lines may be out in part |
/// | 0 | nothing | otherwise |
///
/// ```text
/// of 10.0.0.0/9 and ::1, and 10.128.0.0/9:  status 0, and out gets "IPv4\t8\t1\nIPv6\t128\t1\n"
/// of no address:                            status 0, and out gets nothing
/// ```
#[derive(Drop)]
pub struct LengthsCommand {
    /// The allocator.
    pub alloc: Global,
    /// The sets.
    pub sets: Vec<IpSet>,
}

impl TextCommand for LengthsCommand {
    type Text = String;

    type Failure = Failure;

    ghost is_answer = { λ c text. OfUnion (λ set. AreLengthLines (IsMember set) text) c.sets.items };

    ghost is_outcome = { λ _ succeeded. IsTrue succeeded };

    ghost is_failure = { λ _ failure. failure ≡ Memory };

    fn answer(self) -> Result<(String, bool), Failure> {
        let LengthsCommand { alloc, sets } = self;
        let Ok(set) = combine(alloc, Combination::Union(sets)) else {
            return Err(Failure::Memory);
        };
        let text = lengths_text(alloc, &set)?;
        Ok((text, true))
    }
}
