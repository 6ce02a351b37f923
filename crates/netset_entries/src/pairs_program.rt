//! The command `compare` of the program with more than two lists.
ghost use Rattle.std.specs.Prelude.{◌≡◌, ◌↔◌, IsTrue};
ghost use Rattle.ipnet_sets.specs.Members.{IsMember};
ghost use Rattle.netset_entries.specs.ListPairs.{ArePairs, HaveAllSame};
ghost use Rattle.netset_lib.specs.declared.failure.Failure.TheVariants.{Memory};

use crate::pairs::{are_all_same, pairs_text};
use ipnet_sets::IpSet;
use netset_lib::{Failure, TextCommand};
use std::alloc::Global;

/// How the sets differ: a line for each pair of them, as `pairs_text` writes it.
///
/// | Status | On `faults` | When |
/// |---|---|---|
/// | 2 | `netset: out of memory` | memory runs out |
/// | 2 | `netset: output cannot be written` | a write fails, or the flush after it; the lines may be out in part |
/// | 1 | nothing | two of the sets differ |
/// | 0 | nothing | otherwise |
///
/// ```text
/// 10.0.0.0/31, 10.0.0.1 and ::1, named a, b, c:  status 1, and out gets
///     "a\tb\t1\t0\t0\t0\t1\t0\na\tc\t2\t0\t0\t1\t0\t0\nb\tc\t1\t0\t0\t1\t0\t0\n"
/// ```
pub struct PairsCommand<'a> {
    /// The allocator.
    pub alloc: Global,
    /// The names of the sets, in order.
    pub names: &'a [&'a str],
    /// The sets.
    pub sets: Vec<IpSet>,
}

impl<'a> TextCommand for PairsCommand<'a> {
    type Text = String;

    type Failure = Failure;

    ghost is_answer = { λ c text. ArePairs IsMember c.names.now c.sets.items text };

    ghost is_outcome = { λ c same. IsTrue same ↔ HaveAllSame IsMember c.sets.items };

    ghost is_failure = { λ _ failure. failure ≡ Memory };

    fn answer(self) -> Result<(String, bool), Failure> {
        let PairsCommand { alloc, names, sets } = self;
        let text = pairs_text(alloc, names, sets.as_slice())?;
        let same = are_all_same(sets.as_slice());
        Ok((text, same))
    }
}
