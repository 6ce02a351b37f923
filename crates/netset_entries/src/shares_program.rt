//! The command `count` of the program with `--by`.
ghost use Rattle.std.specs.Prelude.{IsTrue};
ghost use Rattle.ipnet_sets.specs.Members.{IsMember};
ghost use Rattle.netset_entries.specs.NumberedEntries.{HoldsOfEntries};
ghost use Rattle.netset_entries.specs.Shares.{AreShareLines, IsEntriesFailure};
ghost use Rattle.netset_lib.specs.Combinations.{OfUnion};

use crate::entry_list::{EntryList, entry_list};
use crate::shares::shares_text;
use ipnet::Grammar;
use ipnet_lists::{ListFailure, NotEntry};
use ipnet_sets::IpSet;
use netset_lib::{Combination, TextCommand, combine};
use std::alloc::Global;

/// How many addresses of each entry of a list all the sets have together, and which share of the entry they are. A line
/// has the entry as it is written, the number of its addresses that a set has, the number of its addresses, and the
/// share, with tabs between. The share is rounded down, but not to 0.
///
/// The last name is the list's.
///
/// | Status | On `faults` | When |
/// |---|---|---|
/// | 2 | `NAME:LINE: not a network, an address or a range: TEXT (CAUSE)`, at most ten | lines of the list are refused |
/// | 2 | `netset: out of memory` | memory runs out |
/// | 2 | `netset: output cannot be written` | a write fails, or the flush after it; the lines may be out in part |
/// | 0 | nothing | otherwise |
///
/// ```text
/// "10.0.0.0/28\n::1\n", and 10.0.0.0-10.0.0.9: status 0, and out gets
///     "10.0.0.0/28\t10\t16\t62.5 %\n::1\t0\t1\t0.0 %\n"
/// ```
#[derive(Drop)]
pub struct SharesCommand<'a> {
    /// The allocator.
    pub alloc: Global,
    /// The list.
    pub list: &'a [u8],
    /// The grammar of its entries.
    pub grammar: Grammar,
    /// The sets.
    pub sets: Vec<IpSet>,
}

impl<'a> TextCommand for SharesCommand<'a> {
    type Text = Vec<u8>;

    type Failure = ListFailure<NotEntry>;

    ghost is_answer = { λ c text. OfUnion (λ set. HoldsOfEntries c.grammar c.list.now
        (λ entries. AreShareLines (IsMember set) entries text)) c.sets.items };

    ghost is_outcome = { λ _ succeeded. IsTrue succeeded };

    ghost is_failure = { λ c. IsEntriesFailure c.grammar c.list.now };

    fn answer(self) -> Result<(Vec<u8>, bool), ListFailure<NotEntry>> {
        let SharesCommand {
            alloc,
            list,
            grammar,
            sets,
        } = self;
        let EntryList { entries, refused } = entry_list(alloc, list, grammar)?;
        if refused.count != 0 {
            return Err(ListFailure::Refused(refused));
        }
        let Ok(set) = combine(alloc, Combination::Union(sets)) else {
            return Err(ListFailure::Memory);
        };
        let text = shares_text(alloc, &set, entries.as_slice())?;
        Ok((text, true))
    }
}
