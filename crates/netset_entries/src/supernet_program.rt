//! The command `supernet` of the program.
ghost use Rattle.std.specs.Prelude.{◌≡◌, IsTrue};
ghost use Rattle.ipnet_sets.specs.Members.{IsMember};
ghost use Rattle.netset_entries.specs.Supernets.{AreSupernetLines};
ghost use Rattle.netset_lib.specs.declared.failure.Failure.TheVariants.{Memory};

use crate::supernet::supernet_text;
use ipnet_sets::IpSet;
use netset_lib::{Failure, TextCommand};
use std::alloc::Global;

/// The smallest networks around the addresses of the set, as `supernet_text` makes them.
///
/// | Status | On `faults` | When |
/// |---|---|---|
/// | 2 | `netset: out of memory` | memory runs out |
/// | 2 | `netset: output cannot be written` | a write fails, or the flush after it; the lines may be out in part |
/// | 0 | nothing | otherwise |
///
/// ```text
/// 10.20.3.0-10.20.4.9 and fd00::1:  status 0, and out gets "10.20.0.0/21\nfd00::1/128\n"
/// no address:                       status 0, and out gets nothing
/// ```
pub struct SupernetCommand {
    /// The allocator.
    pub alloc: Global,
    /// The set.
    pub set: IpSet,
}

impl TextCommand for SupernetCommand {
    type Text = String;

    type Failure = Failure;

    ghost is_answer = { λ c. AreSupernetLines (IsMember c.set) };

    ghost is_outcome = { λ _ succeeded. IsTrue succeeded };

    ghost is_failure = { λ _ failure. failure ≡ Memory };

    fn answer(self) -> Result<(String, bool), Failure> {
        let SupernetCommand { alloc, set } = self;
        let text = supernet_text(alloc, &set)?;
        Ok((text, true))
    }
}
