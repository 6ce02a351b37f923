//! The command `changes` of the program.
ghost use Rattle.std.specs.Prelude.{◌≡◌, ◌↔◌, true, false, IsTrue, IfOk, string_bytes};
ghost use Rattle.ipnet_sets.specs.Members.{IsMember};
ghost use Rattle.netset_lib.specs.Changes.{AreAddressChanges, AreAskedChanges, AreChangeLines};
ghost use Rattle.netset_lib.specs.Counts.{HaveSame};
ghost use Rattle.netset_lib.specs.declared.failure.Failure.TheVariants.{Memory};

use crate::changes::{address_changes_text, changes_text};
use crate::failure::Failure;
use crate::runs::TextCommand;
use ipnet_sets::IpSet;
use std::alloc::{AllocError, Global};

/// Returns the changes of addresses, or the changes of networks. Fails if memory runs out.
fn asked_changes_text(
    alloc: Global,
    of_addresses: bool,
    before: &IpSet,
    after: &IpSet,
) -> Result<String, AllocError>
    ensures addresses { IfOk result (λ text. of_addresses ≡ true
        → AreAddressChanges (IsMember before.now) (IsMember after.now) (string_bytes text)) }
    ensures networks { IfOk result (λ text. of_addresses ≡ false
        → AreChangeLines (IsMember before.now) (IsMember after.now) (string_bytes text)) }
{
    if of_addresses {
        address_changes_text(alloc, before, after)
    } else {
        changes_text(alloc, before, after)
    }
}

/// The changes from the networks of the first set to the networks of the second, as `changes_text` makes them; or the
/// changes of addresses, as `address_changes_text` makes them.
///
/// | Status | On `faults` | When |
/// |---|---|---|
/// | 2 | `netset: out of memory` | memory runs out |
/// | 2 | `netset: output cannot be written` | a write fails, or the flush after it; the changes may be out in part |
/// | 1 | nothing | the sets do not have the same addresses; `out` has the changes |
/// | 0 | nothing | the sets have the same addresses; `out` has nothing new |
///
/// ```text
/// from 10.0.0.0/8 to 10.0.0.0/9:               status 1, and out gets "- 10.0.0.0/8\n+ 10.0.0.0/9\n"
/// from 10.0.0.0/8 to 10.0.0.0-10.255.255.255:  status 0, and out gets nothing
/// of addresses, from 10.0.0.0/8 to 10.0.0.0/9: status 1, and out gets "- 10.128.0.0/9\n"
/// ```
pub struct ChangesCommand {
    /// The allocator.
    pub alloc: Global,
    /// The set before.
    pub before: IpSet,
    /// The set after.
    pub after: IpSet,
    /// Whether the changes are of addresses.
    pub of_addresses: bool,
}

impl TextCommand for ChangesCommand {
    type Text = String;

    type Failure = Failure;

    ghost is_answer = { λ c text. AreAskedChanges c.of_addresses (IsMember c.before) (IsMember c.after) text };

    ghost is_outcome = { λ c same. IsTrue same ↔ HaveSame (IsMember c.before) (IsMember c.after) };

    ghost is_failure = { λ _ failure. failure ≡ Memory };

    fn answer(self) -> Result<(String, bool), Failure> {
        let ChangesCommand {
            alloc,
            before,
            after,
            of_addresses,
        } = self;
        let text = asked_changes_text(alloc, of_addresses, &before, &after)?;
        Ok((text, before == after))
    }
}
