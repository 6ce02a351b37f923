//! The command `info` of the program.
ghost use Rattle.std.specs.Prelude.{◌≡◌, IsTrue, map, true};
ghost use Rattle.ipnet.specs.NetworkOf.{ip_network};
ghost use Rattle.ipnet_info.specs.AllFacts.{AreAllFacts};
ghost use Rattle.netset_lib.specs.declared.failure.Failure.TheVariants.{Memory};

use ipnet::IpNet;
use ipnet_info::{FactsForm, all_facts_text};
use netset_lib::{Failure, TextCommand};
use std::alloc::Global;

/// The facts about networks, as `all_facts_text` returns them.
///
/// | Status | On `faults` | When |
/// |---|---|---|
/// | 2 | `netset: out of memory` | memory runs out |
/// | 2 | `netset: output cannot be written` | a write fails, or the flush after it; the facts may be out in part |
/// | 0 | nothing | otherwise |
///
/// ```text
/// ::/0 in lines: status 0, and out gets "network: ::/0\naddress: ::\n" and more
/// ```
#[derive(Drop)]
pub struct InfoCommand<'a> {
    /// The allocator.
    pub alloc: Global,
    /// The networks.
    pub networks: &'a [IpNet],
    /// How their facts are written.
    pub form: FactsForm,
}

impl<'a> TextCommand for InfoCommand<'a> {
    type Text = String;

    type Failure = Failure;

    ghost is_answer = { λ c. AreAllFacts c.form true (map ip_network c.networks.now) };

    ghost is_outcome = { λ _ succeeded. IsTrue succeeded };

    ghost is_failure = { λ _ failure. failure ≡ Memory };

    fn answer(self) -> Result<(String, bool), Failure> {
        let text = all_facts_text(self.alloc, self.networks, self.form)?;
        Ok((text, true))
    }
}
