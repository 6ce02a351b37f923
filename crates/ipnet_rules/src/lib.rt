//! Ordered rules for addresses, and prefix lists for routes: the first match decides.
#![tactic(auto)]

mod cells;
pub mod compiled;
pub mod kept;
pub mod prefix_list;
mod route_sets;
pub mod rules;
pub mod unreached;

pub use compiled::CompiledPrefixList;
pub use kept::kept_rules;
pub use prefix_list::{PrefixList, PrefixRule, PrefixRuleError};
pub use rules::{Action, Addresses, Rule, Rules};
pub use unreached::{Decisions, Unreached};
