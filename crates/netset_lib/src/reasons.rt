//! The words of the reports for lines that are refused.
ghost use Rattle.std.specs.Prelude.{◌≡◌, codes};
ghost use Rattle.netset_lib.specs.Reasons.{network_reason, change_reason, rule_reason, bounds_reason, prefix_reason};
ghost use Rattle.netset_lib.specs.Reasons.{entry_reason, Explains};
ghost use Rattle.netset_lib.specs.ListReports.{ExplainsNetwork, ExplainsPrefix};

use crate::change_line::ChangeCause;
use crate::network_entry::NetworkCause;
use crate::prefix_line::PrefixCause;
use crate::rule_cause::RuleCause;
use ipnet_lists::{Cause, Explanation, LineCause, NO_ENTRY};
use ipnet_rules::PrefixRuleError;

/// Why a text is not an entry.
fn entry_reason(cause: Option<Cause>) -> &'static str
    ensures { result.now ≡ entry_reason cause }
{
    match cause {
        Some(cause) => cause.text(),
        None => NO_ENTRY,
    }
}

/// Why a text is not a network.
fn network_reason(cause: NetworkCause) -> &'static str
    ensures { result.now ≡ network_reason cause }
{
    match cause {
        NetworkCause::Missing => "no network follows",
        NetworkCause::Range => "a range: write its networks",
        NetworkCause::TwoWords => "more than one word follows",
        NetworkCause::NoEntry(cause) => entry_reason(cause),
    }
}

/// Why a line is not a change of a list.
fn change_reason(cause: ChangeCause) -> &'static str
    ensures { result.now ≡ change_reason cause }
{
    match cause {
        ChangeCause::UnknownSign => "a change begins with + or - and a blank",
        ChangeCause::Present => "the list has this network already",
        ChangeCause::Absent => "the list has no such network",
        ChangeCause::NoNetwork(cause) => network_reason(cause),
    }
}

/// Why a line is not a rule.
fn rule_reason(cause: RuleCause) -> &'static str
    ensures { result.now ≡ rule_reason cause }
{
    match cause {
        RuleCause::UnknownWord => "a rule begins with permit or deny",
        RuleCause::NoEntry => "no network, address or range follows",
        RuleCause::TwoEntries => "more than one word follows",
        RuleCause::BadEntry(cause) => entry_reason(cause),
        RuleCause::NoHost => "after host: one address",
        RuleCause::Netmask => "a netmask: write it after /, or a wildcard mask such as 0.0.0.255",
        RuleCause::EitherMask => {
            "0.0.0.0 and 255.255.255.255 have two meanings: write host and the address, or any"
        }
        RuleCause::NoMask => "the second address is not a contiguous wildcard mask",
    }
}

/// Why the bounds of a rule of a prefix list are refused.
fn bounds_reason(error: &PrefixRuleError) -> &'static str
    ensures { result.now ≡ bounds_reason error.now }
{
    match error {
        PrefixRuleError::GeOutOfRange => {
            "ge must be above the prefix length and at most 32, or 128 for IPv6"
        }
        PrefixRuleError::LeOutOfRange => {
            "le must be above the prefix length and at most 32, or 128 for IPv6"
        }
        PrefixRuleError::GeAboveLe => "ge must be at most le",
    }
}

/// Why a line is not a rule of a prefix list.
fn prefix_reason(cause: &PrefixCause) -> &'static str
    ensures { result.now ≡ prefix_reason cause.now }
{
    match cause {
        PrefixCause::UnknownWord => "a rule begins with permit or deny",
        PrefixCause::NoNetwork(cause) => network_reason(*cause),
        PrefixCause::BadBounds => "after the network: ge or le and a number, each at most once",
        PrefixCause::RefusedBounds(error) => bounds_reason(error),
        PrefixCause::NoName => "after prefix-list: a name",
        PrefixCause::NoNumber => "after seq: a number up to 4294967295",
        PrefixCause::OtherFamily => "ip is for IPv4 networks, and ipv6 for IPv6 networks",
    }
}

impl LineCause for NetworkCause {
    ghost explains = { ExplainsNetwork };

    fn explain(&self, _: &[u8]) -> Explanation {
        Explanation {
            what: "not a network",
            why: Some(network_reason(*self)),
        }
    }
}

impl LineCause for ChangeCause {
    ghost explains = { Explains (codes "not a change of the list") change_reason };

    fn explain(&self, _: &[u8]) -> Explanation {
        Explanation {
            what: "not a change of the list",
            why: Some(change_reason(*self)),
        }
    }
}

impl LineCause for RuleCause {
    ghost explains = { Explains (codes "not a rule") rule_reason };

    fn explain(&self, _: &[u8]) -> Explanation {
        Explanation {
            what: "not a rule",
            why: Some(rule_reason(*self)),
        }
    }
}

impl LineCause for PrefixCause {
    ghost explains = { ExplainsPrefix };

    fn explain(&self, _: &[u8]) -> Explanation {
        Explanation {
            what: "not a rule of a prefix list",
            why: Some(prefix_reason(self)),
        }
    }
}
