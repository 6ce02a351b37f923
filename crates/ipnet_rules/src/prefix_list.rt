//! Prefix lists, as routers filter routes by them.
ghost use Rattle.std.specs.Prelude.{◌≡◌, ◌≤◌, ◌↔◌, IsTrue, IfOk, IsErrOf};
ghost use Rattle.ipnet_base.specs.Address.{Address, width};
ghost use Rattle.ipnet_base.specs.Network.{InBlock};
ghost use Rattle.ipnet.specs.NetworkOf.{ip_network};
ghost use Rattle.ipnet_rules.specs.declared.prefix_list.PrefixRuleError.TheVariants as PrefixRuleError;
ghost use Rattle.ipnet_rules.specs.PrefixLists.{IsLengthAsked, MatchesRoute, IsRouteVerdict, IsRoutePermitted};
ghost use Rattle.ipnet_rules.specs.Rules.{Matches};
ghost use Rattle.ipnet_rules.specs.PrefixLists.{IsPrefixRule, IsBound, IsAbove};

use crate::rules::{Action, Addresses, Rule};
use ipnet::IpNet;
use thiserror::Error;

/// Why `ge` and `le` are refused.
#[derive(Clone, Debug, PartialEq, Eq, Drop, Error)]
pub enum PrefixRuleError {
    /// `ge` is not longer than the network's prefix length, or it is longer than 32, or 128 for IPv6.
    #[error("ge must be above the prefix length and at most 32, or 128 for IPv6")]
    GeOutOfRange,
    /// `le` is not longer than the network's prefix length, or it is longer than 32, or 128 for IPv6.
    #[error("le must be above the prefix length and at most 32, or 128 for IPv6")]
    LeOutOfRange,
    /// `ge` is above `le`, so no network could match.
    #[error("ge must be at most le")]
    GeAboveLe,
}

/// A rule of a prefix list, as `permit 10.0.0.0/8 ge 16 le 24`.
#[derive(Clone, Copy, PartialEq, Eq, Debug)]
pub struct PrefixRule {
    action: Action,
    network: IpNet,
    ge: Option<u8>,
    le: Option<u8>,
}

/// A prefix list: the first rule that matches a network permits or denies it. A network that no rule matches is
/// denied.
///
/// ```text
/// deny 10.1.0.0/16 le 32, permit 10.0.0.0/8 ge 16 le 24:
/// 10.2.0.0/16 is permitted; 10.1.2.0/24, 10.2.0.0/25 and 10.0.0.0/8 are denied
/// ```
#[derive(Drop)]
pub struct PrefixList {
    /// The rules, in their order.
    pub list: Vec<PrefixRule>,
}

/// Returns whether the bound is missing, or above the network's prefix length and at most its family's width.
fn is_bound(network: &IpNet, bound: Option<u8>) -> bool
    ensures { IsTrue result ↔ IsBound (ip_network network.now) bound }
{
    match bound {
        None => true,
        Some(bound) => network.prefix_len() < bound && bound <= network.max_prefix_len(),
    }
}

/// Returns whether both bounds are given, and `ge` is above `le`.
fn is_above(ge: Option<u8>, le: Option<u8>) -> bool
    ensures { IsTrue result ↔ IsAbove ge le }
{
    match (ge, le) {
        (Some(ge), Some(le)) => le < ge,
        _ => false,
    }
}

impl PrefixRule {
    /// Returns the rule for networks that lie in this one, and have these prefix lengths:
    ///
    /// | `ge` | `le` | Lengths |
    /// |---|---|---|
    /// | `None` | `None` | exactly the network's own |
    /// | `Some(16)` | `None` | 16 and longer |
    /// | `None` | `Some(24)` | 24 and shorter, down to the network's own |
    /// | `Some(16)` | `Some(24)` | 16 to 24 |
    ///
    /// The error is `GeOutOfRange` unless `ge` is above the network's prefix length and at most 32, or 128 for IPv6;
    /// then `LeOutOfRange` unless `le` is; then `GeAboveLe` if `ge` is above `le`. Host bits of the network do not
    /// matter.
    ///
    /// ```text
    /// permit 10.0.0.0/8 ge 16 le 24   Ok
    /// permit 10.0.0.0/8 ge 8          Err(GeOutOfRange)
    /// permit 10.0.0.0/8 le 33         Err(LeOutOfRange)
    /// permit 10.0.0.0/8 ge 24 le 16   Err(GeAboveLe)
    /// ```
    pub fn new(
        action: Action,
        network: IpNet,
        ge: Option<u8>,
        le: Option<u8>,
    ) -> Result<PrefixRule, PrefixRuleError>
        ensures made { IfOk result (IsPrefixRule action (ip_network network) ge le) }
        ensures ge_out_of_range { IsErrOf result PrefixRuleError.GeOutOfRange ↔ ¬ (IsBound (ip_network network) ge) }
        ensures le_out_of_range { IsErrOf result PrefixRuleError.LeOutOfRange
            ↔ (IsBound (ip_network network) ge × ¬ (IsBound (ip_network network) le)) }
        ensures ge_above_le { IsErrOf result PrefixRuleError.GeAboveLe
            ↔ (IsBound (ip_network network) ge × IsBound (ip_network network) le × IsAbove ge le) }
    {
        if !is_bound(&network, ge) {
            return Err(PrefixRuleError::GeOutOfRange);
        }
        if !is_bound(&network, le) {
            return Err(PrefixRuleError::LeOutOfRange);
        }
        if is_above(ge, le) {
            return Err(PrefixRuleError::GeAboveLe);
        }
        Ok(PrefixRule {
            action,
            network,
            ge,
            le,
        })
    }

    /// Returns the action of the rule.
    ///
    /// ```text
    /// permit 10.0.0.0/8 ge 16 le 24: Permit
    /// ```
    pub fn action(&self) -> Action
        ensures { result ≡ self.now.action }
    {
        self.action
    }

    /// Returns the network of the rule, as it was given: with its host bits.
    ///
    /// ```text
    /// permit 10.0.0.0/8 ge 16 le 24: 10.0.0.0/8
    /// ```
    pub fn network(&self) -> IpNet
        ensures { ip_network result ≡ ip_network self.now.network }
    {
        self.network
    }

    /// Returns the least prefix length that the rule asks for, if it was given.
    ///
    /// ```text
    /// permit 10.0.0.0/8 ge 16 le 24: Some(16); permit 10.0.0.0/8 le 24: None
    /// ```
    pub fn ge(&self) -> Option<u8>
        ensures { result ≡ self.now.ge }
    {
        self.ge
    }

    /// Returns the greatest prefix length that the rule asks for, if it was given.
    ///
    /// ```text
    /// permit 10.0.0.0/8 ge 16 le 24: Some(24); permit 10.0.0.0/8 ge 16: None
    /// ```
    pub fn le(&self) -> Option<u8>
        ensures { result ≡ self.now.le }
    {
        self.le
    }

    /// Returns whether the rule asks for this prefix length.
    fn asks_for(&self, prefix_len: u8) -> bool
        ensures { IsTrue result
            ↔ IsLengthAsked (ip_network self.now.network) self.now.ge self.now.le prefix_len }
    {
        match (self.ge, self.le) {
            (None, None) => prefix_len == self.network.prefix_len(),
            (Some(ge), None) => ge <= prefix_len,
            (None, Some(le)) => prefix_len <= le,
            (Some(ge), Some(le)) => ge <= prefix_len && prefix_len <= le,
        }
    }

    /// Returns whether a network of this length at some address of the rule's network is one that the rule matches.
    pub(crate) fn can_match(&self, prefix_len: u8) -> bool
        ensures { IsTrue result ↔ (((ip_network self.now.network).prefix_len ≤ prefix_len)
            × (prefix_len ≤ width (ip_network self.now.network).family)
            × IsLengthAsked (ip_network self.now.network) self.now.ge self.now.le prefix_len) }
    {
        self.network.prefix_len() <= prefix_len
            && prefix_len <= self.network.max_prefix_len()
            && self.asks_for(prefix_len)
    }

    /// Returns the rule of the same action for the addresses of the network.
    pub(crate) fn for_addresses(&self) -> Rule
        ensures action { result.action ≡ self.now.action }
        ensures addresses { (x : Address) → Matches result x ↔ InBlock (ip_network self.now.network) x }
    {
        Rule {
            action: self.action,
            addresses: Addresses::Network(self.network),
        }
    }

    /// Returns whether the rule matches the network: it lies in the rule's network, and the rule asks for its length.
    /// Allocates nothing.
    ///
    /// ```text
    /// permit 10.0.0.0/8 ge 16 le 24 matches 10.1.0.0/16, but neither 10.0.0.0/8 nor 11.0.0.0/16
    /// ```
    pub fn matches(&self, network: &IpNet) -> bool
        ensures { IsTrue result ↔ MatchesRoute self.now (ip_network network.now) }
    {
        self.network.contains(network) && self.asks_for(network.prefix_len())
    }
}

impl PrefixList {
    /// Returns the action of the first rule that matches the network, or `Deny` if none does. Allocates nothing; the
    /// time grows with the number of rules.
    ///
    /// ```text
    /// deny 10.1.0.0/16 le 32, permit 10.0.0.0/8 ge 16 le 24: Permit for 10.2.0.0/16, Deny for 10.1.2.0/24
    /// ```
    pub fn verdict(&self, network: &IpNet) -> Action
        ensures { IsRouteVerdict self.now.list.items (ip_network network.now) result }
    {
        for rule in self.list.as_slice() {
            if rule.matches(network) {
                return rule.action;
            }
        }
        Action::Deny
    }

    /// Returns whether the list permits the network: its verdict is `Permit`. Allocates nothing; the time grows with
    /// the number of rules.
    ///
    /// ```text
    /// deny 10.1.0.0/16 le 32, permit 10.0.0.0/8 ge 16 le 24: 10.2.0.0/16 is permitted, 10.1.2.0/24 is not
    /// ```
    pub fn permits(&self, network: &IpNet) -> bool
        ensures { IsTrue result ↔ IsRoutePermitted self.now.list.items (ip_network network.now) }
    {
        match self.verdict(network) {
            Action::Permit => true,
            Action::Deny => false,
        }
    }
}
