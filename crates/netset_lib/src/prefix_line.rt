//! A line of a prefix list: `permit` or `deny`, a network, and bounds of prefix lengths.
ghost use Rattle.std.specs.Prelude.{◌≡◌, ◌↔◌, ℕ, List, Option, Some, IfOk, IfErr, IfSome, IsNone};
ghost use Rattle.ipnet.specs.NetworkOf.{ip_network};
ghost use Rattle.ipnet.specs.Numerals.{IsDecimal};
ghost use Rattle.ipnet.specs.declared.parser.Grammar.TheVariants.{Strict};
ghost use Rattle.netset_lib.specs.PrefixLines.{HasBound, IsBoundsText, IsPrefixText, IsPrefixCause};
ghost use Rattle.netset_lib.specs.PrefixSteps.{HasPair, IsRuleOf, IsBoundsCause};

use crate::length::read_decimal;
use crate::network_entry::{NetworkCause, read_network_entry};
use crate::rule_line::action_of;
use ipnet::{Grammar, IpNet};
use ipnet_lists::cut_word;
use ipnet_rules::{Action, PrefixRule, PrefixRuleError};
use std::str;

/// Why a line is not a rule of a prefix list.
///
/// ```text
/// allow 10.0.0.0/8                  UnknownWord
/// permit any                        NoNetwork(NoEntry(Some(AllAddresses)))
/// permit 10.0.0.0/8 ge              BadBounds
/// permit 10.0.0.0/8 ge 8            RefusedBounds(GeOutOfRange)
/// permit 10.0.0.0/8 le 33           RefusedBounds(LeOutOfRange)
/// permit 10.0.0.0/8 ge 24 le 16     RefusedBounds(GeAboveLe)
/// ip prefix-list                    NoName
/// ip prefix-list a seq permit ::/0  NoNumber
/// ip prefix-list a permit ::/0      OtherFamily
/// ```
#[derive(Clone, Debug, PartialEq, Eq, Drop)]
pub enum PrefixCause {
    /// The first word is neither `permit` nor `deny`. In the line of a router, this is the first word after the name
    /// and the sequence number.
    UnknownWord,
    /// The second word is not a network.
    NoNetwork(NetworkCause),
    /// The text after the network is not `ge` and `le` with numbers from 0 to 128, each at most once.
    BadBounds,
    /// The bounds are refused for the network.
    RefusedBounds(PrefixRuleError),
    /// No name follows `prefix-list`.
    NoName,
    /// No number from 0 to 4294967295 without leading zeros follows `seq`.
    NoNumber,
    /// The network is IPv6 after `ip prefix-list`, or IPv4 after `ipv6 prefix-list`.
    OtherFamily,
}

/// Returns the number from 0 to 128 that the bytes are, in decimal without leading zeros.
fn read_number(bytes: &[u8]) -> Option<u8>
    ensures { (n : ℕ) → (result ≡ Some n) ↔ IsDecimal Strict 3 128 bytes.now n }
{
    match str::from_utf8(bytes) {
        Ok(digits) => read_decimal(digits),
        Err(_) => None,
    }
}

/// Returns the number that follows the keyword, and the rest of the text.
fn read_bound<'a>(keyword: &[u8], text: &'a [u8]) -> Option<(u8, &'a [u8])>
    ensures some { IfSome result (λ b. HasBound keyword.now text.now b.0 b.1.now) }
    ensures none { IsNone result → (n : ℕ) → (rest : List ℕ) → ¬ (HasBound keyword.now text.now n rest) }
{
    let (word, after) = cut_word(text);
    if word != keyword {
        return None;
    }
    let (digits, rest) = cut_word(after);
    let number = read_number(digits)?;
    Some((number, rest))
}

/// Returns the number that follows the first keyword, and the number that follows the second if that comes after it.
fn read_pair(first: &[u8], second: &[u8], text: &[u8]) -> Option<(u8, Option<u8>)>
    ensures some { IfSome result (λ p. HasPair first.now second.now text.now p.0 p.1) }
    ensures none { IsNone result → (a : ℕ) → (b : Option ℕ) → ¬ (HasPair first.now second.now text.now a b) }
{
    let (bound, rest) = read_bound(first, text)?;
    if rest.is_empty() {
        return Some((bound, None));
    }
    let (other, end) = read_bound(second, rest)?;
    if !end.is_empty() {
        return None;
    }
    Some((bound, Some(other)))
}

/// The bounds of a rule.
#[derive(Clone, Copy)]
struct Bounds {
    ge: Option<u8>,
    le: Option<u8>,
}

/// Returns the bounds that the text is, or `None` if it is not bounds.
fn read_bounds(text: &[u8]) -> Option<Bounds>
    ensures some { IfSome result (λ b. IsBoundsText text.now b.ge b.le) }
    ensures none { IsNone result → (ge le : Option ℕ) → ¬ (IsBoundsText text.now ge le) }
{
    if text.is_empty() {
        return Some(Bounds { ge: None, le: None });
    }
    if let Some((ge, le)) = read_pair(b"ge", b"le", text) {
        return Some(Bounds { ge: Some(ge), le });
    }
    let (le, ge) = read_pair(b"le", b"ge", text)?;
    Some(Bounds { ge, le: Some(le) })
}

/// Returns the rule of this action and network, whose bounds the text is, or why there is none.
fn bounded_rule(action: Action, network: IpNet, text: &[u8]) -> Result<PrefixRule, PrefixCause>
    ensures rule { IfOk result (IsRuleOf action (ip_network network) text.now) }
    ensures cause { IfErr result (IsBoundsCause (ip_network network) text.now) }
{
    let Some(bounds) = read_bounds(text) else {
        return Err(PrefixCause::BadBounds);
    };
    match PrefixRule::new(action, network, bounds.ge, bounds.le) {
        Ok(rule) => Ok(rule),
        Err(error) => Err(PrefixCause::RefusedBounds(error)),
    }
}

/// Returns the rule that the text is, or why it is not one.
pub(crate) fn read_prefix_rule(text: &[u8], grammar: Grammar) -> Result<PrefixRule, PrefixCause>
    ensures rule { IfOk result (IsPrefixText grammar text.now) }
    ensures cause { IfErr result (IsPrefixCause grammar text.now) }
{
    let (word, after) = cut_word(text);
    let Some(action) = action_of(word) else {
        return Err(PrefixCause::UnknownWord);
    };
    let (entry, bounds) = cut_word(after);
    match read_network_entry(entry, grammar) {
        Ok(network) => bounded_rule(action, network, bounds),
        Err(cause) => Err(PrefixCause::NoNetwork(cause)),
    }
}
