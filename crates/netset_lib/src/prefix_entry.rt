//! A line of a prefix list: a rule, with or without the words of a router before it.
ghost use Rattle.std.specs.Prelude.{◌≡◌, ◌↔◌, ℕ, Some, IfOk, IfErr, IfSome, IsNone, IsTrue};
ghost use Rattle.ipnet_base.specs.Address.{Family};
ghost use Rattle.ipnet.specs.NetworkOf.{ip_network};
ghost use Rattle.ipnet.specs.Numerals.{IsDecimal};
ghost use Rattle.ipnet.specs.declared.parser.Grammar.TheVariants.{Strict};
ghost use Rattle.netset_lib.specs.PrefixEntries.{HasHeading, IsHeaded, IsSequence, HasNoNumber, family_word};
ghost use Rattle.netset_lib.specs.PrefixEntries.{IsPrefixEntry, IsEntryCause, IsHeadedCause, IsHeadedEntry};
ghost use Rattle.netset_lib.specs.PrefixEntryOf.{line_family, entry_of};

use crate::length;
use crate::prefix_line::{PrefixCause, read_prefix_rule};
use ipnet::{Grammar, IpNet};
use ipnet_lists::cut_word;
use ipnet_rules::PrefixRule;
use std::str;

/// The family of a router's line.
#[derive(Clone, Copy)]
enum RouterFamily {
    Ipv4,
    Ipv6,
}

/// A rule, with the name of its list and its sequence number if its line has them.
#[derive(Clone, Copy)]
pub(crate) struct NamedRule<'a> {
    pub(crate) name: Option<&'a [u8]>,
    pub(crate) number: Option<u32>,
    pub(crate) rule: PrefixRule,
}

/// The family and the name of a router's line, and what follows them.
#[derive(Clone, Copy)]
struct Heading<'a> {
    family: RouterFamily,
    name: &'a [u8],
    rest: &'a [u8],
}

/// Returns the family of a line that begins with this word.
fn read_family(word: &[u8]) -> Option<RouterFamily>
    ensures some { IfSome result (λ f. word.now ≡ family_word (line_family f)) }
    ensures none { IsNone result → (f : Family) → ¬ (word.now ≡ family_word f) }
{
    if word == b"ip".as_slice() {
        Some(RouterFamily::Ipv4)
    } else if word == b"ipv6".as_slice() {
        Some(RouterFamily::Ipv6)
    } else {
        None
    }
}

/// Returns the family and the name with which the line begins, and what follows.
fn read_heading(text: &[u8]) -> Option<Heading<'_>>
    ensures some { IfSome result (λ h. HasHeading (line_family h.family) text.now h.name.now h.rest.now) }
    ensures none { IsNone result → ¬ (IsHeaded text.now) }
{
    let (word, after) = cut_word(text);
    let family = read_family(word)?;
    let (second, after) = cut_word(after);
    if second != b"prefix-list".as_slice() {
        return None;
    }
    let (name, rest) = cut_word(after);
    Some(Heading { family, name, rest })
}

/// Returns the number up to 4294967295 that the bytes are, in decimal without leading zeros.
fn read_number(bytes: &[u8]) -> Option<u32>
    ensures { (n : ℕ) → (result ≡ Some n) ↔ IsDecimal Strict 10 4294967295 bytes.now n }
{
    match str::from_utf8(bytes) {
        Ok(digits) => length::read_number(digits),
        Err(_) => None,
    }
}

/// Returns the number that follows `seq`, or none without `seq`, and what follows. `None` if no number follows `seq`.
fn read_sequence(text: &[u8]) -> Option<(Option<u32>, &[u8])>
    ensures some { IfSome result (λ s. IsSequence text.now s.0 s.1.now) }
    ensures none { IsNone result → HasNoNumber text.now }
{
    let (word, after) = cut_word(text);
    if word != b"seq".as_slice() {
        return Some((None, text));
    }
    let (digits, rest) = cut_word(after);
    let number = read_number(digits)?;
    Some((Some(number), rest))
}

/// Returns whether the network is of the family.
fn is_of_family(network: &IpNet, family: RouterFamily) -> bool
    ensures { IsTrue result ↔ ((ip_network network.now).family ≡ line_family family) }
{
    match (network, family) {
        (IpNet::V4(_), RouterFamily::Ipv4) | (IpNet::V6(_), RouterFamily::Ipv6) => true,
        (IpNet::V4(_), RouterFamily::Ipv6) | (IpNet::V6(_), RouterFamily::Ipv4) => false,
    }
}

/// Returns the entry of a router's line, or why it is none.
fn headed_entry<'a>(heading: Heading<'a>, grammar: Grammar) -> Result<NamedRule<'a>, PrefixCause>
    ensures entry { IfOk result (λ e.
        IsHeadedEntry grammar (line_family heading.entry.family) heading.entry.name.now heading.entry.rest.now
        (entry_of e)) }
    ensures cause { IfErr result
        (IsHeadedCause grammar (line_family heading.entry.family) heading.entry.name.now heading.entry.rest.now) }
{
    if heading.name.is_empty() {
        return Err(PrefixCause::NoName);
    }
    let Some((number, rest)) = read_sequence(heading.rest) else {
        return Err(PrefixCause::NoNumber);
    };
    let rule = read_prefix_rule(rest, grammar)?;
    if !is_of_family(&rule.network(), heading.family) {
        return Err(PrefixCause::OtherFamily);
    }
    Ok(NamedRule {
        name: Some(heading.name),
        number,
        rule,
    })
}

/// Returns the entry that the text is, or why it is not one.
pub(crate) fn read_prefix_entry<'a>(
    text: &'a [u8],
    grammar: Grammar,
) -> Result<NamedRule<'a>, PrefixCause>
    ensures entry { IfOk result (λ e. IsPrefixEntry grammar text.now (entry_of e)) }
    ensures cause { IfErr result (IsEntryCause grammar text.now) }
{
    match read_heading(text) {
        Some(heading) => headed_entry(heading, grammar),
        None => {
            let rule = read_prefix_rule(text, grammar)?;
            Ok(NamedRule {
                name: None,
                number: None,
                rule,
            })
        }
    }
}
