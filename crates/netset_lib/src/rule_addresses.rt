//! The addresses of a rule: `any`, `host` and an address, an IPv4 address and a wildcard mask, or an entry.
ghost use Rattle.std.specs.Prelude.{◌≡◌, ◌≢◌, ◌↔◌, IfSome, IsNone, IsTrue, codes};
ghost use Rattle.std.specs.Net.Addr.{ipv4_bits};
ghost use Rattle.ipnet_base.specs.Address.{Address, ip_address, ipv4_address};
ghost use Rattle.ipnet_base.specs.Network.{Network};
ghost use Rattle.ipnet_base.specs.Ranges.{AddressRange};
ghost use Rattle.ipnet.specs.NetworkOf.{ipv4_network};
ghost use Rattle.ipnet_lists.specs.Entries.{IsAddressText, IsIpv4Text, ReadsAs};
ghost use Rattle.ipnet_lists.specs.EntryOf.{entry_range};
ghost use Rattle.ipnet_rules.specs.Rules.{IsOneOf};
ghost use Rattle.ipnet_sets.specs.SetRanges.{IsInRange};
ghost use Rattle.ipnet_lists.specs.Words.{leading_word};
ghost use Rattle.netset_lib.specs.RuleAddresses.{AreTwoAddresses, HasSecondAddress, IsEitherMask, IsTwoWordText};
ghost use Rattle.netset_lib.specs.RuleAddresses.{IsWildcardedBy};
ghost use Rattle.netset_lib.specs.RuleAddresses.{NamesAddresses, NamesNone, WriteWildcard};
ghost use Rattle.netset_lib.specs.RuleSteps.{IsAddressesCause, IsMaskCause};

use crate::rule_cause::RuleCause;
use ipnet::{Grammar, IpAddr, IpNet, Ipv4Addr, Ipv4Net};
use ipnet_lists::{Entry, cause_of, cut_word, first_blank, is_netmask, parse_address, read_text};
use ipnet_rules::Addresses;
use std::str;

/// The word for every address.
const ANY: &[u8] = b"any";

/// The word before one address.
const HOST: &[u8] = b"host";

/// Returns the address that the word is.
fn read_address(word: &[u8], grammar: Grammar) -> Option<IpAddr>
    ensures { ReadsAs ip_address (IsAddressText grammar) word.now result }
{
    match str::from_utf8(word) {
        Ok(word) => parse_address(word, grammar),
        Err(_) => None,
    }
}

/// Returns the IPv4 address that the word is.
fn read_ipv4(word: &[u8], grammar: Grammar) -> Option<Ipv4Addr>
    ensures some { IfSome result (λ a. IsIpv4Text grammar word.now (ipv4_address a)) }
    ensures none { IsNone result → (x : Address) → ¬ (IsIpv4Text grammar word.now x) }
{
    match read_address(word, grammar) {
        Some(IpAddr::V4(address)) => Some(address),
        Some(IpAddr::V6(_)) => None,
        None => None,
    }
}

/// Returns whether the mask can be a netmask and a wildcard mask.
fn is_either_mask(mask: Ipv4Addr) -> bool
    ensures { IsTrue result ↔ IsEitherMask (ipv4_bits mask) }
{
    mask.to_bits() == 0 || mask.to_bits() == u32::MAX
}

/// Returns the network of the address with this wildcard mask, which is the complement of its netmask, if it is a
/// wildcard mask and not also a netmask.
fn wildcard_network(address: Ipv4Addr, mask: Ipv4Addr) -> Option<Ipv4Net>
    ensures some { IfSome result (λ n. IsWildcardedBy (ipv4_address address) (ipv4_address mask) (ipv4_network n)) }
    ensures none { IsNone result → (n : Network) → ¬ (IsWildcardedBy (ipv4_address address) (ipv4_address mask) n) }
{
    if is_either_mask(mask) {
        return None;
    }
    let netmask = Ipv4Addr::from_bits(u32::MAX - mask.to_bits());
    match Ipv4Net::with_netmask(address, netmask) {
        Ok(network) => Some(network),
        Err(_) => None,
    }
}

/// Returns the network that the two words write, as an address and a wildcard mask.
fn read_wildcard(address: &[u8], mask: &[u8], grammar: Grammar) -> Option<Ipv4Net>
    ensures some { IfSome result (λ n. WriteWildcard grammar address.now mask.now (ipv4_network n)) }
    ensures none { IsNone result → (n : Network) → ¬ (WriteWildcard grammar address.now mask.now n) }
{
    let Some(ip) = read_ipv4(address, grammar) else {
        return None;
    };
    let Some(wildcard) = read_ipv4(mask, grammar) else {
        return None;
    };
    wildcard_network(ip, wildcard)
}

/// Returns the address that the two words write, as `host` and an address.
fn read_host(word: &[u8], address: &[u8], grammar: Grammar) -> Option<IpAddr>
    ensures some { IfSome result (λ a. (word.now ≡ codes "host") × IsAddressText grammar address.now (ip_address a)) }
    ensures none { IsNone result → (x : Address) → word.now ≡ codes "host" → ¬ (IsAddressText grammar address.now x) }
{
    if word != HOST {
        return None;
    }
    match read_address(address, grammar) {
        Some(address) => Some(address),
        None => None,
    }
}

/// Returns the addresses of two words, as an entry: `host` and an address, or an address and a wildcard mask.
fn read_two_words(text: &[u8], grammar: Grammar) -> Option<Entry>
    ensures some { IfSome result (λ e. IsTwoWordText grammar text.now (entry_range e)) }
    ensures none { IsNone result → (range : AddressRange) → ¬ (IsTwoWordText grammar text.now range) }
{
    let (word, rest) = cut_word(text);
    if let Some(address) = read_host(word, rest, grammar) {
        return Some(Entry::Address(address));
    }
    match read_wildcard(word, rest, grammar) {
        Some(network) => Some(Entry::Network(IpNet::V4(network))),
        None => None,
    }
}

/// Returns the addresses of the entry.
pub(crate) fn addresses_of(entry: Entry) -> Addresses
    ensures { (x : Address) → IsOneOf result x ↔ IsInRange (entry_range entry) x }
{
    let (first, last) = entry.ends();
    Addresses::Range(first, last)
}

/// Returns the addresses that the text names, or `None` if it names none.
pub(crate) fn read_addresses(text: &[u8], grammar: Grammar) -> Option<Addresses>
    ensures some { IfSome result (λ a. NamesAddresses grammar text.now (IsOneOf a)) }
    ensures none { IsNone result → NamesNone grammar text.now }
{
    if text == ANY {
        return Some(Addresses::Any);
    }
    if let Some(found) = read_text(text, grammar) {
        return Some(addresses_of(found.entry));
    }
    match read_two_words(text, grammar) {
        Some(entry) => Some(addresses_of(entry)),
        None => None,
    }
}

/// Returns why the mask after an address is not a wildcard mask that is accepted.
fn mask_cause(mask: Ipv4Addr) -> RuleCause
    ensures { IsMaskCause (ipv4_bits mask) result }
{
    if is_either_mask(mask) {
        RuleCause::EitherMask
    } else if is_netmask(mask) {
        RuleCause::Netmask
    } else {
        RuleCause::NoMask
    }
}

/// Returns the second of two IPv4 addresses, or `None` if the text is not two IPv4 addresses.
fn second_address(text: &[u8], grammar: Grammar) -> Option<Ipv4Addr>
    ensures some { IfSome result (λ a. HasSecondAddress grammar text.now (λ number. number ≡ ipv4_bits a)) }
    ensures none { IsNone result → ¬ (AreTwoAddresses grammar text.now) }
{
    let (word, rest) = cut_word(text);
    match read_ipv4(word, grammar) {
        Some(_) => read_ipv4(rest, grammar),
        None => None,
    }
}

/// Returns why a text of several words names no addresses.
fn words_cause(text: &[u8], grammar: Grammar) -> RuleCause
    requires { leading_word text.now ≢ text.now }
    ensures { IsAddressesCause grammar text.now result }
{
    let (word, _) = cut_word(text);
    if word == HOST {
        return RuleCause::NoHost;
    }
    match second_address(text, grammar) {
        Some(mask) => mask_cause(mask),
        None => RuleCause::TwoEntries,
    }
}

/// Returns why the text names no addresses.
pub(crate) fn addresses_cause(text: &[u8], grammar: Grammar) -> RuleCause
    requires { NamesNone grammar text.now }
    ensures { IsAddressesCause grammar text.now result }
{
    if text.is_empty() {
        RuleCause::NoEntry
    } else if first_blank(text) < text.len() {
        words_cause(text, grammar)
    } else if text == HOST {
        RuleCause::NoHost
    } else {
        RuleCause::BadEntry(cause_of(text, grammar))
    }
}
