//! The fields of a line: numbers, AS numbers and networks.
ghost use Rattle.std.specs.Prelude.{◌≡◌, ◌∷◌, ◌↔◌, ℕ, List, Some, IfOk, IfErr, IfSome, IsNone};
ghost use Rattle.ipnet.specs.NetworkOf.{ip_network};
ghost use Rattle.ipnet_lists.specs.Entries.{IsNetworkOrMasked};
ghost use Rattle.netset_lib.specs.NetworkEntries.{IsArgumentCause};
ghost use Rattle.netset_origins.specs.Fields.{first_field, after_field, IsNumber, IsAsn};

use ipnet::{Grammar, IpNet};
use ipnet_lists::{Entry, cause_of, read_text};
use memchr::memchr;
use netset_lib::{ArgumentCause, read_number};
use std::str;

/// Returns the bytes before the first comma, and the bytes after it. If there is no comma, the first part is the whole
/// text and the second part is empty.
pub(crate) fn cut_field(text: &[u8]) -> (&[u8], &[u8])
    ensures field { result.0.now ≡ first_field text.now }
    ensures rest { result.1.now ≡ after_field text.now }
{
    match memchr(b',', text) {
        Some(end) => (&text[..end], &text[end + 1..]),
        None => (text, &text[text.len()..]),
    }
}

/// Returns the number up to 4294967295 that the bytes are, in decimal without leading zeros.
pub(crate) fn number_of(text: &[u8]) -> Option<u32>
    ensures { (n : ℕ) → (result ≡ Some n) ↔ IsNumber text.now n }
{
    match str::from_utf8(text) {
        Ok(digits) => read_number(digits),
        Err(_) => None,
    }
}

/// Returns the bytes after the letters `AS`, if the text begins with them.
fn after_letters(text: &[u8]) -> Option<&[u8]>
    ensures some { IfSome result (λ digits. text.now ≡ 65 ∷ 83 ∷ digits.now) }
    ensures none { IsNone result → (digits : List ℕ) → ¬ (text.now ≡ 65 ∷ 83 ∷ digits) }
{
    if text.len() < 2 || text[0] != b'A' || text[1] != b'S' {
        return None;
    }
    Some(&text[2..])
}

/// Returns the AS number that the bytes are, with the letters `AS` before it or without.
pub(crate) fn asn_of(text: &[u8]) -> Option<u32>
    ensures { (n : ℕ) → (result ≡ Some n) ↔ IsAsn text.now n }
{
    match after_letters(text) {
        Some(digits) => number_of(digits),
        None => number_of(text),
    }
}

/// Returns the network that the bytes are, with its host bits, or why they are not one. An address without a prefix
/// length is refused.
pub(crate) fn network_of(text: &[u8], grammar: Grammar) -> Result<IpNet, ArgumentCause>
    ensures network { IfOk result (λ n. IsNetworkOrMasked grammar text.now (ip_network n)) }
    ensures cause { IfErr result (IsArgumentCause grammar text.now) }
{
    match read_text(text, grammar) {
        Some(found) => match found.entry {
            Entry::Network(network) => Ok(network),
            Entry::Address(_) => Err(ArgumentCause::Address),
            Entry::Ipv4Range(_, _) => Err(ArgumentCause::Range),
            Entry::Ipv6Range(_, _) => Err(ArgumentCause::Range),
        },
        None => Err(ArgumentCause::NoEntry(cause_of(text, grammar))),
    }
}
