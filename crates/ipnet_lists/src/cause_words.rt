//! Causes in the first two words of a text.
ghost use Rattle.std.specs.Prelude.{◌≡◌, ◌↔◌, ◌-◌, IsTrue};
ghost use Rattle.std.specs.Net.Addr.{ipv4_bits};
ghost use Rattle.ipnet_base.specs.Address.{IPv4};
ghost use Rattle.ipnet_lists.specs.Causes.{HasMaskWord, HasTwoEntries, IsMaskNumber, IsMaskText, IsNetmaskNumber};
ghost use Rattle.ipnet_lists.specs.Causes.{IsOfFamily, IsSomeEntry};

use crate::cause_parts::{is_entry, is_ipv4};
use crate::entry::parse_address;
use crate::word::{leading_word, second_word};
use ipnet::{Grammar, IpAddr, Ipv4Addr, ipv4_mask_to_prefix};
use std::str;

/// Whether the word is an entry of the legacy grammar.
pub(crate) fn is_entry_word(word: &[u8]) -> bool
    ensures { IsTrue result ↔ IsSomeEntry word.now }
{
    match str::from_utf8(word) {
        Ok(word) => is_entry(word),
        Err(_) => false,
    }
}

/// Whether the word is an IPv4 address of the legacy grammar.
fn is_ipv4_word(word: &[u8]) -> bool
    ensures { IsTrue result ↔ IsOfFamily IPv4 word.now }
{
    match str::from_utf8(word) {
        Ok(word) => is_ipv4(word),
        Err(_) => false,
    }
}

/// Whether the address is a netmask: ones followed by zeros.
///
/// ```text
/// 255.0.0.0, 0.0.0.0, 255.255.255.255:  true
/// 0.255.255.255, 255.0.255.0:           false
/// ```
pub fn is_netmask(mask: Ipv4Addr) -> bool
    ensures { IsTrue result ↔ IsNetmaskNumber (ipv4_bits mask) }
{
    match ipv4_mask_to_prefix(mask) {
        Ok(_) => true,
        Err(_) => false,
    }
}

/// The address of all other bits.
fn complement_of(mask: Ipv4Addr) -> Ipv4Addr
    ensures { ipv4_bits result ≡ 4294967295 - ipv4_bits mask }
{
    Ipv4Addr::from_bits(u32::MAX - mask.to_bits())
}

/// Whether the address is a netmask or a wildcard mask.
fn is_mask(mask: Ipv4Addr) -> bool
    ensures { IsTrue result ↔ IsMaskNumber (ipv4_bits mask) }
{
    if is_netmask(mask) {
        return true;
    }
    is_netmask(complement_of(mask))
}

/// Whether the text is a netmask or a wildcard mask.
fn is_mask_text(text: &str) -> bool
    ensures { IsTrue result ↔ IsMaskText text.now }
{
    match parse_address(text, Grammar::Legacy) {
        Some(IpAddr::V4(mask)) => is_mask(mask),
        Some(IpAddr::V6(_)) => false,
        None => false,
    }
}

/// Whether the word is a netmask or a wildcard mask.
fn is_mask_word(word: &[u8]) -> bool
    ensures { IsTrue result ↔ IsMaskText word.now }
{
    match str::from_utf8(word) {
        Ok(word) => is_mask_text(word),
        Err(_) => false,
    }
}

/// Returns whether the first word is an IPv4 address, and the second a netmask or a wildcard mask.
///
/// ```text
/// "10.0.0.0 255.0.0.0":  true
/// "10.0.0.0/8 ours":     false
/// ```
pub fn has_mask_word(text: &str) -> bool
    ensures { IsTrue result ↔ HasMaskWord text.now }
{
    let text = text.as_bytes();
    is_ipv4_word(leading_word(text)) && is_mask_word(second_word(text))
}

/// Whether the first two words are entries.
pub(crate) fn has_two_entries(text: &str) -> bool
    ensures { IsTrue result ↔ HasTwoEntries text.now }
{
    let text = text.as_bytes();
    is_entry_word(leading_word(text)) && is_entry_word(second_word(text))
}
