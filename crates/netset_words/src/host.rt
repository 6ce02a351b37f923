//! The address in a text that a port or a path may follow.
ghost use Rattle.std.specs.Prelude.{◌≡◌, ◌↔◌, ◌==◌, ◌||◌, List, ℕ, false, length, IfSome, IfNone, IsTrue, MatchOption};
ghost use Rattle.std.specs.List.{count_by, list_any, position_or_len};
ghost use Rattle.ipnet_base.specs.Address.{ip_address};
ghost use Rattle.ipnet_lists.specs.Causes.{IsCutAt};
ghost use Rattle.ipnet_lists.specs.Entries.{IsAddressText};
ghost use Rattle.netset_words.specs.Places as places;
ghost use Rattle.netset_words.specs.Places.{AreLastParts, IsBefore, IsBeforeLastPort, IsBeforePath, IsBeforePort};
ghost use Rattle.netset_words.specs.Places.{IsHost, IsOnlyAddress, IsOnlyIpv4, IsPort, IsSomeAddress, IsWhole};
ghost use Rattle.netset_words.specs.PlaceSteps.{AreParts, Finds, HasFewColons, HasFewSigns, HasNoPair};

use crate::path::{have_colons, is_path};
use ipnet::{Grammar, IpAddr};
use ipnet_lists::{Entry, are_digits, parse_address, read_text};
use memchr::{memchr, memchr2, memrchr};
use std::str;

/// An entry in a word, and its text.
#[derive(Clone, Copy)]
pub(crate) struct Place<'a> {
    pub(crate) text: &'a [u8],
    pub(crate) entry: Entry,
}

/// The bytes before a sign of a text, and the bytes after it.
#[derive(Clone, Copy)]
pub(crate) struct Parts<'a> {
    pub(crate) front: &'a [u8],
    pub(crate) back: &'a [u8],
}

/// The number of these signs in the text.
#[inline]
fn sign_count(text: &[u8], sign: u8) -> usize
    ensures { result ≡ count_by (λ b. b == sign) text.now }
{
    text.iter().filter(|byte| **byte == sign).count()
}

/// Whether one of the bytes is "." or ":". Most words have none.
#[inline]
fn has_separator(text: &[u8]) -> bool
    ensures { result ≡ list_any (λ b. (b == 46) || (b == 58)) text.now }
{
    text.iter().any(|byte| *byte == b'.' || *byte == b':')
}

/// Whether the text has "::".
fn has_pair(text: &[u8]) -> bool
    ensures { result ≡ false → HasNoPair text.now }
{
    for index in 1..text.len() {
        if text[index - 1] == b':' && text[index] == b':' {
            return true;
        }
    }
    false
}

/// Whether the text has seven ":" or "::", as each IPv6 address has that does not end in an IPv4 address.
#[inline]
fn has_colons(text: &[u8]) -> bool
    ensures { result ≡ false → HasFewColons text.now }
{
    let count = sign_count(text, b':');
    if count < 2 {
        return false;
    }
    if count > 6 {
        return true;
    }
    has_pair(text)
}

/// Whether the text has three ".", seven ":" or "::", as each address has. The time `12:34:56` has none of these.
#[inline]
pub(crate) fn has_signs(text: &[u8]) -> bool
    ensures { result ≡ false → HasFewSigns text.now }
{
    if !has_separator(text) {
        return false;
    }
    if sign_count(text, b'.') > 2 {
        return true;
    }
    has_colons(text)
}

/// Returns the parts of the text before and after the first such sign.
pub(crate) fn cut_at(text: &[u8], sign: u8) -> Option<Parts<'_>>
    ensures { MatchOption result (position_or_len (λ c. c == sign) text.now ≡ length text.now)
        (λ p. AreParts sign text.now p.front.now p.back.now) }
{
    match memchr(sign, text) {
        Some(index) => Some(Parts {
            front: &text[..index],
            back: &text[index + 1..],
        }),
        None => None,
    }
}

/// Returns the parts of the text before and after the last such sign.
pub(crate) fn cut_at_last(text: &[u8], sign: u8) -> Option<Parts<'_>>
    ensures { MatchOption result ((front back : List ℕ) → ¬ (AreLastParts sign text.now front back))
        (λ p. AreLastParts sign text.now p.front.now p.back.now) }
{
    match memrchr(sign, text) {
        Some(index) => Some(Parts {
            front: &text[..index],
            back: &text[index + 1..],
        }),
        None => None,
    }
}

/// Reads the whole text as an entry.
pub(crate) fn read_whole(text: &[u8], grammar: Grammar) -> Option<Place<'_>>
    ensures { Finds grammar (IsWhole grammar text.now) result }
{
    match read_text(text, grammar) {
        Some(found) => Some(Place {
            text,
            entry: found.entry,
        }),
        None => None,
    }
}

/// Returns the address that the text is.
fn address_of(text: &[u8], grammar: Grammar) -> Option<IpAddr>
    ensures some { IfSome result (λ a. IsAddressText grammar text.now (ip_address a)) }
    ensures none { IfNone result (¬ (IsSomeAddress grammar text.now)) }
{
    if !has_signs(text) {
        return None;
    }
    match str::from_utf8(text) {
        Ok(text) => parse_address(text, grammar),
        Err(_) => None,
    }
}

/// Reads the whole text as an address.
pub(crate) fn read_address(text: &[u8], grammar: Grammar) -> Option<Place<'_>>
    ensures { Finds grammar (IsOnlyAddress grammar text.now) result }
{
    match address_of(text, grammar) {
        Some(address) => Some(Place {
            text,
            entry: Entry::Address(address),
        }),
        None => None,
    }
}

/// Reads the whole text as an IPv4 address.
pub(crate) fn read_ipv4(text: &[u8], grammar: Grammar) -> Option<Place<'_>>
    ensures { Finds grammar (IsOnlyIpv4 grammar text.now) result }
{
    match address_of(text, grammar) {
        Some(IpAddr::V4(address)) => Some(Place {
            text,
            entry: Entry::Address(IpAddr::V4(address)),
        }),
        Some(IpAddr::V6(_)) => None,
        None => None,
    }
}

/// Whether the text is one decimal digit or more.
fn is_port(text: &[u8]) -> bool
    ensures { IsTrue result ↔ IsPort text.now }
{
    !text.is_empty() && are_digits(text)
}

/// Reads an address before a sign and a port.
pub(crate) fn before_port<'a>(front: &'a [u8], back: &[u8], grammar: Grammar) -> Option<Place<'a>>
    ensures { Finds grammar (λ place. IsBeforePort grammar place front.now back.now) result }
{
    if !is_port(back) {
        return None;
    }
    read_address(front, grammar)
}

/// Reads an address before "/" and a path.
pub(crate) fn before_path<'a>(front: &'a [u8], back: &[u8], grammar: Grammar) -> Option<Place<'a>>
    ensures { Finds grammar (λ place. IsBeforePath grammar place front.now back.now) result }
{
    let Some(place) = read_address(front, grammar) else {
        return None;
    };
    if !is_path(back) {
        return None;
    }
    if have_colons(front, back) {
        return None;
    }
    Some(place)
}

/// Reads an address before "/" and a port.
fn before_slash_port(text: &[u8], grammar: Grammar) -> Option<Place<'_>>
    ensures { Finds grammar (λ place. IsCutAt 47 (IsBeforePort grammar place) text.now) result }
{
    match cut_at(text, b'/') {
        Some(parts) => before_port(parts.front, parts.back, grammar),
        None => None,
    }
}

/// Reads an IPv4 address before ":" and anything.
pub(crate) fn before_colon(text: &[u8], grammar: Grammar) -> Option<Place<'_>>
    ensures { Finds grammar (λ place. IsCutAt 58 (IsBefore grammar place) text.now) result }
{
    match cut_at(text, b':') {
        Some(parts) => read_ipv4(parts.front, grammar),
        None => None,
    }
}

/// Reads an address before the last ":" and a port.
pub(crate) fn before_last_port(text: &[u8], grammar: Grammar) -> Option<Place<'_>>
    ensures { Finds grammar (IsBeforeLastPort grammar text.now) result }
{
    let Some(parts) = cut_at_last(text, b':') else {
        return None;
    };
    before_port(parts.front, parts.back, grammar)
}

/// Returns the text up to its first ":" or "/".
fn before_sign(text: &[u8]) -> &[u8]
    ensures { result.now ≡ places.before_sign text.now }
{
    match memchr2(b':', b'/', text) {
        Some(end) => &text[..end],
        None => text,
    }
}

/// Reads an address, or an IPv4 address before ":" or "/" and anything, or an address before a port.
pub(crate) fn read_host(text: &[u8], grammar: Grammar) -> Option<Place<'_>>
    ensures { Finds grammar (IsHost grammar text.now) result }
{
    if let Some(place) = read_address(text, grammar) {
        return Some(place);
    }
    if let Some(place) = read_ipv4(before_sign(text), grammar) {
        return Some(place);
    }
    if let Some(place) = before_slash_port(text, grammar) {
        return Some(place);
    }
    before_last_port(text, grammar)
}
