//! Causes in the parts of a text before and after a byte.
ghost use Rattle.std.specs.Prelude.{◌≡◌, ◌<◌, ◌↔◌, [], IsTrue};
ghost use Rattle.ipnet_base.specs.Address.{IPv4, IPv6, ip_address};
ghost use Rattle.ipnet_lists.specs.Entries.{ReadsAs, after_blanks, before_blanks};
ghost use Rattle.ipnet_lists.specs.Causes.{AreAddresses, AreApart, AreBackwards, AreEntries, AreIpv4};
ghost use Rattle.ipnet_lists.specs.Causes.{IsCutAt, IsEnclosed, IsExcluded, IsOfFamily, IsSomeEntry, IsUnfinished};
ghost use Rattle.ipnet_lists.specs.Causes.{IsTooLong, WritesAbove};
ghost use Rattle.ipnet_lists.specs.CauseSteps.{ArePartsSo, WriteEnds, ends_of};

use crate::bytes::are_digits;
use crate::entry::{parse_address, read_entry};
use ipnet::{Grammar, IpAddr};

/// What the parts of a text before and after a byte are.
#[derive(Clone, Copy, Debug, PartialEq, Eq, Drop)]
pub(crate) enum Parts {
    /// An IPv4 address and a prefix length above 32.
    LongIpv4,
    /// An IPv6 address and a prefix length above 128.
    LongIpv6,
    /// Two addresses of one family, the last of which comes before the first.
    Backwards,
    /// Two addresses of two families.
    Apart,
    /// Two entries.
    Entries,
    /// Two IPv4 addresses.
    TwoIpv4,
    /// An entry, and anything.
    EntryFirst,
    /// An IPv4 address, and anything.
    Ipv4First,
    /// An IPv6 address, and anything.
    Ipv6First,
    /// Nothing, and an entry before the first "]".
    Bracketed,
    /// Nothing, and an entry before the first quotation mark.
    Quoted,
    /// Nothing, and an entry.
    Excluded,
    /// An entry, and nothing.
    Unfinished,
}

/// Whether the whole text is an entry of the legacy grammar.
///
/// ```text
/// "10.0.0.0/8", "10.0.0.1 - 10.0.0.9" and "010.0.0.1" are entries; "10.0.0.0/33" and "list.txt" are not
/// ```
pub fn is_entry(text: &str) -> bool
    ensures { IsTrue result ↔ IsSomeEntry text.now }
{
    match read_entry(text, Grammar::Legacy) {
        Some(_) => true,
        None => false,
    }
}

/// Whether the text is an IPv4 address of the legacy grammar.
pub(crate) fn is_ipv4(text: &str) -> bool
    ensures { IsTrue result ↔ IsOfFamily IPv4 text.now }
{
    match parse_address(text, Grammar::Legacy) {
        Some(IpAddr::V4(_)) => true,
        Some(IpAddr::V6(_)) => false,
        None => false,
    }
}

/// Whether the text is an IPv6 address of the legacy grammar.
fn is_ipv6(text: &str) -> bool
    ensures { IsTrue result ↔ IsOfFamily IPv6 text.now }
{
    match parse_address(text, Grammar::Legacy) {
        Some(IpAddr::V4(_)) => false,
        Some(IpAddr::V6(_)) => true,
        None => false,
    }
}

/// Whether the text is only decimal digits, of a number above this one.
fn writes_above(most: u32, text: &str) -> bool
    ensures { IsTrue result ↔ WritesAbove most text.now }
{
    if text.is_empty() || !are_digits(text.as_bytes()) {
        return false;
    }
    match text.parse::<u32>() {
        Ok(number) => number > most,
        Err(_) => true,
    }
}

/// Whether the parts are an IPv4 address and a prefix length above 32.
fn are_long_ipv4(address: &str, length: &str) -> bool
    ensures { IsTrue result ↔ IsTooLong IPv4 address.now length.now }
{
    is_ipv4(address) && writes_above(32, length)
}

/// Whether the parts are an IPv6 address and a prefix length above 128.
fn are_long_ipv6(address: &str, length: &str) -> bool
    ensures { IsTrue result ↔ IsTooLong IPv6 address.now length.now }
{
    is_ipv6(address) && writes_above(128, length)
}

/// The two addresses that the parts are, without the blanks between them.
fn read_ends(front: &str, back: &str) -> Option<(IpAddr, IpAddr)>
    ensures { ReadsAs ends_of (WriteEnds front.now) back.now result }
{
    let Some(first) = parse_address(front.trim_ascii_end(), Grammar::Legacy) else {
        return None;
    };
    let Some(last) = parse_address(back.trim_ascii_start(), Grammar::Legacy) else {
        return None;
    };
    Some((first, last))
}

/// Whether the addresses are of one family, and the last comes before the first.
fn is_backwards(first: IpAddr, last: IpAddr) -> bool
    ensures { IsTrue result ↔ AreBackwards (ip_address first) (ip_address last) }
{
    match (first, last) {
        (IpAddr::V4(first), IpAddr::V4(last)) => last.to_bits() < first.to_bits(),
        (IpAddr::V6(first), IpAddr::V6(last)) => last.to_bits() < first.to_bits(),
        (IpAddr::V4(_), IpAddr::V6(_)) | (IpAddr::V6(_), IpAddr::V4(_)) => false,
    }
}

/// Whether the addresses are of two families.
fn is_apart(first: IpAddr, last: IpAddr) -> bool
    ensures { IsTrue result ↔ AreApart (ip_address first) (ip_address last) }
{
    match (first, last) {
        (IpAddr::V4(_), IpAddr::V4(_)) | (IpAddr::V6(_), IpAddr::V6(_)) => false,
        (IpAddr::V4(_), IpAddr::V6(_)) | (IpAddr::V6(_), IpAddr::V4(_)) => true,
    }
}

/// Whether the parts are two addresses of one family, the last of which comes before the first.
fn are_backwards(front: &str, back: &str) -> bool
    ensures { IsTrue result ↔ AreAddresses AreBackwards front.now back.now }
{
    match read_ends(front, back) {
        Some((first, last)) => is_backwards(first, last),
        None => false,
    }
}

/// Whether the parts are addresses of two families.
fn are_apart(front: &str, back: &str) -> bool
    ensures { IsTrue result ↔ AreAddresses AreApart front.now back.now }
{
    match read_ends(front, back) {
        Some((first, last)) => is_apart(first, last),
        None => false,
    }
}

/// Whether the text without the blanks at its end is an entry.
fn is_entry_before_blanks(text: &str) -> bool
    ensures { IsTrue result ↔ IsSomeEntry (before_blanks text.now) }
{
    is_entry(text.trim_ascii_end())
}

/// Whether the text without the blanks at its start is an entry.
fn is_entry_after_blanks(text: &str) -> bool
    ensures { IsTrue result ↔ IsSomeEntry (after_blanks text.now) }
{
    is_entry(text.trim_ascii_start())
}

/// Whether the parts are two entries.
fn are_entries(front: &str, back: &str) -> bool
    ensures { IsTrue result ↔ AreEntries front.now back.now }
{
    is_entry_before_blanks(front) && is_entry_after_blanks(back)
}

/// Whether the parts are two IPv4 addresses.
fn are_ipv4(front: &str, back: &str) -> bool
    ensures { IsTrue result ↔ AreIpv4 front.now back.now }
{
    is_ipv4(front) && is_ipv4(back)
}

/// Whether the front is empty, and the back has an entry before its first byte `close`.
fn are_enclosed(front: &str, back: &str, close: char) -> bool
    requires { close < 128 }
    ensures { IsTrue result ↔ IsEnclosed close front.now back.now }
{
    if !front.is_empty() {
        return false;
    }
    match back.split_once(close) {
        Some((inner, _)) => is_entry(inner),
        None => false,
    }
}

/// Whether the front is empty, and the back is an entry.
fn are_excluded(front: &str, back: &str) -> bool
    ensures { IsTrue result ↔ IsExcluded front.now back.now }
{
    if !front.is_empty() {
        return false;
    }
    is_entry_after_blanks(back)
}

/// Whether the text has nothing but blanks.
fn has_only_blanks(text: &str) -> bool
    ensures { IsTrue result ↔ (after_blanks text.now ≡ []) }
{
    text.trim_ascii_start().is_empty()
}

/// Whether the front is an entry, and the back has nothing but blanks.
fn are_unfinished(front: &str, back: &str) -> bool
    ensures { IsTrue result ↔ IsUnfinished front.now back.now }
{
    is_entry_before_blanks(front) && has_only_blanks(back)
}

/// Whether the parts are so.
fn are_parts_so(front: &str, back: &str, parts: Parts) -> bool
    ensures { IsTrue result ↔ ArePartsSo parts front.now back.now }
{
    match parts {
        Parts::LongIpv4 => are_long_ipv4(front, back),
        Parts::LongIpv6 => are_long_ipv6(front, back),
        Parts::Backwards => are_backwards(front, back),
        Parts::Apart => are_apart(front, back),
        Parts::Entries => are_entries(front, back),
        Parts::TwoIpv4 => are_ipv4(front, back),
        Parts::EntryFirst => is_entry(front),
        Parts::Ipv4First => is_ipv4(front),
        Parts::Ipv6First => is_ipv6(front),
        Parts::Bracketed => are_enclosed(front, back, ']'),
        Parts::Quoted => are_enclosed(front, back, '"'),
        Parts::Excluded => are_excluded(front, back),
        Parts::Unfinished => are_unfinished(front, back),
    }
}

/// Whether the text has this byte, and its parts before and after the first one are so.
pub(crate) fn is_cut_so(text: &str, sign: char, parts: Parts) -> bool
    requires { sign < 128 }
    ensures { IsTrue result ↔ IsCutAt sign (ArePartsSo parts) text.now }
{
    match text.split_once(sign) {
        Some((front, back)) => are_parts_so(front, back, parts),
        None => false,
    }
}
