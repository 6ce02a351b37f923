//! The place of an entry in a word: what may be before it and after it.
ghost use Rattle.std.specs.Prelude.{◌≡◌, ◌≤◌, ◌⊎◌, ◌↔◌, ◌-◌, List, ℕ, length, take, codes};
ghost use Rattle.std.specs.Prelude.{true, IsTrue};
ghost use Rattle.std.specs.List.{list_all, suffix_len};
ghost use Rattle.ipnet_lists.specs.Causes.{IsCutAt};
ghost use Rattle.netset_words.specs.Places as places;
ghost use Rattle.netset_words.specs.Places.{IsAfterSlash, IsAroundColon, IsAtColon, IsAtDot, IsAtSlash, IsAtUser};
ghost use Rattle.netset_words.specs.Places.{IsDestination, IsInside, IsMechanism, IsNamed, IsOfMechanism, IsPacketEnd};
ghost use Rattle.netset_words.specs.Places.{IsPlace, IsWhole};
ghost use Rattle.netset_words.specs.PlaceSteps.{Finds};
ghost use Rattle.netset_words.specs.Words.{first_gap, words_of};
ghost use Rattle.netset_words.specs.WordSteps.{word_of};

use crate::host::{
    Parts, Place, before_colon, before_last_port, before_path, before_port, cut_at, cut_at_last,
    has_signs, read_address, read_host, read_ipv4, read_whole,
};
use crate::word::{NextWord, next_word};
use ipnet::Grammar;

/// Whether the last byte of the text is ":".
fn ends_in_colon(text: &[u8]) -> bool
    ensures { result ≡ places.ends_in_colon text.now }
{
    if text.is_empty() {
        return false;
    }
    text[text.len() - 1] == b':'
}

/// Whether the byte is "." or "-".
fn is_end(byte: u8) -> bool
    ensures { result ≡ places.is_end byte }
{
    byte == b'.' || byte == b'-'
}

/// The number of bytes before the "." and "-" at the end of the text.
fn trimmed_len(text: &[u8]) -> usize
    ensures within { result ≤ length text.now }
    ensures len { result ≡ length text.now - suffix_len places.is_end text.now }
{
    let mut end = text.len();
    while end > 0 && is_end(text[end - 1]) {
        end -= 1;
    }
    end
}

/// Returns the text without one ":" at its end, or without the "." and "-" there.
fn trim(text: &[u8]) -> &[u8]
    ensures { result.now ≡ places.trimmed text.now }
{
    if ends_in_colon(text) {
        return &text[..text.len() - 1];
    }
    &text[..trimmed_len(text)]
}

/// Whether each byte may be in a name.
fn are_name_bytes(text: &[u8]) -> bool
    ensures { result ≡ list_all places.is_name_byte text.now }
{
    text.iter().all(|byte| {
        byte.is_ascii_alphanumeric()
            || *byte == b'+'
            || *byte == b'-'
            || *byte == b'.'
            || *byte == b'_'
    })
}

/// Whether the text is a name, which begins with a letter.
fn is_name(text: &[u8]) -> bool
    ensures { result ≡ places.is_name text.now }
{
    let Some((first, rest)) = text.split_first() else {
        return false;
    };
    if !first.is_ascii_alphabetic() {
        return false;
    }
    are_name_bytes(rest)
}

/// Whether the name has a "." or a "_", as names of hosts and Squid's names of ways to a server have.
fn is_host_name(name: &[u8]) -> bool
    ensures { result ≡ places.is_host_name name.now }
{
    name.iter().any(|byte| *byte == b'.' || *byte == b'_')
}

/// Whether the texts have the same bytes.
fn is_same(text: &[u8], other: &[u8]) -> bool
    ensures { IsTrue result ↔ (text.now ≡ other.now) }
{
    text == other
}

/// Whether the bytes begin with these.
fn has_front(bytes: &[u8], front: &[u8]) -> bool
    ensures { IsTrue result ↔ (take (length front.now) bytes.now ≡ front.now) }
{
    let is_short = bytes.len() < front.len();
    if is_short {
        return false;
    }
    is_same(&bytes[..front.len()], front)
}

/// Whether these bytes are between the front and the first word of the bytes.
fn is_gap(bytes: &[u8], gap: &[u8]) -> bool
    ensures { IsTrue result ↔ (first_gap (words_of bytes.now) ≡ gap.now) }
{
    // Most bytes are cheap to refuse.
    if !has_front(bytes, gap) {
        return false;
    }
    match next_word(bytes) {
        Some(word) => is_same(word.before, gap),
        None => gap.is_empty(),
    }
}

/// Reads a host after a user and "@", or an address before "@" and a port.
fn at_user(text: &[u8], grammar: Grammar) -> Option<Place<'_>>
    ensures { Finds grammar (λ place. IsCutAt 64 (IsAtUser grammar place) text.now) result }
{
    let Some(parts) = cut_at(text, b'@') else {
        return None;
    };
    if let Some(place) = read_host(parts.back, grammar) {
        return Some(place);
    }
    before_port(parts.front, parts.back, grammar)
}

/// Whether a host can be after this name and "/": "(" follows its word, or the name is of a host.
fn may_have_host(word: NextWord<'_>, name: &[u8]) -> bool
    ensures { IsTrue result ↔ (((word_of word.entry).after ≡ codes "(") ⊎ (places.is_host_name name.now ≡ true)) }
{
    if is_host_name(name) {
        return true;
    }
    is_gap(word.after, b"(")
}

/// Reads an address after a name and "/".
fn read_named<'a>(word: NextWord<'a>, parts: Parts<'a>, grammar: Grammar) -> Option<Place<'a>>
    ensures { Finds grammar (λ place. IsNamed grammar (word_of word.entry) place parts.entry.front.now
        parts.entry.back.now) result }
{
    if let Some(place) = before_colon(parts.back, grammar) {
        return Some(place);
    }
    if !may_have_host(word, parts.front) {
        return None;
    }
    read_host(parts.back, grammar)
}

/// Whether the first byte of the text is "/".
fn begins_with_slash(text: &[u8]) -> bool
    ensures { result ≡ places.begins_with_slash text.now }
{
    if text.is_empty() {
        return false;
    }
    text[0] == b'/'
}

/// Reads a host after "//" or at the start of the word, or an address after a name.
fn after_slash<'a>(word: NextWord<'a>, parts: Parts<'a>, grammar: Grammar) -> Option<Place<'a>>
    ensures { Finds grammar (λ place. IsAfterSlash grammar (word_of word.entry) place parts.entry.front.now
        parts.entry.back.now) result }
{
    if begins_with_slash(parts.back) {
        return read_host(&parts.back[1..], grammar);
    }
    if parts.front.is_empty() {
        return read_host(parts.back, grammar);
    }
    if !is_name(parts.front) {
        return None;
    }
    read_named(word, parts, grammar)
}

/// Reads an address before "/" and a port, or after "/", or else before "/" and a path.
fn at_slash<'a>(word: NextWord<'a>, text: &'a [u8], grammar: Grammar) -> Option<Place<'a>>
    ensures { Finds grammar (λ place. IsCutAt 47 (IsAtSlash grammar (word_of word.entry) place) text.now) result }
{
    let Some(parts) = cut_at(text, b'/') else {
        return None;
    };
    if let Some(place) = before_port(parts.front, parts.back, grammar) {
        return Some(place);
    }
    if let Some(place) = after_slash(word, parts, grammar) {
        return Some(place);
    }
    before_path(parts.front, parts.back, grammar)
}

/// Returns the text without "+", "-" or "~" at its front.
fn without_qualifier(text: &[u8]) -> &[u8]
    ensures { result.now ≡ places.without_qualifier text.now }
{
    match text.split_first() {
        Some((b'+' | b'-' | b'~', rest)) => rest,
        _ => text,
    }
}

/// Whether the text names a mechanism of SPF that has a network.
fn is_mechanism(name: &[u8]) -> bool
    ensures { IsTrue result ↔ IsMechanism name.now }
{
    let name = without_qualifier(name);
    name.eq_ignore_ascii_case(b"ip4") || name.eq_ignore_ascii_case(b"ip6")
}

/// Reads an entry after the name of a mechanism of SPF and ":".
fn of_mechanism<'a>(parts: Parts<'a>, grammar: Grammar) -> Option<Place<'a>>
    ensures { Finds grammar (IsOfMechanism grammar parts.entry.front.now parts.entry.back.now) result }
{
    if !is_mechanism(parts.front) {
        return None;
    }
    read_whole(parts.back, grammar)
}

/// Reads an IPv4 address before ":", or a host after a name and ":".
fn around_colon<'a>(parts: Parts<'a>, grammar: Grammar) -> Option<Place<'a>>
    ensures { Finds grammar (IsAroundColon grammar parts.entry.front.now parts.entry.back.now) result }
{
    if !is_name(parts.front) {
        return read_ipv4(parts.front, grammar);
    }
    read_host(parts.back, grammar)
}

/// Reads the entry of a mechanism of SPF, or else an IPv4 address before ":", or a host after a name and ":".
fn at_colon(text: &[u8], grammar: Grammar) -> Option<Place<'_>>
    ensures { Finds grammar (λ place. IsCutAt 58 (IsAtColon grammar place) text.now) result }
{
    let Some(parts) = cut_at(text, b':') else {
        return None;
    };
    if let Some(place) = of_mechanism(parts, grammar) {
        return Some(place);
    }
    around_colon(parts, grammar)
}

/// Whether ` > ` is before the word, and ":" is its last byte.
fn is_destination(word: NextWord<'_>) -> bool
    ensures { IsTrue result ↔ IsDestination (word_of word.entry) }
{
    if !ends_in_colon(word.text) {
        return false;
    }
    is_same(word.before, b" > ")
}

/// Whether the word is an end of a packet's way as tcpdump prints it.
fn is_packet_end(word: NextWord<'_>) -> bool
    ensures { IsTrue result ↔ IsPacketEnd (word_of word.entry) }
{
    if is_gap(word.after, b" > ") {
        return true;
    }
    is_destination(word)
}

/// Reads an address before "." and a port, as tcpdump prints them.
fn at_dot<'a>(word: NextWord<'a>, text: &'a [u8], grammar: Grammar) -> Option<Place<'a>>
    requires { text.now ≡ places.trimmed word.text.now }
    ensures { Finds grammar (IsAtDot grammar (word_of word.entry)) result }
{
    if !is_packet_end(word) {
        return None;
    }
    let Some(parts) = cut_at_last(text, b'.') else {
        return None;
    };
    read_address(parts.front, grammar)
}

/// Reads the text without its last signs, if it has them, as an entry.
fn read_trimmed<'a>(text: &[u8], body: &'a [u8], grammar: Grammar) -> Option<Place<'a>>
    requires body { body.now ≡ places.trimmed text.now }
    requires none { (place : List ℕ) → ¬ (IsWhole grammar text.now place) }
    ensures { Finds grammar (IsWhole grammar body.now) result }
{
    let is_shorter = body.len() < text.len();
    if !is_shorter {
        return None;
    }
    read_whole(body, grammar)
}

/// Reads an entry in a word that is not an entry, without its last signs either.
fn read_inside<'a>(word: NextWord<'a>, body: &'a [u8], grammar: Grammar) -> Option<Place<'a>>
    requires { body.now ≡ places.trimmed word.text.now }
    ensures { Finds grammar (IsInside grammar (word_of word.entry)) result }
{
    if let Some(place) = at_user(body, grammar) {
        return Some(place);
    }
    if let Some(place) = at_slash(word, body, grammar) {
        return Some(place);
    }
    if let Some(place) = at_colon(body, grammar) {
        return Some(place);
    }
    if let Some(place) = before_last_port(body, grammar) {
        return Some(place);
    }
    at_dot(word, body, grammar)
}

/// Returns the entry in a word and its text, or `None` if the word has no place.
///
/// ```text
/// 10.0.0.0/8.             10.0.0.0/8
/// outside:10.1.2.3/22     10.1.2.3
/// ip4:10.0.0.0/8          10.0.0.0/8
/// http://10.1.2.3:80/x    10.1.2.3
/// 10.1.2.3/index.html     10.1.2.3
/// 12:34:56                None
/// ```
pub(crate) fn read_place<'a>(word: NextWord<'a>, grammar: Grammar) -> Option<Place<'a>>
    ensures { Finds grammar (IsPlace grammar (word_of word.entry)) result }
{
    if !has_signs(word.text) {
        return None;
    }
    if let Some(place) = read_whole(word.text, grammar) {
        return Some(place);
    }
    let body = trim(word.text);
    if let Some(place) = read_trimmed(word.text, body, grammar) {
        return Some(place);
    }
    read_inside(word, body, grammar)
}
