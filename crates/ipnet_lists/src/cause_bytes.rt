//! Causes in the bytes of a text.
ghost use Rattle.std.specs.Prelude.{◌≡◌, ◌≢◌, ◌↔◌, ◌==◌, [], IsTrue};
ghost use Rattle.std.specs.Char.{is_ascii_alphabetic};
ghost use Rattle.std.specs.List.{before_first, list_all, list_any};
ghost use Rattle.ipnet_lists.specs.Causes.{Has, IsAllWord, IsDottedName, IsHostName, IsName, IsNoIpv4};
ghost use Rattle.ipnet_lists.specs.Causes.{host_part, is_dotted, is_name};

use crate::bytes::has_byte;
use crate::cause_parts::is_ipv4;

/// Whether the text has a "*".
pub(crate) fn has_star(text: &str) -> bool
    ensures { IsTrue result ↔ Has 42 text.now }
{
    has_byte(text.as_bytes(), b'*')
}

/// Whether the byte is a decimal digit or a dot.
fn is_dotted_byte(byte: u8) -> bool
    ensures { result ≡ is_dotted byte }
{
    byte.is_ascii_digit() || byte == b'.'
}

/// Whether the byte is a letter, a digit, ".", "-" or "_".
fn is_name_byte(byte: u8) -> bool
    ensures { result ≡ is_name byte }
{
    byte.is_ascii_alphabetic() || is_dotted_byte(byte) || byte == b'-' || byte == b'_'
}

/// Whether all bytes are decimal digits and dots.
fn are_dotted(text: &[u8]) -> bool
    ensures { result ≡ list_all is_dotted text.now }
{
    text.iter().all(|byte| is_dotted_byte(*byte))
}

/// Whether all bytes are letters, digits, ".", "-" and "_".
fn are_name(text: &[u8]) -> bool
    ensures { result ≡ list_all is_name text.now }
{
    text.iter().all(|byte| is_name_byte(*byte))
}

/// Whether one of the bytes is a letter.
fn has_letter(text: &[u8]) -> bool
    ensures { result ≡ list_any is_ascii_alphabetic text.now }
{
    text.iter().any(|byte| byte.is_ascii_alphabetic())
}

/// Whether the text has only letters, digits, ".", "-" and "_", with a letter among them.
fn is_name(text: &[u8]) -> bool
    ensures { IsTrue result ↔ IsName text.now }
{
    are_name(text) && has_letter(text)
}

/// Whether the text is a name with a dot.
fn is_dotted_name(text: &[u8]) -> bool
    ensures { IsTrue result ↔ IsDottedName text.now }
{
    is_name(text) && has_byte(text, b'.')
}

/// The text up to its first "/", or all of it.
fn before_slash(text: &str) -> &str
    ensures { result.now ≡ before_first (λ b. b == 47) text.now }
{
    match text.split_once('/') {
        Some((front, _)) => front,
        None => text,
    }
}

/// The text up to its first ":", or all of it.
fn before_colon(text: &str) -> &str
    ensures { result.now ≡ before_first (λ b. b == 58) text.now }
{
    match text.split_once(':') {
        Some((front, _)) => front,
        None => text,
    }
}

/// The text up to its first "/", and up to the first ":" of that.
fn host_of(text: &str) -> &str
    ensures { result.now ≡ host_part text.now }
{
    before_colon(before_slash(text))
}

/// Whether the text is a host name, or one with a dot up to a "/" or a ":".
pub(crate) fn is_host_name(text: &str) -> bool
    ensures { IsTrue result ↔ IsHostName text.now }
{
    is_name(text.as_bytes()) || is_dotted_name(host_of(text).as_bytes())
}

/// Whether the text is a word for all addresses.
pub(crate) fn is_all_word(text: &str) -> bool
    ensures { IsTrue result ↔ IsAllWord text.now }
{
    text.eq_ignore_ascii_case("any")
        || text.eq_ignore_ascii_case("all")
        || text.eq_ignore_ascii_case("default")
}

/// Whether the text up to its first "/" has only digits and dots, and is not an IPv4 address.
pub(crate) fn is_no_ipv4(text: &str) -> bool
    ensures { IsTrue result ↔ IsNoIpv4 text.now }
{
    let front = before_slash(text);
    if front.is_empty() || !are_dotted(front.as_bytes()) {
        return false;
    }
    !is_ipv4(front)
}
