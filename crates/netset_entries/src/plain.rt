//! Texts that are one network or address at most, read at a glance.
ghost use Rattle.std.specs.Prelude.{◌≡◌, ◌<◌, IfSome};
ghost use Rattle.std.specs.Char.{digit_value};
ghost use Rattle.ipnet_base.specs.Address.{width};
ghost use Rattle.netset_entries.specs.NoteSteps.{AreSigns, EndsInLength, IsPlainText, byte_sign, family_if};

use ipnet_base::digits::hex_digit;

/// The length of the longest text of a prefix length, with its slash.
const LONGEST: usize = "/128".len();

/// The signs in a text of hexadecimal digits, dots, colons and slashes.
#[derive(Clone, Copy)]
struct Signs {
    has_colon: bool,
    has_slash: bool,
}

/// A family and a prefix length.
#[derive(Clone, Copy)]
pub(crate) struct PlainNetwork {
    pub(crate) len: usize,
    pub(crate) is_ipv6: bool,
}

/// The sign of a byte that is not a hexadecimal digit, a dot, a colon or a slash.
const OTHER: u8 = 1;

/// The sign of a colon.
const COLON: u8 = 2;

/// The sign of a slash.
const SLASH: u8 = 4;

// The sign of each byte, and 0 for a dot and a hexadecimal digit. A table, because most lines of a long list are tested
// here and not read.
static SIGNS: [u8; 256] = [
    1, 1, 1, 1, 1, 1, 1, 1, 1, 1, 1, 1, 1, 1, 1, 1, 1, 1, 1, 1, 1, 1, 1, 1, 1, 1, 1, 1, 1, 1, 1, 1,
    1, 1, 1, 1, 1, 1, 1, 1, 1, 1, 1, 1, 1, 1, 0, 4, 0, 0, 0, 0, 0, 0, 0, 0, 0, 0, 2, 1, 1, 1, 1, 1,
    1, 0, 0, 0, 0, 0, 0, 1, 1, 1, 1, 1, 1, 1, 1, 1, 1, 1, 1, 1, 1, 1, 1, 1, 1, 1, 1, 1, 1, 1, 1, 1,
    1, 0, 0, 0, 0, 0, 0, 1, 1, 1, 1, 1, 1, 1, 1, 1, 1, 1, 1, 1, 1, 1, 1, 1, 1, 1, 1, 1, 1, 1, 1, 1,
    1, 1, 1, 1, 1, 1, 1, 1, 1, 1, 1, 1, 1, 1, 1, 1, 1, 1, 1, 1, 1, 1, 1, 1, 1, 1, 1, 1, 1, 1, 1, 1,
    1, 1, 1, 1, 1, 1, 1, 1, 1, 1, 1, 1, 1, 1, 1, 1, 1, 1, 1, 1, 1, 1, 1, 1, 1, 1, 1, 1, 1, 1, 1, 1,
    1, 1, 1, 1, 1, 1, 1, 1, 1, 1, 1, 1, 1, 1, 1, 1, 1, 1, 1, 1, 1, 1, 1, 1, 1, 1, 1, 1, 1, 1, 1, 1,
    1, 1, 1, 1, 1, 1, 1, 1, 1, 1, 1, 1, 1, 1, 1, 1, 1, 1, 1, 1, 1, 1, 1, 1, 1, 1, 1, 1, 1, 1, 1, 1,
];

/// The sign of the byte.
#[inline]
fn sign_of(byte: u8) -> u8
    ensures { result ≡ byte_sign byte }
{
    SIGNS[byte as usize]
}

/// Returns the signs of the text, or `None` if it is empty, or has anything else than hexadecimal digits, dots, colons
/// and slashes.
fn signs_of(text: &[u8]) -> Option<Signs>
    ensures { IfSome result (AreSigns text.now) }
{
    let mut seen = 0;
    for byte in text {
        seen |= sign_of(*byte);
    }
    if text.is_empty() || seen & OTHER != 0 {
        return None;
    }
    Some(Signs {
        has_colon: seen & COLON != 0,
        has_slash: seen & SLASH != 0,
    })
}

/// The value of the byte as a decimal digit, or `None` if the byte is not one.
#[inline]
fn decimal_digit(byte: u8) -> Option<usize>
    ensures value { IfSome result (λ digit. digit ≡ digit_value byte) }
    ensures digit { IfSome result (λ digit. digit < 10) }
{
    let digit = hex_digit(byte)?;
    if digit >= 10 {
        return None;
    }
    Some(usize::from(digit))
}

/// Returns the prefix length at the end of the text, after a slash. `None` if there is none, as after a netmask.
fn last_len(text: &[u8]) -> Option<usize>
    ensures { IfSome result (EndsInLength text.now) }
{
    let count = text.len();
    if count < LONGEST {
        return None;
    }
    let ones = decimal_digit(text[count - 1])?;
    if text[count - 2] == b'/' {
        return Some(ones);
    }
    let tens = decimal_digit(text[count - 2])?;
    if text[count - 3] == b'/' && tens > 0 {
        return Some(tens * 10 + ones);
    }
    let hundreds = decimal_digit(text[count - 3])?;
    let len = hundreds * 100 + tens * 10 + ones;
    if text[count - 4] == b'/' && hundreds > 0 && len <= 128 {
        return Some(len);
    }
    None
}

/// The greatest prefix length of the family.
fn full_len(is_ipv6: bool) -> usize
    ensures { result ≡ width (family_if is_ipv6) }
{
    if is_ipv6 { 128 } else { 32 }
}

/// Returns the family and the prefix length of the network that the text is if it is an entry. An address is a network
/// with the greatest length. `None` if this is not seen at a glance.
///
/// ```text
/// 10.0.0.0/8: IPv4 and 8; fd00::1: IPv6 and 128; 10.0.0.0/255.0.0.0, 10.0.0.1-10.0.0.9 and x: None
/// ```
pub(crate) fn plain_network(text: &[u8]) -> Option<PlainNetwork>
    ensures { IfSome result (λ network. IsPlainText text.now (family_if network.is_ipv6) network.len) }
{
    let Some(signs) = signs_of(text) else {
        return None;
    };
    let is_ipv6 = signs.has_colon;
    if !signs.has_slash {
        let len = full_len(is_ipv6);
        return Some(PlainNetwork { len, is_ipv6 });
    }
    match last_len(text) {
        Some(len) => Some(PlainNetwork { len, is_ipv6 }),
        None => None,
    }
}
