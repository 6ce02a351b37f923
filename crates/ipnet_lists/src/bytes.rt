//! The bytes of a text.
ghost use Rattle.std.specs.Prelude.{◌≡◌, ◌==◌};
ghost use Rattle.std.specs.Char.{is_ascii_digit};
ghost use Rattle.std.specs.List.{list_all, list_any};

use memchr::memchr;

/// Whether one of the bytes is this one.
///
/// ```text
/// b"10.0.0.1" and b'.': true
/// ```
pub fn has_byte(text: &[u8], wanted: u8) -> bool
    ensures { result ≡ list_any (λ b. b == wanted) text.now }
{
    match memchr(wanted, text) {
        Some(_) => true,
        None => false,
    }
}

/// Whether all bytes are decimal digits.
///
/// ```text
/// b"080" and b"": true; b"8a": false
/// ```
pub fn are_digits(text: &[u8]) -> bool
    ensures { result ≡ list_all is_ascii_digit text.now }
{
    text.iter().all(|byte| byte.is_ascii_digit())
}
