//! Hexadecimal digits in texts, for the readers of this crate and of those above it.
ghost use Rattle.std.specs.Prelude.{◌≡◌, ◌<◌, ◌≤◌, min, IfSome, IfNone};
ghost use Rattle.std.specs.Char.{digit_value};

// The value of each byte as a hexadecimal digit, and 16 if it is not one. A table, because a processor cannot predict a
// branch on the kind of a digit.
static HEX_DIGITS: [u8; 256] = [
    16, 16, 16, 16, 16, 16, 16, 16, 16, 16, 16, 16, 16, 16, 16, 16, 16, 16, 16, 16, 16, 16, 16, 16,
    16, 16, 16, 16, 16, 16, 16, 16, 16, 16, 16, 16, 16, 16, 16, 16, 16, 16, 16, 16, 16, 16, 16, 16,
    0, 1, 2, 3, 4, 5, 6, 7, 8, 9, 16, 16, 16, 16, 16, 16, 16, 10, 11, 12, 13, 14, 15, 16, 16, 16,
    16, 16, 16, 16, 16, 16, 16, 16, 16, 16, 16, 16, 16, 16, 16, 16, 16, 16, 16, 16, 16, 16, 16, 10,
    11, 12, 13, 14, 15, 16, 16, 16, 16, 16, 16, 16, 16, 16, 16, 16, 16, 16, 16, 16, 16, 16, 16, 16,
    16, 16, 16, 16, 16, 16, 16, 16, 16, 16, 16, 16, 16, 16, 16, 16, 16, 16, 16, 16, 16, 16, 16, 16,
    16, 16, 16, 16, 16, 16, 16, 16, 16, 16, 16, 16, 16, 16, 16, 16, 16, 16, 16, 16, 16, 16, 16, 16,
    16, 16, 16, 16, 16, 16, 16, 16, 16, 16, 16, 16, 16, 16, 16, 16, 16, 16, 16, 16, 16, 16, 16, 16,
    16, 16, 16, 16, 16, 16, 16, 16, 16, 16, 16, 16, 16, 16, 16, 16, 16, 16, 16, 16, 16, 16, 16, 16,
    16, 16, 16, 16, 16, 16, 16, 16, 16, 16, 16, 16, 16, 16, 16, 16, 16, 16, 16, 16, 16, 16, 16, 16,
    16, 16, 16, 16, 16, 16, 16, 16, 16, 16, 16, 16, 16, 16,
];

/// The value of the byte as a hexadecimal digit, or 16 if the byte is not one.
#[inline]
fn hex_value(byte: u8) -> u8
    ensures { result ≡ min 16 (digit_value byte) }
{
    HEX_DIGITS[byte as usize]
}

/// Returns the value of the byte as a hexadecimal digit, or `None` if the byte is not one.
///
/// ```text
/// b'9'    9
/// b'f'    15
/// b'F'    15
/// b'g'    None
/// ```
#[inline]
pub fn hex_digit(byte: u8) -> Option<u16>
    ensures none { IfNone result (16 ≤ digit_value byte) }
    ensures value { IfSome result (λ digit. digit ≡ digit_value byte) }
    ensures digit { IfSome result (λ digit. digit < 16) }
{
    let value = hex_value(byte);
    if value < 16 {
        Some(u16::from(value))
    } else {
        None
    }
}
