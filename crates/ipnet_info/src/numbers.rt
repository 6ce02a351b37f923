//! An address as a number, in decimal and in hexadecimal, and an IPv6 address in full.
ghost use Rattle.std.specs.Prelude.{◌≡◌, ◌*◌, ◌/◌, ◌%◌, ◌^◌, ◌<◌, ◌≤◌, [], ◌∷◌, ◌++◌, OnOk, IfOk};
ghost use Rattle.std.specs.Prelude.{string_bytes, decimal};
ghost use Rattle.std.specs.Char.{digit_char};
ghost use Rattle.std.specs.Net.Addr.{ipv6_bits};
ghost use Rattle.ipnet_base.specs.Address.{ip_address};
ghost use Rattle.ipnet_info.specs.Digits.{hex_digit_at, hex_digits, separator, full_groups};
ghost use Rattle.ipnet_info.specs.Digits as digits;

use ipnet::{IpAddr, Ipv6Addr};
use std::alloc::{AllocError, Global};

/// Returns the number of the address.
pub(crate) fn number_of(address: &IpAddr) -> u128
    ensures { result ≡ (ip_address address.now).number }
{
    match address {
        IpAddr::V4(address) => u128::from(address.to_bits()),
        IpAddr::V6(address) => address.to_bits(),
    }
}

/// Returns how many hexadecimal digits the address has.
fn digit_count(address: &IpAddr) -> u32
    ensures digits { result ≡ digits.digit_count (ip_address address.now).family }
    ensures few { result ≤ 32 }
{
    match address {
        IpAddr::V4(_) => 8,
        IpAddr::V6(_) => 32,
    }
}

/// Returns the digit in hexadecimal, in lower case.
fn digit(value: u8) -> &'static str
    requires { value < 16 }
    ensures { result.now ≡ digit_char value ∷ [] }
{
    match value {
        0 => "0",
        1 => "1",
        2 => "2",
        3 => "3",
        4 => "4",
        5 => "5",
        6 => "6",
        7 => "7",
        8 => "8",
        9 => "9",
        10 => "a",
        11 => "b",
        12 => "c",
        13 => "d",
        14 => "e",
        _ => "f",
    }
}

/// Appends the digit of the number at this place, counted from the lowest. Fails only if memory runs out.
pub(crate) fn push_digit(text: &mut String, number: u128, place: u32) -> Result<(), AllocError>
    requires { place < 32 }
    ensures { OnOk result (string_bytes text.new ≡ string_bytes text.old ++ hex_digit_at number place ∷ []) }
{
    text.push_str(digit((number >> (4 * place) & 15) as u8))
}

/// Appends the digits at the lowest places, the highest place first. Fails only if memory runs out.
fn push_digits(text: &mut String, number: u128, count: u32) -> Result<(), AllocError>
    requires { count ≤ 32 }
    ensures { OnOk result (string_bytes text.new ≡ string_bytes text.old ++ hex_digits count number) }
{
    for place in (0..count).rev() {
        push_digit(text, number, place)?;
    }
    Ok(())
}

/// Returns the number of the address in decimal: its octets read as one number. Fails only if memory runs out.
///
/// ```text
/// 10.0.0.1: 167772161; ::1: 1; 2001:db8::: 42540766411282592856903984951653826560
/// ```
pub fn decimal_text(alloc: Global, address: &IpAddr) -> Result<String, AllocError>
    ensures { IfOk result (λ text. string_bytes text ≡ decimal (ip_address address.now).number) }
{
    let number = number_of(address);
    format!(in alloc; "{number}")
}

/// Returns the number of the address in hexadecimal, with all its digits: 8 for IPv4 and 32 for IPv6, in lower case,
/// after `0x`. Fails only if memory runs out.
///
/// ```text
/// 10.0.0.1: 0x0a000001; ::1: 0x00000000000000000000000000000001
/// ```
pub fn hexadecimal_text(alloc: Global, address: &IpAddr) -> Result<String, AllocError>
    ensures { IfOk result (λ text. string_bytes text ≡ digits.hexadecimal_text (ip_address address.now)) }
{
    let mut text = String::new(alloc);
    text.push_str("0x")?;
    push_digits(&mut text, number_of(address), digit_count(address))?;
    Ok(text)
}

/// Appends ":" if groups are left. Fails only if memory runs out.
fn push_separator(text: &mut String, rest: u32) -> Result<(), AllocError>
    ensures { OnOk result (string_bytes text.new ≡ string_bytes text.old ++ separator rest) }
{
    match rest {
        0 => Ok(()),
        _ => text.push_str(":"),
    }
}

/// Returns the IPv6 address in full: eight groups of four hexadecimal digits in lower case, joined by `:`. Fails only
/// if memory runs out.
///
/// ```text
/// 2001:db8::1: 2001:0db8:0000:0000:0000:0000:0000:0001
/// ```
pub fn written_out(alloc: Global, address: Ipv6Addr) -> Result<String, AllocError>
    ensures { IfOk result (λ text. string_bytes text ≡ full_groups 8 (ipv6_bits address)) }
{
    let number = address.to_bits();
    let mut text = String::new(alloc);
    for rest in (0..8u32).rev() {
        push_digits(&mut text, number >> (16 * rest), 4)?;
        push_separator(&mut text, rest)?;
    }
    Ok(text)
}
