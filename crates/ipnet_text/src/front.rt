//! The network of a line at the front of bytes, read before the end of the line is known.
ghost use Rattle.std.specs.Prelude.{◌≡◌, ◌<◌, ◌≤◌, ℕ, List, [], ◌∷◌, ◌++◌, length, take, slice_index, IfSome};
ghost use Rattle.std.specs.Char.{digit_value};
ghost use Rattle.std.specs.Net.Addr.{ipv4_octets};
ghost use Rattle.ipnet.specs.AddressTexts.{IsIpv4AddressText};
ghost use Rattle.ipnet.specs.Numerals.{IsOctet, IsGroup};
ghost use Rattle.ipnet.specs.NetworkOf.{ipv4_network, ipv6_network, ip_network};
ghost use Rattle.ipnet.specs.NetworkTexts.{IsIpv4NetworkText, IsIpv6NetworkText, IsNetworkText};
ghost use Rattle.ipnet.specs.declared.parser.Grammar.TheVariants.{Strict};
ghost use Rattle.ipnet_text.specs.Fronts.{IsFirstLine, IsHead};

use ipnet::{IpNet, Ipv4Net, Ipv6Net};
use ipnet_base::digits::hex_digit;
use std::net::{Ipv4Addr, Ipv6Addr};

/// The length of the longest IPv4 line with its "\n", and one byte more: the prefix length is read like an octet, which
/// has up to three digits.
const LONGEST_IPV4: usize = "255.255.255.255/32\n".len() + 1;

/// The length of the longest IPv6 line that is read here, with its "\n", and one byte more.
const LONGEST_IPV6: usize = "ffff:ffff:ffff:ffff::/128\n".len() + 1;

/// The network of a first line, and the length of the line without its "\n".
#[derive(Clone, Copy)]
pub struct FrontLine {
    /// The network that the line is the text of.
    pub network: IpNet,
    /// The number of bytes before the "\n".
    pub len: usize,
}

/// The value of the byte as a decimal digit, or a number of at least 10 if it is not one.
#[inline]
fn digit(byte: u8) -> u8
    ensures { result < 10 → result ≡ digit_value byte }
{
    byte.wrapping_sub(b'0')
}

/// The octet at the front, and how many digits it has. No octet has a leading zero: of "07" the octet is the 0.
#[inline]
fn octet_at(bytes: &[u8]) -> Option<(u8, usize)>
    requires { 3 ≤ length bytes.now }
    ensures octet { IfSome result (λ octet. IsOctet Strict (take octet.1 bytes.now) octet.0) }
    ensures few { IfSome result (λ octet. octet.1 ≤ 3) }
{
    let first = digit(bytes[0]);
    if first >= 10 {
        return None;
    }
    let second = digit(bytes[1]);
    if first == 0 || second >= 10 {
        return Some((first, 1));
    }
    let third = digit(bytes[2]);
    if third >= 10 {
        return Some((first * 10 + second, 2));
    }
    let number = u16::from(first) * 100 + u16::from(second) * 10 + u16::from(third);
    if number > 255 {
        return None;
    }
    Some((number as u8, 3))
}

/// The octet at the front that ends before the byte `end`, and how many digits it has. No octet has a leading zero.
#[inline]
fn octet_before(bytes: &[u8], end: u8) -> Option<(u8, usize)>
    requires { 4 ≤ length bytes.now }
    ensures octet { IfSome result (λ octet. IsOctet Strict (take octet.1 bytes.now) octet.0) }
    ensures few { IfSome result (λ octet. octet.1 ≤ 3) }
    ensures end { IfSome result (λ octet. slice_index bytes.now octet.1 ≡ end) }
{
    let (octet, len) = octet_at(bytes)?;
    if bytes[len] != end {
        return None;
    }
    Some((octet, len))
}

/// Returns the IPv4 address at the front of the bytes in the strict grammar, and the length of its text. What comes
/// after it does not matter.
///
/// ```text
/// "10.0.0.1-10.0.0.9\n": 10.0.0.1, and 8
/// "010.0.0.1/8 and more", "fd00::1 and more bytes": None
/// ```
#[inline]
pub fn ipv4_addr_at(bytes: &[u8]) -> Option<(Ipv4Addr, usize)>
    requires { 16 ≤ length bytes.now }
    ensures address { IfSome result (λ addr.
        IsIpv4AddressText Strict (take addr.1 bytes.now) (ipv4_octets addr.0)) }
    ensures some { IfSome result (λ addr. 0 < addr.1) }
    ensures few { IfSome result (λ addr. addr.1 ≤ 15) }
{
    let (a, first) = octet_before(bytes, b'.')?;
    let second_on = &bytes[first + 1..];
    let (b, second) = octet_before(second_on, b'.')?;
    let third_on = &second_on[second + 1..];
    let (c, third) = octet_before(third_on, b'.')?;
    let fourth_on = &third_on[third + 1..];
    let (d, fourth) = octet_at(fourth_on)?;
    let address = Ipv4Addr::new(a, b, c, d);
    Some((address, first + second + third + fourth + 3))
}

/// Returns the IPv4 network of the address and of the prefix length at the front of the bytes, which ends the line, and
/// the number of digits of the prefix length.
///
/// ```text
/// 10.0.0.9 and "8\n" and more: 10.0.0.9/8, and 1
/// 10.0.0.9 and "33\n" and more, "08\n" and more, "8 \n" and more: None
/// ```
#[inline]
pub fn ipv4_network_after(address: Ipv4Addr, bytes: &[u8]) -> Option<(Ipv4Net, usize)>
    requires { 4 ≤ length bytes.now }
    ensures network { IfSome result (λ line. (text : List ℕ) → IsIpv4AddressText Strict text (ipv4_octets address)
        → IsIpv4NetworkText Strict (text ++ 47 ∷ take line.1 bytes.now) (ipv4_network line.0)) }
    ensures newline { IfSome result (λ line. slice_index bytes.now line.1 ≡ 10) }
    ensures few { IfSome result (λ line. line.1 ≤ 3) }
{
    let (prefix_len, digits) = octet_before(bytes, b'\n')?;
    if prefix_len > 32 {
        return None;
    }
    let network = Ipv4Net::new_assert(address, prefix_len);
    Some((network, digits))
}

/// The IPv4 network of the first line, and the length of the line without its "\n".
#[inline]
fn ipv4_line(bytes: &[u8]) -> Option<(Ipv4Net, usize)>
    ensures { IfSome result (λ line. IsFirstLine (IsIpv4NetworkText Strict) bytes.now line.1 (ipv4_network line.0)) }
{
    if bytes.len() < LONGEST_IPV4 {
        return None;
    }
    let (address, len) = ipv4_addr_at(bytes)?;
    if bytes[len] != b'/' {
        return None;
    }
    let (network, digits) = ipv4_network_after(address, &bytes[len + 1..])?;
    Some((network, len + 1 + digits))
}

/// The group at the front that ends before a ":", and how many digits it has.
#[inline]
fn group_before(bytes: &[u8]) -> Option<(u16, usize)>
    requires { 5 ≤ length bytes.now }
    ensures group { IfSome result (λ group. IsGroup (take group.1 bytes.now) group.0) }
    ensures few { IfSome result (λ group. group.1 ≤ 4) }
    ensures end { IfSome result (λ group. slice_index bytes.now group.1 ≡ 58) }
{
    let one = hex_digit(bytes[0])?;
    if bytes[1] == b':' {
        return Some((one, 1));
    }
    let second = hex_digit(bytes[1])?;
    let two = one * 16 + second;
    if bytes[2] == b':' {
        return Some((two, 2));
    }
    let third = hex_digit(bytes[2])?;
    let three = two * 16 + third;
    if bytes[3] == b':' {
        return Some((three, 3));
    }
    let fourth = hex_digit(bytes[3])?;
    if bytes[4] != b':' {
        return None;
    }
    Some((three * 16 + fourth, 4))
}

/// The groups before "::", one to four with zeros for the others, and the length of their text.
#[inline]
fn head_before(bytes: &[u8]) -> Option<(u16, u16, u16, u16, usize)>
    requires { 21 ≤ length bytes.now }
    ensures head { IfSome result (λ head.
        IsHead bytes.now (head.0 ∷ head.1 ∷ head.2 ∷ head.3 ∷ 0 ∷ 0 ∷ 0 ∷ 0 ∷ []) head.4) }
    ensures few { IfSome result (λ head. head.4 ≤ 19) }
{
    let (a, first) = group_before(bytes)?;
    let second_on = &bytes[first + 1..];
    if second_on[0] == b':' {
        return Some((a, 0, 0, 0, first));
    }
    let (b, second) = group_before(second_on)?;
    let third_on = &second_on[second + 1..];
    if third_on[0] == b':' {
        return Some((a, b, 0, 0, first + (1 + second)));
    }
    let (c, third) = group_before(third_on)?;
    let fourth_on = &third_on[third + 1..];
    if fourth_on[0] == b':' {
        return Some((a, b, c, 0, first + (1 + (second + (1 + third)))));
    }
    let (d, fourth) = group_before(fourth_on)?;
    let fifth_on = &fourth_on[fourth + 1..];
    if fifth_on[0] != b':' {
        return None;
    }
    Some((
        a,
        b,
        c,
        d,
        first + (1 + (second + (1 + (third + (1 + fourth))))),
    ))
}

/// The IPv6 network of the first line, and the length of the line without its "\n". The line must be one to four
/// groups, "::", "/" and a prefix length: other lines are not read here.
#[inline]
fn ipv6_line(bytes: &[u8]) -> Option<(Ipv6Net, usize)>
    ensures { IfSome result (λ line. IsFirstLine (IsIpv6NetworkText Strict) bytes.now line.1 (ipv6_network line.0)) }
{
    if bytes.len() < LONGEST_IPV6 {
        return None;
    }
    let (a, b, c, d, len) = head_before(bytes)?;
    let after = &bytes[len + 2..];
    if after[0] != b'/' {
        return None;
    }
    let (prefix_len, digits) = octet_before(&after[1..], b'\n')?;
    if prefix_len > 128 {
        return None;
    }
    let network = Ipv6Net::new_assert(Ipv6Addr::new(a, b, c, d, 0, 0, 0, 0), prefix_len);
    Some((network, len + digits + 3))
}

/// The network of the first line in the strict grammar, and the length of the line without its "\n".
///
/// `None` says nothing about the line: it may be the text of a network. IPv4 networks are read, and IPv6 networks with
/// one to four groups before "::" and none after it, but only if 20 or 27 bytes are there.
///
/// ```text
/// "10.0.0.0/8\n" and nine bytes or more: the network, and 10
/// "10.0.0.0/8\n" and no more, or "::/0\n" and more, or "010.0.0.0/8\n" and more: None
/// ```
#[inline]
pub fn front_network(bytes: &[u8]) -> Option<FrontLine>
    ensures { IfSome result (λ line. IsFirstLine (IsNetworkText Strict) bytes.now line.len (ip_network line.network)) }
{
    if let Some((network, len)) = ipv4_line(bytes) {
        return Some(FrontLine {
            network: IpNet::V4(network),
            len,
        });
    }
    let (network, len) = ipv6_line(bytes)?;
    Some(FrontLine {
        network: IpNet::V6(network),
        len,
    })
}
