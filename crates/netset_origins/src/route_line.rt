//! A line of a list of routes: a network, and the AS number that announced it.
ghost use Rattle.std.specs.Prelude.{◌≡◌, ◌↔◌, true, IsTrue, IfOk, IfErr, IfSome, IsNone, All, Option, ℕ};
ghost use Rattle.std.specs.Char.{is_ascii_digit};
ghost use Rattle.std.specs.List.{list_all, list_any};
ghost use Rattle.netset_origins.specs.RouteLines.{is_set_byte, IsAsSet, IsOrigin, network_part, origin_part};
ghost use Rattle.netset_origins.specs.RouteLines.{IsRouteText, IsRouteCause};
ghost use Rattle.netset_origins.specs.RouteSteps.{route_in};

use crate::field::{asn_of, cut_field, network_of};
use ipnet::{Grammar, IpNet};
use ipnet_lists::cut_word;
use netset_lib::ArgumentCause;

/// Why a line is not a route.
///
/// ```text
/// 192.0.2.0 64496           NoNetwork(Address)
/// 192.0.2.0/33 64496        NoNetwork(NoEntry(Some(LengthAbove32)))
/// 192.0.2.0/24              NoOrigin
/// 192.0.2.0/24 64496 i      NoOrigin
/// ```
#[derive(Clone, Copy, Debug, PartialEq, Eq, Drop)]
pub enum RouteCause {
    /// The line does not begin with a network that has a prefix length.
    NoNetwork(ArgumentCause),
    /// The text after the network is not an AS number or a set of AS numbers.
    NoOrigin,
}

/// A route.
#[derive(Clone, Copy)]
pub(crate) struct RouteLine {
    /// Its network, perhaps with host bits.
    pub(crate) network: IpNet,
    /// The AS number that announced it, or `None` if that is not a single one.
    pub(crate) origin: Option<u32>,
}

/// Whether the byte is one of those that a set of AS numbers has between its braces.
fn is_set_byte(byte: u8) -> bool
    ensures { result ≡ is_set_byte byte }
{
    byte.is_ascii_digit() || byte == b',' || byte.is_ascii_whitespace()
}

/// Whether all bytes are such bytes.
fn are_set_bytes(text: &[u8]) -> bool
    ensures { result ≡ list_all is_set_byte text.now }
{
    text.iter().all(|byte| is_set_byte(*byte))
}

/// Whether one of the bytes is a digit.
fn has_digit(text: &[u8]) -> bool
    ensures { result ≡ list_any is_ascii_digit text.now }
{
    text.iter().any(|byte| byte.is_ascii_digit())
}

/// Whether the text may be between the braces of a set of AS numbers.
fn are_members(text: &[u8]) -> bool
    ensures { IsTrue result ↔ ((list_all is_set_byte text.now ≡ true) × (list_any is_ascii_digit text.now ≡ true)) }
{
    are_set_bytes(text) && has_digit(text)
}

/// Whether the text is a set of AS numbers in braces.
fn is_as_set(text: &[u8]) -> bool
    ensures { IsTrue result ↔ IsAsSet text.now }
{
    if text.len() < 2 || text[0] != b'{' {
        return false;
    }
    let last = text.len() - 1;
    if text[last] != b'}' {
        return false;
    }
    are_members(&text[1..last])
}

/// Returns the origin that the text is: an AS number, or `None` within if it is a set of AS numbers.
fn read_origin(text: &[u8]) -> Option<Option<u32>>
    ensures some { IfSome result (IsOrigin text.now) }
    ensures none { IsNone result → (origin : Option ℕ) → ¬ (IsOrigin text.now origin) }
{
    match asn_of(text) {
        Some(asn) => Some(Some(asn)),
        None => { if is_as_set(text) { Some(None) } else { None } }
    }
}

/// Returns the part of the line that has to be the network, and the part that has to be the origin.
fn cut_route(text: &[u8]) -> (&[u8], &[u8])
    ensures network { result.0.now ≡ network_part text.now }
    ensures origin { result.1.now ≡ origin_part text.now }
{
    let (word, rest) = cut_word(text);
    if rest.is_empty() {
        cut_field(text)
    } else {
        (word, rest)
    }
}

/// Returns the route that the text is, or why it is not one.
pub(crate) fn read_route(text: &[u8], grammar: Grammar) -> Result<RouteLine, RouteCause>
    ensures route { IfOk result (λ r. IsRouteText grammar text.now (route_in text.now r)) }
    ensures cause { IfErr result (IsRouteCause grammar text.now) }
{
    let (network, origin) = cut_route(text);
    match network_of(network, grammar) {
        Ok(network) => match read_origin(origin) {
            Some(origin) => Ok(RouteLine { network, origin }),
            None => Err(RouteCause::NoOrigin),
        },
        Err(cause) => Err(RouteCause::NoNetwork(cause)),
    }
}
