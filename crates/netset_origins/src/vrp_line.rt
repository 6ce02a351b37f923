//! A line of a list of validated ROA payloads (VRPs): an AS number, a network and the greatest prefix length.
ghost use Rattle.std.specs.Prelude.{◌≡◌, ◌↔◌, Some, IsTrue, IfOk, IfErr};
ghost use Rattle.ipnet.specs.NetworkOf.{ip_network};
ghost use Rattle.netset_origins.specs.VrpLines.{IsHeader, IsVrpOf, IsLengthError, IsVrpText, IsVrpCause};
ghost use Rattle.netset_origins.specs.VrpLines.{IsLengthCause};

use crate::field::{asn_of, cut_field, network_of, number_of};
use ipnet::{Grammar, IpNet};
use ipnet_lists::has_byte;
use ipnet_origins::{Payload, PayloadError};
use netset_lib::ArgumentCause;

/// Why a line is not a VRP. If several causes are true of a line, it is the first of them.
///
/// ```text
/// AS64496,192.0.2.0/24,24,x,0,0   TooManyFields
/// AS64496,192.0.2.0/24,24,x;y     Semicolon
/// ASx,192.0.2.0/24,24             NoAsn
/// AS64496,192.0.2.0,24            NoNetwork(Address)
/// AS64496,192.0.2.0/24,x          NoMaxLen
/// AS64496,192.0.2.0/24            NoMaxLen
/// AS64496,192.0.2.0/24,23         RefusedMaxLen(MaxLenBelowPrefixLen)
/// AS64496,192.0.2.0/24,33         RefusedMaxLen(MaxLenAboveWidth)
/// ```
#[derive(Clone, Debug, PartialEq, Eq, Drop)]
pub enum VrpCause {
    /// The line has more than five fields.
    TooManyFields,
    /// A `;` is in the fourth or the fifth field. Nobody could say whether it begins a comment.
    Semicolon,
    /// The first field is not an AS number.
    NoAsn,
    /// The second field is not a network with a prefix length.
    NoNetwork(ArgumentCause),
    /// The third field is not a number.
    NoMaxLen,
    /// The greatest prefix length is refused for the network.
    RefusedMaxLen(PayloadError),
}

/// Returns whether the line is the header that validators write before the VRPs.
pub(crate) fn is_header(text: &[u8]) -> bool
    ensures { IsTrue result ↔ IsHeader text.now }
{
    text == b"ASN,IP Prefix,Max Length,Trust Anchor".as_slice()
        || text == b"ASN,IP Prefix,Max Length,Trust Anchor,Expires".as_slice()
}

/// Returns the VRP of this AS number, network and greatest prefix length.
fn vrp_of(asn: u32, network: IpNet, max_len: u32) -> Result<Payload, PayloadError>
    ensures vrp { IfOk result (λ vrp. IsVrpOf asn (ip_network network) vrp × (vrp.max_len ≡ max_len)) }
    ensures error { IfErr result (IsLengthError (ip_network network) max_len) }
{
    match u8::try_from(max_len) {
        Ok(max_len) => Payload::new(network, max_len, asn),
        Err(_) => Err(PayloadError::MaxLenAboveWidth),
    }
}

/// Returns the VRP of these, or why there is none. `max_len` is `None` if there is no number.
pub(crate) fn vrp_with(asn: u32, network: IpNet, max_len: Option<u32>) -> Result<Payload, VrpCause>
    ensures vrp { IfOk result (λ vrp. IsVrpOf asn (ip_network network) vrp × (max_len ≡ Some vrp.max_len)) }
    ensures cause { IfErr result (IsLengthCause (ip_network network) (λ n. max_len ≡ Some n)) }
{
    let Some(max_len) = max_len else {
        return Err(VrpCause::NoMaxLen);
    };
    match vrp_of(asn, network, max_len) {
        Ok(vrp) => Ok(vrp),
        Err(error) => Err(VrpCause::RefusedMaxLen(error)),
    }
}

/// Returns the VRP that the text is, or why it is not one.
pub(crate) fn read_vrp(text: &[u8], grammar: Grammar) -> Result<Payload, VrpCause>
    ensures vrp { IfOk result (IsVrpText grammar text.now) }
    ensures cause { IfErr result (IsVrpCause grammar text.now) }
{
    let (asn, rest) = cut_field(text);
    let (network, rest) = cut_field(rest);
    let (max_len, free) = cut_field(rest);
    let (_, last) = cut_field(free);
    if has_byte(last, b',') {
        return Err(VrpCause::TooManyFields);
    }
    if has_byte(free, b';') {
        return Err(VrpCause::Semicolon);
    }
    let Some(asn) = asn_of(asn) else {
        return Err(VrpCause::NoAsn);
    };
    match network_of(network, grammar) {
        Ok(network) => vrp_with(asn, network, number_of(max_len)),
        Err(cause) => Err(VrpCause::NoNetwork(cause)),
    }
}
