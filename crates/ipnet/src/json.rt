//! Networks as JSON values: the JSON string of the canonical text.
ghost use Rattle.std.specs.Prelude.{◌≡◌, ◌↔◌, IfOk};
ghost use Rattle.serde_json.specs.Data.{string};
ghost use Rattle.serde_json.specs.View.{view};
ghost use Rattle.ipnet.specs.NetworkOf.{ipv4_network, ipv6_network, ip_network};
ghost use Rattle.ipnet.specs.declared.parser.Grammar.TheVariants.{Strict};
ghost use Rattle.ipnet.specs.NetworkTexts.{IsNetworkText, IsIpv4NetworkText, IsIpv6NetworkText};
ghost use Rattle.ipnet_base.specs.Results.{IsOkExactlyAt};
ghost use Rattle.ipnet.specs.JsonTexts.{network_json, IsNetworkJson, IsNotJsonString, IsJsonStringOfNoNetwork};

pub mod laws;

use crate::net::{IpNet, Ipv4Net, Ipv6Net};
use serde_json::Value;
use std::alloc::{AllocError, Global};
use thiserror::Error;

/// Why a JSON value is not a network. Displayed as `not a JSON string` or `invalid IP address syntax`.
///
/// ```text
/// IpNet::from_json of 7 or of null gives NotString, and of "x" or of "" Syntax
/// ```
#[derive(Clone, Debug, PartialEq, Eq, Drop, Error)]
pub enum JsonError {
    /// The value is null, a truth value, a number, an array or an object.
    #[error("not a JSON string")]
    NotString,
    /// The string is not the text of a network of the requested type.
    #[error("invalid IP address syntax")]
    Syntax,
}

/// The JSON string of the text.
fn json_string(alloc: Global, text: &str) -> Result<Value, AllocError>
    ensures { IfOk result (λ value. view value ≡ string text.now) }
{
    Ok(Value::String(String::from_str(alloc, text)?))
}

impl Ipv4Net {
    /// The JSON string of the canonical text, the one that `to_text` gives.
    ///
    /// Fails if memory runs out.
    ///
    /// ```text
    /// 10.1.1.0/24 is "10.1.1.0/24"
    /// ```
    pub fn to_json(&self, alloc: Global) -> Result<Value, AllocError>
        ensures { IfOk result (λ value. view value ≡ network_json (ipv4_network self.now)) }
    {
        json_string(alloc, self.to_text().as_str())
    }

    /// The IPv4 network that the JSON string writes in the strict grammar, as `from_str` reads it.
    ///
    /// `NotString` if the value is not a string; otherwise `Syntax` if the string is not the text of an IPv4 network.
    ///
    /// ```text
    /// "10.1.1.0/24" is 10.1.1.0/24; 7 gives NotString, and "x" and "fd00::/32" Syntax
    /// ```
    pub fn from_json(value: &Value) -> Result<Ipv4Net, JsonError>
        ensures ok { IsOkExactlyAt result
            (λ n. IsNetworkJson (IsIpv4NetworkText Strict) (view value.now) (ipv4_network n)) }
        ensures not_string { (result ≡ Err JsonError.NotString) ↔ IsNotJsonString (view value.now) }
        ensures syntax { (result ≡ Err JsonError.Syntax)
            ↔ IsJsonStringOfNoNetwork (IsIpv4NetworkText Strict) (view value.now) }
    {
        let text = value.as_str().ok_or(JsonError::NotString)?;
        text.parse::<Ipv4Net>().map_err(|_| JsonError::Syntax)
    }
}

impl Ipv6Net {
    /// The JSON string of the canonical text, the one that `to_text` gives.
    ///
    /// Fails if memory runs out.
    ///
    /// ```text
    /// fd00::/32 is "fd00::/32"
    /// ```
    pub fn to_json(&self, alloc: Global) -> Result<Value, AllocError>
        ensures { IfOk result (λ value. view value ≡ network_json (ipv6_network self.now)) }
    {
        json_string(alloc, self.to_text().as_str())
    }

    /// The IPv6 network that the JSON string writes in the strict grammar, as `from_str` reads it.
    ///
    /// `NotString` if the value is not a string; otherwise `Syntax` if the string is not the text of an IPv6 network.
    ///
    /// ```text
    /// "fd00::/32" is fd00::/32; null gives NotString, and "" and "10.1.1.0/24" Syntax
    /// ```
    pub fn from_json(value: &Value) -> Result<Ipv6Net, JsonError>
        ensures ok { IsOkExactlyAt result
            (λ n. IsNetworkJson (IsIpv6NetworkText Strict) (view value.now) (ipv6_network n)) }
        ensures not_string { (result ≡ Err JsonError.NotString) ↔ IsNotJsonString (view value.now) }
        ensures syntax { (result ≡ Err JsonError.Syntax)
            ↔ IsJsonStringOfNoNetwork (IsIpv6NetworkText Strict) (view value.now) }
    {
        let text = value.as_str().ok_or(JsonError::NotString)?;
        text.parse::<Ipv6Net>().map_err(|_| JsonError::Syntax)
    }
}

impl IpNet {
    /// The JSON string of the canonical text, the one that `to_text` gives.
    ///
    /// Fails if memory runs out.
    ///
    /// ```text
    /// 10.1.1.0/24 is "10.1.1.0/24"
    /// ```
    pub fn to_json(&self, alloc: Global) -> Result<Value, AllocError>
        ensures { IfOk result (λ value. view value ≡ network_json (ip_network self.now)) }
    {
        json_string(alloc, self.to_text().as_str())
    }

    /// The network that the JSON string writes in the strict grammar, as `from_str` reads it.
    ///
    /// `NotString` if the value is not a string; otherwise `Syntax` if the string is not the text of a network.
    ///
    /// ```text
    /// "10.1.1.0/24" is 10.1.1.0/24; 7 gives NotString, and "x" Syntax
    /// ```
    pub fn from_json(value: &Value) -> Result<IpNet, JsonError>
        ensures ok { IsOkExactlyAt result
            (λ n. IsNetworkJson (IsNetworkText Strict) (view value.now) (ip_network n)) }
        ensures not_string { (result ≡ Err JsonError.NotString) ↔ IsNotJsonString (view value.now) }
        ensures syntax { (result ≡ Err JsonError.Syntax)
            ↔ IsJsonStringOfNoNetwork (IsNetworkText Strict) (view value.now) }
    {
        let text = value.as_str().ok_or(JsonError::NotString)?;
        text.parse::<IpNet>().map_err(|_| JsonError::Syntax)
    }
}
