//! Lists of validated ROA payloads (VRPs) in JSON: an object whose member `roas` is an array of objects.
ghost use Rattle.std.specs.Prelude.{◌≡◌, ◌≤◌, ◌↔◌, ℕ, Some, map, option_map, option_and_then, IsTrue, IfOk, IfErr};
ghost use Rattle.serde_json.specs.Find.{get, as_array};
ghost use Rattle.serde_json.specs.View.{view, items_view};
ghost use Rattle.netset_origins.specs.VrpJson.{BeginsObject, text_at, number_at, IsAsnAt, IsVrpData, IsDataCause};
ghost use Rattle.netset_origins.specs.VrpJson.{AreVrpItems, IsItemFault, IsVrpJson, IsJsonFault};

use crate::field::{asn_of, network_of};
use crate::vrp_line::{VrpCause, vrp_with};
use ipnet::Grammar;
use ipnet_lists::skip_mark;
use ipnet_origins::Payload;
use serde_json::Value;
use std::alloc::{AllocError, Global};

/// Why bytes are not a list of VRPs in JSON.
///
/// ```text
/// {"roas":                                                                   NotJson
/// {"vrps": []}                                                               NoRoas
/// {"roas": [{"asn": 64496, "prefix": "192.0.2.0/24", "maxLength": 33}]}      NotVrp(0, RefusedMaxLen(..))
/// ```
#[derive(Clone, Debug, PartialEq, Eq, Drop)]
pub enum JsonFault {
    /// The bytes are not a JSON value.
    NotJson,
    /// The value has no member `roas` that is an array.
    NoRoas,
    /// The first item of `roas` that is not a VRP has this index, from 0, and this cause.
    NotVrp(usize, VrpCause),
}

/// Whether the first byte of the list that is not a blank is the brace that begins an object.
pub(crate) fn begins_object(bytes: &[u8]) -> bool
    ensures { IsTrue result ↔ BeginsObject bytes.now }
{
    let text = skip_mark(bytes).trim_ascii_start();
    if text.is_empty() {
        return false;
    }
    text[0] == b'{'
}

/// Returns the string that the value has under this key. It is empty if there is none.
fn text_in<'a>(value: &'a Value, key: &str) -> &'a [u8]
    ensures { result.now ≡ text_at key.now (view value.now) }
{
    match value.get(key).and_then(Value::as_str) {
        Some(text) => text.as_bytes(),
        None => b"",
    }
}

/// Returns the number of at most 32 bits that the value has under this key.
fn number_in(value: &Value, key: &str) -> Option<u32>
    ensures { (n : ℕ) → (result ≡ Some n) ↔ ((number_at key.now (view value.now) ≡ Some n) × (n ≤ 4294967295)) }
{
    let number = value.get(key).and_then(Value::as_u64)?;
    match u32::try_from(number) {
        Ok(number) => Some(number),
        Err(_) => None,
    }
}

/// Returns the AS number of an object, which is a string or a number.
fn asn_in(value: &Value) -> Option<u32>
    ensures { (n : ℕ) → (result ≡ Some n) ↔ IsAsnAt (view value.now) n }
{
    let text = text_in(value, "asn");
    if text.is_empty() {
        number_in(value, "asn")
    } else {
        asn_of(text)
    }
}

/// Returns the VRP that an item of `roas` is, or why it is not one.
fn vrp_in(value: &Value, grammar: Grammar) -> Result<Payload, VrpCause>
    ensures vrp { IfOk result (IsVrpData grammar (view value.now)) }
    ensures cause { IfErr result (IsDataCause grammar (view value.now)) }
{
    let Some(asn) = asn_in(value) else {
        return Err(VrpCause::NoAsn);
    };
    match network_of(text_in(value, "prefix"), grammar) {
        Ok(network) => vrp_with(asn, network, number_in(value, "maxLength")),
        Err(cause) => Err(VrpCause::NoNetwork(cause)),
    }
}

/// Returns the items of the array that the value has under this key, or `None` if it has none.
fn items_in<'a>(value: &'a Value, key: &str) -> Option<&'a Vec<Value>>
    ensures { option_map (λ items. items_view items.now.items) result
        ≡ option_and_then as_array (get key.now (view value.now)) }
{
    value.get(key).and_then(Value::as_array)
}

/// Returns the VRPs that the items are, or the first item that is not one. Fails if memory runs out.
fn vrps_in(
    alloc: Global,
    items: &[Value],
    grammar: Grammar,
) -> Result<Result<Vec<Payload>, JsonFault>, AllocError>
    ensures vrps { IfOk result (λ read. IfOk read (λ vrps. AreVrpItems grammar (map view items.now) vrps.items)) }
    ensures fault { IfOk result (λ read. IfErr read (IsItemFault grammar (map view items.now))) }
{
    let mut vrps = Vec::with_capacity(alloc, items.len())?;
    for index in 0..items.len() {
        match vrp_in(&items[index], grammar) {
            Ok(vrp) => vrps.push(vrp)?,
            Err(cause) => return Ok(Err(JsonFault::NotVrp(index, cause))),
        }
    }
    Ok(Ok(vrps))
}

/// Returns the VRPs of the list, or why it is not a list of VRPs. Fails if memory runs out.
pub(crate) fn read_json(
    alloc: Global,
    bytes: &[u8],
    grammar: Grammar,
) -> Result<Result<Vec<Payload>, JsonFault>, AllocError>
    ensures vrps { IfOk result (λ read. IfOk read (λ vrps. IsVrpJson grammar bytes.now vrps.items)) }
    ensures fault { IfOk result (λ read. IfErr read (IsJsonFault grammar bytes.now)) }
{
    let value = match Value::from_slice(alloc, skip_mark(bytes)) {
        Ok(value) => value,
        Err(error) => {
            if error.is_memory() {
                return Err(AllocError);
            }
            return Ok(Err(JsonFault::NotJson));
        }
    };
    let Some(items) = items_in(&value, "roas") else {
        return Ok(Err(JsonFault::NoRoas));
    };
    match vrps_in(alloc, items.as_slice(), grammar)? {
        Ok(vrps) => Ok(Ok(vrps)),
        Err(fault) => Ok(Err(fault)),
    }
}
