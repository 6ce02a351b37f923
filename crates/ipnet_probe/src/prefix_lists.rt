//! Questions about prefix lists. A rule is an action, a network and two bounds, such as `permit/10.0.0.0/8/16/24` or
//! `deny/10.0.0.0/8/-/-`; rules are separated by commas, and `-` is the empty list.
use crate::show;
use ipnet::IpNet;
use ipnet_rules::{Action, PrefixList, PrefixRule, PrefixRuleError};
use std::alloc::{AllocError, Global};

/// The result of a call on the prefix list; `None` if the call is unknown or its arguments are invalid. The other part
/// of `permits` and `verdict` is a network, and of `first_difference` a prefix list.
pub fn ask(
    alloc: Global,
    call: &str,
    rules: &str,
    other: &str,
) -> Result<Option<String>, AllocError> {
    if call == "new" {
        return ask_rule(alloc, rules);
    }
    let Some(list) = read_list(alloc, rules)? else {
        return Ok(None);
    };
    match call {
        "permits" | "verdict" => ask_network(alloc, call, &list, other),
        "first_difference" => {
            let Some(other) = read_list(alloc, other)? else {
                return Ok(None);
            };
            Ok(Some(show(alloc, list.first_difference(alloc, &other)?)?))
        }
        _ => Ok(None),
    }
}

/// The rule of the text, or why it is refused; `None` if the text is not a rule.
fn ask_rule(alloc: Global, text: &str) -> Result<Option<String>, AllocError> {
    let Some(read) = read_rule(text) else {
        return Ok(None);
    };
    match read {
        Ok(_) => Ok(Some(String::from_str(alloc, "Ok")?)),
        Err(error) => Ok(Some(show(alloc, error)?)),
    }
}

/// Whether the list permits the network, or its verdict; `None` if the text is not a network.
fn ask_network(
    alloc: Global,
    call: &str,
    list: &PrefixList,
    network: &str,
) -> Result<Option<String>, AllocError> {
    let Ok(network) = network.parse::<IpNet>() else {
        return Ok(None);
    };
    match call {
        "permits" => Ok(Some(show(alloc, list.permits(&network))?)),
        _ => Ok(Some(show(alloc, list.verdict(&network))?)),
    }
}

/// Parses a bound; the outer `None` if the text is not a bound.
fn read_bound(text: &str) -> Option<Option<u8>> {
    if text == "-" {
        return Some(None);
    }
    match text.parse::<u8>() {
        Ok(bound) => Some(Some(bound)),
        Err(_) => None,
    }
}

/// Parses a rule; `None` if the text is not a rule.
fn read_rule(text: &str) -> Option<Result<PrefixRule, PrefixRuleError>> {
    let (action, rest) = text.split_once('/')?;
    let (rest, le) = rest.rsplit_once('/')?;
    let (network, ge) = rest.rsplit_once('/')?;
    let action = match action {
        "permit" => Action::Permit,
        "deny" => Action::Deny,
        _ => return None,
    };
    let Ok(network) = network.parse::<IpNet>() else {
        return None;
    };
    let ge = read_bound(ge)?;
    let le = read_bound(le)?;
    Some(PrefixRule::new(action, network, ge, le))
}

/// Parses a prefix list; `None` if the text is not a list of rules that are valid.
fn read_list(alloc: Global, text: &str) -> Result<Option<PrefixList>, AllocError> {
    let mut list = Vec::new(alloc);
    if text == "-" {
        return Ok(Some(PrefixList { list }));
    }
    for part in text.split(',') {
        let Some(read) = read_rule(part) else {
            return Ok(None);
        };
        let Ok(rule) = read else {
            return Ok(None);
        };
        list.push(rule)?;
    }
    Ok(Some(PrefixList { list }))
}
