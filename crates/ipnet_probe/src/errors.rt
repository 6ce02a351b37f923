//! Questions about what errors print.
use crate::{Answer, Question};
use ipnet::{CompactError, IpNet, JsonError, PrefixLenError};
use std::alloc::Global;

/// Prints the error with this name.
pub fn ask(alloc: Global, question: Question<'_>) -> Answer {
    let text = match question.call {
        "PrefixLenError" => PrefixLenError.to_string(alloc),
        "AddrParseError" => match "".parse::<IpNet>() {
            Err(error) => error.to_string(alloc),
            Ok(_) => return Ok(None),
        },
        "CompactError::Length" => CompactError::Length.to_string(alloc),
        "CompactError::Variant" => CompactError::Variant.to_string(alloc),
        "CompactError::Prefix" => CompactError::Prefix.to_string(alloc),
        "JsonError::NotString" => JsonError::NotString.to_string(alloc),
        "JsonError::Syntax" => JsonError::Syntax.to_string(alloc),
        _ => return Ok(None),
    };
    text.map(Some)
}
