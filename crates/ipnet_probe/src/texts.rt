//! Questions about the parsers of texts, and about formatted networks.
use crate::{Answer, Question, show};
use ipnet::{AddrParseError, IpNet, Ipv4Net, Ipv6Net};
use percent_encoding::percent_decode_str;
use std::alloc::{AllocError, Global};
use std::borrow::CowStr;
use std::fmt::{Debug, Display};

/// Decodes a percent-encoded word; `None` if the result is not UTF-8.
pub fn decoded<'a>(alloc: Global, word: &'a str) -> Option<CowStr<'a>> {
    percent_decode_str(word).decode_utf8(alloc).ok()
}

/// The results of parsing a text as each of the three types.
type Readings = (Option<Ipv4Net>, Option<Ipv6Net>, Option<IpNet>);

/// The results of the strict parsers.
fn strict(text: &str) -> Readings {
    (text.parse().ok(), text.parse().ok(), text.parse().ok())
}

/// The results of the legacy parsers.
fn legacy(text: &str) -> Readings {
    (
        Ipv4Net::parse_legacy(text).ok(),
        Ipv6Net::parse_legacy(text).ok(),
        IpNet::parse_legacy(text).ok(),
    )
}

/// Calls all six parsers.
pub fn ask(alloc: Global, question: Question<'_>) -> Answer {
    let Some(text) = decoded(alloc, question.first) else {
        return Ok(None);
    };
    let strict = strict(text.as_str());
    let legacy = legacy(text.as_str());
    format!(in alloc; "{strict:?} {legacy:?}").map(Some)
}

/// The network, formatted with a width, a fill and a flag.
fn formats<N: Display + Debug + Drop>(alloc: Global, net: N) -> Result<String, AllocError> {
    format!(in alloc; "{net},{net:?},{net:>30},{net:*^30},{net:<30?},{net:#?}")
}

/// The results of both parsers of a type, or the formatted network.
macro_rules! ask {
    ($network:ty, $alloc:expr, $question:expr) => {{
        let Some(text) = decoded($alloc, $question.first) else {
            return Ok(None);
        };
        let strict: Result<$network, AddrParseError> = text.as_str().parse();
        match ($question.call, strict) {
            ("formats", Ok(net)) => formats($alloc, net).map(Some),
            ("from_str", strict) => show($alloc, strict).map(Some),
            _ => show($alloc, <$network>::parse_legacy(text.as_str())).map(Some),
        }
    }};
}

/// Asks for the texts of IPv4 networks.
pub fn ask_ipv4(alloc: Global, question: Question<'_>) -> Answer {
    ask!(Ipv4Net, alloc, question)
}

/// Asks for the texts of IPv6 networks.
pub fn ask_ipv6(alloc: Global, question: Question<'_>) -> Answer {
    ask!(Ipv6Net, alloc, question)
}

/// Asks for the texts of networks of either family.
pub fn ask_ip(alloc: Global, question: Question<'_>) -> Answer {
    ask!(IpNet, alloc, question)
}
