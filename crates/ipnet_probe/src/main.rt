//! Answers questions about the library, one per line: a type, the name of a call, and at most three arguments.
//!
//! Words are separated by one blank. Texts are percent-encoded, and the items of a list are joined by commas.
//!
//! ```text
//! Ipv4Net supernet 10.1.0.0/16                Some(10.0.0.0/15)
//! IpNet aggregate 10.0.0.0/25,10.0.0.128/25   [10.0.0.0/24]
//! Ipv4Net area 10.1.0.0/16                    no such question
//! ```
#![tactic(auto)]

mod addresses;
mod bytes;
mod constructors;
mod errors;
mod info;
mod json;
mod lists;
mod networks;
mod pairs;
mod prefix_lists;
mod ranges;
mod routes;
mod sets;
mod texts;
mod walks;

use std::alloc::{AllocError, Global};
use std::fmt::Debug;
use std::io;
use std::io::{BufRead, BufReader, BufWriter, Write};

/// An answer; `None` if the question is unknown.
pub type Answer = Result<Option<String>, AllocError>;

/// The text that `{:?}` prints for the value.
pub fn show<T: Debug + Drop>(alloc: Global, value: T) -> Result<String, AllocError> {
    format!(in alloc; "{value:?}")
}

/// A question. A missing argument is the empty text.
#[derive(Clone, Copy)]
pub struct Question<'a> {
    /// The type of the call.
    pub kind: &'a str,
    /// The name of the call.
    pub call: &'a str,
    /// The first argument.
    pub first: &'a str,
    /// The second argument.
    pub second: &'a str,
    /// The third argument.
    pub third: &'a str,
}

/// Parses a line as a question.
fn read(line: &str) -> Question<'_> {
    let mut words = line.split(' ');
    Question {
        kind: words.next().unwrap_or(""),
        call: words.next().unwrap_or(""),
        first: words.next().unwrap_or(""),
        second: words.next().unwrap_or(""),
        third: words.next().unwrap_or(""),
    }
}

/// The answer to a question.
fn answer(alloc: Global, question: Question<'_>) -> Answer {
    match question.kind {
        "Ipv4Net" => networks::ask_ipv4(alloc, question),
        "Ipv6Net" => networks::ask_ipv6(alloc, question),
        "IpNet" => networks::ask_ip(alloc, question),
        "Ipv4Addr" => addresses::ask_ipv4(alloc, question),
        "Ipv6Addr" => addresses::ask_ipv6(alloc, question),
        "IpAddr" => addresses::ask_ip(alloc, question),
        "Ipv4AddrRange" => ranges::ask_ipv4(alloc, question),
        "Ipv6AddrRange" => ranges::ask_ipv6(alloc, question),
        "IpAddrRange" => ranges::ask_ip(alloc, question),
        "Ipv4Subnets" => walks::ask_ipv4(alloc, question),
        "Ipv6Subnets" => walks::ask_ipv6(alloc, question),
        "IpSubnets" => walks::ask_ip(alloc, question),
        "Text" => texts::ask(alloc, question),
        "Info" => info::ask(alloc, question),
        "Error" => errors::ask(alloc, question),
        "IpSet" => sets::ask(alloc, question.call, question.first, question.second),
        "PrefixList" => { prefix_lists::ask(alloc, question.call, question.first, question.second) }
        "RouteTable" => routes::ask(alloc, question.call, question.first, question.second),
        _ => Ok(None),
    }
}

fn main(rt: HostRuntime) -> io::Result<()> {
    let mut out = BufWriter::new(rt.alloc(), io::writer(&rt))?;
    for line in BufReader::new(rt.alloc(), rt.reader())?.lines(rt.alloc()) {
        let line = line?;
        match answer(rt.alloc(), read(line.as_str()))? {
            Some(text) => writeln!(out, "{text}")?,
            None => writeln!(out, "no such question")?,
        }
    }
    out.flush()
}
