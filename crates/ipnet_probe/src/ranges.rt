//! Questions about ranges of addresses: a sequence of calls, and the stored ends after them.
use crate::pairs::compare;
use crate::{Answer, Question, show};
use ipnet::{IpAddrRange, Ipv4Addr, Ipv4AddrRange, Ipv6Addr, Ipv6AddrRange};
use std::alloc::Global;
use std::fmt::Debug;

/// Parses a range, such as `10.0.0.0-10.0.0.3`.
fn ipv4_range(text: &str) -> Option<Ipv4AddrRange> {
    let (start, end) = text.split_once('-')?;
    let start = start.parse::<Ipv4Addr>().ok()?;
    Some(Ipv4AddrRange::new(start, end.parse::<Ipv4Addr>().ok()?))
}

/// Parses a range, such as `fd00::-fd00::3`.
fn ipv6_range(text: &str) -> Option<Ipv6AddrRange> {
    let (start, end) = text.split_once('-')?;
    let start = start.parse::<Ipv6Addr>().ok()?;
    Some(Ipv6AddrRange::new(start, end.parse::<Ipv6Addr>().ok()?))
}

/// Parses a range of either family.
fn ip_range(text: &str) -> Option<IpAddrRange> {
    if let Some(range) = ipv4_range(text) {
        return Some(IpAddrRange::from(range));
    }
    Some(IpAddrRange::from(ipv6_range(text)?))
}

/// A range type for a sequence of calls.
trait Asked: Debug + Drop {
    /// The result of the call. The number is for `nth` and `nth_back`.
    fn call(&mut self, alloc: Global, name: &str, n: usize) -> Answer;
}

/// The result of a call on a range.
macro_rules! call {
    ($range:expr, $count:expr, $alloc:expr, $name:expr, $n:expr) => {{
        let now = *$range;
        let text = match $name {
            "next" => show($alloc, $range.next()),
            "next_back" => show($alloc, $range.next_back()),
            "nth" => show($alloc, $range.nth($n)),
            "nth_back" => show($alloc, $range.nth_back($n)),
            "size_hint" => show($alloc, now.size_hint()),
            "count" => show($alloc, $count),
            "min" => show($alloc, now.min()),
            "max" => show($alloc, now.max()),
            "last" => show($alloc, now.last()),
            _ => return Ok(None),
        };
        text.map(Some)
    }};
}

impl Asked for Ipv4AddrRange {
    fn call(&mut self, alloc: Global, name: &str, n: usize) -> Answer {
        let range = *self;
        call!(self, Some(range.count()), alloc, name, n)
    }
}

/// The count; `None` unless `size_hint` has an upper bound, because otherwise `count` must not be called.
fn ipv6_count(range: Ipv6AddrRange) -> Option<usize> {
    match range.size_hint() {
        (_, Some(_)) => Some(range.count()),
        (_, None) => None,
    }
}

impl Asked for Ipv6AddrRange {
    fn call(&mut self, alloc: Global, name: &str, n: usize) -> Answer {
        call!(self, ipv6_count(*self), alloc, name, n)
    }
}

/// The count; `None` unless `size_hint` has an upper bound, because otherwise `count` must not be called.
fn ip_count(range: IpAddrRange) -> Option<usize> {
    match range.size_hint() {
        (_, Some(_)) => Some(range.count()),
        (_, None) => None,
    }
}

impl Asked for IpAddrRange {
    fn call(&mut self, alloc: Global, name: &str, n: usize) -> Answer {
        call!(self, ip_count(*self), alloc, name, n)
    }
}

/// The results of the calls in turn, and the stored ends after them.
fn in_turn<R: Asked>(alloc: Global, range: Option<R>, calls: &str) -> Answer {
    let Some(mut range) = range else {
        return Ok(None);
    };
    let mut answers = String::new(alloc);
    for call in calls.split(',') {
        let (name, n) = call.split_once(':').unwrap_or((call, "0"));
        match range.call(alloc, name, n.parse::<usize>().unwrap_or(0))? {
            Some(text) => answers.push_str(text.as_str())?,
            None => return Ok(None),
        }
        answers.push(' ')?;
    }
    format!(in alloc; "{answers}{range:?}").map(Some)
}

/// Calls on an IPv4 range.
pub fn ask_ipv4(alloc: Global, question: Question<'_>) -> Answer {
    let range = ipv4_range(question.first);
    match question.call {
        "calls" => in_turn(alloc, range, question.second),
        "compare" => compare(alloc, range, ipv4_range(question.second)),
        _ => Ok(None),
    }
}

/// Calls on an IPv6 range.
pub fn ask_ipv6(alloc: Global, question: Question<'_>) -> Answer {
    let range = ipv6_range(question.first);
    match question.call {
        "calls" => in_turn(alloc, range, question.second),
        "compare" => compare(alloc, range, ipv6_range(question.second)),
        _ => Ok(None),
    }
}

/// Calls on a range of either family.
pub fn ask_ip(alloc: Global, question: Question<'_>) -> Answer {
    let range = ip_range(question.first);
    match question.call {
        "calls" => in_turn(alloc, range, question.second),
        "compare" => compare(alloc, range, ip_range(question.second)),
        _ => Ok(None),
    }
}
