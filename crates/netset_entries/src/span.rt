//! The addresses of entries as numbers of their family.
ghost use Rattle.std.specs.Prelude.{◌≡◌, ◌↔◌, IsTrue, IfSome, IfNone, IfOk, length, map};
ghost use Rattle.ipnet_sets.specs.SetRanges.{range_of};
ghost use Rattle.netset_entries.specs.Spans.{family_of, IsSpanFor, HasNoSpan, AreSpans};
ghost use Rattle.netset_entries.specs.EntryLineOf.{numbered};
ghost use Rattle.ipnet_lists.specs.EntryOf.{entry_range};

use crate::entry_list::EntryLine;
use ipnet::IpAddr;
use ipnet_lists::Entry;
use std::alloc::{AllocError, Global};

/// A family of addresses.
#[derive(Clone, Copy)]
pub(crate) enum Family {
    Ipv4,
    Ipv6,
}

/// The numbers of an entry's addresses, from the first to the last, and its index in the list.
#[derive(Clone, Copy)]
pub(crate) struct Span {
    pub(crate) first: u128,
    pub(crate) last: u128,
    pub(crate) place: usize,
}

/// Returns the family of the entry at this index, and its span.
pub(crate) fn span_of(entry: Entry, place: usize) -> (Family, Span)
    ensures range { entry_range entry ≡ range_of (family_of result.0) result.1.first result.1.last }
    ensures place { result.1.place ≡ place }
{
    match entry.ends() {
        (IpAddr::V4(first), IpAddr::V4(last)) => {
            let first = u128::from(first.to_bits());
            let last = u128::from(last.to_bits());
            (Family::Ipv4, Span { first, last, place })
        }
        (IpAddr::V6(first), IpAddr::V6(last)) => {
            let first = first.to_bits();
            let last = last.to_bits();
            (Family::Ipv6, Span { first, last, place })
        }
        // The ends of an entry are of one family.
        _ => {
            let (first, last) = (1, 0);
            (Family::Ipv4, Span { first, last, place })
        }
    }
}

/// Returns whether the two are one family.
fn is_same(of: Family, family: Family) -> bool
    ensures { IsTrue result ↔ (of ≡ family) }
{
    matches!(
        (of, family),
        (Family::Ipv4, Family::Ipv4) | (Family::Ipv6, Family::Ipv6)
    )
}

/// Returns the span of the entry at this index, if it is of the family and has an address.
fn span_in(entry: Entry, place: usize, family: Family) -> Option<Span>
    ensures some { IfSome result (λ s. IsSpanFor (entry_range entry) (family_of family) place s) }
    ensures none { IfNone result (HasNoSpan (entry_range entry) (family_of family)) }
{
    let (of, span) = span_of(entry, place);
    if is_same(of, family) && span.first <= span.last {
        return Some(span);
    }
    None
}

/// Returns the spans of the entries of the family that have a true flag and an address, in the order of their first
/// addresses; of equal ones in the order of the list.
pub(crate) fn spans_of(
    alloc: Global,
    lines: &[EntryLine<'_>],
    flags: &[bool],
    family: Family,
) -> Result<Vec<Span>, AllocError>
    requires { length flags.now ≡ length lines.now }
    ensures { IfOk result (λ spans.
        AreSpans (map numbered lines.now) flags.now (family_of family) spans.items) }
{
    let mut spans = Vec::new(alloc);
    for place in 0..lines.len() {
        if flags[place] {
            match span_in(lines[place].entry, place, family) {
                Some(span) => spans.push(span)?,
                None => {}
            }
        }
    }
    spans.sort_by_key(|span| span.first)?;
    Ok(spans)
}
