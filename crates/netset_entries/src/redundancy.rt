//! The entries of a list that the other entries make unnecessary.
ghost use Rattle.std.specs.Prelude.{◌≡◌, ◌-◌, ◌<◌, ◌≤◌, ◌↔◌, ℕ, take, drop, IfOk, length, map, Any, AllPairs};
ghost use Rattle.ipnet_base.specs.Address.{Address};
ghost use Rattle.ipnet_rules.specs.UnreachedRules.{MatchesAt};
ghost use Rattle.netset_entries.specs.Covers.{Rises, IsInNumbers, IsReach, IsKeptOf, IsWithin, IsCoveredWithin};
ghost use Rattle.netset_entries.specs.Covers.{dropped_of};
ghost use Rattle.netset_entries.specs.EntryPlaces.{HasAt};
ghost use Rattle.netset_entries.specs.Redundancy.{AreKeptEntries, AreDropped, IsShortestWitness};
ghost use Rattle.netset_entries.specs.Spans.{for_family};
ghost use Rattle.netset_entries.specs.EntryLineOf.{numbered};

use crate::entry_list::EntryLine;
use crate::span::{Family, Span, span_of, spans_of};
use ipnet_rules::{Action, Rule, kept_rules};
use netset_lib::rule_for;
use std::alloc::{AllocError, Global};

/// Which entries are kept, and the spans of the kept entries of each family.
#[derive(Drop)]
pub(crate) struct Kept {
    pub(crate) flags: Vec<bool>,
    pub(crate) ipv4: Vec<Span>,
    pub(crate) ipv6: Vec<Span>,
}

/// A dropped entry, by its index, and the kept spans of its family that cover it: from the start, before the end.
#[derive(Clone, Copy)]
pub(crate) struct Covered {
    pub(crate) entry: usize,
    pub(crate) family: Family,
    pub(crate) start: usize,
    pub(crate) end: usize,
}

/// Returns a rule for each entry, which matches its addresses.
fn rules_of(alloc: Global, lines: &[EntryLine<'_>]) -> Result<Vec<Rule>, AllocError>
    ensures count { IfOk result (λ rules. length rules.items ≡ length lines.now) }
    ensures matched { IfOk result (λ rules. (i : ℕ) → (x : Address)
        → MatchesAt rules.items i x ↔ HasAt (map numbered lines.now) i x) }
{
    let mut rules = Vec::new(alloc);
    for line in lines {
        rules.push(rule_for(Action::Permit, line.entry))?;
    }
    Ok(rules)
}

/// Returns for each entry whether it is kept.
fn kept_entries(alloc: Global, lines: &[EntryLine<'_>]) -> Result<Vec<bool>, AllocError>
    ensures { IfOk result (λ kept. AreKeptEntries (map numbered lines.now) kept.items) }
{
    let rules = rules_of(alloc, lines)?;
    kept_rules(alloc, rules.as_slice())
}

/// Returns the start and the end of the fewest spans that have the numbers from the first to the last, if there is one.
/// Both ends of the spans rise, and the first and the last number are in some of them.
fn cover_in(spans: &[Span], first: u128, last: u128) -> (usize, usize)
    requires rises { AllPairs Rises spans.now }
    requires ends { first ≤ last → Any (IsInNumbers first) spans.now × Any (IsInNumbers last) spans.now }
    ensures reach { first ≤ last → IsReach spans.now first last result.0 result.1 }
    ensures none { last < first → (result.0 ≡ 0) × (result.1 ≡ 0) }
{
    if last < first {
        return (0, 0);
    }
    let begun = spans.partition_point(|span| span.first <= first);
    let ended = spans.partition_point(|span| span.last < last);
    if ended < begun {
        return (begun - 1, begun);
    }
    (begun - 1, ended + 1)
}

impl Kept {
    /// Returns which entries of the list are kept.
    pub(crate) fn of(alloc: Global, lines: &[EntryLine<'_>]) -> Result<Kept, AllocError>
        ensures { IfOk result (IsKeptOf (map numbered lines.now)) }
    {
        let flags = kept_entries(alloc, lines)?;
        let ipv4 = spans_of(alloc, lines, flags.as_slice(), Family::Ipv4)?;
        let ipv6 = spans_of(alloc, lines, flags.as_slice(), Family::Ipv6)?;
        Ok(Kept { flags, ipv4, ipv6 })
    }

    /// Returns the spans of the kept entries of the family.
    pub(crate) fn of_family(&self, family: Family) -> &[Span]
        ensures { result.now ≡ for_family family self.now.ipv4.items self.now.ipv6.items }
    {
        match family {
            Family::Ipv4 => self.ipv4.as_slice(),
            Family::Ipv6 => self.ipv6.as_slice(),
        }
    }

    /// Returns the spans that cover the dropped entry.
    pub(crate) fn covering(&self, item: &Covered) -> &[Span]
        requires { IsWithin self.now item.now }
        ensures { result.now ≡ take (item.now.end - item.now.start)
            (drop item.now.start (for_family item.now.family self.now.ipv4.items self.now.ipv6.items)) }
    {
        &self.of_family(item.family)[item.start..item.end]
    }

    /// Returns the fewest kept spans that cover the entry at this index.
    fn cover(&self, lines: &[EntryLine<'_>], place: usize) -> Covered
        requires kept { IsKeptOf (map numbered lines.now) self.now }
        requires within { place < length lines.now }
        ensures entry { result.entry ≡ place }
        ensures within { IsWithin self.now result }
        ensures shortest { IsShortestWitness (map numbered lines.now) self.now.flags.items place
            (dropped_of self.now.ipv4.items self.now.ipv6.items result).witness }
    {
        let (family, span) = span_of(lines[place].entry, place);
        let (start, end) = cover_in(self.of_family(family), span.first, span.last);
        Covered {
            entry: place,
            family,
            start,
            end,
        }
    }

    /// Returns the entries that are dropped, each with the fewest kept spans that cover it.
    pub(crate) fn dropped(
        &self,
        alloc: Global,
        lines: &[EntryLine<'_>],
    ) -> Result<Vec<Covered>, AllocError>
        requires { IsKeptOf (map numbered lines.now) self.now }
        ensures within { IfOk result (λ covered. IsCoveredWithin self.now covered.items) }
        ensures dropped { IfOk result (λ covered. AreDropped (map numbered lines.now) self.now.flags.items
            (map (dropped_of self.now.ipv4.items self.now.ipv6.items) covered.items)) }
    {
        let mut covered = Vec::new(alloc);
        for place in 0..lines.len() {
            if !self.flags[place] {
                covered.push(self.cover(lines, place))?;
            }
        }
        Ok(covered)
    }
}
