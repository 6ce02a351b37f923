//! The selected entries of lists: collected while the lists are read, and then printed.
ghost use Rattle.std.specs.Prelude.{◌≡◌, ◌<◌, ◌+◌, ◌^◌, ◌↔◌, ◌++◌, ◌∷◌, [], ℕ, List, true, IsTrue, IfOk, OnOk};
ghost use Rattle.std.specs.Prelude.{All, map, slice_range, IsPermutation};
ghost use Rattle.std.specs.BTreeSet.{contains};
ghost use Rattle.ipnet_base.specs.Address.{family_index};
ghost use Rattle.ipnet_lists.specs.EntryOf.{entry_range};
ghost use Rattle.ipnet_lists.specs.Lists.{ListEntry};
ghost use Rattle.netset_lib.specs.Filters.{text_of_entries};
ghost use Rattle.netset_entries.specs.Selections.{AreSorted, IsSelection};
ghost use Rattle.netset_entries.specs.SelectSteps.{IsSelected, IsPlaceIn, ArePlaces, entry_at, range_at};
ghost use Rattle.netset_entries.specs.SelectSteps.{key_of, key_cmp, AddsRange};
ghost use Rattle.netset_entries.specs.Spans.{family_of};

use crate::choice::EntryChoice;
use crate::span::{Family, Span, span_of};
use ipnet::Grammar;
use ipnet_lists::{Collector, Entry};
use std::alloc::{AllocError, Global};
use std::cmp::Reverse;
use std::collections::BTreeSet;

/// Which entries are printed, and how.
#[derive(Clone, Copy, Debug, PartialEq, Eq)]
pub struct SelectRequest {
    /// How the entries are read.
    pub grammar: Grammar,
    /// Which entries are chosen.
    pub choice: EntryChoice,
    /// Whether the entries are sorted: IPv4 first, then by the first address, then the larger entry first.
    pub sort: bool,
    /// Whether an entry is left out if an entry before it has exactly its addresses.
    pub unique: bool,
}

/// The family, the first address and the last address of an entry, in the order in which entries are sorted.
#[derive(Clone, Copy, PartialEq, Eq, PartialOrd, Ord)]
pub(crate) struct RangeKey {
    family: u8,
    first: u128,
    last: Reverse<u128>,
}

/// The addresses of an entry, and the place of its text among the texts of the selected entries.
#[derive(Clone, Copy)]
pub(crate) struct EntryPlace {
    family: Family,
    /// The addresses. The place is the start of the entry's text.
    span: Span,
    /// The place after the text.
    end: usize,
}

/// The selected entries.
#[derive(Drop)]
pub(crate) struct Selected {
    /// Their lines, in the order of the lists.
    text: Vec<u8>,
    /// Their addresses, and the places of their texts, if they are to be sorted.
    places: Vec<EntryPlace>,
    /// Their addresses, if repeated entries are left out.
    seen: BTreeSet<RangeKey>,
    /// Whether an entry is chosen.
    found: bool,
}

/// The number of the family in the order of families.
fn number_of(family: Family) -> u8
    ensures { result ≡ family_index (family_of family) }
{
    match family {
        Family::Ipv4 => 0,
        Family::Ipv6 => 1,
    }
}

/// Returns the key of the entry at the place.
fn key_at(place: &EntryPlace) -> RangeKey
    ensures { result ≡ key_of (range_at place.now) }
{
    RangeKey {
        family: number_of(place.family),
        first: place.span.first,
        last: Reverse(place.span.last),
    }
}

/// Adds the addresses of the entry, and returns whether they are new.
fn add_range(seen: &mut BTreeSet<RangeKey>, place: &EntryPlace) -> Result<bool, AllocError>
    ensures new { IfOk result (λ is_new. IsTrue is_new
        ↔ ¬ (IsTrue (contains key_cmp seen.old (key_of (range_at place.now))))) }
    ensures added { OnOk result (AddsRange seen.old seen.new (range_at place.now)) }
{
    match seen.insert(key_at(place)) {
        Ok(is_new) => Ok(is_new),
        Err(_) => Err(AllocError),
    }
}

/// Adds the addresses of the entry if no entry may be repeated, and returns whether it is repeated.
fn is_repeated(
    unique: bool,
    seen: &mut BTreeSet<RangeKey>,
    place: &EntryPlace,
) -> Result<bool, AllocError>
    ensures repeated { IfOk result (λ repeated. IsTrue repeated
        ↔ ((unique ≡ true) × IsTrue (contains key_cmp seen.old (key_of (range_at place.now))))) }
    ensures added { OnOk result (unique ≡ true → AddsRange seen.old seen.new (range_at place.now)) }
{
    if !unique {
        return Ok(false);
    }
    let is_new = add_range(seen, place)?;
    Ok(!is_new)
}

/// Appends the place if the entries are to be sorted.
fn push_place(sort: bool, places: &mut Vec<EntryPlace>, place: EntryPlace) -> Result<(), AllocError>
    ensures { OnOk result (sort ≡ true → places.new.items ≡ places.old.items ++ place ∷ []) }
{
    if sort {
        places.push(place)?;
    }
    Ok(())
}

/// Returns the addresses of the entry, and the place of its text of this length, which begins at `start`.
fn place_of(entry: Entry, start: usize, len: usize) -> EntryPlace
    requires { start + len < 2 ^ 64 }
    ensures range { range_at result ≡ entry_range entry }
    ensures start { result.span.place ≡ start }
    ensures end { result.end ≡ start + len }
{
    let (family, span) = span_of(entry, start);
    let end = start + len;
    EntryPlace { family, span, end }
}

impl Collector<Selected> for SelectRequest {
    ghost is_made = { IsSelected };

    fn push(&self, made: &mut Selected, text: &[u8], entry: Entry) -> Result<(), AllocError> {
        if !self.choice.has(entry) {
            return Ok(());
        }
        made.found = true;
        let place = place_of(entry, made.text.as_slice().len(), text.len());
        if is_repeated(self.unique, &mut made.seen, &place)? {
            return Ok(());
        }
        made.text.extend_from_slice(text)?;
        made.text.extend_from_slice(b"\n")?;
        push_place(self.sort, &mut made.places, place)
    }
}

/// Returns the text at the place; nothing if the place does not lie in it.
fn text_at<'a>(text: &'a [u8], place: &EntryPlace) -> &'a [u8]
    ensures { IsPlaceIn text.now place.now
        → result.now ≡ slice_range text.now place.now.span.place place.now.end }
{
    let (start, end) = (place.span.place, place.end);
    if start <= end && end <= text.len() {
        return &text[start..end];
    }
    &[]
}

/// Returns the lines of the entries at the places of the text.
fn lines_at(alloc: Global, text: &[u8], places: &[EntryPlace]) -> Result<Vec<u8>, AllocError>
    ensures { IfOk result (λ lines. All (IsPlaceIn text.now) places.now
        → lines.items ≡ text_of_entries (map (entry_at text.now) places.now)) }
{
    let mut lines = Vec::new(alloc);
    for place in places {
        lines.extend_from_slice(text_at(text, place))?;
        lines.extend_from_slice(b"\n")?;
    }
    Ok(lines)
}

/// Sorts the places by the addresses of their entries.
fn sort_places(places: &mut Vec<EntryPlace>) -> Result<(), AllocError>
    ensures { OnOk result ((text : List ℕ)
        → AreSorted (map (entry_at text) places.old.items) (map (entry_at text) places.new.items)
        × IsPermutation places.old.items places.new.items) }
{
    places.sort_by_key(|place| key_at(place))
}

impl Selected {
    /// Returns no entries.
    pub(crate) fn new(alloc: Global) -> Selected
        ensures { (request : SelectRequest) → IsSelected request result [] }
    {
        Selected {
            text: Vec::new(alloc),
            places: Vec::new(alloc),
            seen: BTreeSet::new(alloc),
            found: false,
        }
    }

    /// Returns whether an entry is chosen, and the lines of the entries as they are printed. Fails if memory runs out.
    pub(crate) fn into_text(self, alloc: Global, sort: bool) -> Result<(Vec<u8>, bool), AllocError>
        ensures text { IfOk result (λ answer. (request : SelectRequest) → (entries : List ListEntry)
            → request.sort ≡ sort → IsSelected request self entries → IsSelection request entries answer.0.items) }
        ensures found { IfOk result (λ answer. answer.1 ≡ self.found) }
    {
        let Selected {
            text,
            mut places,
            found,
            ..
        } = self;
        if !sort {
            return Ok((text, found));
        }
        sort_places(&mut places)?;
        let lines = lines_at(alloc, text.as_slice(), places.as_slice())?;
        Ok((lines, found))
    }
}
