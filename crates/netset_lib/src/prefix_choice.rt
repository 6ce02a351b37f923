//! The rules of one prefix list of a file, in the order of their sequence numbers.
ghost use Rattle.std.specs.Prelude.{◌≡◌, ◌≢◌, ◌+◌, ◌<◌, ◌↔◌, ℕ, None, All, map, length, slice_index};
ghost use Rattle.std.specs.Prelude.{IfOk, IfErr, IfSome, IsNone, IsTrue};
ghost use Rattle.std.specs.List.{filter};
ghost use Rattle.netset_lib.specs.PrefixEntries.{AreOrdered, AreSideBySide, HaveNames, HaveOneName, IsOrderFault};
ghost use Rattle.netset_lib.specs.PrefixEntries as places;
ghost use Rattle.netset_lib.specs.PrefixEntryOf.{IsChoice, IsRuleChoice, entry_of, lent_text};
ghost use Rattle.netset_lib.specs.Reports.{choice_words};

use crate::prefix_entry::NamedRule;
use crate::reports::Words;
use arrayvec::ArrayString;
use ipnet::IpNet;
use ipnet_rules::PrefixRule;
use itoa::Buffer;
use std::alloc::{AllocError, Global};

/// Why the entries of a file are not one prefix list.
#[derive(Clone, Copy, Debug, PartialEq, Eq, Drop)]
pub enum ChoiceFault {
    /// An entry has no name, and a name is asked for, or another entry has one.
    MissingName,
    /// No name is asked for, and two entries have different names. Each entry has a name.
    SeveralNames,
    /// No entry has the name that is asked for. Each entry has a name.
    OtherNames,
    /// Some entries have a sequence number, and others have none.
    SomeNumbers,
    /// Two entries of one family have this sequence number.
    SameNumber(u32),
}

impl ChoiceFault {
    /// Returns the words that report it.
    ///
    /// ```text
    /// SameNumber(5): "two rules have the sequence number 5"
    /// ```
    pub fn to_words(self) -> Words
        ensures { result.bytes ≡ choice_words self }
    {
        let mut words = ArrayString::new();
        match self {
            ChoiceFault::MissingName => {
                words.push_str("a rule names no prefix list, but --name or another rule names one")
            }
            ChoiceFault::SeveralNames => {
                words.push_str("the rules are of several prefix lists: choose one with --name")
            }
            ChoiceFault::OtherNames => {
                words.push_str("no rule is of the prefix list that --name names")
            }
            ChoiceFault::SomeNumbers => {
                words.push_str("some rules have a sequence number, and others have none")
            }
            ChoiceFault::SameNumber(number) => {
                words.push_str("two rules have the sequence number ");
                words.push_str(Buffer::new().format(number));
            }
        }
        words
    }
}

/// Returns whether the entry has this name.
fn is_named(entry: &NamedRule<'_>, name: &[u8]) -> bool
    ensures { result ≡ places.is_named name.now (entry_of entry.now) }
{
    match entry.name {
        Some(own) => own == name,
        None => false,
    }
}

/// Returns the entries that have this name.
fn named_entries<'a>(
    alloc: Global,
    entries: &[NamedRule<'a>],
    name: &[u8],
) -> Result<Vec<NamedRule<'a>>, AllocError>
    ensures { IfOk result (λ named.
        named.items ≡ filter (λ e. places.is_named name.now (entry_of e)) entries.now) }
{
    let mut named = Vec::new(alloc);
    for entry in entries {
        if is_named(entry, name) {
            named.push(*entry)?;
        }
    }
    Ok(named)
}

/// Returns whether the two entries have one name, or none has a name.
fn is_same_name(entry: &NamedRule<'_>, other: &NamedRule<'_>) -> bool
    ensures { IsTrue result ↔ ((entry_of entry.now).name ≡ (entry_of other.now).name) }
{
    match (entry.name, other.name) {
        (Some(name), Some(other)) => name == other,
        (None, None) => true,
        _ => false,
    }
}

/// Returns whether the entries have one name, or none has a name.
fn have_one_name(entries: &[NamedRule<'_>]) -> bool
    ensures { IsTrue result ↔ HaveOneName (map entry_of entries.now) }
{
    for index in 1..entries.len() {
        if !is_same_name(&entries[0], &entries[index]) {
            return false;
        }
    }
    true
}

/// Returns whether the entry has a name.
fn has_name(entry: &NamedRule<'_>) -> bool
    ensures { IsTrue result ↔ ((entry_of entry.now).name ≢ None) }
{
    entry.name.is_some()
}

/// Returns whether each entry has a name.
fn have_names(entries: &[NamedRule<'_>]) -> bool
    ensures { IsTrue result ↔ HaveNames (map entry_of entries.now) }
{
    for entry in entries {
        if !has_name(entry) {
            return false;
        }
    }
    true
}

/// Returns the entries, if they are of one list, or why they are not.
fn only_list<'a>(entries: Vec<NamedRule<'a>>) -> Result<Vec<NamedRule<'a>>, ChoiceFault>
    ensures { IsChoice None (map entry_of entries.entry.items) result }
{
    if have_one_name(entries.as_slice()) {
        return Ok(entries);
    }
    if have_names(entries.as_slice()) {
        return Err(ChoiceFault::SeveralNames);
    }
    Err(ChoiceFault::MissingName)
}

/// Returns the entries of the list with this name, or of the only list, or why there is none.
fn chosen_entries<'a>(
    alloc: Global,
    entries: Vec<NamedRule<'a>>,
    name: Option<&[u8]>,
) -> Result<Result<Vec<NamedRule<'a>>, ChoiceFault>, AllocError>
    ensures { IfOk result (IsChoice (lent_text name.entry) (map entry_of entries.entry.items)) }
{
    let Some(name) = name else {
        return Ok(only_list(entries));
    };
    if !have_names(entries.as_slice()) {
        return Ok(Err(ChoiceFault::MissingName));
    }
    let named = named_entries(alloc, entries.as_slice(), name)?;
    if named.is_empty() {
        return Ok(Err(ChoiceFault::OtherNames));
    }
    Ok(Ok(named))
}

/// Returns whether the entry has a sequence number.
fn has_number(entry: &NamedRule<'_>) -> bool
    ensures { IsTrue result ↔ ((entry_of entry.now).number ≢ None) }
{
    entry.number.is_some()
}

/// Returns whether each entry has a sequence number.
fn all_numbered(entries: &[NamedRule<'_>]) -> bool
    ensures { IsTrue result ↔ All (λ e. e.number ≢ None) (map entry_of entries.now) }
{
    for entry in entries {
        if !has_number(entry) {
            return false;
        }
    }
    true
}

/// Returns whether no entry has a sequence number.
fn none_numbered(entries: &[NamedRule<'_>]) -> bool
    ensures { IsTrue result ↔ All (λ e. e.number ≡ None) (map entry_of entries.now) }
{
    for entry in entries {
        if has_number(entry) {
            return false;
        }
    }
    true
}

/// Returns the place of the entry: by its sequence number, and IPv4 before IPv6.
fn place_of(entry: &NamedRule<'_>) -> u64
    ensures { result ≡ places.place_of (entry_of entry.now) }
{
    let number = match entry.number {
        Some(number) => u64::from(number),
        None => 0,
    };
    match entry.rule.network() {
        IpNet::V4(_) => number,
        IpNet::V6(_) => (1 << 32) + number,
    }
}

/// Returns the number of two entries side by side that have the same place, if there are two.
fn same_number(entries: &[NamedRule<'_>]) -> Option<u32>
    requires { All (λ e. e.number ≢ None) (map entry_of entries.now) }
    ensures some { IfSome result (AreSideBySide (map entry_of entries.now)) }
    ensures none { IsNone result → (i : ℕ) → i + 1 < length entries.now
        → slice_index (map places.place_of (map entry_of entries.now)) i
        ≢ slice_index (map places.place_of (map entry_of entries.now)) (i + 1) }
{
    for index in 1..entries.len() {
        let before = &entries[index - 1];
        if place_of(before) == place_of(&entries[index]) {
            return before.number;
        }
    }
    None
}

/// Returns the entries in the order in which they are asked, or why they have none.
fn ordered_entries<'a>(entries: Vec<NamedRule<'a>>) -> Result<Vec<NamedRule<'a>>, ChoiceFault>
    ensures ordered { IfOk result (λ ordered.
        AreOrdered (map entry_of entries.entry.items) (map entry_of ordered.items)) }
    ensures fault { IfErr result (IsOrderFault (map entry_of entries.entry.items)) }
{
    if none_numbered(entries.as_slice()) {
        return Ok(entries);
    }
    if !all_numbered(entries.as_slice()) {
        return Err(ChoiceFault::SomeNumbers);
    }
    let mut ordered = entries;
    ordered.sort_unstable_by_key(|entry| place_of(entry));
    match same_number(ordered.as_slice()) {
        Some(number) => Err(ChoiceFault::SameNumber(number)),
        None => Ok(ordered),
    }
}

/// Returns the rules of the entries.
fn rules_in(alloc: Global, entries: &[NamedRule<'_>]) -> Result<Vec<PrefixRule>, AllocError>
    ensures { IfOk result (λ rules. rules.items ≡ map (λ e. e.rule) (map entry_of entries.now)) }
{
    let mut rules = Vec::new(alloc);
    for entry in entries {
        rules.push(entry.rule)?;
    }
    Ok(rules)
}

/// Returns the rules of the list with this name, or of the only list, in the order in which they are asked; or why
/// there are none. Fails if memory runs out.
pub(crate) fn rules_of_list(
    alloc: Global,
    entries: Vec<NamedRule<'_>>,
    name: Option<&[u8]>,
) -> Result<Result<Vec<PrefixRule>, ChoiceFault>, AllocError>
    ensures { IfOk result (IsRuleChoice (lent_text name.entry) (map entry_of entries.entry.items)) }
{
    let chosen = match chosen_entries(alloc, entries, name)? {
        Ok(chosen) => chosen,
        Err(fault) => return Ok(Err(fault)),
    };
    match ordered_entries(chosen) {
        Ok(ordered) => Ok(Ok(rules_in(alloc, ordered.as_slice())?)),
        Err(fault) => Ok(Err(fault)),
    }
}
