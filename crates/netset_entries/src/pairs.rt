//! How many addresses are in only one list of each pair, and how many are in both, as text.
ghost use Rattle.std.specs.Prelude.{◌≡◌, ◌<◌, ◌++◌, ◌↔◌, ◌∷◌, [], ℕ, List, IfOk, OnOk, IsTrue, length, slice_index_or};
ghost use Rattle.std.specs.Prelude.{string_bytes, decimal};
ghost use Rattle.ipnet_base.specs.Address.{IPv6};
ghost use Rattle.ipnet_lists.specs.Names.{name_at};
ghost use Rattle.ipnet_sets.specs.Members.{HaveSameAddresses, IsCountOf, IsMember, IsMemberOf};
ghost use Rattle.netset_entries.specs.ListPairs.{AreTabbedCounts, IsPairLine, IsPairAt, ArePairsOf, ArePairs};
ghost use Rattle.netset_entries.specs.ListPairs.{HaveAllSame};

use ipnet_bars::push_count;
use ipnet_lists::name_of;
use ipnet_sets::IpSet;
use std::alloc::{AllocError, Global};

/// Appends the number of IPv6 addresses of the set.
fn push_ipv6_count(text: &mut String, set: &IpSet) -> Result<(), AllocError>
    ensures { OnOk result ((n : ℕ) × IsCountOf (IsMemberOf IPv6 set.now) n
        × (string_bytes text.new ≡ string_bytes text.old ++ decimal n)) }
{
    push_count(text, set.ipv6_count())
}

/// Appends the numbers of IPv4 and IPv6 addresses of the set, with a tab before each.
fn push_tabbed_counts(text: &mut String, set: &IpSet) -> Result<(), AllocError>
    ensures { OnOk result ((counts : List ℕ) × AreTabbedCounts (IsMember set.now) counts
        × (string_bytes text.new ≡ string_bytes text.old ++ counts)) }
{
    let count = set.ipv4_count();
    text.push_str("\t")?;
    write!(text, "{count}")?;
    text.push_str("\t")?;
    push_ipv6_count(text, set)
}

/// Appends the counts of the addresses that are only in the first set, only in the second, and in both.
fn push_pair_counts(
    alloc: Global,
    text: &mut String,
    first: &IpSet,
    second: &IpSet,
) -> Result<(), AllocError>
    ensures { OnOk result ((only_first : List ℕ) × (only_second : List ℕ) × (both : List ℕ)
        × AreTabbedCounts (λ x. IsMember first.now x × ¬ (IsMember second.now x)) only_first
        × AreTabbedCounts (λ x. IsMember second.now x × ¬ (IsMember first.now x)) only_second
        × AreTabbedCounts (λ x. IsMember first.now x × IsMember second.now x) both
        × (string_bytes text.new ≡ string_bytes text.old ++ only_first ++ only_second ++ both)) }
{
    let only_first = first.difference(alloc, second)?;
    push_tabbed_counts(text, &only_first)?;
    let only_second = second.difference(alloc, first)?;
    push_tabbed_counts(text, &only_second)?;
    let both = first.intersection(alloc, second)?;
    push_tabbed_counts(text, &both)
}

/// Appends the line of a pair of sets, the first and the second name before it.
fn push_pair(
    alloc: Global,
    text: &mut String,
    names: (&str, &str),
    first: &IpSet,
    second: &IpSet,
) -> Result<(), AllocError>
    ensures { OnOk result ((line : List ℕ)
        × IsPairLine names.entry.0.now names.entry.1.now (IsMember first.now) (IsMember second.now) line
        × (string_bytes text.new ≡ string_bytes text.old ++ line)) }
{
    let (first_name, second_name) = names;
    text.push_str(first_name)?;
    text.push_str("\t")?;
    text.push_str(second_name)?;
    push_pair_counts(alloc, text, first, second)?;
    text.push_str("\n")?;
    Ok(())
}

/// Appends the lines of the set at this index with each set after it.
fn push_pairs_of(
    alloc: Global,
    text: &mut String,
    names: &[&str],
    sets: &[IpSet],
    index: usize,
) -> Result<(), AllocError>
    requires { index < length sets.now }
    ensures { OnOk result ((lines : List ℕ) × ArePairsOf IsMember names.now sets.now index lines
        × (string_bytes text.new ≡ string_bytes text.old ++ lines)) }
{
    let first = &sets[index];
    let first_name = name_of(names, index);
    let start = index + 1;
    for other in start..sets.len() {
        let pair_names = (first_name, name_of(names, other));
        push_pair(alloc, text, pair_names, first, &sets[other])?;
    }
    Ok(())
}

/// Returns a line for each pair of the sets, which have these names: both names, the numbers of IPv4 and IPv6 addresses
/// only in the first, those only in the second, and those in both, with tabs between.
///
/// Fails only if memory runs out.
///
/// ```text
/// a with 10.0.0.0/31, b with 10.0.0.1 and ::1: "a\tb\t1\t0\t0\t1\t1\t0\n"
/// one set: ""
/// ```
pub fn pairs_text(alloc: Global, names: &[&str], sets: &[IpSet]) -> Result<String, AllocError>
    ensures { IfOk result (λ text. ArePairs IsMember names.now sets.now (string_bytes text)) }
{
    let mut text = String::new(alloc);
    for index in 0..sets.len() {
        push_pairs_of(alloc, &mut text, names, sets, index)?;
    }
    Ok(text)
}

/// Returns whether the sets have the same addresses.
fn is_same(set: &IpSet, other: &IpSet) -> bool
    ensures { IsTrue result ↔ HaveSameAddresses set.now other.now }
{
    set == other
}

/// Returns whether no two of the sets differ.
///
/// ```text
/// 10.0.0.0/31, and 10.0.0.0 to 10.0.0.1: true; 10.0.0.0/31, 10.0.0.0/31 and ::1: false
/// ```
pub fn are_all_same(sets: &[IpSet]) -> bool
    ensures { IsTrue result ↔ HaveAllSame IsMember sets.now }
{
    let [first, others @ ..] = sets else {
        return true;
    };
    for other in others {
        if !is_same(other, first) {
            return false;
        }
    }
    true
}
