//! The number of addresses of each list and of all, and how many are in only one of two lists.
ghost use Rattle.std.specs.Prelude.{◌≡◌, ◌++◌, List, ℕ, OnOk, IfOk, string_bytes, decimal};
ghost use Rattle.ipnet_base.specs.Address.{IPv6};
ghost use Rattle.ipnet_sets.specs.Members.{IsCountOf, IsMember, IsMemberOf};
ghost use Rattle.netset_lib.specs.Counts.{IsCountsLine, IsCountLine, AreCountLines, IsTotalText, IsCountText};
ghost use Rattle.netset_lib.specs.Counts.{IsComparison};

use ipnet_lists::name_of;
use ipnet_sets::IpSet;
use std::alloc::{AllocError, Global};

/// How many IPv6 addresses there are, 2^128: no `u128` holds the number.
const ALL_IPV6: &str = "340282366920938463463374607431768211456";

/// The name of the line of all lists together.
const TOTAL: &str = "total";

/// Appends how many IPv6 addresses the set has.
fn push_ipv6_count(text: &mut String, set: &IpSet) -> Result<(), AllocError>
    ensures { OnOk result ((n : ℕ) × IsCountOf (IsMemberOf IPv6 set.now) n
        × (string_bytes text.new ≡ string_bytes text.old ++ decimal n)) }
{
    match set.ipv6_count() {
        Some(count) => write!(text, "{count}"),
        None => text.push_str(ALL_IPV6),
    }
}

/// Appends how many addresses of each family the set has, on one line.
///
/// ```text
/// of 10.0.0.0-10.0.0.5: "IPv4 6, IPv6 0\n"
/// ```
pub fn push_counts(text: &mut String, set: &IpSet) -> Result<(), AllocError>
    ensures { OnOk result ((line : List ℕ) × IsCountsLine (IsMember set.now) line
        × (string_bytes text.new ≡ string_bytes text.old ++ line)) }
{
    let count = set.ipv4_count();
    text.push_str("IPv4 ")?;
    write!(text, "{count}")?;
    text.push_str(", IPv6 ")?;
    push_ipv6_count(text, set)?;
    text.push_str("\n")
}

/// Appends a name and how many addresses of each family the set has, with a tab before each number, on one line.
fn push_count_line(text: &mut String, name: &str, set: &IpSet) -> Result<(), AllocError>
    ensures { OnOk result ((line : List ℕ) × IsCountLine name.now (IsMember set.now) line
        × (string_bytes text.new ≡ string_bytes text.old ++ line)) }
{
    let count = set.ipv4_count();
    text.push_str(name)?;
    text.push_str("\t")?;
    write!(text, "{count}")?;
    text.push_str("\t")?;
    push_ipv6_count(text, set)?;
    text.push_str("\n")
}

/// Appends a line for each set, with its name.
fn push_count_lines(text: &mut String, names: &[&str], sets: &[IpSet]) -> Result<(), AllocError>
    ensures { OnOk result ((lines : List ℕ) × AreCountLines IsMember names.now 0 sets.now lines
        × (string_bytes text.new ≡ string_bytes text.old ++ lines)) }
{
    let mut index = 0;
    for set in sets {
        push_count_line(text, name_of(names, index), set)?;
        index += 1;
    }
    Ok(())
}

/// Appends the line of all sets together, if there are two or more.
fn push_total(alloc: Global, text: &mut String, sets: &[IpSet]) -> Result<(), AllocError>
    ensures { OnOk result ((total : List ℕ) × IsTotalText IsMember sets.now total
        × (string_bytes text.new ≡ string_bytes text.old ++ total)) }
{
    match sets {
        [] | [_] => Ok(()),
        sets => {
            let all = IpSet::union_all(alloc, sets)?;
            push_count_line(text, TOTAL, &all)
        }
    }
}

/// The counts of the sets, which have these names, and the total.
pub(crate) fn counts_text(
    alloc: Global,
    names: &[&str],
    sets: &[IpSet],
) -> Result<String, AllocError>
    ensures { IfOk result (λ text. IsCountText IsMember names.now sets.now (string_bytes text)) }
{
    let mut text = String::new(alloc);
    push_count_lines(&mut text, names, sets)?;
    push_total(alloc, &mut text, sets)?;
    Ok(text)
}

/// The number of addresses that only the first and only the second set has; nothing if both have the same.
pub(crate) fn comparison_text(
    alloc: Global,
    first: &IpSet,
    second: &IpSet,
) -> Result<String, AllocError>
    ensures { IfOk result (λ text. IsComparison (IsMember first.now) (IsMember second.now) (string_bytes text)) }
{
    let mut text = String::new(alloc);
    if first == second {
        return Ok(text);
    }
    let only_first = first.difference(alloc, second)?;
    let only_second = second.difference(alloc, first)?;
    text.push_str("only in the first: ")?;
    push_counts(&mut text, &only_first)?;
    text.push_str("only in the second: ")?;
    push_counts(&mut text, &only_second)?;
    Ok(text)
}
