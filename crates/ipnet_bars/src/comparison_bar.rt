//! Bars that compare two sets: what the first has and the second lacks, and the reverse.
ghost use Rattle.std.specs.Prelude.{◌≡◌, ◌++◌, List, ℕ, IfOk, OnOk, string_bytes, All, map, ◌≤◌};
ghost use Rattle.ipnet_base.specs.Address.{width};
ghost use Rattle.ipnet.specs.NetworkOf.{ip_network};
ghost use Rattle.ipnet_sets.specs.Members.{IsMember, IsDifference, IsIntersection, IsCountOf};
ghost use Rattle.ipnet_bars.specs.Bars.{AreRows};
ghost use Rattle.ipnet_bars.specs.ComparisonBars.{change_text, changes_text, change_tail, IsChangeRow};
ghost use Rattle.ipnet_bars.specs.ComparisonBars.{worded_line, IsLegend, AreChangesOutside, IsComparisonBar};
ghost use Rattle.ipnet_bars.specs.Parts.{counted};

use crate::bar::{BarForm, RowForm, push_first_line, push_head, rows_of};
use crate::change::{Change, changes_in};
use crate::marks::Marks;
use crate::outside::push_outside;
use crate::part::count_in;
use crate::summary::push_count;
use ipnet::IpNet;
use ipnet_sets::IpSet;
use std::alloc::{AllocError, Global};

/// Two sets, and the addresses that only one of them has.
#[derive(Clone, Copy)]
struct Compared<'a> {
    before: &'a IpSet,
    after: &'a IpSet,
    removed: &'a IpSet,
    added: &'a IpSet,
}

/// The text of the mark.
fn change_mark(marks: Marks, change: Change) -> &'static str
    ensures { result.now ≡ change_text marks change }
{
    match change {
        Change::Unused => match marks {
            Marks::Ascii => ".",
            Marks::Utf8 => "·",
        },
        Change::Unchanged => "=",
        Change::Removed => "-",
        Change::Added => "+",
        Change::Mixed => "!",
    }
}

/// Appends the marks.
fn push_change_marks(text: &mut String, marks: Marks, changes: &[Change]) -> Result<(), AllocError>
    ensures { OnOk result (string_bytes text.new ≡ string_bytes text.old ++ changes_text marks changes.now) }
{
    for change in changes {
        text.push_str(change_mark(marks, *change))?;
    }
    Ok(())
}

/// Appends the end of a row.
fn push_change_tail(
    text: &mut String,
    removed: Option<u128>,
    added: Option<u128>,
) -> Result<(), AllocError>
    ensures { OnOk result (string_bytes text.new
        ≡ string_bytes text.old ++ change_tail (counted removed) (counted added)) }
{
    text.push_str("| -")?;
    push_count(text, removed)?;
    text.push_str(" +")?;
    push_count(text, added)?;
    text.push_str("\n")?;
    Ok(())
}

/// Appends the row of the block.
fn push_change_row(
    alloc: Global,
    text: &mut String,
    sets: Compared<'_>,
    row: &IpNet,
    form: RowForm,
) -> Result<(), AllocError>
    requires long { (ip_network row.now).prefix_len ≤ form.mark_len }
    requires fits { form.mark_len ≤ width (ip_network row.now).family }
    requires removed { IsDifference sets.removed.now sets.before.now sets.after.now }
    requires added { IsDifference sets.added.now sets.after.now sets.before.now }
    ensures { let s = sets.entry in OnOk result ((line : List ℕ)
        × IsChangeRow (IsMember s.before.now) (IsMember s.after.now) form.marks form.mark_len form.column
        (ip_network row.now) line
        × (string_bytes text.new ≡ string_bytes text.old ++ line)) }
{
    let changes = changes_in(alloc, sets.before, sets.after, row, form.mark_len)?;
    let removed = count_in(alloc, sets.removed, row)?;
    let added = count_in(alloc, sets.added, row)?;
    push_head(text, row, form.column)?;
    push_change_marks(text, form.marks, changes.as_slice())?;
    push_change_tail(text, removed, added)?;
    Ok(())
}

/// Appends the rows of the blocks.
fn push_change_rows(
    alloc: Global,
    text: &mut String,
    sets: Compared<'_>,
    rows: &[IpNet],
    form: RowForm,
) -> Result<(), AllocError>
    requires fit { All (λ n. ((ip_network n).prefix_len ≤ form.mark_len)
        × (form.mark_len ≤ width (ip_network n).family)) rows.now }
    requires removed { IsDifference sets.removed.now sets.before.now sets.after.now }
    requires added { IsDifference sets.added.now sets.after.now sets.before.now }
    ensures { let s = sets.entry in OnOk result ((lines : List ℕ)
        × AreRows (IsChangeRow (IsMember s.before.now) (IsMember s.after.now) form.marks form.mark_len form.column)
        (map ip_network rows.now) lines
        × (string_bytes text.new ≡ string_bytes text.old ++ lines)) }
{
    for row in rows {
        push_change_row(alloc, text, sets, row, form)?;
    }
    Ok(())
}

/// Appends the words and the count, on one line.
fn push_worded(text: &mut String, words: &str, count: Option<u128>) -> Result<(), AllocError>
    ensures { OnOk result (string_bytes text.new ≡ string_bytes text.old ++ worded_line words.now (counted count)) }
{
    text.push_str(words)?;
    push_count(text, count)?;
    text.push_str("\n")?;
    Ok(())
}

/// Appends the lines below the rows of the network.
fn push_legend(
    alloc: Global,
    text: &mut String,
    sets: Compared<'_>,
    network: &IpNet,
) -> Result<(), AllocError>
    requires removed { IsDifference sets.removed.now sets.before.now sets.after.now }
    requires added { IsDifference sets.added.now sets.after.now sets.before.now }
    ensures { let s = sets.entry in OnOk result ((lines : List ℕ)
        × IsLegend (IsMember s.before.now) (IsMember s.after.now) (ip_network network.now) lines
        × (string_bytes text.new ≡ string_bytes text.old ++ lines)) }
{
    let kept = sets.before.intersection(alloc, sets.after)?;
    let removed = count_in(alloc, sets.removed, network)?;
    let added = count_in(alloc, sets.added, network)?;
    let kept = count_in(alloc, &kept, network)?;
    push_worded(text, "- only in the first: ", removed)?;
    push_worded(text, "+ only in the second: ", added)?;
    push_worded(text, "= in both: ", kept)?;
    text.push_str("! is - and + in one mark")?;
    text.push_str("\n")?;
    Ok(())
}

/// Appends what differs outside the network.
fn push_changes_outside(
    alloc: Global,
    text: &mut String,
    sets: Compared<'_>,
    network: &IpNet,
) -> Result<(), AllocError>
    requires removed { IsDifference sets.removed.now sets.before.now sets.after.now }
    requires added { IsDifference sets.added.now sets.after.now sets.before.now }
    ensures { let s = sets.entry in OnOk result ((lines : List ℕ)
        × AreChangesOutside (IsMember s.before.now) (IsMember s.after.now) (ip_network network.now) lines
        × (string_bytes text.new ≡ string_bytes text.old ++ lines)) }
{
    push_outside(alloc, text, "- ", sets.removed, network)?;
    push_outside(alloc, text, "+ ", sets.added, network)?;
    Ok(())
}

/// Returns the bar of the network that compares two sets: what the first has and the second lacks, and the reverse.
/// Fails only if memory runs out.
///
/// There are at most 16 rows. Each is a network, and each mark is a network of one prefix length: `-` if only the first
/// set has some of its addresses, `+` if only the second has some, `!` if both is true, and `=` if both sets have the
/// same of its addresses. A mark shows a change however small it is. At the end of a row are the numbers of addresses
/// that only the first and only the second set has; below are these numbers for the network and outside it.
///
/// ```text
/// of 10.0.0.0/28, from 10.0.0.0-10.0.0.9 to 10.0.0.8-10.0.0.15, with 4 ASCII marks in a row:
/// 10.0.0.0/28, a mark is one /32
/// 10.0.0.0/30  |----| -4 +0
/// 10.0.0.4/30  |----| -4 +0
/// 10.0.0.8/30  |==++| -0 +2
/// 10.0.0.12/30 |++++| -0 +4
/// - only in the first: 8
/// + only in the second: 6
/// = in both: 2
/// ! is - and + in one mark
/// ```
pub fn comparison_bar_text(
    alloc: Global,
    before: &IpSet,
    after: &IpSet,
    network: &IpNet,
    form: BarForm,
) -> Result<String, AllocError>
    ensures { IfOk result (λ text. IsComparisonBar (IsMember before.now) (IsMember after.now)
        (ip_network network.now) form.row_width form.marks (string_bytes text)) }
{
    let rows = rows_of(alloc, network, form)?;
    let removed = before.difference(alloc, after)?;
    let added = after.difference(alloc, before)?;
    let sets = Compared {
        before,
        after,
        removed: &removed,
        added: &added,
    };
    let mut text = String::new(alloc);
    push_first_line(&mut text, network, rows.form.mark_len)?;
    push_change_rows(alloc, &mut text, sets, rows.networks.as_slice(), rows.form)?;
    push_legend(alloc, &mut text, sets, network)?;
    push_changes_outside(alloc, &mut text, sets, network)?;
    Ok(text)
}
