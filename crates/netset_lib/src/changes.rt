//! The changes that turn the networks of one set into the networks of another.
ghost use Rattle.std.specs.Prelude.{◌≡◌, ◌+◌, ◌<◌, ◌++◌, List, [], IfOk, OnOk, IfSome, IfNone};
ghost use Rattle.std.specs.Prelude.{map, length, string_bytes};
ghost use Rattle.ipnet.specs.NetworkOf.{ip_network};
ghost use Rattle.ipnet_base.specs.Blocks.{IsAscending};
ghost use Rattle.ipnet_sets.specs.Members.{IsMember};
ghost use Rattle.netset_lib.specs.Changes.{ListChange, AreChanges, AreChangeLines, AreAddressChanges, change_line};
ghost use Rattle.netset_lib.specs.Changes.{text_of_changes};
ghost use Rattle.netset_lib.specs.ChangeSteps.{change_of, IsFirstStep};

pub mod laws;

use ipnet::IpNet;
use ipnet::net::laws::ip_nets_compare_by_network;
use ipnet_sets::IpSet;
use std::alloc::{AllocError, Global};

/// A change of a list of networks.
#[derive(Clone, Copy)]
pub(crate) enum Change {
    Added(IpNet),
    Removed(IpNet),
}

/// The comparison of the first networks of two lists, and the networks that are left to compare.
#[derive(Clone, Copy)]
struct Step<'a> {
    /// The change, or `None` if the two networks are equal.
    change: Option<Change>,
    before: &'a [IpNet],
    after: &'a [IpNet],
}

/// Compares the first networks of two ascending lists. Returns `None` if both lists are empty.
fn first_step<'a>(before: &'a [IpNet], after: &'a [IpNet]) -> Option<Step<'a>>
    ensures step { IfSome result (λ s. IsFirstStep (map ip_network before.now) (map ip_network after.now) s.change
        (map ip_network s.before.now) (map ip_network s.after.now)) }
    ensures fewer { IfSome result (λ s.
        length s.before.now + length s.after.now < length before.now + length after.now) }
    ensures none { IfNone result ((before.now ≡ []) × (after.now ≡ [])) }
{
    ip_nets_compare_by_network();
    match (before.split_first(), after.split_first()) {
        (None, None) => None,
        (Some((removed, rest)), None) => Some(Step {
            change: Some(Change::Removed(*removed)),
            before: rest,
            after,
        }),
        (None, Some((added, rest))) => Some(Step {
            change: Some(Change::Added(*added)),
            before,
            after: rest,
        }),
        (Some((removed, before_rest)), Some((added, after_rest))) => {
            if removed < added {
                return Some(Step {
                    change: Some(Change::Removed(*removed)),
                    before: before_rest,
                    after,
                });
            }
            if added < removed {
                return Some(Step {
                    change: Some(Change::Added(*added)),
                    before,
                    after: after_rest,
                });
            }
            Some(Step {
                change: None,
                before: before_rest,
                after: after_rest,
            })
        }
    }
}

/// Appends the line of the change.
fn push_change(text: &mut String, change: Change) -> Result<(), AllocError>
    ensures { OnOk result (string_bytes text.new ≡ string_bytes text.old ++ change_line (change_of change)) }
{
    let network = match change {
        Change::Added(network) => {
            text.push_str("+ ")?;
            network
        }
        Change::Removed(network) => {
            text.push_str("- ")?;
            network
        }
    };
    text.push_str(network.to_text().as_str())?;
    text.push_str("\n")
}

/// Appends the changes that turn the first list of networks into the second. Both are ascending.
fn push_changes(text: &mut String, before: &[IpNet], after: &[IpNet]) -> Result<(), AllocError>
    requires before { IsAscending (map ip_network before.now) }
    requires after { IsAscending (map ip_network after.now) }
    ensures { OnOk result ((changes : List ListChange)
        × AreChanges (map ip_network before.now) (map ip_network after.now) changes
        × (string_bytes text.new ≡ string_bytes text.old ++ text_of_changes changes)) }
{
    let mut before_left = before;
    let mut after_left = after;
    while let Some(step) = first_step(before_left, after_left) {
        if let Some(change) = step.change {
            push_change(text, change)?;
        }
        before_left = step.before;
        after_left = step.after;
    }
    Ok(())
}

/// Returns the changes that turn the networks of the first set into the networks of the second, one a line: `+` and
/// each network of the second that the first lacks, `-` and each network of the first that the second lacks. They are
/// in ascending order of the networks. The networks of a set are the fewest that have its addresses.
///
/// Fails only if memory runs out.
///
/// ```text
/// from 10.0.0.0/8 to 10.0.0.0/9 and ::1:   "- 10.0.0.0/8\n+ 10.0.0.0/9\n+ ::1/128\n"
/// from 10.0.0.0/9 and 10.128.0.0/9 to 10.0.0.0/8: ""
/// ```
pub fn changes_text(alloc: Global, before: &IpSet, after: &IpSet) -> Result<String, AllocError>
    ensures { IfOk result (λ text. AreChangeLines (IsMember before.now) (IsMember after.now) (string_bytes text)) }
{
    let before = before.networks(alloc)?;
    let after = after.networks(alloc)?;
    let mut text = String::new(alloc);
    push_changes(&mut text, before.as_slice(), after.as_slice())?;
    Ok(text)
}

/// Returns the changes of addresses from the first set to the second, one a line: `+` and each network of the addresses
/// that only the second has, `-` and each network of the addresses that only the first has. They are in ascending order
/// of the networks. The networks are the fewest that have these addresses.
///
/// Fails only if memory runs out.
///
/// ```text
/// from 10.0.0.0/8 to 10.0.0.0/9 and ::1:   "- 10.128.0.0/9\n+ ::1/128\n"
/// from 10.0.0.0/9 and 10.128.0.0/9 to 10.0.0.0/8: ""
/// ```
pub fn address_changes_text(
    alloc: Global,
    before: &IpSet,
    after: &IpSet,
) -> Result<String, AllocError>
    ensures { IfOk result (λ text. AreAddressChanges (IsMember before.now) (IsMember after.now) (string_bytes text)) }
{
    let removed = before.difference(alloc, after)?;
    let added = after.difference(alloc, before)?;
    changes_text(alloc, &removed, &added)
}
