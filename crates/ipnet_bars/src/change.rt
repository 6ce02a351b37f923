//! How the addresses of a block differ between two sets.
ghost use Rattle.std.specs.Prelude.{◌≡◌, ◌↔◌, ◌≤◌, IfOk, IfSome, IfNone, map};
ghost use Rattle.std.specs.List.{AllZip};
ghost use Rattle.ipnet_base.specs.Address.{Address, width, ip_address};
ghost use Rattle.ipnet.specs.NetworkOf.{ip_network};
ghost use Rattle.ipnet_sets.specs.Members.{IsMember, IsSubset};
ghost use Rattle.ipnet_bars.specs.Changes.{IsOnlyIn, IsChange, AreChangesOf};

use crate::part::subnets_of;
use ipnet::{IpAddr, IpNet};
use ipnet_sets::IpSet;
use std::alloc::{AllocError, Global};

/// The change of the addresses of a block, if one set becomes another.
///
/// ```text
/// from 10.0.0.0/30 to 10.0.0.2/31: 10.0.0.0/30 is Removed, 10.0.0.2/31 is Unchanged, 10.0.0.4/30 is Unused
/// ```
#[derive(Clone, Copy, Debug, PartialEq, Eq)]
pub enum Change {
    /// Neither set has an address of the block.
    Unused,
    /// Both sets have the same addresses of the block, at least one.
    Unchanged,
    /// The first set has addresses that the second lacks, and the second has none that the first lacks.
    Removed,
    /// The second set has addresses that the first lacks, and the first has none that the second lacks.
    Added,
    /// Each set has addresses that the other lacks.
    Mixed,
}

/// The first address that only the first of the two sets has.
fn first_only_in(alloc: Global, one: &IpSet, other: &IpSet) -> Result<Option<IpAddr>, AllocError>
    ensures some { IfOk result (λ found. IfSome found (λ a.
        IsOnlyIn (IsMember one.now) (IsMember other.now) (ip_address a))) }
    ensures none { IfOk result (λ found. IfNone found (IsSubset one.now other.now)) }
{
    let rest = one.difference(alloc, other)?;
    Ok(rest.first())
}

/// Returns the change of the network's block, if the first set becomes the second. Fails only if memory runs out.
///
/// A change is never hidden: the block is `Unchanged` only if both sets have the same addresses of it.
///
/// ```text
/// of 10.0.0.0/30, from 10.0.0.0/30 to 10.0.0.2/31: Removed; from 10.0.0.0 to 10.0.0.1: Mixed
/// ```
pub fn change_in(
    alloc: Global,
    before: &IpSet,
    after: &IpSet,
    network: &IpNet,
) -> Result<Change, AllocError>
    ensures { IfOk result (IsChange (IsMember before.now) (IsMember after.now) (ip_network network.now)) }
{
    let first = before.within(alloc, network)?;
    let second = after.within(alloc, network)?;
    let removed = first_only_in(alloc, &first, &second)?;
    let added = first_only_in(alloc, &second, &first)?;
    match (removed, added) {
        (Some(_), Some(_)) => Ok(Change::Mixed),
        (Some(_), None) => Ok(Change::Removed),
        (None, Some(_)) => Ok(Change::Added),
        (None, None) => match first.first() {
            Some(_) => Ok(Change::Unchanged),
            None => Ok(Change::Unused),
        },
    }
}

/// Returns the changes of the networks, in order.
fn changes_of(
    alloc: Global,
    before: &IpSet,
    after: &IpSet,
    cells: &[IpNet],
) -> Result<Vec<Change>, AllocError>
    ensures { IfOk result (λ changes.
        AllZip (IsChange (IsMember before.now) (IsMember after.now)) (map ip_network cells.now) changes.items) }
{
    let mut changes = Vec::new(alloc);
    for cell in cells {
        let change = change_in(alloc, before, after, cell)?;
        changes.push(change)?;
    }
    Ok(changes)
}

/// Returns the changes of the subnets of the network with this prefix length, in order, if the first set becomes the
/// second. Fails only if memory runs out.
///
/// ```text
/// of 10.0.0.0/29, 30, from 10.0.0.0/30 to 10.0.0.2/31: [Removed, Unused]
/// ```
pub fn changes_in(
    alloc: Global,
    before: &IpSet,
    after: &IpSet,
    network: &IpNet,
    prefix_len: u8,
) -> Result<Vec<Change>, AllocError>
    requires long { (ip_network network.now).prefix_len ≤ prefix_len }
    requires fits { prefix_len ≤ width (ip_network network.now).family }
    ensures { IfOk result (λ changes. AreChangesOf (IsMember before.now) (IsMember after.now)
        (ip_network network.now) prefix_len changes.items) }
{
    let first = before.within(alloc, network)?;
    let second = after.within(alloc, network)?;
    let cells = subnets_of(alloc, network, prefix_len)?;
    changes_of(alloc, &first, &second, cells.as_slice())
}
