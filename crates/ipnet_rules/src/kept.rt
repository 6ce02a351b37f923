//! Rules whose addresses the other rules of a list match, whatever the actions are.
ghost use Rattle.std.specs.Prelude.{◌≡◌, ◌<◌, ◌↔◌, false, length, IsTrue, IfOk, OnOk, All};
ghost use Rattle.ipnet_base.specs.Address.{IPv4, IPv6};
ghost use Rattle.ipnet_rules.specs.Cells.{owner_of, AreCells};
ghost use Rattle.ipnet_rules.specs.KeptRules.{AreKept};
ghost use Rattle.ipnet_rules.specs.KeptSteps.{HasCellsAdded, AreByOwner, for_family};
ghost use Rattle.ipnet_rules.specs.UnreachedRules.{MatchesAt};

pub mod laws;

use crate::cells::{self, Cells, Family, Painting};
use crate::rules::Rule;
use std::alloc::{AllocError, Global};

/// A cell of a family, and the first rule that matches its addresses, or the number of rules if none does.
#[derive(Clone, Copy)]
struct OwnedCell {
    owner: usize,
    family: Family,
    cell: usize,
}

/// Appends the cells of the family, which have these owners.
fn push_cells(list: &mut Vec<OwnedCell>, owners: &[usize], family: Family) -> Result<(), AllocError>
    ensures { OnOk result (HasCellsAdded family owners.now list.old.items list.new.items) }
{
    for cell in 0..owners.len() {
        let owner = owners[cell];
        list.push(OwnedCell {
            owner,
            family,
            cell,
        })?;
    }
    Ok(())
}

/// Returns the cells of both families in the order of their owners.
fn by_owner(alloc: Global, ipv4: &Cells, ipv6: &Cells) -> Result<Vec<OwnedCell>, AllocError>
    ensures { IfOk result (λ list. AreByOwner ipv4.now ipv6.now list.items) }
{
    let mut list = Vec::new(alloc);
    push_cells(&mut list, ipv4.owners.as_slice(), Family::Ipv4)?;
    push_cells(&mut list, ipv6.owners.as_slice(), Family::Ipv6)?;
    list.sort_unstable_by_key(|owned| owned.owner);
    Ok(list)
}

/// Returns this many flags, each false.
fn no_flags(alloc: Global, count: usize) -> Result<Vec<bool>, AllocError>
    ensures count { IfOk result (λ flags. length flags.items ≡ count) }
    ensures each { IfOk result (λ flags. All (λ flag. flag ≡ false) flags.items) }
{
    vec![in alloc; false; count]
}

/// Returns whether no kept rule matches the addresses of the cell.
fn is_free(ipv4: &Painting, ipv6: &Painting, owned: OwnedCell) -> bool
    requires { owned.cell < length (for_family owned.family ipv4.now ipv6.now).owners.items }
    ensures { IsTrue result ↔ (owner_of (for_family owned.family ipv4.now ipv6.now) owned.cell
        ≡ (for_family owned.family ipv4.now ipv6.now).free) }
{
    match owned.family {
        Family::Ipv4 => ipv4.owners[owned.cell] == ipv4.free,
        Family::Ipv6 => ipv6.owners[owned.cell] == ipv6.free,
    }
}

/// Returns which rules are kept. The cells are asked from the last owner to the first: if no kept rule matches the
/// addresses of a cell, its owner is kept.
fn keep(
    alloc: Global,
    rules: &[Rule],
    ipv4: &Cells,
    ipv6: &Cells,
    list: &[OwnedCell],
) -> Result<Vec<bool>, AllocError>
    requires ipv4 { AreCells IPv4 rules.now ipv4.now }
    requires ipv6 { AreCells IPv6 rules.now ipv6.now }
    requires list { AreByOwner ipv4.now ipv6.now list.now }
    ensures { IfOk result (λ kept. AreKept (MatchesAt rules.now) (length rules.now) kept.items) }
{
    let mut kept = no_flags(alloc, rules.len())?;
    let mut ipv4_painting = Painting::new(alloc, ipv4.cuts.len(), rules.len())?;
    let mut ipv6_painting = Painting::new(alloc, ipv6.cuts.len(), rules.len())?;
    let mut place = list.len();
    while place > 0 {
        place -= 1;
        let owned = list[place];
        let owner = owned.owner;
        if owner < rules.len() && is_free(&ipv4_painting, &ipv6_painting, owned) {
            kept[owner] = true;
            let pieces = cells::pieces_of(alloc, &rules[owner].addresses, Family::Ipv4)?;
            ipv4_painting.paint_all(ipv4.cuts.as_slice(), pieces.as_slice(), owner);
            let pieces = cells::pieces_of(alloc, &rules[owner].addresses, Family::Ipv6)?;
            ipv6_painting.paint_all(ipv6.cuts.as_slice(), pieces.as_slice(), owner);
        }
    }
    Ok(kept)
}

/// Returns for each rule whether it is kept. From the last rule to the first, a rule is dropped if the others that are
/// still there match all of its addresses. So the kept rules match the addresses that all rules match, and each of them
/// matches an address that no other kept rule matches. The actions do not matter: this serves lists of one action.
///
/// Fails only if memory runs out. For n rules of a range or a network each, it takes time O(n log n).
///
/// ```text
/// of 10.0.0.0/9, 10.0.0.0/8, 10.0.0.0/8:                  [false, true, false]
/// of 10.0.0.0/9, 10.128.0.0/9, 10.0.0.0-10.200.0.0:       [true, true, false]
/// ```
pub fn kept_rules(alloc: Global, rules: &[Rule]) -> Result<Vec<bool>, AllocError>
    ensures { IfOk result (λ kept. AreKept (MatchesAt rules.now) (length rules.now) kept.items) }
{
    let ipv4 = cells::cells_of(alloc, rules, Family::Ipv4)?;
    let ipv6 = cells::cells_of(alloc, rules, Family::Ipv6)?;
    let list = by_owner(alloc, &ipv4, &ipv6)?;
    keep(alloc, rules, &ipv4, &ipv6, list.as_slice())
}
