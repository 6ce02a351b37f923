//! Rules that decide on no address, because earlier rules match all of theirs.
ghost use Rattle.std.specs.Prelude.{◌⊎◌, ◌↔◌, ◌<◌, ℕ, length, Contains, IsTrue, IfOk, IfSome, IfNone};
ghost use Rattle.std.specs.List.Sorted.{IsNonDecreasing};
ghost use Rattle.ipnet_base.specs.Address.{IPv4, IPv6};
ghost use Rattle.ipnet_rules.specs.Cells.{AreCells};
ghost use Rattle.ipnet_rules.specs.Decisions.{AreDecisions};
ghost use Rattle.ipnet_rules.specs.UnreachedRules.{IsUnreached, IsUnreachedAt, AreDeciders};
ghost use Rattle.ipnet_rules.specs.UnreachedRules.{AreUnreached};

use crate::cells::{self, Cells, Family};
use crate::rules::{Rule, Rules};
use std::alloc::{AllocError, Global};

/// A rule that decides on no address.
///
/// ```text
/// of deny 10.0.0.0/9, permit 10.128.0.0/9, permit 10.0.0.0/8: Unreached { rule: 2, deciders: [0, 1] }
/// ```
#[derive(Drop)]
pub struct Unreached {
    /// The index of the rule in the list, counted from 0.
    pub rule: usize,
    /// The indexes of the earlier rules that decide on the addresses of this one, in ascending order. Together they
    /// match all of its addresses. Empty if the rule matches no address at all.
    pub deciders: Vec<usize>,
}

/// Which rules of a list decide on which addresses. It keeps the addresses at which the deciding rule changes, so its
/// memory grows with the rules.
///
/// ```text
/// of deny 10.0.0.0/8, permit 10.0.0.1, deny ::1: 0 decides in the place of 1, and the rules 0 and 2 decide themselves
/// ```
#[derive(Drop)]
pub struct Decisions {
    ipv4: Cells,
    ipv6: Cells,
    /// The rules that own a cell, in ascending order.
    reached: Vec<usize>,
}

/// Returns the rules that own a cell, in ascending order.
fn reached_rules(alloc: Global, ipv4: &Cells, ipv6: &Cells) -> Result<Vec<usize>, AllocError>
    ensures ascending { IfOk result (λ reached. IsNonDecreasing reached.items) }
    ensures members { IfOk result (λ reached. (place : ℕ) → Contains reached.items place
        ↔ (Contains ipv4.now.owners.items place ⊎ Contains ipv6.now.owners.items place)) }
{
    let mut reached = Vec::new(alloc);
    reached.extend_from_slice(ipv4.owners.as_slice())?;
    reached.extend_from_slice(ipv6.owners.as_slice())?;
    reached.sort_unstable();
    Ok(reached)
}

/// Returns whether the list, which ascends, has the place.
fn has_place(reached: &[usize], place: usize) -> bool
    ensures { IsNonDecreasing reached.now → IsTrue result ↔ Contains reached.now place }
{
    reached.binary_search(&place).is_ok()
}

/// Returns the indexes of the earlier rules that decide on addresses of the rule at the place, if it decides on none
/// and the cells were made from the rules.
fn deciders(
    alloc: Global,
    rules: &[Rule],
    place: usize,
    ipv4: &Cells,
    ipv6: &Cells,
) -> Result<Vec<usize>, AllocError>
    requires { place < length rules.now }
    ensures { IsUnreached rules.now place → AreCells IPv4 rules.now ipv4.now → AreCells IPv6 rules.now ipv6.now
        → IfOk result (λ list. AreDeciders rules.now place list.items) }
{
    let addresses = &rules[place].addresses;
    let ipv4_pieces = cells::pieces_of(alloc, addresses, Family::Ipv4)?;
    let ipv6_pieces = cells::pieces_of(alloc, addresses, Family::Ipv6)?;
    let mut found = Vec::new(alloc);
    cells::push_owners(&mut found, ipv4, ipv4_pieces.as_slice())?;
    cells::push_owners(&mut found, ipv6, ipv6_pieces.as_slice())?;
    found.sort_unstable();
    found.dedup();
    Ok(found)
}

impl Decisions {
    /// Returns which of the rules decide on which addresses. Fails only if memory runs out. Takes time O(n log n) for n
    /// networks and ranges in the rules.
    ///
    /// ```text
    /// of deny 10.0.0.0/8 and permit 10.0.0.1: 0 decides on 10.0.0.0/8
    /// ```
    pub fn of(alloc: Global, rules: &[Rule]) -> Result<Decisions, AllocError>
        ensures { IfOk result (AreDecisions rules.now) }
    {
        let ipv4 = cells::cells_of(alloc, rules, Family::Ipv4)?;
        let ipv6 = cells::cells_of(alloc, rules, Family::Ipv6)?;
        let reached = reached_rules(alloc, &ipv4, &ipv6)?;
        Ok(Decisions {
            ipv4,
            ipv6,
            reached,
        })
    }

    /// Returns the rule at the place, with the earlier rules that decide in its place, if it decides on no address.
    /// Returns `None` if it decides on an address, or if there is no such rule. Fails only if memory runs out.
    ///
    /// `rules` are the rules that these decisions were made from. With other rules, the result means nothing.
    ///
    /// ```text
    /// of deny 10.0.0.0/9, permit 10.128.0.0/9, permit 10.0.0.0/8: 2 is decided by 0 and 1, and None at 1 and 3
    /// ```
    pub fn unreached(
        &self,
        alloc: Global,
        rules: &[Rule],
        place: usize,
    ) -> Result<Option<Unreached>, AllocError>
        ensures some { AreDecisions rules.now self.now
            → IfOk result (λ found. IfSome found (IsUnreachedAt rules.now place)) }
        ensures none { AreDecisions rules.now self.now
            → IfOk result (λ found. IfNone found (¬ (IsUnreached rules.now place))) }
    {
        if place >= rules.len() {
            return Ok(None);
        }
        if has_place(self.reached.as_slice(), place) {
            return Ok(None);
        }
        let deciders = deciders(alloc, rules, place, &self.ipv4, &self.ipv6)?;
        Ok(Some(Unreached {
            rule: place,
            deciders,
        }))
    }
}

/// Returns the rules of the list that decide on no address.
pub(crate) fn unreached_rules(alloc: Global, rules: &[Rule]) -> Result<Vec<Unreached>, AllocError>
    ensures { IfOk result (λ found. AreUnreached rules.now found.items) }
{
    let decisions = Decisions::of(alloc, rules)?;
    let mut found = Vec::new(alloc);
    for place in 0..rules.len() {
        if let Some(unreached) = decisions.unreached(alloc, rules, place)? {
            found.push(unreached)?;
        }
    }
    Ok(found)
}

impl Rules {
    /// Returns the rules that decide on no address, in order, because earlier rules match all of their addresses. Each
    /// has the earlier rules that decide in its place. Fails only if memory runs out. The time grows as n log n, for n
    /// networks and ranges in the rules.
    ///
    /// ```text
    /// deny 10.0.0.0/9, permit 10.128.0.0/9, permit 10.0.0.0/8: rule 2, for which 0 and 1 decide
    /// ```
    pub fn unreached(&self, alloc: Global) -> Result<Vec<Unreached>, AllocError>
        ensures { IfOk result (λ found. AreUnreached self.now.list.items found.items) }
    {
        unreached_rules(alloc, self.list.as_slice())
    }
}
