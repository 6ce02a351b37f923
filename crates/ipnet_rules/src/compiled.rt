//! Compiled prefix lists: for each family, the verdicts on the networks of each prefix length.
ghost use Rattle.std.specs.Prelude.{◌≡◌, ◌↔◌, ◌≤◌, ◌<◌, ◌+◌, ◌^◌, ℕ, List, All, length, IsTrue, IfOk, IfSome, IsNone};
ghost use Rattle.std.specs.List.Sorted.{IsStrictlyIncreasing};
ghost use Rattle.ipnet_base.specs.Address.{Family, IPv4, IPv6, address_at, width};
ghost use Rattle.ipnet_base.specs.Network.{InBlock};
ghost use Rattle.ipnet.specs.NetworkOf.{ip_network};
ghost use Rattle.ipnet.specs.NetworkParts.{network_at};
ghost use Rattle.ipnet_rules.specs.declared.prefix_list.PrefixRule.{PrefixRule};
ghost use Rattle.ipnet_rules.specs.Cells.{family_of, IsInCell, IsInPiece};
ghost use Rattle.ipnet_rules.specs.PrefixLists.{IsRouteVerdict, IsRoutePermitted};
ghost use Rattle.ipnet_rules.specs.CompiledLists.{IsNetworkSpan, ArePlaced, ArePaintedBy, ArePermittedCells};
ghost use Rattle.ipnet_rules.specs.CompiledLists.{AreRulesForAddresses, AreFamilyVerdicts, paint_for};

use crate::cells::{self, Painting, Piece, Span};
use crate::prefix_list::{PrefixList, PrefixRule};
use crate::rules::{Action, Rule};
use ipnet::{IpAddr, IpNet};
use std::alloc::{AllocError, Global};

/// The paint of a cell whose networks no rule matches.
const UNMATCHED: usize = 0;

/// The paint of a cell whose networks are permitted.
const PERMITTED: usize = 1;

/// The paint of a cell whose networks a rule denies.
const DENIED: usize = 2;

/// A rule, and the cells that its network contains.
#[derive(Clone, Copy)]
struct PlacedRule {
    rule: PrefixRule,
    span: Span,
}

/// The verdicts of a prefix list on the networks of a family.
#[derive(Drop)]
struct FamilyVerdicts {
    /// The numbers at which a network of the rules begins, or the one after it ends, in ascending order. A cell is the
    /// numbers from one of them on, before the next.
    cuts: Vec<u128>,
    /// For each prefix length, whether the networks of this length in each cell are permitted.
    permitted: Vec<Vec<bool>>,
}

/// Returns the paint of the cells that a rule of this action decides on.
fn paint_of(action: Action) -> usize
    ensures { result ≡ paint_for action }
{
    match action {
        Action::Permit => PERMITTED,
        Action::Deny => DENIED,
    }
}

/// Returns the numbers of the network's addresses if it is of the family.
fn piece_of(network: &IpNet, family: cells::Family) -> Option<Piece>
    ensures some { IfSome result (λ p. (n : ℕ)
        → IsInPiece n p ↔ InBlock (ip_network network.now) (address_at (family_of family) n)) }
    ensures none { IsNone result
        → (n : ℕ) → ¬ (InBlock (ip_network network.now) (address_at (family_of family) n)) }
{
    match (family, network.network(), network.broadcast()) {
        (cells::Family::Ipv4, IpAddr::V4(first), IpAddr::V4(last)) => Some(Piece {
            first: u128::from(first.to_bits()),
            last: u128::from(last.to_bits()),
        }),
        (cells::Family::Ipv6, IpAddr::V6(first), IpAddr::V6(last)) => Some(Piece {
            first: first.to_bits(),
            last: last.to_bits(),
        }),
        _ => None,
    }
}

/// Returns the cells that the network contains.
fn span_of(cuts: &[u128], network: &IpNet, family: cells::Family) -> Span
    requires { IsStrictlyIncreasing cuts.now }
    ensures { IsNetworkSpan (family_of family) cuts.now (ip_network network.now) result }
{
    match piece_of(network, family) {
        Some(piece) => cells::span_of(cuts, &piece),
        None => Span { start: 0, end: 0 },
    }
}

/// Returns each rule with the cells that its network contains.
fn placed_rules(
    alloc: Global,
    rules: &[PrefixRule],
    cuts: &[u128],
    family: cells::Family,
) -> Result<Vec<PlacedRule>, AllocError>
    requires { IsStrictlyIncreasing cuts.now }
    ensures { IfOk result (λ placed. ArePlaced (family_of family) cuts.now rules.now placed.items) }
{
    let mut placed = Vec::new(alloc);
    for rule in rules {
        let span = span_of(cuts, &rule.network(), family);
        placed.push(PlacedRule { rule: *rule, span })?;
    }
    Ok(placed)
}

/// Returns the cells, painted by the rules for the networks of this length: the first rule paints first.
fn painted(
    alloc: Global,
    placed: &[PlacedRule],
    count: usize,
    prefix_len: u8,
) -> Result<Painting, AllocError>
    requires { All (λ p. p.span.end ≤ count) placed.now }
    ensures { IfOk result (ArePaintedBy prefix_len placed.now count) }
{
    let mut painting = Painting::new(alloc, count, UNMATCHED)?;
    for placed_rule in placed {
        if placed_rule.rule.can_match(prefix_len) {
            painting.paint(placed_rule.span, paint_of(placed_rule.rule.action()));
        }
    }
    Ok(painting)
}

/// Returns for each cell whether its networks of this length are permitted.
fn permitted_cells(
    alloc: Global,
    placed: &[PlacedRule],
    count: usize,
    prefix_len: u8,
) -> Result<Vec<bool>, AllocError>
    requires { All (λ p. p.span.end ≤ count) placed.now }
    ensures { IfOk result (λ cells. ArePermittedCells prefix_len placed.now count cells.items) }
{
    let painting = painted(alloc, placed, count, prefix_len)?;
    let mut permitted = Vec::with_capacity(alloc, count)?;
    for owner in painting.owners.as_slice() {
        permitted.push(*owner == PERMITTED)?;
    }
    Ok(permitted)
}

/// Returns the rules for the addresses of the rules' networks.
fn rules_for_addresses(alloc: Global, rules: &[PrefixRule]) -> Result<Vec<Rule>, AllocError>
    ensures { IfOk result (λ list. AreRulesForAddresses rules.now list.items) }
{
    let mut list = Vec::new(alloc);
    for rule in rules {
        list.push(rule.for_addresses())?;
    }
    Ok(list)
}

/// Returns the number of prefix lengths of the family, from 0 to the number of bits of an address.
fn length_count(family: cells::Family) -> u8
    ensures { result ≡ width (family_of family) + 1 }
{
    match family {
        cells::Family::Ipv4 => 33,
        cells::Family::Ipv6 => 129,
    }
}

/// Returns the verdicts of the rules on the networks of the family.
fn family_verdicts(
    alloc: Global,
    rules: &[PrefixRule],
    family: cells::Family,
) -> Result<FamilyVerdicts, AllocError>
    ensures { IfOk result (AreFamilyVerdicts (family_of family) rules.now) }
{
    let list = rules_for_addresses(alloc, rules)?;
    let cuts = cells::cuts_of(alloc, list.as_slice(), family)?;
    let placed = placed_rules(alloc, rules, cuts.as_slice(), family)?;
    let mut permitted = Vec::new(alloc);
    for prefix_len in 0..length_count(family) {
        let cells = permitted_cells(alloc, placed.as_slice(), cuts.len(), prefix_len)?;
        permitted.push(cells)?;
    }
    Ok(FamilyVerdicts { cuts, permitted })
}

/// Returns the cell in which the number lies, or `None` if it comes before all cells.
fn cell_of(cuts: &[u128], number: u128) -> Option<usize>
    requires { IsStrictlyIncreasing cuts.now }
    ensures some { IfSome result (λ cell. IsInCell cuts.now cell number) }
    ensures none { IsNone result → (cell : ℕ) → ¬ (IsInCell cuts.now cell number) }
{
    let after = cuts.partition_point(|cut| *cut <= number);
    if after == 0 {
        return None;
    }
    Some(after - 1)
}

impl FamilyVerdicts {
    /// Returns whether the network of this length at the address with this number is permitted.
    fn permits(&self, number: u128, prefix_len: u8) -> bool
        requires { (f : Family) × (rules : List PrefixRule) × ∥ AreFamilyVerdicts f rules self.now ∥₁
            × (prefix_len ≤ width f) }
        ensures { (f : Family) → (rules : List PrefixRule) → AreFamilyVerdicts f rules self.now
            → number < 2 ^ width f → prefix_len ≤ width f
            → IsTrue result ↔ IsRoutePermitted rules (network_at (address_at f number) prefix_len) }
    {
        match cell_of(self.cuts.as_slice(), number) {
            Some(cell) => self.permitted[prefix_len as usize][cell],
            None => false,
        }
    }
}

/// A compiled prefix list: it has the verdicts of the prefix list that it was made of.
///
/// The ends of the rules' networks cut the addresses of a family into cells. Beside the list, it keeps a byte for each
/// prefix length and each cell: at most 66 bytes for an IPv4 rule, and 258 bytes for an IPv6 rule. A verdict is one
/// search among the ends, however many rules there are.
///
/// ```text
/// deny 10.1.0.0/16 le 32, permit 10.0.0.0/8 ge 16 le 24:
/// 10.2.0.0/16 is permitted; 10.1.2.0/24, 10.2.0.0/25 and 10.0.0.0/8 are denied
/// ```
#[derive(Drop)]
pub struct CompiledPrefixList {
    list: PrefixList,
    ipv4: FamilyVerdicts,
    ipv6: FamilyVerdicts,
    ghost of_ipv4: { ∥ AreFamilyVerdicts IPv4 list.list.items ipv4 ∥₁ },
    ghost of_ipv6: { ∥ AreFamilyVerdicts IPv6 list.list.items ipv6 ∥₁ },
}

impl CompiledPrefixList {
    ghost use Rattle.ipnet_rules.specs.CompiledListOf.{rules_of};

    /// Returns the compiled list. Fails only if memory runs out. The time grows with `n log n` for n rules, and with
    /// the number of prefix lengths.
    ///
    /// ```text
    /// permit 10.0.0.0/8 ge 16 le 24: a compiled list that permits 10.2.0.0/16
    /// ```
    pub fn from_list(alloc: Global, list: PrefixList) -> Result<CompiledPrefixList, AllocError>
        ensures { IfOk result (λ compiled. rules_of compiled ≡ list.list.items) }
    {
        let ipv4 = family_verdicts(alloc, list.list.as_slice(), cells::Family::Ipv4)?;
        let ipv6 = family_verdicts(alloc, list.list.as_slice(), cells::Family::Ipv6)?;
        Ok(CompiledPrefixList { list, ipv4, ipv6 })
    }

    /// Returns the action of the first rule that matches the network, or `Deny` if none does, as `PrefixList::verdict`
    /// does. Allocates nothing; the time grows with the logarithm of the number of rules.
    ///
    /// ```text
    /// deny 10.1.0.0/16 le 32, permit 10.0.0.0/8 ge 16 le 24: Permit for 10.2.0.0/16, Deny for 10.1.2.0/24
    /// ```
    pub fn verdict(&self, network: &IpNet) -> Action
        ensures { IsRouteVerdict (rules_of self.now) (ip_network network.now) result }
    {
        if self.permits(network) {
            Action::Permit
        } else {
            Action::Deny
        }
    }

    /// Returns whether the list permits the network: its verdict is `Permit`. Allocates nothing, and takes as long as
    /// `verdict`.
    ///
    /// ```text
    /// deny 10.1.0.0/16 le 32, permit 10.0.0.0/8 ge 16 le 24: 10.2.0.0/16 is permitted, 10.1.2.0/24 is not
    /// ```
    pub fn permits(&self, network: &IpNet) -> bool
        ensures { IsTrue result ↔ IsRoutePermitted (rules_of self.now) (ip_network network.now) }
    {
        match network {
            IpNet::V4(network) => {
                let number = u128::from(network.addr().to_bits());
                self.ipv4.permits(number, network.prefix_len())
            }
            IpNet::V6(network) => {
                let number = network.addr().to_bits();
                self.ipv6.permits(number, network.prefix_len())
            }
        }
    }
}
