//! The numbers of one family, cut into cells at the ends of the ranges of all rules: which rule decides on each cell.
ghost use Rattle.std.specs.Prelude.{◌≡◌, ◌<◌, ◌≤◌, ◌≢◌, ◌↔◌, ℕ, length, IsTrue, IfOk, OnOk, IfSome, IsNone};
ghost use Rattle.std.specs.List.Sorted.{IsStrictlyIncreasing};
ghost use Rattle.ipnet_base.specs.Address.{address_at};
ghost use Rattle.ipnet_base.specs.RangeOf.{ip_range};
ghost use Rattle.ipnet_sets.specs.SetRanges.{IsInRange};
ghost use Rattle.ipnet_rules.specs.Cells.{family_of, IsInPiece, ArePieces, HasPieceAdded, HasEndsAdded, AreCuts};
ghost use Rattle.ipnet_rules.specs.Cells.{IsSpanOf, IsFreePainting, AreSkips, IsInSpan, IsCutIn, ArePainted};
ghost use Rattle.ipnet_rules.specs.Cells.{AreCells, AreNexts, AreInOrder, HasSpanAdded, HasOwnersAdded};

use crate::rules::{Addresses, Rule};
use ipnet::{IpAddr, IpAddrRange};
use std::alloc::{AllocError, Global};

/// A family of addresses.
#[derive(Clone, Copy)]
pub(crate) enum Family {
    Ipv4,
    Ipv6,
}

/// The numbers from the first to the last.
#[derive(Clone, Copy)]
pub(crate) struct Piece {
    pub(crate) first: u128,
    pub(crate) last: u128,
}

/// The cells from the start, up to the end.
#[derive(Clone, Copy)]
pub(crate) struct Span {
    pub(crate) start: usize,
    pub(crate) end: usize,
}

/// The cells of a family. Each begins at a cut and ends before the next one. Its owner is the index of the first rule
/// that matches its addresses, or the number of rules if none does.
#[derive(Drop)]
pub(crate) struct Cells {
    pub(crate) cuts: Vec<u128>,
    pub(crate) owners: Vec<usize>,
    /// For each cell a later one, up to which all cells have its owner.
    nexts: Vec<usize>,
}

/// Returns the numbers of the range if it is of the family.
fn piece_of(range: IpAddrRange, family: Family) -> Option<Piece>
    ensures some { IfSome result (λ p. (n : ℕ)
        → IsInPiece n p ↔ IsInRange (ip_range range) (address_at (family_of family) n)) }
    ensures none { IsNone result → (n : ℕ) → ¬ (IsInRange (ip_range range) (address_at (family_of family) n)) }
{
    match (family, range.min(), range.max()) {
        (Family::Ipv4, Some(IpAddr::V4(first)), Some(IpAddr::V4(last))) => Some(Piece {
            first: u128::from(first.to_bits()),
            last: u128::from(last.to_bits()),
        }),
        (Family::Ipv6, Some(IpAddr::V6(first)), Some(IpAddr::V6(last))) => Some(Piece {
            first: first.to_bits(),
            last: last.to_bits(),
        }),
        _ => None,
    }
}

/// Returns the numbers of the addresses of the family.
pub(crate) fn pieces_of(
    alloc: Global,
    addresses: &Addresses,
    family: Family,
) -> Result<Vec<Piece>, AllocError>
    ensures { IfOk result (λ pieces. ArePieces (family_of family) addresses.now pieces.items) }
{
    let set = addresses.to_set(alloc)?;
    let mut pieces = Vec::new(alloc);
    for range in set.ranges() {
        if let Some(piece) = piece_of(range, family) {
            pieces.push(piece)?;
        }
    }
    Ok(pieces)
}

/// Adds the first number of the piece, and the number after the last one.
fn push_piece(cuts: &mut Vec<u128>, piece: &Piece) -> Result<(), AllocError>
    ensures { OnOk result (HasPieceAdded cuts.old.items piece.now cuts.new.items) }
{
    cuts.push(piece.first)?;
    if let Some(next) = piece.last.checked_add(1) {
        cuts.push(next)?;
    }
    Ok(())
}

/// Adds the ends of each piece.
fn push_ends(cuts: &mut Vec<u128>, pieces: &[Piece]) -> Result<(), AllocError>
    ensures { OnOk result (HasEndsAdded cuts.old.items pieces.now cuts.new.items) }
{
    for piece in pieces {
        push_piece(cuts, piece)?;
    }
    Ok(())
}

/// Returns the numbers at which a range of the rules begins, or the one after it ends, in ascending order.
pub(crate) fn cuts_of(
    alloc: Global,
    rules: &[Rule],
    family: Family,
) -> Result<Vec<u128>, AllocError>
    ensures { IfOk result (λ cuts. AreCuts (family_of family) rules.now cuts.items) }
{
    let mut cuts = Vec::new(alloc);
    for rule in rules {
        let pieces = pieces_of(alloc, &rule.addresses, family)?;
        push_ends(&mut cuts, pieces.as_slice())?;
    }
    cuts.sort_unstable();
    cuts.dedup();
    Ok(cuts)
}

/// Returns the cells whose numbers lie in the piece, which begin and end there.
pub(crate) fn span_of(cuts: &[u128], piece: &Piece) -> Span
    ensures { IsStrictlyIncreasing cuts.now → IsSpanOf cuts.now piece.now result }
{
    let first = piece.first;
    let last = piece.last;
    Span {
        start: cuts.partition_point(|cut| *cut < first),
        end: cuts.partition_point(|cut| *cut <= last),
    }
}

/// The owners of cells, while the rules are asked one after the other.
#[derive(Drop)]
pub(crate) struct Painting {
    /// The owner of each cell, or `free`.
    pub(crate) owners: Vec<usize>,
    /// For each cell with an owner a later cell, up to which no cell is free.
    skips: Vec<usize>,
    pub(crate) free: usize,
}

impl Painting {
    /// Returns the painting of this many cells, of which each is free.
    pub(crate) fn new(alloc: Global, count: usize, free: usize) -> Result<Painting, AllocError>
        ensures { IfOk result (IsFreePainting count free) }
    {
        let mut owners = Vec::new(alloc);
        let mut skips = Vec::new(alloc);
        for _ in 0..count {
            owners.push(free)?;
            skips.push(0)?;
        }
        Ok(Painting {
            owners,
            skips,
            free,
        })
    }

    /// Makes the place the owner of each free cell of the span. Each cell is skipped at once when it is met again.
    pub(crate) fn paint(&mut self, span: Span, place: usize)
        requires skips { AreSkips self.old }
        requires within { span.end ≤ length self.old.owners.items }
        requires place { place ≢ self.old.free }
        ensures skips { AreSkips self.new }
        ensures painted { ArePainted (IsInSpan span) place self.old self.new }
    {
        let mut cell = span.start;
        while cell < span.end {
            if self.owners[cell] == self.free {
                self.owners[cell] = place;
                self.skips[cell] = span.end;
                cell += 1;
            } else {
                let after = self.skips[cell];
                if after < span.end {
                    self.skips[cell] = span.end;
                }
                cell = after;
            }
        }
    }

    /// Makes the place the owner of each free cell whose cut lies in one of the pieces.
    pub(crate) fn paint_all(&mut self, cuts: &[u128], pieces: &[Piece], place: usize)
        requires skips { AreSkips self.old }
        requires cuts { IsStrictlyIncreasing cuts.now }
        requires within { length self.old.owners.items ≡ length cuts.now }
        requires place { place ≢ self.old.free }
        ensures skips { AreSkips self.new }
        ensures painted { ArePainted (IsCutIn cuts.now pieces.now) place self.old self.new }
    {
        for piece in pieces {
            self.paint(span_of(cuts, piece), place);
        }
    }
}

/// Returns for each cell the next cell with another owner, or the number of cells.
fn nexts_of(alloc: Global, owners: &[usize]) -> Result<Vec<usize>, AllocError>
    ensures { IfOk result (λ nexts. AreNexts owners.now nexts.items) }
{
    let mut nexts = vec![in alloc; 0; owners.len()]?;
    let mut cell = owners.len();
    while cell > 0 {
        let next = cell;
        cell -= 1;
        if next < owners.len() && owners[next] == owners[cell] {
            nexts[cell] = nexts[next];
        } else {
            nexts[cell] = next;
        }
    }
    Ok(nexts)
}

/// Returns the cells of a family, each with the first rule that matches its addresses.
pub(crate) fn cells_of(alloc: Global, rules: &[Rule], family: Family) -> Result<Cells, AllocError>
    ensures { IfOk result (AreCells (family_of family) rules.now) }
{
    let cuts = cuts_of(alloc, rules, family)?;
    let mut painting = Painting::new(alloc, cuts.len(), rules.len())?;
    for place in 0..rules.len() {
        let pieces = pieces_of(alloc, &rules[place].addresses, family)?;
        painting.paint_all(cuts.as_slice(), pieces.as_slice(), place);
    }
    let owners = painting.owners;
    let nexts = nexts_of(alloc, owners.as_slice())?;
    Ok(Cells {
        cuts,
        owners,
        nexts,
    })
}

/// Adds the owners of the cells of the span, of neighbours with one owner only the first. Adds nothing if there are no
/// such cells, and ends at a cell that has no later one.
fn push_span(found: &mut Vec<usize>, cells: &Cells, span: Span) -> Result<(), AllocError>
    ensures { span.end ≤ length cells.now.owners.items → AreNexts cells.now.owners.items cells.now.nexts.items
        → OnOk result
        (HasSpanAdded cells.now.owners.items span.start span.end found.old.items found.new.items) }
{
    if span.end > cells.owners.len() || span.end > cells.nexts.len() {
        return Ok(());
    }
    let mut cell = span.start;
    while cell < span.end {
        let next = cells.nexts[cell];
        if next <= cell {
            return Ok(());
        }
        found.push(cells.owners[cell])?;
        cell = next;
    }
    Ok(())
}

/// Adds the owners of the cells in which the addresses lie.
pub(crate) fn push_owners(
    found: &mut Vec<usize>,
    cells: &Cells,
    pieces: &[Piece],
) -> Result<(), AllocError>
    ensures { AreInOrder cells.now
        → OnOk result (HasOwnersAdded cells.now pieces.now found.old.items found.new.items) }
{
    for piece in pieces {
        let span = span_of(cells.cuts.as_slice(), piece);
        push_span(found, cells, span)?;
    }
    Ok(())
}
