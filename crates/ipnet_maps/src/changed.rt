//! The cells of a map that compares two sets.
ghost use Rattle.std.specs.Prelude.{◌↔◌, IfOk};
ghost use Rattle.ipnet_base.specs.Address.{Address};
ghost use Rattle.ipnet_sets.specs.Members.{IsMember};
ghost use Rattle.ipnet_bars.specs.declared.change.Change.TheVariants.{Removed, Added, Mixed};
ghost use Rattle.ipnet_bars.specs.Changes.{IsChange};
ghost use Rattle.ipnet_maps.specs.Cells.{IsInCell, IsKeptPart, IsKeptWhole};

use crate::cells::{cells_with_all, cells_with_some};
use ipnet_sets::IpSet;
use std::alloc::{AllocError, Global};

/// The cells in which two sets have addresses, by what differs in them. No two of these sets share an address.
///
/// ```text
/// from 10.0.0.0-10.0.1.9 to 10.0.1.0-10.0.2.0 with cells of length 24: `removed` is 10.0.0.0/23, because 10.0.0.0/24
/// and some of 10.0.1.0/24 are gone; `added` is 10.0.2.0/24; the others are empty
/// ```
#[derive(Drop)]
pub struct ChangedCells {
    /// The first set has addresses that the second lacks, and the second has none that the first lacks.
    pub removed: IpSet,
    /// The second set has addresses that the first lacks, and the first has none that the second lacks.
    pub added: IpSet,
    /// Each set has addresses that the other lacks.
    pub mixed: IpSet,
    /// Both sets have the same addresses of the cell: some, and not all.
    pub kept_part: IpSet,
    /// Both sets have all addresses of the cell.
    pub kept_whole: IpSet,
}

/// Returns the cells in which two sets have addresses, by what differs in them; a cell is a network with the prefix
/// length `cell_len`. Fails only if memory runs out.
///
/// A change is never hidden, however small it is: a cell is kept only if both sets have the same addresses of it.
pub fn changed_cells(
    alloc: Global,
    before: &IpSet,
    after: &IpSet,
    cell_len: u8,
) -> Result<ChangedCells, AllocError>
    ensures removed { IfOk result (λ cells. (x : Address) → IsMember cells.removed x
        ↔ IsInCell cell_len (λ n. IsChange (IsMember before.now) (IsMember after.now) n Removed) x) }
    ensures added { IfOk result (λ cells. (x : Address) → IsMember cells.added x
        ↔ IsInCell cell_len (λ n. IsChange (IsMember before.now) (IsMember after.now) n Added) x) }
    ensures mixed { IfOk result (λ cells. (x : Address) → IsMember cells.mixed x
        ↔ IsInCell cell_len (λ n. IsChange (IsMember before.now) (IsMember after.now) n Mixed) x) }
    ensures kept_part { IfOk result (λ cells. (x : Address) → IsMember cells.kept_part x
        ↔ IsInCell cell_len (IsKeptPart (IsMember before.now) (IsMember after.now)) x) }
    ensures kept_whole { IfOk result (λ cells. (x : Address) → IsMember cells.kept_whole x
        ↔ IsInCell cell_len (IsKeptWhole (IsMember before.now) (IsMember after.now)) x) }
{
    let both = before.intersection(alloc, after)?;
    let gone = cells_with_some(alloc, &before.difference(alloc, after)?, cell_len)?;
    let new = cells_with_some(alloc, &after.difference(alloc, before)?, cell_len)?;
    let some = cells_with_some(alloc, &both, cell_len)?;
    let kept_whole = cells_with_all(alloc, &both, cell_len)?;
    let unchanged = some.difference(alloc, &gone)?.difference(alloc, &new)?;
    Ok(ChangedCells {
        removed: gone.difference(alloc, &new)?,
        added: new.difference(alloc, &gone)?,
        mixed: gone.intersection(alloc, &new)?,
        kept_part: unchanged.difference(alloc, &kept_whole)?,
        kept_whole,
    })
}
