//! The addresses that several sets have.
ghost use Rattle.std.specs.Prelude.{◌↔◌, IfOk};
ghost use Rattle.ipnet_base.specs.Address.{Address};
ghost use Rattle.ipnet_sets.specs.Members.{IsMember};
ghost use Rattle.ipnet_bars.specs.Parts.{HasSome};
ghost use Rattle.ipnet_maps.specs.Cells.{IsInCell};
ghost use Rattle.ipnet_maps.specs.Shared.{IsInTwo};

use crate::cells::cells_with_some;
use ipnet_sets::IpSet;
use std::alloc::{AllocError, Global};

/// Returns the addresses that are in two of the sets at least. Fails only if memory runs out.
///
/// ```text
/// of 10.0.0.0-10.0.0.5, 10.0.0.3-10.0.0.8, 10.0.0.8-10.0.0.9: 10.0.0.3-10.0.0.5 and 10.0.0.8
/// ```
pub fn in_two_of(alloc: Global, sets: &[IpSet]) -> Result<IpSet, AllocError>
    ensures { IfOk result (λ s. (x : Address) → IsMember s x ↔ IsInTwo (λ set. IsMember set x) sets.now) }
{
    let mut some = IpSet::new(alloc);
    let mut two = IpSet::new(alloc);
    for set in sets {
        let again = some.intersection(alloc, set)?;
        two = two.union(alloc, &again)?;
        some = some.union(alloc, set)?;
    }
    Ok(two)
}

/// Returns the addresses of the cells in which two of the sets at least have addresses; they need not share one. A cell
/// is a network with the prefix length `cell_len`. Fails only if memory runs out.
///
/// ```text
/// of 10.0.0.0-10.0.1.5 and 10.0.1.9 with cells of length 24: 10.0.1.0-10.0.1.255
/// ```
pub fn cells_in_two_of(alloc: Global, sets: &[IpSet], cell_len: u8) -> Result<IpSet, AllocError>
    ensures { IfOk result (λ cells. (x : Address) → IsMember cells x
        ↔ IsInCell cell_len (λ n. IsInTwo (λ set. HasSome (IsMember set) n) sets.now) x) }
{
    let mut some = IpSet::new(alloc);
    let mut two = IpSet::new(alloc);
    for set in sets {
        let cells = cells_with_some(alloc, set, cell_len)?;
        let again = some.intersection(alloc, &cells)?;
        two = two.union(alloc, &again)?;
        some = some.union(alloc, &cells)?;
    }
    Ok(two)
}
