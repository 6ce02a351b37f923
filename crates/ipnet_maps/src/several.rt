//! The cells of a map of several sets, by which of them have addresses of the cell.
ghost use Rattle.std.specs.Prelude.{◌↔◌, IfOk};
ghost use Rattle.std.specs.List.{AllZip};
ghost use Rattle.ipnet_base.specs.Address.{Address};
ghost use Rattle.ipnet_sets.specs.Members.{IsMember};
ghost use Rattle.ipnet_bars.specs.Parts.{HasSome, HasAll};
ghost use Rattle.ipnet_maps.specs.Cells.{IsInCell};
ghost use Rattle.ipnet_maps.specs.Classes.{HasSharedClass, shared_classes};
ghost use Rattle.ipnet_maps.specs.Layers.{IsClassCells};

use crate::cells::{cells_with_all, cells_with_some};
use crate::class::Class;
use crate::layers::ClassCells;
use crate::shared::{cells_in_two_of, in_two_of};
use ipnet_sets::IpSet;
use std::alloc::{AllocError, Global};

/// The cells of one set that are not left out.
#[derive(Drop)]
struct SingleCells {
    /// The set has some of the addresses of the cell, and not all.
    part: IpSet,
    /// The set has all addresses of the cell.
    whole: IpSet,
}

/// Returns the cells of the set, without those that are left out.
fn single_cells(
    alloc: Global,
    set: &IpSet,
    left_out: &IpSet,
    cell_len: u8,
) -> Result<SingleCells, AllocError>
    ensures part { IfOk result (λ cells. (x : Address) → IsMember cells.part x ↔ (¬ (IsMember left_out.now x)
        × IsInCell cell_len (λ n. HasSome (IsMember set.now) n × ¬ (HasAll (IsMember set.now) n)) x)) }
    ensures whole { IfOk result (λ cells. (x : Address) → IsMember cells.whole x ↔ (¬ (IsMember left_out.now x)
        × IsInCell cell_len (HasAll (IsMember set.now)) x)) }
{
    let some = cells_with_some(alloc, set, cell_len)?;
    let all = cells_with_all(alloc, set, cell_len)?;
    let incomplete = some.difference(alloc, &all)?;
    let part = incomplete.difference(alloc, left_out)?;
    let whole = all.difference(alloc, left_out)?;
    Ok(SingleCells { part, whole })
}

/// Returns the cells of each class of several sets, in the order of the layers.
pub(crate) fn shared_class_cells(
    alloc: Global,
    sets: &[IpSet],
    cell_len: u8,
) -> Result<Vec<ClassCells>, AllocError>
    ensures { IfOk result (λ list.
        AllZip (IsClassCells (HasSharedClass sets.now) cell_len) (shared_classes sets.now) list.items) }
{
    let both = in_two_of(alloc, sets)?;
    let overlap = cells_with_some(alloc, &both, cell_len)?;
    let two = cells_in_two_of(alloc, sets, cell_len)?;
    let several = two.difference(alloc, &overlap)?;
    let mut list = Vec::new(alloc);
    list.push(ClassCells {
        class: Class::Overlap,
        cells: overlap,
    })?;
    list.push(ClassCells {
        class: Class::Several,
        cells: several,
    })?;
    for (place, set) in sets.iter().enumerate() {
        let SingleCells { part, whole } = single_cells(alloc, set, &two, cell_len)?;
        list.push(ClassCells {
            class: Class::PartOf(place),
            cells: part,
        })?;
        list.push(ClassCells {
            class: Class::WholeOf(place),
            cells: whole,
        })?;
    }
    Ok(list)
}
