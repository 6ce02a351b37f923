//! A drawing of sets in a frame: the rectangles of each class of cells.
ghost use Rattle.std.specs.Prelude.{◌↔◌, IsTrue, All, Any, IfOk, IfSome, IfNone};
ghost use Rattle.std.specs.List.{AllZip};
ghost use Rattle.ipnet_base.specs.Address.{Address};
ghost use Rattle.ipnet_base.specs.Blocks.{IsInEither};
ghost use Rattle.ipnet_base.specs.Network.{InBlock};
ghost use Rattle.ipnet.specs.NetworkOf.{ip_network};
ghost use Rattle.ipnet_sets.specs.Members.{IsMember};
ghost use Rattle.ipnet_maps.specs.Drawings.{IsDepthOf, IsDrawingOf};
ghost use Rattle.ipnet_maps.specs.Layers.{IsClassCells};
ghost use Rattle.ipnet_maps.specs.Lists.{IsPartOf, IsListed, HasClass, classes_of, IsDrawnAt, IsTooDeep};
ghost use Rattle.ipnet_maps.specs.Lists.{IsTooDeepAfter, AreDivided};
ghost use Rattle.ipnet_maps.specs.Classes.{HasLevelClass, level_classes, HasChangeClass, change_classes};
ghost use Rattle.ipnet_maps.specs.Classes.{HasSharedClass, shared_classes};

use crate::changed::{ChangedCells, changed_cells};
use crate::class::Class;
use crate::depth::greatest_depth_of;
use crate::layers::{ClassCells, Layer, are_few, layers_of};
use crate::levels::{LevelCells, level_cells};
use crate::runs::has_many_runs;
use crate::several::shared_class_cells;
use ipnet::IpNet;
use ipnet_sets::IpSet;
use std::alloc::{AllocError, Global};

/// The rectangles of a map. Its cells are `depth` bits longer than its frame.
#[derive(Drop)]
pub struct Drawing {
    /// The number of bits that the map shows: at most 20, and even or odd as the length of the frame is.
    pub depth: u8,
    /// The layers, one for each class that the map can have. Those without cells have no rectangles.
    pub layers: Vec<Layer>,
}

/// The sets that a map shows, without what is outside its frame.
#[derive(Clone, Copy)]
pub(crate) enum Lists<'a> {
    /// One set.
    One(&'a IpSet),
    /// A set before and after a change.
    Change(&'a IpSet, &'a IpSet),
    /// Several sets.
    Several(&'a [IpSet]),
}

/// Returns the cells of each class of one set, in the order of the layers.
fn level_class_cells(
    alloc: Global,
    set: &IpSet,
    cell_len: u8,
) -> Result<Vec<ClassCells>, AllocError>
    ensures { IfOk result (λ list.
        AllZip (IsClassCells (HasLevelClass (IsMember set.now)) cell_len) level_classes list.items) }
{
    let LevelCells {
        some,
        below_quarter,
        from_quarter,
        whole,
    } = level_cells(alloc, set, cell_len)?;
    let mut list = Vec::new(alloc);
    list.push(ClassCells {
        class: Class::Sparse,
        cells: some,
    })?;
    list.push(ClassCells {
        class: Class::BelowQuarter,
        cells: below_quarter,
    })?;
    list.push(ClassCells {
        class: Class::FromQuarter,
        cells: from_quarter,
    })?;
    list.push(ClassCells {
        class: Class::Whole,
        cells: whole,
    })?;
    Ok(list)
}

/// Returns the cells of each class of a change, in the order of the layers.
fn change_class_cells(
    alloc: Global,
    before: &IpSet,
    after: &IpSet,
    cell_len: u8,
) -> Result<Vec<ClassCells>, AllocError>
    ensures { IfOk result (λ list. AllZip (IsClassCells
        (HasChangeClass (IsMember before.now) (IsMember after.now)) cell_len) change_classes list.items) }
{
    let ChangedCells {
        removed,
        added,
        mixed,
        kept_part,
        kept_whole,
    } = changed_cells(alloc, before, after, cell_len)?;
    let mut list = Vec::new(alloc);
    list.push(ClassCells {
        class: Class::Removed,
        cells: removed,
    })?;
    list.push(ClassCells {
        class: Class::Added,
        cells: added,
    })?;
    list.push(ClassCells {
        class: Class::Mixed,
        cells: mixed,
    })?;
    list.push(ClassCells {
        class: Class::KeptPart,
        cells: kept_part,
    })?;
    list.push(ClassCells {
        class: Class::KeptWhole,
        cells: kept_whole,
    })?;
    Ok(list)
}

/// Returns the cells of each class, in the order of the layers.
fn class_cells(
    alloc: Global,
    lists: &Lists<'_>,
    cell_len: u8,
) -> Result<Vec<ClassCells>, AllocError>
    ensures { IfOk result (λ list.
        AllZip (IsClassCells (HasClass lists.now) cell_len) (classes_of lists.now) list.items) }
{
    match lists {
        Lists::One(set) => level_class_cells(alloc, set, cell_len),
        Lists::Change(before, after) => change_class_cells(alloc, before, after, cell_len),
        Lists::Several(sets) => shared_class_cells(alloc, sets, cell_len),
    }
}

/// Returns the map that shows this many bits, or `None` if it would have more than 65,536 rectangles.
fn drawn_at(
    alloc: Global,
    frame: &IpNet,
    lists: &Lists<'_>,
    depth: u8,
) -> Result<Option<Drawing>, AllocError>
    requires depth { IsDepthOf (ip_network frame.now) depth }
    requires inside { (x : Address) → IsListed lists.now x → InBlock (ip_network frame.now) x }
    ensures drawn { IfOk result (λ found. IfSome found (IsDrawnAt lists.now (ip_network frame.now) depth)) }
    ensures many { IfOk result (λ found. IfNone found (IsTooDeep lists.now (ip_network frame.now) depth)) }
{
    let cells = class_cells(alloc, lists, frame.prefix_len() + depth)?;
    if depth > 16 && !are_few(cells.as_slice()) {
        return Ok(None);
    }
    let layers = layers_of(alloc, frame, depth, cells.as_slice())?;
    Ok(Some(Drawing { depth, layers }))
}

/// Whether empty cells divide the sets into more parts than a map may have rectangles. False if that is not known: if
/// there is not one set.
fn are_divided(lists: &Lists<'_>, cell_len: u8) -> bool
    ensures { IsTrue result → AreDivided lists.now cell_len }
{
    match lists {
        Lists::One(set) => has_many_runs(set, cell_len),
        _ => false,
    }
}

/// Returns the map that shows this many bits, or `None` if it would have more than 65,536 rectangles. For
/// many such maps it makes no lists of cells.
fn drawn_if_few(
    alloc: Global,
    frame: &IpNet,
    lists: &Lists<'_>,
    depth: u8,
) -> Result<Option<Drawing>, AllocError>
    requires depth { IsDepthOf (ip_network frame.now) depth }
    requires inside { (x : Address) → IsListed lists.now x → InBlock (ip_network frame.now) x }
    ensures drawn { IfOk result (λ found. IfSome found (IsDrawnAt lists.now (ip_network frame.now) depth)) }
    ensures many { IfOk result (λ found. IfNone found (IsTooDeep lists.now (ip_network frame.now) depth)) }
{
    if depth > 16 && are_divided(lists, frame.prefix_len() + depth) {
        return Ok(None);
    }
    drawn_at(alloc, frame, lists, depth)
}

/// Returns the map that shows as many bits as it can, and at most this many.
fn draw_to(
    alloc: Global,
    frame: &IpNet,
    lists: &Lists<'_>,
    depth: u8,
) -> Result<Drawing, AllocError>
    requires depth { IsDepthOf (ip_network frame.now) depth }
    requires inside { (x : Address) → IsListed lists.now x → InBlock (ip_network frame.now) x }
    requires deeper { IsTooDeepAfter lists.now (ip_network frame.now) depth }
    ensures { IfOk result (IsDrawingOf (IsListed lists.now) (HasClass lists.now) (classes_of lists.now)
        (ip_network frame.now)) }
{
    match drawn_if_few(alloc, frame, lists, depth)? {
        Some(drawing) => Ok(drawing),
        None => draw_to(alloc, frame, lists, depth - 2),
    }
}

/// Returns the map of the set in the frame: a layer for each level, from the cells with less than one of 256 of their
/// addresses in the set to those with all. Addresses outside the frame are left out. Fails only if memory runs out.
///
/// The cells are as small as they can be with at most 65,536 rectangles.
///
/// ```text
/// of 10.20.0.0-10.20.17.9 in 10.20.0.0/16: 16 bits, and in the last layer the rectangles of 10.20.0.0/20,
/// 10.20.16.0/24, 10.20.17.0/29 and 10.20.17.8/31
/// ```
pub fn draw_set(alloc: Global, frame: &IpNet, set: &IpSet) -> Result<Drawing, AllocError>
    ensures { IfOk result (IsDrawingOf (IsMember set.now) (HasLevelClass (IsMember set.now)) level_classes
        (ip_network frame.now)) }
{
    let depth = greatest_depth_of(frame);
    if set.is_within(frame) {
        return draw_to(alloc, frame, &Lists::One(set), depth);
    }
    let part = set.within(alloc, frame)?;
    draw_to(alloc, frame, &Lists::One(&part), depth)
}

/// Returns the map of the change of a set in the frame, if `before` becomes `after`: a layer each for the cells that
/// only lose addresses, that only gain addresses, that do both, that keep a part, and that keep all. Addresses outside
/// the frame are left out. Fails only if memory runs out.
///
/// A change is never hidden, however small it is. The cells are as small as they can be with at most 65,536 rectangles.
///
/// ```text
/// from 10.20.0.0/24 to 10.20.0.0/25 in 10.20.0.0/16: `Removed` is 10.20.0.128/25, `KeptWhole` is 10.20.0.0/25
/// ```
pub fn draw_change(
    alloc: Global,
    frame: &IpNet,
    before: &IpSet,
    after: &IpSet,
) -> Result<Drawing, AllocError>
    ensures { IfOk result (IsDrawingOf (IsInEither (IsMember before.now) (IsMember after.now))
        (HasChangeClass (IsMember before.now) (IsMember after.now)) change_classes (ip_network frame.now)) }
{
    let depth = greatest_depth_of(frame);
    if before.is_within(frame) && after.is_within(frame) {
        return draw_to(alloc, frame, &Lists::Change(before, after), depth);
    }
    let first = before.within(alloc, frame)?;
    let second = after.within(alloc, frame)?;
    draw_to(alloc, frame, &Lists::Change(&first, &second), depth)
}

/// Returns the parts of the sets that are in the frame, in order.
fn parts_in(alloc: Global, frame: &IpNet, sets: &[IpSet]) -> Result<Vec<IpSet>, AllocError>
    ensures { IfOk result (λ list. AllZip (IsPartOf (ip_network frame.now)) sets.now list.items) }
{
    let mut parts = Vec::new(alloc);
    for set in sets {
        let part = set.within(alloc, frame)?;
        parts.push(part)?;
    }
    Ok(parts)
}

/// Returns whether all addresses of the sets are in the frame.
fn are_within(sets: &[IpSet], frame: &IpNet) -> bool
    ensures { IsTrue result ↔ All (λ set. (x : Address) → IsMember set x → InBlock (ip_network frame.now) x) sets.now }
{
    sets.iter().all(|set| set.is_within(frame))
}

/// Returns the map of several sets in the frame: a layer for the cells in which two sets share an address, one for the
/// other cells in which two sets have addresses, and then two layers for each set: the cells of which only this set has
/// addresses, and not all, and the cells of which it has all. Addresses outside the frame are left out. Fails only if
/// memory runs out.
///
/// The cells are as small as they can be with at most 65,536 rectangles.
///
/// ```text
/// of 10.20.0.0/24 and 10.20.0.128/25 in 10.20.0.0/16: `Overlap` is 10.20.0.128/25, `WholeOf(0)` is 10.20.0.0/25, and
/// the other layers are empty
/// ```
pub fn draw_sets(alloc: Global, frame: &IpNet, sets: &[IpSet]) -> Result<Drawing, AllocError>
    ensures { IfOk result (IsDrawingOf (λ x. Any (λ set. IsMember set x) sets.now) (HasSharedClass sets.now)
        (shared_classes sets.now) (ip_network frame.now)) }
{
    let depth = greatest_depth_of(frame);
    if are_within(sets, frame) {
        return draw_to(alloc, frame, &Lists::Several(sets), depth);
    }
    let parts = parts_in(alloc, frame, sets)?;
    draw_to(alloc, frame, &Lists::Several(parts.as_slice()), depth)
}
