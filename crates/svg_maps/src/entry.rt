//! The entries of lists on a map: areas with titles.
ghost use Rattle.std.specs.Prelude.{◌≡◌, ◌+◌, ◌≤◌, ◌++◌, ◌↔◌, IfOk, IsTrue, OnOk, option_to_list};
ghost use Rattle.std.specs.Prelude.{string_bytes};
ghost use Rattle.ipnet_base.specs.Address.{width};
ghost use Rattle.ipnet.specs.NetworkOf.{ip_network};
ghost use Rattle.svg_maps.specs.EntryOutlines.{IsLarge, IsEntryTitle, AreEntryOutlines, IsFoundFor};

use crate::extent::extent_of;
use crate::name::short_text;
use crate::outline::{Outline, OutlineClass};
use crate::sheet::{rectangle_in_pixels, scale_of, sides_of};
use crate::square::{Counted, title_of};
use ipnet::IpNet;
use ipnet_maps::Rectangle;
use std::alloc::{AllocError, Global};

/// How many pixels the shorter side of the area of an entry has at least.
const LEAST: u32 = 6;

/// An entry on a map.
#[derive(Debug, Drop)]
pub struct MapEntry {
    /// Its network.
    pub network: IpNet,
    /// Its text and its comment, with which the title of its area begins.
    pub title: String,
    /// Its comment, which is written in its area if there is room.
    pub comment: String,
}

/// The entries of lists that a map may show.
#[derive(Clone, Copy)]
pub struct MapEntries<'a> {
    /// The entries that have a title if they are large enough: the largest first.
    pub titled: &'a [MapEntry],
    /// How many networks the entries of the lists have.
    pub count: usize,
}

/// Whether the area, in pixels, is large enough for the pointer of a mouse.
fn is_large(area: Rectangle) -> bool
    ensures { IsTrue result ↔ IsLarge area }
{
    area.sides.width >= LEAST && area.sides.height >= LEAST
}

/// The title of the area of the entry.
fn entry_title(
    alloc: Global,
    entry: &MapEntry,
    counted: &[Counted<'_>],
) -> Result<String, AllocError>
    ensures { IfOk result (λ title. IsEntryTitle (ip_network entry.now.network) counted.now
        (string_bytes entry.now.title) (string_bytes title)) }
{
    let place = title_of(alloc, counted, &entry.network)?;
    let mut title = String::from_str(alloc, entry.title.as_str())?;
    title.push_str(" (")?;
    title.push_str(place.as_str())?;
    title.push_str(")")?;
    Ok(title)
}

/// The area of the entry with its title, if the map shows the entry, and its area is large enough, but not the whole
/// map.
fn entry_outline(
    alloc: Global,
    frame: &IpNet,
    depth: u8,
    entry: &MapEntry,
    counted: &[Counted<'_>],
) -> Result<Option<Outline>, AllocError>
    requires few { depth ≤ 20 }
    requires fits { (ip_network frame.now).prefix_len + depth ≤ width (ip_network frame.now).family }
    ensures { IfOk result (IsFoundFor counted.now (ip_network frame.now) depth entry.now) }
{
    if entry.network.contains(frame) {
        return Ok(None);
    }
    let Some(rectangle) = extent_of(frame, depth, &entry.network) else {
        return Ok(None);
    };
    let scale = scale_of(sides_of(frame, depth));
    if !is_large(rectangle_in_pixels(scale, rectangle)) {
        return Ok(None);
    }
    let title = entry_title(alloc, entry, counted)?;
    let label = short_text(alloc, &entry.network, frame.prefix_len())?;
    let comment = String::from_str(alloc, entry.comment.as_str())?;
    Ok(Some(Outline {
        class: OutlineClass::Entry,
        rectangle,
        title: Some(title),
        label,
        comment,
    }))
}

/// Appends the outline, if there is one.
fn push_found(outlines: &mut Vec<Outline>, found: Option<Outline>) -> Result<(), AllocError>
    ensures { OnOk result (outlines.new.items ≡ outlines.old.items ++ option_to_list found) }
{
    match found {
        Some(outline) => {
            outlines.push(outline)?;
            Ok(())
        }
        None => Ok(()),
    }
}

/// Returns the areas of the entries that are large enough, but not the whole map. The title of each has the text of the
/// entry, and says how many addresses of its network each of the counted sets has. Fails only if memory runs out.
///
/// ```text
/// of 10.20.168.0/22 with "10.20.168.9/22: dhcp-246", in 10.20.0.0/16: the title is
/// "10.20.168.9/22: dhcp-246 (10.20.168.0/22, 1,024 addresses, 1,024 addresses used (100.0 %))"
/// ```
pub(crate) fn entry_outlines(
    alloc: Global,
    frame: &IpNet,
    depth: u8,
    entries: &[MapEntry],
    counted: &[Counted<'_>],
) -> Result<Vec<Outline>, AllocError>
    requires few { depth ≤ 20 }
    requires fits { (ip_network frame.now).prefix_len + depth ≤ width (ip_network frame.now).family }
    ensures { IfOk result (λ list.
        AreEntryOutlines entries.now counted.now (ip_network frame.now) depth list.items) }
{
    let mut outlines = Vec::new(alloc);
    for entry in entries {
        let found = entry_outline(alloc, frame, depth, entry, counted)?;
        push_found(&mut outlines, found)?;
    }
    Ok(outlines)
}
