//! Outlines on a map: networks whose edges are drawn.
ghost use Rattle.std.specs.Prelude.{◌≡◌, ◌++◌, OnOk, flat_map, string_bytes};
ghost use Rattle.svg_text.specs.Documents.{nodes_text};
ghost use Rattle.svg_maps.specs.Pages.{outline_text, outline_nodes, pixel_rectangle};

use crate::area::{push_area, push_titled_area};
use crate::sheet::rectangle_in_pixels;
use ipnet_maps::Rectangle;
use std::alloc::AllocError;

/// The kind of network that an outline is around.
#[derive(Clone, Copy, Debug, PartialEq, Eq)]
pub enum OutlineClass {
    /// A free block.
    Free,
    /// The first of the largest free blocks.
    LargestFree,
    /// A network with a name.
    Named,
    /// An entry of a list.
    Entry,
}

/// The outline of a network on a map.
#[derive(Debug, Drop)]
pub struct Outline {
    /// The kind of its network.
    pub class: OutlineClass,
    /// Its area, in cells.
    pub rectangle: Rectangle,
    /// Its title, which a browser shows.
    pub title: Option<String>,
    /// The text that is written in it if there is room.
    pub label: String,
    /// The text that is written above the label if there is room. If only one of them has room, this one is written.
    pub comment: String,
}

/// The class of the outline in the style sheet.
fn outline_class(class: OutlineClass) -> &'static str
    ensures { result.now ≡ outline_text class }
{
    match class {
        OutlineClass::Free => "free",
        OutlineClass::LargestFree => "best",
        OutlineClass::Named => "name",
        OutlineClass::Entry => "hit",
    }
}

/// Appends the outline, if a cell has `scale` pixels.
pub(crate) fn push_outline(
    text: &mut String,
    scale: u32,
    outline: &Outline,
) -> Result<(), AllocError>
    ensures { OnOk result (string_bytes text.new
        ≡ string_bytes text.old ++ nodes_text (outline_nodes scale outline.now)) }
{
    let area = rectangle_in_pixels(scale, outline.rectangle);
    let class = outline_class(outline.class);
    match &outline.title {
        Some(title) => push_titled_area(text, class, area, title.as_str()),
        None => push_area(text, class, area),
    }
}

/// Appends the outlines, if a cell has `scale` pixels.
pub(crate) fn push_outlines(
    text: &mut String,
    scale: u32,
    outlines: &[Outline],
) -> Result<(), AllocError>
    ensures { OnOk result (string_bytes text.new
        ≡ string_bytes text.old ++ flat_map (λ o. nodes_text (outline_nodes scale o)) outlines.now) }
{
    for outline in outlines {
        push_outline(text, scale, outline)?;
    }
    Ok(())
}
