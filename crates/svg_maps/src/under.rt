//! The colours below the labels of a map: a label is written in the colour that can be read there.

use crate::label::Ink;
use crate::tiles::{Tiles, index_of, range_of, tiles_of};
use ipnet_maps::{Class, Layer, Rectangle, Sides};
use std::alloc::{AllocError, Global};

/// The width and height of a tile, in pixels, if a cell is not larger.
const TILE: u32 = 4;

/// The ground below the labels of a map.
#[derive(Drop)]
pub(crate) struct Under {
    /// The tiles.
    tiles: Tiles,
    /// How many pixels a cell is wide and high.
    scale: u32,
    /// The ground of each tile, row by row.
    grounds: Vec<Ground>,
}

/// The ground of a tile.
#[derive(Clone, Copy, PartialEq, Eq)]
struct Ground {
    /// The look of a text that can be read there.
    ink: Ink,
    /// Whether cells are there.
    is_painted: bool,
}

/// The look of a text that can be read on cells of the class, in light and in dark themes.
fn ink_on(class: Class) -> Ink {
    match class {
        Class::FromQuarter
        | Class::Whole
        | Class::Added
        | Class::Mixed
        | Class::Overlap
        | Class::WholeOf(0) => Ink::Inverse,
        Class::Removed | Class::WholeOf(_) => Ink::Black,
        _ => Ink::Plain,
    }
}

/// Notes the look of a text on the tiles of the rectangle. A tile that has other cells too needs an edge around its
/// text.
fn note(under: &mut Under, rectangle: Rectangle, ink: Ink) {
    let is_whole = under.tiles.side <= rectangle.sides.width.min(rectangle.sides.height);
    let ink = if is_whole { ink } else { Ink::Halo };
    let range = range_of(under.tiles, rectangle);
    for row in range.first_row..range.end_row {
        for column in range.first_column..range.end_column {
            let index = index_of(under.tiles, column, row);
            if index < under.grounds.len() {
                under.grounds[index] = Ground {
                    ink,
                    is_painted: true,
                };
            }
        }
    }
}

/// Returns the looks of texts on a map of these layers, of this size. Fails only if memory runs out.
pub(crate) fn under_of(
    alloc: Global,
    layers: &[Layer],
    sides: Sides,
    scale: u32,
) -> Result<Under, AllocError> {
    let tiles = tiles_of(sides, TILE / scale.max(1));
    let mut under = Under {
        tiles,
        scale,
        grounds: Vec::new(alloc),
    };
    for _ in 0..index_of(tiles, 0, tiles.sides.height) {
        under.grounds.push(Ground {
            ink: Ink::Plain,
            is_painted: false,
        })?;
    }
    for layer in layers {
        let ink = ink_on(layer.class);
        for rectangle in layer.rectangles.as_slice() {
            note(&mut under, *rectangle, ink);
        }
    }
    Ok(under)
}

/// Whether no cells are in this rectangle, in pixels.
pub(crate) fn is_clear(under: &Under, area: Rectangle) -> bool {
    let pixels = Tiles {
        side: under.tiles.side.saturating_mul(under.scale),
        sides: under.tiles.sides,
    };
    let range = range_of(pixels, area);
    for row in range.first_row..range.end_row {
        for column in range.first_column..range.end_column {
            let index = index_of(pixels, column, row);
            if index < under.grounds.len() && under.grounds[index].is_painted {
                return false;
            }
        }
    }
    true
}

/// The look of a text in this rectangle, in pixels: the look on its tiles if it is the same on all of them, and
/// otherwise a text with an edge.
pub(crate) fn ink_in(under: &Under, area: Rectangle) -> Ink {
    let pixels = Tiles {
        side: under.tiles.side.saturating_mul(under.scale),
        sides: under.tiles.sides,
    };
    let range = range_of(pixels, area);
    let mut found = None;
    for row in range.first_row..range.end_row {
        for column in range.first_column..range.end_column {
            let index = index_of(pixels, column, row);
            if index < under.grounds.len() {
                let ground = under.grounds[index];
                if found.unwrap_or(ground) != ground {
                    return Ink::Halo;
                }
                found = Some(ground);
            }
        }
    }
    match found {
        Some(ground) => ground.ink,
        None => Ink::Halo,
    }
}
