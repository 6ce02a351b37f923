//! Tiles: the cells of a map in squares of equal size.

use ipnet_maps::{Rectangle, Sides};

/// The tiles of a map.
#[derive(Clone, Copy)]
pub(crate) struct Tiles {
    /// How many cells a tile is wide and high.
    pub(crate) side: u32,
    /// How many tiles the map is wide and high.
    pub(crate) sides: Sides,
}

/// Tiles that are a rectangle: from the first column and row to before the end ones.
#[derive(Clone, Copy)]
pub(crate) struct TileRange {
    pub(crate) first_column: u32,
    pub(crate) end_column: u32,
    pub(crate) first_row: u32,
    pub(crate) end_row: u32,
}

/// The tiles with this side of a map with these sides.
pub(crate) fn tiles_of(sides: Sides, side: u32) -> Tiles {
    let side = side.max(1);
    let sides = Sides {
        width: sides.width.div_ceil(side),
        height: sides.height.div_ceil(side),
    };
    Tiles { side, sides }
}

/// The place of the tile in a list of all tiles, row by row.
pub(crate) fn index_of(tiles: Tiles, column: u32, row: u32) -> usize {
    let index = row.saturating_mul(tiles.sides.width).saturating_add(column);
    usize::try_from(index).unwrap_or(usize::MAX)
}

/// The tiles that the rectangle meets.
pub(crate) fn range_of(tiles: Tiles, rectangle: Rectangle) -> TileRange {
    let Rectangle { place, sides } = rectangle;
    let side = tiles.side.max(1);
    TileRange {
        first_column: place.column / side,
        end_column: place.column.saturating_add(sides.width).div_ceil(side),
        first_row: place.row / side,
        end_row: place.row.saturating_add(sides.height).div_ceil(side),
    }
}
