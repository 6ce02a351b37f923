//! The labels of squares: in each square, and at the heads of rows and columns.

use crate::chart::Square;
use crate::label::{Anchor, Ink, Label, label_at};
use crate::sheet::{Sheet, rectangle_in_pixels};
use ipnet_maps::{Place, Rectangle};
use std::alloc::{AllocError, Global};

/// The labels of the squares, on the map and beside it.
#[derive(Drop)]
pub(crate) struct SquareLabels {
    pub(crate) inside: Vec<Label>,
    pub(crate) heads: Vec<Label>,
}

/// Whether a name of this many characters fits a square of these sides, in pixels.
fn fits(characters: usize, area: Rectangle) -> bool {
    let Ok(characters) = u32::try_from(characters) else {
        return false;
    };
    area.sides.height >= 14 && characters.saturating_mul(6).saturating_add(4) <= area.sides.width
}

/// Whether one of the squares has room for its name, if a cell has `scale` pixels.
fn have_room(squares: &[Square], scale: u32) -> bool {
    for square in squares {
        let area = rectangle_in_pixels(scale, square.rectangle);
        if fits(square.name.len(), area) {
            return true;
        }
    }
    false
}

/// Returns the squares that have labels: the squares of the map if one of them has room for its name, and otherwise the
/// squares of all values of an octet.
pub(crate) fn choose_labelled<'a>(
    squares: &'a [Square],
    octets: &'a [Square],
    scale: u32,
) -> &'a [Square] {
    if have_room(squares, scale) {
        squares
    } else {
        octets
    }
}

/// The middle of a length.
fn middle(from: u32, length: u32) -> u32 {
    from.saturating_add(length / 2)
}

/// Adds the labels of the square with this name.
fn push_square_labels(
    alloc: Global,
    labels: &mut SquareLabels,
    area: Rectangle,
    name: &str,
    map_place: Option<Place>,
) -> Result<(), AllocError> {
    let Rectangle { place, sides } = area;
    if fits(name.len(), area) {
        let column = place.column.saturating_add(3);
        let row = place.row.saturating_add(10);
        let words = String::from_str(alloc, name)?;
        labels.inside.push(label_at(Ink::Halo, column, row, words))?;
    }
    let Some(corner) = map_place else {
        return Ok(());
    };
    if place.column == 0 {
        let row = middle(corner.row.saturating_add(place.row), sides.height);
        let words = String::from_str(alloc, name)?;
        let mut label = label_at(Ink::Faint, corner.column.saturating_sub(5), row, words);
        label.anchor = Anchor::End;
        labels.heads.push(label)?;
    }
    if place.row == 0 {
        let column = middle(corner.column.saturating_add(place.column), sides.width);
        let words = String::from_str(alloc, name)?;
        let mut label = label_at(Ink::Faint, column, corner.row.saturating_sub(5), words);
        label.anchor = Anchor::Middle;
        labels.heads.push(label)?;
    }
    Ok(())
}

/// Returns the labels of the squares, on a map of this size and place. Fails only if memory runs out.
pub(crate) fn square_labels(
    alloc: Global,
    squares: &[Square],
    sheet: Sheet,
) -> Result<SquareLabels, AllocError> {
    let mut labels = SquareLabels {
        inside: Vec::new(alloc),
        heads: Vec::new(alloc),
    };
    let map_place = if sheet.has_heads {
        Some(sheet.chart_place)
    } else {
        None
    };
    for square in squares {
        let area = rectangle_in_pixels(sheet.scale, square.rectangle);
        push_square_labels(alloc, &mut labels, area, square.name.as_str(), map_place)?;
    }
    Ok(labels)
}
