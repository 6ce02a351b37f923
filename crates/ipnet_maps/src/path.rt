//! The rectangles of one colour as the path data of SVG.
ghost use Rattle.std.specs.Prelude.{◌≡◌, ◌++◌, OnOk, IfOk, filter, string_bytes};
ghost use Rattle.ipnet_maps.specs.Paths.{corner, distance_text, move_text, outline_text, rectangle_text, path_of};
ghost use Rattle.ipnet_maps.specs.Paths.{is_row, is_tall, end_of, line_text, first_move, rows_path};

use crate::layout::{Place, Rectangle, Sides};
use std::alloc::{AllocError, Global};

/// Appends the distance from one number to another: with a minus sign if it goes back, and after `before` if not.
fn push_distance(text: &mut String, before: &str, from: u32, to: u32) -> Result<(), AllocError>
    ensures { OnOk result (string_bytes text.new ≡ string_bytes text.old ++ distance_text before.now from to) }
{
    if to < from {
        let back = from - to;
        return write!(text, "-{back}");
    }
    let forth = to - from;
    text.push_str(before)?;
    write!(text, "{forth}")
}

/// Appends the move from one place to another.
fn push_move(text: &mut String, from: Place, to: Place) -> Result<(), AllocError>
    ensures { OnOk result (string_bytes text.new ≡ string_bytes text.old ++ move_text from to) }
{
    text.push_str("m")?;
    push_distance(text, "", from.column, to.column)?;
    push_distance(text, " ", from.row, to.row)?;
    Ok(())
}

/// Appends the outline of a rectangle.
fn push_outline(text: &mut String, sides: Sides) -> Result<(), AllocError>
    ensures { OnOk result (string_bytes text.new ≡ string_bytes text.old ++ outline_text sides) }
{
    let width = sides.width;
    let height = sides.height;
    write!(text, "h{width}v{height}h-{width}z")
}

/// Appends the rectangle, drawn from this place.
fn push_rectangle(text: &mut String, from: Place, rectangle: &Rectangle) -> Result<(), AllocError>
    ensures { OnOk result (string_bytes text.new ≡ string_bytes text.old ++ rectangle_text from rectangle.now) }
{
    push_move(text, from, rectangle.place)?;
    push_outline(text, rectangle.sides)?;
    Ok(())
}

/// Returns the rectangles as the path data of SVG, with relative moves, in cells. Fails only if memory runs out.
///
/// ```text
/// of 2 wide and 1 high at column 3 and row 4, and the same at column 4 and row 1: m3 4h2v1h-2zm1-3h2v1h-2z
/// ```
pub fn path_text(alloc: Global, rectangles: &[Rectangle]) -> Result<String, AllocError>
    ensures { IfOk result (λ text. string_bytes text ≡ path_of corner rectangles.now) }
{
    let mut text = String::new(alloc);
    let mut from = Place { column: 0, row: 0 };
    for rectangle in rectangles {
        push_rectangle(&mut text, from, rectangle)?;
        from = rectangle.place;
    }
    Ok(text)
}

/// Returns the rectangles that are more than one cell high, as `path_text` does. Fails only if memory runs out.
///
/// ```text
/// of 2 wide and 1 high at column 3 and row 4, and 2 wide and 2 high at column 4 and row 0: m4 0h2v2h-2z
/// ```
pub fn tall_path_text(alloc: Global, rectangles: &[Rectangle]) -> Result<String, AllocError>
    ensures { IfOk result (λ text. string_bytes text ≡ path_of corner (filter is_tall rectangles.now)) }
{
    let mut text = String::new(alloc);
    let mut pen = Place { column: 0, row: 0 };
    for rectangle in rectangles {
        if rectangle.sides.height > 1 {
            push_rectangle(&mut text, pen, rectangle)?;
            pen = rectangle.place;
        }
    }
    Ok(text)
}

/// Returns the place behind the last cell of a row.
fn line_end(row: &Rectangle) -> Place
    ensures { result ≡ end_of row.now }
{
    let column = row.place.column.saturating_add(row.sides.width);
    Place {
        column,
        row: row.place.row,
    }
}

/// Appends the move to the middle of a row, if the text is empty.
fn push_first_move(text: &mut String) -> Result<(), AllocError>
    ensures { OnOk result (string_bytes text.new ≡ string_bytes text.old ++ first_move (string_bytes text.old)) }
{
    if text.is_empty() {
        return text.push_str("m0 .5");
    }
    Ok(())
}

/// Appends the row as a line, drawn from this place.
fn push_line(text: &mut String, from: Place, row: &Rectangle) -> Result<(), AllocError>
    ensures { OnOk result (string_bytes text.new ≡ string_bytes text.old ++ line_text from row.now) }
{
    push_move(text, from, row.place)?;
    let width = row.sides.width;
    write!(text, "h{width}")
}

/// Returns the rectangles that are one cell high, as lines that are one cell wide. Fails only if memory runs out.
///
/// ```text
/// of 2 wide and 1 high at column 4 and row 1, and 1 wide and 1 high at column 9 and row 1: m0 .5m4 1h2m3 0h1
/// ```
pub fn rows_path_text(alloc: Global, rectangles: &[Rectangle]) -> Result<String, AllocError>
    ensures { IfOk result (λ text. string_bytes text ≡ rows_path (filter is_row rectangles.now)) }
{
    let mut text = String::new(alloc);
    let mut pen = Place { column: 0, row: 0 };
    for rectangle in rectangles {
        if rectangle.sides.height == 1 {
            push_first_move(&mut text)?;
            push_line(&mut text, pen, rectangle)?;
            pen = line_end(rectangle);
        }
    }
    Ok(text)
}
