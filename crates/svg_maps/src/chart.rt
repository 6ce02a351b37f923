//! The map on a page: its cells, its squares and its labels.
ghost use Rattle.std.specs.Prelude.{◌≡◌, ◌++◌, IfOk, OnOk, flat_map, string_bytes};
ghost use Rattle.svg_text.specs.Documents.{nodes_text, empty_text, start_text, end_text};
ghost use Rattle.svg_text.specs.declared.name.ElementName.TheVariants as Elements;
ghost use Rattle.svg_maps.specs.Pages.{path_marks, tall_marks, rows_marks};
ghost use Rattle.svg_maps.specs.Pages.{layer_nodes, square_nodes, grid_rectangles};
ghost use Rattle.svg_maps.specs.Pages.{cells_marks, ground_marks, grid_marks, small_marks, label_nodes, chart_nodes};

use crate::area::push_titled_area;
use crate::class::class_name;
use crate::label::{Label, number_attribute, push_labels, text_attribute};
use crate::outline::{Outline, push_outlines};
use crate::ring::{Ring, push_rings};
use crate::sheet::{pixels_of, rectangle_in_pixels};
use ipnet_maps::{Layer, Rectangle, Sides, path_text, rows_path_text, tall_path_text};
use std::alloc::{AllocError, Global};
use svg_text::{Attribute, AttributeName, ElementName, Value, push_empty, push_end, push_start};

/// A square of a map: a network whose area has a title.
#[derive(Debug, Drop)]
pub struct Square {
    /// Its area, in cells.
    pub rectangle: Rectangle,
    /// The part of the network's text that differs from all others on the map.
    pub name: String,
    /// Its title, which a browser shows.
    pub title: String,
}

/// The map on a page.
#[derive(Clone, Copy)]
pub struct Chart<'a> {
    /// The cells of each class.
    pub layers: &'a [Layer],
    /// The squares.
    pub squares: &'a [Square],
    /// The outlines.
    pub outlines: &'a [Outline],
    /// The rings.
    pub rings: &'a [Ring],
    /// The labels on the map.
    pub labels: &'a [Label],
    /// How many cells the map is wide and high.
    pub sides: Sides,
    /// How many pixels a cell is wide and high.
    pub scale: u32,
}

/// The lines around the squares, in pixels.
fn grid_of(alloc: Global, scale: u32, squares: &[Square]) -> Result<Vec<Rectangle>, AllocError>
    ensures { IfOk result (λ list. list.items ≡ grid_rectangles scale squares.now) }
{
    let mut rectangles = Vec::new(alloc);
    for square in squares {
        rectangles.push(rectangle_in_pixels(scale, square.rectangle))?;
    }
    Ok(rectangles)
}

/// Appends the path with this class.
fn push_path(text: &mut String, class: &str, path: &str) -> Result<(), AllocError>
    ensures { OnOk result (string_bytes text.new
        ≡ string_bytes text.old ++ empty_text Elements.Path (path_marks class.now path.now)) }
{
    let attributes = [
        text_attribute(AttributeName::Class, class),
        text_attribute(AttributeName::D, path),
    ];
    push_empty(text, ElementName::Path, &attributes)
}

/// Appends the rectangles of a class that are more than one cell high.
fn push_tall(alloc: Global, text: &mut String, layer: &Layer) -> Result<(), AllocError>
    ensures { OnOk result (string_bytes text.new
        ≡ string_bytes text.old ++ empty_text Elements.Path (tall_marks layer.now)) }
{
    let name = class_name(alloc, layer.class)?;
    let path = tall_path_text(alloc, layer.rectangles.as_slice())?;
    push_path(text, name.as_str(), path.as_str())
}

/// Appends the rectangles of a class that are one cell high.
fn push_rows(alloc: Global, text: &mut String, layer: &Layer) -> Result<(), AllocError>
    ensures { OnOk result (string_bytes text.new
        ≡ string_bytes text.old ++ empty_text Elements.Path (rows_marks layer.now)) }
{
    let mut name = class_name(alloc, layer.class)?;
    name.push_str(" rows")?;
    let path = rows_path_text(alloc, layer.rectangles.as_slice())?;
    push_path(text, name.as_str(), path.as_str())
}

/// Appends the cells of one class.
fn push_layer(alloc: Global, text: &mut String, layer: &Layer) -> Result<(), AllocError>
    ensures { OnOk result (string_bytes text.new ≡ string_bytes text.old ++ nodes_text (layer_nodes layer.now)) }
{
    push_tall(alloc, text, layer)?;
    push_rows(alloc, text, layer)
}

/// Appends the cells of all classes.
fn push_layers(alloc: Global, text: &mut String, layers: &[Layer]) -> Result<(), AllocError>
    ensures { OnOk result (string_bytes text.new
        ≡ string_bytes text.old ++ flat_map (λ l. nodes_text (layer_nodes l)) layers.now) }
{
    for layer in layers {
        push_layer(alloc, text, layer)?;
    }
    Ok(())
}

/// Appends the area of a square.
fn push_square(text: &mut String, square: &Square) -> Result<(), AllocError>
    ensures { OnOk result (string_bytes text.new ≡ string_bytes text.old ++ nodes_text (square_nodes square.now)) }
{
    push_titled_area(text, "hit", square.rectangle, square.title.as_str())
}

/// Appends the areas of the squares.
fn push_squares(text: &mut String, squares: &[Square]) -> Result<(), AllocError>
    ensures { OnOk result (string_bytes text.new
        ≡ string_bytes text.old ++ flat_map (λ s. nodes_text (square_nodes s)) squares.now) }
{
    for square in squares {
        push_square(text, square)?;
    }
    Ok(())
}

/// Appends the ground of the map.
fn push_ground(text: &mut String, sides: Sides, scale: u32) -> Result<(), AllocError>
    ensures { OnOk result (string_bytes text.new
        ≡ string_bytes text.old ++ empty_text Elements.Rect (ground_marks sides scale)) }
{
    let attributes = [
        text_attribute(AttributeName::Class, "ground"),
        number_attribute(AttributeName::Width, pixels_of(scale, sides.width)),
        number_attribute(AttributeName::Height, pixels_of(scale, sides.height)),
    ];
    push_empty(text, ElementName::Rect, &attributes)
}

/// Appends the start of a group whose parts are in cells.
fn push_cells_start(text: &mut String, scale: u32) -> Result<(), AllocError>
    ensures { OnOk result (string_bytes text.new
        ≡ string_bytes text.old ++ start_text Elements.Group (cells_marks scale)) }
{
    let attributes = [
        Attribute {
            name: AttributeName::Transform,
            value: Value::Scale(scale),
        },
        text_attribute(AttributeName::ShapeRendering, "crispEdges"),
    ];
    push_start(text, ElementName::Group, &attributes)
}

/// Appends the lines around the squares.
fn push_grid(
    alloc: Global,
    text: &mut String,
    scale: u32,
    squares: &[Square],
) -> Result<(), AllocError>
    ensures { OnOk result (string_bytes text.new
        ≡ string_bytes text.old ++ empty_text Elements.Path (grid_marks scale squares.now)) }
{
    let rectangles = grid_of(alloc, scale, squares)?;
    let path = path_text(alloc, rectangles.as_slice())?;
    let attributes = [
        text_attribute(AttributeName::Class, "grid"),
        text_attribute(AttributeName::ShapeRendering, "crispEdges"),
        text_attribute(AttributeName::D, path.as_str()),
    ];
    push_empty(text, ElementName::Path, &attributes)
}

/// Appends the labels on the map.
fn push_small(text: &mut String, labels: &[Label]) -> Result<(), AllocError>
    ensures { OnOk result (string_bytes text.new ≡ string_bytes text.old ++ start_text Elements.Group small_marks
        ++ flat_map (λ l. nodes_text (label_nodes l)) labels.now ++ end_text Elements.Group) }
{
    let attributes = [
        text_attribute(AttributeName::Class, "small"),
        text_attribute(AttributeName::PointerEvents, "none"),
    ];
    push_start(text, ElementName::Group, &attributes)?;
    push_labels(text, labels)?;
    push_end(text, ElementName::Group)
}

/// Appends the cells of all classes, in a group of their own.
fn push_cells(
    alloc: Global,
    text: &mut String,
    layers: &[Layer],
    scale: u32,
) -> Result<(), AllocError>
    ensures { OnOk result (string_bytes text.new ≡ string_bytes text.old
        ++ start_text Elements.Group (cells_marks scale)
        ++ flat_map (λ l. nodes_text (layer_nodes l)) layers.now ++ end_text Elements.Group) }
{
    push_cells_start(text, scale)?;
    push_layers(alloc, text, layers)?;
    push_end(text, ElementName::Group)
}

/// Appends the areas of the squares, in a group of their own.
fn push_areas(text: &mut String, squares: &[Square], scale: u32) -> Result<(), AllocError>
    ensures { OnOk result (string_bytes text.new ≡ string_bytes text.old
        ++ start_text Elements.Group (cells_marks scale)
        ++ flat_map (λ s. nodes_text (square_nodes s)) squares.now ++ end_text Elements.Group) }
{
    push_cells_start(text, scale)?;
    push_squares(text, squares)?;
    push_end(text, ElementName::Group)
}

/// Appends the map.
pub(crate) fn push_chart(
    alloc: Global,
    text: &mut String,
    chart: Chart<'_>,
) -> Result<(), AllocError>
    ensures { let c = chart.entry in OnOk result (string_bytes text.new ≡ string_bytes text.old
        ++ nodes_text
        (chart_nodes c.layers.now c.squares.now c.outlines.now c.rings.now c.labels.now c.sides c.scale)) }
{
    push_ground(text, chart.sides, chart.scale)?;
    push_cells(alloc, text, chart.layers, chart.scale)?;
    push_grid(alloc, text, chart.scale, chart.squares)?;
    push_areas(text, chart.squares, chart.scale)?;
    push_outlines(text, chart.scale, chart.outlines)?;
    push_rings(alloc, text, chart.rings)?;
    push_small(text, chart.labels)
}
