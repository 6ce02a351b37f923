//! The page of a map, as a document of SVG.
ghost use Rattle.std.specs.Prelude.{◌≡◌, ◌++◌, IfOk, OnOk, string_bytes};
ghost use Rattle.svg_text.specs.Documents.{nodes_text, empty_text, start_text, end};
ghost use Rattle.svg_text.specs.declared.name.ElementName.TheVariants as Elements;
ghost use Rattle.svg_maps.specs.Pages.{root_marks, page_marks, head_nodes, placed_nodes, chart_nodes};
ghost use Rattle.svg_maps.specs.Pages.{content_nodes, page_nodes, page_view};

use crate::chart::{Chart, push_chart};
use crate::label::{Label, Swatch, number_attribute, push_labels, push_swatches, text_attribute};
use ipnet_maps::{Place, Sides};
use std::alloc::{AllocError, Global};
use svg_text::{
    Attribute, AttributeName, ElementName, Value, push_empty, push_end, push_leaf, push_start,
};

/// The parts of a page beside the map.
#[derive(Clone, Copy)]
pub struct Page<'a> {
    /// The title of the document.
    pub title: &'a str,
    /// A sentence about the document.
    pub summary: &'a str,
    /// The style sheet.
    pub style: &'a str,
    /// The labels beside the map.
    pub captions: &'a [Label],
    /// The labels at the heads of the rows and columns of the map.
    pub heads: &'a [Label],
    /// The rows of the legend.
    pub swatches: &'a [Swatch],
    /// How many pixels the page is wide and high.
    pub area: Sides,
    /// The place of the map, in pixels.
    pub chart_place: Place,
}

/// Appends the start of the document.
fn push_root(text: &mut String, area: Sides) -> Result<(), AllocError>
    ensures { OnOk result (string_bytes text.new
        ≡ string_bytes text.old ++ start_text Elements.Svg (root_marks area.width area.height)) }
{
    let attributes = [
        text_attribute(AttributeName::Xmlns, "http://www.w3.org/2000/svg"),
        Attribute {
            name: AttributeName::ViewBox,
            value: Value::ViewBox(area.width, area.height),
        },
        number_attribute(AttributeName::Width, area.width),
        number_attribute(AttributeName::Height, area.height),
        text_attribute(AttributeName::Class, "netmap"),
        text_attribute(AttributeName::Role, "img"),
    ];
    push_start(text, ElementName::Svg, &attributes)
}

/// Appends the ground of the page.
fn push_ground(text: &mut String, area: Sides) -> Result<(), AllocError>
    ensures { OnOk result (string_bytes text.new
        ≡ string_bytes text.old ++ empty_text Elements.Rect (page_marks area.width area.height)) }
{
    let attributes = [
        text_attribute(AttributeName::Class, "page"),
        number_attribute(AttributeName::Width, area.width),
        number_attribute(AttributeName::Height, area.height),
    ];
    push_empty(text, ElementName::Rect, &attributes)
}

/// Appends the title, the summary, the style sheet and the ground of the page.
fn push_head(text: &mut String, page: Page<'_>) -> Result<(), AllocError>
    ensures { let p = page.entry in OnOk result (string_bytes text.new ≡ string_bytes text.old
        ++ nodes_text (head_nodes p.title.now p.summary.now p.style.now p.area end)) }
{
    push_leaf(text, ElementName::Title, &[], page.title)?;
    push_leaf(text, ElementName::Desc, &[], page.summary)?;
    push_leaf(text, ElementName::Style, &[], page.style)?;
    push_ground(text, page.area)
}

/// Appends the map, at its place.
fn push_placed(
    alloc: Global,
    text: &mut String,
    place: Place,
    chart: Chart<'_>,
) -> Result<(), AllocError>
    ensures { let c = chart.entry in OnOk result (string_bytes text.new ≡ string_bytes text.old
        ++ nodes_text (placed_nodes place
        (chart_nodes c.layers.now c.squares.now c.outlines.now c.rings.now c.labels.now c.sides c.scale))) }
{
    let attributes = [Attribute {
        name: AttributeName::Transform,
        value: Value::Translate(place.column, place.row),
    }];
    push_start(text, ElementName::Group, &attributes)?;
    push_chart(alloc, text, chart)?;
    push_end(text, ElementName::Group)
}

/// Appends what is in the document.
fn push_content(
    alloc: Global,
    text: &mut String,
    page: Page<'_>,
    chart: Chart<'_>,
) -> Result<(), AllocError>
    ensures { OnOk result (string_bytes text.new
        ≡ string_bytes text.old ++ nodes_text (content_nodes (page_view page.entry chart.entry))) }
{
    push_head(text, page)?;
    push_labels(text, page.captions)?;
    push_labels(text, page.heads)?;
    push_swatches(alloc, text, page.swatches)?;
    push_placed(alloc, text, page.chart_place, chart)
}

/// Returns the document of the page with the map. Fails only if memory runs out.
///
/// It is one element of SVG, in printable ASCII and line feeds, whatever texts the labels and titles have.
///
/// ```text
/// <svg xmlns="http://www.w3.org/2000/svg" viewBox="0 0 720 1100" ..><title>10.20.0.0/16</title> ..
/// <path class="s4" d="m0 4h16v2h-16z"/><path class="s4 rows" d="m0 .5m0 0h16"/> .. </svg>
/// ```
pub fn page_text(alloc: Global, page: Page<'_>, chart: Chart<'_>) -> Result<String, AllocError>
    ensures { IfOk result (λ text. string_bytes text ≡ nodes_text (page_nodes (page_view page.entry chart.entry))) }
{
    let mut text = String::new(alloc);
    push_root(&mut text, page.area)?;
    push_content(alloc, &mut text, page, chart)?;
    push_end(&mut text, ElementName::Svg)?;
    Ok(text)
}
