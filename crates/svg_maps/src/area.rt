//! Rectangles of a page that have a class and may have a title.
ghost use Rattle.std.specs.Prelude.{◌≡◌, ◌++◌, OnOk, map, string_bytes};
ghost use Rattle.svg_text.specs.Documents.{nodes_text, mark_of, empty_text, element, words, end};
ghost use Rattle.svg_text.specs.declared.name.ElementName.TheVariants as Elements;
ghost use Rattle.svg_maps.specs.Pages.{area_marks, titled_nodes};

use crate::label::{number_attribute, text_attribute};
use ipnet_maps::Rectangle;
use std::alloc::AllocError;
use svg_text::{
    Attribute, AttributeName, ElementName, push_empty, push_end, push_leaf, push_start,
};

/// The attributes of a rectangle of this class.
pub(crate) fn area_attributes<'a>(class: &'a str, area: Rectangle) -> [Attribute<'a>; 5]
    ensures { map mark_of result ≡ area_marks class.now area }
{
    [
        text_attribute(AttributeName::Class, class),
        number_attribute(AttributeName::X, area.place.column),
        number_attribute(AttributeName::Y, area.place.row),
        number_attribute(AttributeName::Width, area.sides.width),
        number_attribute(AttributeName::Height, area.sides.height),
    ]
}

/// Appends the rectangle, with a title.
pub(crate) fn push_titled_area(
    text: &mut String,
    class: &str,
    area: Rectangle,
    title: &str,
) -> Result<(), AllocError>
    ensures { OnOk result (string_bytes text.new
        ≡ string_bytes text.old ++ nodes_text (titled_nodes (area_marks class.now area) title.now)) }
{
    let attributes = area_attributes(class, area);
    push_start(text, ElementName::Rect, &attributes)?;
    push_leaf(text, ElementName::Title, &[], title)?;
    push_end(text, ElementName::Rect)
}

/// Appends the rectangle.
pub(crate) fn push_area(text: &mut String, class: &str, area: Rectangle) -> Result<(), AllocError>
    ensures { OnOk result (string_bytes text.new
        ≡ string_bytes text.old ++ empty_text Elements.Rect (area_marks class.now area)) }
{
    let attributes = area_attributes(class, area);
    push_empty(text, ElementName::Rect, &attributes)
}
