//! The tags of elements.
ghost use Rattle.std.specs.Prelude.{◌≡◌, ◌++◌, OnOk, map, flat_map, string_bytes};
ghost use Rattle.svg_text.specs.Escapes.{escaped};
ghost use Rattle.svg_text.specs.Documents.{value_text, mark_of, mark_text, tag_text, start_text, end_text, empty_text};
ghost use Rattle.svg_text.specs.Documents.{nodes_text, element, words, end};
ghost use Rattle.svg_text.specs.declared.tag.Value.TheVariants as Values;

use crate::escape::push_escaped;
use crate::name::{AttributeName, ElementName, attribute_name, element_name};
use std::alloc::AllocError;

/// The value of an attribute.
#[derive(Clone, Copy, Debug)]
pub enum Value<'a> {
    /// Any text.
    Text(&'a str),
    /// A number.
    Number(u32),
    /// A move by these distances, to the right and down: `translate(56 76)`.
    Translate(u32, u32),
    /// A scale by this factor: `scale(4)`.
    Scale(u32),
    /// The area of a picture of this width and height: `0 0 1096 1130`.
    ViewBox(u32, u32),
}

/// An attribute of an element.
#[derive(Clone, Copy, Debug)]
pub struct Attribute<'a> {
    /// The name.
    pub name: AttributeName,
    /// The value.
    pub value: Value<'a>,
}

/// Appends the number.
fn push_number(text: &mut String, number: u32) -> Result<(), AllocError>
    ensures { OnOk result (string_bytes text.new
        ≡ string_bytes text.old ++ escaped (value_text (Values.Number number))) }
{
    write!(text, "{number}")
}

/// Appends the move.
fn push_translate(text: &mut String, x: u32, y: u32) -> Result<(), AllocError>
    ensures { OnOk result (string_bytes text.new
        ≡ string_bytes text.old ++ escaped (value_text (Values.Translate x y))) }
{
    write!(text, "translate({x} {y})")
}

/// Appends the scale.
fn push_scale(text: &mut String, factor: u32) -> Result<(), AllocError>
    ensures { OnOk result (string_bytes text.new
        ≡ string_bytes text.old ++ escaped (value_text (Values.Scale factor))) }
{
    write!(text, "scale({factor})")
}

/// Appends the area.
fn push_view_box(text: &mut String, width: u32, height: u32) -> Result<(), AllocError>
    ensures { OnOk result (string_bytes text.new
        ≡ string_bytes text.old ++ escaped (value_text (Values.ViewBox width height))) }
{
    write!(text, "0 0 {width} {height}")
}

/// Appends the value, escaped.
fn push_value(text: &mut String, value: Value<'_>) -> Result<(), AllocError>
    ensures { OnOk result (string_bytes text.new ≡ string_bytes text.old ++ escaped (value_text value.entry)) }
{
    match value {
        Value::Text(value) => push_escaped(text, value),
        Value::Number(number) => push_number(text, number),
        Value::Translate(x, y) => push_translate(text, x, y),
        Value::Scale(factor) => push_scale(text, factor),
        Value::ViewBox(width, height) => push_view_box(text, width, height),
    }
}

/// Appends the attribute.
fn push_attribute(text: &mut String, attribute: &Attribute<'_>) -> Result<(), AllocError>
    ensures { OnOk result (string_bytes text.new ≡ string_bytes text.old ++ mark_text (mark_of attribute.now)) }
{
    text.push_str(" ")?;
    text.push_str(attribute_name(attribute.name))?;
    text.push_str("=\"")?;
    push_value(text, attribute.value)?;
    text.push_str("\"")
}

/// Appends the name and the attributes of a tag.
fn push_tag(
    text: &mut String,
    name: ElementName,
    attributes: &[Attribute<'_>],
) -> Result<(), AllocError>
    ensures { OnOk result (string_bytes text.new
        ≡ string_bytes text.old ++ tag_text name (map mark_of attributes.now)) }
{
    text.push_str(element_name(name))?;
    for attribute in attributes {
        push_attribute(text, attribute)?;
    }
    Ok(())
}

/// Appends the start of an element.
///
/// # Errors
///
/// Memory runs out. Then `text` has a part of the start at its end.
///
/// ```text
/// a group of the class small: <g class="small">
/// ```
pub fn push_start(
    text: &mut String,
    name: ElementName,
    attributes: &[Attribute<'_>],
) -> Result<(), AllocError>
    ensures { OnOk result (string_bytes text.new
        ≡ string_bytes text.old ++ start_text name (map mark_of attributes.now)) }
{
    text.push_str("<")?;
    push_tag(text, name, attributes)?;
    text.push_str(">")
}

/// Appends the end of an element, and a line feed.
///
/// # Errors
///
/// Memory runs out. Then `text` has a part of the end at its end.
///
/// ```text
/// a group: </g>
/// ```
pub fn push_end(text: &mut String, name: ElementName) -> Result<(), AllocError>
    ensures { OnOk result (string_bytes text.new ≡ string_bytes text.old ++ end_text name) }
{
    text.push_str("</")?;
    text.push_str(element_name(name))?;
    text.push_str(">\n")
}

/// Appends an element with nothing in it, and a line feed.
///
/// # Errors
///
/// Memory runs out. Then `text` has a part of the element at its end.
///
/// ```text
/// a rectangle of the class page: <rect class="page"/>
/// ```
pub fn push_empty(
    text: &mut String,
    name: ElementName,
    attributes: &[Attribute<'_>],
) -> Result<(), AllocError>
    ensures { OnOk result (string_bytes text.new
        ≡ string_bytes text.old ++ empty_text name (map mark_of attributes.now)) }
{
    text.push_str("<")?;
    push_tag(text, name, attributes)?;
    text.push_str("/>\n")
}

/// Appends an element with a text in it, and a line feed.
///
/// # Errors
///
/// Memory runs out. Then `text` has a part of the element at its end.
///
/// ```text
/// a title with the text a<b: <title>a&#60;b</title>
/// ```
pub fn push_leaf(
    text: &mut String,
    name: ElementName,
    attributes: &[Attribute<'_>],
    content: &str,
) -> Result<(), AllocError>
    ensures { OnOk result (string_bytes text.new
        ≡ string_bytes text.old ++ nodes_text (element name (map mark_of attributes.now) (words content.now end) end)) }
{
    push_start(text, name, attributes)?;
    push_escaped(text, content)?;
    push_end(text, name)
}
