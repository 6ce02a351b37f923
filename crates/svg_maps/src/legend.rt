//! The legend: what the colour of each class says of a dot.
ghost use Rattle.std.specs.Prelude.{◌≡◌, ◌++◌, IfOk, map, slice_get, string_bytes};
ghost use Rattle.svg_maps.specs.Legends.{list_name, class_words, row_of, legend_rows};

use crate::label::{Anchor, Ink, Label, Swatch};
use ipnet_maps::{Class, Layer, Place};
use std::alloc::{AllocError, Global};

/// The left edge of the captions and of the legend, in pixels.
pub(crate) const EDGE: u32 = 16;

/// The height of a line, in pixels.
pub(crate) const LINE: u32 = 18;

/// The name of the list at this place in the legend.
#[tactic(auto, using(crate::proofs::LegendLaws::named_at))]
fn name_at(alloc: Global, names: &[&str], place: usize) -> Result<String, AllocError>
    ensures { IfOk result (λ name. string_bytes name ≡ list_name place (slice_get (map (λ n. n.now) names.now) place)) }
{
    match names.get(place) {
        Some(name) => String::from_str(alloc, name),
        None => format!(in alloc; "list {place}"),
    }
}

/// The words, and after them what the list at this place is called.
fn words_of_list(
    alloc: Global,
    words: &str,
    names: &[&str],
    place: usize,
) -> Result<String, AllocError>
    ensures { IfOk result (λ text. string_bytes text
        ≡ words.now ++ list_name place (slice_get (map (λ n. n.now) names.now) place)) }
{
    let name = name_at(alloc, names, place)?;
    let mut text = String::from_str(alloc, words)?;
    text.push_str(name.as_str())?;
    Ok(text)
}

/// The words of the legend for the colour of the class, for lists with these names.
fn class_words(alloc: Global, class: Class, names: &[&str]) -> Result<String, AllocError>
    ensures { IfOk result (λ text. string_bytes text ≡ class_words (map (λ n. n.now) names.now) class) }
{
    let words = match class {
        Class::Sparse => "less than one of 256 addresses of a dot is in the list",
        Class::BelowQuarter => "less than a quarter of a dot is in the list",
        Class::FromQuarter => "a quarter of a dot or more is in the list, but not all",
        Class::Whole => "all of a dot is in the list",
        Class::Removed => "removed: addresses that only the first list has",
        Class::Added => "added: addresses that only the second list has",
        Class::Mixed => "both: some addresses of a dot are removed, and others are added",
        Class::KeptPart => "no change: a part of a dot is in both lists",
        Class::KeptWhole => "no change: all of a dot is in both lists",
        Class::Overlap => "two lists or more have the same address",
        Class::Several => "two lists or more have addresses of a dot, and none in common",
        Class::PartOf(place) => return words_of_list(alloc, "a part of a dot is in ", names, place),
        Class::WholeOf(place) => return words_of_list(alloc, "all of a dot is in ", names, place),
    };
    String::from_str(alloc, words)
}

/// The row of the legend for the class, at this height.
fn swatch_of(class: Class, words: String, row: u32) -> Swatch
    ensures { row_of result ≡ (class, string_bytes words) }
{
    let label = Label {
        ink: Ink::Plain,
        anchor: Anchor::Start,
        place: Place {
            column: EDGE + 20,
            row: row.saturating_add(10),
        },
        words,
    };
    let place = Place { column: EDGE, row };
    Swatch {
        class,
        place,
        label,
    }
}

/// Returns the rows of the legend, one below the other from this height: one for each layer that has cells. Fails only
/// if memory runs out.
pub(crate) fn legend_of(
    alloc: Global,
    layers: &[Layer],
    names: &[&str],
    first_row: u32,
) -> Result<Vec<Swatch>, AllocError>
    ensures { IfOk result (λ swatches.
        map row_of swatches.items ≡ legend_rows (map (λ n. n.now) names.now) layers.now) }
{
    let mut swatches = Vec::new(alloc);
    let mut row = first_row;
    for layer in layers {
        if !layer.rectangles.is_empty() {
            let words = class_words(alloc, layer.class, names)?;
            swatches.push(swatch_of(layer.class, words, row))?;
            row = row.saturating_add(LINE);
        }
    }
    Ok(swatches)
}
