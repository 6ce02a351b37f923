//! The style sheets of maps: the colours of each class, for light and dark pages.
ghost use Rattle.std.specs.Prelude.{◌≡◌, ◌++◌, IfOk, OnOk, string_bytes};
ghost use Rattle.svg_maps.specs.Styles.{both_text, colours_text, style_text};

use std::alloc::{AllocError, Global};

/// The most lists that one map shows, each in its own colour.
pub const MOST_LISTS: usize = 6;

/// The colours of a map.
#[derive(Clone, Copy, Debug, PartialEq, Eq)]
pub enum Theme {
    /// Dark if the reader prefers that, and else light.
    Auto,
    /// Dark texts on a light page.
    Light,
    /// Light texts on a dark page.
    Dark,
}

// Each rule is below the class of the document, so that the rules do not change a page into which it is put. A class of
// cells colours areas and lines, but only its rows have lines. The rule of rows has to win over the fill of a class.

/// The rules of all themes.
const COMMON: &str = "\
.netmap text{font-family:ui-monospace,Menlo,Consolas,DejaVu Sans Mono,monospace;font-size:11px}\
.netmap .head{font-size:15px;font-weight:bold}\
.netmap .small text{font-size:9px;opacity:.8}\
.netmap .small .note{font-size:11px}\
.netmap .small .strong{font-weight:bold;opacity:1}\
.netmap .hit{fill:#fff;fill-opacity:0}\
.netmap .hit:hover{fill-opacity:.25}\
.netmap rect,.netmap path{stroke-width:0}\
.netmap path.rows{fill:none;stroke-width:1}\
.netmap .grid{fill:none;stroke-width:1;opacity:.35}\
.netmap .free{fill:none;stroke-width:1;stroke-opacity:.55;shape-rendering:crispEdges;pointer-events:none}\
.netmap .name{fill:none;stroke-width:1.5}\
.netmap .best{fill-opacity:.3;stroke-width:3;pointer-events:none}\
.netmap circle.ring{fill:none;stroke-width:2;pointer-events:none}\
.netmap .halo{stroke-width:3;stroke-opacity:.6;stroke-linejoin:round;paint-order:stroke}\
.netmap .pale{fill-opacity:.55;stroke-opacity:.55}";

/// The colours of a light page.
const LIGHT: &str = "\
.netmap .page{fill:#ffffff}\
.netmap .ground{fill:#f1f1ee}\
.netmap .ink{fill:#1a1a1a}\
.netmap .faint{fill:#63635e}\
.netmap .inverse{fill:#ffffff}\
.netmap .black{fill:#000000}\
.netmap .s1{fill:#a3c9e6;stroke:#a3c9e6}\
.netmap .s2{fill:#5fa3d3;stroke:#5fa3d3}\
.netmap .s3{fill:#2171b5;stroke:#2171b5}\
.netmap .s4{fill:#08306b;stroke:#08306b}\
.netmap .old{fill:#d55e00;stroke:#d55e00}\
.netmap .new{fill:#0072b2;stroke:#0072b2}\
.netmap .both{fill:#8f8f8a;stroke:#8f8f8a}\
.netmap .bothp{fill:#bdbdb8;stroke:#bdbdb8}\
.netmap .mix{fill:#000000;stroke:#000000}\
.netmap .ov{fill:#000000;stroke:#000000}\
.netmap .sev{fill:#8f8f8a;stroke:#8f8f8a}\
.netmap .l0{fill:#0072b2;stroke:#0072b2}\
.netmap .l1{fill:#e69f00;stroke:#e69f00}\
.netmap .l2{fill:#009e73;stroke:#009e73}\
.netmap .l3{fill:#cc79a7;stroke:#cc79a7}\
.netmap .l4{fill:#56b4e9;stroke:#56b4e9}\
.netmap .l5{fill:#d55e00;stroke:#d55e00}\
.netmap .grid{stroke:#8a8a85}\
.netmap .free{stroke:#8a8a85}\
.netmap .best{fill:#009e73;stroke:#009e73}\
.netmap .name{stroke:#1a1a1a}\
.netmap .halo{stroke:#f1f1ee}";

/// The colours of a dark page.
const DARK: &str = "\
.netmap .page{fill:#16181c}\
.netmap .ground{fill:#24272d}\
.netmap .ink{fill:#f0f0ee}\
.netmap .faint{fill:#aab0ba}\
.netmap .inverse{fill:#000000}\
.netmap .black{fill:#000000}\
.netmap .s1{fill:#264a68;stroke:#264a68}\
.netmap .s2{fill:#35719f;stroke:#35719f}\
.netmap .s3{fill:#5aa2d8;stroke:#5aa2d8}\
.netmap .s4{fill:#a8d8ff;stroke:#a8d8ff}\
.netmap .old{fill:#f28a35;stroke:#f28a35}\
.netmap .new{fill:#4db2ff;stroke:#4db2ff}\
.netmap .both{fill:#6c727c;stroke:#6c727c}\
.netmap .bothp{fill:#484d56;stroke:#484d56}\
.netmap .mix{fill:#ffffff;stroke:#ffffff}\
.netmap .ov{fill:#ffffff;stroke:#ffffff}\
.netmap .sev{fill:#6c727c;stroke:#6c727c}\
.netmap .l0{fill:#2a78c8;stroke:#2a78c8}\
.netmap .l1{fill:#e69f00;stroke:#e69f00}\
.netmap .l2{fill:#1fb98d;stroke:#1fb98d}\
.netmap .l3{fill:#cc79a7;stroke:#cc79a7}\
.netmap .l4{fill:#9bd8ff;stroke:#9bd8ff}\
.netmap .l5{fill:#d55e00;stroke:#d55e00}\
.netmap .grid{stroke:#8b919b}\
.netmap .free{stroke:#8b919b}\
.netmap .best{fill:#1fb98d;stroke:#1fb98d}\
.netmap .name{stroke:#f0f0ee}\
.netmap .halo{stroke:#24272d}";

/// Appends the colours of a light page, and the colours of a dark page for a reader who prefers dark pages.
fn push_both(text: &mut String) -> Result<(), AllocError>
    ensures { OnOk result (string_bytes text.new ≡ string_bytes text.old ++ both_text) }
{
    text.push_str(LIGHT)?;
    text.push_str("@media(prefers-color-scheme:dark){")?;
    text.push_str(DARK)?;
    text.push_str("}")?;
    Ok(())
}

/// Appends the colours of the theme.
fn push_colours(text: &mut String, theme: Theme) -> Result<(), AllocError>
    ensures { OnOk result (string_bytes text.new ≡ string_bytes text.old ++ colours_text theme) }
{
    match theme {
        Theme::Auto => push_both(text),
        Theme::Light => text.push_str(LIGHT),
        Theme::Dark => text.push_str(DARK),
    }
}

/// Returns the style sheet of the theme. Each rule is below the class `netmap` of the document, so the rules do not
/// change other parts of a page into which the document is put. Fails only if memory runs out.
///
/// Some programs that draw a document of SVG do not know what the reader prefers: for them `Auto` is light.
///
/// ```text
/// of Light: .netmap text{..}.netmap .head{..} .. .netmap .page{fill:#ffffff} ..
/// ```
pub fn style_of(alloc: Global, theme: Theme) -> Result<String, AllocError>
    ensures { IfOk result (λ text. string_bytes text ≡ style_text theme) }
{
    let mut text = String::new(alloc);
    text.push_str(COMMON)?;
    push_colours(&mut text, theme)?;
    Ok(text)
}
