//! How a map looks.

use crate::overlay::Overlay;

/// How a map looks, and what its sets are called.
#[derive(Clone, Copy)]
pub struct MapForm<'a> {
    /// The style sheet.
    pub style: &'a str,
    /// The first words of the title, before the text of the network.
    pub heading: &'a str,
    /// The names of the sets, for the legend of a map of several sets.
    pub names: &'a [&'a str],
    /// The last line of the foot; there is none if this is empty.
    pub note: &'a str,
    /// The outlines over the cells.
    pub overlay: &'a Overlay,
}
