//! Documents of SVG as text: elements, attributes and texts, in printable ASCII whatever text is in them.
#![tactic(auto)]

pub mod escape;
pub mod laws;
pub mod name;
pub mod tag;

pub use escape::{is_shown, push_escaped};
pub use name::{AttributeName, ElementName};
pub use tag::{Attribute, Value, push_empty, push_end, push_leaf, push_start};
