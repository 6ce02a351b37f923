//! Maps of networks: the rectangle of each block, on a grid on which an address is read like text.
#![tactic(auto)]

pub mod cells;
pub mod changed;
pub mod class;
pub mod depth;
pub mod drawing;
pub mod laws;
pub(crate) mod layers;
pub mod layout;
pub mod level;
pub mod levels;
pub mod path;
pub mod places;
pub(crate) mod runs;
mod several;
pub mod shared;

pub use cells::{cells_with_all, cells_with_some};
pub use changed::{ChangedCells, changed_cells};
pub use class::Class;
pub use depth::greatest_depth_of;
pub use drawing::{Drawing, draw_change, draw_set, draw_sets};
pub use layers::Layer;
pub use layout::{Axis, Layout, Place, Rectangle, Sides};
pub use level::Level;
pub use levels::{LevelCells, level_cells};
pub use path::{path_text, rows_path_text, tall_path_text};
pub use places::{rectangle_in, rectangles_of};
pub use shared::{cells_in_two_of, in_two_of};
