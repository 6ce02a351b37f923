//! Pictures of lists: bars and maps of their addresses and of what differs between two lists, and bars of plans.
#![tactic(auto)]

pub mod bar;
pub mod bar_program;
pub mod locale;
pub mod map;
pub mod map_program;
pub mod plan_bar;
pub mod plan_bar_program;

pub use bar::{
    BarRequest, PictureFailure, framed_bar_text, framed_comparison_text, read_row_width,
};
pub use bar_program::{BarCommand, ComparisonBarCommand};
pub use locale::{LocaleValues, MarkChoice, chosen_marks, is_utf8_locale};
pub use map::{
    MapRequest, framed_change_map_text, framed_map_text, framed_sets_map_text, read_theme,
};
pub use map_program::{ChangeMapCommand, MapCommand, SetsMapCommand};
pub use plan_bar::{PlanBarRequest, plan_bar_text};
pub use plan_bar_program::PlanBarCommand;
