//! The proved library for callers in C, and in languages that call C: a static library with these functions under
//! their own names, declared in `include/ipnet.h`.
#![tactic(auto)]

pub mod aggregates;
pub mod bars;
mod buffers;
pub mod bulk_numbers;
pub mod bulk_rows;
pub mod covers;
mod drawn;
pub mod facts;
pub mod image_rows;
mod lists;
mod map_entries;
pub mod maps;
pub mod networks;
pub mod origins;
mod picture_options;
pub mod plans;
mod row_form;
pub mod rows;
pub mod set_images;
pub mod set_lists;
pub mod set_questions;
pub mod sets;
mod statuses;
pub mod table_routes;
pub mod tables;
pub mod version;
