//! Sets of addresses, kept by the numbers at which they begin and end.
#![tactic(auto)]

mod boundaries;
mod common;
mod gather;
pub mod image;
mod number;
pub mod operation;
pub mod set;
pub mod set_networks;
pub mod set_ranges;

pub use common::common_supernet;
pub use image::stored::{
    append_u32, append_u32s, append_u64, append_u128, read_u32, read_u64, read_u128,
};
pub use image::{ImageError, IpSetImage, IpSetRef};
pub use operation::Operation;
pub use set::IpSet;
pub use set::builder::IpSetBuilder;
pub use set_networks::IpSetNetworks;
pub use set_ranges::IpSetRanges;
