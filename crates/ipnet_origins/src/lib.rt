//! Validation of the origins of routes against validated ROA payloads (RFC 6811).
#![tactic(auto)]

mod groups;
pub mod image;
pub mod laws;
pub mod origins;
pub mod payload;
mod records;

pub use image::{OriginImageError, OriginTableRef};
pub use origins::{OriginTable, Validity};
pub use payload::{Payload, PayloadError};
