//! Helpers for the tests of several crates: limited memory, and readers and writers that fail. Only tests use this
//! crate.
#![tactic(auto)]

pub mod devices;
pub mod memory;
