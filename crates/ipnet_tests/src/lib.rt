//! The tests that are proved: calls through trait bounds, the text tool and its runs, pools and rules beside plain
//! models, and refused memory. The other tests in Rattle are in tests/rattle, and are only run.
//!
//! The tables of rows and other plain models are in tests/library, and refused memory is also in tests/memory: they ask
//! the program `ipnet_probe`.
#![tactic(auto)]

#[cfg(test)]
mod implementations;
#[cfg(test)]
mod memory;
#[cfg(test)]
mod pieces;
#[cfg(test)]
mod pools;
#[cfg(test)]
mod rules;
#[cfg(test)]
mod runs;
#[cfg(test)]
mod text_tool;
#[cfg(test)]
mod texts;
