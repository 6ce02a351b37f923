//! Tables with the fewest routes: each address has the value that it has in a given table.
#![tactic(auto)]

mod block;
mod choice;
mod fewest;
mod halves;
pub mod laws;
mod numbers;
pub mod table;
mod values;

pub use table::shortest_table;
