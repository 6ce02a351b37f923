//! Lists of networks that cover a set of addresses, within a limit of networks or of other addresses.
#![tactic(auto)]

pub mod cover;
mod halves;
mod part;
mod plan;
mod shares;

pub use cover::{
    fewest_ipv4_networks, fewest_ipv6_networks, shortest_ipv4_cover, shortest_ipv6_cover,
};
