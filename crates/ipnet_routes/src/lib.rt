//! Tables and maps of routes: values that belong to networks, found by the longest match.
#![tactic(auto)]

pub mod route_map;
pub mod routes;

pub use route_map::RouteMap;
pub use routes::RouteTable;
pub use routes::image::{RouteTableImage, RouteTableRef, TableImageError};
