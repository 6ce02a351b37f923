//! `ipnet_pools` beside a plain model: every set of leases of eight cells with every call, and random runs on sixteen
//! cells.
mod cells;
mod model;
mod places;
mod runs;
