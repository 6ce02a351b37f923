//! Laws of values. A law takes the values that it is about: after the call, the check knows the fact for these values,
//! and `search` uses it without a proof file. Laws do nothing at run time.
//!
//! The three modules have the same laws, one module for each type. Only `ipv4` and `ipv6` have
//! `address_has_its_number`, and only `ip` has `same_addresses_agree`.
//!
//! ```text
//! ip::nested_or_disjoint(a, b)     then a.contains(b) || b.contains(a) is true if and only if a and b share an address
//! ```

pub mod ip;
pub mod ipv4;
pub mod ipv6;
