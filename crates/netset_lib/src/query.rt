//! Questions about the entries of a list, by another list.
use crate::filter::Side;

/// A question about each entry of a list, by a list before it.
#[derive(Clone, Copy, Debug, PartialEq, Eq)]
pub enum Query {
    /// The entries that lie on this side of the first list.
    Filter(Side),
    /// The longest networks of the first list that contain the entries.
    Route,
}
