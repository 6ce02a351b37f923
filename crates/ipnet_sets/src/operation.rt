//! The operations on two sets.

/// An operation on two sets, for [`IpSet::combine`](crate::IpSet::combine).
///
/// ```text
/// of 10.0.0.0-10.0.0.5 and 10.0.0.3-10.0.0.9
/// Union                  10.0.0.0-10.0.0.9
/// Intersection           10.0.0.3-10.0.0.5
/// Difference             10.0.0.0-10.0.0.2
/// SymmetricDifference    10.0.0.0-10.0.0.2 and 10.0.0.6-10.0.0.9
/// ```
#[derive(Clone, Copy, Debug, PartialEq, Eq)]
pub enum Operation {
    /// The addresses that are in one of the sets, or in both.
    Union,
    /// The addresses that are in both sets.
    Intersection,
    /// The addresses that are in the first set and not in the second.
    Difference,
    /// The addresses that are in exactly one of the two sets.
    SymmetricDifference,
}
