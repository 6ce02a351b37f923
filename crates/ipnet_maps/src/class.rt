//! The classes of the cells of a map.

/// The class of a cell of a map. A cell without an address of a set has no class.
#[derive(Clone, Copy, Debug, PartialEq, Eq)]
pub enum Class {
    /// In a map of one set: some of the addresses, and less than one of 256.
    Sparse,
    /// In a map of one set: at least one of 256 addresses, and less than a quarter.
    BelowQuarter,
    /// In a map of one set: at least a quarter of the addresses, and not all.
    FromQuarter,
    /// In a map of one set: all addresses.
    Whole,
    /// In a map of a change: addresses went, and none came.
    Removed,
    /// In a map of a change: addresses came, and none went.
    Added,
    /// In a map of a change: addresses went, and addresses came.
    Mixed,
    /// In a map of a change: both sets have the same addresses of the cell, some and not all.
    KeptPart,
    /// In a map of a change: both sets have all addresses of the cell.
    KeptWhole,
    /// In a map of several sets: two sets share an address of the cell.
    Overlap,
    /// In a map of several sets: two sets have addresses of the cell, and no two share one.
    Several,
    /// In a map of several sets: only the set at this place of the list has addresses of the cell, and not all.
    PartOf(usize),
    /// In a map of several sets: only the set at this place of the list has addresses of the cell, and it has all.
    WholeOf(usize),
}
