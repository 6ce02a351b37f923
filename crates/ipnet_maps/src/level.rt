//! How much of a cell is covered, as one of five levels. The scale is logarithmic, so thin lists are seen too.
ghost use Rattle.std.specs.Prelude.{◌≤◌, ◌+◌};
ghost use Rattle.ipnet_maps.specs.Levels.{IsShare};

/// How much of a cell is covered.
///
/// ```text
/// of 65,536 addresses: 0 is Nothing, 1 to 255 are Sparse, 256 to 16,383 BelowQuarter, 16,384 to 65,535 FromQuarter,
///     and 65,536 are Whole
/// ```
#[derive(Clone, Copy, Debug, PartialEq, Eq)]
pub enum Level {
    /// No address.
    Nothing,
    /// Some, and less than one of 256.
    Sparse,
    /// At least one of 256, and less than a quarter.
    BelowQuarter,
    /// At least a quarter, and not all.
    FromQuarter,
    /// All addresses.
    Whole,
}

/// Returns the level of a cell with `last + 1` addresses, of which `count` are covered.
///
/// ```text
/// level_of(1, 65535) is Sparse; level_of(30000, 65535) is FromQuarter; level_of(1, 0) is Whole
/// ```
pub(crate) fn level_of(count: u128, last: u128) -> Level
    requires { count ≤ last + 1 }
    ensures { IsShare result count (last + 1) }
{
    if count == 0 {
        return Level::Nothing;
    }
    if count > last {
        return Level::Whole;
    }
    if count <= last / 256 {
        return Level::Sparse;
    }
    if count <= last / 4 {
        return Level::BelowQuarter;
    }
    Level::FromQuarter
}
