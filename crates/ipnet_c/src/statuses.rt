//! The statuses that the calls return. `specs/Statuses` and `include/ipnet.h` say what each means.
ghost use Rattle.std.specs.Prelude.{◌≡◌, ◌<◌};
ghost use Rattle.ipnet_c.specs.Statuses.{status_of_bytes};

use ipnet::CompactError;

/// The result is in the memory that the caller lent.
pub(crate) const OK: u32 = 0;

/// A line of the text is neither empty nor a network.
pub(crate) const BAD_LINE: u32 = 1;

/// The text is not UTF-8.
pub(crate) const NOT_UTF8: u32 = 2;

/// An allocation was refused.
pub(crate) const OUT_OF_MEMORY: u32 = 3;

/// There is an answer, and the buffer is too short for it.
pub(crate) const BUFFER_TOO_SHORT: u32 = 4;

/// The text is not a network.
pub(crate) const NOT_A_NETWORK: u32 = 5;

/// The number of bytes is wrong for a network.
pub(crate) const WRONG_LENGTH: u32 = 6;

/// The first byte is not the byte of a family.
pub(crate) const UNKNOWN_FAMILY: u32 = 7;

/// The last byte, the prefix length, is above the width of the address.
pub(crate) const PREFIX_TOO_LONG: u32 = 8;

/// A line of the second of two texts is neither empty nor a network.
pub(crate) const BAD_LINE_IN_OTHER: u32 = 9;

/// The second of two texts is not UTF-8.
pub(crate) const OTHER_NOT_UTF8: u32 = 10;

/// The bytes are not the image of a set.
pub(crate) const NOT_A_SET: u32 = 11;

/// The second of two images is not the image of a set.
pub(crate) const OTHER_NOT_A_SET: u32 = 12;

/// The bytes do not begin with the header of the image of a table.
pub(crate) const NOT_A_TABLE: u32 = 13;

/// An offset is less than the offset before it, or greater than the length of the text.
pub(crate) const BAD_OFFSETS: u32 = 14;

/// A row is not what the call reads.
pub(crate) const BAD_ROW: u32 = 15;

/// The bytes are not the image of a table of payloads.
pub(crate) const NOT_ORIGINS: u32 = 16;
/// A number is not one of the numbers of an option.
pub(crate) const UNKNOWN_OPTION: u32 = 17;

/// There is no address around which to draw a network.
pub(crate) const NO_ADDRESS: u32 = 18;

/// The set has no room for the networks of a plan.
pub(crate) const NO_PLACE: u32 = 19;

/// Returns the status for bytes that are not a network.
pub(crate) fn status_of(error: CompactError) -> u32
    ensures status { result ≡ status_of_bytes error }
    ensures fits { result < 256 }
{
    match error {
        CompactError::Length => WRONG_LENGTH,
        CompactError::Variant => UNKNOWN_FAMILY,
        CompactError::Prefix => PREFIX_TOO_LONG,
    }
}
