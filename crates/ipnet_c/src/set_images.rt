//! Sets of addresses as images: the bytes of a set, which the caller keeps, and what is made of them.
ghost use Rattle.std.specs.Prelude.{IfOk, string_bytes};
ghost use Rattle.ipnet.specs.declared.parser.Grammar.TheVariants.{Strict, Legacy};
ghost use Rattle.ipnet_c.specs.SetReplies.{IsCompileReply, IsCombineReply, IsImageReply, IsImageWith};
ghost use Rattle.ipnet_c.specs.SetReplies.{IsComplementOfImage, IsTextOfImage, IsRangesOfImage, IsMadeOfImages};
ghost use Rattle.ipnet_sets.specs.declared.operation.Operation.TheVariants as Of;

use crate::buffers::write_to_buffer;
use crate::lists::set_of_text;
use crate::statuses::{NOT_A_SET, OTHER_NOT_A_SET, OUT_OF_MEMORY};
use ipnet::Grammar;
use ipnet_lists::{network_lines, range_lines};
use ipnet_sets::{IpSetRef, Operation};
use std::alloc::{AllocError, Global};

/// Writes the image of the addresses of a text in this grammar into the buffer, and its length into `count`.
fn compile(
    alloc: Global,
    text: &[u8],
    grammar: Grammar,
    buffer: &mut [u8],
    count: &mut usize,
) -> u32
    ensures { IsCompileReply grammar text.now buffer.old buffer.new count.old count.new result }
{
    let set = match set_of_text(alloc, text, grammar, count) {
        Ok(set) => set,
        Err(status) => return status,
    };
    let Ok(image) = set.to_bytes(alloc) else {
        return OUT_OF_MEMORY;
    };
    write_to_buffer(image.as_slice(), buffer, count)
}

/// Writes the image of the addresses of a list into the buffer, and its length in bytes into `count`.
///
/// The text has one network per line, in the strict grammar; empty lines are skipped. The image has 32 bytes, and 4 or
/// 16 for each end of a range. It has a header of its own, so it can be stored, sent and mapped; equal sets have equal
/// images.
///
/// Returns 0; 4 if the buffer is too short, with the length needed in `count`; 1 if a line is not a network, with the
/// number of the first such line in `count`; 2 if the text is not UTF-8; 3 if memory runs out. The buffer changes only
/// at 0, `count` only at 0, 1 and 4.
///
/// ```text
/// "10.0.0.0/30\n"               0, and an image of 40 bytes
/// "10.0.0.0/24\n\nx\n"          1, and the number 3
/// ```
#[unsafe(no_mangle)]
pub extern "C" fn ipnet_set_from_text(
    alloc: Global,
    text: &[u8],
    buffer: &mut [u8],
    count: &mut usize,
) -> u32
    ensures { IsCompileReply Strict text.now buffer.old buffer.new count.old count.new result }
{
    compile(alloc, text, Grammar::Strict, buffer, count)
}

/// Like `ipnet_set_from_text`, for a text of the legacy grammar: octets and lengths may have leading zeros, and "::"
/// may replace no group.
///
/// ```text
/// "10.0.0.0/31\n10.0.00.2/31\n"    0, and the image of 10.0.0.0/30, of 40 bytes
/// ```
#[unsafe(no_mangle)]
pub extern "C" fn ipnet_set_from_text_legacy(
    alloc: Global,
    text: &[u8],
    buffer: &mut [u8],
    count: &mut usize,
) -> u32
    ensures { IsCompileReply Legacy text.now buffer.old buffer.new count.old count.new result }
{
    compile(alloc, text, Grammar::Legacy, buffer, count)
}

/// Returns the image of the result of the operation on the sets of two images.
fn combined_image(
    alloc: Global,
    operation: Operation,
    set: IpSetRef<'_>,
    other: IpSetRef<'_>,
) -> Result<Vec<u8>, AllocError>
    ensures { IfOk result (λ image.
        IsImageWith (IsMadeOfImages operation set.entry.image.bytes.now other.entry.image.bytes.now) image.items) }
{
    let first = set.to_set(alloc)?;
    let second = other.to_set(alloc)?;
    first.combine(alloc, operation, &second)?.to_bytes(alloc)
}

/// Writes the image of the result of the operation on the sets of two images into the buffer.
fn write_combined_image(
    alloc: Global,
    operation: Operation,
    images: (&[u8], &[u8]),
    buffer: &mut [u8],
    count: &mut usize,
) -> u32
    ensures { IsCombineReply operation images.entry.0.now images.entry.1.now buffer.old buffer.new count.old count.new
        result }
{
    let Ok(set) = IpSetRef::from_bytes(images.0) else {
        return NOT_A_SET;
    };
    let Ok(other) = IpSetRef::from_bytes(images.1) else {
        return OTHER_NOT_A_SET;
    };
    let Ok(image) = combined_image(alloc, operation, set, other) else {
        return OUT_OF_MEMORY;
    };
    write_to_buffer(image.as_slice(), buffer, count)
}

/// Writes the image of the union of two sets, given by their images, into the buffer, and its length into `count`.
///
/// Returns 0; 4 if the buffer is too short, with the length needed in `count`; 11 if the first bytes are not the image
/// of a set; 12 if only the second are not; 3 if memory runs out. The buffer changes only at 0, `count` only at 0 and
/// 4.
///
/// ```text
/// 10.0.0.0/31 and 10.0.0.2/31    0, and the image of 10.0.0.0/30
/// ```
#[unsafe(no_mangle)]
pub extern "C" fn ipnet_set_union(
    alloc: Global,
    set: &[u8],
    other: &[u8],
    buffer: &mut [u8],
    count: &mut usize,
) -> u32
    ensures { IsCombineReply Of.Union set.now other.now buffer.old buffer.new count.old count.new result }
{
    write_combined_image(alloc, Operation::Union, (set, other), buffer, count)
}

/// Writes the image of the intersection of two sets, as `ipnet_set_union` does with the union.
///
/// ```text
/// 10.0.0.0/30 and 10.0.0.2/31    0, and the image of 10.0.0.2/31
/// ```
#[unsafe(no_mangle)]
pub extern "C" fn ipnet_set_intersection(
    alloc: Global,
    set: &[u8],
    other: &[u8],
    buffer: &mut [u8],
    count: &mut usize,
) -> u32
    ensures { IsCombineReply Of.Intersection set.now other.now buffer.old buffer.new count.old count.new result }
{
    write_combined_image(alloc, Operation::Intersection, (set, other), buffer, count)
}

/// Writes the image of the first set without the second, as `ipnet_set_union` does with the union.
///
/// ```text
/// 10.0.0.0/30 and 10.0.0.2/31    0, and the image of 10.0.0.0/31
/// ```
#[unsafe(no_mangle)]
pub extern "C" fn ipnet_set_difference(
    alloc: Global,
    set: &[u8],
    other: &[u8],
    buffer: &mut [u8],
    count: &mut usize,
) -> u32
    ensures { IsCombineReply Of.Difference set.now other.now buffer.old buffer.new count.old count.new result }
{
    write_combined_image(alloc, Operation::Difference, (set, other), buffer, count)
}

/// Writes the image of the addresses that are in exactly one of two sets, as `ipnet_set_union` does with the union.
///
/// ```text
/// 10.0.0.0/31 and 10.0.0.1/32    0, and the image of 10.0.0.0/32
/// ```
#[unsafe(no_mangle)]
pub extern "C" fn ipnet_set_symmetric_difference(
    alloc: Global,
    set: &[u8],
    other: &[u8],
    buffer: &mut [u8],
    count: &mut usize,
) -> u32
    ensures { IsCombineReply Of.SymmetricDifference set.now other.now buffer.old buffer.new count.old count.new
        result }
{
    write_combined_image(
        alloc,
        Operation::SymmetricDifference,
        (set, other),
        buffer,
        count,
    )
}

/// Returns the image of the complement of the set of an image.
fn complement_image(alloc: Global, set: IpSetRef<'_>) -> Result<Vec<u8>, AllocError>
    ensures { IfOk result (λ image. IsImageWith (IsComplementOfImage set.entry.image.bytes.now) image.items) }
{
    let first = set.to_set(alloc)?;
    first.complement(alloc)?.to_bytes(alloc)
}

/// Writes the image of all addresses of both families that are not in the set, given by its image, into the buffer, and
/// its length into `count`.
///
/// Returns 0; 4 if the buffer is too short, with the length needed in `count`; 11 if the bytes are not the image of a
/// set; 3 if memory runs out. The buffer changes only at 0, `count` only at 0 and 4.
///
/// ```text
/// no address    0, and the image of 0.0.0.0/0 and ::/0
/// ```
#[unsafe(no_mangle)]
pub extern "C" fn ipnet_set_complement(
    alloc: Global,
    set: &[u8],
    buffer: &mut [u8],
    count: &mut usize,
) -> u32
    ensures { IsImageReply (IsImageWith (IsComplementOfImage set.now)) set.now buffer.old buffer.new count.old count.new
        result }
{
    let Ok(set) = IpSetRef::from_bytes(set) else {
        return NOT_A_SET;
    };
    let Ok(image) = complement_image(alloc, set) else {
        return OUT_OF_MEMORY;
    };
    write_to_buffer(image.as_slice(), buffer, count)
}

/// Returns the text of the fewest networks of the set of an image.
fn image_text(alloc: Global, set: IpSetRef<'_>) -> Result<String, AllocError>
    ensures { IfOk result (λ text. IsTextOfImage set.entry.image.bytes.now (string_bytes text)) }
{
    let first = set.to_set(alloc)?;
    network_lines(alloc, &first)
}

/// Writes the fewest networks of the set, given by its image, as text into the buffer, and its length into `count`.
///
/// The text has the maximal aligned blocks of the addresses, IPv4 first, ascending, one per line.
///
/// Returns 0; 4 if the buffer is too short, with the length needed in `count`; 11 if the bytes are not the image of a
/// set; 3 if memory runs out. The buffer changes only at 0, `count` only at 0 and 4.
///
/// ```text
/// the image of 10.0.0.0-10.0.0.5    0, and the text "10.0.0.0/30\n10.0.0.4/31\n"
/// ```
#[unsafe(no_mangle)]
pub extern "C" fn ipnet_set_to_text(
    alloc: Global,
    set: &[u8],
    buffer: &mut [u8],
    count: &mut usize,
) -> u32
    ensures { IsImageReply (IsTextOfImage set.now) set.now buffer.old buffer.new count.old count.new result }
{
    let Ok(set) = IpSetRef::from_bytes(set) else {
        return NOT_A_SET;
    };
    let Ok(text) = image_text(alloc, set) else {
        return OUT_OF_MEMORY;
    };
    write_to_buffer(text.as_bytes(), buffer, count)
}

/// Returns the text of the fewest ranges of the set of an image.
fn image_ranges(alloc: Global, set: IpSetRef<'_>) -> Result<String, AllocError>
    ensures { IfOk result (λ text. IsRangesOfImage set.entry.image.bytes.now (string_bytes text)) }
{
    let first = set.to_set(alloc)?;
    range_lines(alloc, &first)
}

/// Writes the fewest ranges of the set, given by its image, as text into the buffer, and its length into `count`.
///
/// Each line has the first and the last address of a range, joined by "-". The ranges ascend, IPv4 first, and no two of
/// them overlap or touch. A range of one address has it twice.
///
/// Returns 0; 4 if the buffer is too short, with the length needed in `count`; 11 if the bytes are not the image of a
/// set; 3 if memory runs out. The buffer changes only at 0, `count` only at 0 and 4.
///
/// ```text
/// the image of 10.0.0.0/30, 10.0.0.4/31 and fd00::1/128    0, and "10.0.0.0-10.0.0.5\nfd00::1-fd00::1\n"
/// ```
#[unsafe(no_mangle)]
pub extern "C" fn ipnet_set_to_ranges(
    alloc: Global,
    set: &[u8],
    buffer: &mut [u8],
    count: &mut usize,
) -> u32
    ensures { IsImageReply (IsRangesOfImage set.now) set.now buffer.old buffer.new count.old count.new result }
{
    let Ok(set) = IpSetRef::from_bytes(set) else {
        return NOT_A_SET;
    };
    let Ok(ranges) = image_ranges(alloc, set) else {
        return OUT_OF_MEMORY;
    };
    write_to_buffer(ranges.as_bytes(), buffer, count)
}
