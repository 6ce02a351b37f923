//! Bars of sets that are given by their images: a network as at most 16 rows of marks.
ghost use Rattle.std.specs.Prelude.{◌≡◌, None, IfOk, IfSome, string_bytes};
ghost use Rattle.ipnet_bars.specs.Frames.{HasNoFrame};
ghost use Rattle.ipnet_sets.specs.Images.{IsImageOf};
ghost use Rattle.ipnet_sets.specs.Members.{IsMember, IsUnion};
ghost use Rattle.ipnet_sets.specs.declared.set.IpSet.{IpSet as SetValue};
ghost use Rattle.ipnet_c.specs.Pictures.{bar_options, AreBarOptions, IsBarOf, IsComparisonBarOf};
ghost use Rattle.ipnet_c.specs.PictureReplies.{IsPictureReply, IsSetPictureReply};

use crate::drawn::write_picture;
use crate::picture_options::{read_bar_options, read_frame};
use crate::statuses::{NOT_A_SET, OTHER_NOT_A_SET, UNKNOWN_OPTION};
use ipnet_bars::{BarForm, Frame, bar_text, comparison_bar_text, frame_of};
use ipnet_sets::IpSetRef;
use std::alloc::{AllocError, Global};

/// Returns the bar of the set of an image, or `None` if there is no address to draw.
fn draw_bar(
    alloc: Global,
    set: IpSetRef<'_>,
    frame: Frame,
    form: BarForm,
) -> Result<Option<String>, AllocError>
    ensures bar { IfOk result (λ found. IfSome found (λ text. (first : SetValue)
        × IsImageOf set.entry.image.bytes.now first
        × IsBarOf (bar_options form) first frame (string_bytes text))) }
    ensures none { IfOk result (λ found. found ≡ None → (first : SetValue)
        × IsImageOf set.entry.image.bytes.now first × HasNoFrame frame (IsMember first)) }
{
    let first = set.to_set(alloc)?;
    let Some(network) = frame_of(alloc, &first, frame)? else {
        return Ok(None);
    };
    let text = bar_text(alloc, &first, &network, form)?;
    Ok(Some(text))
}

/// Writes the bar of the set, given by its image, as text into the buffer, and its length into `count`.
///
/// `network` says what is shown, as for `ipnet_set_map`. `options` is the most marks in a row: 4, 8, 16, 32 or 64. The
/// marks are `.:ox#`; 1 more draws `·░▒▓█`, in UTF-8.
///
/// Returns 0; 4 if the buffer is too short, with the length needed in `count`; 17 for another number of `options`; 6, 7
/// or 8 if the bytes of `network` have this fault; 11 if the bytes are not the image of a set; 18 if there is no
/// address to draw; 3 if memory runs out. The buffer changes only at 0, `count` only at 0 and 4.
///
/// ```text
/// the image of 10.0.0.0/31, 0, 10, 0, 0, 0, 30, and 32
///     0, and "10.0.0.0/30, a mark is one /32\n10.0.0.0/30 |##..| 50.0 %\n.."
/// ```
#[unsafe(no_mangle)]
pub extern "C" fn ipnet_set_bar(
    alloc: Global,
    set: &[u8],
    network: &[u8],
    options: u32,
    buffer: &mut [u8],
    count: &mut usize,
) -> u32
    ensures { IsSetPictureReply (AreBarOptions options) (IsBarOf options) set.now network.now buffer.old buffer.new
        count.old count.new result }
{
    let Some(form) = read_bar_options(options) else {
        return UNKNOWN_OPTION;
    };
    let frame = match read_frame(network) {
        Ok(frame) => frame,
        Err(status) => return status,
    };
    let Ok(set) = IpSetRef::from_bytes(set) else {
        return NOT_A_SET;
    };
    write_picture(draw_bar(alloc, set, frame, form), buffer, count)
}

/// Returns the bar that compares the sets of two images, or `None` if there is no address to draw.
fn draw_comparison_bar(
    alloc: Global,
    set: IpSetRef<'_>,
    other: IpSetRef<'_>,
    frame: Frame,
    form: BarForm,
) -> Result<Option<String>, AllocError>
    ensures bar { IfOk result (λ found. IfSome found (λ text. (before after : SetValue)
        × IsImageOf set.entry.image.bytes.now before × IsImageOf other.entry.image.bytes.now after
        × IsComparisonBarOf (bar_options form) before after frame (string_bytes text))) }
    ensures none { IfOk result (λ found. found ≡ None → (before after all : SetValue)
        × IsImageOf set.entry.image.bytes.now before × IsImageOf other.entry.image.bytes.now after
        × IsUnion all before after × HasNoFrame frame (IsMember all)) }
{
    let before = set.to_set(alloc)?;
    let after = other.to_set(alloc)?;
    let all = before.union(alloc, &after)?;
    let Some(network) = frame_of(alloc, &all, frame)? else {
        return Ok(None);
    };
    let text = comparison_bar_text(alloc, &before, &after, &network, form)?;
    Ok(Some(text))
}

/// Writes the bar that compares two sets, given by their images, as `ipnet_set_bar` does with the bar of a set.
///
/// The network that is shown is named, or the smallest around the addresses of both sets. A mark is `-` if only the
/// first set has some of its addresses that the other lacks, `+` if only the second has, `!` if both have, and `=` if
/// both sets have the same of its addresses.
///
/// Returns what `ipnet_set_bar` returns; 12 if only the second bytes are not the image of a set.
///
/// ```text
/// the images of 10.0.0.0/31 and 10.0.0.1/32, 0, 10, 0, 0, 0, 30, and 32
///     0, and "10.0.0.0/30, a mark is one /32\n10.0.0.0/30 |-=..| -1 +0\n.."
/// ```
#[unsafe(no_mangle)]
pub extern "C" fn ipnet_set_comparison_bar(
    alloc: Global,
    set: &[u8],
    other: &[u8],
    network: &[u8],
    options: u32,
    buffer: &mut [u8],
    count: &mut usize,
) -> u32
    ensures { IsPictureReply (AreBarOptions options) (IsComparisonBarOf options) set.now other.now network.now
        buffer.old buffer.new count.old count.new result }
{
    let Some(form) = read_bar_options(options) else {
        return UNKNOWN_OPTION;
    };
    let frame = match read_frame(network) {
        Ok(frame) => frame,
        Err(status) => return status,
    };
    let Ok(set) = IpSetRef::from_bytes(set) else {
        return NOT_A_SET;
    };
    let Ok(other) = IpSetRef::from_bytes(other) else {
        return OTHER_NOT_A_SET;
    };
    let drawn = draw_comparison_bar(alloc, set, other, frame, form);
    write_picture(drawn, buffer, count)
}
