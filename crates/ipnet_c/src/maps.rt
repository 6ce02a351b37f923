//! Maps of sets that are given by their images: documents of SVG.
ghost use Rattle.std.specs.Prelude.{◌≡◌, [], None, IfOk, IfSome, string_bytes};
ghost use Rattle.ipnet.specs.NetworkOf.{ip_network};
ghost use Rattle.ipnet_bars.specs.Frames.{HasNoFrame};
ghost use Rattle.ipnet_routes.specs.RoutesOf.{routes_of};
ghost use Rattle.ipnet_sets.specs.Images.{IsImageOf};
ghost use Rattle.ipnet_sets.specs.Members.{IsMember, IsUnion};
ghost use Rattle.ipnet_sets.specs.declared.set.IpSet.{IpSet as SetValue};
ghost use Rattle.svg_maps.specs.declared.overlay.Look.{Look as LookValue};
ghost use Rattle.svg_maps.specs.Overlays.{IsOutlinedSetMap, IsOutlinedChangeMap};
ghost use Rattle.ipnet_c.specs.Pictures.{map_options, AreMapOptions, AreEntriesIn, IsLookOf};
ghost use Rattle.ipnet_c.specs.Pictures.{IsMapOf, IsComparisonMapOf};
ghost use Rattle.ipnet_c.specs.PictureReplies.{IsPictureReply, IsSetPictureReply};

use crate::drawn::write_picture;
use crate::map_entries::entries_in;
use crate::picture_options::{MapOptions, read_frame, read_map_options};
use crate::statuses::{NOT_A_SET, OTHER_NOT_A_SET, UNKNOWN_OPTION};
use ipnet::IpNet;
use ipnet_bars::{Frame, frame_of};
use ipnet_routes::RouteTable;
use ipnet_sets::{IpSet, IpSetRef};
use std::alloc::{AllocError, Global};
use svg_maps::{Look, MapEntries, MapEntry, change_map_text, set_map_text};

/// The options of a map, and the entries that it may show.
#[derive(Clone, Copy)]
struct Shown<'a> {
    options: MapOptions,
    titled: &'a [MapEntry],
    count: usize,
}

/// Returns the map of the set in the network, with the entries of the set. `names` has no network.
fn map_in<'a>(
    alloc: Global,
    set: &IpSet,
    network: &IpNet,
    names: &'a RouteTable<&'a str>,
    shown: Shown<'a>,
) -> Result<String, AllocError>
    requires names { routes_of names.now ≡ [] }
    requires entries { AreEntriesIn (IsMember set.now) (ip_network network.now) shown.titled.now }
    ensures { let n = ip_network network.now in IfOk result (λ text. (look : LookValue)
        × IsLookOf (map_options shown.entry.options.theme shown.entry.options.shows_free) (IsMember set.now) n look
        × IsOutlinedSetMap look set.now n (string_bytes text)) }
{
    let Shown {
        options,
        titled,
        count,
    } = shown;
    let look = Look {
        theme: options.theme,
        shows_free: options.shows_free,
        names,
        entries: MapEntries { titled, count },
    };
    let text = set_map_text(alloc, network, set, look)?;
    Ok(text)
}

/// Returns the map of the set in the network, and makes its entries. `names` has no network.
fn titled_map(
    alloc: Global,
    set: &IpSet,
    network: &IpNet,
    options: MapOptions,
    names: &RouteTable<&str>,
) -> Result<String, AllocError>
    requires { routes_of names.now ≡ [] }
    ensures { let n = ip_network network.now in IfOk result (λ text. (look : LookValue)
        × IsLookOf (map_options options.theme options.shows_free) (IsMember set.now) n look
        × IsOutlinedSetMap look set.now n (string_bytes text)) }
{
    let entries = entries_in(alloc, set, network)?;
    let titled = entries.as_slice();
    let count = set.networks(alloc)?.len();
    let shown = Shown {
        options,
        titled,
        count,
    };
    map_in(alloc, set, network, &*names, shown)
}

/// Returns the map of the set of an image, or `None` if there is no address to draw.
fn draw_map(
    alloc: Global,
    set: IpSetRef<'_>,
    frame: Frame,
    options: MapOptions,
) -> Result<Option<String>, AllocError>
    ensures map { IfOk result (λ found. IfSome found (λ text. (first : SetValue)
        × IsImageOf set.entry.image.bytes.now first
        × IsMapOf (map_options options.theme options.shows_free) first frame (string_bytes text))) }
    ensures none { IfOk result (λ found. found ≡ None → (first : SetValue)
        × IsImageOf set.entry.image.bytes.now first × HasNoFrame frame (IsMember first)) }
{
    let first = set.to_set(alloc)?;
    let Some(network) = frame_of(alloc, &first, frame)? else {
        return Ok(None);
    };
    let names = RouteTable::from_routes(alloc, Vec::new(alloc))?;
    let text = titled_map(alloc, &first, &network, options, &names)?;
    Ok(Some(text))
}

/// Writes the map of the set, given by its image, as a document of SVG into the buffer, and its length into `count`.
///
/// `network` says what is shown: a network in byte form, without regard to its host bits; no bytes for the smallest
/// network around all IPv4 addresses of the set, or around all IPv6 addresses if it has no others; or only the byte 1
/// for the smallest network around all IPv6 addresses.
///
/// `options` is 0 for dark colours if the reader prefers these, and else light ones; 1 for light colours, or 2 for dark
/// ones. 4 more outlines the free blocks. The networks of the set have titles, if they are large enough: the 1,500
/// largest.
///
/// Returns 0; 4 if the buffer is too short, with the length needed in `count`; 17 for another number of `options`; 6, 7
/// or 8 if the bytes of `network` have this fault; 11 if the bytes are not the image of a set; 18 if there is no
/// address to draw; 3 if memory runs out. The buffer changes only at 0, `count` only at 0 and 4.
///
/// ```text
/// the image of 10.0.0.0/30, no bytes, and 2    0, and a document "<svg ..</svg>\n", which shows 10.0.0.0/30
/// the image of no address, no bytes, and 0     18
/// ```
#[unsafe(no_mangle)]
pub extern "C" fn ipnet_set_map(
    alloc: Global,
    set: &[u8],
    network: &[u8],
    options: u32,
    buffer: &mut [u8],
    count: &mut usize,
) -> u32
    ensures { IsSetPictureReply (AreMapOptions options) (IsMapOf options) set.now network.now buffer.old buffer.new
        count.old count.new result }
{
    let Some(options) = read_map_options(options) else {
        return UNKNOWN_OPTION;
    };
    let frame = match read_frame(network) {
        Ok(frame) => frame,
        Err(status) => return status,
    };
    let Ok(set) = IpSetRef::from_bytes(set) else {
        return NOT_A_SET;
    };
    write_picture(draw_map(alloc, set, frame, options), buffer, count)
}

/// Returns the map of the change from one set to the other in the network, with the entries of `all`, their union.
/// `names` has no network.
fn comparison_map_in<'a>(
    alloc: Global,
    sets: (&IpSet, &IpSet, &IpSet),
    network: &IpNet,
    names: &'a RouteTable<&'a str>,
    shown: Shown<'a>,
) -> Result<String, AllocError>
    requires names { routes_of names.now ≡ [] }
    requires entries { AreEntriesIn (IsMember sets.2.now) (ip_network network.now) shown.titled.now }
    ensures { let n = ip_network network.now in IfOk result (λ text. (look : LookValue)
        × IsLookOf (map_options shown.entry.options.theme shown.entry.options.shows_free)
        (IsMember sets.entry.2.now) n look
        × IsOutlinedChangeMap look sets.entry.0.now sets.entry.1.now n (string_bytes text)) }
{
    let (before, after, _) = sets;
    let Shown {
        options,
        titled,
        count,
    } = shown;
    let look = Look {
        theme: options.theme,
        shows_free: options.shows_free,
        names,
        entries: MapEntries { titled, count },
    };
    let text = change_map_text(alloc, network, before, after, look)?;
    Ok(text)
}

/// Returns the map of the change from one set to the other in the network, and makes its entries. `names` has no
/// network.
fn titled_comparison_map(
    alloc: Global,
    sets: (&IpSet, &IpSet, &IpSet),
    network: &IpNet,
    options: MapOptions,
    names: &RouteTable<&str>,
) -> Result<String, AllocError>
    requires { routes_of names.now ≡ [] }
    ensures { let n = ip_network network.now in IfOk result (λ text. (look : LookValue)
        × IsLookOf (map_options options.theme options.shows_free) (IsMember sets.entry.2.now) n look
        × IsOutlinedChangeMap look sets.entry.0.now sets.entry.1.now n (string_bytes text)) }
{
    let (_, _, all) = sets;
    let entries = entries_in(alloc, all, network)?;
    let titled = entries.as_slice();
    let count = all.networks(alloc)?.len();
    let shown = Shown {
        options,
        titled,
        count,
    };
    comparison_map_in(alloc, sets, network, &*names, shown)
}

/// Returns the map of the change from the set of an image to the set of the other image, or `None` if there is no
/// address to draw.
fn draw_comparison_map(
    alloc: Global,
    set: IpSetRef<'_>,
    other: IpSetRef<'_>,
    frame: Frame,
    options: MapOptions,
) -> Result<Option<String>, AllocError>
    ensures map { IfOk result (λ found. IfSome found (λ text. (before after : SetValue)
        × IsImageOf set.entry.image.bytes.now before × IsImageOf other.entry.image.bytes.now after
        × IsComparisonMapOf (map_options options.theme options.shows_free) before after frame (string_bytes text))) }
    ensures none { IfOk result (λ found. found ≡ None → (before after all : SetValue)
        × IsImageOf set.entry.image.bytes.now before × IsImageOf other.entry.image.bytes.now after
        × IsUnion all before after × HasNoFrame frame (IsMember all)) }
{
    let before = set.to_set(alloc)?;
    let after = other.to_set(alloc)?;
    let all = before.union(alloc, &after)?;
    let Some(network) = frame_of(alloc, &all, frame)? else {
        return Ok(None);
    };
    let names = RouteTable::from_routes(alloc, Vec::new(alloc))?;
    let sets = (&before, &after, &all);
    let text = titled_comparison_map(alloc, sets, &network, options, &names)?;
    Ok(Some(text))
}

/// Writes the map of what changes, if the first set becomes the second, as `ipnet_set_map` does with the map of a set.
/// The sets are given by their images.
///
/// The network that is shown is named, or the smallest around the addresses of both sets. A change is never hidden,
/// however small it is. The networks of the addresses that the sets have together have titles.
///
/// Returns what `ipnet_set_map` returns; 12 if only the second bytes are not the image of a set.
///
/// ```text
/// the images of 10.0.0.0/31 and 10.0.0.0/32, no bytes, and 0    0, and a document, which shows 10.0.0.0/31
/// ```
#[unsafe(no_mangle)]
pub extern "C" fn ipnet_set_comparison_map(
    alloc: Global,
    set: &[u8],
    other: &[u8],
    network: &[u8],
    options: u32,
    buffer: &mut [u8],
    count: &mut usize,
) -> u32
    ensures { IsPictureReply (AreMapOptions options) (IsComparisonMapOf options) set.now other.now network.now
        buffer.old buffer.new count.old count.new result }
{
    let Some(options) = read_map_options(options) else {
        return UNKNOWN_OPTION;
    };
    let frame = match read_frame(network) {
        Ok(frame) => frame,
        Err(status) => return status,
    };
    let Ok(set) = IpSetRef::from_bytes(set) else {
        return NOT_A_SET;
    };
    let Ok(other) = IpSetRef::from_bytes(other) else {
        return OTHER_NOT_A_SET;
    };
    let drawn = draw_comparison_map(alloc, set, other, frame, options);
    write_picture(drawn, buffer, count)
}
