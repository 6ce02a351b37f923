//! The network that a picture shows, and the options of pictures.
ghost use Rattle.std.specs.Prelude.{◌≡◌, None, IfOk, IfErr, IfSome};
ghost use Rattle.ipnet_c.specs.Pictures.{AreBytesOfFrame, map_options, AreMapOptions, bar_options, AreBarOptions};
ghost use Rattle.ipnet_c.specs.PictureReplies.{IsFrameFault};

use crate::statuses::status_of;
use ipnet::IpNet;
use ipnet_bars::{BarForm, Frame, Marks, RowWidth};
use svg_maps::Theme;

/// The options of a map.
#[derive(Clone, Copy)]
pub(crate) struct MapOptions {
    /// The colours.
    pub(crate) theme: Theme,
    /// Whether free blocks are outlined.
    pub(crate) shows_free: bool,
}

/// Returns the network that a picture shows: one around addresses of the set if there are no bytes, or only the byte of
/// IPv6; else the network of the bytes. The error is the status of bytes that are not a network.
pub(crate) fn read_frame(network: &[u8]) -> Result<Frame, u32>
    ensures frame { IfOk result (λ frame. AreBytesOfFrame frame network.now) }
    ensures fault { IfErr result (IsFrameFault network.now) }
{
    match network {
        [] => Ok(Frame::FirstFamily),
        [1] => Ok(Frame::Ipv6),
        _ => match IpNet::from_bytes(network) {
            Ok(network) => Ok(Frame::Named(network)),
            Err(error) => Err(status_of(error)),
        },
    }
}

/// Returns the options of a map with this number, or `None` if there are none.
pub(crate) fn read_map_options(options: u32) -> Option<MapOptions>
    ensures some { IfSome result (λ o. options ≡ map_options o.theme o.shows_free) }
    ensures none { result ≡ None → ¬ (AreMapOptions options) }
{
    let (theme, shows_free) = match options {
        0 => (Theme::Auto, false),
        1 => (Theme::Light, false),
        2 => (Theme::Dark, false),
        4 => (Theme::Auto, true),
        5 => (Theme::Light, true),
        6 => (Theme::Dark, true),
        _ => return None,
    };
    Some(MapOptions { theme, shows_free })
}

/// Returns the form of a bar whose options have this number, or `None` if there is none.
pub(crate) fn read_bar_options(options: u32) -> Option<BarForm>
    ensures some { IfSome result (λ form. options ≡ bar_options form) }
    ensures none { result ≡ None → ¬ (AreBarOptions options) }
{
    let (row_width, marks) = match options {
        4 => (RowWidth::Four, Marks::Ascii),
        5 => (RowWidth::Four, Marks::Utf8),
        8 => (RowWidth::Eight, Marks::Ascii),
        9 => (RowWidth::Eight, Marks::Utf8),
        16 => (RowWidth::Sixteen, Marks::Ascii),
        17 => (RowWidth::Sixteen, Marks::Utf8),
        32 => (RowWidth::ThirtyTwo, Marks::Ascii),
        33 => (RowWidth::ThirtyTwo, Marks::Utf8),
        64 => (RowWidth::SixtyFour, Marks::Ascii),
        65 => (RowWidth::SixtyFour, Marks::Utf8),
        _ => return None,
    };
    Some(BarForm { row_width, marks })
}
