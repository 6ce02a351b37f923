//! The area of a network on a map, if the map shows it.
ghost use Rattle.std.specs.Prelude.{◌+◌, ◌≤◌, ◌↔◌, IsSome, IfSome};
ghost use Rattle.ipnet_base.specs.Address.{width};
ghost use Rattle.ipnet.specs.NetworkOf.{ip_network};
ghost use Rattle.ipnet_maps.specs.Places.{IsRectangleIn};
ghost use Rattle.svg_maps.specs.EntryOutlines.{IsShownIn};

use ipnet::IpNet;
use ipnet_maps::{Rectangle, rectangle_in};

/// Returns the area of the network in the map of the frame, in cells. It is `None` if the network is not in the frame,
/// or smaller than a cell.
///
/// ```text
/// of 10.20.160.0/20 in 10.20.0.0/16 with 8 bits: column 0, row 10, 16 wide and 1 high; of 10.20.0.0/25: None
/// ```
pub(crate) fn extent_of(frame: &IpNet, depth: u8, network: &IpNet) -> Option<Rectangle>
    requires few { depth ≤ 20 }
    requires fits { (ip_network frame.now).prefix_len + depth ≤ width (ip_network frame.now).family }
    ensures some { IfSome result (IsRectangleIn (ip_network frame.now) depth (ip_network network.now)) }
    ensures shown { IsSome result ↔ IsShownIn (ip_network frame.now) depth (ip_network network.now) }
{
    if !frame.contains(network) {
        return None;
    }
    if network.prefix_len() > frame.prefix_len() + depth {
        return None;
    }
    Some(rectangle_in(frame, depth, network))
}
