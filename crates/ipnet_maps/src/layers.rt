//! The layers of a map: the cells of each class, how many rectangles they make, and these rectangles.
ghost use Rattle.std.specs.Prelude.{◌≡◌, ◌↔◌, ◌+◌, ◌<◌, ◌≤◌, List, length, All, IfOk, MatchOption, IsTrue};
ghost use Rattle.std.specs.List.{AllZip};
ghost use Rattle.ipnet_base.specs.Address.{Address, width};
ghost use Rattle.ipnet_base.specs.Network.{Network, InBlock};
ghost use Rattle.ipnet_base.specs.Blocks.{AreMaximalBlocks};
ghost use Rattle.ipnet.specs.NetworkOf.{ip_network};
ghost use Rattle.ipnet.specs.NetworkParts.{network_at};
ghost use Rattle.ipnet_sets.specs.Members.{IsMember};
ghost use Rattle.ipnet_maps.specs.Drawings.{total_of};
ghost use Rattle.ipnet_maps.specs.Layers.{AreCellsIn, IsLayerOfCells};

use crate::class::Class;
use crate::layout::Rectangle;
use crate::places::rectangles_of;
use ipnet::IpNet;
use ipnet_sets::IpSet;
use std::alloc::{AllocError, Global};

/// A map has at most this many rectangles.
pub(crate) const MOST_RECTANGLES: u32 = 65_536;

/// The cells of one class, as the fewest rectangles of networks.
#[derive(Drop)]
pub struct Layer {
    /// The class of the cells.
    pub class: Class,
    /// The rectangles, in the order of their networks.
    pub rectangles: Vec<Rectangle>,
}

/// The cells of one class.
#[derive(Drop)]
pub(crate) struct ClassCells {
    /// The class.
    pub(crate) class: Class,
    /// The addresses of the cells.
    pub(crate) cells: IpSet,
}

/// Returns how many more networks have room after the networks of the set, if `room` networks have; or `None` if the
/// set has more than `room`.
fn room_after(room: u32, set: &IpSet) -> Option<u32>
    ensures { (networks : List Network) → AreMaximalBlocks (IsMember set.now) 0 networks
        → MatchOption result (room < length networks) (λ rest. rest + length networks ≡ room) }
{
    let mut rest = room;
    for _network in set.iter_networks() {
        if rest == 0 {
            return None;
        }
        rest -= 1;
    }
    Some(rest)
}

/// Returns whether the cells of all classes are at most 65,536 rectangles.
pub(crate) fn are_few(cells: &[ClassCells]) -> bool
    ensures { (networks : List (List Network))
        → AllZip (λ c list. AreMaximalBlocks (IsMember c.cells) 0 list) cells.now networks
        → IsTrue result ↔ (total_of networks ≤ 65536) }
{
    let mut room = MOST_RECTANGLES;
    for class in cells {
        match room_after(room, &class.cells) {
            Some(rest) => room = rest,
            None => return false,
        }
    }
    true
}

/// Returns the layers of the cells of each class, in order. Fails only if memory runs out.
pub(crate) fn layers_of(
    alloc: Global,
    frame: &IpNet,
    depth: u8,
    cells: &[ClassCells],
) -> Result<Vec<Layer>, AllocError>
    requires few { depth ≤ 20 }
    requires fits { (ip_network frame.now).prefix_len + depth ≤ width (ip_network frame.now).family }
    requires cells { All (AreCellsIn (ip_network frame.now) depth) cells.now }
    ensures { IfOk result (λ list. AllZip (IsLayerOfCells (ip_network frame.now) depth) cells.now list.items) }
{
    let mut layers = Vec::new(alloc);
    for class in cells {
        let rectangles = rectangles_of(alloc, frame, depth, &class.cells)?;
        layers.push(Layer {
            class: class.class,
            rectangles,
        })?;
    }
    Ok(layers)
}
