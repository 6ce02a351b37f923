//! The rectangle of a network in the map of a frame.
ghost use Rattle.std.specs.Prelude.{◌≡◌, ◌+◌, ◌-◌, ◌<◌, ◌≤◌, ◌^◌, ◌↔◌, map, All, Any, IfOk};
ghost use Rattle.std.specs.List.{AllZip};
ghost use Rattle.ipnet_base.specs.Address.{Address, width, ip_address};
ghost use Rattle.ipnet_base.specs.Network.{InBlock, IsSubnetOf};
ghost use Rattle.ipnet.specs.NetworkOf.{ip_network};
ghost use Rattle.ipnet.specs.NetworkParts.{network_at};
ghost use Rattle.ipnet_sets.specs.Members.{IsMember};
ghost use Rattle.ipnet_maps.specs.Places.{number_in, IsRectangleIn, AreRectanglesOf, IsDrawnIn};

use crate::layout::{Layout, Rectangle};
use ipnet::{IpAddr, IpNet};
use ipnet_sets::IpSet;
use std::alloc::{AllocError, Global};

/// The address as a number.
pub(crate) fn number_of(address: IpAddr) -> u128
    ensures { result ≡ (ip_address address).number }
{
    match address {
        IpAddr::V4(address) => u128::from(address.to_bits()),
        IpAddr::V6(address) => address.to_bits(),
    }
}

/// The number of the network among the networks of its length in the frame.
fn number_inside(frame: &IpNet, network: &IpNet) -> u32
    requires longer { (ip_network frame.now).prefix_len ≤ (ip_network network.now).prefix_len }
    requires few { (ip_network network.now).prefix_len ≤ (ip_network frame.now).prefix_len + 20 }
    ensures number { result ≡ number_in (ip_network frame.now) (ip_network network.now) }
    ensures fits { result < 2 ^ ((ip_network network.now).prefix_len - (ip_network frame.now).prefix_len) }
{
    let bits = network.prefix_len() - frame.prefix_len();
    let host_bits = network.max_prefix_len() - network.prefix_len();
    if host_bits == 128 {
        return 0;
    }
    let prefix = number_of(network.addr()) >> host_bits;
    (prefix % (1u128 << bits)) as u32
}

/// Returns the rectangle of the network in the map of `frame`, whose cells are `depth` bits longer than the frame. Its
/// cells are exactly the cells of the network.
///
/// ```text
/// of 10.20.160.0/20 in 10.20.0.0/16 with 8 bits: column 0, row 10, 16 wide and 1 high
/// ```
pub fn rectangle_in(frame: &IpNet, depth: u8, network: &IpNet) -> Rectangle
    requires few { depth ≤ 20 }
    requires fits { (ip_network frame.now).prefix_len + depth ≤ width (ip_network frame.now).family }
    requires inside { IsSubnetOf (ip_network network.now) (ip_network frame.now) }
    requires large { (ip_network network.now).prefix_len ≤ (ip_network frame.now).prefix_len + depth }
    ensures rectangle { IsRectangleIn (ip_network frame.now) depth (ip_network network.now) result }
    ensures cells { (x : Address) → InBlock (ip_network frame.now) x
        → InBlock (ip_network network.now) x ↔ IsDrawnIn (ip_network frame.now) depth x result }
{
    let layout = Layout::new(frame.prefix_len(), depth);
    let low_bits = frame.prefix_len() + depth - network.prefix_len();
    layout.rectangle(number_inside(frame, network), low_bits)
}

/// Returns the rectangles of the networks, in order.
fn rectangles_in(
    alloc: Global,
    frame: &IpNet,
    depth: u8,
    networks: &[IpNet],
) -> Result<Vec<Rectangle>, AllocError>
    requires few { depth ≤ 20 }
    requires fits { (ip_network frame.now).prefix_len + depth ≤ width (ip_network frame.now).family }
    requires inside { All (λ n. IsSubnetOf (ip_network n) (ip_network frame.now)) networks.now }
    requires large { All (λ n. (ip_network n).prefix_len ≤ (ip_network frame.now).prefix_len + depth) networks.now }
    ensures { IfOk result (λ list.
        AllZip (IsRectangleIn (ip_network frame.now) depth) (map ip_network networks.now) list.items) }
{
    let mut rectangles = Vec::new(alloc);
    for network in networks {
        rectangles.push(rectangle_in(frame, depth, network))?;
    }
    Ok(rectangles)
}

/// Returns the fewest rectangles of networks that show exactly the cells of the set, in the map of `frame` whose cells
/// are `depth` bits longer than the frame. Fails only if memory runs out.
///
/// ```text
/// of 10.20.0.0-10.20.17.255 in 10.20.0.0/16 with 8 bits: 16 wide and 1 high at row 0, 2 wide and 1 high at row 1
/// ```
pub fn rectangles_of(
    alloc: Global,
    frame: &IpNet,
    depth: u8,
    cells: &IpSet,
) -> Result<Vec<Rectangle>, AllocError>
    requires few { depth ≤ 20 }
    requires fits { (ip_network frame.now).prefix_len + depth ≤ width (ip_network frame.now).family }
    requires inside { (x : Address) → IsMember cells.now x → InBlock (ip_network frame.now) x }
    requires whole { (x y : Address) → IsMember cells.now x
        → InBlock (network_at x ((ip_network frame.now).prefix_len + depth)) y → IsMember cells.now y }
    ensures rectangles { IfOk result (λ list.
        AreRectanglesOf (IsMember cells.now) (ip_network frame.now) depth list.items) }
    ensures cells { IfOk result (λ list. (x : Address) → InBlock (ip_network frame.now) x
        → IsMember cells.now x ↔ Any (IsDrawnIn (ip_network frame.now) depth x) list.items) }
{
    let networks = cells.networks(alloc)?;
    rectangles_in(alloc, frame, depth, networks.as_slice())
}
