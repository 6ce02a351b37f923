//! The frame of a picture: the smallest network around the addresses that it shows.
ghost use Rattle.std.specs.Prelude.{◌≡◌, ◌↔◌, IfOk, IfSome, IsNone};
ghost use Rattle.ipnet_base.specs.Address.{IPv4, IPv6};
ghost use Rattle.ipnet.specs.NetworkOf.{ip_network};
ghost use Rattle.ipnet_sets.specs.Members.{IsMember, IsMemberOf, HasFamily};
ghost use Rattle.ipnet_sets.specs.Supernets.{IsSmallestAround};
ghost use Rattle.ipnet_bars.specs.Frames.{all_of, IsFrame, HasNoFrame};
ghost use Rattle.ipnet_sets.specs.Parts.{IsInPart};
ghost use Rattle.ipnet_bars.specs.Parts.{HasNone};

use ipnet::{IpNet, Ipv6Net};
use ipnet_sets::IpSet;
use std::alloc::{AllocError, Global};

/// The network that a picture of a set shows.
#[derive(Clone, Copy, Debug, PartialEq, Eq)]
pub enum Frame {
    /// This network; host bits do not matter.
    Named(IpNet),
    /// The smallest network that contains all IPv6 addresses of the set.
    Ipv6,
    /// The smallest network that contains all IPv4 addresses of the set, or all IPv6 addresses if it has no others.
    FirstFamily,
}

/// The smallest network that contains the addresses of the set that are of the network's family, or `None` if there are
/// none.
fn smallest_around(set: &IpSet, network: &IpNet) -> Option<IpNet>
    ensures some { IfSome result (λ frame.
        IsSmallestAround (IsMemberOf (ip_network network.now).family set.now) (ip_network frame)) }
    ensures none { IsNone result ↔ ¬ (HasFamily (ip_network network.now).family set.now) }
{
    match network {
        IpNet::V4(_) => set.ipv4_supernet().map(IpNet::V4),
        IpNet::V6(_) => set.ipv6_supernet().map(IpNet::V6),
    }
}

/// Returns the smallest network that contains all addresses of the set in the network's block, or `None` if there are
/// none. Fails only if memory runs out.
///
/// ```text
/// of 10.20.3.0-10.20.4.9 and fd00::1 in 0.0.0.0/0: Some(10.20.0.0/21); in ::/0: Some(fd00::1/128)
/// ```
pub fn frame_in(alloc: Global, set: &IpSet, network: &IpNet) -> Result<Option<IpNet>, AllocError>
    ensures some { IfOk result (λ found. IfSome found (λ frame.
        IsSmallestAround (IsInPart (IsMember set.now) (ip_network network.now)) (ip_network frame))) }
    ensures none { IfOk result (λ found. IsNone found ↔ HasNone (IsMember set.now) (ip_network network.now)) }
{
    if set.is_within(network) {
        return Ok(smallest_around(set, network));
    }
    let part = set.within(alloc, network)?;
    Ok(smallest_around(&part, network))
}

/// The network 0.0.0.0/0.
fn all_ipv4() -> IpNet
    ensures { ip_network result ≡ all_of IPv4 }
{
    IpNet::default()
}

/// The network ::/0.
fn all_ipv6() -> IpNet
    ensures { ip_network result ≡ all_of IPv6 }
{
    IpNet::V6(Ipv6Net::default())
}

/// Returns the network that a picture of the set shows, without host bits. It is `None` if there is no address around
/// which to draw it. Fails only if memory runs out.
///
/// ```text
/// of 10.20.3.0-10.20.4.9 and fd00::1: FirstFamily is 10.20.0.0/21, Ipv6 is fd00::1/128
/// of no address: Named(10.20.3.1/16) is 10.20.0.0/16, FirstFamily and Ipv6 are None
/// ```
pub fn frame_of(alloc: Global, set: &IpSet, frame: Frame) -> Result<Option<IpNet>, AllocError>
    ensures some { IfOk result (λ found. IfSome found (λ network.
        IsFrame frame (IsMember set.now) (ip_network network))) }
    ensures none { IfOk result (λ found. IsNone found → HasNoFrame frame (IsMember set.now)) }
{
    match frame {
        Frame::Named(network) => Ok(Some(network.trunc())),
        Frame::Ipv6 => frame_in(alloc, set, &all_ipv6()),
        Frame::FirstFamily => match frame_in(alloc, set, &all_ipv4())? {
            Some(network) => Ok(Some(network)),
            None => frame_in(alloc, set, &all_ipv6()),
        },
    }
}
