//! Sets of networks whose blocks are split into halves, and joined with their other halves.
ghost use Rattle.std.specs.Prelude.{◌≡◌, ◌↔◌, Contains, OnOk, OnErr, IfSome, IfNone, IsTrue};
ghost use Rattle.ipnet_base.specs.Network.{Network, IsSubnetOf, IsTruncated, IsSupernetOf, AreHalves};
ghost use Rattle.ipnet.specs.NetworkOf.{ip_network};
ghost use Rattle.ipnet_pools.specs.BlocksOf.{blocks_of};
ghost use Rattle.ipnet_pools.specs.Pieces.{HaveSameNetworks, IsPartOf, HasNoPieces, IsSplit, AreBeside, IsJoined};

use crate::block_set::BlockSet;
use ipnet::IpNet;
use std::alloc::AllocError;

/// Returns the other half of the network's supernet.
fn other_half(network: &IpNet, supernet: &IpNet) -> IpNet
    requires { IsSupernetOf (ip_network supernet.now) (ip_network network.now) }
    ensures truncated { IsTruncated (ip_network result) }
    ensures halves { AreHalves (ip_network network.now) (ip_network result) }
{
    let first = IpNet::new_assert(supernet.addr(), network.prefix_len());
    if first.contains(network) {
        let last = IpNet::new_assert(supernet.broadcast(), network.prefix_len());
        return last.trunc();
    }
    first
}

/// Adds the largest networks of the block that share no address with the part. Fails only if memory runs out, and then
/// the set has the same networks as before.
pub(crate) fn split(blocks: &mut BlockSet, part: &IpNet, block: &IpNet) -> Result<(), AllocError>
    requires part { IsPartOf (ip_network part.now) (ip_network block.now) }
    requires none { HasNoPieces (blocks_of blocks.old) (ip_network part.now) (ip_network block.now) }
    ensures split { OnOk result (IsSplit (blocks_of blocks.old) (blocks_of blocks.new) (ip_network part.now)
        (ip_network block.now)) }
    ensures same { OnErr result (HaveSameNetworks (blocks_of blocks.old) (blocks_of blocks.new)) }
{
    if part.prefix_len() <= block.prefix_len() {
        return Ok(());
    }
    let Some(supernet) = part.supernet() else {
        return Ok(());
    };
    let half = other_half(part, &supernet);
    blocks.insert(&half)?;
    match split(blocks, &supernet, block) {
        Ok(()) => Ok(()),
        Err(error) => {
            blocks.remove(&half);
            Err(error)
        }
    }
}

/// Adds the part, joined with its other half as long as the set has that. Fails only if memory runs out, and then the
/// set has the same networks as before.
pub(crate) fn join(blocks: &mut BlockSet, part: &IpNet) -> Result<(), AllocError>
    requires part { IsTruncated (ip_network part.now) }
    requires beside { AreBeside (blocks_of blocks.old) (ip_network part.now) }
    ensures joined { OnOk result (IsJoined (blocks_of blocks.old) (blocks_of blocks.new) (ip_network part.now)) }
    ensures same { OnErr result (HaveSameNetworks (blocks_of blocks.old) (blocks_of blocks.new)) }
{
    let Some(supernet) = part.supernet() else {
        return blocks.insert(part);
    };
    let half = other_half(part, &supernet);
    if !blocks.contains(&half) {
        return blocks.insert(part);
    }
    join(blocks, &supernet)?;
    blocks.remove(&half);
    Ok(())
}

/// Returns the network of the set that contains the network, if there is one.
pub(crate) fn holder(blocks: &BlockSet, network: &IpNet) -> Option<IpNet>
    requires { IsTruncated (ip_network network.now) }
    ensures found { IfSome result (λ b. Contains (blocks_of blocks.now) (ip_network b)
        × IsSubnetOf (ip_network network.now) (ip_network b)) }
    ensures none { IfNone result ((m : Network) → Contains (blocks_of blocks.now) m → IsTruncated m
        → ¬ (IsSubnetOf (ip_network network.now) m)) }
{
    if blocks.contains(network) {
        return Some(*network);
    }
    let Some(supernet) = network.supernet() else {
        return None;
    };
    holder(blocks, &supernet)
}
