//! The halves of a network, and the networks of a list that are in one.
ghost use Rattle.std.specs.Prelude.{◌≡◌, ◌+◌, ◌<◌, ◌^◌, map};
ghost use Rattle.ipnet_base.specs.Network.{IsSubnetOf, host_bits};
ghost use Rattle.ipnet.specs.NetworkOf.{ip_network};
ghost use Rattle.ipnet_shortest.specs.Halves.{IsHalfWith, AreLeading};

use ipnet::IpNet;

/// Returns the half of the network that contains the block.
pub(crate) fn half_with(around: &IpNet, block: &IpNet) -> IpNet
    requires within { IsSubnetOf (ip_network block.now) (ip_network around.now) }
    requires longer { (ip_network around.now).prefix_len < (ip_network block.now).prefix_len }
    ensures { IsHalfWith (ip_network around.now) (ip_network block.now) (ip_network result) }
{
    IpNet::new_assert(block.addr(), around.prefix_len() + 1).trunc()
}

/// Returns how many of the first blocks of the list are in the network.
pub(crate) fn leading_in(blocks: &[IpNet], network: &IpNet) -> usize
    ensures { AreLeading (map ip_network blocks.now) (ip_network network.now) result }
{
    for index in 0..blocks.len() {
        if !network.contains(&blocks[index]) {
            return index;
        }
    }
    blocks.len()
}

/// Returns the number of addresses of the network's block, less one.
pub(crate) fn last_place(network: &IpNet) -> u128
    ensures { result + 1 ≡ 2 ^ host_bits (ip_network network.now) }
{
    let bits = network.max_prefix_len() - network.prefix_len();
    if bits == 128 {
        return u128::MAX;
    }
    (1u128 << bits) - 1
}
