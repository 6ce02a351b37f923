//! Sets of networks, in the order of family, size and number.
ghost use Rattle.std.specs.Prelude.{◌≡◌, ◌↔◌, ◌⊎◌, [], Contains, map, IfOk, OnOk, OnErr, IfSome, IfNone, IsTrue};
ghost use Rattle.ipnet_base.specs.Network.{Network};
ghost use Rattle.ipnet.specs.NetworkOf.{ip_network, ipv4_network_of};
ghost use Rattle.ipnet_pools.specs.BlockKeys.{AreKeys};
ghost use Rattle.ipnet_pools.specs.FitSteps.{HasRequested, IsFirstFor};

use ipnet::net::laws::ip_nets_compare_by_network;
use ipnet::{IpAddr, IpNet, Ipv4Addr};
use std::alloc::{AllocError, Global};
use std::collections::BTreeSet;

/// Returns 0.0.0.0/0, the first network in the order of networks.
fn least_network() -> IpNet
    ensures { ip_network result ≡ ipv4_network_of 0 0 }
{
    IpNet::new_assert(IpAddr::V4(Ipv4Addr::from_bits(0)), 0)
}

/// A network, ordered by its family, then by its number of host bits, and then by its number.
#[derive(Clone, Copy, PartialEq, Eq, PartialOrd, Ord)]
pub(crate) struct BlockKey {
    family: u8,
    host_bits: u8,
    network: IpNet,
}

impl BlockKey {
    ghost use Rattle.ipnet_pools.specs.BlockKeys.{IsKey};

    /// Returns the key of the network.
    fn new(network: &IpNet) -> BlockKey
        ensures key { IsKey result }
        ensures network { result.network ≡ network.now }
    {
        ip_nets_compare_by_network();
        let family = match network {
            IpNet::V4(_) => 0,
            IpNet::V6(_) => 1,
        };
        BlockKey {
            family,
            host_bits: network.max_prefix_len() - network.prefix_len(),
            network: *network,
        }
    }
}

/// A set of networks of both families.
#[derive(Drop)]
pub(crate) struct BlockSet {
    keys: BTreeSet<BlockKey>,
    ghost exact: { AreKeys keys.keys },
}

impl BlockSet {
    ghost use Rattle.ipnet_pools.specs.BlocksOf.{blocks_of};

    /// Returns the empty set.
    pub(crate) fn new(alloc: Global) -> BlockSet
        ensures { blocks_of result ≡ [] }
    {
        BlockSet {
            keys: BTreeSet::new(alloc),
        }
    }

    /// Returns the set of the networks. Fails only if memory runs out.
    pub(crate) fn from_networks(alloc: Global, networks: &[IpNet]) -> Result<BlockSet, AllocError>
        ensures { IfOk result (λ set. (n : Network) → Contains (blocks_of set) n
            ↔ Contains (map ip_network networks.now) n) }
    {
        let mut set = BlockSet::new(alloc);
        for network in networks {
            set.insert(network)?;
        }
        Ok(set)
    }

    /// Returns the networks of the set. Fails only if memory runs out.
    pub(crate) fn networks(&self, alloc: Global) -> Result<Vec<IpNet>, AllocError>
        ensures { IfOk result (λ list. map ip_network list.items ≡ blocks_of self.now) }
    {
        let mut networks = Vec::new(alloc);
        for key in self.keys.iter() {
            networks.push(key.network)?;
        }
        Ok(networks)
    }

    /// Whether the set has the network.
    pub(crate) fn contains(&self, network: &IpNet) -> bool
        ensures { IsTrue result ↔ Contains (blocks_of self.now) (ip_network network.now) }
    {
        ip_nets_compare_by_network();
        let key = BlockKey::new(network);
        self.keys.contains(&key)
    }

    /// Adds the network. Fails only if memory runs out, and then nothing changes.
    pub(crate) fn insert(&mut self, network: &IpNet) -> Result<(), AllocError>
        ensures added { OnOk result ((n : Network) → Contains (blocks_of self.new) n
            ↔ (Contains (blocks_of self.old) n ⊎ (n ≡ ip_network network.now))) }
        ensures unchanged { OnErr result (self.new ≡ self.old) }
    {
        ip_nets_compare_by_network();
        let key = BlockKey::new(network);
        match self.keys.insert(key) {
            Ok(_) => Ok(()),
            Err(_) => Err(AllocError),
        }
    }

    /// Removes the network, if the set has it.
    pub(crate) fn remove(&mut self, network: &IpNet)
        ensures { (n : Network) → Contains (blocks_of self.new) n
            ↔ (Contains (blocks_of self.old) n × ¬ (n ≡ ip_network network.now)) }
    {
        ip_nets_compare_by_network();
        let key = BlockKey::new(network);
        self.keys.remove(&key);
    }

    /// Returns the smallest network that contains networks of the request's family and length, and the first one if
    /// several are equally small. Returns `None` if the set has no such network.
    pub(crate) fn first_for(&self, request: &IpNet) -> Option<IpNet>
        ensures some { IfSome result (λ b. IsFirstFor (blocks_of self.now) (ip_network request.now) (ip_network b)) }
        ensures none { IfNone result ((n : Network) → Contains (blocks_of self.now) n
            → ¬ (HasRequested (ip_network request.now) n)) }
    {
        ip_nets_compare_by_network();
        let key = BlockKey::new(request);
        let start = BlockKey {
            family: key.family,
            host_bits: key.host_bits,
            network: least_network(),
        };
        let first = self.keys.range(start..).next()?;
        if first.family != key.family {
            return None;
        }
        Some(first.network)
    }
}
