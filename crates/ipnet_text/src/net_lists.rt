//! Lists of networks by family, whose networks are joined as they are added.
ghost use Rattle.std.specs.Prelude.{◌≡◌, List, [], ◌∷◌, ◌++◌, map, OnOk, IfSome};
ghost use Rattle.ipnet.specs.Blocks.{HaveSameCover, IsAggregateOf};
ghost use Rattle.ipnet.specs.Network.{Network};
ghost use Rattle.ipnet.specs.NetworkOf.{ip_network};
ghost use Rattle.ipnet_text.specs.NetLists.{networks_of};

use ipnet::{IpNet, Ipv4Net, Ipv6Net, Net};
use std::alloc::{AllocError, Global};

/// A collection that takes the networks of a list, one after another.
pub trait NetworkSink {
    /// Whether it is made of these networks, in this order.
    ghost is_made: { Self → List Network → Type 0 };

    /// Takes the next network. Fails if memory runs out.
    ///
    /// ```text
    /// a vector of 10.0.0.0/25 takes 10.0.0.128/25: then it has 10.0.0.0/25 and 10.0.0.128/25
    /// ```
    fn push(&mut self, network: IpNet) -> Result<(), AllocError>
        ensures { OnOk result ((networks : List Network)
            → is_made self.old networks → is_made self.new (networks ++ ip_network network ∷ [])) };
}

/// Every network of the list is kept.
impl NetworkSink for Vec<IpNet> {
    ghost is_made = { λ list networks. map ip_network list.items ≡ networks };

    #[inline(always)]
    fn push(&mut self, network: IpNet) -> Result<(), AllocError> {
        self.push(network)?;
        Ok(())
    }
}

/// Networks of both families in two lists, so that each is sorted without the room and the tests that the other needs.
/// The lists keep what addresses the networks cover, and not each network.
///
/// ```text
/// after 10.0.0.0/25, 10.0.0.128/25 and fd00::/32 are added, the lists have 10.0.0.0/24 and fd00::/32
/// ```
#[derive(Drop)]
pub struct NetLists {
    /// The IPv4 networks.
    pub ipv4: Vec<Ipv4Net>,
    /// The IPv6 networks.
    pub ipv6: Vec<Ipv6Net>,
}

impl NetLists {
    /// No networks. Allocates nothing.
    pub fn new(alloc: Global) -> NetLists
        ensures { networks_of result ≡ [] }
    {
        NetLists {
            ipv4: Vec::new(alloc),
            ipv6: Vec::new(alloc),
        }
    }

    /// Replaces the networks of each family by their aggregate; together they are the aggregate of all. Takes no
    /// memory.
    ///
    /// ```text
    /// the lists have 10.0.0.128/25, 10.0.0.0/25 and fd00::/32: then they have 10.0.0.0/24 and fd00::/32
    /// ```
    pub fn aggregate(&mut self)
        ensures empty { networks_of self.old ≡ [] → networks_of self.new ≡ [] }
        ensures aggregate { IsAggregateOf (networks_of self.new) (networks_of self.old) }
    {
        Ipv4Net::aggregate_in_place(&mut self.ipv4);
        Ipv6Net::aggregate_in_place(&mut self.ipv6);
    }
}

/// A network is added to the list of its family, and joined with the last ones there as far as possible: the lists have
/// the addresses of the networks, and not each network.
impl NetworkSink for NetLists {
    ghost is_made = { λ lists networks. HaveSameCover networks (networks_of lists) };

    #[inline(always)]
    fn push(&mut self, network: IpNet) -> Result<(), AllocError> {
        match network {
            IpNet::V4(network) => push_joined(&mut self.ipv4, network),
            IpNet::V6(network) => push_joined(&mut self.ipv6, network),
        }
    }
}

/// One network with exactly the addresses of both, if the first contains the second or the two are the halves of their
/// supernet.
fn merged<N: Net>(first: &N, second: &N) -> Option<N>
    ensures { IfSome result (λ whole.
        HaveSameCover (N.network whole ∷ []) (N.network first.now ∷ N.network second.now ∷ [])) }
{
    if first.covers(second) {
        return Some(*first);
    }
    if first.is_other_half(second) {
        return Some(first.joined());
    }
    None
}

/// Appends a network, and merges it with its predecessors as far as possible. Most lists that people keep are sorted,
/// so this keeps memory near the size of the result.
#[inline(always)]
fn push_joined<N: Net>(list: &mut Vec<N>, network: N) -> Result<(), AllocError>
    ensures { OnOk result (HaveSameCover (map N.network list.new.items)
        (map N.network list.old.items ++ N.network network ∷ [])) }
{
    let mut next = network;
    while let Some(last) = list.last() {
        let Some(whole) = merged(last, &next) else {
            break;
        };
        next = whole;
        list.pop();
    }
    list.push(next)?;
    Ok(())
}
