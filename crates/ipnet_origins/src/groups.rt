//! Payloads in the order of their networks, and the payloads of one network among them.
ghost use Rattle.std.specs.Prelude.{◌≡◌, ◌↔◌, IsTrue, Any, IfOk, OnOk, IsPermutation, get_or};
ghost use Rattle.std.specs.List.Sorted.{IsNonDecreasingBy};
ghost use Rattle.ipnet_base.specs.Network.{Network};
ghost use Rattle.ipnet.specs.NetworkOf.{ip_network};
ghost use Rattle.ipnet_origins.specs.Groups.{network_of, AreInOrder, IsLastOf, IsStartOf, IsGroup, ArePlaces};
ghost use Rattle.ipnet_origins.specs.Groups.{rank_of, AreRanked, AreOfOne};
ghost use Rattle.ipnet_origins.specs.Origins.{IsMatched};

use crate::payload::Payload;
use ipnet::IpNet;
use ipnet::net::laws::ip_nets_compare_by_network;
use std::alloc::{AllocError, Global};

/// Puts the payloads in the order of their networks, and payloads of one network in the order of their ranks.
pub(crate) fn sort(payloads: &mut Vec<Payload>) -> Result<(), AllocError>
    ensures order { OnOk result (AreInOrder payloads.new.items) }
    ensures ranked { OnOk result (AreRanked payloads.new.items) }
    ensures permutation { IsPermutation payloads.old.items payloads.new.items }
{
    ip_nets_compare_by_network();
    payloads.sort_by_key(|payload| (payload.network, payload.rank()))?;
    Ok(())
}

/// Returns the network of each payload, with the index of the payload.
pub(crate) fn places(alloc: Global, payloads: &[Payload]) -> Result<Vec<(IpNet, usize)>, AllocError>
    ensures { IfOk result (λ routes. ArePlaces payloads.now routes.items) }
{
    let mut routes = Vec::with_capacity(alloc, payloads.len())?;
    for index in 0..payloads.len() {
        routes.push((payloads[index].network, index))?;
    }
    Ok(routes)
}

/// Whether the payload is of the network.
pub(crate) fn is_of(payload: &Payload, network: &IpNet) -> bool
    ensures { IsTrue result ↔ (network_of payload.now ≡ ip_network network.now) }
{
    ip_nets_compare_by_network();
    payload.network == *network
}

/// Returns the index of the first payload of the network; `last` is the index of the last one. Most networks have one
/// payload, for which no search is made.
fn start_of(payloads: &[Payload], last: usize, network: &IpNet) -> usize
    requires order { AreInOrder payloads.now }
    requires last { IsLastOf payloads.now (ip_network network.now) last }
    ensures { IsStartOf payloads.now (ip_network network.now) result last }
{
    if last == 0 {
        return 0;
    }
    if !is_of(&payloads[last - 1], network) {
        return last;
    }
    ip_nets_compare_by_network();
    payloads.partition_point(|payload| payload.network.cmp(network).is_lt())
}

/// Returns the payloads of the network, in the order of their ranks; `last` is the index of the last one.
pub(crate) fn group<'a>(payloads: &'a [Payload], last: usize, network: &IpNet) -> &'a [Payload]
    requires order { AreInOrder payloads.now }
    requires ranked { AreRanked payloads.now }
    requires last { IsLastOf payloads.now (ip_network network.now) last }
    ensures group { IsGroup payloads.now (ip_network network.now) result.now }
    ensures one { AreOfOne result.now }
    ensures ranked { IsNonDecreasingBy rank_of result.now }
{
    let start = start_of(payloads, last, network);
    &payloads[start..last + 1]
}

/// Returns whether one of the payloads of a network matches the route with this network and this origin. It looks only
/// at the payload of the origin that has the greatest length.
pub(crate) fn any_matches(payloads: &[Payload], network: &IpNet, origin: Option<u32>) -> bool
    requires one { AreOfOne payloads.now }
    requires ranked { IsNonDecreasingBy rank_of payloads.now }
    ensures { IsTrue result ↔ Any (IsMatched (ip_network network.now) origin) payloads.now }
{
    let Some(asn) = origin else {
        return false;
    };
    let most = u64::from(asn) * 256 + 255;
    let end = payloads.partition_point(|payload| payload.rank() <= most);
    if end == 0 {
        return false;
    }
    payloads[end - 1].matches(network, origin)
}
