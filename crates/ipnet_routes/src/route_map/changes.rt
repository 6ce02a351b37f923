//! The changes of a map of routes, each at the place of its network: what is put in, exchanged and taken out.
ghost use Rattle.std.specs.Prelude.{◌≡◌, ℕ, ◌<◌, ◌≤◌, ◌+◌, List, length, OnOk, OnErr, Contains};
ghost use Rattle.ipnet_base.specs.Network.{IsTruncated};
ghost use Rattle.ipnet.specs.NetworkOf.{ip_network};
ghost use Rattle.ipnet_routes.specs.Routes.{ip_routes, ip_networks};
ghost use Rattle.ipnet_routes.specs.RouteSteps.{IsTable, IsPlaceAfter};
ghost use Rattle.ipnet_routes.specs.RouteMaps.{IsWithRoute, IsWithoutRoute};
ghost use Rattle.ipnet_routes.specs.RouteMapSteps.{all_of, AreFilled, chunk_at, position_of};
ghost use Rattle.ipnet_routes.specs.RouteLengths.{IsKnown, AreKnown};

use super::chunks::{Chunk, Place, put_in_order, replace_at, take_at};
use ipnet::IpNet;
use std::alloc::{AllocError, Global};

/// Puts a route in, whose network the chunks do not have, at the place after the networks that come before it.
pub(crate) fn put_route<V: Drop>(
    alloc: Global,
    chunks: &mut Vec<Chunk<V>>,
    place: Place,
    route: (IpNet, V),
) -> Result<(), AllocError>
    requires table { IsTable (ip_networks (all_of chunks.old.items)) }
    requires filled { AreFilled chunks.old.items }
    requires truncated { IsTruncated (ip_network route.0) }
    requires new { ¬ (Contains (ip_networks (all_of chunks.old.items)) (ip_network route.0)) }
    requires chunk { 0 < length chunks.old.items → place.chunk < length chunks.old.items }
    requires index { place.index ≤ length (chunk_at chunks.old.items place.chunk) }
    requires place { IsPlaceAfter (ip_networks (all_of chunks.old.items)) (ip_network route.0)
        (position_of chunks.old.items place.chunk place.index) }
    ensures table { IsTable (ip_networks (all_of chunks.new.items)) }
    ensures filled { AreFilled chunks.new.items }
    ensures put { OnOk result (IsWithRoute (ip_routes (all_of chunks.old.items)) (ip_network route.0, route.1)
        (ip_routes (all_of chunks.new.items))) }
    ensures size { OnOk result (length (all_of chunks.new.items) ≡ length (all_of chunks.old.items) + 1) }
    ensures known { (masks : List ℕ) (width : ℕ) → AreKnown masks width (ip_networks (all_of chunks.old.items))
        → IsKnown masks width (ip_network route.0) → AreKnown masks width (ip_networks (all_of chunks.new.items)) }
    ensures unchanged { OnErr result (all_of chunks.new.items ≡ all_of chunks.old.items) }
{
    put_in_order(alloc, chunks, place, route)?;
    Ok(())
}

/// Exchanges the value of a network that the chunks have, by the place after it, and returns its old value.
pub(crate) fn exchange<V>(chunks: &mut Vec<Chunk<V>>, place: Place, network: &IpNet, value: V) -> V
    requires table { IsTable (ip_networks (all_of chunks.old.items)) }
    requires filled { AreFilled chunks.old.items }
    requires has { Contains (ip_networks (all_of chunks.old.items)) (ip_network network.now) }
    requires chunk { place.chunk < length chunks.old.items }
    requires some { 0 < place.index }
    requires index { place.index ≤ length (chunk_at chunks.old.items place.chunk) }
    requires place { IsPlaceAfter (ip_networks (all_of chunks.old.items)) (ip_network network.now)
        (position_of chunks.old.items place.chunk place.index) }
    ensures table { IsTable (ip_networks (all_of chunks.new.items)) }
    ensures filled { AreFilled chunks.new.items }
    ensures put { IsWithRoute (ip_routes (all_of chunks.old.items)) (ip_network network.now, value)
        (ip_routes (all_of chunks.new.items)) }
    ensures size { length (all_of chunks.new.items) ≡ length (all_of chunks.old.items) }
    ensures known { (masks : List ℕ) (width : ℕ) → AreKnown masks width (ip_networks (all_of chunks.old.items))
        → AreKnown masks width (ip_networks (all_of chunks.new.items)) }
    ensures value { Contains (ip_routes (all_of chunks.old.items)) (ip_network network.now, result) }
{
    replace_at(chunks, place.before(), value)
}

/// Takes the route of a network out that the chunks have, by the place after it, and returns its value.
pub(crate) fn take_out<V>(chunks: &mut Vec<Chunk<V>>, place: Place, network: &IpNet) -> V
    requires table { IsTable (ip_networks (all_of chunks.old.items)) }
    requires filled { AreFilled chunks.old.items }
    requires has { Contains (ip_networks (all_of chunks.old.items)) (ip_network network.now) }
    requires chunk { place.chunk < length chunks.old.items }
    requires some { 0 < place.index }
    requires index { place.index ≤ length (chunk_at chunks.old.items place.chunk) }
    requires place { IsPlaceAfter (ip_networks (all_of chunks.old.items)) (ip_network network.now)
        (position_of chunks.old.items place.chunk place.index) }
    ensures table { IsTable (ip_networks (all_of chunks.new.items)) }
    ensures filled { AreFilled chunks.new.items }
    ensures taken { IsWithoutRoute (ip_routes (all_of chunks.old.items)) (ip_network network.now)
        (ip_routes (all_of chunks.new.items)) }
    ensures size { length (all_of chunks.new.items) + 1 ≡ length (all_of chunks.old.items) }
    ensures known { (masks : List ℕ) (width : ℕ) → AreKnown masks width (ip_networks (all_of chunks.old.items))
        → AreKnown masks width (ip_networks (all_of chunks.new.items)) }
    ensures value { Contains (ip_routes (all_of chunks.old.items)) (ip_network network.now, result) }
{
    take_at(chunks, place.before()).1
}
