//! Route tables and maps: looked up, changed and compared.
ghost use Rattle.std.specs.Prelude.{◌≡◌, IsTrue, ◌↔◌, Contains};
ghost use Rattle.ipnet.specs.Network.{truncation};
ghost use Rattle.ipnet.specs.NetworkOf.{ip_network};
ghost use Rattle.ipnet_routes.specs.Routes.{networks_of};
ghost use Rattle.ipnet_routes.specs.RouteMaps.{IsWithRoute};
ghost use Rattle.ipnet_routes.specs.RoutesOf.{routes_of};
ghost use Rattle.ipnet_routes.specs.RouteMapsOf.{map_routes};

use ipnet::IpNet;
use ipnet_routes::{RouteMap, RouteTable};

/// Gives a network of the table another gateway. Returns whether the table has the network; if not, nothing changes.
pub fn set_gateway(table: &mut RouteTable<u32>, network: &IpNet, gateway: u32) -> bool
    ensures has { IsTrue result
        ↔ Contains (networks_of (routes_of table.old)) (truncation (ip_network network.now)) }
    ensures set { IsTrue result → IsWithRoute (routes_of table.old)
        (truncation (ip_network network.now), gateway) (routes_of table.new) }
    ensures unchanged { ¬ (IsTrue result) → routes_of table.new ≡ routes_of table.old }
{
    if let Some(value) = table.get_mut(network) {
        *value = gateway;
        return true;
    }
    false
}

/// Counts one more use of the network's route in a map. Returns whether the map has the network.
pub fn count_use(map: &mut RouteMap<u32>, network: &IpNet) -> bool
    ensures unchanged { ¬ (IsTrue result) → map_routes map.new ≡ map_routes map.old }
{
    match map.get_mut(network) {
        Some(uses) => {
            *uses = uses.saturating_add(1);
            true
        }
        None => false,
    }
}
