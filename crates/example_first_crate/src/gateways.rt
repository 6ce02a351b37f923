//! The gateway of a route.
ghost use Rattle.std.specs.Prelude.{◌↔◌, IsNone, IfSome};
ghost use Rattle.ipnet.specs.Address.{ip_address};
ghost use Rattle.ipnet.specs.Network.{Network};
ghost use Rattle.ipnet.specs.Blocks.{IsCoveredBy};
ghost use Rattle.ipnet_routes.specs.Routes.{networks_of, IsLongestMatch};
ghost use Rattle.ipnet_routes.specs.RoutesOf.{routes_of};

use ipnet::IpAddr;
use ipnet_routes::RouteTable;

/// The gateway of the longest route to the address, or `None` if there is no route.
pub fn gateway(table: &RouteTable<IpAddr>, address: &IpAddr) -> Option<IpAddr>
    ensures none { IsNone result ↔ ¬ (IsCoveredBy (networks_of (routes_of table.now)) (ip_address address.now)) }
    ensures some { IfSome result (λ hop. (n : Network)
        × IsLongestMatch (routes_of table.now) (ip_address address.now) (n, hop)) }
{
    match table.longest_match(address) {
        Some((_, hop)) => Some(*hop),
        None => None,
    }
}
