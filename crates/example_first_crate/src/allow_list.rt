//! The allow list of a firewall.
ghost use Rattle.std.specs.Prelude.{◌↔◌, IsTrue};
ghost use Rattle.ipnet.specs.Address.{ip_address};
ghost use Rattle.ipnet_sets.specs.Members.{IsMember};

use ipnet::IpAddr;
use ipnet_sets::IpSet;

/// Whether the firewall lets the address in: it is allowed and not denied.
pub fn lets_in(allow: &IpSet, deny: &IpSet, address: &IpAddr) -> bool
    ensures { IsTrue result ↔ IsMember allow.now (ip_address address.now)
        × ¬ (IsMember deny.now (ip_address address.now)) }
{
    allow.contains(address) && !deny.contains(address)
}
