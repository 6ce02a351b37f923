//! An access list: networks that are allowed, networks that are denied, and queries for addresses.
ghost use Rattle.std.specs.Prelude.{◌↔◌, map, IsTrue, IfOk};
ghost use Rattle.ipnet.specs.Address.{Address, IsAddress, ip_address};
ghost use Rattle.ipnet.specs.Blocks.{AreMaximalBlocks};
ghost use Rattle.ipnet.specs.NetworkOf.{ip_network};

use ipnet::{IpAddr, IpNet};
use ipnet_rules::{Action, Addresses, Rule, Rules};
use ipnet_sets::IpSet;
use std::alloc::{AllocError, Global};

/// The addresses that an ordered list of rules permits.
///
/// ```text
/// deny 10.0.1.128/25, permit 10.0.0.0/23: 10.0.1.5 is let in, 10.0.1.200 and 8.8.8.8 are not
/// ```
#[derive(Drop)]
pub struct AccessList {
    open: IpSet,
}

impl AccessList {
    ghost use Rattle.ipnet_rules.specs.Rules.{IsPermitted};
    ghost use Rattle.example_firewall.specs.AccessLists.{IsAllowed, IsLetIn};

    /// The access list of these rules: the first rule that matches an address decides. Fails only when memory runs out.
    pub fn from_rules(alloc: Global, rules: &Rules) -> Result<Self, AllocError>
        ensures { IfOk result (λ list. (x : Address) → IsAddress x → IsLetIn list x ↔ IsPermitted rules.now x) }
    {
        let open = rules.permitted(alloc)?;
        Ok(AccessList { open })
    }

    /// The access list that denies the addresses of some networks, and permits the others of some more: a denial takes
    /// precedence over an allowance. Fails only when memory runs out.
    ///
    /// ```text
    /// allow 10.0.0.0/24, 10.0.1.0/24; deny 10.0.1.128/25: the list above
    /// ```
    pub fn new(alloc: Global, allow: &[IpNet], deny: &[IpNet]) -> Result<Self, AllocError>
        ensures { IfOk result (λ list. (x : Address) → IsLetIn list x
            ↔ IsAllowed (map ip_network allow.now) (map ip_network deny.now) x) }
    {
        let allowed = IpSet::from_networks(alloc, allow)?;
        let denied = IpSet::from_networks(alloc, deny)?;
        let mut list = Vec::new(alloc);
        list.push(Rule {
            action: Action::Deny,
            addresses: Addresses::Set(denied),
        })?;
        list.push(Rule {
            action: Action::Permit,
            addresses: Addresses::Set(allowed),
        })?;
        let default = Action::Deny;
        AccessList::from_rules(alloc, &Rules { list, default })
    }

    /// Whether the list admits the address: it is allowed and not denied. Takes time logarithmic in the length of the
    /// lists.
    pub fn allows(&self, address: &IpAddr) -> bool
        ensures { IsTrue result ↔ IsLetIn self.now (ip_address address.now) }
    {
        self.open.contains(address)
    }

    /// The admitted addresses, as the shortest list of networks. Fails only when memory runs out.
    ///
    /// ```text
    /// the list above: 10.0.0.0/24, 10.0.1.0/25
    /// ```
    pub fn networks(&self, alloc: Global) -> Result<Vec<IpNet>, AllocError>
        ensures { IfOk result (λ networks. AreMaximalBlocks (IsLetIn self.now) 0 (map ip_network networks.items)) }
    {
        self.open.networks(alloc)
    }
}
