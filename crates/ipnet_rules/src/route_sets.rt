//! The networks of one prefix length that a prefix list permits, as a set of their addresses.
ghost use Rattle.std.specs.Prelude.{◌≤◌, ◌↔◌, IfOk, IsNone, IfSome};
ghost use Rattle.ipnet_base.specs.Address.{Address, IsAddress, width};
ghost use Rattle.ipnet.specs.NetworkOf.{ip_network};
ghost use Rattle.ipnet.specs.NetworkParts.{network_at};
ghost use Rattle.ipnet_sets.specs.Members.{IsMember};
ghost use Rattle.ipnet_rules.specs.PrefixLists.{IsRoutePermitted, IsPermittedByOne, IsFirstOfLength};
ghost use Rattle.ipnet_rules.specs.PrefixLists.{IsFirstDifference, PermitSameRoutes};
ghost use Rattle.ipnet_rules.specs.RoutesOfLength.{AreRulesOfLength};

use crate::prefix_list::{PrefixList, PrefixRule};
use crate::rules::{self, Rule};
use ipnet::IpNet;
use ipnet_sets::IpSet;
use std::alloc::{AllocError, Global};

/// Returns the rules for addresses that the prefix rules are for networks of this length.
fn rules_of_length(
    alloc: Global,
    rules: &[PrefixRule],
    prefix_len: u8,
) -> Result<Vec<Rule>, AllocError>
    ensures { IfOk result (λ list. AreRulesOfLength rules.now prefix_len list.items) }
{
    let mut list = Vec::new(alloc);
    for rule in rules {
        if rule.can_match(prefix_len) {
            list.push(rule.for_addresses())?;
        }
    }
    Ok(list)
}

/// Returns the set of the addresses whose networks of this length the prefix rules permit.
fn permitted_of_length(
    alloc: Global,
    rules: &[PrefixRule],
    prefix_len: u8,
) -> Result<IpSet, AllocError>
    ensures members { IfOk result (λ s. (x : Address) → IsAddress x → prefix_len ≤ width x.family
        → IsMember s x ↔ IsRoutePermitted rules.now (network_at x prefix_len)) }
    ensures fits { IfOk result (λ s. (x : Address) → IsMember s x → prefix_len ≤ width x.family) }
{
    let list = rules_of_length(alloc, rules, prefix_len)?;
    let compiled = rules::compile(alloc, list.as_slice())?;
    Ok(compiled.permitted)
}

/// Returns the first network of this length that one of the two lists permits and the other does not, or `None` if
/// there is no such network.
pub(crate) fn difference_of_length(
    alloc: Global,
    rules: &[PrefixRule],
    others: &[PrefixRule],
    prefix_len: u8,
) -> Result<Option<IpNet>, AllocError>
    ensures none { IfOk result (λ found. IsNone found → (x : Address) → IsAddress x → prefix_len ≤ width x.family
        → IsRoutePermitted rules.now (network_at x prefix_len)
        ↔ IsRoutePermitted others.now (network_at x prefix_len)) }
    ensures some { IfOk result (λ found. IfSome found (λ n.
        IsPermittedByOne rules.now others.now (ip_network n))) }
    ensures first { IfOk result (λ found. IfSome found (λ n.
        IsFirstOfLength rules.now others.now prefix_len (ip_network n))) }
{
    let ours = permitted_of_length(alloc, rules, prefix_len)?;
    let theirs = permitted_of_length(alloc, others, prefix_len)?;
    match rules::first_apart(alloc, &ours, &theirs)? {
        Some(ip) => Ok(Some(IpNet::new_assert(ip, prefix_len))),
        None => Ok(None),
    }
}

impl PrefixList {
    /// Returns the first network that one of the two lists permits and the other does not, or `None` if the lists
    /// permit the same networks. It has the shortest prefix length of all these networks, and no host bits. It is
    /// the first one of this length: IPv4 before IPv6, then by address. Fails only if memory runs out.
    ///
    /// ```text
    /// permit 10.0.0.0/8 ge 16, against permit 10.0.0.0/8 ge 16 le 24: Some(10.0.0.0/25)
    /// ```
    pub fn first_difference(
        &self,
        alloc: Global,
        other: &PrefixList,
    ) -> Result<Option<IpNet>, AllocError>
        ensures none { IfOk result (λ found. IsNone found
            ↔ PermitSameRoutes self.now.list.items other.now.list.items) }
        ensures some { IfOk result (λ found. IfSome found (λ n.
            IsPermittedByOne self.now.list.items other.now.list.items (ip_network n))) }
        ensures first { IfOk result (λ found. IfSome found (λ n.
            IsFirstDifference self.now.list.items other.now.list.items (ip_network n))) }
    {
        let ours = self.list.as_slice();
        let theirs = other.list.as_slice();
        for prefix_len in 0..129 {
            if let Some(network) = difference_of_length(alloc, ours, theirs, prefix_len)? {
                return Ok(Some(network));
            }
        }
        Ok(None)
    }
}
