//! Leases: networks with a value each, in the order of their networks.
ghost use Rattle.std.specs.Prelude.{◌≡◌, ◌↔◌, ◌⊎◌, Contains, IfOk, IfErr, OnOk, OnErr, IfSome, IfNone, IsTrue};
ghost use Rattle.std.specs.BTreeMap.{IsUnchanged};
ghost use Rattle.ipnet_base.specs.Network.{InBlock, AreDisjoint, IsBefore};
ghost use Rattle.ipnet_base.specs.Address.{Address};
ghost use Rattle.ipnet_base.specs.Blocks.{IsAscending};
ghost use Rattle.ipnet.specs.NetworkOf.{ip_network};
ghost use Rattle.ipnet.specs.declared.net.IpNet.{IpNet as Net};
ghost use Rattle.ipnet_pools.specs.Leases.{HasLeaseOf, IsInLease, AreLeases, IsLastNotAfter};
ghost use Rattle.ipnet_pools.specs.Leases.{networks_of_leases, IsFirstWithAddressOf};

use ipnet::IpNet;
use ipnet::net::laws::ip_nets_compare_by_network;
use std::alloc::AllocFailed;
use std::collections::BTreeMap;

/// Adds a lease of the network, which has none.
pub(crate) fn insert<V: Drop>(
    leases: &mut BTreeMap<IpNet, V>,
    network: IpNet,
    value: V,
) -> Result<(), V>
    requires { ¬ (HasLeaseOf leases.old.entries network) }
    ensures added { OnOk result ((n : Net) (v : V) → Contains leases.new.entries (n, v)
        ↔ (Contains leases.old.entries (n, v) ⊎ ((n ≡ network) × (v ≡ value)))) }
    ensures unchanged { OnErr result (IsUnchanged leases.old leases.new) }
    ensures value { IfErr result (λ v. v ≡ value) }
{
    ip_nets_compare_by_network();
    match leases.insert(network, value) {
        Ok(_) => Ok(()),
        Err(refused) => {
            let (_, value) = refused.value;
            Err(value)
        }
    }
}

/// Removes the lease of the network, and returns its value. Returns `None` if there is no such lease.
pub(crate) fn remove<V>(leases: &mut BTreeMap<IpNet, V>, network: &IpNet) -> Option<V>
    ensures was { IfSome result (λ v. Contains leases.old.entries (network.now, v)) }
    ensures removed { (n : Net) (v : V) → Contains leases.new.entries (n, v)
        ↔ (Contains leases.old.entries (n, v) × ¬ (n ≡ network.now)) }
    ensures none { IfNone result (¬ (HasLeaseOf leases.old.entries network.now)) }
{
    ip_nets_compare_by_network();
    if leases.len() == 0 {
        return None;
    }
    leases.remove(network)
}

/// Returns the value of the network's lease, or `None` if there is no such lease.
pub(crate) fn get<'a, V>(leases: &'a BTreeMap<IpNet, V>, network: &IpNet) -> Option<&'a V>
    ensures found { IfSome result (λ v. Contains leases.now.entries (network.now, v.now)) }
    ensures none { IfNone result (¬ (HasLeaseOf leases.now.entries network.now)) }
{
    ip_nets_compare_by_network();
    leases.get(network)
}

/// Whether the network has a lease.
pub(crate) fn contains<V>(leases: &BTreeMap<IpNet, V>, network: &IpNet) -> bool
    ensures { IsTrue result ↔ HasLeaseOf leases.now.entries network.now }
{
    match get(leases, network) {
        Some(_) => true,
        None => false,
    }
}

/// No network has two leases. The function computes nothing; its contract is a fact for callers.
pub(crate) fn have_one_value<V>(leases: &BTreeMap<IpNet, V>)
    ensures { (n : Net) (v w : V) → Contains leases.now.entries (n, v) → Contains leases.now.entries (n, w) → v ≡ w }
{
    ip_nets_compare_by_network();
    let _ = leases.iter();
}

/// Each lease comes before all later ones. The function computes nothing; its contract is a fact for callers.
pub(crate) fn are_ascending<V>(leases: &BTreeMap<IpNet, V>)
    ensures { IsAscending (networks_of_leases leases.now.entries) }
{
    ip_nets_compare_by_network();
    let _ = leases.iter();
}

/// Returns the last lease that is not after the network `at` in the order of networks.
fn last_not_after<'a, V>(leases: &'a BTreeMap<IpNet, V>, at: &IpNet) -> Option<(&'a IpNet, &'a V)>
    ensures found { IfSome result (λ r. Contains leases.now.entries (r.0.now, r.1.now)
        × IsLastNotAfter leases.now.entries at.now r.0.now) }
    ensures none { IfNone result ((k : Net) → HasLeaseOf leases.now.entries k
        → IsBefore (ip_network at.now) (ip_network k)) }
{
    ip_nets_compare_by_network();
    leases.range(..=*at).next_back()
}

/// Returns a lease that shares an address with the network, or `None` if there is no such lease.
pub(crate) fn touching<'a, V>(
    leases: &'a BTreeMap<IpNet, V>,
    network: &IpNet,
) -> Option<(&'a IpNet, &'a V)>
    requires { AreLeases leases.now.entries }
    ensures found { IfSome result (λ r. Contains leases.now.entries (r.0.now, r.1.now)
        × ¬ (AreDisjoint (ip_network r.0.now) (ip_network network.now))) }
    ensures none { IfNone result ((x : Address) → InBlock (ip_network network.now) x
        → ¬ (IsInLease leases.now.entries x)) }
{
    let last = IpNet::new_assert(network.broadcast(), network.max_prefix_len());
    let (lease, value) = last_not_after(leases, &last)?;
    if network.contains(lease) || lease.contains(network) {
        return Some((lease, value));
    }
    None
}

/// Returns the first lease that shares an address with the network, or `None` if there is no such lease.
pub(crate) fn first_touching<V>(leases: &BTreeMap<IpNet, V>, network: &IpNet) -> Option<IpNet>
    requires { AreLeases leases.now.entries }
    ensures found { IfSome result (λ n. IsFirstWithAddressOf leases.now.entries
        (InBlock (ip_network network.now)) n) }
    ensures none { IfNone result ((x : Address) → InBlock (ip_network network.now) x
        → ¬ (IsInLease leases.now.entries x)) }
{
    // Most networks share no address with a lease, and a search finds that without looking at every lease.
    touching(leases, network)?;
    are_ascending(leases);
    for (lease, _) in leases.iter() {
        if network.contains(lease) || lease.contains(network) {
            return Some(*lease);
        }
    }
    None
}
