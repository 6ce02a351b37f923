//! Which entries are chosen: by their family, and by their prefix length.
ghost use Rattle.std.specs.Prelude.{◌≡◌, ◌≤◌, ◌↔◌, ℕ, IsTrue, IfSome, IfNone};
ghost use Rattle.ipnet_lists.specs.EntryOf.{entry_range};
ghost use Rattle.netset_entries.specs.Choices.{HasPrefixLen, IsChosenFamily, IsInBounds, bounds_for};

use crate::find::is_at_most;
use ipnet::{IpAddr, IpNet};
use ipnet_lists::Entry;
use ipnet_sets::common_supernet;
use netset_lib::Families;

/// Bounds of prefix lengths. Both belong to them.
#[derive(Clone, Copy, Debug, PartialEq, Eq)]
pub struct LengthBounds {
    /// The least length.
    pub least: u8,
    /// The greatest length.
    pub most: u8,
}

/// Which entries are chosen.
///
/// ```text
/// Ipv4 and 24 to 128: 10.0.0.0/24, 10.0.0.1 and 10.0.0.0-10.0.0.255, and not 10.0.0.0/8, ::1 or 10.0.0.0-10.0.0.2
/// Both, and 24 to 32 for IPv4: 10.0.0.0/24, fd00::/8 and ::1-::2, and not 10.0.0.0/8 or 10.0.0.0-10.0.0.2
/// ```
#[derive(Clone, Copy, Debug, PartialEq, Eq)]
pub struct EntryChoice {
    /// The families of the entries. `Named` and `Both` are both families.
    pub families: Families,
    /// The prefix lengths of the entries. An address has the length 32 or 128; a range has the length of the network
    /// with its addresses, and is not chosen if there is no such network.
    pub lengths: Option<LengthBounds>,
    /// The prefix lengths of the IPv4 entries, besides. They do not matter for the IPv6 entries.
    pub ipv4_lengths: Option<LengthBounds>,
    /// The prefix lengths of the IPv6 entries, besides. They do not matter for the IPv4 entries.
    pub ipv6_lengths: Option<LengthBounds>,
}

/// Returns the prefix length of the network with exactly the addresses from the first to the last of the entry, or
/// `None` if there is no such network.
fn len_of_ends(entry: Entry) -> Option<u8>
    ensures some { IfSome result (HasPrefixLen (entry_range entry)) }
    ensures none { IfNone result ((len : ℕ) → ¬ (HasPrefixLen (entry_range entry) len)) }
{
    let (first, last) = entry.ends();
    let network = common_supernet(&IpNet::from(first), &IpNet::from(last))?;
    if !is_at_most(first, network.network()) {
        return None;
    }
    if !is_at_most(network.broadcast(), last) {
        return None;
    }
    Some(network.prefix_len())
}

/// Returns the prefix length of the network with exactly the addresses of the entry, or `None` if there is no such
/// network.
fn prefix_len_of(entry: Entry) -> Option<u8>
    ensures some { IfSome result (HasPrefixLen (entry_range entry)) }
    ensures none { IfNone result ((len : ℕ) → ¬ (HasPrefixLen (entry_range entry) len)) }
{
    match entry {
        Entry::Network(network) => Some(network.prefix_len()),
        Entry::Address(_) | Entry::Ipv4Range(_, _) | Entry::Ipv6Range(_, _) => len_of_ends(entry),
    }
}

/// Returns whether the entry is of one of these families.
fn is_of_families(families: Families, entry: Entry) -> bool
    ensures { IsTrue result ↔ IsChosenFamily families (entry_range entry).family }
{
    match (families, entry.ends().0) {
        (Families::Named | Families::Both, _) => true,
        (Families::Ipv4, IpAddr::V4(_)) => true,
        (Families::Ipv6, IpAddr::V6(_)) => true,
        (Families::Ipv4 | Families::Ipv6, _) => false,
    }
}

/// Returns whether the length is in the bounds.
fn is_between(bounds: LengthBounds, len: u8) -> bool
    ensures { IsTrue result ↔ ((bounds.least ≤ len) × (len ≤ bounds.most)) }
{
    bounds.least <= len && len <= bounds.most
}

/// Returns whether the prefix length of the entry is in the bounds. If there are none, it is.
fn is_in_bounds(lengths: Option<LengthBounds>, entry: Entry) -> bool
    ensures { IsTrue result ↔ IsInBounds lengths (entry_range entry) }
{
    let Some(bounds) = lengths else {
        return true;
    };
    match prefix_len_of(entry) {
        Some(len) => is_between(bounds, len),
        None => false,
    }
}

impl EntryChoice {
    ghost use Rattle.netset_entries.specs.Choices.{IsChosen};

    /// Returns whether the prefix length of the entry is in the bounds that are only for its family. If there are none,
    /// it is.
    #[tactic(auto, using(crate::proofs::ChoiceLaws::own_ipv4, crate::proofs::ChoiceLaws::own_ipv6))]
    fn is_in_own_bounds(&self, entry: Entry) -> bool
        ensures { IsTrue result ↔ IsInBounds (bounds_for self.now (entry_range entry).family) (entry_range entry) }
    {
        match entry.ends().0 {
            IpAddr::V4(_) => is_in_bounds(self.ipv4_lengths, entry),
            IpAddr::V6(_) => is_in_bounds(self.ipv6_lengths, entry),
        }
    }

    /// Returns whether the entry is chosen.
    ///
    /// ```text
    /// Both and 8 to 24:           10.0.0.0/8 and 10.0.0.0-10.255.255.255 are, 10.0.0.1 is not
    /// Both, and 8 to 24 for IPv6: fd00::/8 and 10.0.0.1 are, ::1 is not
    /// ```
    pub fn has(&self, entry: Entry) -> bool
        ensures { IsTrue result ↔ IsChosen self.now (entry_range entry) }
    {
        is_of_families(self.families, entry)
            && is_in_bounds(self.lengths, entry)
            && self.is_in_own_bounds(entry)
    }
}
