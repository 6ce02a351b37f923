//! The entries of a list that lie whole in the addresses of another, or whole outside them.
ghost use Rattle.std.specs.Prelude.{◌↔◌, IsTrue, IfOk};
ghost use Rattle.ipnet_base.specs.Address.{Address, IsAddress, ip_address};
ghost use Rattle.ipnet_sets.specs.Members.{IsMember};
ghost use Rattle.ipnet_sets.specs.SetRanges.{IsInRange};
ghost use Rattle.ipnet_lists.specs.EntryOf.{entry_range};
ghost use Rattle.netset_lib.specs.Filters.{IsOnSide};
ghost use Rattle.netset_lib.specs.Filtering.{HasAddresses};

use ipnet::IpAddr;
use ipnet_lists::Entry;
use ipnet_sets::IpSet;
use std::alloc::{AllocError, Global};

/// Which entries are kept.
#[derive(Clone, Copy, Debug, PartialEq, Eq)]
pub enum Side {
    /// Those whose addresses are all in the set.
    Inside,
    /// Those of whose addresses none is in the set.
    Outside,
}

/// The number of an address fits in the width of its family. The contract says so; the function has nothing to do.
#[inline]
pub fn address_fits(address: IpAddr)
    ensures { IsAddress (ip_address address) }
{
    match address {
        IpAddr::V4(address) => {
            let _ = address.to_bits();
        }
        IpAddr::V6(address) => {
            let _ = address.to_bits();
        }
    }
}

/// Whether every address of the entry is in the set.
///
/// ```text
/// the set 10.0.0.0/8, and 10.0.0.9/24:          true
/// the set 10.0.0.0/8, and 10.0.0.1-11.0.0.1:    false
/// ```
pub fn covers_entry(set: &IpSet, entry: Entry) -> bool
    ensures covers { IsTrue result ↔ ((x : Address) → IsInRange (entry_range entry) x → IsMember set.now x) }
    ensures fits { HasAddresses (entry_range entry) }
{
    let (first, last) = entry.ends();
    address_fits(last);
    set.covers_range(first, last)
}

/// Returns the set in which the entries that are kept lie: the set, or all addresses that are not in it. Fails if
/// memory runs out.
///
/// ```text
/// Inside, and 0.0.0.0/1:   0.0.0.0/1
/// Outside, and 0.0.0.0/1:  128.0.0.0/1 and ::/0
/// ```
pub fn side_set(alloc: Global, side: Side, set: IpSet) -> Result<IpSet, AllocError>
    ensures { IfOk result (λ s. (x : Address) → IsAddress x → IsMember s x ↔ IsOnSide side (IsMember set) x) }
{
    match side {
        Side::Inside => Ok(set),
        Side::Outside => set.complement(alloc),
    }
}
