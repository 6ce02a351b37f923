//! Laws of ranges that no contract of a single call states: the addresses they list, the results of mixed calls, `==`,
//! the order, the hash and the clone. Each law is the contract of a function that does nothing.
//!
//! ```text
//! 0.0.0.1 to 0.0.0.0 < 0.0.0.1 to 0.0.0.6 < 0.0.0.5 to 0.0.0.3 < :: to ::6
//! the first and the third have no address, and are not equal
//! ```
ghost use Rattle.std.specs.Prelude.{◌≡◌, ◌≢◌, ◌<◌, ◌↔◌, None, List, length};
ghost use Rattle.std.specs.Prelude.{Contains, All, AllPairs, Any, IsPermutation};
ghost use Rattle.ipnet_base.specs.Address.{Address, IsBetween};
ghost use Rattle.ipnet_base.specs.Ranges.{AddressRange, addresses_of, address_count, IsRangeBefore};
ghost use Rattle.ipnet_base.specs.Ranges.{Step, IsRun, SkipsNone, given};
ghost use Rattle.ipnet_base.specs.RangeOf.{ipv4_range, ipv6_range, ip_range};
ghost use Rattle.ipnet_base.specs.declared.ipext.ip_range.IpAddrRange.{IpAddrRange};
ghost use Rattle.ipnet_base.specs.declared.ipext.ipv4_range.Ipv4AddrRange.{Ipv4AddrRange};
ghost use Rattle.ipnet_base.specs.declared.ipext.ipv6_range.Ipv6AddrRange.{Ipv6AddrRange};
ghost use Rattle.ipnet_base.specs.Values.{ComparesBy, HashesBy, ClonesExactly};

use super::{IpAddrRange, Ipv4AddrRange, Ipv6AddrRange};
use std::fmt::Debug;
use std::hash::Hash;
use std::iter::FusedIterator;

/// A range lists the addresses of its family between its ends, in ascending order, each once.
pub fn range_lists_what_lies_between()
    ensures members { (r : AddressRange) (x : Address) →
        Contains (addresses_of r) x ↔ IsBetween r.family r.start r.end x }
    ensures ascending { (r : AddressRange) → AllPairs (λ x y. x.number < y.number) (addresses_of r) }
    ensures count { (r : AddressRange) → length (addresses_of r) ≡ address_count r }
{}

/// Any mix of `next`, `next_back`, `nth` and `nth_back` returns addresses of the range, each at most once. If no call
/// skips an address and one call has returned `None`, the calls have returned each address exactly once. After `None`,
/// every call returns `None`.
pub fn calls_give_each_address_once()
    ensures of_the_range { (r s : AddressRange) (steps : List Step) → IsRun r steps s →
        All (Contains (addresses_of r)) (given steps) }
    ensures at_most_once { (r s : AddressRange) (steps : List Step) → IsRun r steps s →
        AllPairs (λ x y. x ≢ y) (given steps) }
    ensures exactly_once { (r s : AddressRange) (steps : List Step) → IsRun r steps s →
        All (λ step. SkipsNone step.call) steps → Any (λ step. step.answer ≡ None) steps →
        IsPermutation (given steps) (addresses_of r) }
    ensures none_stays { (r s : AddressRange) (steps : List Step) → IsRun r steps s →
        AllPairs (λ step later. step.answer ≡ None → later.answer ≡ None) steps }
{}

/// Two IPv4 ranges are equal if and only if their stored ends are equal, and they are ordered by their stored ends.
/// They feed a hasher the same if and only if they are equal. The clone is the same range, and cloning never fails.
pub fn ipv4_ranges_compare_by_ends()
    ensures compare { (a b : Ipv4AddrRange) → ComparesBy ipv4_range IsRangeBefore ⟦<Ipv4AddrRange as PartialEq>⟧.eq
        ⟦<Ipv4AddrRange as Ord>⟧.cmp ⟦<Ipv4AddrRange as PartialOrd>⟧.partial_cmp a b }
    ensures hash { (a b : Ipv4AddrRange) → HashesBy ipv4_range ⟦<Ipv4AddrRange as Hash>⟧.hash_input a b }
    ensures clone { ClonesExactly ⟦<Ipv4AddrRange as Clone>⟧.is_clone ⟦<Ipv4AddrRange as Clone>⟧.is_infallible }
{}

/// Two IPv6 ranges are equal if and only if their stored ends are equal, and they are ordered by their stored ends.
/// They feed a hasher the same if and only if they are equal. The clone is the same range, and cloning never fails.
pub fn ipv6_ranges_compare_by_ends()
    ensures compare { (a b : Ipv6AddrRange) → ComparesBy ipv6_range IsRangeBefore ⟦<Ipv6AddrRange as PartialEq>⟧.eq
        ⟦<Ipv6AddrRange as Ord>⟧.cmp ⟦<Ipv6AddrRange as PartialOrd>⟧.partial_cmp a b }
    ensures hash { (a b : Ipv6AddrRange) → HashesBy ipv6_range ⟦<Ipv6AddrRange as Hash>⟧.hash_input a b }
    ensures clone { ClonesExactly ⟦<Ipv6AddrRange as Clone>⟧.is_clone ⟦<Ipv6AddrRange as Clone>⟧.is_infallible }
{}

/// Two ranges of either family are equal if and only if their families and stored ends are equal. They are ordered by
/// family, IPv4 first, and then by their stored ends. They feed a hasher the same if and only if they are equal. The
/// clone is the same range, and cloning never fails.
pub fn ip_ranges_compare_by_ends()
    ensures compare { (a b : IpAddrRange) → ComparesBy ip_range IsRangeBefore ⟦<IpAddrRange as PartialEq>⟧.eq
        ⟦<IpAddrRange as Ord>⟧.cmp ⟦<IpAddrRange as PartialOrd>⟧.partial_cmp a b }
    ensures hash { (a b : IpAddrRange) → HashesBy ip_range ⟦<IpAddrRange as Hash>⟧.hash_input a b }
    ensures clone { ClonesExactly ⟦<IpAddrRange as Clone>⟧.is_clone ⟦<IpAddrRange as Clone>⟧.is_infallible }
{}

/// Ranges of each type are `Copy` and `Debug`, and they are fused iterators: after `None` they always return `None`. No
/// contract describes the text of `Debug`.
//
// The contract says nothing: the body does not compile if one of the nine implementations, three for each type, is
// missing.
pub fn ranges_are_fused_and_debug(ipv4: &Ipv4AddrRange, ipv6: &Ipv6AddrRange, ip: &IpAddrRange) {
    is_fused_and_debug(ipv4);
    is_fused_and_debug(ipv6);
    is_fused_and_debug(ip);
}

/// Does nothing when run: it compiles only for types that are `Copy`, fused and `Debug`.
fn is_fused_and_debug<R: Copy + FusedIterator + Debug>(_: &R) {}
