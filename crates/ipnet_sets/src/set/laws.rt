//! Facts about all sets, each the contract of a function that computes nothing. `==`, the order, the hash and `clone`
//! depend only on the addresses, and the operations obey the laws of set algebra.
//!
//! The laws of the operations are about any sets that are a union, a complement and so on. The contracts of the calls
//! say that their results are such sets.
ghost use Rattle.std.specs.Prelude.{◌≡◌, ℕ, ◌+◌, ◌^◌, ◌⊎◌, ◌↔◌, IsTrue, List, map, sum, All};
ghost use Rattle.std.specs.declared.cmp.Ordering.TheVariants.{Equal};
ghost use Rattle.ipnet_base.specs.Address.{Family, IPv4, IPv6, Address, width};
ghost use Rattle.ipnet_base.specs.Network.{Network, IsNetwork};
ghost use Rattle.ipnet_base.specs.Blocks.{AreMaximalBlocks, IsAggregateOf};
ghost use Rattle.ipnet_base.specs.Ranges.{AddressRange, address_count};
ghost use Rattle.ipnet_sets.specs.declared.set.IpSet.{IpSet};
ghost use Rattle.ipnet_sets.specs.SetRanges.{AreRangesOf};
ghost use Rattle.ipnet_sets.specs.Members.{IsMember, IsMemberOf, IsCountOf, HaveSameAddresses, HasAddressesOf};
ghost use Rattle.ipnet_sets.specs.Members.{HasNoAddress, IsSubset, IsUnion, IsIntersection, IsDifference, IsComplement};

use super::IpSet;
use std::hash::Hash;

/// Sets are equal, and equal in the order, if and only if they have the same addresses. Sets feed a hasher the same if
/// and only if they have the same addresses. A set is a clone of another if and only if both have the same addresses.
pub fn sets_follow_addresses()
    ensures equality { (a b : IpSet) → IsTrue (⟦<IpSet as PartialEq>⟧.eq a b) ↔ HaveSameAddresses a b }
    ensures order { (a b : IpSet) → (⟦<IpSet as Ord>⟧.cmp a b ≡ Equal) ↔ HaveSameAddresses a b }
    ensures partial_order { (a b : IpSet) → ⟦<IpSet as PartialOrd>⟧.partial_cmp a b ≡ Some (⟦<IpSet as Ord>⟧.cmp a b) }
    ensures hash { (a b : IpSet)
        → (⟦<IpSet as Hash>⟧.hash_input a ≡ ⟦<IpSet as Hash>⟧.hash_input b) ↔ HaveSameAddresses a b }
    ensures clone { (a b : IpSet) → ⟦<IpSet as Clone>⟧.is_clone a b ↔ HaveSameAddresses b a }
{}

/// The networks of the set that a list makes are the aggregate of the list.
pub fn networks_are_the_aggregate()
    ensures { (s : IpSet) (list networks : List Network) → HasAddressesOf s list
        → AreMaximalBlocks (IsMember s) 0 networks → IsAggregateOf networks list }
{}

/// A list and its aggregate make sets with the same addresses, and the networks of such a set are the aggregate, which
/// has valid networks only.
pub fn a_list_and_its_aggregate_make_one_set()
    ensures set { (s t : IpSet) (list aggregate : List Network) → All IsNetwork list → IsAggregateOf aggregate list
        → HasAddressesOf s list → HasAddressesOf t aggregate → HaveSameAddresses s t }
    ensures networks { (t : IpSet) (list aggregate networks : List Network) → All IsNetwork list
        → IsAggregateOf aggregate list → HasAddressesOf t aggregate → AreMaximalBlocks (IsMember t) 0 networks
        → networks ≡ aggregate }
    ensures valid { (list aggregate : List Network) → All IsNetwork list → IsAggregateOf aggregate list
        → All IsNetwork aggregate }
{}

/// The complement of a union is the intersection of the complements (De Morgan).
pub fn complement_of_a_union()
    ensures { (a b union not_a not_b s : IpSet) → IsUnion union a b → IsComplement not_a a → IsComplement not_b b
        → IsComplement s union ↔ IsIntersection s not_a not_b }
{}

/// The complement of an intersection is the union of the complements (De Morgan).
pub fn complement_of_an_intersection()
    ensures { (a b both not_a not_b s : IpSet) → IsIntersection both a b → IsComplement not_a a → IsComplement not_b b
        → IsComplement s both ↔ IsUnion s not_a not_b }
{}

/// A difference is the intersection with the complement.
pub fn difference_by_the_complement()
    ensures { (a b not_b s : IpSet) → IsComplement not_b b → IsDifference s a b ↔ IsIntersection s a not_b }
{}

/// A set is a subset of another if and only if the difference is empty.
pub fn difference_of_a_subset_is_empty()
    ensures { (a b difference : IpSet) → IsDifference difference a b → HasNoAddress difference ↔ IsSubset a b }
{}

/// The counts of a set and of its complement add up to all addresses of the family.
pub fn counts_of_complements_add_up()
    ensures { (f : Family) (s not_s : IpSet) (m n : ℕ) → IsComplement not_s s
        → IsCountOf (IsMemberOf f s) m → IsCountOf (IsMemberOf f not_s) n → m + n ≡ 2 ^ width f }
{}

/// An address is in a set or it is not.
pub fn an_address_is_a_member_or_not()
    ensures { (s : IpSet) (x : Address) → IsMember s x ⊎ ¬ (IsMember s x) }
{}

/// A set has one count in each family.
pub fn a_set_has_one_count()
    ensures { (f : Family) (s : IpSet) (m n : ℕ) → IsCountOf (IsMemberOf f s) m → IsCountOf (IsMemberOf f s) n → m ≡ n }
{}

/// The count of the union of two sets that share no address is the sum of their counts.
pub fn counts_of_disjoint_sets_add_up()
    ensures { (f : Family) (a b s : IpSet) (m n k : ℕ) → IsUnion s a b
        → ((x : Address) → IsMember a x → ¬ (IsMember b x))
        → IsCountOf (IsMemberOf f a) m → IsCountOf (IsMemberOf f b) n → IsCountOf (IsMemberOf f s) k → k ≡ m + n }
{}

/// If a subset is taken from a set, the counts of the subset and of the rest add up to the count of the set.
pub fn counts_of_a_subset_and_the_rest_add_up()
    ensures { (f : Family) (a b rest : IpSet) (m n k : ℕ) → IsDifference rest a b → IsSubset b a
        → IsCountOf (IsMemberOf f a) m → IsCountOf (IsMemberOf f b) n → IsCountOf (IsMemberOf f rest) k → n + k ≡ m }
{}

/// The number of addresses of a set is the sum of the numbers of addresses of its ranges.
pub fn the_count_is_the_sum_of_the_ranges()
    ensures { (s : IpSet) (ranges : List AddressRange) (n : ℕ) → AreRangesOf (IsMember s) ranges
        → IsCountOf (IsMember s) n → n ≡ sum (map address_count ranges) }
{}

/// The number of addresses of a set is the sum of its IPv4 and its IPv6 count.
pub fn the_counts_of_the_families_add_up()
    ensures { (s : IpSet) (m n k : ℕ) → IsCountOf (IsMemberOf IPv4 s) m → IsCountOf (IsMemberOf IPv6 s) n
        → IsCountOf (IsMember s) k → k ≡ m + n }
{}
