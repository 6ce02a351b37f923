//! Facts about the definitions, each the contract of a function that does nothing. They show that networks, blocks and
//! lists of networks, as `specs/` defines them, are what a reader expects. If a caller's own contract needs such a
//! fact, the caller calls its function. Programs never need to.
ghost use Rattle.std.specs.Prelude.{◌≡◌, ◌≢◌, ℕ, ◌+◌, ◌-◌, ◌*◌, ◌^◌, ◌<◌, ◌≤◌, ◌⊎◌, ◌↔◌, Bool};
ghost use Rattle.std.specs.Prelude.{List, [], ◌∷◌, ◌++◌, length, map, Contains, All, IsPermutation};
ghost use Rattle.ipnet_base.specs.Address.{Family, Address, IsAddress, IsBetween, IsAcceptedBy, width, family_index};
ghost use Rattle.ipnet_base.specs.Address.{greatest_number};
ghost use Rattle.ipnet_base.specs.Network.{Network, IsNetwork, InBlock, IsLeastOf, IsGreatestOf, IsSubnetOf};
ghost use Rattle.ipnet_base.specs.Network.{HaveSameBlock, AreDisjoint, IsTruncated, IsTruncationOf, IsSupernetOf};
ghost use Rattle.ipnet_base.specs.Network.{AreSiblings, AreHalves, IsBefore, truncation};
ghost use Rattle.ipnet_base.specs.Blocks.{IsCoveredBy, HaveSameCover, IsMaximal, AreMaximalBlocks, ArePairwiseDisjoint};
ghost use Rattle.ipnet_base.specs.Blocks.{IsExactCover, IsShortestCover, IsAggregateOf, IsCanonicalAggregateOf};
ghost use Rattle.ipnet_base.specs.Blocks.{AreAggregatedNeighbours, IsAscending, IsInEither, AreSeparated};
ghost use Rattle.ipnet_base.specs.Arithmetic.{bit};
ghost use Rattle.ipnet_base.specs.Subnets.{IsLargestSubnetAt};
ghost use Rattle.ipnet_base.specs.Masks.{netmask_number, hostmask_number, IsNetmaskOf};

/// Two blocks are nested, or they share no address.
pub fn nested_or_disjoint()
    ensures { (n k : Network) → IsSubnetOf n k ⊎ (IsSubnetOf k n ⊎ AreDisjoint n k) }
{}

/// Blocks of different families share no address.
pub fn families_share_no_address()
    ensures { (n k : Network) → n.family ≢ k.family → AreDisjoint n k }
{}

/// A block has a least and a greatest address, and contains every address of its family between these two.
pub fn block_is_an_interval()
    ensures least { (n : Network) → IsNetwork n → (x : Address) × IsAddress x × IsLeastOf n x }
    ensures greatest { (n : Network) → IsNetwork n → (x : Address) × IsAddress x × IsGreatestOf n x }
    ensures between { (n : Network) (low high x : Address) → IsLeastOf n low → IsGreatestOf n high
        → InBlock n x ↔ IsBetween n.family low.number high.number x }
{}

/// The network's own address lies between the least and the greatest address of its block.
pub fn own_address_is_between()
    ensures { (n : Network) (low high : Address) → IsLeastOf n low → IsGreatestOf n high
        → (low.number ≤ n.number) × (n.number ≤ high.number) }
{}

/// At the full prefix length a block contains only the network's own address.
pub fn full_prefix_len_is_one_address()
    ensures { (n : Network) (x : Address) → n.prefix_len ≡ width n.family
        → InBlock n x ↔ ((x.family ≡ n.family) × (x.number ≡ n.number)) }
{}

/// At prefix length 0 a block contains all addresses of the family.
pub fn zero_prefix_len_is_all_addresses()
    ensures { (n : Network) (x : Address) → IsNetwork n → IsAddress x → n.prefix_len ≡ 0
        → InBlock n x ↔ (x.family ≡ n.family) }
{}

/// Inclusion of blocks is reflexive and transitive. Two blocks include each other if and only if the networks have the
/// same truncation.
pub fn inclusion_is_an_order()
    ensures reflexive { (n : Network) → IsSubnetOf n n }
    ensures transitive { (n k l : Network) → IsSubnetOf n k → IsSubnetOf k l → IsSubnetOf n l }
    ensures mutual { (n k : Network) → IsNetwork n → IsNetwork k → HaveSameBlock n k ↔ (truncation n ≡ truncation k) }
{}

/// Truncated networks with equal blocks are equal.
pub fn truncated_networks_are_their_blocks()
    ensures { (n k : Network) → IsNetwork n → IsNetwork k → IsTruncated n → IsTruncated k → HaveSameBlock n k → n ≡ k }
{}

/// A network has one truncation, which the formula gives. A truncated network is its own truncation, and truncating
/// twice is the same as truncating once.
pub fn truncation_is_one()
    ensures exists { (n : Network) → IsNetwork n → IsTruncationOf (truncation n) n }
    ensures one { (t n : Network) → IsTruncationOf t n → t ≡ truncation n }
    ensures own { (n : Network) → IsTruncated n → truncation n ≡ n }
    ensures twice { (n : Network) → truncation (truncation n) ≡ truncation n }
{}

/// A network with a prefix length above 0 has one supernet, and is one of the supernet's two halves.
pub fn supernet_is_one()
    ensures exists { (n : Network) → IsNetwork n → 0 < n.prefix_len → (s : Network) × IsSupernetOf s n }
    ensures one { (s t n : Network) → IsNetwork n → IsSupernetOf s n → IsSupernetOf t n → s ≡ t }
    ensures other_half { (n : Network) → IsNetwork n → 0 < n.prefix_len → (k : Network) × IsNetwork k × AreHalves n k }
{}

/// The block of a supernet is the union of the blocks of its two halves, which share no address.
pub fn supernet_is_its_two_halves()
    ensures union { (s n k : Network) → IsNetwork n → IsSupernetOf s n → AreHalves n k
        → (x : Address) → InBlock s x ↔ (InBlock n x ⊎ InBlock k x) }
    ensures apart { (n k : Network) → AreHalves n k → AreDisjoint n k }
{}

/// Being siblings is symmetric, and each network with a prefix length above 0 is its own sibling.
pub fn siblings_are_symmetric()
    ensures symmetric { (n k : Network) → AreSiblings n k → AreSiblings k n }
    ensures own { (n : Network) → 0 < n.prefix_len → AreSiblings n n }
{}

/// The netmask and the host mask of a prefix length add up to the family's greatest number.
pub fn masks_add_up()
    ensures { (f : Family) (prefix_len : ℕ) → prefix_len ≤ width f
        → netmask_number f prefix_len + hostmask_number f prefix_len ≡ greatest_number f }
{}

/// The netmask of a prefix length has its ones at the bits of the prefix, and the host mask at all other bits. An
/// address lies in a block if and only if it has the network's bits at the ones of the netmask.
pub fn masks_mark_the_prefix()
    ensures netmask { (f : Family) (prefix_len i : ℕ) → prefix_len ≤ width f → i < width f
        → (bit (netmask_number f prefix_len) i ≡ 1) ↔ (width f - prefix_len ≤ i) }
    ensures hostmask { (f : Family) (prefix_len i : ℕ) → prefix_len ≤ width f → i < width f
        → (bit (hostmask_number f prefix_len) i ≡ 1) ↔ (i < width f - prefix_len) }
    ensures block { (n : Network) (x : Address) → IsNetwork n → IsAddress x → x.family ≡ n.family
        → InBlock n x ↔ ((i : ℕ) → i < width n.family → bit (netmask_number n.family n.prefix_len) i ≡ 1
        → bit x.number i ≡ bit n.number i) }
{}

/// A number is the netmask of at most one prefix length.
pub fn netmask_has_one_prefix_len()
    ensures { (f : Family) (number p q : ℕ) → IsNetmaskOf f number p → IsNetmaskOf f number q → p ≡ q }
{}

/// The order of networks is strict and total.
pub fn order_is_strict_and_total()
    ensures asymmetric { (n k : Network) → IsBefore n k → ¬ (IsBefore k n) }
    ensures transitive { (n k l : Network) → IsBefore n k → IsBefore k l → IsBefore n l }
    ensures total { (n k : Network) → (n ≡ k) ⊎ (IsBefore n k ⊎ IsBefore k n) }
{}

/// Truncated networks are ordered by family, then by the first address of their blocks, then by prefix length.
pub fn truncated_networks_are_ordered_by_first_address()
    ensures { (n k : Network) (a b : Address) → IsTruncated n → IsTruncated k → IsLeastOf n a → IsLeastOf k b
        → IsBefore n k ↔ ((family_index a.family < family_index b.family)
        ⊎ ((a.family ≡ b.family) × ((a.number < b.number) ⊎ ((a.number ≡ b.number) × (n.prefix_len < k.prefix_len))))) }
{}

/// At most one list contains the maximal blocks of a set under a minimum prefix length. The set is given by a boolean
/// test, by the list that covers it, or as a range.
pub fn one_list_of_maximal_blocks()
    ensures of_set { (test : Address → Bool) (m : ℕ) (a b : List Network)
        → AreMaximalBlocks (IsAcceptedBy test) m a → AreMaximalBlocks (IsAcceptedBy test) m b → a ≡ b }
    ensures of_cover { (networks : List Network) (m : ℕ) (a b : List Network)
        → AreMaximalBlocks (IsCoveredBy networks) m a → AreMaximalBlocks (IsCoveredBy networks) m b → a ≡ b }
    ensures of_range { (f : Family) (start end m : ℕ) (a b : List Network)
        → AreMaximalBlocks (IsBetween f start end) m a → AreMaximalBlocks (IsBetween f start end) m b → a ≡ b }
{}

/// Sets with the same addresses have the same maximal blocks. Membership in a range, and in the cover of a list, is
/// given by a boolean test.
pub fn same_set_has_same_maximal_blocks()
    ensures of_set { (test other : Address → Bool) (m : ℕ) (blocks : List Network)
        → ((x : Address) → IsAcceptedBy test x ↔ IsAcceptedBy other x)
        → AreMaximalBlocks (IsAcceptedBy test) m blocks ↔ AreMaximalBlocks (IsAcceptedBy other) m blocks }
    ensures cover_test { (networks : List Network)
        → (test : Address → Bool) × ((x : Address) → IsCoveredBy networks x ↔ IsAcceptedBy test x) }
    ensures range_test { (f : Family) (start end : ℕ)
        → (test : Address → Bool) × ((x : Address) → IsBetween f start end x ↔ IsAcceptedBy test x) }
{}

/// No exact cover of a set under a minimum prefix length has fewer members than the set has maximal blocks. An exact
/// cover with the same number of members consists of those blocks, except for host bits and order.
pub fn no_cover_is_shorter()
    ensures shortest { (test : Address → Bool) (m : ℕ) (blocks cover : List Network)
        → AreMaximalBlocks (IsAcceptedBy test) m blocks → IsExactCover (IsAcceptedBy test) m cover
        → length blocks ≤ length cover }
    ensures only { (test : Address → Bool) (m : ℕ) (blocks cover : List Network)
        → AreMaximalBlocks (IsAcceptedBy test) m blocks → IsExactCover (IsAcceptedBy test) m cover
        → length cover ≡ length blocks → IsPermutation (map truncation cover) blocks }
{}

/// A list meets the four conditions on neighbours if and only if it is its own aggregate.
pub fn neighbours_show_an_aggregate()
    ensures { (networks : List Network) → All IsNetwork networks
        → AreAggregatedNeighbours networks ↔ IsAggregateOf networks networks }
{}

/// An aggregate of a list of networks has all the properties that `IsCanonicalAggregateOf` lists:
///
/// - it covers the same addresses;
/// - no list that covers them is shorter, and one of the same length differs only in host bits and order;
/// - it is not longer than the list;
/// - the list has no other aggregate;
/// - it is the aggregate of exactly the lists that cover the same addresses, so order, repeats and host bits do not
///   matter;
/// - it is its own aggregate.
///
/// Its networks share no address, whatever the list.
pub fn aggregate_is_canonical()
    ensures canonical { (networks answer : List Network) → All IsNetwork networks → IsAggregateOf answer networks
        → IsCanonicalAggregateOf answer networks }
    ensures disjoint { (networks answer : List Network) → IsAggregateOf answer networks → ArePairwiseDisjoint answer }
{}

/// Two lists have equal aggregates if and only if they cover the same addresses. `IsCanonicalAggregateOf` says this of
/// one aggregate and its lists; this law compares two aggregates.
pub fn equal_aggregates_are_equal_covers()
    ensures { (networks others answer other : List Network) → All IsNetwork networks → All IsNetwork others
        → IsAggregateOf answer networks → IsAggregateOf other others
        → (answer ≡ other) ↔ HaveSameCover networks others }
{}

/// Order, repeats and host bits of a list do not change its aggregate: lists with the same truncated members have the
/// same aggregate. `IsCanonicalAggregateOf` says this of the aggregate of one list of networks; this law says it of
/// any two lists, in both directions.
pub fn order_repeats_and_host_bits_do_not_matter()
    ensures { (networks others answer : List Network)
        → ((n : Network) → Contains (map truncation networks) n ↔ Contains (map truncation others) n)
        → IsAggregateOf answer networks ↔ IsAggregateOf answer others }
{}

/// The empty list covers nothing. A list with one more network also covers that network's block. Two concatenated
/// lists cover the addresses that either list covers.
pub fn cover_is_a_union()
    ensures empty { (x : Address) → ¬ (IsCoveredBy [] x) }
    ensures in_front { (n : Network) (networks : List Network) (x : Address)
        → IsCoveredBy (n ∷ networks) x ↔ (InBlock n x ⊎ IsCoveredBy networks x) }
    ensures at_end { (networks : List Network) (n : Network) (x : Address)
        → IsCoveredBy (networks ++ n ∷ []) x ↔ (IsCoveredBy networks x ⊎ InBlock n x) }
    ensures joined { (networks others : List Network) (x : Address)
        → IsCoveredBy (networks ++ others) x ↔ (IsCoveredBy networks x ⊎ IsCoveredBy others x) }
{}

/// The aggregate of two concatenated aggregates is the aggregate of both lists. So a long list may be split, its parts
/// aggregated separately, and the results aggregated again.
pub fn aggregates_can_be_aggregated()
    ensures { (networks others first second answer : List Network) → All IsNetwork networks → All IsNetwork others
        → IsAggregateOf first networks → IsAggregateOf second others
        → IsAggregateOf answer (first ++ second) ↔ IsAggregateOf answer (networks ++ others) }
{}

/// If one set comes before another and is not adjacent to it, the maximal blocks of their union are the blocks of the
/// first followed by the blocks of the second. The aggregates of two lists that cover such sets append in the same
/// way.
pub fn separated_blocks_append()
    ensures of_sets { (first second : Address → Bool) (m : ℕ) (networks others : List Network)
        → AreSeparated (IsAcceptedBy first) (IsAcceptedBy second)
        → AreMaximalBlocks (IsAcceptedBy first) m networks → AreMaximalBlocks (IsAcceptedBy second) m others
        → AreMaximalBlocks (IsInEither (IsAcceptedBy first) (IsAcceptedBy second)) m (networks ++ others) }
    ensures of_lists { (networks others first second : List Network)
        → AreSeparated (IsCoveredBy networks) (IsCoveredBy others)
        → IsAggregateOf first networks → IsAggregateOf second others
        → IsAggregateOf (first ++ second) (networks ++ others) }
{}

/// Ascending networks, each maximal in a set, that cover the set are all its maximal blocks.
pub fn covering_blocks_are_all()
    ensures { (test : Address → Bool) (m : ℕ) (networks : List Network)
        → IsAscending networks → All (IsMaximal (IsAcceptedBy test) m) networks
        → ((x : Address) → IsAcceptedBy test x → IsCoveredBy networks x)
        → AreMaximalBlocks (IsAcceptedBy test) m networks }
{}

/// Four steps keep a list's cover: truncating its networks; sorting it; dropping a network that lies in another member;
/// replacing two halves by their supernet.
pub fn cover_is_kept()
    ensures truncated { (networks : List Network) → HaveSameCover (map truncation networks) networks }
    ensures sorted { (networks sorted : List Network) → IsPermutation networks sorted → HaveSameCover sorted networks }
    ensures nested { (n k : Network) (networks : List Network) → Contains networks k → IsSubnetOf n k
        → HaveSameCover (n ∷ networks) networks }
    ensures joined { (s n k : Network) (networks : List Network) → IsNetwork n → IsSupernetOf s n → AreHalves n k
        → HaveSameCover (n ∷ k ∷ networks) (s ∷ networks) }
{}

/// From every start within a range there is a largest subnet. It is a maximal block of the range, and comes before the
/// maximal blocks of the rest of the range, which starts after its last address.
pub fn largest_subnet_is_the_next_block()
    ensures exists { (f : Family) (start end m : ℕ) → start ≤ end → end < 2 ^ width f → m ≤ width f
        → (n : Network) × IsLargestSubnetAt f start end m n }
    ensures maximal { (f : Family) (start end m : ℕ) (n : Network) → IsLargestSubnetAt f start end m n
        → IsMaximal (IsBetween f start end) m n }
    ensures in_front { (f : Family) (start end m : ℕ) (n : Network) (last : Address) (rest : List Network)
        → IsLargestSubnetAt f start end m n → IsGreatestOf n last
        → AreMaximalBlocks (IsBetween f (last.number + 1) end) m rest
        → AreMaximalBlocks (IsBetween f start end) m (n ∷ rest) }
{}

/// Every range has maximal blocks. They are the shortest list that covers the range, and no two of them share an
/// address.
pub fn range_is_tiled()
    ensures exists { (f : Family) (start end m : ℕ) → end < 2 ^ width f → m ≤ width f
        → (networks : List Network) × AreMaximalBlocks (IsBetween f start end) m networks }
    ensures shortest { (f : Family) (start end m : ℕ) (networks : List Network) → end < 2 ^ width f → m ≤ width f
        → AreMaximalBlocks (IsBetween f start end) m networks
        → IsShortestCover (IsBetween f start end) m networks }
    ensures apart { (f : Family) (start end m : ℕ) (networks : List Network)
        → AreMaximalBlocks (IsBetween f start end) m networks → ArePairwiseDisjoint networks }
{}

/// Under minimum prefix length 0 the number of maximal blocks of a range is at most twice the width minus two: 62 for
/// IPv4, 254 for IPv6.
pub fn range_has_few_blocks()
    ensures { (f : Family) (start end : ℕ) (networks : List Network) → end < 2 ^ width f
        → AreMaximalBlocks (IsBetween f start end) 0 networks → length networks ≤ 2 * width f - 2 }
{}
