//! Facts about the best fit and about all pools. Each is the contract of a function that computes nothing.
ghost use Rattle.std.specs.Prelude.{◌≡◌, ◌≢◌, ◌↔◌, ℕ, List, ◌∷◌, map, All};
ghost use Rattle.ipnet_base.specs.Address.{Family, Address};
ghost use Rattle.ipnet_base.specs.Network.{Network, InBlock, AreDisjoint};
ghost use Rattle.ipnet_base.specs.Blocks.{IsInside, IsMaximal, ArePairwiseDisjoint};
ghost use Rattle.ipnet_sets.specs.declared.set.IpSet.{IpSet};
ghost use Rattle.ipnet_sets.specs.Members.{IsMember};
ghost use Rattle.ipnet_pools.specs.Fits.{IsFit, HasRoom, Without, IsBestFit};
ghost use Rattle.ipnet_pools.specs.Placements.{Request, request_of, CanPlace};
ghost use Rattle.ipnet_pools.specs.PoolOf.{IsOfPool, IsFree, IsLeased, IsTaken, IsReleased, IsSamePool};
ghost use Rattle.ipnet_pools.specs.declared.pool.IpPool.{IpPool};

/// The best fit is optimal: if some choice for the first request leaves room for the other requests, then the best fit
/// leaves room for them too.
pub fn best_fit_keeps_placements()
    ensures { (s : IpSet) (f : Family) (p : ℕ) (n : Network) (requests : List Request)
        → IsBestFit (IsMember s) f p n → CanPlace (IsMember s) ((f, p) ∷ requests)
        → CanPlace (Without (IsMember s) n) requests }
{}

/// Any request that fits after some network of the length is taken also fits after the best fit is taken.
pub fn best_fit_keeps_room()
    ensures { (s : IpSet) (f : Family) (p : ℕ) (n m : Network) (g : Family) (q : ℕ) → IsBestFit (IsMember s) f p n
        → IsFit (IsMember s) f p m → HasRoom (Without (IsMember s) m) g q → HasRoom (Without (IsMember s) n) g q }
{}

/// Every maximal block except the one that contains the best fit stays maximal.
pub fn other_blocks_stay()
    ensures { (s : IpSet) (f : Family) (p : ℕ) (n k : Network) (best : IsBestFit (IsMember s) f p n)
        → IsMaximal (IsMember s) 0 k → k ≢ best.block → IsMaximal (Without (IsMember s) n) 0 k }
{}

/// Networks in a set that share no address are a placement of their families and lengths, in any order.
pub fn disjoint_networks_are_a_placement()
    ensures { (s : IpSet) (networks : List Network) → All (IsInside (IsMember s) 0) networks
        → ArePairwiseDisjoint networks → CanPlace (IsMember s) (map request_of networks) }
{}

/// If a network is taken and then released, the pool is as it was before.
pub fn taken_and_released<V>()
    ensures { (a b c : IpPool V) (n : Network) (v w : V) → IsTaken a b n v → IsReleased b c n w → IsSamePool a c }
{}

/// In every pool the leases lie in the pool, no two leases share an address, and the free addresses are the pool's
/// addresses that are in no lease.
pub fn leases_and_free_addresses<V>()
    ensures inside { (pool : IpPool V) (n : Network) (v : V) → IsLeased pool n v → (x : Address) → InBlock n x
        → IsOfPool pool x }
    ensures disjoint { (pool : IpPool V) (n m : Network) (v w : V) → IsLeased pool n v → IsLeased pool m w → n ≢ m
        → AreDisjoint n m }
    ensures free { (pool : IpPool V) (x : Address) → IsFree pool x
        ↔ (IsOfPool pool x × ((n : Network) (v : V) → IsLeased pool n v → ¬ (InBlock n x))) }
{}
