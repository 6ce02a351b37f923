//! The laws of all tables of routes: functions with nothing to run, whose contracts are the laws.
ghost use Rattle.std.specs.Prelude.{◌≡◌, ℕ, ◌^◌, ◌<◌, ◌↔◌, ◌∷◌, List, All, Contains, IsTrue};
ghost use Rattle.ipnet_base.specs.Address.{Address};
ghost use Rattle.ipnet_base.specs.Blocks.{IsAscending};
ghost use Rattle.ipnet_base.specs.Network.{IsNetwork, IsTruncated};
ghost use Rattle.ipnet_routes.specs.Routes.{Route, networks_of, IsLongestMatch, AreMatches};
ghost use Rattle.ipnet_routes.specs.RouteValues.{AreClones, AreEqual};
ghost use Rattle.ipnet_routes.specs.RoutesOf.{routes_of};
ghost use Rattle.ipnet_routes.specs.TableImages.{IsTableImageOf};
ghost use Rattle.ipnet_routes.specs.declared.routes.RouteTable.{RouteTable};

use super::RouteTable;

/// A table has at most one longest match for an address.
pub fn one_longest_match<V>()
    ensures { (table : RouteTable V) (x : Address) (r s : Route V)
        → IsLongestMatch (routes_of table) x r → IsLongestMatch (routes_of table) x s → r ≡ s }
{}

/// The networks of a table ascend and have no host bits, and each has one value.
pub fn table_is_in_order<V>(table: &RouteTable<V>)
    ensures ascending { IsAscending (networks_of (routes_of table.now)) }
    ensures networks { All IsNetwork (networks_of (routes_of table.now)) }
    ensures truncated { All IsTruncated (networks_of (routes_of table.now)) }
    ensures one_value { (r s : Route V) → Contains (routes_of table.now) r → Contains (routes_of table.now) s
        → r.0 ≡ s.0 → r ≡ s }
{}

/// The first of the matches of an address is its longest match.
pub fn the_first_match_is_the_longest<V>()
    ensures { (routes : List (Route V)) (x : Address) (first : Route V) (others : List (Route V))
        → AreMatches routes x (first ∷ others) → IsLongestMatch routes x first }
{}

/// Tables are equal if and only if they have the same networks, each with equal values. A table is a clone of another
/// if and only if it has the same networks, each with a clone of its value.
pub fn tables_follow_routes<V: PartialEq + Clone>()
    ensures equality { (t u : RouteTable V) → IsTrue (⟦<RouteTable<V> as PartialEq>⟧.eq t u)
        ↔ AreEqual V.eq (routes_of t) (routes_of u) }
    ensures clone { (t u : RouteTable V) → ⟦<RouteTable<V> as Clone>⟧.is_clone t u
        ↔ AreClones V.is_clone (routes_of t) (routes_of u) }
{}

/// Each table whose values are numbers has at most one image, and bytes are the image of at most one table. A table of
/// 2^32 routes or more has none.
pub fn a_table_has_one_image()
    ensures image { (routes : List (Route ℕ)) (a b : List ℕ) → All (λ byte. byte < 2 ^ 8) a
        → All (λ byte. byte < 2 ^ 8) b → IsTableImageOf a routes → IsTableImageOf b routes → a ≡ b }
    ensures table { (bytes : List ℕ) (r s : List (Route ℕ)) → IsTableImageOf bytes r → IsTableImageOf bytes s → r ≡ s }
{}
