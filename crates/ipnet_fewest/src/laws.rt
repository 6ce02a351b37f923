//! The laws of shortest tables: functions with nothing to run, whose contracts are the laws.
ghost use Rattle.std.specs.Prelude.{◌≡◌, ℕ, List, All, length};
ghost use Rattle.ipnet_base.specs.Network.{IsNetwork};
ghost use Rattle.ipnet_routes.specs.Routes.{Route, networks_of};
ghost use Rattle.ipnet_routes.specs.RoutesOf.{routes_of};
ghost use Rattle.ipnet_fewest.specs.Shortest.{AreEqualBy, RouteAlike, IsShortest};

use ipnet_routes::RouteTable;
use ipnet_routes::routes::laws::table_is_in_order;

/// That values compare as equal is an equivalence, for each type of values.
pub fn equality_of_values<V: Ord>()
    ensures reflexive { (v : V) → AreEqualBy V.cmp v v }
    ensures symmetric { (v w : V) → AreEqualBy V.cmp v w → AreEqualBy V.cmp w v }
    ensures transitive { (u v w : V) → AreEqualBy V.cmp u v → AreEqualBy V.cmp v w → AreEqualBy V.cmp u w }
{}

/// A shortest list of a shortest list is as long. Lists that route alike have shortest lists of one length.
pub fn shortest_lists_have_one_length<V: Ord>()
    ensures again { (given shortest again : List (Route V))
        → All IsNetwork (networks_of shortest) → All IsNetwork (networks_of again)
        → IsShortest (AreEqualBy V.cmp) given shortest → IsShortest (AreEqualBy V.cmp) shortest again
        → length again ≡ length shortest }
    ensures alike { (given other shortest least : List (Route V))
        → All IsNetwork (networks_of shortest) → All IsNetwork (networks_of least)
        → RouteAlike (AreEqualBy V.cmp) given other → IsShortest (AreEqualBy V.cmp) given shortest
        → IsShortest (AreEqualBy V.cmp) other least → length least ≡ length shortest }
{}

/// The second table has as many routes as the first, if the first is shortest, and the second is a shortest table of
/// the first or of routes that route alike.
pub fn shortest_tables_have_one_length<V: Ord>(shortest: &RouteTable<V>, other: &RouteTable<V>)
    ensures again { (given : List (Route V))
        → IsShortest (AreEqualBy V.cmp) given (routes_of shortest.now)
        → IsShortest (AreEqualBy V.cmp) (routes_of shortest.now) (routes_of other.now)
        → length (routes_of other.now) ≡ length (routes_of shortest.now) }
    ensures alike { (given routes : List (Route V)) → RouteAlike (AreEqualBy V.cmp) given routes
        → IsShortest (AreEqualBy V.cmp) given (routes_of shortest.now)
        → IsShortest (AreEqualBy V.cmp) routes (routes_of other.now)
        → length (routes_of other.now) ≡ length (routes_of shortest.now) }
{
    table_is_in_order(shortest);
    table_is_in_order(other);
}
