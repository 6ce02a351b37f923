//! The routes whose networks contain an address, one after the other.
ghost use Rattle.std.specs.Prelude.{◌≤◌, length};
ghost use Rattle.std.specs.Iterator.{YieldsFirstBy, item_count};
ghost use Rattle.ipnet_routes.specs.Routes.{ip_networks, ip_route};
ghost use Rattle.ipnet_routes.specs.RouteSteps.{AreLinks};

use ipnet::IpNet;
use std::iter::FusedIterator;

/// The routes of a table whose networks contain an address, the longest first. Made by `RouteTable::matches`;
/// allocates nothing.
///
/// ```text
/// of 0.0.0.0/0, 10.0.0.0/8 and 10.1.0.0/16, for 10.2.0.1: 10.0.0.0/8, then 0.0.0.0/0, then None
/// ```
#[derive(Drop)]
pub struct RouteMatches<'a, V> {
    pub(crate) routes: &'a [(IpNet, V)],
    pub(crate) enclosing: &'a [usize],
    pub(crate) place: usize,
    ghost links: { AreLinks (ip_networks routes.now) enclosing.now },
    ghost within: { place ≤ length enclosing.now },
}

impl<'a, V> Iterator for RouteMatches<'a, V> {
    type Item = &'a (IpNet, V);

    ghost use Rattle.ipnet_routes.specs.MatchesLeft.{matches_left};

    ghost next_gives = { YieldsFirstBy ip_route matches_left };

    ghost remaining = { item_count matches_left };

    /// Returns the longest route that is left, or `None`, then and ever after, if none is.
    fn next(&mut self) -> Option<&'a (IpNet, V)> {
        if self.place == 0 {
            return None;
        }
        let index = self.place - 1;
        self.place = self.enclosing[index];
        Some(&self.routes[index])
    }
}

impl<V> FusedIterator for RouteMatches<'_, V> {}
