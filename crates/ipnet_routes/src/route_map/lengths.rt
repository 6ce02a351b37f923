//! The prefix lengths of the routes of a map, by regions of addresses: a search looks for no network of other lengths.
ghost use Rattle.std.specs.Prelude.{◌≡◌, ◌<◌, ◌≤◌, ℕ, List, IfSome, IfNone, length, get_or};
ghost use Rattle.std.specs.Int.{bit_at};
ghost use Rattle.ipnet_base.specs.Address.{ip_address};
ghost use Rattle.ipnet_base.specs.Network.{Network, InBlock};
ghost use Rattle.ipnet.specs.NetworkOf.{ip_network};
ghost use Rattle.ipnet_routes.specs.Routes.{ip_networks};
ghost use Rattle.ipnet_routes.specs.RouteMapSteps.{all_of};
ghost use Rattle.ipnet_routes.specs.RouteLengths.{region_of, HasLength, IsKnown, AreKnown};

use super::chunks::Chunk;
use ipnet::{IpAddr, IpNet};
use std::alloc::Global;

/// How many regions there are: 2^16 of IPv4 and 2^16 of IPv6.
const REGIONS: usize = 131_072;

/// A map with fewer routes has no lengths: each length is taken as one that a route may have.
const COUNTED: usize = 1_024;

/// For each `width` regions the prefix lengths of the routes that reach into it, as bits: length 127 is
/// the lowest bit. A length may stay after its route is gone.
#[derive(Drop)]
pub(crate) struct KnownLengths {
    masks: Vec<u128>,
    width: usize,
    added: usize,
    ghost some: { 0 < width },
}

/// The region of an address: its first 16 bits for IPv4; its first 19 bits for IPv6 within 2000::/3, and the first or
/// the last region of IPv6 for other addresses.
fn region(ip: IpAddr) -> usize
    ensures { result ≡ region_of (ip_address ip) }
{
    match ip {
        IpAddr::V4(ip) => (ip.to_bits() >> 16) as usize,
        IpAddr::V6(ip) => ((ip.to_bits() >> 109) as usize).min(131_071).max(65_536),
    }
}

/// The lengths with one more.
fn with_length(mask: u128, len: u8) -> u128
    requires { len < 128 }
    ensures keeps { (l : ℕ) → HasLength mask l → HasLength result l }
    ensures has { HasLength result len }
{
    mask | (1 << (127 - len))
}

/// The greatest of the lengths up to a limit.
fn longest_of(mask: u128, limit: u8) -> Option<u8>
    requires { limit < 128 }
    ensures some { IfSome result (λ longest. (longest ≤ limit)
        × ((l : ℕ) → HasLength mask l → l ≤ limit → l ≤ longest)) }
    ensures none { IfNone result ((l : ℕ) → HasLength mask l → l ≤ limit → ⊥) }
{
    let short = mask >> (127 - limit);
    if short == 0 {
        return None;
    }
    Some(limit.saturating_sub(short.trailing_zeros() as u8))
}

impl KnownLengths {
    /// Returns no lengths. Allocates nothing.
    pub(crate) fn new(alloc: Global) -> KnownLengths
        ensures { (networks : List Network) → AreKnown result.masks.items result.width networks }
    {
        KnownLengths {
            masks: Vec::new(alloc),
            width: 1,
            added: 0,
        }
    }

    /// Makes the lengths of the routes of the chunks anew; if there are few, or memory runs out, it has none.
    pub(crate) fn fill<V>(&mut self, chunks: &[Chunk<V>], count: usize)
        ensures { AreKnown self.new.masks.items self.new.width (ip_networks (all_of chunks.now)) }
    {
        self.masks.clear();
        self.added = 0;
        self.width = width_for(count);
        if count >= COUNTED && self.masks.resize(REGIONS / self.width + 1, 0).is_err() {
            self.masks.clear();
        }
        for index in 0..chunks.len() {
            self.add_all(chunks[index].as_slice());
        }
    }

    /// Adds the lengths of the routes.
    fn add_all<V>(&mut self, routes: &[(IpNet, V)])
        ensures keeps { (networks : List Network) → AreKnown self.old.masks.items self.old.width networks
            → AreKnown self.new.masks.items self.new.width networks }
        ensures known { AreKnown self.new.masks.items self.new.width (ip_networks routes.now) }
    {
        for index in 0..routes.len() {
            self.add(&routes[index].0);
        }
    }

    /// Adds the length of the network in each region that it reaches into.
    pub(crate) fn add(&mut self, network: &IpNet)
        ensures keeps { (networks : List Network) → AreKnown self.old.masks.items self.old.width networks
            → AreKnown self.new.masks.items self.new.width networks }
        ensures known { IsKnown self.new.masks.items self.new.width (ip_network network.now) }
    {
        let len = network.prefix_len();
        if len >= 128 {
            return;
        }
        let first = region(network.network()) / self.width;
        let last = region(network.broadcast()) / self.width;
        mark(&mut self.masks, first, last, len);
    }

    /// Counts a route that was added, and makes the lengths anew if as many were as half of all.
    pub(crate) fn count<V>(&mut self, chunks: &[Chunk<V>], count: usize)
        ensures { AreKnown self.old.masks.items self.old.width (ip_networks (all_of chunks.now))
            → AreKnown self.new.masks.items self.new.width (ip_networks (all_of chunks.now)) }
    {
        self.added = self.added.saturating_add(1);
        if self.added < COUNTED {
            return;
        }
        if self.added < count / 2 {
            return;
        }
        self.fill(chunks, count);
    }

    /// The greatest length up to a limit that a route may have that contains the address; `None` if no route of such a
    /// length contains it.
    pub(crate) fn longest_up_to(&self, ip: IpAddr, limit: u8) -> Option<u8>
        ensures some { IfSome result (λ longest. (longest ≤ limit)
            × ((k : Network) → IsKnown self.now.masks.items self.now.width k → InBlock k (ip_address ip)
            → k.prefix_len ≤ limit → k.prefix_len ≤ longest)) }
        ensures none { IfNone result ((k : Network) → IsKnown self.now.masks.items self.now.width k
            → InBlock k (ip_address ip) → k.prefix_len ≤ limit → ⊥) }
    {
        let region = region(ip) / self.width;
        if limit >= 128 {
            return Some(limit);
        }
        if region >= self.masks.len() {
            return Some(limit);
        }
        longest_of(self.masks[region], limit)
    }
}

/// Adds a length to the masks from the first to the last.
fn mark(masks: &mut Vec<u128>, first: usize, last: usize, len: u8)
    requires { len < 128 }
    ensures size { length masks.new.items ≡ length masks.old.items }
    ensures keeps { (i l : ℕ) → HasLength (get_or masks.old.items i 0) l → HasLength (get_or masks.new.items i 0) l }
    ensures has { (i : ℕ) → first ≤ i → i ≤ last → i < length masks.new.items
        → HasLength (get_or masks.new.items i 0) len }
{
    for index in first..masks.len() {
        if index > last {
            return;
        }
        masks[index] = with_length(masks[index], len);
    }
}

/// How many regions share a mask in a map of this many routes: there is a mask for four routes or so.
fn width_for(count: usize) -> usize
    ensures { 0 < result }
{
    (REGIONS / (count / 4).max(1)).max(1)
}
