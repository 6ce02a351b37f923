//! The index of a table of routes: for the first bits of an address, the routes between which a search begins; and the
//! numbers of the IPv4 networks, among which an IPv4 address has its place.
ghost use Rattle.std.specs.Prelude.{◌<◌, ◌≤◌, IfSome};

use ipnet::IpNet;
use std::alloc::{AllocError, Global};

/// A table with this many routes or more has an index.
const INDEXED: usize = 4_096;

/// How many buckets an index has: 2^16 of IPv4 and 2^16 of IPv6.
const BUCKETS: usize = 131_072;

/// The place of the first number among the entries: after the starts of the buckets and the number of routes.
pub(crate) const NUMBERS: usize = 131_073;

/// Two indices of routes that a search looks at first. The search is right for any two; these make it short.
#[derive(Clone, Copy)]
pub(crate) struct Bucket {
    pub(crate) start: usize,
    pub(crate) end: usize,
}

/// For each bucket the index of the first route that is in it or a later one; then the number of routes; and then the
/// number of each IPv4 network. Without an index the list is empty.
#[derive(Clone, Drop)]
pub(crate) struct RouteIndex {
    entries: Vec<u32>,
}

/// The index of a route, in four bytes; the greatest number if it does not fit.
fn place(index: usize) -> u32 {
    u32::try_from(index).unwrap_or(u32::MAX)
}

/// The bucket of a network: its first 16 bits for IPv4, its first 19 bits for IPv6 within 2000::/3, else `None`.
///
/// ```text
/// 10.1.0.0/16 is in bucket 2561, 2000::/3 in 65536, 2001:db8::/32 in 65600; fe80::/10 is in none
/// ```
pub(crate) fn bucket_of(network: &IpNet) -> Option<usize>
    ensures { IfSome result (λ bucket. bucket < 131072) }
{
    match network {
        IpNet::V4(network) => {
            let octets = network.network().octets();
            Some(usize::from(octets[0]) * 256 + usize::from(octets[1]))
        }
        IpNet::V6(network) => {
            let octets = network.network().octets();
            if octets[0] < 32 || octets[0] >= 64 {
                return None;
            }
            Some(
                usize::from(octets[0]) * 2_048
                    + usize::from(octets[1]) * 8
                    + usize::from(octets[2]) / 32,
            )
        }
    }
}

/// How many of the routes are IPv4 routes.
fn ipv4_count<V>(routes: &[(IpNet, V)]) -> usize {
    let mut count: usize = 0;
    for index in 0..routes.len() {
        if matches!(&routes[index].0, IpNet::V4(_)) {
            count = index + 1;
        }
    }
    count
}

/// Returns the number that is next to look at in a search between `low` and `high`: beside the start or the end of the
/// bucket while these lie between them, then in the middle.
pub(crate) fn probe(low: usize, high: usize, bucket: Bucket) -> usize
    requires { low < high }
    ensures from { low ≤ result }
    ensures below { result < high }
{
    if low < bucket.start && bucket.start <= high {
        return bucket.start - 1;
    }
    if low <= bucket.end && bucket.end < high {
        return bucket.end;
    }
    low + (high - low) / 2
}

impl RouteIndex {
    /// Returns an index without buckets. Allocates nothing.
    pub(crate) fn new(alloc: Global) -> RouteIndex {
        RouteIndex {
            entries: Vec::new(alloc),
        }
    }

    /// Returns the index of the routes, which are in order; with fewer than 4,096 routes it allocates nothing.
    pub(crate) fn from_routes<V>(
        alloc: Global,
        routes: &[(IpNet, V)],
    ) -> Result<RouteIndex, AllocError> {
        if routes.len() < INDEXED {
            return Ok(RouteIndex::new(alloc));
        }
        let mut entries = Vec::with_capacity(alloc, ipv4_count(routes).saturating_add(NUMBERS))?;
        for index in 0..routes.len() {
            if let Some(bucket) = bucket_of(&routes[index].0)
                && entries.len() <= bucket
            {
                entries.resize(bucket + 1, place(index))?;
            }
        }
        entries.resize(BUCKETS + 1, place(routes.len()))?;
        for index in 0..routes.len() {
            if let IpNet::V4(network) = &routes[index].0 {
                entries.push(network.network().to_bits())?;
            }
        }
        Ok(RouteIndex { entries })
    }

    /// Returns the entries: the starts of the buckets, and then the numbers; none without an index.
    pub(crate) fn entries(&self) -> &[u32] {
        self.entries.as_slice()
    }

    /// Returns the start and the end of the network's bucket; 0 and `count` if the index has no bucket for it. If the
    /// network is one IPv4 address, both are its place.
    pub(crate) fn bucket(&self, network: &IpNet, count: usize) -> Bucket {
        let all = Bucket {
            start: 0,
            end: count,
        };
        let Some(bucket) = bucket_of(network) else {
            return all;
        };
        if self.entries.len() <= bucket + 1 {
            return all;
        }
        let bucket = Bucket {
            start: self.entries[bucket] as usize,
            end: self.entries[bucket + 1] as usize,
        };
        match network {
            IpNet::V4(network) if network.prefix_len() == 32 => {
                self.place_of(network.network().to_bits(), bucket)
            }
            _ => bucket,
        }
    }

    /// Returns the place in the bucket after the networks whose number is at most this one, as start and end; the
    /// bucket itself if the numbers do not reach to its end.
    fn place_of(&self, number: u32, bucket: Bucket) -> Bucket {
        let first = bucket.start.saturating_add(NUMBERS);
        let end = bucket.end.saturating_add(NUMBERS);
        let Some(numbers) = self.entries.get(first..end) else {
            return bucket;
        };
        let place = bucket.start + numbers.partition_point(|other| *other <= number);
        Bucket {
            start: place,
            end: place,
        }
    }
}
