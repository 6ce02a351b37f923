//! The index of a map of routes: numbers of the routes, by which a search proposes a place. A search is right whatever
//! the index says; the index makes it short.
ghost use Rattle.std.specs.Prelude.{◌<◌};

use super::chunks::{Chunk, Hint, Place};
use crate::routes::index::Bucket;
use ipnet::IpNet;
use std::alloc::{AllocError, Global};

/// A map with this many chunks or more has an index.
const INDEXED: usize = 32;

/// The number that is added for IPv6 networks, so that their numbers are above those of IPv4 networks.
const IPV6_NUMBERS: u64 = 4_294_967_296;

/// How many buckets of chunks there are: 2^12 of IPv4 and 2^12 of IPv6.
const BUCKETS: usize = 8_192;

/// For each bucket the index of the first chunk that begins in it or a later one, and then the number of chunks; for
/// each chunk the long number of its first route, and the short number of each of its routes. Without an index the
/// lists are empty.
#[derive(Drop)]
pub(crate) struct ChunkIndex {
    alloc: Global,
    starts: Vec<u32>,
    firsts: Vec<u64>,
    numbers: Vec<Vec<u32>>,
}

/// Returns a number that is in the order of networks: the number of an IPv4 network; more than these numbers, and
/// the first 63 bits, for an IPv6 network.
fn long_number(network: &IpNet) -> u64 {
    match network {
        IpNet::V4(network) => u64::from(network.addr().to_bits()),
        IpNet::V6(network) => {
            let first = u64::try_from(network.addr().to_bits() >> 65).unwrap_or(u64::MAX);
            first.saturating_add(IPV6_NUMBERS)
        }
    }
}

/// Returns a number that is in the order of the networks of one family: the number of an IPv4 network; the 32 bits
/// after the first three for an IPv6 network in 2000::/3.
fn short_number(network: &IpNet) -> u32 {
    match network {
        IpNet::V4(network) => network.addr().to_bits(),
        IpNet::V6(network) => {
            let first = u64::try_from(network.addr().to_bits() >> 93).unwrap_or(u64::MAX);
            u32::try_from(first.saturating_sub(IPV6_NUMBERS)).unwrap_or(u32::MAX)
        }
    }
}

/// The bucket of a long number: its first 12 bits for IPv4; the 12 bits after the first three for IPv6 within 2000::/3,
/// and the first or the last bucket of IPv6 for other numbers.
fn bucket_of(number: u64) -> usize
    ensures { result < 8192 }
{
    if number < IPV6_NUMBERS {
        return ((number >> 20) as usize).min(4_095);
    }
    ((number.saturating_sub(IPV6_NUMBERS) >> 48) as usize)
        .min(8_191)
        .max(4_096)
}

/// An index of a chunk, in four bytes; the greatest number if it does not fit.
fn small(index: usize) -> u32 {
    u32::try_from(index).unwrap_or(u32::MAX)
}

/// Returns the short numbers of the routes.
fn numbers_of<V>(alloc: Global, routes: &[(IpNet, V)]) -> Result<Vec<u32>, AllocError> {
    let mut numbers = Vec::with_capacity(alloc, routes.len())?;
    for index in 0..routes.len() {
        numbers.push(short_number(&routes[index].0))?;
    }
    Ok(numbers)
}

impl ChunkIndex {
    /// Returns an index without numbers. Allocates nothing.
    pub(crate) fn new(alloc: Global) -> ChunkIndex {
        ChunkIndex {
            alloc,
            starts: Vec::new(alloc),
            firsts: Vec::new(alloc),
            numbers: Vec::new(alloc),
        }
    }

    /// Makes the index of the chunks anew; if there are few, or memory runs out, it has no numbers.
    pub(crate) fn fill<V>(&mut self, chunks: &[Chunk<V>]) {
        self.clear();
        if chunks.len() >= INDEXED && self.add_all(chunks).is_err() {
            self.clear();
        }
    }

    /// Removes all numbers.
    fn clear(&mut self) {
        self.starts.clear();
        self.firsts.clear();
        self.numbers.clear();
    }

    /// Adds the numbers of all chunks, in their order.
    fn add_all<V>(&mut self, chunks: &[Chunk<V>]) -> Result<(), AllocError> {
        self.starts.reserve(BUCKETS + 1)?;
        self.firsts.reserve(chunks.len())?;
        self.numbers.reserve(chunks.len())?;
        for index in 0..chunks.len() {
            let routes = chunks[index].as_slice();
            let first = first_number(routes);
            self.numbers.push(numbers_of(self.alloc, routes)?)?;
            self.firsts.push(first)?;
            let bucket = bucket_of(first);
            if self.starts.len() <= bucket && bucket < BUCKETS {
                self.starts.resize(bucket + 1, small(index))?;
            }
        }
        self.starts.resize(BUCKETS + 1, small(chunks.len()))?;
        Ok(())
    }

    /// The number of chunks that begin with this number or a lower one.
    fn chunks_up_to(&self, number: u64) -> usize {
        let bucket = bucket_of(number);
        if self.starts.len() <= bucket + 1 {
            return 0;
        }
        let start = self.starts[bucket] as usize;
        let end = self.starts[bucket + 1] as usize;
        let Some(firsts) = self.firsts.get(start..end) else {
            return 0;
        };
        start.saturating_add(firsts.partition_point(|first| *first <= number))
    }

    /// Returns the place at which a search for the network begins.
    pub(crate) fn hint(&self, network: &IpNet) -> Hint {
        let chunk = self.chunks_up_to(long_number(network)).saturating_sub(1);
        let Some(numbers) = self.numbers.get(chunk) else {
            return Hint {
                chunk,
                bucket: Bucket { start: 0, end: 0 },
            };
        };
        let number = short_number(network);
        let end = numbers.partition_point(|other| *other <= number);
        if network.prefix_len() == network.max_prefix_len() {
            let bucket = Bucket { start: end, end };
            return Hint { chunk, bucket };
        }
        let start = numbers.partition_point(|other| *other < number);
        Hint {
            chunk,
            bucket: Bucket { start, end },
        }
    }

    /// Follows a route that was put in at a place, with this many chunks before.
    pub(crate) fn follow_put<V>(&mut self, chunks: &[Chunk<V>], count: usize, place: Place) {
        if self.firsts.is_empty() {
            self.fill(chunks);
            return;
        }
        let followed = if chunks.len() == count {
            self.put(chunks, place)
        } else {
            self.divide(chunks, place.chunk)
        };
        if followed.is_err() {
            self.clear();
        }
    }

    /// Follows a route that was taken out before a place, with this many chunks before.
    pub(crate) fn follow_take<V>(&mut self, chunks: &[Chunk<V>], count: usize, place: Place) {
        if chunks.len() != count {
            if place.chunk < self.firsts.len() {
                let first = self.firsts.remove(place.chunk);
                self.shift(bucket_of(first), BUCKETS, false);
            }
            if place.chunk < self.numbers.len() {
                self.numbers.remove(place.chunk);
            }
            return;
        }
        if let Some(numbers) = self.numbers.get_mut(place.chunk)
            && 0 < place.index
            && place.index <= numbers.len()
        {
            numbers.remove(place.index - 1);
        }
        self.set_first(chunks, place.chunk);
    }

    /// Puts the number of the route at a place into the numbers of its chunk.
    fn put<V>(&mut self, chunks: &[Chunk<V>], place: Place) -> Result<(), AllocError> {
        self.set_first(chunks, place.chunk);
        let Some(chunk) = chunks.get(place.chunk) else {
            return Ok(());
        };
        let Some(route) = chunk.get(place.index) else {
            return Ok(());
        };
        let Some(numbers) = self.numbers.get_mut(place.chunk) else {
            return Ok(());
        };
        if place.index > numbers.len() {
            return Err(AllocError);
        }
        numbers.insert(place.index, short_number(&route.0))?;
        Ok(())
    }

    /// Sets the number of the first route of a chunk.
    fn set_first<V>(&mut self, chunks: &[Chunk<V>], chunk: usize) {
        if chunk >= chunks.len() || chunk >= self.firsts.len() {
            return;
        }
        let first = first_number(chunks[chunk].as_slice());
        let old = bucket_of(self.firsts[chunk]);
        let new = bucket_of(first);
        self.firsts[chunk] = first;
        if old < new {
            self.shift(old, new, false);
        } else if new < old {
            self.shift(new, old, true);
        }
    }

    /// Makes the numbers of a chunk and of the next one, which was divided from it.
    fn divide<V>(&mut self, chunks: &[Chunk<V>], chunk: usize) -> Result<(), AllocError> {
        let next = chunk.saturating_add(1);
        if next >= chunks.len() || next > self.firsts.len() || next > self.numbers.len() {
            return Err(AllocError);
        }
        self.numbers[chunk] = numbers_of(self.alloc, chunks[chunk].as_slice())?;
        let numbers = numbers_of(self.alloc, chunks[next].as_slice())?;
        self.numbers.insert(next, numbers)?;
        let first = first_number(chunks[next].as_slice());
        self.firsts.insert(next, first)?;
        self.shift(bucket_of(first), BUCKETS, true);
        self.set_first(chunks, chunk);
        Ok(())
    }

    /// Adds one to the starts of the buckets after the first up to the last, or subtracts one.
    fn shift(&mut self, first: usize, last: usize, is_added: bool) {
        let end = last.min(self.starts.len().saturating_sub(1));
        for index in first.saturating_add(1)..end.saturating_add(1) {
            if index < self.starts.len() {
                let chunk = self.starts[index];
                self.starts[index] = if is_added {
                    chunk.wrapping_add(1)
                } else {
                    chunk.wrapping_sub(1)
                };
            }
        }
    }
}

/// The long number of the first route; 0 without a route.
fn first_number<V>(routes: &[(IpNet, V)]) -> u64 {
    match routes.first() {
        Some(route) => long_number(&route.0),
        None => 0,
    }
}
