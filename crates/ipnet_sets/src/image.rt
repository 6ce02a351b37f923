//! Images of sets: the bytes of a set, which a caller can store, send and map, and which can be asked in place.
//!
//! The format is in `specs/Images`: a header of 32 bytes, then the boundaries of each family, all little-endian. Each
//! set has exactly one image, so sets are equal if and only if their images are equal bytes.
ghost use Rattle.std.specs.Prelude.{◌≡◌, ℕ, ◌+◌, ◌*◌, ◌<◌, ◌↔◌, IsTrue, IfOk, MatchResult};
ghost use Rattle.std.specs.Prelude.{false, slice_index, slice_index_or};
ghost use Rattle.ipnet_base.specs.Address.{Address, IPv4, IPv6, ip_address, address_at};
ghost use Rattle.ipnet_base.specs.Network.{InBlock};
ghost use Rattle.ipnet.specs.NetworkOf.{ip_network};
ghost use Rattle.ipnet_sets.specs.Members.{IsMember, IsFromTo};
ghost use Rattle.ipnet_sets.specs.Images.{stated_count, HasHeader, IsImage, IsImageOf, IsRefusal};

mod in_step;
pub(crate) mod stored;

use crate::set::IpSet;
use ipnet::{IpAddr, IpNet};
use std::alloc::{AllocError, Global};
use std::fmt;
use stored::Place;

/// Why bytes are not the image of a set. The reasons are tested in this order.
#[derive(Clone, Copy, Debug, PartialEq, Eq)]
pub enum ImageError {
    /// There are fewer than the 32 bytes of the header.
    TooShort,
    /// The bytes do not begin with `ipnetset`.
    Magic,
    /// The version is not 1.
    Version,
    /// The number of bytes is not the number that the header states.
    Length,
    /// The numbers of a family do not ascend.
    NotAscending,
    /// Memory ran out. The bytes are the image of a set.
    Memory,
}

impl fmt::Display for ImageError {
    fn fmt<W: fmt::Write>(&self, f: &mut fmt::Formatter<W>) -> fmt::Result {
        f.write_str(match self {
            ImageError::TooShort => "fewer than 32 bytes",
            ImageError::Magic => "not the image of a set",
            ImageError::Version => "unknown version of the image of a set",
            ImageError::Length => "wrong length of the image of a set",
            ImageError::NotAscending => "numbers in the image of a set do not ascend",
            ImageError::Memory => "out of memory",
        })
    }
}

const MAGIC: u64 = 0x7465_7374_656e_7069;

const VERSION: u64 = 1;

/// Bytes that begin with the header of an image and have the length that it states. Whether the numbers ascend is not
/// tested, so making the value takes constant time; `IpSetRef` tests all.
///
/// Whatever the bytes are, each call ends and reads only them. If they are the image of a set, the result is the set's.
#[derive(Clone, Copy)]
pub struct IpSetImage<'a> {
    bytes: &'a [u8],
    ipv4: usize,
    ipv6: usize,
    ghost header: { HasHeader bytes.now },
    ghost ipv4_stated: { ipv4 ≡ stated_count bytes.now IPv4 },
    ghost ipv6_stated: { ipv6 ≡ stated_count bytes.now IPv6 },
}

impl<'a> IpSetImage<'a> {
    /// Returns the bytes as an image if their header is one, in constant time; the error is never `NotAscending` or
    /// `Memory`. Allocates nothing.
    ///
    /// ```text
    /// of 31 bytes: Err(TooShort); of the image of 10.0.0.0/30 without its last byte: Err(Length)
    /// ```
    pub fn from_header(bytes: &'a [u8]) -> Result<IpSetImage<'a>, ImageError>
        ensures { MatchResult result (λ image. image.bytes.now ≡ bytes.now)
            (λ error. IsRefusal error bytes.now × ¬ (HasHeader bytes.now)) }
    {
        if bytes.len() < 32 {
            return Err(ImageError::TooShort);
        }
        if stored::read_u64(bytes, 0) != MAGIC {
            return Err(ImageError::Magic);
        }
        if stored::read_u64(bytes, 8) != VERSION {
            return Err(ImageError::Version);
        }
        let ipv4 = stored::read_u64(bytes, 16) as usize;
        let ipv6 = stored::read_u64(bytes, 24) as usize;
        let left = bytes.len() - 32;
        if ipv6 > left / 16 || left % 4 != 0 || ipv4 != (left - ipv6 * 16) / 4 {
            return Err(ImageError::Length);
        }
        Ok(IpSetImage { bytes, ipv4, ipv6 })
    }

    /// Returns the place of the IPv4 numbers.
    fn ipv4_place(&self) -> Place
        ensures start { result.start ≡ 32 + stated_count self.now.bytes.now IPv6 * 16 }
        ensures count { result.count ≡ stated_count self.now.bytes.now IPv4 }
    {
        Place {
            start: 32 + self.ipv6 * 16,
            count: self.ipv4,
        }
    }

    /// Returns the place of the IPv6 numbers.
    fn ipv6_place(&self) -> Place
        ensures start { result.start ≡ 32 }
        ensures count { result.count ≡ stated_count self.now.bytes.now IPv6 }
    {
        Place {
            start: 32,
            count: self.ipv6,
        }
    }

    /// Returns whether the address is in the set. Allocates nothing; the time grows with the logarithm of the number of
    /// ranges.
    ///
    /// ```text
    /// the image of 10.0.0.0-10.0.0.5 contains 10.0.0.5, and neither 10.0.0.6 nor ::ffff:10.0.0.5
    /// ```
    pub fn contains(&self, ip: &IpAddr) -> bool
        ensures { (s : IpSet) → IsImageOf self.now.bytes.now s → IsTrue result ↔ IsMember s (ip_address ip.now) }
    {
        match ip {
            IpAddr::V4(ip) => stored::contains(self.bytes, self.ipv4_place(), ip.to_bits()),
            IpAddr::V6(ip) => stored::contains(self.bytes, self.ipv6_place(), ip.to_bits()),
        }
    }

    /// Returns for each of eight IPv4 addresses, given by their numbers, whether it is in the set. Allocates nothing.
    /// The searches go in step, so this takes less time than eight calls of `contains`.
    ///
    /// ```text
    /// of the image of 10.0.0.0/30 and eight times 0x0a000001: eight times true
    /// ```
    pub fn contains_eight(&self, numbers: &[u32; 8]) -> [bool; 8]
        ensures { (s : IpSet) → IsImageOf self.now.bytes.now s → (lane : ℕ) → lane < 8
            → IsTrue (slice_index_or result lane false) ↔ IsMember s (address_at IPv4 (slice_index numbers.now lane)) }
    {
        let turned = in_step::boundaries_up_to_eight(self.bytes, self.ipv4_place(), numbers);
        let mut inside = [false; 8];
        for lane in 0..8 {
            inside[lane] = turned[lane] % 2 == 1;
        }
        inside
    }

    /// Returns whether every address of the network's block is in the set. Allocates nothing; the time grows with the
    /// logarithm of the number of ranges.
    ///
    /// ```text
    /// the image of 10.0.0.0-10.0.0.5 covers 10.0.0.4/31, and does not cover 10.0.0.4/30
    /// ```
    pub fn covers(&self, network: &IpNet) -> bool
        ensures { (s : IpSet) → IsImageOf self.now.bytes.now s
            → IsTrue result ↔ ((x : Address) → InBlock (ip_network network.now) x → IsMember s x) }
    {
        self.covers_range(network.network(), network.broadcast())
    }

    /// Returns whether every address from the first to the last, both included, is in the set. Allocates nothing; the
    /// time grows with the logarithm of the number of ranges.
    ///
    /// If `start` is above `end`, or they are of different families, no address lies between them: the answer is true.
    ///
    /// ```text
    /// the image of 10.0.0.0-10.0.0.5 covers 10.0.0.3 to 10.0.0.5, and does not cover 10.0.0.3 to 10.0.0.6
    /// ```
    pub fn covers_range(&self, start: IpAddr, end: IpAddr) -> bool
        ensures { (s : IpSet) → IsImageOf self.now.bytes.now s → IsTrue result ↔ ((x : Address)
            → IsFromTo (ip_address start) (ip_address end) x → IsMember s x) }
    {
        match (start, end) {
            (IpAddr::V4(start), IpAddr::V4(end)) => {
                stored::covers(
                    self.bytes,
                    self.ipv4_place(),
                    start.to_bits(),
                    end.to_bits(),
                )
            }
            (IpAddr::V6(start), IpAddr::V6(end)) => {
                stored::covers(
                    self.bytes,
                    self.ipv6_place(),
                    start.to_bits(),
                    end.to_bits(),
                )
            }
            _ => true,
        }
    }

    /// Returns whether the stored numbers of both families ascend.
    fn is_checked(&self) -> bool
        ensures { IsTrue result ↔ IsImage self.now.bytes.now }
    {
        stored::are_boundaries::<u32>(self.bytes, self.ipv4_place())
            && stored::are_boundaries::<u128>(self.bytes, self.ipv6_place())
    }
}

/// The image of a set, tested whole: a set that lies in bytes. Allocates nothing.
#[derive(Clone, Copy)]
pub struct IpSetRef<'a> {
    image: IpSetImage<'a>,
    ghost image_of_a_set: { IsImage image.bytes.now },
}

impl<'a> IpSetRef<'a> {
    /// Returns the bytes as a set if they are the image of one; the error says why they are not, and is never `Memory`.
    /// Reads all bytes once, and allocates nothing.
    ///
    /// ```text
    /// of the image of 10.0.0.0/30 with its last two numbers exchanged: Err(NotAscending)
    /// ```
    pub fn from_bytes(bytes: &'a [u8]) -> Result<IpSetRef<'a>, ImageError>
        ensures { MatchResult result (λ set. set.image.bytes.now ≡ bytes.now)
            (λ error. IsRefusal error bytes.now × ¬ (IsImage bytes.now)) }
    {
        let image = IpSetImage::from_header(bytes)?;
        if !image.is_checked() {
            return Err(ImageError::NotAscending);
        }
        Ok(IpSetRef { image })
    }

    /// Returns whether the address is in the set, as `IpSet::contains` does.
    pub fn contains(&self, ip: &IpAddr) -> bool
        ensures { (s : IpSet) → IsImageOf self.now.image.bytes.now s → IsTrue result ↔ IsMember s (ip_address ip.now) }
    {
        self.image.contains(ip)
    }

    /// Returns whether every address of the network's block is in the set, as `IpSet::covers` does.
    pub fn covers(&self, network: &IpNet) -> bool
        ensures { (s : IpSet) → IsImageOf self.now.image.bytes.now s
            → IsTrue result ↔ ((x : Address) → InBlock (ip_network network.now) x → IsMember s x) }
    {
        self.image.covers(network)
    }

    /// Returns whether every address from the first to the last is in the set, as `IpSet::covers_range` does.
    pub fn covers_range(&self, start: IpAddr, end: IpAddr) -> bool
        ensures { (s : IpSet) → IsImageOf self.now.image.bytes.now s → IsTrue result ↔ ((x : Address)
            → IsFromTo (ip_address start) (ip_address end) x → IsMember s x) }
    {
        self.image.covers_range(start, end)
    }

    /// Returns the set, copied from the bytes. Fails only if memory runs out.
    pub fn to_set(&self, alloc: Global) -> Result<IpSet, AllocError>
        ensures { IfOk result (λ s. IsImageOf self.now.image.bytes.now s) }
    {
        let ipv4 = stored::read_all(alloc, self.image.bytes, self.image.ipv4_place())?;
        let ipv6 = stored::read_all(alloc, self.image.bytes, self.image.ipv6_place())?;
        Ok(IpSet { ipv4, ipv6 })
    }
}

impl IpSet {
    /// Returns the set of which the bytes are the image; the error says why they are the image of no set.
    ///
    /// ```text
    /// of the image of 10.0.0.0/30: Ok of the set of 10.0.0.0/30; of no byte: Err(TooShort)
    /// ```
    pub fn from_bytes(alloc: Global, bytes: &[u8]) -> Result<IpSet, ImageError>
        ensures { MatchResult result (λ s. IsImageOf bytes.now s) (λ error. IsRefusal error bytes.now) }
    {
        let image = IpSetRef::from_bytes(bytes)?;
        match image.to_set(alloc) {
            Ok(set) => Ok(set),
            Err(_) => Err(ImageError::Memory),
        }
    }

    /// Returns the image of the set: 32 bytes, 4 for each IPv4 boundary and 16 for each IPv6 boundary. A range has two
    /// boundaries, or one if it ends at the family's last address. Fails only if memory runs out.
    ///
    /// ```text
    /// of 10.0.0.0/30: 40 bytes, of which the last eight are 0, 0, 0, 10, 4, 0, 0, 10
    /// ```
    pub fn to_bytes(&self, alloc: Global) -> Result<Vec<u8>, AllocError>
        ensures { IfOk result (λ bytes. IsImageOf bytes.items self.now) }
    {
        let ipv4 = self.ipv4.as_slice();
        let ipv6 = self.ipv6.as_slice();
        let mut bytes = Vec::new(alloc);
        stored::append_u64(&mut bytes, MAGIC)?;
        stored::append_u64(&mut bytes, VERSION)?;
        stored::append_u64(&mut bytes, ipv4.len() as u64)?;
        stored::append_u64(&mut bytes, ipv6.len() as u64)?;
        stored::append_all(&mut bytes, ipv6)?;
        stored::append_all(&mut bytes, ipv4)?;
        Ok(bytes)
    }
}
