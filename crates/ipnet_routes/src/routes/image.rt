//! Images of tables of routes whose values are numbers: the bytes of a table, which a caller can store, send and map,
//! and which can be asked in place.
//!
//! The format is in `specs/TableImages`: a header of 32 bytes, then the routes, then the index. Each table of fewer
//! than 2^32 routes has exactly one image.
ghost use Rattle.std.specs.Prelude.{◌≡◌, ℕ, ◌<◌, ◌↔◌, List, length, IsTrue, IsNone, IfSome, IsSomeAnd, IfOk};
ghost use Rattle.std.specs.Prelude.{MatchResult, Contains};
ghost use Rattle.ipnet_base.specs.Address.{ip_address};
ghost use Rattle.ipnet_base.specs.Network.{Network, IsNetwork, InBlock, IsSubnetOf};
ghost use Rattle.ipnet_base.specs.Blocks.{IsCoveredBy};
ghost use Rattle.ipnet.specs.NetworkOf.{ip_network};
ghost use Rattle.ipnet_routes.specs.Routes.{Route, networks_of, IsLongestMatch, IsLongestHolder};
ghost use Rattle.ipnet_routes.specs.TableImages.{route_count, HasTableHeader, IsStoredRoute, HasRouteAt};
ghost use Rattle.ipnet_routes.specs.TableImages.{IsTableImageOf, IsTableImage, IsTableRefusal, HasOtherValues};

pub(crate) mod buckets;
mod other_values;
mod restored;
pub(crate) mod rows;
pub(crate) mod stored_table;
mod written;

use super::RouteTable;
use buckets::Buckets;
use ipnet::{IpAddr, IpNet};
use ipnet_sets::read_u64;
use other_values::write_values;
use restored::restored_table;
use std::alloc::{AllocError, Global};
use std::fmt;
use stored_table::StoredTable;
use written::{VERSION, table_bytes};

/// Why bytes are not the image of a table. The reasons are tested in this order.
#[derive(Clone, Copy, Debug, PartialEq, Eq)]
pub enum TableImageError {
    /// There are fewer than the 32 bytes of the header.
    TooShort,
    /// The bytes do not begin with `ipnettab`.
    Magic,
    /// The version is not 1.
    Version,
    /// The number of bytes is not the number that the header states.
    Length,
    /// The routes are not the routes of a table in order, each with its link.
    Routes,
    /// The index is not the index of the routes.
    Index,
    /// Memory ran out. The bytes are the image of a table.
    Memory,
}

impl fmt::Display for TableImageError {
    fn fmt<W: fmt::Write>(&self, f: &mut fmt::Formatter<W>) -> fmt::Result {
        f.write_str(match self {
            TableImageError::TooShort => "fewer than 32 bytes",
            TableImageError::Magic => "not the image of a table",
            TableImageError::Version => "unknown version of the image of a table",
            TableImageError::Length => "wrong length of the image of a table",
            TableImageError::Routes => "wrong routes in the image of a table",
            TableImageError::Index => "wrong index in the image of a table",
            TableImageError::Memory => "out of memory",
        })
    }
}

const MAGIC: u64 = 0x6261_7474_656e_7069;

/// Returns the bytes with the numbers of routes that their header states, if they have the stated length.
fn with_header(bytes: &[u8]) -> Result<StoredTable<'_>, TableImageError>
    ensures { MatchResult result (λ table. (table.bytes.now ≡ bytes.now) × HasTableHeader bytes.now)
        (λ error. IsTableRefusal error bytes.now × ¬ (HasTableHeader bytes.now)) }
{
    if bytes.len() < 32 {
        return Err(TableImageError::TooShort);
    }
    if read_u64(bytes, 0) != MAGIC {
        return Err(TableImageError::Magic);
    }
    if read_u64(bytes, 8) != VERSION {
        return Err(TableImageError::Version);
    }
    let ipv4 = read_u64(bytes, 16) as usize;
    let ipv6 = read_u64(bytes, 24) as usize;
    let left = bytes.len() - 32;
    if ipv4 > left / 16 || ipv6 > left / 32 {
        return Err(TableImageError::Length);
    }
    let rows = ipv4 * 16 + ipv6 * 32;
    let index = Buckets::new(ipv4, ipv6).entries() * 4;
    if rows > left || left - rows != index {
        return Err(TableImageError::Length);
    }
    Ok(StoredTable::new(bytes, ipv4, ipv6))
}

/// Bytes that begin with the header of an image of a table and have the length that it states. The routes are not
/// tested, so making the value takes constant time.
///
/// Whatever the bytes are, each call ends and reads only them. If they are the image of a table, the result is the
/// table's. If they are not, a route that is found is still in the bytes. Its network contains the address or the
/// network that was asked for.
#[derive(Clone, Copy)]
pub struct RouteTableImage<'a> {
    table: StoredTable<'a>,
    ghost header: { HasTableHeader table.bytes.now },
}

impl<'a> RouteTableImage<'a> {
    /// Returns the bytes as an image if their header is one, in constant time; the error is `TooShort`, `Magic`,
    /// `Version` or `Length`. Allocates nothing.
    ///
    /// ```text
    /// of 31 bytes: Err(TooShort); of an image without its last byte: Err(Length)
    /// ```
    pub fn from_header(bytes: &'a [u8]) -> Result<RouteTableImage<'a>, TableImageError>
        ensures { MatchResult result (λ image. image.table.bytes.now ≡ bytes.now)
            (λ error. IsTableRefusal error bytes.now × ¬ (HasTableHeader bytes.now)) }
    {
        let table = with_header(bytes)?;
        Ok(RouteTableImage { table })
    }

    /// Returns how many routes the table has.
    ///
    /// ```text
    /// of the image of 10.0.0.0/8 with 1 and 10.1.0.0/16 with 2: 2
    /// ```
    pub fn len(&self) -> usize
        ensures table { (t : List (Route ℕ)) → IsTableImageOf self.now.table.bytes.now t → result ≡ length t }
        ensures stated { result ≡ route_count self.now.table.bytes.now }
    {
        self.table.len()
    }

    /// Returns whether the table has no route.
    pub fn is_empty(&self) -> bool
        ensures { (t : List (Route ℕ)) → IsTableImageOf self.now.table.bytes.now t → IsTrue result ↔ (length t ≡ 0) }
    {
        self.len() == 0
    }

    /// Returns the route with this index, in the order of `RouteTable::routes`; `None` if the index is too high, or if
    /// the bytes there are not a route. Allocates nothing.
    ///
    /// ```text
    /// of the image of 10.0.0.0/8 with 1 and 10.1.0.0/16 with 2: 10.1.0.0/16 with 2 at 1, and None at 2
    /// ```
    pub fn route(&self, index: usize) -> Option<(IpNet, u32)>
        ensures table { (t : List (Route ℕ)) → IsTableImageOf self.now.table.bytes.now t → (r : Route ℕ)
            (c : Contains t r) → c.0 ≡ index → IsSomeAnd result (λ route. (ip_network route.0, route.1) ≡ r) }
        ensures stored { IfSome result (λ route. (index < route_count self.now.table.bytes.now)
            × HasRouteAt self.now.table.bytes.now index (ip_network route.0, route.1)) }
        ensures read { index < route_count self.now.table.bytes.now → (r : Route ℕ) → IsNetwork r.0
            → HasRouteAt self.now.table.bytes.now index r
            → IsSomeAnd result (λ route. (ip_network route.0, route.1) ≡ r) }
    {
        if index >= self.table.len() {
            return None;
        }
        let stored = self.table.route(index)?;
        Some((stored.network, stored.value))
    }

    /// Writes the image of the table with the same networks and these values into `copy`. There is one value for each
    /// route, in the order of `RouteTable::routes`, and `copy` is as long as the image. Allocates nothing.
    ///
    /// ```text
    /// of the image of 10.0.0.0/8 with 1 and 10.1.0.0/16 with 2, and 7, 8: the image of 10.0.0.0/8 with 7 and
    /// 10.1.0.0/16 with 8
    /// ```
    pub fn copy_with_values(&self, values: &[u32], copy: &mut [u8])
        requires as_many { length values.now ≡ route_count self.now.table.bytes.now }
        requires as_long { length copy.old ≡ length self.now.table.bytes.now }
        ensures { HasOtherValues self.now.table.bytes.now values.now copy.new }
    {
        copy.copy_from_slice(self.table.bytes);
        write_values(copy, self.table.ipv4_len(), values);
    }

    /// Returns the route of the longest network that contains the network's whole block, as `RouteTable::covering`
    /// does. Allocates nothing.
    ///
    /// ```text
    /// of the image of 0.0.0.0/0 with 1 and 10.0.0.0/8 with 2: 10.1.0.0/16 is in 10.0.0.0/8, which has 2
    /// ```
    pub fn covering(&self, network: &IpNet) -> Option<(IpNet, u32)>
        ensures none { (t : List (Route ℕ)) → IsTableImageOf self.now.table.bytes.now t → IsNone result
            ↔ ((k : Network) → Contains (networks_of t) k → ¬ (IsSubnetOf (ip_network network.now) k)) }
        ensures some { (t : List (Route ℕ)) → IsTableImageOf self.now.table.bytes.now t
            → IfSome result (λ route. IsLongestHolder t (ip_network network.now) (ip_network route.0, route.1)) }
        ensures holds { IfSome result (λ route. IsSubnetOf (ip_network network.now) (ip_network route.0)) }
        ensures stored { IfSome result (λ route.
            IsStoredRoute self.now.table.bytes.now (ip_network route.0, route.1)) }
    {
        self.find_covering(network)
    }

    /// Returns what `covering` returns. It is a copy of the search in its caller.
    #[inline(always)]
    fn find_covering(&self, network: &IpNet) -> Option<(IpNet, u32)>
        ensures none { (t : List (Route ℕ)) → IsTableImageOf self.now.table.bytes.now t → IsNone result
            ↔ ((k : Network) → Contains (networks_of t) k → ¬ (IsSubnetOf (ip_network network.now) k)) }
        ensures some { (t : List (Route ℕ)) → IsTableImageOf self.now.table.bytes.now t
            → IfSome result (λ route. IsLongestHolder t (ip_network network.now) (ip_network route.0, route.1)) }
        ensures holds { IfSome result (λ route. IsSubnetOf (ip_network network.now) (ip_network route.0)) }
        ensures stored { IfSome result (λ route.
            IsStoredRoute self.now.table.bytes.now (ip_network route.0, route.1)) }
    {
        let place = self.table.holder(network);
        if place == 0 {
            return None;
        }
        let route = self.table.route(place - 1)?;
        Some((route.network, route.value))
    }

    /// Returns the route of the longest network that holds the address, as `RouteTable::longest_match` does, or `None`
    /// if no network of the table holds it. Allocates nothing.
    ///
    /// ```text
    /// of the image of 0.0.0.0/0 with 1 and 10.0.0.0/8 with 2: 10.1.2.3 is in 10.0.0.0/8, which has 2
    /// ```
    //
    // A search waits for three or four reads of memory. If its code is short, the processor begins the search for the
    // next address before this one ends. So the arm of IPv4 has a copy of the search, which compares numbers of IPv4
    // only. The arm of IPv6 has none: two copies are so long that the compiler inlines neither.
    #[inline(always)]
    pub fn longest_match(&self, ip: &IpAddr) -> Option<(IpNet, u32)>
        ensures none { (t : List (Route ℕ)) → IsTableImageOf self.now.table.bytes.now t
            → IsNone result ↔ ¬ (IsCoveredBy (networks_of t) (ip_address ip.now)) }
        ensures some { (t : List (Route ℕ)) → IsTableImageOf self.now.table.bytes.now t
            → IfSome result (λ route. IsLongestMatch t (ip_address ip.now) (ip_network route.0, route.1)) }
        ensures holds { IfSome result (λ route. InBlock (ip_network route.0) (ip_address ip.now)) }
        ensures stored { IfSome result (λ route.
            IsStoredRoute self.now.table.bytes.now (ip_network route.0, route.1)) }
    {
        match ip {
            IpAddr::V4(address) => self.find_covering(&IpNet::from(IpAddr::V4(*address))),
            IpAddr::V6(address) => self.covering(&IpNet::from(IpAddr::V6(*address))),
        }
    }
}

/// The image of a table, tested whole: a table that lies in bytes. Allocates nothing.
#[derive(Clone, Copy)]
pub struct RouteTableRef<'a> {
    image: RouteTableImage<'a>,
}

impl<'a> RouteTableRef<'a> {
    /// Returns the bytes as a table if they are the image of one; the error says why they are not, and is never
    /// `Memory`. Reads all routes and the index, and allocates nothing.
    ///
    /// ```text
    /// of the image of 10.0.0.0/8 and 10.1.0.0/16 with its two routes exchanged: Err(Routes)
    /// ```
    pub fn from_bytes(bytes: &'a [u8]) -> Result<RouteTableRef<'a>, TableImageError>
        ensures { MatchResult result (λ table. (table.image.table.bytes.now ≡ bytes.now) × IsTableImage bytes.now)
            (λ error. IsTableRefusal error bytes.now × ¬ (IsTableImage bytes.now)) }
    {
        let image = RouteTableImage::from_header(bytes)?;
        if !image.table.has_routes() {
            return Err(TableImageError::Routes);
        }
        if !image.table.has_index() {
            return Err(TableImageError::Index);
        }
        Ok(RouteTableRef { image })
    }

    /// Returns how many routes the table has.
    pub fn len(&self) -> usize
        ensures { (t : List (Route ℕ)) → IsTableImageOf self.now.image.table.bytes.now t → result ≡ length t }
    {
        self.image.len()
    }

    /// Returns whether the table has no route.
    pub fn is_empty(&self) -> bool
        ensures { (t : List (Route ℕ)) → IsTableImageOf self.now.image.table.bytes.now t
            → IsTrue result ↔ (length t ≡ 0) }
    {
        self.image.is_empty()
    }

    /// Returns the route of the longest network that contains the network's whole block, as `RouteTable::covering`
    /// does.
    pub fn covering(&self, network: &IpNet) -> Option<(IpNet, u32)>
        ensures none { (t : List (Route ℕ)) → IsTableImageOf self.now.image.table.bytes.now t → IsNone result
            ↔ ((k : Network) → Contains (networks_of t) k → ¬ (IsSubnetOf (ip_network network.now) k)) }
        ensures some { (t : List (Route ℕ)) → IsTableImageOf self.now.image.table.bytes.now t
            → IfSome result (λ route. IsLongestHolder t (ip_network network.now) (ip_network route.0, route.1)) }
    {
        self.image.covering(network)
    }

    /// Returns the route of the longest network that holds the address, as `RouteTable::longest_match` does.
    pub fn longest_match(&self, ip: &IpAddr) -> Option<(IpNet, u32)>
        ensures none { (t : List (Route ℕ)) → IsTableImageOf self.now.image.table.bytes.now t
            → IsNone result ↔ ¬ (IsCoveredBy (networks_of t) (ip_address ip.now)) }
        ensures some { (t : List (Route ℕ)) → IsTableImageOf self.now.image.table.bytes.now t
            → IfSome result (λ route. IsLongestMatch t (ip_address ip.now) (ip_network route.0, route.1)) }
    {
        self.image.longest_match(ip)
    }
}

impl RouteTable<u32> {
    ghost use Rattle.ipnet_routes.specs.RoutesOf.{routes_of};

    /// Returns the table of which the bytes are the image; the error says why they are the image of no table, or is
    /// `Memory` if memory runs out.
    ///
    /// ```text
    /// of the image of 10.0.0.0/8 with 7: Ok of the table of 10.0.0.0/8 with 7; of no byte: Err(TooShort)
    /// ```
    pub fn from_bytes(alloc: Global, bytes: &[u8]) -> Result<RouteTable<u32>, TableImageError>
        ensures { MatchResult result (λ table. IsTableImageOf bytes.now (routes_of table))
            (λ error. IsTableRefusal error bytes.now) }
    {
        let stored = RouteTableRef::from_bytes(bytes)?;
        match restored_table(alloc, &stored.image.table) {
            Ok(table) => Ok(table),
            Err(_) => Err(TableImageError::Memory),
        }
    }

    /// Returns the image of the table: 32 bytes, 16 for each IPv4 route and 32 for each IPv6 route, and from 256 routes
    /// of a family on the index, of at most 8 MiB. Fails if memory runs out, and if there are 2^32 routes or more.
    ///
    /// ```text
    /// of the table of 10.0.0.0/8 with 7: 48 bytes, of which the last eight are 7, 0, 0, 0 and four 0
    /// ```
    pub fn to_bytes(&self, alloc: Global) -> Result<Vec<u8>, AllocError>
        ensures { IfOk result (λ bytes. IsTableImageOf bytes.items (routes_of self.now)) }
    {
        table_bytes(
            alloc,
            MAGIC,
            self.routes.as_slice(),
            self.enclosing.as_slice(),
        )
    }
}
