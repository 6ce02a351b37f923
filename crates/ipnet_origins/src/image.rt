//! Images of tables of payloads: the bytes of a table, which a caller can store and send.
//!
//! The format is in `specs/OriginImages`: a header of 24 bytes, then the payloads, 32 bytes each.
ghost use Rattle.std.specs.Prelude.{◌≡◌, ◌<◌, ◌↔◌, IfOk, IfSome, IsNone, IsTrue, MatchResult};
ghost use Rattle.ipnet_origins.specs.OriginImages.{stated_payloads, payload_place, HasOriginsHeader, IsPayloadAt};
ghost use Rattle.ipnet_origins.specs.OriginImages.{HasPayloads, IsOriginImage, IsOriginImageOf, HasPayloadsOf};
ghost use Rattle.ipnet_origins.specs.OriginImages.{IsOriginRefusal};
ghost use Rattle.ipnet_origins.specs.OriginsOf.{payloads_of};
ghost use Rattle.ipnet_origins.specs.declared.payload.Payload.{Payload};

use crate::origins::OriginTable;
use crate::payload::Payload;
use crate::records::{append_payloads, are_payloads, stored_payload};
use ipnet_sets::{append_u64, read_u64};
use std::alloc::{AllocError, Global};
use thiserror::Error;

/// Why bytes are not the image of a table. The reasons are tested in this order.
#[derive(Clone, Debug, PartialEq, Eq, Drop, Error)]
pub enum OriginImageError {
    /// There are fewer than the 24 bytes of the header.
    #[error("fewer than 24 bytes")]
    TooShort,
    /// The bytes do not begin with `ipnetvrp`.
    #[error("not the image of a table of payloads")]
    Magic,
    /// The version is not 1.
    #[error("unknown version of the image of a table of payloads")]
    Version,
    /// The number of bytes is not the number that the header states.
    #[error("wrong length of the image of a table of payloads")]
    Length,
    /// One of the payloads is not one: its family, its network or its greatest length is wrong.
    #[error("wrong payload in the image of a table of payloads")]
    Payloads,
    /// Memory ran out. The bytes are the image of a table.
    #[error("out of memory")]
    Memory,
}

const MAGIC: u64 = 0x7072_7674_656e_7069;

const VERSION: u64 = 1;

/// Returns the number of payloads that the header states, if the bytes have the stated length.
fn payload_count(bytes: &[u8]) -> Result<usize, OriginImageError>
    ensures { MatchResult result (λ count. HasOriginsHeader bytes.now × (count ≡ stated_payloads bytes.now))
        (λ error. IsOriginRefusal error bytes.now × ¬ (HasOriginsHeader bytes.now)) }
{
    if bytes.len() < 24 {
        return Err(OriginImageError::TooShort);
    }
    if read_u64(bytes, 0) != MAGIC {
        return Err(OriginImageError::Magic);
    }
    if read_u64(bytes, 8) != VERSION {
        return Err(OriginImageError::Version);
    }
    let count = read_u64(bytes, 16) as usize;
    let left = bytes.len() - 24;
    if left % 32 != 0 || left / 32 != count {
        return Err(OriginImageError::Length);
    }
    Ok(count)
}

/// The image of a table of payloads, tested whole. Allocates nothing.
#[derive(Clone, Copy)]
pub struct OriginTableRef<'a> {
    bytes: &'a [u8],
    count: usize,
    ghost header: { HasOriginsHeader bytes.now },
    ghost stated: { count ≡ stated_payloads bytes.now },
}

impl<'a> OriginTableRef<'a> {
    /// Returns the bytes as the image of a table if they are one; the error says why they are not, and is never
    /// `Memory`. Reads all payloads once, and allocates nothing.
    ///
    /// ```text
    /// of 23 bytes: Err(TooShort); of the image of one payload without its last byte: Err(Length)
    /// ```
    pub fn from_bytes(bytes: &'a [u8]) -> Result<OriginTableRef<'a>, OriginImageError>
        ensures { MatchResult result (λ table. (table.bytes.now ≡ bytes.now) × IsOriginImage bytes.now)
            (λ error. IsOriginRefusal error bytes.now × ¬ (IsOriginImage bytes.now)) }
    {
        let count = payload_count(bytes)?;
        if !are_payloads(bytes, count) {
            return Err(OriginImageError::Payloads);
        }
        Ok(OriginTableRef { bytes, count })
    }

    /// Returns how many payloads the table has.
    ///
    /// ```text
    /// of the image of one payload, 56 bytes: 1
    /// ```
    pub fn len(&self) -> usize
        ensures { result ≡ stated_payloads self.now.bytes.now }
    {
        self.count
    }

    /// Returns whether the table has no payload.
    pub fn is_empty(&self) -> bool
        ensures { IsTrue result ↔ (stated_payloads self.now.bytes.now ≡ 0) }
    {
        self.len() == 0
    }

    /// Returns the payload with this index, in the order of the bytes; `None` if the index is too high. Allocates
    /// nothing.
    ///
    /// ```text
    /// of the image of 192.0.2.0/24 with greatest length 26 and AS 64496: this payload at 0, and None at 1
    /// ```
    pub fn payload(&self, index: usize) -> Option<Payload>
        ensures some { IfSome result (λ vrp. (index < stated_payloads self.now.bytes.now)
            × IsPayloadAt self.now.bytes.now (payload_place index) vrp) }
        ensures none { IsNone result → index < stated_payloads self.now.bytes.now
            → (vrp : Payload) → ¬ (IsPayloadAt self.now.bytes.now (payload_place index) vrp) }
    {
        if index >= self.len() {
            return None;
        }
        stored_payload(self.bytes, 24 + index * 32)
    }
}

/// Returns the payloads of the image, in the order of the bytes. Fails only if memory runs out.
fn read_payloads(alloc: Global, image: &OriginTableRef<'_>) -> Result<Vec<Payload>, AllocError>
    requires { HasPayloads image.now.bytes.now }
    ensures { IfOk result (λ payloads. IsOriginImageOf image.now.bytes.now payloads.items) }
{
    let mut payloads = Vec::with_capacity(alloc, image.len())?;
    for index in 0..image.len() {
        let Some(payload) = image.payload(index) else {
            unreachable!();
        };
        payloads.push(payload)?;
    }
    Ok(payloads)
}

/// Returns the table of the payloads of the image. Fails only if memory runs out.
fn read_table(alloc: Global, image: &OriginTableRef<'_>) -> Result<OriginTable, AllocError>
    requires { HasPayloads image.now.bytes.now }
    ensures { IfOk result (λ table. HasPayloadsOf image.now.bytes.now (payloads_of table)) }
{
    OriginTable::from_payloads(alloc, read_payloads(alloc, image)?)
}

impl OriginTable {
    /// Returns the table of which the bytes are the image; the error says why they are the image of no table, or is
    /// `Memory` if memory runs out.
    ///
    /// ```text
    /// of the image of 192.0.2.0/24 with greatest length 26 and AS 64496: Ok of the table of this payload;
    /// of no byte: Err(TooShort)
    /// ```
    pub fn from_bytes(alloc: Global, bytes: &[u8]) -> Result<OriginTable, OriginImageError>
        ensures { MatchResult result (λ table. HasPayloadsOf bytes.now (payloads_of table))
            (λ error. IsOriginRefusal error bytes.now) }
    {
        let image = OriginTableRef::from_bytes(bytes)?;
        match read_table(alloc, &image) {
            Ok(table) => Ok(table),
            Err(_) => Err(OriginImageError::Memory),
        }
    }

    /// Returns the image of the table: 24 bytes, and 32 for each payload. The payloads are in the order of `payloads`.
    /// Fails only if memory runs out.
    ///
    /// ```text
    /// of the table of one payload: 56 bytes, of which the first eight are `ipnetvrp`
    /// ```
    pub fn to_bytes(&self, alloc: Global) -> Result<Vec<u8>, AllocError>
        ensures { IfOk result (λ bytes. IsOriginImageOf bytes.items (payloads_of self.now)) }
    {
        let payloads = self.payloads();
        let mut bytes = Vec::new(alloc);
        append_u64(&mut bytes, MAGIC)?;
        append_u64(&mut bytes, VERSION)?;
        append_u64(&mut bytes, payloads.len() as u64)?;
        append_payloads(&mut bytes, payloads)?;
        Ok(bytes)
    }
}
