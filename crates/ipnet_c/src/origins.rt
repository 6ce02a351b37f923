//! Tables of payloads as images, and the validity of the origins of routes (RFC 6811). Payloads and routes are rows.
ghost use Rattle.std.specs.Prelude.{◌≡◌, ℕ, ◌+◌, ◌<◌, ◌↔◌, length, slice_index, IsTrue, IsNone, IfSome, IfOk};
ghost use Rattle.ipnet_base.specs.Network.{Network};
ghost use Rattle.ipnet.specs.NetworkOf.{ip_network};
ghost use Rattle.ipnet_origins.specs.OriginsOf.{payloads_of};
ghost use Rattle.ipnet_origins.specs.declared.payload.Payload.{Payload};
ghost use Rattle.ipnet_c.specs.Rows.{row_bytes};
ghost use Rattle.ipnet_c.specs.OriginReplies.{columns, AreColumns, IsNetworkRow, IsPayloadAtRow};
ghost use Rattle.ipnet_c.specs.OriginReplies.{AreGoodRows, IsFirstBadRow, ArePayloadsOfRows, IsImageOfRows};
ghost use Rattle.ipnet_c.specs.OriginReplies.{IsOriginsReply, IsOriginCountReply, validity_byte, IsRowValidity};
ghost use Rattle.ipnet_c.specs.OriginReplies.{IsValidityReply};

use crate::buffers::write_to_buffer;
use crate::row_form::{are_rows, read_row};
use crate::statuses::{BAD_ROW, NOT_ORIGINS, OK, OUT_OF_MEMORY, WRONG_LENGTH};
use ipnet::IpNet;
use ipnet_origins::{OriginImageError, OriginTable, OriginTableRef, Payload, Validity};
use std::alloc::{AllocError, Global};

/// The answer for a row that is not a network.
const NO_NETWORK: u8 = 3;

/// Networks with AS numbers as columns: rows, and a prefix length and an AS number for each.
#[derive(Clone, Copy)]
struct Rows<'a> {
    families: &'a [u8],
    octets: &'a [u8],
    lengths: &'a [u8],
    asns: &'a [u32],
}

/// Returns whether there are 16 octets, a prefix length and an AS number for each row, and as many items.
fn are_columns(rows: &Rows<'_>, items: usize) -> bool
    ensures { IsTrue result ↔ AreColumns (columns rows.now.families.now rows.now.octets.now rows.now.lengths.now
        rows.now.asns.now) items }
{
    let count = rows.families.len();
    are_rows(count, rows.octets.len())
        && rows.lengths.len() == count
        && rows.asns.len() == count
        && items == count
}

/// Returns the network of a row and its prefix length; `None` if they are not one.
fn row_network(family: u8, bytes: &[u8], len: u8) -> Option<IpNet>
    requires { length bytes.now ≡ 16 }
    ensures some { IfSome result (λ network. IsNetworkRow family bytes.now len (ip_network network)) }
    ensures none { IsNone result → (n : Network) → ¬ (IsNetworkRow family bytes.now len n) }
{
    let address = read_row(family, bytes)?;
    match IpNet::new(address, len) {
        Ok(network) => Some(network),
        Err(_) => None,
    }
}

/// Returns the network of the row with this index; `None` if the row is not one.
fn network_at(rows: &Rows<'_>, index: usize) -> Option<IpNet>
    requires columns { AreColumns (columns rows.now.families.now rows.now.octets.now rows.now.lengths.now
        rows.now.asns.now) (length rows.now.families.now) }
    requires within { index < length rows.now.families.now }
    ensures some { IfSome result (λ network. IsNetworkRow (slice_index rows.now.families.now index)
        (row_bytes rows.now.octets.now index) (slice_index rows.now.lengths.now index) (ip_network network)) }
    ensures none { IsNone result → (n : Network) → ¬ (IsNetworkRow (slice_index rows.now.families.now index)
        (row_bytes rows.now.octets.now index) (slice_index rows.now.lengths.now index) n) }
{
    row_network(
        rows.families[index],
        &rows.octets[index * 16..(index + 1) * 16],
        rows.lengths[index],
    )
}

/// Returns the payload of the row with this index; `None` if the row is not one.
fn payload_at(rows: &Rows<'_>, max_lens: &[u8], index: usize) -> Option<Payload>
    requires columns { AreColumns (columns rows.now.families.now rows.now.octets.now rows.now.lengths.now
        rows.now.asns.now) (length max_lens.now) }
    requires within { index < length rows.now.families.now }
    ensures some { IfSome result (IsPayloadAtRow (columns rows.now.families.now rows.now.octets.now
        rows.now.lengths.now rows.now.asns.now) max_lens.now index) }
    ensures none { IsNone result → (vrp : Payload) → ¬ (IsPayloadAtRow (columns rows.now.families.now
        rows.now.octets.now rows.now.lengths.now rows.now.asns.now) max_lens.now index vrp) }
{
    let network = network_at(rows, index)?;
    match Payload::new(network, max_lens[index], rows.asns[index]) {
        Ok(payload) => Some(payload),
        Err(_) => None,
    }
}

/// Returns the index of the first row that is not a payload, or `None` if each row is one.
fn first_bad_row(rows: &Rows<'_>, max_lens: &[u8]) -> Option<usize>
    requires { AreColumns (columns rows.now.families.now rows.now.octets.now rows.now.lengths.now rows.now.asns.now)
        (length max_lens.now) }
    ensures some { IfSome result (IsFirstBadRow (columns rows.now.families.now rows.now.octets.now rows.now.lengths.now
        rows.now.asns.now) max_lens.now) }
    ensures none { IsNone result → AreGoodRows (columns rows.now.families.now rows.now.octets.now
        rows.now.lengths.now rows.now.asns.now) max_lens.now (length max_lens.now) }
{
    for index in 0..max_lens.len() {
        let Some(_payload) = payload_at(rows, max_lens, index) else {
            return Some(index);
        };
    }
    None
}

/// Returns the payloads of the rows, in order. Fails only if memory runs out.
fn read_payloads(
    alloc: Global,
    rows: &Rows<'_>,
    max_lens: &[u8],
) -> Result<Vec<Payload>, AllocError>
    requires columns { AreColumns (columns rows.now.families.now rows.now.octets.now rows.now.lengths.now
        rows.now.asns.now) (length max_lens.now) }
    requires good { AreGoodRows (columns rows.now.families.now rows.now.octets.now rows.now.lengths.now
        rows.now.asns.now) max_lens.now (length max_lens.now) }
    ensures { IfOk result (λ payloads. ArePayloadsOfRows (columns rows.now.families.now rows.now.octets.now
        rows.now.lengths.now rows.now.asns.now) max_lens.now (length max_lens.now) payloads.items) }
{
    let mut payloads = Vec::with_capacity(alloc, max_lens.len())?;
    for index in 0..max_lens.len() {
        let Some(payload) = payload_at(rows, max_lens, index) else {
            unreachable!();
        };
        payloads.push(payload)?;
    }
    Ok(payloads)
}

/// Returns the image of the table of the payloads of the rows.
fn image_of(alloc: Global, rows: &Rows<'_>, max_lens: &[u8]) -> Result<Vec<u8>, AllocError>
    requires columns { AreColumns (columns rows.now.families.now rows.now.octets.now rows.now.lengths.now
        rows.now.asns.now) (length max_lens.now) }
    requires good { AreGoodRows (columns rows.now.families.now rows.now.octets.now rows.now.lengths.now
        rows.now.asns.now) max_lens.now (length max_lens.now) }
    ensures { IfOk result (λ image. IsImageOfRows (columns rows.now.families.now rows.now.octets.now
        rows.now.lengths.now rows.now.asns.now) max_lens.now image.items) }
{
    let payloads = read_payloads(alloc, rows, max_lens)?;
    let table = OriginTable::from_payloads(alloc, payloads)?;
    let image = table.to_bytes(alloc)?;
    Ok(image)
}

/// Writes the image of a table of validated ROA payloads into the buffer, and its length in bytes into `count`.
///
/// The rows of the payloads have the form of `ipnet_set_contains_rows`. `lengths` has for each row the prefix length,
/// `max_lens` the greatest prefix length that the AS may announce, and `asns` the number of the AS. Host bits do not
/// count. Payloads may overlap and repeat. The image has 24 bytes, and 32 for each payload; `specs/OriginImages` of
/// `ipnet_origins` has its format.
///
/// Returns 0; 4 if the buffer is too short, with the length needed in `count`; 6 if there are not 16 octets, one prefix
/// length, one greatest length and one AS number for each family; 15 if a row is not a payload, with the index of the
/// first such row in `count`: its family is neither 4 nor 6, the prefix length is above 32, or 128 for IPv6, or the
/// greatest length is below the prefix length or above 32 or 128; 3 if memory runs out. The buffer changes only at 0,
/// `count` only at 0, 4 and 15.
///
/// ```text
/// 192.0.2.0 with 24, 26 and AS 64496    0, an image, and the number 56
/// 192.0.2.0 with 24, 23 and AS 64496    15, and the row 0
/// ```
#[unsafe(no_mangle)]
pub extern "C" fn ipnet_origins_from_rows(
    alloc: Global,
    families: &[u8],
    octets: &[u8],
    lengths: &[u8],
    max_lens: &[u8],
    asns: &[u32],
    buffer: &mut [u8],
    count: &mut usize,
) -> u32
    ensures { IsOriginsReply (columns families.now octets.now lengths.now asns.now) max_lens.now buffer.old buffer.new
        count.old count.new result }
{
    let rows = Rows {
        families,
        octets,
        lengths,
        asns,
    };
    if !are_columns(&rows, max_lens.len()) {
        return WRONG_LENGTH;
    }
    if let Some(row) = first_bad_row(&rows, max_lens) {
        *count = row;
        return BAD_ROW;
    }
    let Ok(image) = image_of(alloc, &rows, max_lens) else {
        return OUT_OF_MEMORY;
    };
    write_to_buffer(image.as_slice(), buffer, count)
}

/// Writes the number of payloads of the table, given by its image, into `count`. Reads all payloads, and allocates
/// nothing.
///
/// Returns 0; 16 if the bytes are not the image of a table. `count` changes only at 0.
///
/// ```text
/// the image of 192.0.2.0/24 with greatest length 26 and AS 64496    0, and the number 1
/// no bytes                                                          16
/// ```
#[unsafe(no_mangle)]
pub extern "C" fn ipnet_origins_count(origins: &[u8], count: &mut usize) -> u32
    ensures { IsOriginCountReply origins.now count.old count.new result }
{
    let Ok(image) = OriginTableRef::from_bytes(origins) else {
        return NOT_ORIGINS;
    };
    *count = image.len();
    OK
}

/// Returns the byte of a validity.
fn byte_of(validity: Validity) -> u8
    ensures { result ≡ validity_byte validity }
{
    match validity {
        Validity::NotFound => 0,
        Validity::Valid => 1,
        Validity::Invalid => 2,
    }
}

/// Returns the answer for the row with this index.
fn row_validity(table: &OriginTable, rows: &Rows<'_>, index: usize) -> u8
    requires columns { AreColumns (columns rows.now.families.now rows.now.octets.now rows.now.lengths.now
        rows.now.asns.now) (length rows.now.families.now) }
    requires within { index < length rows.now.families.now }
    ensures { IsRowValidity (payloads_of table.now) (columns rows.now.families.now rows.now.octets.now
        rows.now.lengths.now rows.now.asns.now) index result }
{
    match network_at(rows, index) {
        Some(network) => byte_of(table.validity(&network, Some(rows.asns[index]))),
        None => NO_NETWORK,
    }
}

/// Writes for each route its validity by the payloads of a table, given by its image: 0 if no payload covers the route,
/// 1 if a payload matches it, 2 if payloads cover it and none matches it (RFC 6811, section 2); or 3 if the row is not
/// a network.
///
/// The rows have the form of `ipnet_set_contains_rows`. `lengths` has the prefix length of each route, and `asns` the
/// AS number of its origin: 0 if it has no single origin, which no payload matches. Host bits do not count. The call
/// tests all of the image and makes the table first, so ask for many routes at once.
///
/// Returns 0; 6 if there are not 16 octets, one prefix length, one AS number and one answer for each family; else 16 if
/// the bytes of the table are not an image; 3 if memory runs out. `answers` changes only at 0.
///
/// ```text
/// the image of 192.0.2.0/24 with greatest length 26 and AS 64496, and 192.0.2.64/26 of AS 64496    0, and 1
/// the same image, and 192.0.2.0/27 of AS 64496, and 198.51.100.0/24 of AS 64496                   0, and 2, 0
/// ```
#[unsafe(no_mangle)]
pub extern "C" fn ipnet_origins_validity(
    alloc: Global,
    origins: &[u8],
    families: &[u8],
    octets: &[u8],
    lengths: &[u8],
    asns: &[u32],
    answers: &mut [u8],
) -> u32
    ensures { IsValidityReply origins.now (columns families.now octets.now lengths.now asns.now) answers.old answers.new
        result }
{
    let rows = Rows {
        families,
        octets,
        lengths,
        asns,
    };
    if !are_columns(&rows, answers.len()) {
        return WRONG_LENGTH;
    }
    let table = match OriginTable::from_bytes(alloc, origins) {
        Ok(table) => table,
        Err(OriginImageError::Memory) => return OUT_OF_MEMORY,
        Err(_) => return NOT_ORIGINS,
    };
    for index in 0..answers.len() {
        answers[index] = row_validity(&table, &rows, index);
    }
    OK
}
