//! Questions to sets that are given by their images. Only the test of a subset and the counts allocate memory.
ghost use Rattle.std.specs.Prelude.{◌≡◌, ◌*◌, ◌⊎◌, ◌↔◌, IsTrue, IfOk, IfSome, None};
ghost use Rattle.ipnet_base.specs.Address.{Address, ip_address};
ghost use Rattle.ipnet_sets.specs.Images.{IsImageOf};
ghost use Rattle.ipnet_sets.specs.Members.{IsMember, IsSubset};
ghost use Rattle.ipnet_sets.specs.declared.set.IpSet.{IpSet as SetValue};
ghost use Rattle.ipnet_c.specs.SetReplies.{IsContainsReply, IsCoversReply, IsContainsAllReply, IsSubsetReply};
ghost use Rattle.ipnet_c.specs.SetReplies.{IsAnswerAt, IsCoversAllReply};
ghost use Rattle.ipnet_c.specs.SetReplies.{IsCheckReply, AreOctetsOf, HasAddressLen, AreCountsOf, IsCountsReply};

use crate::statuses::{NOT_A_SET, OK, OTHER_NOT_A_SET, OUT_OF_MEMORY, WRONG_LENGTH, status_of};
use ipnet::{IpAddr, IpNet, Ipv4Addr, Ipv6Addr};
use ipnet_sets::{IpSetImage, IpSetRef};
use std::alloc::{AllocError, Global};

/// The base of the digits of a number of addresses.
const DIGIT: u128 = 0x1_0000_0000_0000_0000;

/// Returns the address of these octets.
pub(crate) fn read_address(octets: &[u8]) -> Option<IpAddr>
    ensures some { IfSome result (λ ip. AreOctetsOf octets.now (ip_address ip)) }
    ensures none { (result ≡ None) ↔ ¬ (HasAddressLen octets.now) }
{
    if let Some((four, [])) = octets.split_first_chunk::<4>() {
        return Some(IpAddr::V4(Ipv4Addr::from_bits(u32::from_be_bytes(*four))));
    }
    if let Some((sixteen, [])) = octets.split_first_chunk::<16>() {
        return Some(IpAddr::V6(Ipv6Addr::from_bits(u128::from_be_bytes(*sixteen))));
    }
    None
}

/// Returns 1 if the set, given by its image, contains the address, and 0 if it does not.
///
/// The address is given by its octets, the most significant first: 4 for IPv4, 16 for IPv6. Only the header of the
/// image is tested, so a question takes a few memory accesses; `ipnet_set_check` tests all, once, for bytes from
/// outside. Whatever the bytes are, nothing outside of them is read.
///
/// Returns 6 if the number of octets is neither 4 nor 16; else 11 if the bytes do not begin with the header of an
/// image, or have another length than it states.
///
/// ```text
/// the image of 10.0.0.0/30 and 10, 0, 0, 3    1
/// the image of 10.0.0.0/30 and 10, 0, 0, 4    0
/// ```
#[unsafe(no_mangle)]
pub extern "C" fn ipnet_set_contains(set: &[u8], address: &[u8]) -> u32
    ensures { IsContainsReply set.now address.now result }
{
    let Some(address) = read_address(address) else {
        return WRONG_LENGTH;
    };
    let Ok(image) = IpSetImage::from_header(set) else {
        return NOT_A_SET;
    };
    u32::from(image.contains(&address))
}

/// Returns whether `size` bytes are `count` items of `width` bytes each, and the width is one of the two `widths`.
pub(crate) fn are_items(size: usize, count: usize, width: usize, widths: (usize, usize)) -> bool
    ensures { IsTrue result ↔ (((width ≡ widths.0) ⊎ (width ≡ widths.1)) × (size ≡ count * width)) }
{
    (width == widths.0 || width == widths.1) && count.checked_mul(width) == Some(size)
}

/// Returns 1 if the set of the image contains the address of these octets, and 0 if it does not.
fn answer(image: &IpSetImage<'_>, octets: &[u8]) -> u8
    ensures { (x : Address) → AreOctetsOf octets.now x → IsAnswerAt image.now.bytes.now x result }
{
    match read_address(octets) {
        Some(address) => u8::from(image.contains(&address)),
        None => 0,
    }
}

/// Writes for each of many addresses 1 if the set, given by its image, contains it, and 0 if it does not.
///
/// `addresses` has `width` octets for each address, 4 for IPv4 or 16 for IPv6, one address after the other; `answers`
/// gets one byte for each. Only the header of the image is tested.
///
/// Returns 0; 6 if the width is neither 4 nor 16, or if the number of octets is not the width for each byte of
/// `answers`; else 11 if the bytes of the set do not begin with the header of an image, or have another length than it
/// states. `answers` changes only at 0.
///
/// ```text
/// the image of 10.0.0.0/30, the width 4, and 10, 0, 0, 1, 10, 0, 0, 4    0, and 1, 0
/// ```
#[unsafe(no_mangle)]
pub extern "C" fn ipnet_set_contains_all(
    set: &[u8],
    addresses: &[u8],
    width: usize,
    answers: &mut [u8],
) -> u32
    ensures { IsContainsAllReply set.now addresses.now width answers.old answers.new result }
{
    if !are_items(addresses.len(), answers.len(), width, (4, 16)) {
        return WRONG_LENGTH;
    }
    let Ok(image) = IpSetImage::from_header(set) else {
        return NOT_A_SET;
    };
    for index in 0..answers.len() {
        answers[index] = answer(&image, &addresses[index * width..(index + 1) * width]);
    }
    OK
}

/// Returns 1 if the set, given by its image, contains every address of the network, and 0 if it does not.
///
/// The network is given by its bytes, as for `ipnet_is_covered`. Only the header of the image is tested.
///
/// Returns 6, 7 or 8 if the bytes of the network have this fault; else 11 if the bytes of the set do not begin with the
/// header of an image, or have another length than it states.
///
/// ```text
/// the image of 10.0.0.0/30 and 0, 10, 0, 0, 2, 31    1
/// the image of 10.0.0.0/30 and 0, 10, 0, 0, 0, 29    0
/// ```
#[unsafe(no_mangle)]
pub extern "C" fn ipnet_set_covers(set: &[u8], network: &[u8]) -> u32
    ensures { IsCoversReply set.now network.now result }
{
    let network = match IpNet::from_bytes(network) {
        Ok(network) => network,
        Err(error) => return status_of(error),
    };
    let Ok(image) = IpSetImage::from_header(set) else {
        return NOT_A_SET;
    };
    u32::from(image.covers(&network))
}

/// Returns what `ipnet_set_covers` returns for the image and the network in these bytes.
fn cover_answer(image: &IpSetImage<'_>, network: &[u8]) -> u8
    ensures { IsCoversReply image.now.bytes.now network.now result }
{
    match IpNet::from_bytes(network) {
        Ok(network) => u8::from(image.covers(&network)),
        Err(error) => status_of(error) as u8,
    }
}

/// Writes for each of many networks what `ipnet_set_covers` returns for it: 1 if the set, given by its image, contains
/// every address of the network, 0 if it does not, and 6, 7 or 8 if the bytes of the network have this fault.
///
/// `networks` has `width` bytes for each network in byte form, 6 for IPv4 or 18 for IPv6, one after the other;
/// `answers` gets one byte for each. Only the header of the image is tested.
///
/// Returns 0; 6 if the width is neither 6 nor 18, or if the number of bytes is not the width for each byte of
/// `answers`; else 11 if the bytes of the set do not begin with the header of an image, or have another length than it
/// states. `answers` changes only at 0.
///
/// ```text
/// the image of 10.0.0.0/30, the width 6, and 0, 10, 0, 0, 2, 31, 0, 10, 0, 0, 0, 29    0, and 1, 0
/// ```
#[unsafe(no_mangle)]
pub extern "C" fn ipnet_set_covers_all(
    set: &[u8],
    networks: &[u8],
    width: usize,
    answers: &mut [u8],
) -> u32
    ensures { IsCoversAllReply set.now networks.now width answers.old answers.new result }
{
    if !are_items(networks.len(), answers.len(), width, (6, 18)) {
        return WRONG_LENGTH;
    }
    let Ok(image) = IpSetImage::from_header(set) else {
        return NOT_A_SET;
    };
    for index in 0..answers.len() {
        answers[index] = cover_answer(&image, &networks[index * width..(index + 1) * width]);
    }
    OK
}

/// Returns 0 if the bytes are the image of a set, and 11 if they are not. Reads all of them once.
///
/// ```text
/// the image of 10.0.0.0/30    0
/// no bytes                    11
/// ```
#[unsafe(no_mangle)]
pub extern "C" fn ipnet_set_check(set: &[u8]) -> u32
    ensures { IsCheckReply set.now result }
{
    match IpSetRef::from_bytes(set) {
        Ok(_) => OK,
        Err(_) => NOT_A_SET,
    }
}

/// Returns whether the first set is a subset of the second.
fn is_subset(alloc: Global, set: IpSetRef<'_>, other: IpSetRef<'_>) -> Result<bool, AllocError>
    ensures { IfOk result (λ answer. (s t : SetValue) → IsImageOf set.entry.image.bytes.now s
        → IsImageOf other.entry.image.bytes.now t → IsTrue answer ↔ IsSubset s t) }
{
    let first = set.to_set(alloc)?;
    let second = other.to_set(alloc)?;
    Ok(first.is_subset(&second))
}

/// Returns 1 if the second set contains every address of the first, and 0 if it does not. The sets are given by their
/// images; two sets are equal if and only if their images are equal bytes.
///
/// Returns 11 if the first bytes are not the image of a set; 12 if only the second are not; 3 if memory runs out.
///
/// ```text
/// the images of 10.0.0.0/31 and 10.0.0.0/30    1
/// the images of 10.0.0.0/30 and 10.0.0.0/31    0
/// ```
#[unsafe(no_mangle)]
pub extern "C" fn ipnet_set_is_subset(alloc: Global, set: &[u8], other: &[u8]) -> u32
    ensures { IsSubsetReply set.now other.now result }
{
    let Ok(set) = IpSetRef::from_bytes(set) else {
        return NOT_A_SET;
    };
    let Ok(other) = IpSetRef::from_bytes(other) else {
        return OTHER_NOT_A_SET;
    };
    match is_subset(alloc, set, other) {
        Ok(answer) => u32::from(answer),
        Err(_) => OUT_OF_MEMORY,
    }
}

/// Returns the number of IPv4 addresses of the set, and three digits to base 2^64 of the number of IPv6 addresses, the
/// lowest first.
fn count_addresses(alloc: Global, set: IpSetRef<'_>) -> Result<[u64; 4], AllocError>
    ensures { IfOk result (λ counts. (s : SetValue) × IsImageOf set.entry.image.bytes.now s × AreCountsOf s counts) }
{
    let set = set.to_set(alloc)?;
    let ipv4 = set.ipv4_count();
    match set.ipv6_count() {
        Some(ipv6) => Ok([ipv4, (ipv6 % DIGIT) as u64, (ipv6 / DIGIT) as u64, 0]),
        None => Ok([ipv4, 0, 0, 1]),
    }
}

/// Writes the numbers of addresses of the set, given by its image, into `counts`.
///
/// `counts` has four numbers. The first is the number of IPv4 addresses. The number of IPv6 addresses is the second,
/// plus 2^64 times the third, plus 2^128 times the fourth.
///
/// Returns 0; 6 if `counts` does not have four numbers; else 11 if the bytes are not the image of a set; 3 if memory
/// runs out. `counts` changes only at 0.
///
/// ```text
/// the image of 10.0.0.0/30 and fd00::/63    0, and 4, 0, 2, 0
/// the image of ::/0                         0, and 0, 0, 0, 1
/// ```
#[unsafe(no_mangle)]
pub extern "C" fn ipnet_set_counts(alloc: Global, set: &[u8], counts: &mut [u64]) -> u32
    ensures { IsCountsReply set.now counts.old counts.new result }
{
    if counts.len() != 4 {
        return WRONG_LENGTH;
    }
    let Ok(set) = IpSetRef::from_bytes(set) else {
        return NOT_A_SET;
    };
    let Ok(numbers) = count_addresses(alloc, set) else {
        return OUT_OF_MEMORY;
    };
    counts.copy_from_slice(&numbers);
    OK
}
