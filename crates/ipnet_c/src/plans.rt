//! Plans: networks of given prefix lengths in a set that is given by its image.
ghost use Rattle.std.specs.Prelude.{◌≡◌, ◌↔◌, ◌<◌, ◌⊎◌, None, Err, Any, IsTrue, IfOk, IfErr, IfSome, map};
ghost use Rattle.std.specs.Prelude.{string_bytes};
ghost use Rattle.ipnet_base.specs.Address.{Family, width};
ghost use Rattle.ipnet.specs.NetworkOf.{ip_network};
ghost use Rattle.ipnet_pools.specs.Placements.{CanPlace};
ghost use Rattle.ipnet_pools.specs.Plans.{requests_of, IsPlan, KeepsRoom};
ghost use Rattle.ipnet_pools.specs.declared.error.PoolError.TheVariants as Pool;
ghost use Rattle.ipnet_sets.specs.Members.{IsMember};
ghost use Rattle.ipnet_c.specs.Statuses as statuses;
ghost use Rattle.ipnet_c.specs.FactReplies.{plan_family_number, IsFamilyNumber, IsPlanOf, HasNoPlan, IsPlanReply};

use crate::buffers::write_to_buffer;
use crate::statuses::{NO_PLACE, NOT_A_SET, OUT_OF_MEMORY, PREFIX_TOO_LONG, UNKNOWN_FAMILY};
use ipnet::IpNet;
use ipnet_pools::PoolError;
use ipnet_pools::plan::{plan_ipv4, plan_ipv6};
use ipnet_sets::{IpSet, IpSetRef};
use ipnet_text::lines_of_networks;
use std::alloc::Global;

/// Returns the width of the family with this number, 4 or 6.
fn read_width(family: u32) -> Option<u8>
    ensures some { IfSome result (λ w. (f : Family) × (family ≡ plan_family_number f) × (w ≡ width f)) }
    ensures none { result ≡ None → ¬ (IsFamilyNumber family) }
{
    match family {
        4 => Some(32),
        6 => Some(128),
        _ => None,
    }
}

/// Whether one of the lengths is above `greatest`.
fn has_above(lengths: &[u8], greatest: u8) -> bool
    ensures { IsTrue result ↔ Any (λ p. greatest < p) lengths.now }
{
    lengths.iter().any(|prefix_len| *prefix_len > greatest)
}

/// Returns networks of the family with this number in the set, one for each of the lengths.
fn networks_for(
    alloc: Global,
    set: &IpSet,
    family: u32,
    lengths: &[u8],
) -> Result<Vec<IpNet>, PoolError>
    ensures plan { (f : Family) → family ≡ plan_family_number f → IfOk result (λ list.
        IsPlan (IsMember set.now) f lengths.now (map ip_network list.items)) }
    ensures keeps { (f : Family) → family ≡ plan_family_number f → IfOk result (λ list.
        KeepsRoom (IsMember set.now) f lengths.now (map ip_network list.items)) }
    ensures exhausted { (f : Family) → family ≡ plan_family_number f → result ≡ Err Pool.Exhausted
        → ¬ (CanPlace (IsMember set.now) (requests_of f lengths.now)) }
{
    if family == 4 {
        plan_ipv4(alloc, set, lengths)
    } else {
        plan_ipv6(alloc, set, lengths)
    }
}

/// Returns the plan in the set of an image as text. The error is the status `NO_PLACE` or `OUT_OF_MEMORY`.
fn plan_text(alloc: Global, set: IpSetRef<'_>, family: u32, lengths: &[u8]) -> Result<String, u32>
    requires { IsFamilyNumber family }
    ensures plan { IfOk result (λ text. IsPlanOf set.entry.image.bytes.now family lengths.now (string_bytes text)) }
    ensures none { result ≡ Err statuses.no_place → HasNoPlan set.entry.image.bytes.now family lengths.now }
    ensures errors { IfErr result (λ status. (status ≡ statuses.no_place) ⊎ (status ≡ statuses.out_of_memory)) }
{
    let Ok(first) = set.to_set(alloc) else {
        return Err(OUT_OF_MEMORY);
    };
    match networks_for(alloc, &first, family, lengths) {
        Ok(networks) => match lines_of_networks(alloc, networks.as_slice()) {
            Ok(text) => Ok(text),
            Err(_) => Err(OUT_OF_MEMORY),
        },
        Err(PoolError::Exhausted) => Err(NO_PLACE),
        Err(_) => Err(OUT_OF_MEMORY),
    }
}

/// Writes networks in the set, given by its image, as text into the buffer, and the length of the text into `count`:
/// one network for each of the prefix lengths, in their order, on a line of its own.
///
/// `family` is 4 or 6: the networks are IPv4 or IPv6. No two of them share an address. The plan keeps room: whatever
/// further networks could be placed in the set beside networks of these lengths can still be placed.
///
/// Returns 0; 4 if the buffer is too short, with the length needed in `count`; 7 if `family` is neither 4 nor 6; 8 if a
/// length is above 32, or 128; 11 if the bytes are not the image of a set; 19 if no such networks exist; 3 if memory
/// runs out. The buffer changes only at 0, `count` only at 0 and 4.
///
/// ```text
/// the image of 10.0.0.0/24, 4, and 26, 25        0, and "10.0.0.0/26\n10.0.0.128/25\n"
/// the image of 10.0.0.0/24, 4, and 25, 25, 27    19
/// ```
#[unsafe(no_mangle)]
pub extern "C" fn ipnet_set_plan(
    alloc: Global,
    set: &[u8],
    family: u32,
    lengths: &[u8],
    buffer: &mut [u8],
    count: &mut usize,
) -> u32
    ensures { IsPlanReply set.now family lengths.now buffer.old buffer.new count.old count.new result }
{
    let Some(width) = read_width(family) else {
        return UNKNOWN_FAMILY;
    };
    if has_above(lengths, width) {
        return PREFIX_TOO_LONG;
    }
    let Ok(set) = IpSetRef::from_bytes(set) else {
        return NOT_A_SET;
    };
    match plan_text(alloc, set, family, lengths) {
        Ok(text) => write_to_buffer(text.as_bytes(), buffer, count),
        Err(status) => status,
    }
}
