//! The names of squares and the labels of entries: the parts of their texts that differ.

use ipnet::{IpAddr, IpNet};
use std::alloc::{AllocError, Global};

/// The octets of the address in which networks of the frame differ.
fn octets_name(
    alloc: Global,
    octets: [u8; 4],
    first: usize,
    end: usize,
) -> Result<String, AllocError> {
    let mut text = String::new(alloc);
    let mut place = 0;
    for octet in octets {
        if first <= place && place < end {
            text.push_str(if place == 0 { "" } else { "." })?;
            write!(text, "{octet}")?;
        }
        place = usize::saturating_add(place, 1);
    }
    Ok(text)
}

/// The groups of 16 bits of the address in which networks of the frame differ.
fn groups_name(
    alloc: Global,
    groups: [u16; 8],
    first: usize,
    end: usize,
) -> Result<String, AllocError> {
    let mut text = String::new(alloc);
    let mut place = 0;
    for group in groups {
        if first <= place && place < end {
            text.push_str(if place == 0 { "" } else { ":" })?;
            write!(text, "{group:x}")?;
        }
        place = usize::saturating_add(place, 1);
    }
    Ok(text)
}

/// Returns the part of the network's text that differs from all others in the frame.
///
/// ```text
/// of 10.20.172.0/24 in a /16: .172; of 10.0.0.0/8 in a /0: 10; of 2001:db8:c000::/40 in a /32: :c000
/// ```
pub(crate) fn short_name(
    alloc: Global,
    network: &IpNet,
    frame_len: u8,
) -> Result<String, AllocError> {
    let len = usize::from(network.prefix_len());
    let frame_len = usize::from(frame_len);
    match network.addr() {
        IpAddr::V4(address) => {
            octets_name(alloc, address.octets(), frame_len / 8, (len + 7) / 8)
        }
        IpAddr::V6(address) => {
            groups_name(alloc, address.segments(), frame_len / 16, (len + 15) / 16)
        }
    }
}

/// The index of the mark at which the text goes on after this many parts; 0 if no part is to be left out, or if two
/// marks are side by side before it.
fn start_after(text: &[u8], mark: u8, parts: usize) -> usize {
    let mut found: usize = 0;
    for index in 0..text.len() {
        if text[index] == mark {
            found = found.saturating_add(1);
            if found == parts {
                return index;
            }
            if index > 0 && text[index - 1] == mark {
                return 0;
            }
        }
    }
    0
}

/// Returns the network's text without the octets or groups that all networks of the frame share.
///
/// ```text
/// of 10.20.168.0/22 in a /16: .168.0/22; of 10.0.0.0/8 in a /0: 10.0.0.0/8; of 2001:db8:c000::/40 in a /32: :c000::/40
/// ```
pub(crate) fn short_text(
    alloc: Global,
    network: &IpNet,
    frame_len: u8,
) -> Result<String, AllocError> {
    let text = network.to_text();
    let text = text.as_str();
    let frame_len = usize::from(frame_len);
    let start = match network {
        IpNet::V4(_) => start_after(text.as_bytes(), b'.', frame_len / 8),
        IpNet::V6(_) => start_after(text.as_bytes(), b':', frame_len / 16),
    };
    match text.split_at_checked(start) {
        Some((_, rest)) => String::from_str(alloc, rest),
        None => String::from_str(alloc, text),
    }
}
