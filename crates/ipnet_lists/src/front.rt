//! The entry of a line at the front of bytes, read before the end of the line is known.
ghost use Rattle.std.specs.Prelude.{◌≡◌, ◌<◌, ◌≤◌, List, ℕ, ◌∷◌, ◌++◌, length, take, slice_index, IfSome};
ghost use Rattle.std.specs.Net.Addr.{ipv4_octets};
ghost use Rattle.ipnet.specs.AddressTexts.{IsIpv4AddressText};
ghost use Rattle.ipnet.specs.declared.parser.Grammar.{Grammar};
ghost use Rattle.ipnet.specs.declared.parser.Grammar.TheVariants.{Strict};
ghost use Rattle.ipnet_lists.specs.Entries.{IsEntryWord};
ghost use Rattle.ipnet_lists.specs.EntryOf.{entry_range};

use crate::entry::Entry;
use ipnet::{IpAddr, IpNet, Ipv4Addr};
use ipnet_text::{ipv4_addr_at, ipv4_network_after};

/// The length of the longest line that is read here, with its "\n".
const LONGEST: usize = "255.255.255.255-255.255.255.255\n".len();

/// The range from the address to the address at the front of the bytes, which ends the line; and the length of its
/// text.
#[inline]
fn range_after(first: Ipv4Addr, bytes: &[u8]) -> Option<(Entry, usize)>
    requires { 16 ≤ length bytes.now }
    ensures entry { IfSome result (λ line. (text : List ℕ) → IsIpv4AddressText Strict text (ipv4_octets first)
        → (grammar : Grammar) → IsEntryWord grammar (text ++ 45 ∷ take line.1 bytes.now) (entry_range line.0)) }
    ensures newline { IfSome result (λ line. slice_index bytes.now line.1 ≡ 10) }
    ensures few { IfSome result (λ line. line.1 ≤ 15) }
{
    let (last, len) = ipv4_addr_at(bytes)?;
    if bytes[len] != b'\n' || last.to_bits() < first.to_bits() {
        return None;
    }
    Some((Entry::Ipv4Range(first, last), len))
}

/// The entry of the first line, and the length of the line without its "\n". Its text is one of the strict grammar, so
/// it is the same entry in both grammars.
///
/// `None` says nothing about the line: it may be an entry. IPv4 networks, addresses and ranges are read, if there is
/// nothing else on the line, and if 32 bytes are there.
///
/// ```text
/// "10.0.0.1-10.0.0.9\n" and 14 bytes or more: the range, and 17
/// "10.0.0.1-10.0.0.9\n" and no more, or "10.0.0.1 # ours\n" and more: None
/// ```
#[inline]
pub(crate) fn front_entry(bytes: &[u8]) -> Option<(Entry, usize)>
    ensures entry { IfSome result (λ line. (grammar : Grammar)
        → IsEntryWord grammar (take line.1 bytes.now) (entry_range line.0)) }
    ensures newline { IfSome result (λ line. slice_index bytes.now line.1 ≡ 10) }
    ensures some { IfSome result (λ line. 0 < line.1) }
    ensures within { IfSome result (λ line. line.1 < length bytes.now) }
{
    if bytes.len() < LONGEST {
        return None;
    }
    let (first, len) = ipv4_addr_at(bytes)?;
    let after = &bytes[len + 1..];
    match bytes[len] {
        b'\n' => Some((Entry::Address(IpAddr::V4(first)), len)),
        b'/' => {
            let (network, digits) = ipv4_network_after(first, after)?;
            Some((Entry::Network(IpNet::V4(network)), len + 1 + digits))
        }
        b'-' => {
            let (entry, more) = range_after(first, after)?;
            Some((entry, len + 1 + more))
        }
        _ => None,
    }
}
