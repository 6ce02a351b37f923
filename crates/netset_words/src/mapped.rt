//! IPv4-mapped addresses.
ghost use Rattle.std.specs.Prelude.{◌≡◌, ◌<◌, ◌+◌, List, ℕ, true, MatchOption};
ghost use Rattle.std.specs.Net.Addr.{ipv4_bits, ipv6_bits};
ghost use Rattle.ipnet_base.specs.Address.{ip_address};
ghost use Rattle.ipnet.specs.declared.parser.Grammar.{Grammar};
ghost use Rattle.ipnet_lists.specs.Entries.{IsAddressText};
ghost use Rattle.ipnet_lists.specs.EntryOf.{IsWrittenAs};
ghost use Rattle.netset_words.specs.Places.{IsMappedText};

use ipnet::{IpAddr, Ipv4Addr, Ipv6Addr};
use ipnet_lists::Entry;

/// Returns the IPv4 address of an IPv4-mapped address.
fn unmapped(address: Ipv6Addr) -> Option<Ipv4Addr>
    ensures { MatchOption result ((ipv4 : ℕ) → ipv4 < 4294967296
        → ¬ (ipv6_bits address ≡ 281470681743360 + ipv4))
        (λ a. (ipv6_bits address ≡ 281470681743360 + ipv4_bits a) × (ipv4_bits a < 4294967296)) }
{
    let number = address.to_bits();
    let high = number / 0x1_0000_0000;
    if high != 0xffff {
        return None;
    }
    Some(Ipv4Addr::from_bits((number % 0x1_0000_0000) as u32))
}

/// Returns the IPv4 address of an address that is an IPv4-mapped address.
fn mapped_address(address: IpAddr) -> Option<Ipv4Addr>
    ensures { (grammar : Grammar) → (text : List ℕ) → IsAddressText grammar text (ip_address address)
        → MatchOption result ((ipv4 : ℕ) → ¬ (IsMappedText grammar text ipv4))
        (λ a. IsMappedText grammar text (ipv4_bits a)) }
{
    match address {
        IpAddr::V6(address) => unmapped(address),
        IpAddr::V4(_) => None,
    }
}

/// Returns the IPv4 address of an entry that is an IPv4-mapped address, if that is asked for.
pub(crate) fn mapped_ipv4(mapped: bool, entry: Entry) -> Option<Ipv4Addr>
    ensures { (grammar : Grammar) → (text : List ℕ) → IsWrittenAs grammar text entry
        → MatchOption result (mapped ≡ true → (ipv4 : ℕ) → ¬ (IsMappedText grammar text ipv4))
        (λ a. (mapped ≡ true) × IsMappedText grammar text (ipv4_bits a)) }
{
    if !mapped {
        return None;
    }
    match entry {
        Entry::Address(address) => mapped_address(address),
        Entry::Network(_) => None,
        Entry::Ipv4Range(_, _) => None,
        Entry::Ipv6Range(_, _) => None,
    }
}
