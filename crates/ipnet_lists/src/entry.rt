//! The entries of a list: networks, addresses, and ranges from a first to a last address.
ghost use Rattle.std.specs.Prelude.{IfSome, IsNone, ◌↔◌, ◌≡◌};
ghost use Rattle.ipnet_base.specs.Address.{ip_address};
ghost use Rattle.ipnet_base.specs.Network.{Network};
ghost use Rattle.ipnet_base.specs.Ranges.{AddressRange};
ghost use Rattle.ipnet.specs.NetworkOf.{ip_network};
ghost use Rattle.ipnet.specs.NetworkTexts.{IsNetworkText};
ghost use Rattle.ipnet_lists.specs.Entries.{IsAddressText, IsPlainEntry, IsRangeFrom, WriteRange, IsEntryText};
ghost use Rattle.ipnet_lists.specs.Entries.{IsMaskedBy, ReadsAs, WriteMasked};
ghost use Rattle.ipnet_lists.specs.EntryOf.{entry_range, IsWrittenAs};
ghost use Rattle.ipnet_lists.specs.EntrySteps.{HasEnds};

use crate::bytes::has_byte;
use arrayvec::ArrayString;
use ipnet::{
    Grammar, IpAddr, IpNet, IpSubnets, Ipv4Addr, Ipv4Net, Ipv4Subnets, Ipv6Addr, Ipv6Subnets,
};

/// An entry of a list.
///
/// ```text
/// 10.0.0.9/8, 10.0.0.9/255.0.0.0, 10.0.0.1, 10.0.0.1-10.0.0.9, fd00::9/8, fd00::1, fd00::1-fd00::9
/// ```
#[derive(Clone, Copy, Debug, PartialEq, Eq)]
pub enum Entry {
    /// The addresses of the network's block.
    Network(IpNet),
    /// One address.
    Address(IpAddr),
    /// The IPv4 addresses from the first to the last.
    Ipv4Range(Ipv4Addr, Ipv4Addr),
    /// The IPv6 addresses from the first to the last.
    Ipv6Range(Ipv6Addr, Ipv6Addr),
}

impl Entry {
    ghost use Rattle.ipnet_base.specs.Address.{address_at};
    ghost use Rattle.ipnet_base.specs.Blocks.{AreMaximalBlocks};
    ghost use Rattle.ipnet.specs.SubnetsLeft.{ip_subnets_left};
    ghost use Rattle.ipnet_sets.specs.SetRanges.{IsInRange};
    ghost use Rattle.ipnet_lists.specs.EntryOf.{entry_range};

    /// Returns the first and the last address of the entry. They are of one family, and the first is at most the last
    /// if the entry was parsed.
    ///
    /// ```text
    /// 10.0.0.9/8             10.0.0.0 and 10.255.255.255
    /// 10.0.0.1               10.0.0.1 and 10.0.0.1
    /// 10.0.0.1-10.0.0.9      10.0.0.1 and 10.0.0.9
    /// ```
    pub fn ends(self) -> (IpAddr, IpAddr)
        ensures first { ip_address result.0 ≡ address_at (entry_range self).family (entry_range self).start }
        ensures last { ip_address result.1 ≡ address_at (entry_range self).family (entry_range self).end }
    {
        match self {
            Entry::Network(network) => (network.network(), network.broadcast()),
            Entry::Address(address) => (address, address),
            Entry::Ipv4Range(first, last) => (IpAddr::V4(first), IpAddr::V4(last)),
            Entry::Ipv6Range(first, last) => (IpAddr::V6(first), IpAddr::V6(last)),
        }
    }

    /// Returns a walk over the fewest networks with the addresses of the entry.
    ///
    /// ```text
    /// of 10.0.0.0-10.0.0.5: 10.0.0.0/30, 10.0.0.4/31
    /// ```
    pub fn walk(self) -> IpSubnets
        ensures { AreMaximalBlocks (IsInRange (entry_range self)) 0 (ip_subnets_left result) }
    {
        match self.ends() {
            (IpAddr::V4(first), IpAddr::V4(last)) => {
                IpSubnets::V4(Ipv4Subnets::new(first, last, 0))
            }
            (IpAddr::V6(first), IpAddr::V6(last)) => {
                IpSubnets::V6(Ipv6Subnets::new(first, last, 0))
            }
            _ => {
                let address = Ipv4Addr::from_bits(0);
                IpSubnets::V4(Ipv4Subnets::new(address, address, 0))
            }
        }
    }
}

/// The network that the text writes with a prefix length.
fn read_network(text: &str, grammar: Grammar) -> Option<IpNet>
    ensures { ReadsAs ip_network (IsNetworkText grammar) text.now result }
{
    IpNet::parse_as(text, grammar).ok()
}

/// The length of the longest text of an address, in the legacy grammar.
const LONGEST_ADDRESS: usize = "::ffff:ffff:ffff:ffff:ffff:ffff:255.255.255.255".len();

/// The length of the longest text of an address with "/32" after it.
const LONGEST_NETWORK: usize = LONGEST_ADDRESS + 3;

/// Returns the address that the whole text is in this grammar, or `None` if it is not an address. Allocates nothing.
///
/// ```text
/// 10.0.0.1:               10.0.0.1
/// 10.0.0.1/32, fd00::1%2: None
/// 010.0.0.1:              10.0.0.1 in the legacy grammar, None in the strict grammar
/// ```
pub fn parse_address(text: &str, grammar: Grammar) -> Option<IpAddr>
    ensures { ReadsAs ip_address (IsAddressText grammar) text.now result }
{
    if text.len() > LONGEST_ADDRESS {
        return None;
    }
    // With "/32" after it, the text of an address of either family is the text of a network.
    let mut network = ArrayString::<LONGEST_NETWORK>::new();
    network.push_str(text);
    network.push_str("/32");
    match read_network(network.as_str(), grammar) {
        Some(network) => Some(network.addr()),
        None => None,
    }
}

/// The network of the IPv4 address with this netmask, if it is one, and if a netmask of zeros follows the address of
/// zeros.
fn masked_network(address: IpAddr, mask: IpAddr) -> Option<IpNet>
    ensures some { IfSome result (λ n. IsMaskedBy (ip_address address) (ip_address mask) (ip_network n)) }
    ensures none { IsNone result ↔ ((n : Network)
        → ¬ (IsMaskedBy (ip_address address) (ip_address mask) n)) }
{
    match (address, mask) {
        (IpAddr::V4(address), IpAddr::V4(mask)) => {
            if mask.to_bits() == 0 && address.to_bits() != 0 {
                return None;
            }
            if mask.to_bits() == u32::MAX && address.to_bits() == 0 {
                return None;
            }
            match Ipv4Net::with_netmask(address, mask) {
                Ok(network) => Some(IpNet::V4(network)),
                Err(_) => None,
            }
        }
        _ => None,
    }
}

/// The network that the texts of an address and of a netmask write.
fn read_masked(address: &str, mask: &str, grammar: Grammar) -> Option<IpNet>
    ensures { ReadsAs ip_network (WriteMasked grammar address.now) mask.now result }
{
    let Some(address) = parse_address(address, grammar) else {
        return None;
    };
    let Some(mask) = parse_address(mask, grammar) else {
        return None;
    };
    masked_network(address, mask)
}

/// The entry of the addresses from the first to the last, if these are of one family, and the last does not come
/// before the first.
fn range_entry(first: IpAddr, last: IpAddr) -> Option<Entry>
    ensures some { IfSome result (λ e. IsRangeFrom (ip_address first) (ip_address last) (entry_range e)) }
    ensures none { IsNone result ↔ ((range : AddressRange)
        → ¬ (IsRangeFrom (ip_address first) (ip_address last) range)) }
    ensures ends { IfSome result (HasEnds (λ x. x ≡ ip_address first) (λ x. x ≡ ip_address last)) }
{
    match (first, last) {
        (IpAddr::V4(first), IpAddr::V4(last)) if first.to_bits() <= last.to_bits() => {
            Some(Entry::Ipv4Range(first, last))
        }
        (IpAddr::V6(first), IpAddr::V6(last)) if first.to_bits() <= last.to_bits() => {
            Some(Entry::Ipv6Range(first, last))
        }
        _ => None,
    }
}

/// The entry from the first address to the last, each written by its text.
pub(crate) fn read_range(first: &str, last: &str, grammar: Grammar) -> Option<Entry>
    ensures reads { ReadsAs entry_range (WriteRange grammar first.now) last.now result }
    ensures kind { IfSome result (HasEnds (IsAddressText grammar first.now) (IsAddressText grammar last.now)) }
{
    let Some(first) = parse_address(first, grammar) else {
        return None;
    };
    let Some(last) = parse_address(last, grammar) else {
        return None;
    };
    range_entry(first, last)
}

/// The entry that the text of a network or an address is.
fn read_plain(text: &str, grammar: Grammar) -> Option<Entry>
    ensures reads { ReadsAs entry_range (IsPlainEntry grammar) text.now result }
    ensures kind { IfSome result (IsWrittenAs grammar text.now) }
{
    match text.split_once('/') {
        Some((address, mask)) => {
            if let Some(network) = read_network(text, grammar) {
                return Some(Entry::Network(network));
            }
            match read_masked(address, mask, grammar) {
                Some(network) => Some(Entry::Network(network)),
                None => None,
            }
        }
        None => match parse_address(text, grammar) {
            Some(address) => Some(Entry::Address(address)),
            None => None,
        },
    }
}

/// The entry that the whole text is in this grammar, or `None` if it is none.
///
/// An entry is a network, an address or a range. Host bits of a network do not matter. An IPv4 network can have a
/// netmask in place of the prefix length; a netmask of zeros only follows the address of zeros. A range is a first and
/// a last address of one family joined by "-". Its last address does not come before its first. Blanks around the "-"
/// do not matter, if none is a carriage return. The variant of the value says which of these the text is; a range of
/// one address is a range.
///
/// The legacy grammar accepts leading zeros in decimal numbers, and a "::" that replaces no group. Allocates nothing.
///
/// ```text
/// 10.0.0.9/8                  Network(10.0.0.9/8)
/// 10.0.0.9/255.0.0.0          Network(10.0.0.9/8)
/// 10.0.0.1                    Address(10.0.0.1)
/// 10.0.0.1-10.0.0.9           Ipv4Range(10.0.0.1, 10.0.0.9)
/// 10.0.0.1 - 10.0.0.9         Ipv4Range(10.0.0.1, 10.0.0.9)
/// 10.0.0.9-10.0.0.1           None
/// 10.0.0.1-::1                None
/// 10.0.0.5/0.0.0.0            None
/// ```
pub fn read_entry(text: &str, grammar: Grammar) -> Option<Entry>
    ensures reads { ReadsAs entry_range (IsEntryText grammar) text.now result }
    ensures kind { IfSome result (IsWrittenAs grammar text.now) }
{
    match text.split_once('-') {
        Some((first, last)) => {
            if has_byte(text.as_bytes(), b'\r') {
                return None;
            }
            read_range(first.trim_ascii_end(), last.trim_ascii_start(), grammar)
        }
        None => read_plain(text, grammar),
    }
}
