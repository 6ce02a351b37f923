//! Facts about texts that no single call states: each is the contract of a function. Three of these functions print a
//! network and read it back; the others do nothing.
ghost use Rattle.std.specs.Prelude.{◌≡◌, ℕ, List, ◌↔◌, ◌++◌, drop, codes, Ok};
ghost use Rattle.std.specs.Net.Addr.{ipv4_octets, ipv4_bits, ipv6_segments, ipv6_bits, IsIpv4Mapped, octets_of};
ghost use Rattle.std.specs.Net.Grammar.{IsDotted, IsColonHex};
ghost use Rattle.std.specs.Net.Text.{ipv4_text, ipv6_text};
ghost use Rattle.ipnet_base.specs.Address.{IPv4, IPv6};
ghost use Rattle.ipnet_base.specs.Network.{Network, IsNetwork};
ghost use Rattle.ipnet.specs.declared.parser.Grammar.TheVariants.{Strict, Legacy};
ghost use Rattle.ipnet.specs.AddressTexts.{IsIpv4AddressText, IsIpv6AddressText, IsGroups, EndsInIpv4, IsCompressed};
ghost use Rattle.ipnet.specs.NetworkTexts.{IsNetworkText, IsIpv4NetworkText, IsIpv6NetworkText};
ghost use Rattle.ipnet.specs.CanonicalTexts.{address_text, canonical_text, IsShortened};
ghost use Rattle.ipnet.specs.Lines.{AreNetworksOf, IsFirstBadLine};

use crate::net::{IpNet, Ipv4Net, Ipv6Net};
use crate::parser::{AddrParseError, Grammar};
use crate::print::{IPV4_NETWORK_LEN, IPV6_NETWORK_LEN};
use std::net::{Ipv4Addr, Ipv6Addr};

/// In either grammar a text writes one network at most, whose number and prefix length are in the range of its family.
pub fn one_network()
    ensures one { (grammar : Grammar) (text : List ℕ) (m n : Network)
        → IsNetworkText grammar text m → IsNetworkText grammar text n → m ≡ n }
    ensures valid { (grammar : Grammar) (text : List ℕ) (n : Network)
        → IsNetworkText grammar text n → IsNetwork n }
{}

/// No text writes networks of both families.
pub fn families_apart()
    ensures { (grammar : Grammar) (text : List ℕ) (m n : Network)
        → IsIpv4NetworkText grammar text m → ¬ (IsIpv6NetworkText grammar text n) }
{}

/// The text of an IPv6 address has exactly one of three forms (RFC 4291, section 2.2): groups, groups with an IPv4
/// address at the end, or groups with "::".
pub fn ipv6_forms_apart()
    ensures groups_or_ipv4 { (grammar : Grammar) (text groups others : List ℕ)
        → IsGroups text groups → ¬ (EndsInIpv4 grammar text others) }
    ensures groups_or_compressed { (grammar : Grammar) (text groups others : List ℕ)
        → IsGroups text groups → ¬ (IsCompressed grammar text others) }
    ensures ipv4_or_compressed { (grammar : Grammar) (text groups others : List ℕ)
        → EndsInIpv4 grammar text groups → ¬ (IsCompressed grammar text others) }
{}

/// The strict grammar of IPv4 addresses has exactly the texts of std's own grammar.
pub fn ipv4_strict_is_std()
    ensures { (text octets : List ℕ) → IsIpv4AddressText Strict text octets ↔ IsDotted text octets }
{}

/// The strict grammar of IPv6 addresses has exactly the texts of std's own grammar.
pub fn ipv6_strict_is_std()
    ensures { (text groups : List ℕ) → IsIpv6AddressText Strict text groups ↔ IsColonHex text groups }
{}

/// Each strict text is a legacy text of the same network.
pub fn strict_is_legacy()
    ensures { (text : List ℕ) (n : Network) → IsNetworkText Strict text n → IsNetworkText Legacy text n }
{}

/// The canonical text of a network writes that network, in both grammars.
pub fn canonical_is_read()
    ensures { (grammar : Grammar) (n : Network) → IsNetwork n → IsNetworkText grammar (canonical_text n) n }
{}

/// The canonical text of an IPv4 network reads back as that network, by the reader of either grammar.
pub fn ipv4_text_reads_back(network: &Ipv4Net, grammar: Grammar) -> Result<Ipv4Net, AddrParseError>
    ensures { result ≡ Ok network.now }
{
    let text = network.to_text();
    Ipv4Net::parse_as(text.as_str(), grammar)
}

/// The canonical text of an IPv6 network reads back as that network, by the reader of either grammar.
pub fn ipv6_text_reads_back(network: &Ipv6Net, grammar: Grammar) -> Result<Ipv6Net, AddrParseError>
    ensures { result ≡ Ok network.now }
{
    let text = network.to_text();
    Ipv6Net::parse_as(text.as_str(), grammar)
}

/// The canonical text of a network of either family reads back as that network, by the reader of either grammar.
pub fn ip_text_reads_back(network: &IpNet, grammar: Grammar) -> Result<IpNet, AddrParseError>
    ensures { result ≡ Ok network.now }
{
    let text = network.to_text();
    IpNet::parse_as(text.as_str(), grammar)
}

/// Two networks have the same canonical text exactly when they are equal.
pub fn prints_apart()
    ensures { (m n : Network) → IsNetwork m → IsNetwork n
        → (canonical_text m ≡ canonical_text n) ↔ (m ≡ n) }
{}

/// The text of an IPv4 address is the same by its number, as in the text of a network, and by its octets, as
/// `ipv4_addr_text` gives it.
pub fn ipv4_address_text_is_of_octets(addr: Ipv4Addr)
    ensures { address_text IPv4 (ipv4_bits addr) ≡ ipv4_text (ipv4_octets addr) }
{}

/// The text of an IPv6 address is the same by its number, as in the text of a network, and by its groups, as
/// `ipv6_addr_text` gives it.
pub fn ipv6_address_text_is_of_groups(addr: Ipv6Addr)
    ensures { address_text IPv6 (ipv6_bits addr) ≡ ipv6_text (ipv6_segments addr) }
{}

/// The canonical text of an IPv6 address, by its groups: in dotted form after `::ffff:` if the address is mapped.
/// Otherwise `::` replaces the first of the longest runs of two zero groups or more (RFC 5952, sections 4.2 and 5).
pub fn shortens_longest_run()
    ensures mapped { (groups : List ℕ) → IsIpv4Mapped groups
        → ipv6_text groups ≡ codes "::ffff:" ++ ipv4_text (octets_of (drop 6 groups)) }
    ensures others { (groups : List ℕ) → ¬ (IsIpv4Mapped groups) → IsShortened groups (ipv6_text groups) }
{}

/// The buffers that `to_text` returns have room for 18 bytes and for 43, the lengths of the longest texts of networks:
/// `255.255.255.255/32` and `ffff:ffff:ffff:ffff:ffff:ffff:ffff:ffff/128`.
pub fn network_texts_have_the_longest_room()
    ensures ipv4 { IPV4_NETWORK_LEN ≡ 18 }
    ensures ipv6 { IPV6_NETWORK_LEN ≡ 43 }
{}

/// The lines of a text write at most one list of networks, and no list if a line is bad. At most one line is the first
/// bad line.
pub fn one_list()
    ensures one { (grammar : Grammar) (lines : List (List ℕ)) (networks others : List Network)
        → AreNetworksOf grammar lines networks → AreNetworksOf grammar lines others → networks ≡ others }
    ensures none_bad { (grammar : Grammar) (lines : List (List ℕ)) (networks : List Network) (number : ℕ)
        → AreNetworksOf grammar lines networks → ¬ (IsFirstBadLine grammar lines number) }
    ensures one_number { (grammar : Grammar) (lines : List (List ℕ)) (number other : ℕ)
        → IsFirstBadLine grammar lines number → IsFirstBadLine grammar lines other → number ≡ other }
{}
