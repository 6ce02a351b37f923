//! The canonical text of addresses and networks (RFC 4632, section 3.1; RFC 4291, section 2.3; RFC 5952).
//!
//! Every text is made in a buffer of fixed capacity, so printing allocates nothing.
ghost use Rattle.std.specs.Prelude.{◌≡◌, ◌+◌, ◌-◌, ◌*◌, ◌≤◌, ◌<◌, [], ◌∷◌, ◌++◌, length, codes, decimal, Some};
ghost use Rattle.std.specs.Char.{digit_char};
ghost use Rattle.std.specs.Fmt.{DisplaysOnOk, DisplaysStyledOnOk};
ghost use Rattle.std.specs.Net.Addr.{ipv4_octets, ipv4_bits, ipv6_segments, ipv6_bits};
ghost use Rattle.std.specs.Net.Text.{ipv4_text, ipv6_text, hex, groups_text};
ghost use Rattle.std.specs.Net.Text as text;
ghost use Rattle.arrayvec.specs.ArrayString.{array_string_len};
ghost use Rattle.ipnet_base.specs.Address.{IPv4, IPv6};
ghost use Rattle.ipnet.specs.NetworkOf.{ipv4_network, ipv6_network, ip_network};
ghost use Rattle.ipnet.specs.CanonicalTexts.{address_text, canonical_text};

use crate::net::{IpNet, Ipv4Net, Ipv6Net};
use arrayvec::ArrayString;
use std::fmt;
use std::net::{Ipv4Addr, Ipv6Addr};

/// The length of the longest IPv4 address text.
pub const IPV4_ADDR_LEN: usize = "255.255.255.255".len();

/// The length of the longest IPv6 address text.
pub const IPV6_ADDR_LEN: usize = "ffff:ffff:ffff:ffff:ffff:ffff:ffff:ffff".len();

/// The length of the longest IPv4 network text.
pub const IPV4_NETWORK_LEN: usize = "255.255.255.255/32".len();

/// The length of the longest IPv6 network text, and so of the longest network text of all.
pub const IPV6_NETWORK_LEN: usize = "ffff:ffff:ffff:ffff:ffff:ffff:ffff:ffff/128".len();

/// The room that the groups of an address are given: four digits and a ":" for each of the eight. The first has no ":"
/// before it, so their longest text is one byte shorter; counted like this the bound goes from group to group.
const GROUPS_ROOM: usize = 8 * "ffff:".len();

/// The buffer that a text is written into, piece by piece: it has room for the longest of all.
//
// One type, so that each private step has one body and one proof; a shorter text is then copied into the type that its
// call names.
type Buffer = ArrayString<IPV6_NETWORK_LEN>;

/// The digit, in lower case.
fn digit(value: u16) -> &'static str
    requires { value < 16 }
    ensures { result.now ≡ digit_char value ∷ [] }
{
    match value {
        0 => "0",
        1 => "1",
        2 => "2",
        3 => "3",
        4 => "4",
        5 => "5",
        6 => "6",
        7 => "7",
        8 => "8",
        9 => "9",
        10 => "a",
        11 => "b",
        12 => "c",
        13 => "d",
        14 => "e",
        _ => "f",
    }
}

// The three digits of each byte, one byte after the other. A table, because one copy of a whole text is faster than a
// division and a copy for each digit.
const DECIMALS: &str = "\
000001002003004005006007008009010011012013014015016017018019020021022023024025026027028029030031\
032033034035036037038039040041042043044045046047048049050051052053054055056057058059060061062063\
064065066067068069070071072073074075076077078079080081082083084085086087088089090091092093094095\
096097098099100101102103104105106107108109110111112113114115116117118119120121122123124125126127\
128129130131132133134135136137138139140141142143144145146147148149150151152153154155156157158159\
160161162163164165166167168169170171172173174175176177178179180181182183184185186187188189190191\
192193194195196197198199200201202203204205206207208209210211212213214215216217218219220221222223\
224225226227228229230231232233234235236237238239240241242243244245246247248249250251252253254255";

/// The number of digits of the number in decimal, without leading zeros.
#[tactic(auto, using(crate::proofs::PrintedDigits::decimal_count))]
fn decimal_width(n: u8) -> usize
    ensures value { result ≡ length (decimal n) }
    ensures short { result ≤ 3 }
{
    if n < 10 {
        1
    } else if n < 100 {
        2
    } else {
        3
    }
}

/// The number in decimal, without leading zeros.
fn decimal_text(n: u8) -> &'static str
    ensures { result.now ≡ decimal n }
{
    let end = usize::from(n) * 3 + 3;
    let start = end - decimal_width(n);
    &DECIMALS[start..end]
}

/// Appends the number in decimal, without leading zeros.
#[tactic(auto, using(crate::proofs::PrintedDigits::decimal_short))]
fn push_decimal(out: &mut Buffer, n: u8)
    requires { array_string_len out.old + 3 ≤ IPV6_NETWORK_LEN }
    ensures bytes { out.new.bytes ≡ out.old.bytes ++ decimal n }
    ensures short { array_string_len out.new ≤ array_string_len out.old + 3 }
    ensures shorter { n < 100 → array_string_len out.new ≤ array_string_len out.old + 2 }
{
    out.push_str(decimal_text(n));
}

/// Appends the octets in decimal, joined by ".".
fn push_octets(out: &mut Buffer, octets: [u8; 4])
    requires { array_string_len out.old + IPV4_ADDR_LEN ≤ IPV6_NETWORK_LEN }
    ensures bytes { out.new.bytes ≡ out.old.bytes ++ ipv4_text octets }
    ensures short { array_string_len out.new ≤ array_string_len out.old + IPV4_ADDR_LEN }
{
    let [a, b, c, d] = octets;
    push_decimal(out, a);
    out.push_str(".");
    push_decimal(out, b);
    out.push_str(".");
    push_decimal(out, c);
    out.push_str(".");
    push_decimal(out, d);
}

/// Appends "/" and the prefix length in decimal, without leading zeros.
fn push_prefix_len(out: &mut Buffer, prefix_len: u8)
    requires { array_string_len out.old + 4 ≤ IPV6_NETWORK_LEN }
    ensures bytes { out.new.bytes ≡ out.old.bytes ++ codes "/" ++ decimal prefix_len }
    ensures shorter { prefix_len < 100 → array_string_len out.new ≤ array_string_len out.old + 3 }
{
    out.push_str("/");
    push_decimal(out, prefix_len);
}

/// Appends the group in hexadecimal, without leading zeros.
#[tactic(auto, using(crate::proofs::PrintedDigits::hex_after))]
fn push_group(out: &mut Buffer, n: u16)
    requires { array_string_len out.old + 4 ≤ IPV6_NETWORK_LEN }
    ensures bytes { out.new.bytes ≡ out.old.bytes ++ hex n }
    ensures short { array_string_len out.new ≤ array_string_len out.old + 4 }
{
    if n >= 0x1000 {
        out.push_str(digit(n / 0x1000));
    }
    if n >= 0x100 {
        out.push_str(digit(n / 0x100 % 16));
    }
    if n >= 0x10 {
        out.push_str(digit(n / 0x10 % 16));
    }
    out.push_str(digit(n % 16));
}

/// Appends the groups, joined by ":".
fn push_groups(out: &mut Buffer, groups: &[u16])
    requires { array_string_len out.old + 5 * length groups.now ≤ IPV6_NETWORK_LEN }
    ensures bytes { out.new.bytes ≡ out.old.bytes ++ groups_text groups.now }
    ensures short { array_string_len out.new ≤ array_string_len out.old + (5 * length groups.now - 1) }
{
    if let [first, rest @ ..] = groups {
        push_group(out, *first);
        for group in rest {
            out.push_str(":");
            push_group(out, *group);
        }
    }
}

/// The start and the length of the longest run of zero groups, the first one of that length.
//
// From the back, so that each place begins the run that is counted there. If several runs are longest, `>=` keeps the
// one found last, which is the first in the text.
fn longest_zero_run(groups: &[u16]) -> (usize, usize)
    ensures value { result ≡ text.longest_zero_run groups.now }
    ensures within { result.0 + result.1 ≤ length groups.now }
{
    let mut start = groups.len();
    let mut len = 0;
    let mut run = 0;
    for i in (0..groups.len()).rev() {
        run = if groups[i] == 0 { run + 1 } else { 0 };
        if run >= len {
            start = i;
            len = run;
        }
    }
    (start, len)
}

/// Appends the groups, with "::" for the longest run of two zero groups or more.
#[tactic(auto, unfolding(std::specs::Net::Text::hex_groups_text))]
fn push_shortened(out: &mut Buffer, groups: &[u16])
    requires eight { length groups.now ≡ 8 }
    requires room { array_string_len out.old + GROUPS_ROOM ≤ IPV6_NETWORK_LEN }
    ensures bytes { out.new.bytes ≡ out.old.bytes ++ text.hex_groups_text groups.now }
    ensures short { array_string_len out.new ≤ array_string_len out.old + IPV6_ADDR_LEN }
{
    let (start, len) = longest_zero_run(groups);
    if len < 2 {
        push_groups(out, groups);
    } else {
        push_groups(out, &groups[..start]);
        out.push_str("::");
        push_groups(out, &groups[start + len..]);
    }
}

/// Appends the address: a mapped one in dotted form, and any other in groups.
#[tactic(auto, unfolding(std::specs::Net::Text::ipv6_text))]
fn push_ipv6(out: &mut Buffer, addr: Ipv6Addr)
    requires { array_string_len out.old + GROUPS_ROOM ≤ IPV6_NETWORK_LEN }
    ensures bytes { out.new.bytes ≡ out.old.bytes ++ ipv6_text (ipv6_segments addr) }
    ensures short { array_string_len out.new ≤ array_string_len out.old + IPV6_ADDR_LEN }
{
    if let Some(mapped) = addr.to_ipv4_mapped() {
        out.push_str("::ffff:");
        push_octets(out, mapped.octets());
    } else {
        push_shortened(out, &addr.segments());
    }
}

/// The canonical text of an IPv4 address: its four octets in decimal, joined by ".".
///
/// ```text
/// 10.1.1.0
/// ```
pub fn ipv4_addr_text(addr: Ipv4Addr) -> ArrayString<IPV4_ADDR_LEN>
    ensures of_octets { result.bytes ≡ ipv4_text (ipv4_octets addr) }
    ensures of_number { result.bytes ≡ address_text IPv4 (ipv4_bits addr) }
{
    let mut buffer = Buffer::new();
    push_octets(&mut buffer, addr.octets());
    let mut out = ArrayString::new();
    out.push_str(buffer.as_str());
    out
}

/// The canonical text of an IPv6 address (RFC 5952): its groups in lower-case hexadecimal without leading zeros,
/// joined by ":", with "::" for the first of the longest runs of two zero groups or more.
///
/// The mapped addresses `::ffff:0:0/96` end in dotted form (RFC 5952, section 5), and no others: an IPv4-compatible
/// address is written in groups.
///
/// ```text
/// 2001:db8::1:0:0:1
/// 1:0:2:3:4:5:6:7
/// ::ffff:1.2.3.4
/// ::102:304
/// ```
pub fn ipv6_addr_text(addr: Ipv6Addr) -> ArrayString<IPV6_ADDR_LEN>
    ensures of_groups { result.bytes ≡ ipv6_text (ipv6_segments addr) }
    ensures of_number { result.bytes ≡ address_text IPv6 (ipv6_bits addr) }
{
    let mut buffer = Buffer::new();
    push_ipv6(&mut buffer, addr);
    let mut out = ArrayString::new();
    out.push_str(buffer.as_str());
    out
}

/// The canonical text of the network, in the buffer that it was written into.
#[tactic(auto, unfolding(std::specs::Net::Addr::IsIpv4OfBits))]
fn ipv4_network_text(net: &Ipv4Net) -> Buffer
    ensures bytes { result.bytes ≡ canonical_text (ipv4_network net.now) }
    ensures short { array_string_len result ≤ IPV4_NETWORK_LEN }
{
    let mut out = Buffer::new();
    push_octets(&mut out, Ipv4Addr::from_bits(net.number()).octets());
    push_prefix_len(&mut out, net.prefix_len());
    out
}

impl Ipv4Net {
    /// The canonical text of the network: its address with the host bits, "/", and the prefix length in decimal without
    /// leading zeros.
    ///
    /// ```text
    /// 10.1.1.0/24
    /// ```
    pub fn to_text(&self) -> ArrayString<IPV4_NETWORK_LEN>
        ensures { result.bytes ≡ canonical_text (ipv4_network self.now) }
    {
        let mut out = ArrayString::new();
        out.push_str(ipv4_network_text(self).as_str());
        out
    }
}

impl Ipv6Net {
    /// The canonical text of the network: its address with the host bits, "/", and the prefix length in decimal without
    /// leading zeros.
    ///
    /// ```text
    /// 2001:db8::1:0:0:1/64
    /// ```
    #[tactic(auto, unfolding(std::specs::Net::Addr::IsIpv6OfBits))]
    pub fn to_text(&self) -> ArrayString<IPV6_NETWORK_LEN>
        ensures { result.bytes ≡ canonical_text (ipv6_network self.now) }
    {
        let mut out = ArrayString::new();
        push_ipv6(&mut out, Ipv6Addr::from_bits(self.number()));
        push_prefix_len(&mut out, self.prefix_len());
        out
    }
}

impl IpNet {
    /// The canonical text of the network of either family: its address with the host bits, "/", and the prefix length
    /// in decimal without leading zeros.
    ///
    /// ```text
    /// 10.1.1.0/24
    /// 2001:db8::1:0:0:1/64
    /// ```
    pub fn to_text(&self) -> ArrayString<IPV6_NETWORK_LEN>
        ensures { result.bytes ≡ canonical_text (ip_network self.now) }
    {
        match self {
            IpNet::V4(net) => ipv4_network_text(net),
            IpNet::V6(net) => net.to_text(),
        }
    }
}

/// Writes the canonical text. The formatter's width, fill and other flags are ignored.
impl fmt::Display for Ipv4Net {
    ghost output = { λ n. Some (canonical_text (ipv4_network n)) };

    ghost styled_output = { λ n _. Some (canonical_text (ipv4_network n)) };

    fn fmt<W: fmt::Write>(&self, f: &mut fmt::Formatter<W>) -> fmt::Result {
        f.write_str(ipv4_network_text(self).as_str())
    }
}

/// Writes the canonical text. The formatter's width, fill and other flags are ignored.
impl fmt::Display for Ipv6Net {
    ghost output = { λ n. Some (canonical_text (ipv6_network n)) };

    ghost styled_output = { λ n _. Some (canonical_text (ipv6_network n)) };

    fn fmt<W: fmt::Write>(&self, f: &mut fmt::Formatter<W>) -> fmt::Result {
        f.write_str(self.to_text().as_str())
    }
}

/// Writes the canonical text. The formatter's width, fill and other flags are ignored.
impl fmt::Display for IpNet {
    ghost output = { λ n. Some (canonical_text (ip_network n)) };

    ghost styled_output = { λ n _. Some (canonical_text (ip_network n)) };

    fn fmt<W: fmt::Write>(&self, f: &mut fmt::Formatter<W>) -> fmt::Result {
        match self {
            IpNet::V4(net) => fmt::Display::fmt(net, f),
            IpNet::V6(net) => fmt::Display::fmt(net, f),
        }
    }
}

/// Writes the canonical text, as `Display` does, also under `{:#?}`, a width or another flag, which are ignored.
impl fmt::Debug for Ipv4Net {
    ghost debug_output = { λ n. Some (canonical_text (ipv4_network n)) };

    fn fmt<W: fmt::Write>(&self, f: &mut fmt::Formatter<W>) -> fmt::Result
        ensures writes { DisplaysOnOk W.write_str_gives f.old result
            (Some (canonical_text (ipv4_network self.now))) f.new }
        ensures styled { DisplaysStyledOnOk W.write_str_gives f.old result
            (Some (canonical_text (ipv4_network self.now))) f.new }
    {
        <Ipv4Net as fmt::Display>::fmt(self, f)
    }
}

/// Writes the canonical text, as `Display` does, also under `{:#?}`, a width or another flag, which are ignored.
impl fmt::Debug for Ipv6Net {
    ghost debug_output = { λ n. Some (canonical_text (ipv6_network n)) };

    fn fmt<W: fmt::Write>(&self, f: &mut fmt::Formatter<W>) -> fmt::Result
        ensures writes { DisplaysOnOk W.write_str_gives f.old result
            (Some (canonical_text (ipv6_network self.now))) f.new }
        ensures styled { DisplaysStyledOnOk W.write_str_gives f.old result
            (Some (canonical_text (ipv6_network self.now))) f.new }
    {
        <Ipv6Net as fmt::Display>::fmt(self, f)
    }
}

/// Writes the canonical text, as `Display` does, also under `{:#?}`, a width or another flag, which are ignored.
impl fmt::Debug for IpNet {
    ghost debug_output = { λ n. Some (canonical_text (ip_network n)) };

    fn fmt<W: fmt::Write>(&self, f: &mut fmt::Formatter<W>) -> fmt::Result
        ensures writes { DisplaysOnOk W.write_str_gives f.old result
            (Some (canonical_text (ip_network self.now))) f.new }
        ensures styled { DisplaysStyledOnOk W.write_str_gives f.old result
            (Some (canonical_text (ip_network self.now))) f.new }
    {
        <IpNet as fmt::Display>::fmt(self, f)
    }
}
