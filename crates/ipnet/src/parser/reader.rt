//! Reading a text in one forward pass. The family is known beforehand, from at most the first four bytes.
ghost use Rattle.std.specs.Prelude.{◌≡◌, ◌≢◌, [], ◌∷◌, ◌+◌, ◌<◌, ◌≤◌, length, take, drop, slice_index, IfSome};
ghost use Rattle.std.specs.Prelude.{IfNone, option_map, MatchOption, true};
ghost use Rattle.std.specs.Bool.{OnTrue, OnFalse};
ghost use Rattle.std.specs.Char.{digit_value};
ghost use Rattle.std.specs.Str.Parse.{AllDigits, digits_value};
ghost use Rattle.std.specs.Net.Addr.{ipv4_octets, ipv6_segments};
ghost use Rattle.ipnet_base.specs.Network.{Network};
ghost use Rattle.ipnet.specs.AddressTexts.{expanded};
ghost use Rattle.ipnet.specs.NetworkOf.{ip_network};
ghost use Rattle.ipnet.specs.NetworkTexts.{IsNetworkText};
ghost use Rattle.ipnet.specs.ReaderSteps.{dot, decimal_run, hex_run, decimal_of, read_byte, octet_at, read_octet};
ghost use Rattle.ipnet.specs.ReaderSteps.{read_dotted, read_prefix_len, read_ipv4_network, read_dotted_groups};
ghost use Rattle.ipnet.specs.ReaderSteps.{read_groups, read_compressed, read_ipv6, read_ipv6_network, is_single_colon};

use crate::net::{IpNet, Ipv4Net, Ipv6Net};
use crate::parser::Grammar;
use arrayvec::ArrayVec;
use ipnet_base::digits::hex_digit;
use std::net::{Ipv4Addr, Ipv6Addr};

/// Up to three decimal digits: their count and their number.
#[derive(Clone, Copy)]
struct Decimals {
    count: usize,
    number: u16,
}

/// The decimal digit at this place, or a number of at least 10 if the byte is not a digit.
fn decimal_digit(text: &[u8], index: usize) -> u8
    ensures digit { result < 10 → result ≡ digit_value (slice_index text.now index) }
    ensures within { result < 10 → index < length text.now }
    ensures other { 10 ≤ result → 10 ≤ digit_value (slice_index text.now index) }
{
    match text.get(index) {
        Some(byte) => byte.wrapping_sub(b'0'),
        None => 10,
    }
}

/// The decimal digits at the front, at most three. All three places are read, and the count of digits chooses among
/// values, without a branch, because a processor cannot predict the count.
fn first_decimals(rest: &[u8]) -> Decimals
    ensures run { decimal_run rest.now ≡ (take result.count rest.now, drop result.count rest.now) }
    ensures within { result.count ≤ length rest.now }
    ensures few { result.count ≤ 3 }
    ensures digits { AllDigits 10 (take result.count rest.now) }
    ensures number { result.number ≡ digits_value 10 (take result.count rest.now) }
{
    let first = decimal_digit(rest, 0);
    let second = decimal_digit(rest, 1);
    let third = decimal_digit(rest, 2);
    let one = u16::from(first);
    let two = one * 10 + u16::from(second);
    let three = two * 10 + u16::from(third);
    if first >= 10 {
        Decimals {
            count: 0,
            number: 0,
        }
    } else if second >= 10 {
        Decimals {
            count: 1,
            number: one,
        }
    } else if third >= 10 {
        Decimals {
            count: 2,
            number: two,
        }
    } else {
        Decimals {
            count: 3,
            number: three,
        }
    }
}

/// The number of at most 255 that these decimal digits write, if they write one: an octet, or a prefix length.
#[tactic(auto, using(std::proofs::lemmas::Bool::Decides::nat_tests), unfolding(crate::specs::ReaderSteps::decimal_of))]
fn decimal(rest: &[u8], digits: Decimals, grammar: Grammar) -> Option<u8>
    requires within { digits.count ≤ length rest.now }
    requires few { digits.count ≤ 3 }
    requires digits { AllDigits 10 (take digits.count rest.now) }
    requires number { digits.number ≡ digits_value 10 (take digits.count rest.now) }
    ensures { result ≡ decimal_of grammar (take digits.count rest.now) }
{
    if digits.count == 0 || digits.number > 255 {
        return None;
    }
    // There is a first digit: the test above comes first.
    if grammar == Grammar::Strict && digits.count > 1 && rest[0] == b'0' {
        return None;
    }
    Some(digits.number as u8)
}

/// The number that all of these bytes are in decimal, if they are a number of at most 255.
fn whole_decimal(digits: &[u8], grammar: Grammar) -> Option<u8>
    ensures { result ≡ decimal_of grammar digits.now }
{
    let front = first_decimals(digits);
    if front.count == digits.len() {
        decimal(digits, front, grammar)
    } else {
        None
    }
}

/// Whether a "." follows the decimal digits at the front, at most three: so does each IPv4 network begin, and no IPv6
/// network.
fn begins_dotted(text: &[u8]) -> bool
    ensures dotted { OnTrue result (slice_index (decimal_run text.now).1 0 ≡ dot) }
    ensures other { OnFalse result (slice_index (decimal_run text.now).1 0 ≢ dot) }
{
    matches!(&text[first_decimals(text).count..], [b'.', ..])
}

/// A run of hexadecimal digits, at most four, and the number that they write.
#[derive(Clone, Copy)]
struct Run<'a> {
    digits: &'a [u8],
    number: u16,
    ghost is_number: { number ≡ digits_value 16 digits.now },
}

/// The hexadecimal digit at this place, if there is one.
fn hex_digit_at(text: &[u8], index: usize) -> Option<u16>
    ensures none { IfNone result (16 ≤ digit_value (slice_index text.now index)) }
    ensures value { IfSome result (λ d. d ≡ digit_value (slice_index text.now index)) }
    ensures digit { IfSome result (λ d. d < 16) }
    ensures within { IfSome result (λ _. index < length text.now) }
{
    let digit = hex_digit(*text.get(index)?)?;
    Some(digit)
}

/// The hexadecimal digits at the front, at most four.
fn first_run(rest: &[u8]) -> Run<'_>
    ensures run { hex_run rest.now ≡ (result.digits.now, drop (length result.digits.now) rest.now) }
    ensures within { length result.digits.now ≤ length rest.now }
{
    let mut count = 0;
    let mut number = 0u16;
    while count < 4 {
        let Some(digit) = hex_digit_at(rest, count) else {
            break;
        };
        number = number * 16 + digit;
        count += 1;
    }
    Run {
        digits: &rest[..count],
        number,
    }
}

/// Groups, and whether a dotted address stands for the last two.
#[derive(Drop)]
struct Groups {
    groups: ArrayVec<u16, 8>,
    is_dotted: bool,
}

/// The address of these groups with zeros between them.
fn expand(head: &[u16], tail: &[u16]) -> Ipv6Addr
    requires { length head.now + length tail.now ≤ 8 }
    ensures { ipv6_segments result ≡ expanded head.now tail.now }
{
    let mut segments = [0; 8];
    segments[..head.len()].copy_from_slice(head);
    segments[8 - tail.len()..].copy_from_slice(tail);
    Ipv6Addr::from_segments(segments)
}

/// A text and how far it has been read.
#[derive(Drop)]
struct Reader<'a> {
    text: &'a [u8],
    position: usize,
    grammar: Grammar,
    ghost within: { position ≤ length text.now },
}

impl<'a> Reader<'a> {
    ghost use Rattle.ipnet.specs.ReaderState.{rest_of, IsForward, read_to, taken_to};

    /// Takes this byte, if it is next.
    fn byte(&mut self, byte: u8) -> bool
        ensures forward { IsForward self.old self.new }
        ensures value { taken_to result self.new ≡ read_byte byte (rest_of self.old) }
    {
        if self.position < self.text.len() && self.text[self.position] == byte {
            self.position += 1;
            true
        } else {
            false
        }
    }

    /// An octet, or a prefix length.
    #[tactic(auto, unfolding(crate::specs::ReaderSteps::octet_at))]
    fn octet(&mut self) -> Option<u8>
        ensures forward { IsForward self.old self.new }
        ensures value { read_to result self.new ≡ octet_at self.old.grammar (rest_of self.old) }
    {
        let rest = &self.text[self.position..];
        let digits = first_decimals(rest);
        let octet = decimal(rest, digits, self.grammar)?;
        self.position += digits.count;
        Some(octet)
    }

    /// The hexadecimal digits that are next, at most four.
    fn run(&mut self) -> Run<'a>
        ensures forward { IsForward self.old self.new }
        ensures digits { result.digits.now ≡ (hex_run (rest_of self.old)).0 }
        ensures rest { rest_of self.new ≡ (hex_run (rest_of self.old)).1 }
    {
        let run = first_run(&self.text[self.position..]);
        self.position += run.digits.len();
        run
    }

    /// A "." and an octet.
    #[tactic(auto, unfolding(crate::specs::ReaderSteps::read_octet))]
    fn next_octet(&mut self) -> Option<u8>
        ensures forward { IsForward self.old self.new }
        ensures value { read_to result self.new ≡ read_octet self.old.grammar (rest_of self.old) }
    {
        if !self.byte(b'.') {
            return None;
        }
        self.octet()
    }

    /// The dotted address whose first octet has been read.
    #[tactic(auto, unfolding(crate::specs::ReaderSteps::read_dotted))]
    fn dotted(&mut self, first: u8) -> Option<Ipv4Addr>
        ensures forward { IsForward self.old self.new }
        ensures value { option_map (λ a. (ipv4_octets a, rest_of self.new)) result
            ≡ read_dotted self.old.grammar first (rest_of self.old) }
    {
        let second = self.next_octet()?;
        let third = self.next_octet()?;
        let fourth = self.next_octet()?;
        Some(Ipv4Addr::new(first, second, third, fourth))
    }

    /// A "/" and a prefix length, which end the text.
    #[tactic(auto, unfolding(crate::specs::ReaderSteps::read_prefix_len))]
    fn prefix_len(&mut self, most: usize, greatest: u8) -> Option<u8>
        ensures forward { IsForward self.old self.new }
        ensures value { result ≡ read_prefix_len self.old.grammar most greatest (rest_of self.old) }
        ensures small { IfSome result (λ n. n ≤ greatest) }
    {
        if !self.byte(b'/') {
            return None;
        }
        // Leading zeros count as digits.
        let digits = self.text.len() - self.position;
        let n = self.octet()?;
        if n <= greatest && digits <= most && self.position == self.text.len() {
            Some(n)
        } else {
            None
        }
    }

    /// The address and the prefix length of an IPv4 network.
    #[tactic(auto, unfolding(crate::specs::ReaderSteps::read_ipv4_network))]
    fn ipv4_network(&mut self) -> Option<(Ipv4Addr, u8)>
        ensures forward { IsForward self.old self.new }
        ensures value { option_map (λ n. (ipv4_octets n.0, n.1)) result
            ≡ read_ipv4_network self.old.grammar (rest_of self.old) }
        ensures small { IfSome result (λ n. n.1 ≤ 32) }
    {
        let first = self.octet()?;
        let addr = self.dotted(first)?;
        let prefix_len = self.prefix_len(2, 32)?;
        Some((addr, prefix_len))
    }

    /// Whether a "." is next.
    fn is_at_dot(&self) -> bool
        ensures dot { OnTrue result (slice_index (rest_of self.now) 0 ≡ dot) }
        ensures other { OnFalse result (slice_index (rest_of self.now) 0 ≢ dot) }
    {
        matches!(&self.text[self.position..], [b'.', ..])
    }

    /// Takes a ":" that isn't followed by another.
    fn separator(&mut self) -> bool
        ensures forward { IsForward self.old self.new }
        ensures single { result ≡ is_single_colon (rest_of self.old) }
        ensures taken { OnTrue result (rest_of self.new ≡ drop 1 (rest_of self.old)) }
        ensures not_taken { OnFalse result (rest_of self.new ≡ rest_of self.old) }
    {
        match &self.text[self.position..] {
            [b':', b':', ..] => false,
            [b':', ..] => {
                self.position += 1;
                true
            }
            _ => false,
        }
    }

    /// The two groups of the dotted address whose first run of digits has been read.
    #[tactic(auto, unfolding(crate::specs::ReaderSteps::read_dotted_groups))]
    fn dotted_groups(&mut self, digits: &[u8]) -> Option<(u16, u16)>
        ensures forward { IsForward self.old self.new }
        ensures value { option_map (λ g. (g.0 ∷ g.1 ∷ [], true, rest_of self.new)) result
            ≡ read_dotted_groups self.old.grammar digits.now (rest_of self.old) }
    {
        let first = whole_decimal(digits, self.grammar)?;
        let [a, b, c, d] = self.dotted(first)?.octets();
        Some((
            u16::from(a) * 256 + u16::from(b),
            u16::from(c) * 256 + u16::from(d),
        ))
    }

    /// Reads at most `room` groups joined by ":"; the first run of digits is already read.
    fn groups(&mut self, first: Run<'a>, room: usize) -> Option<Groups>
        requires { room ≤ 8 }
        ensures forward { IsForward self.old self.new }
        ensures value { option_map (λ g. (g.groups.items, g.is_dotted, rest_of self.new)) result
            ≡ read_groups self.old.grammar room first.entry.digits.now (rest_of self.old) }
        ensures fits { IfSome result (λ g. length g.groups.items ≤ room) }
    {
        let mut groups = ArrayVec::new();
        let mut run = first;
        'next_group: while groups.len() < room {
            // Text before a "." is an octet, even if its digits also write a group, so the dot is tested first. The
            // digits are read as a decimal only here, because most texts have no such octet.
            if self.is_at_dot() {
                // A dotted address stands for two groups.
                if groups.len() + 1 == room {
                    return None;
                }
                let Some((high, low)) = self.dotted_groups(run.digits) else {
                    return None;
                };
                groups.push(high);
                groups.push(low);
                return Some(Groups {
                    groups,
                    is_dotted: true,
                });
            }
            if run.digits.is_empty() {
                return None;
            }
            groups.push(run.number);
            if !self.separator() {
                return Some(Groups {
                    groups,
                    is_dotted: false,
                });
            }
            run = self.run();
        }
        None
    }

    /// The address whose groups before "::" have been read: "::" and the groups after it.
    #[tactic(auto, unfolding(crate::specs::ReaderSteps::read_compressed))]
    fn compressed(&mut self, head: &[u16]) -> Option<Ipv6Addr>
        requires { length head.now ≤ 7 }
        ensures forward { IsForward self.old self.new }
        ensures value { option_map (λ a. (ipv6_segments a, rest_of self.new)) result
            ≡ read_compressed self.old.grammar head.now (rest_of self.old) }
    {
        if !self.byte(b':') {
            return None;
        }
        if !self.byte(b':') {
            return None;
        }
        let run = self.run();
        // The "::" ends the address.
        if run.digits.is_empty() {
            return Some(expand(head, &[]));
        }
        // A strict "::" stands for one group at least, a legacy one may stand for none.
        let most = match self.grammar {
            Grammar::Strict => 7,
            Grammar::Legacy => 8,
        };
        let tail = self.groups(run, most - head.len())?;
        Some(expand(head, tail.groups.as_slice()))
    }

    /// An IPv6 address.
    #[tactic(auto, unfolding(crate::specs::ReaderSteps::read_ipv6))]
    fn ipv6(&mut self) -> Option<Ipv6Addr>
        ensures forward { IsForward self.old self.new }
        ensures value { option_map (λ a. (ipv6_segments a, rest_of self.new)) result
            ≡ read_ipv6 self.old.grammar (rest_of self.old) }
    {
        let first = self.run();
        if first.digits.is_empty() {
            return self.compressed(&[]);
        }
        let head = self.groups(first, 8)?;
        let groups = head.groups.as_slice();
        if groups.len() == 8 {
            Some(expand(groups, &[]))
        } else if head.is_dotted {
            None
        } else {
            self.compressed(groups)
        }
    }

    /// The address and the prefix length of an IPv6 network.
    #[tactic(auto, unfolding(crate::specs::ReaderSteps::read_ipv6_network))]
    fn ipv6_network(&mut self) -> Option<(Ipv6Addr, u8)>
        ensures forward { IsForward self.old self.new }
        ensures value { option_map (λ n. (ipv6_segments n.0, n.1)) result
            ≡ read_ipv6_network self.old.grammar (rest_of self.old) }
        ensures small { IfSome result (λ n. n.1 ≤ 128) }
    {
        let addr = self.ipv6()?;
        let prefix_len = self.prefix_len(3, 128)?;
        Some((addr, prefix_len))
    }
}

/// The network that the whole text writes, if it writes one.
pub(super) fn read_network(text: &[u8], grammar: Grammar) -> Option<IpNet>
    ensures { MatchOption result ((network : Network) → ¬ (IsNetworkText grammar text.now network))
        (λ n. IsNetworkText grammar text.now (ip_network n)) }
{
    let mut reader = Reader {
        text,
        position: 0,
        grammar,
    };
    if begins_dotted(text) {
        let Some((addr, prefix_len)) = reader.ipv4_network() else {
            return None;
        };
        Some(IpNet::V4(Ipv4Net::new_assert(addr, prefix_len)))
    } else {
        let Some((addr, prefix_len)) = reader.ipv6_network() else {
            return None;
        };
        Some(IpNet::V6(Ipv6Net::new_assert(addr, prefix_len)))
    }
}
