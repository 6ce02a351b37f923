//! Why a text is not an entry, if a cause can be named.
ghost use Rattle.std.specs.Prelude.{◌≡◌, ◌↔◌, IsTrue, IfSome, Some, None};
ghost use Rattle.std.specs.Str.{IsUtf8};
ghost use Rattle.ipnet_lists.specs.Entries.{IsNoEntry};
ghost use Rattle.ipnet_lists.specs.Causes.{Explains, IsReportedCause, IsFirstOf, causes};

use crate::bytes::has_byte;
use crate::cause_bytes::{has_star, is_all_word, is_host_name, is_no_ipv4};
use crate::cause_follows::{is_dashed, is_followed};
use crate::cause_parts::{Parts, is_cut_so, is_entry};
use crate::cause_words::{has_mask_word, has_two_entries};
use crate::entry::read_entry;
use ipnet::Grammar;
use std::str;

/// Why a text is not an entry, if that can be named. The causes are tried in the order of the variants, and the first
/// that is true of the text is its cause. In these sentences, addresses and entries may be those of the legacy grammar.
///
/// ```text
/// 10.0.0.0/33              LengthAbove32
/// 10.0.0.9 - 10.0.0.1      EndsBeforeStart
/// 010.0.0.1                LegacyAlone, in the strict grammar
/// 10.0.0.0 255.0.0.0       MaskAfterBlank
/// 10.0.0.0/8, 10.1.0.0/16  TwoEntries
/// 10.0.0.0/8 web server    TextFollows
/// 10/8                     NotFourNumbers
/// 10.0.0.0/+33             none
/// ```
#[derive(Clone, Copy, Debug, PartialEq, Eq, Drop)]
pub enum Cause {
    /// The text has a byte 0.
    NulByte,
    /// The bytes are not UTF-8.
    NotUtf8,
    /// The text has a carriage return. In a line of a list, other text follows it.
    CarriageReturn,
    /// An entry of the legacy grammar that is not an entry of the strict grammar.
    LegacyAlone,
    /// An IPv4 address, "/" and only decimal digits, of a number above 32.
    LengthAbove32,
    /// An IPv6 address, "/" and only decimal digits, of a number above 128.
    LengthAbove128,
    /// Two addresses of one family joined by "-", the last of which comes before the first.
    EndsBeforeStart,
    /// Two addresses joined by "-", one of each family.
    TwoFamilies,
    /// Two entries joined by "-", such as `10.0.0.0/8-10.1.0.0/16`.
    RangeOfNetworks,
    /// Two entries joined by U+2013, U+2014 or U+2212, such as `10.0.0.1–10.0.0.9`.
    OtherDash,
    /// An entry and "-", such as `10.0.0.1 -`.
    NoLastAddress,
    /// Two IPv4 addresses joined by "/", such as `10.0.0.0/0.0.0.255`.
    WildcardMask,
    /// An IPv4 address, and a netmask or wildcard mask in the next word, such as `10.0.0.0 255.0.0.0`.
    MaskAfterBlank,
    /// The first two words are entries, such as `10.0.0.0/8, 10.1.0.0/16`. A word ends at a blank, "," or ";".
    TwoEntries,
    /// An entry is before the first ",".
    CommaFollows,
    /// An entry is before the first ";".
    SemicolonFollows,
    /// An entry, a word end and other text, such as `10.0.0.0/8 web server` or `10.0.0.1 - 10.0.0.9 office`. The text
    /// does not begin with a dash and what may be meant as an address, such as `- 10.0.0.300`.
    TextFollows,
    /// "[", an entry and "]" begin the text, such as `[::1]:80`.
    InBrackets,
    /// A quotation mark, an entry and a quotation mark begin the text, such as `"10.0.0.0/8",`.
    InQuotes,
    /// "!", and only an entry after it.
    Excluded,
    /// "-", and only an entry after it, such as `- 10.0.0.5`.
    DashFirst,
    /// An IPv6 address is before the first "%", such as `fe80::1%eth0`.
    HasZone,
    /// An IPv4 address is before the first ":", such as `10.0.0.1:80`.
    HasPort,
    /// Up to the first "/" the text has only digits and dots, and is not an IPv4 address, such as `10/8`.
    NotFourNumbers,
    /// The text has a "*".
    HasStar,
    /// A word for all addresses: `any`, `all` or `default`, in letters of any case.
    AllAddresses,
    /// The text has only letters, digits, ".", "-" and "_", with a letter among them. Up to a "/" or a ":", it has only
    /// these, with a dot among them, such as `www.example.com:443`.
    HostName,
}

/// The causes, in their order.
const CAUSES: &[Cause] = &[
    Cause::NulByte,
    Cause::NotUtf8,
    Cause::CarriageReturn,
    Cause::LegacyAlone,
    Cause::LengthAbove32,
    Cause::LengthAbove128,
    Cause::EndsBeforeStart,
    Cause::TwoFamilies,
    Cause::RangeOfNetworks,
    Cause::OtherDash,
    Cause::NoLastAddress,
    Cause::WildcardMask,
    Cause::MaskAfterBlank,
    Cause::TwoEntries,
    Cause::CommaFollows,
    Cause::SemicolonFollows,
    Cause::TextFollows,
    Cause::InBrackets,
    Cause::InQuotes,
    Cause::Excluded,
    Cause::DashFirst,
    Cause::HasZone,
    Cause::HasPort,
    Cause::NotFourNumbers,
    Cause::HasStar,
    Cause::AllAddresses,
    Cause::HostName,
];

/// All causes, in their order.
fn all_causes() -> &'static [Cause]
    ensures { result.now ≡ causes }
{
    CAUSES
}

/// Whether the sentence of the cause is true of the text.
fn explains(text: &str, cause: Cause) -> bool
    requires { IsUtf8 text.now }
    ensures { IsTrue result ↔ Explains text.now cause }
{
    match cause {
        Cause::NulByte => has_byte(text.as_bytes(), 0),
        Cause::NotUtf8 => false,
        Cause::CarriageReturn => has_byte(text.as_bytes(), b'\r'),
        Cause::LegacyAlone => is_entry(text),
        Cause::LengthAbove32 => is_cut_so(text, '/', Parts::LongIpv4),
        Cause::LengthAbove128 => is_cut_so(text, '/', Parts::LongIpv6),
        Cause::EndsBeforeStart => is_cut_so(text, '-', Parts::Backwards),
        Cause::TwoFamilies => is_cut_so(text, '-', Parts::Apart),
        Cause::RangeOfNetworks => is_cut_so(text, '-', Parts::Entries),
        Cause::OtherDash => is_dashed(text),
        Cause::NoLastAddress => is_cut_so(text, '-', Parts::Unfinished),
        Cause::WildcardMask => is_cut_so(text, '/', Parts::TwoIpv4),
        Cause::MaskAfterBlank => has_mask_word(text),
        Cause::TwoEntries => has_two_entries(text),
        Cause::CommaFollows => is_cut_so(text, ',', Parts::EntryFirst),
        Cause::SemicolonFollows => is_cut_so(text, ';', Parts::EntryFirst),
        Cause::TextFollows => is_followed(text),
        Cause::InBrackets => is_cut_so(text, '[', Parts::Bracketed),
        Cause::InQuotes => is_cut_so(text, '"', Parts::Quoted),
        Cause::Excluded => is_cut_so(text, '!', Parts::Excluded),
        Cause::DashFirst => is_cut_so(text, '-', Parts::Excluded),
        Cause::HasZone => is_cut_so(text, '%', Parts::Ipv6First),
        Cause::HasPort => is_cut_so(text, ':', Parts::Ipv4First),
        Cause::NotFourNumbers => is_no_ipv4(text),
        Cause::HasStar => has_star(text),
        Cause::AllAddresses => is_all_word(text),
        Cause::HostName => is_host_name(text),
    }
}

/// The first of the causes whose sentence is true of the text.
fn first_cause(text: &str, causes: &[Cause]) -> Option<Cause>
    requires { IsUtf8 text.now }
    ensures { IsFirstOf causes.now text.now result }
{
    for index in 0..causes.len() {
        if explains(text, causes[index]) {
            return Some(causes[index]);
        }
    }
    None
}

/// The cause of a text.
fn cause_in_text(text: &str, grammar: Grammar) -> Option<Cause>
    requires { IsUtf8 text.now }
    ensures { IsReportedCause grammar text.now result }
{
    match read_entry(text, grammar) {
        Some(_) => None,
        None => first_cause(text, all_causes()),
    }
}

/// The cause of bytes that are not UTF-8.
fn cause_in_bytes(text: &[u8]) -> Cause
    requires { ¬ (IsUtf8 text.now) }
    ensures { IsFirstOf causes text.now (Some result) }
{
    if has_byte(text, 0) {
        Cause::NulByte
    } else {
        Cause::NotUtf8
    }
}

/// Why the whole text is not an entry in this grammar, or `None` if it is one or no cause can be named. Allocates
/// nothing.
///
/// ```text
/// 10.0.0.0/33                  Some(LengthAbove32)
/// 10.0.0.0/8                   None
/// 10.0.0.0/x                   None
/// 010.0.0.1, strict grammar    Some(LegacyAlone)
/// 010.0.0.1, legacy grammar    None
/// ```
pub fn cause_of(text: &[u8], grammar: Grammar) -> Option<Cause>
    ensures reported { IsReportedCause grammar text.now result }
    ensures no_entry { IfSome result (λ _. IsNoEntry grammar text.now) }
    ensures none { result ≡ None → IsNoEntry grammar text.now → (cause : Cause) → ¬ (Explains text.now cause) }
{
    match str::from_utf8(text) {
        Ok(text) => cause_in_text(text, grammar),
        Err(_) => Some(cause_in_bytes(text)),
    }
}

/// Says that a line is refused because its text is not an entry of a grammar. The cause is found only if it is asked
/// for, so a line that is only counted costs no search for it.
#[derive(Clone, Copy, Debug, PartialEq, Eq, Drop)]
pub struct NotEntry {
    /// The grammar.
    pub grammar: Grammar,
}

impl NotEntry {
    /// Returns why this text is not an entry of the grammar, as `cause_of` does. Allocates nothing.
    ///
    /// ```text
    /// strict grammar, "10.0.0.0/33": Some(LengthAbove32)
    /// ```
    pub fn cause(&self, text: &[u8]) -> Option<Cause>
        ensures { IsReportedCause self.now.grammar text.now result }
    {
        cause_of(text, self.grammar)
    }
}
