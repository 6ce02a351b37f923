//! Texts that have to be one network.
ghost use Rattle.std.specs.Prelude.{◌≡◌, ℕ, List, IfOk, IfErr};
ghost use Rattle.ipnet.specs.declared.parser.Grammar.{Grammar};
ghost use Rattle.ipnet.specs.NetworkOf.{ip_network};
ghost use Rattle.ipnet_lists.specs.Entries.{IsNetworkOrMasked, IsNoEntry};
ghost use Rattle.ipnet_lists.specs.EntryOf.{IsWrittenAs};
ghost use Rattle.netset_lib.specs.NetworkEntries.{IsArgumentCause, IsNetworkWord, IsNoNetworkWord};
ghost use Rattle.netset_lib.specs.NetworkEntries.{IsNetworkCause};
ghost use Rattle.netset_lib.specs.NetworkSteps.{IsRange};
ghost use Rattle.netset_lib.specs.declared.network_entry.NetworkCause.TheVariants.{Range};

use ipnet::{Grammar, IpNet};
use ipnet_lists::{Cause, Entry, cause_of, first_blank, read_entry, read_text};

/// Why a text is not a network or an address.
///
/// ```text
/// (nothing)                 Missing
/// 10.0.0.0-10.0.0.255       Range
/// 10.0.0.0/8 10.1.0.0/16    TwoWords
/// 10.0.0.0/33               NoEntry(Some(LengthAbove32))
/// all                       NoEntry(Some(AllAddresses))
/// 10.0.0.0/x                NoEntry(None)
/// ```
#[derive(Clone, Copy, Debug, PartialEq, Eq, Drop)]
pub enum NetworkCause {
    /// The text is empty.
    Missing,
    /// The text is a range.
    Range,
    /// The text has more than one word.
    TwoWords,
    /// The text is a word that is not an entry. Has the cause, if one can be named.
    NoEntry(Option<Cause>),
}

/// Returns the network of the entry's addresses, or the cause if the entry is a range.
fn network_of(entry: Entry) -> Result<IpNet, NetworkCause>
    ensures network { IfOk result (λ n. (grammar : Grammar) → (text : List ℕ) → IsWrittenAs grammar text entry
        → IsNetworkWord grammar text (ip_network n)) }
    ensures cause { IfErr result (λ cause. (cause ≡ Range) × IsRange entry) }
{
    match entry {
        Entry::Network(network) => Ok(network.trunc()),
        Entry::Address(address) => Ok(IpNet::from(address)),
        Entry::Ipv4Range(_, _) | Entry::Ipv6Range(_, _) => Err(NetworkCause::Range),
    }
}

/// Returns why a text that is not an entry is not one.
fn cause_without_entry(text: &[u8], grammar: Grammar) -> NetworkCause
    requires { IsNoEntry grammar text.now }
    ensures { IsNetworkCause grammar text.now result }
{
    if text.is_empty() {
        return NetworkCause::Missing;
    }
    if first_blank(text) < text.len() {
        return NetworkCause::TwoWords;
    }
    NetworkCause::NoEntry(cause_of(text, grammar))
}

/// Returns the network that the text is, without host bits, or why it is not one.
pub(crate) fn read_network_entry(text: &[u8], grammar: Grammar) -> Result<IpNet, NetworkCause>
    ensures network { IfOk result (λ n. IsNetworkWord grammar text.now (ip_network n)) }
    ensures none { IfErr result (λ _. IsNoNetworkWord grammar text.now) }
    ensures cause { IfErr result (IsNetworkCause grammar text.now) }
{
    match read_text(text, grammar) {
        Some(found) => network_of(found.entry),
        None => Err(cause_without_entry(text, grammar)),
    }
}

/// Why an argument is not a network with a prefix length or a netmask.
///
/// ```text
/// 10.0.0.1                  Address
/// 10.0.0.0-10.0.0.255       Range
/// 10.0.0.0/0.0.0.255        NoEntry(Some(WildcardMask))
/// 10.0.0.0/x                NoEntry(None)
/// ```
#[derive(Clone, Copy, Debug, PartialEq, Eq, Drop)]
pub enum ArgumentCause {
    /// The argument is an address.
    Address,
    /// The argument is a range.
    Range,
    /// The argument is not an entry. Has the cause, if one can be named.
    NoEntry(Option<Cause>),
}

/// Returns the network that an argument is, with its host bits, or why it is not one. The network has a prefix length
/// or a netmask: an address is refused, since its prefix length may have been forgotten. Allocates nothing.
///
/// ```text
/// 10.0.0.9/8, 10.0.0.9/255.0.0.0: 10.0.0.9/8
/// 10.0.0.9:                       Err(Address)
/// 10.0.0.0/33:                    Err(NoEntry(Some(LengthAbove32)))
/// ```
pub fn read_network_argument(text: &str, grammar: Grammar) -> Result<IpNet, ArgumentCause>
    ensures network { IfOk result (λ n. IsNetworkOrMasked grammar text.now (ip_network n)) }
    ensures cause { IfErr result (IsArgumentCause grammar text.now) }
{
    match read_entry(text, grammar) {
        Some(entry) => match entry {
            Entry::Network(network) => Ok(network),
            Entry::Address(_) => Err(ArgumentCause::Address),
            Entry::Ipv4Range(_, _) => Err(ArgumentCause::Range),
            Entry::Ipv6Range(_, _) => Err(ArgumentCause::Range),
        },
        None => Err(ArgumentCause::NoEntry(cause_of(text.as_bytes(), grammar))),
    }
}
