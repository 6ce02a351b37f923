//! Why a line of a list of rules is refused.

use ipnet_lists::Cause;

/// Why a line is not a rule.
///
/// ```text
/// allow 10.0.0.0/8                UnknownWord
/// permit                          NoEntry
/// permit 10.0.0.0/8 10.1.0.0/16   TwoEntries
/// deny 10.0.0.0/33                BadEntry(Some(LengthAbove32))
/// deny 10.0.0.0/x                 BadEntry(None)
/// permit host 10.0.0.0/8          NoHost
/// permit 10.0.0.0 255.0.0.0       Netmask
/// permit 10.0.0.0 0.0.0.0         EitherMask
/// permit 10.0.0.0 0.0.255.0       NoMask
/// ```
#[derive(Clone, Copy, Debug, PartialEq, Eq, Drop)]
pub enum RuleCause {
    /// The first word is neither `permit` nor `deny`.
    UnknownWord,
    /// Nothing follows the word.
    NoEntry,
    /// More than one word follows.
    TwoEntries,
    /// The word that follows is not an entry. Has the cause, if one can be named.
    BadEntry(Option<Cause>),
    /// `host` follows, and not exactly one address after it.
    NoHost,
    /// An IPv4 address and a netmask follow.
    Netmask,
    /// An IPv4 address follows, and a mask that can be a netmask or a wildcard mask: 0.0.0.0 or 255.255.255.255.
    EitherMask,
    /// Two IPv4 addresses follow, of which the second is not a contiguous mask.
    NoMask,
}
