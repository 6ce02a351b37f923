//! A line of a list of changes: `+` or `-`, and a network.
ghost use Rattle.std.specs.Prelude.{◌≡◌, ◌↔◌, IfOk, IfErr, IfSome, IsNone, IsTrue};
ghost use Rattle.ipnet.specs.NetworkOf.{ip_network};
ghost use Rattle.ipnet_base.specs.Network.{Network, IsTruncated};
ghost use Rattle.ipnet_sets.specs.Members.{IsMember};
ghost use Rattle.netset_lib.specs.ApplySteps.{signed, IsMisfit};
ghost use Rattle.netset_lib.specs.ChangeLists as lists;
ghost use Rattle.netset_lib.specs.ChangeLists.{IsAnswerNetwork, Fits, IsFittingChange, IsChangeCause};
ghost use Rattle.netset_lib.specs.Changes.{ListChange};
ghost use Rattle.netset_lib.specs.ChangeSteps.{change_of};

use crate::changes::Change;
use crate::network_entry::{NetworkCause, read_network_entry};
use ipnet::{Grammar, IpNet};
use ipnet_lists::cut_word;
use ipnet_sets::IpSet;

/// Why a list of networks cannot be changed by a line.
///
/// ```text
/// of the networks 10.0.0.0/8:
/// 10.0.0.0/9      UnknownSign
/// +               NoNetwork(Missing)
/// + 10.0.0.0/33   NoNetwork(NoEntry(Some(LengthAbove32)))
/// + 10.0.0.0/8    Present
/// - 10.0.0.0/9    Absent
/// ```
#[derive(Clone, Copy, Debug, PartialEq, Eq, Drop)]
pub enum ChangeCause {
    /// The first word is neither `+` nor `-`.
    UnknownSign,
    /// The text after the sign is not a network.
    NoNetwork(NetworkCause),
    /// The added network is already one of the networks.
    Present,
    /// The removed network is not one of the networks.
    Absent,
}

/// Returns whether the network, which has no host bits, is one of the fewest networks of the set.
fn is_network_of(set: &IpSet, network: &IpNet) -> bool
    requires { IsTruncated (ip_network network.now) }
    ensures { IsTrue result ↔ IsAnswerNetwork (IsMember set.now) (ip_network network.now) }
{
    if !set.covers(network) {
        return false;
    }
    match network.supernet() {
        Some(supernet) => !set.covers(&supernet),
        None => true,
    }
}

/// The sign of a change.
#[derive(Clone, Copy)]
enum Sign {
    Plus,
    Minus,
}

/// Returns the sign that the word is.
fn sign_of(word: &[u8]) -> Option<Sign>
    ensures some { IfSome result (λ sign. (n : Network) → word.now ≡ lists.sign_of (signed sign n)) }
    ensures none { IsNone result → (change : ListChange) → ¬ (word.now ≡ lists.sign_of change) }
{
    if word == b"+".as_slice() {
        Some(Sign::Plus)
    } else if word == b"-".as_slice() {
        Some(Sign::Minus)
    } else {
        None
    }
}

/// Returns the change of the set's networks, or why they cannot be changed so. The network has no host bits.
fn fit(set: &IpSet, sign: Sign, network: IpNet) -> Result<Change, ChangeCause>
    requires { IsTruncated (ip_network network) }
    ensures change { IfOk result (λ change. change_of change ≡ signed sign (ip_network network)) }
    ensures fits { IfOk result (λ change. Fits (IsAnswerNetwork (IsMember set.now)) (change_of change)) }
    ensures cause { IfErr result (IsMisfit (IsAnswerNetwork (IsMember set.now)) sign (ip_network network)) }
{
    match (sign, is_network_of(set, &network)) {
        (Sign::Plus, true) => Err(ChangeCause::Present),
        (Sign::Plus, false) => Ok(Change::Added(network)),
        (Sign::Minus, true) => Ok(Change::Removed(network)),
        (Sign::Minus, false) => Err(ChangeCause::Absent),
    }
}

/// Returns the change of the set's networks that the text is, or why it is not one.
pub(crate) fn read_change(set: &IpSet, text: &[u8], grammar: Grammar) -> Result<Change, ChangeCause>
    ensures change { IfOk result (λ change.
        IsFittingChange grammar (IsAnswerNetwork (IsMember set.now)) text.now (change_of change)) }
    ensures cause { IfErr result (IsChangeCause grammar (IsAnswerNetwork (IsMember set.now)) text.now) }
{
    let (word, rest) = cut_word(text);
    let Some(sign) = sign_of(word) else {
        return Err(ChangeCause::UnknownSign);
    };
    match read_network_entry(rest, grammar) {
        Ok(network) => fit(set, sign, network),
        Err(cause) => Err(ChangeCause::NoNetwork(cause)),
    }
}
