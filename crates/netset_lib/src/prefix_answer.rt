//! The verdicts of a prefix list on the networks of a list.
ghost use Rattle.std.specs.Prelude.{◌≡◌, ◌∷◌, ◌++◌, [], IfOk, IfErr, OnOk, Some};
ghost use Rattle.ipnet_lists.specs.declared.cause.Cause.TheVariants.{CarriageReturn};
ghost use Rattle.ipnet.specs.NetworkOf.{ip_network};
ghost use Rattle.ipnet_rules.specs.CompiledListOf.{rules_of};
ghost use Rattle.netset_lib.specs.PrefixAnswers.{IsListNetwork, IsNoListNetwork, IsVerdictAnswer};
ghost use Rattle.netset_lib.specs.PrefixEntries.{IsPrefixEntry, IsEntryCause};
ghost use Rattle.netset_lib.specs.PrefixEntryOf.{entry_of, lent_text};
ghost use Rattle.netset_lib.specs.PrefixReading.{ArePrefixesRead, AreJudged, IsPrefixFailure, AddsVerdict};
ghost use Rattle.netset_lib.specs.RuleLines as lines;
ghost use Rattle.netset_lib.specs.declared.network_entry.NetworkCause.TheVariants.{NoEntry};
ghost use Rattle.netset_lib.specs.declared.prefix_line.PrefixCause.TheVariants.{NoNetwork};
ghost use Rattle.netset_lib.specs.declared.prefix_answer.PrefixFailure.TheVariants.{Memory};

use crate::network_entry::{NetworkCause, read_network_entry};
use crate::prefix_choice::{ChoiceFault, rules_of_list};
use crate::prefix_entry::{NamedRule, read_prefix_entry};
use crate::prefix_line::PrefixCause;
use ipnet::{Grammar, IpNet};
use ipnet_lists::{Cause, ContentLine, LineHandler, Refusals, read_lines};
use ipnet_rules::{Action, CompiledPrefixList, PrefixList, PrefixRule};
use std::alloc::{AllocError, Global};

/// Why there are no verdicts.
#[derive(Debug, Drop)]
pub enum PrefixFailure {
    /// These lines of the prefix list are not rules.
    Prefixes(Refusals<PrefixCause>),
    /// The lines of the prefix list are not one list.
    Choice(ChoiceFault),
    /// These lines of the list are not networks.
    Networks(Refusals<NetworkCause>),
    /// Memory ran out.
    Memory,
}

impl From<AllocError> for PrefixFailure {
    ghost from_gives = { λ _ result. result ≡ Memory };

    fn from(_: AllocError) -> PrefixFailure {
        PrefixFailure::Memory
    }
}

/// The verdicts on the networks of a list.
#[derive(Debug, Drop)]
pub struct Verdicts {
    /// The lines of the verdicts.
    pub text: Vec<u8>,
    /// Whether a network is denied.
    pub denied: bool,
}

/// A prefix list that was read, and its refused lines.
#[derive(Drop)]
pub(crate) struct PrefixLines<'a> {
    pub(crate) entries: Vec<NamedRule<'a>>,
    pub(crate) refused: Refusals<PrefixCause>,
}

/// Takes the entries of a prefix list.
#[derive(Drop)]
struct PrefixReader {
    grammar: Grammar,
}

impl<'a> LineHandler<'a, Vec<NamedRule<'a>>, PrefixCause> for PrefixReader {
    ghost takes = { λ h line old new. (entry : _) × IsPrefixEntry h.grammar line.text (entry_of entry)
        × (new.items ≡ old.items ++ entry ∷ []) };

    ghost is_cause = { λ h. IsEntryCause h.grammar };

    ghost broken = { λ h. NoNetwork (NoEntry (Some CarriageReturn)) };

    fn refuse_broken(&self) -> PrefixCause
        ensures { result ≡ NoNetwork (NoEntry (Some CarriageReturn)) }
    {
        PrefixCause::NoNetwork(NetworkCause::NoEntry(Some(Cause::CarriageReturn)))
    }

    fn take(
        &self,
        made: &mut Vec<NamedRule<'a>>,
        line: ContentLine<'a>,
    ) -> Result<Result<(), PrefixCause>, AllocError> {
        match read_prefix_entry(line.text, self.grammar) {
            Ok(entry) => {
                made.push(entry)?;
                Ok(Ok(()))
            }
            Err(cause) => Ok(Err(cause)),
        }
    }
}

/// Reads the prefix list. Fails if memory runs out.
pub(crate) fn read_prefixes<'a>(
    alloc: Global,
    bytes: &'a [u8],
    grammar: Grammar,
) -> Result<PrefixLines<'a>, AllocError>
    ensures { IfOk result (ArePrefixesRead grammar bytes.now) }
{
    let mut entries = Vec::new(alloc);
    let refused = read_lines(alloc, bytes, &PrefixReader { grammar }, &mut entries)?;
    Ok(PrefixLines { entries, refused })
}

/// The word of the action.
fn word_of(action: Action) -> &'static [u8]
    ensures { result.now ≡ lines.word_of action }
{
    match action {
        Action::Permit => b"permit",
        Action::Deny => b"deny",
    }
}

/// Appends the verdict of the list on the network, which is written so. Fails if memory runs out.
fn push_verdict(
    verdicts: &mut Verdicts,
    list: &CompiledPrefixList,
    network: &IpNet,
    text: &[u8],
) -> Result<(), AllocError>
    ensures { OnOk result (AddsVerdict (rules_of list.now)
        (record { text = text.now; network = ip_network network.now }) verdicts.old verdicts.new) }
{
    let action = list.verdict(network);
    verdicts.text.extend_from_slice(word_of(action))?;
    verdicts.text.extend_from_slice(b" ")?;
    verdicts.text.extend_from_slice(text)?;
    verdicts.text.extend_from_slice(b"\n")?;
    verdicts.denied = verdicts.denied || action == Action::Deny;
    Ok(())
}

/// Takes networks, and makes the verdicts of a prefix list on them.
#[derive(Drop)]
struct Judge {
    list: CompiledPrefixList,
    grammar: Grammar,
}

impl<'a> LineHandler<'a, Verdicts, NetworkCause> for Judge {
    ghost takes = { λ h line old new. (n : _) × IsListNetwork h.grammar line.text n
        × AddsVerdict (rules_of h.list) n old new };

    ghost is_cause = { λ h. IsNoListNetwork h.grammar };

    ghost broken = { λ h. NoEntry (Some CarriageReturn) };

    fn refuse_broken(&self) -> NetworkCause {
        NetworkCause::NoEntry(Some(Cause::CarriageReturn))
    }

    fn take(
        &self,
        made: &mut Verdicts,
        line: ContentLine<'a>,
    ) -> Result<Result<(), NetworkCause>, AllocError> {
        match read_network_entry(line.text, self.grammar) {
            Ok(network) => {
                push_verdict(made, &self.list, &network, line.text)?;
                Ok(Ok(()))
            }
            Err(cause) => Ok(Err(cause)),
        }
    }
}

/// The verdicts on the networks of a list, and the refused lines of the list.
#[derive(Drop)]
struct JudgedNetworks {
    verdicts: Verdicts,
    refused: Refusals<NetworkCause>,
}

/// Compiles the rules, and makes their verdicts on the networks of the list. Fails if memory runs out.
fn judge_networks(
    alloc: Global,
    rules: Vec<PrefixRule>,
    networks: &[u8],
    grammar: Grammar,
) -> Result<JudgedNetworks, AllocError>
    ensures { IfOk result (AreJudged grammar networks.now rules.items) }
{
    let list = CompiledPrefixList::from_list(alloc, PrefixList { list: rules })?;
    let mut verdicts = Verdicts {
        text: Vec::new(alloc),
        denied: false,
    };
    let refused = read_lines(alloc, networks, &Judge { list, grammar }, &mut verdicts)?;
    Ok(JudgedNetworks { verdicts, refused })
}

/// Returns the verdicts of a prefix list on the networks of a list: a line for each network, in order, with `permit` or
/// `deny` and the network as it is written. Both are one line after another, with blanks and comments as in lists of
/// entries. A network of the list may be an address, and its host bits do not matter.
///
/// A line of the prefix list can begin as routers write it, with `ip prefix-list NAME` or `ipv6 prefix-list NAME`, and
/// `seq` and a number. If the lines have several names, `name` says which list is meant. Rules with sequence numbers
/// are asked in the order of these numbers.
///
/// The error is `Prefixes` if lines of the prefix list are not rules, `Choice` if they are not one list, `Networks` if
/// lines of the list are not networks, and `Memory` if memory runs out.
///
/// ```text
/// "permit 10.0.0.0/8 ge 16 le 24\n" on "10.1.0.0/16\n10.0.0.0/8\n":
///     "permit 10.1.0.0/16\ndeny 10.0.0.0/8\n", and a network is denied
/// ```
pub fn prefix_verdicts(
    alloc: Global,
    prefixes: &[u8],
    name: Option<&[u8]>,
    networks: &[u8],
    grammar: Grammar,
) -> Result<Verdicts, PrefixFailure>
    ensures verdicts { IfOk result (λ v.
        IsVerdictAnswer grammar prefixes.now (lent_text name.entry) networks.now v.denied v.text.items) }
    ensures failure { IfErr result (IsPrefixFailure grammar prefixes.now (lent_text name.entry) networks.now) }
{
    let PrefixLines { entries, refused } = read_prefixes(alloc, prefixes, grammar)?;
    if refused.count != 0 {
        return Err(PrefixFailure::Prefixes(refused));
    }
    let rules = match rules_of_list(alloc, entries, name)? {
        Ok(rules) => rules,
        Err(fault) => return Err(PrefixFailure::Choice(fault)),
    };
    let JudgedNetworks { verdicts, refused } = judge_networks(alloc, rules, networks, grammar)?;
    if refused.count != 0 {
        return Err(PrefixFailure::Networks(refused));
    }
    Ok(verdicts)
}
