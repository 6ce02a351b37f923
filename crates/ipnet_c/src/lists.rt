//! Lists of networks read from texts.
ghost use Rattle.std.specs.Prelude.{◌≡◌, ℕ, ◌↔◌, map, Err, IfOk, IfErr, IsUtf8};
ghost use Rattle.ipnet_base.specs.Address.{Address};
ghost use Rattle.ipnet_base.specs.Blocks.{IsCoveredBy};
ghost use Rattle.ipnet.specs.declared.parser.Grammar.TheVariants.{Strict};
ghost use Rattle.ipnet.specs.Lines.{lines_of, AreNetworksOf, IsFirstBadLine};
ghost use Rattle.ipnet.specs.NetworkOf.{ip_network};
ghost use Rattle.ipnet_sets.specs.Pushed.{IsPushed};
ghost use Rattle.ipnet_c.specs.BadTexts.{IsBadList, IsBadText, AreBadTexts};
ghost use Rattle.ipnet_c.specs.SetReplies.{HasAddressesOfText};

use crate::statuses::{BAD_LINE, BAD_LINE_IN_OTHER, NOT_UTF8, OTHER_NOT_UTF8, OUT_OF_MEMORY};
use ipnet::{Grammar, IpNet};
use ipnet_sets::{IpSet, IpSetBuilder};
use ipnet_text::{NetworkSink, ToolError, push_lines};
use std::alloc::{AllocError, Global};
use std::str;

/// The addresses of the networks that were taken.
#[derive(Drop)]
struct Addresses {
    builder: IpSetBuilder,
}

impl NetworkSink for Addresses {
    ghost is_made = { λ taken networks. (x : Address) → IsPushed taken.builder x ↔ IsCoveredBy networks x };

    #[inline(always)]
    fn push(&mut self, network: IpNet) -> Result<(), AllocError> {
        self.builder.push_network(&network)
    }
}

/// Returns the set of the addresses of the lines' networks, in the grammar; or the status `BAD_LINE`, with the number
/// of the first bad line in `line`, or `OUT_OF_MEMORY`. Without a network it allocates nothing.
fn read_set(alloc: Global, text: &str, grammar: Grammar, line: &mut usize) -> Result<IpSet, u32>
    ensures set { IfOk result (λ set. HasAddressesOfText grammar text.now set × (line.new ≡ line.old)) }
    ensures bad { IfErr result (IsBadList grammar text.now line.old line.new) }
{
    let mut taken = Addresses {
        builder: IpSetBuilder::new(alloc),
    };
    match push_lines(&mut taken, 0, text, grammar) {
        Ok(_) => {}
        Err(ToolError::Line(number)) => {
            *line = number;
            return Err(BAD_LINE);
        }
        Err(ToolError::Memory) => return Err(OUT_OF_MEMORY),
    }
    let Ok(set) = taken.builder.into_set(alloc) else {
        return Err(OUT_OF_MEMORY);
    };
    Ok(set)
}

/// Returns the set of the addresses of a text's networks, as `read_set` does; or the status `NOT_UTF8`.
pub(crate) fn set_of_text(
    alloc: Global,
    text: &[u8],
    grammar: Grammar,
    line: &mut usize,
) -> Result<IpSet, u32>
    ensures set { IfOk result (λ set. IsUtf8 text.now × HasAddressesOfText grammar text.now set
        × (line.new ≡ line.old)) }
    ensures bad { IfErr result (IsBadText grammar text.now line.old line.new) }
{
    let Ok(text) = str::from_utf8(text) else {
        return Err(NOT_UTF8);
    };
    read_set(alloc, text, grammar, line)
}

/// Returns the sets of two texts, in the strict grammar. Both texts are tested for UTF-8 before a line is read, and the
/// first is read before the other. The other has statuses of its own, `OTHER_NOT_UTF8` and `BAD_LINE_IN_OTHER`.
pub(crate) fn sets_of_texts(
    alloc: Global,
    text: &[u8],
    other: &[u8],
    line: &mut usize,
) -> Result<(IpSet, IpSet), u32>
    ensures sets { IfOk result (λ sets. IsUtf8 text.now × IsUtf8 other.now × HasAddressesOfText Strict text.now sets.0
        × HasAddressesOfText Strict other.now sets.1 × (line.new ≡ line.old)) }
    ensures bad { IfErr result (AreBadTexts text.now other.now line.old line.new) }
{
    let Ok(text) = str::from_utf8(text) else {
        return Err(NOT_UTF8);
    };
    let Ok(other) = str::from_utf8(other) else {
        return Err(OTHER_NOT_UTF8);
    };
    let set = read_set(alloc, text, Grammar::Strict, line)?;
    match read_set(alloc, other, Grammar::Strict, line) {
        Ok(others) => Ok((set, others)),
        Err(status) if status == BAD_LINE => Err(BAD_LINE_IN_OTHER),
        Err(status) => Err(status),
    }
}

/// Returns the networks of the lines, in order, in the strict grammar.
pub(crate) fn read_networks(alloc: Global, text: &str) -> Result<Vec<IpNet>, ToolError>
    ensures networks { IfOk result (λ list. AreNetworksOf Strict (lines_of text.now) (map ip_network list.items)) }
    ensures bad_line { (number : ℕ) → result ≡ Err (ToolError.Line number)
        → IsFirstBadLine Strict (lines_of text.now) number }
{
    let mut networks = Vec::new(alloc);
    push_lines(&mut networks, 0, text, Grammar::Strict)?;
    Ok(networks)
}
