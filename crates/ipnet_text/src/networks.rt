//! The networks of the lines of a text, which are handed to a sink.
ghost use Rattle.std.specs.Prelude.{◌≡◌, ℕ, ◌≤◌, ◌+◌, [], List, ◌++◌, length, All, Err, IsOk, IfOk, OnOk};
ghost use Rattle.std.below.core.specs.declared.int.usize.TheConstants.{MAX};
ghost use Rattle.ipnet.specs.Network.{Network};
ghost use Rattle.ipnet.specs.Lines.{lines_of, AreNetworksOf, IsFirstBadLine};
ghost use Rattle.ipnet.specs.NetworkOf.{ip_network};
ghost use Rattle.ipnet.specs.NetworkTexts.{IsNetworkText, ReadsNetwork};
ghost use Rattle.ipnet_text.specs.BadLines.{StartsWithBadLine};
ghost use Rattle.ipnet_text.specs.declared.networks.ToolError.TheVariants.{Memory};

use crate::front_reader::FrontReader;
use crate::lines::first_line;
use crate::net_lists::NetworkSink;
use ipnet::{AddrParseError, Grammar, IpNet};
use std::alloc::AllocError;
use thiserror::Error;

pub mod laws;

/// The error of a text of lines: why its networks are not read. [`push_lines`] returns it, and so do the calls of
/// `ipnet_tool` on a text; `ipnet_c` makes a status of it. For a bad line the text of the error has its number in
/// decimal; for `Memory` it is `out of memory`.
///
/// ```text
/// "10.0.0.0/24\n\nx\n" gives Line(3), whose text is  line 3: invalid IP address syntax
/// ```
#[derive(Clone, Debug, PartialEq, Eq, Drop, Error)]
pub enum ToolError {
    /// The line of this number, counted from 1 with the empty ones, is the first that is neither empty nor a
    /// network.
    #[error("line {0}: invalid IP address syntax")]
    Line(usize),
    /// An allocation was refused.
    #[error("out of memory")]
    Memory,
}

impl From<AllocError> for ToolError {
    ghost from_gives = { λ _ result. result ≡ Memory };

    /// Memory ran out.
    fn from(_: AllocError) -> ToolError {
        ToolError::Memory
    }
}

/// Hands the networks of the lines, in the grammar that is asked for, to the sink. `before` lines come earlier; returns
/// the total number of lines. Empty lines are skipped, and need no memory.
///
/// Fails with `Line` and the number of the first bad line, or with `Memory`. The sink may then have the networks of the
/// lines before it.
///
/// ```text
/// push_lines(&mut list, 0, "10.0.1.0/24\n\n10.0.0.0/24", Strict)  is  Ok(3), and the list has both networks
/// push_lines(&mut list, 7, "x", Strict)                            is  Err(ToolError::Line(8))
/// ```
pub fn push_lines<S: NetworkSink>(
    sink: &mut S,
    before: usize,
    text: &str,
    grammar: Grammar,
) -> Result<usize, ToolError>
    requires { before + length text.now ≤ MAX }
    ensures networks { OnOk result ((networks : List Network)
        × AreNetworksOf grammar (lines_of text.now) networks
        × ((before : List Network) → S.is_made sink.old before → S.is_made sink.new (before ++ networks))) }
    ensures count { IfOk result (λ lines. lines ≡ before + length (lines_of text.now)) }
    ensures empty { All (λ line. line ≡ []) (lines_of text.now)
        → IsOk result × (sink.new ≡ sink.old) }
    ensures bad_line { (number : ℕ) → result ≡ Err (ToolError.Line number)
        → (later : ℕ) × (number ≡ before + later) × IsFirstBadLine grammar (lines_of text.now) later }
    ensures bad_at_once { (later : ℕ) → StartsWithBadLine grammar (lines_of text.now) later
        → result ≡ Err (ToolError.Line (before + later)) }
{
    let mut rest = text;
    let mut number = before;
    let mut reader = FrontReader::new();
    'lines: while !rest.is_empty() {
        number += 1;
        if let Some(front) = reader.read(rest.as_bytes()) {
            rest = &rest[front.len + 1..];
            sink.push(front.network)?;
            continue 'lines;
        }
        let (line, after) = first_line(rest);
        rest = after;
        if !line.is_empty() {
            let Ok(network) = parse_as(line, grammar) else {
                return Err(ToolError::Line(number));
            };
            sink.push(network)?;
        }
    }
    Ok(number)
}

/// [`IpNet::parse_as`], never inlined: inside the loop over lines its code would slow down the lines that are read at
/// the front.
#[inline(never)]
fn parse_as(line: &str, grammar: Grammar) -> Result<IpNet, AddrParseError>
    ensures { ReadsNetwork ip_network (IsNetworkText grammar) line.now result }
{
    IpNet::parse_as(line, grammar)
}
