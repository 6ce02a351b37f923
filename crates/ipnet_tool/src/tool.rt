//! The text tool: it replaces a list of networks, one per line, by the shortest list with the same addresses.
ghost use Rattle.std.specs.Prelude.{◌≡◌, [], IsOk, IfOk, string_bytes};
ghost use Rattle.ipnet.specs.declared.parser.Grammar.TheVariants.{Strict, Legacy};
ghost use Rattle.ipnet_text.specs.LineTexts.{text_of_lines};
ghost use Rattle.ipnet_tool.specs.Answers.{IsTextAnswer};
ghost use Rattle.ipnet_text.specs.NetLists.{networks_of};

use ipnet::{Grammar, IpNet};
use ipnet_text::{NetLists, ToolError, push_line, push_lines};
use std::alloc::{AllocError, Global};

pub mod laws;

/// The shortest list of networks that cover exactly the addresses of the text's networks, in canonical text, one per
/// line.
///
/// The text is cut at each "\n"; the text after the last one is a line too, unless it is empty. Empty lines
/// are skipped, and each other line is read as [`IpNet`] by the strict grammar. The answer has the maximal
/// aligned blocks of the addresses, IPv4 first, ascending, each followed by "\n". The first bad line is
/// refused with its number; if memory runs out before that line is reached, the error is `Memory`. If only empty
/// lines come before it, no memory is needed. A text that is empty, or has only empty lines, has an empty answer, and
/// needs no memory.
///
/// ```text
/// aggregate_text(alloc, "10.0.1.0/24\n\n10.0.0.0/24")  is  Ok("10.0.0.0/23\n")
/// aggregate_text(alloc, "10.0.0.0/24\n\nx\n")           is  Err(ToolError::Line(3))
/// ```
pub fn aggregate_text(alloc: Global, text: &str) -> Result<String, ToolError>
    ensures { IsTextAnswer Strict text.now result }
{
    aggregate_text_as(alloc, text, Grammar::Strict)
}

/// The same for lines that are read by the legacy grammar, [`IpNet::parse_legacy`].
///
/// ```text
/// aggregate_text_legacy(alloc, "10.0.0.0/24\n10.0.01.0/24\n")  is  Ok("10.0.0.0/23\n")
/// ```
pub fn aggregate_text_legacy(alloc: Global, text: &str) -> Result<String, ToolError>
    ensures { IsTextAnswer Legacy text.now result }
{
    aggregate_text_as(alloc, text, Grammar::Legacy)
}

/// The same for lines that are read by this grammar.
///
/// ```text
/// aggregate_text_as(alloc, "10.0.0.0/24\n10.0.01.0/24\n", Strict)  is  Err(ToolError::Line(2))
/// ```
pub fn aggregate_text_as(alloc: Global, text: &str, grammar: Grammar) -> Result<String, ToolError>
    ensures { IsTextAnswer grammar text.now result }
{
    let mut families = NetLists::new(alloc);
    push_lines(&mut families, 0, text, grammar)?;
    families.aggregate();
    Ok(printed(alloc, &families)?)
}

/// The canonical texts of the networks, one per line, IPv4 first.
fn printed(alloc: Global, families: &NetLists) -> Result<String, AllocError>
    ensures empty { networks_of families.now ≡ [] → IsOk result }
    ensures text { IfOk result (λ text. string_bytes text ≡ text_of_lines (networks_of families.now)) }
{
    let mut text = String::new(alloc);
    for network in &families.ipv4 {
        push_line(&mut text, IpNet::V4(*network))?;
    }
    for network in &families.ipv6 {
        push_line(&mut text, IpNet::V6(*network))?;
    }
    Ok(text)
}
