//! Tables of networks with texts, read line by line.
ghost use Rattle.std.specs.Prelude.{◌≡◌, IfOk, OnOk};
ghost use Rattle.ipnet_lists.specs.EntryOf.{entry_range};
ghost use Rattle.netset_lib.specs.TextSteps.{AddsBlocks, AreTextsRead, texts_in};
ghost use Rattle.netset_lib.specs.TextTables.{IsTextLine, IsNoTextLine, not_text_line};

use crate::text_line::{NotTextLine, read_table_line};
use ipnet::{Grammar, IpNet};
use ipnet_lists::{ContentLine, Entry, LineHandler, Refusals, read_lines};
use std::alloc::{AllocError, Global};

/// The routes of a table in the order of its lines, and its refused lines.
#[derive(Drop)]
pub(crate) struct TextRoutes<'a> {
    pub(crate) routes: Vec<(IpNet, &'a str)>,
    pub(crate) refused: Refusals<NotTextLine>,
}

/// Puts the networks of the entry at the end of the routes, each with this text.
fn push_blocks<'a>(
    routes: &mut Vec<(IpNet, &'a str)>,
    entry: Entry,
    text: &'a str,
) -> Result<(), AllocError>
    ensures { OnOk result
        (AddsBlocks (texts_in routes.old.items) (entry_range entry) text.now (texts_in routes.new.items)) }
{
    for network in entry.walk() {
        routes.push((network, text))?;
    }
    Ok(())
}

/// Takes the lines of a table.
#[derive(Drop)]
struct TableLines {
    grammar: Grammar,
}

impl<'a> LineHandler<'a, Vec<(IpNet, &'a str)>, NotTextLine> for TableLines {
    ghost takes = { λ h line old new. (l : _) × IsTextLine h.grammar line.text l
        × AddsBlocks (texts_in old.items) l.range l.text (texts_in new.items) };

    ghost is_cause = { λ h. IsNoTextLine h.grammar };

    ghost broken = { λ h. not_text_line h.grammar };

    fn refuse_broken(&self) -> NotTextLine
        ensures { result ≡ not_text_line self.now.grammar }
    {
        let grammar = self.grammar;
        NotTextLine { grammar }
    }

    fn take(
        &self,
        made: &mut Vec<(IpNet, &'a str)>,
        line: ContentLine<'a>,
    ) -> Result<Result<(), NotTextLine>, AllocError> {
        match read_table_line(line.text, self.grammar) {
            Some(found) => {
                push_blocks(made, found.entry, found.text)?;
                Ok(Ok(()))
            }
            None => Ok(Err(NotTextLine {
                grammar: self.grammar,
            })),
        }
    }
}

/// Reads the lines of a table. Fails if memory runs out.
pub(crate) fn read_text_routes<'a>(
    alloc: Global,
    bytes: &'a [u8],
    grammar: Grammar,
) -> Result<TextRoutes<'a>, AllocError>
    ensures { IfOk result (AreTextsRead grammar bytes.now) }
{
    let mut routes = Vec::new(alloc);
    let refused = read_lines(alloc, bytes, &TableLines { grammar }, &mut routes)?;
    Ok(TextRoutes { routes, refused })
}
