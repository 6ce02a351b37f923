//! Filters and routes: how each entry of the second list is answered, once the first list was read.
ghost use Rattle.std.specs.Prelude.{◌≡◌, ◌++◌, [], None, OnOk, IfOk, string_bytes, true, false};
ghost use Rattle.std.specs.Str.{IsUtf8};
ghost use Rattle.netset_lib.specs.Answering.{IsAnswererFor, AreAnswersBy, AddsAnswer, found_by};
ghost use Rattle.ipnet_lists.specs.FoundEntry.{entry_of};
ghost use Rattle.ipnet_lists.specs.Reading.{WasMadeOf};
ghost use Rattle.netset_lib.specs.Routing.{route_line};
ghost use Rattle.netset_lib.specs.declared.answerer.Answerer.TheVariants as Answerers;

use crate::filter::{covers_entry, side_set};
use crate::query::Query;
use crate::route::{longest_holding, push_line, read_table};
use ipnet_lists::{Collector, Entry, ReadFailure, Reading, read_set};
use ipnet_routes::RouteTable;
use ipnet_sets::IpSet;
use std::alloc::{AllocError, Global};
use std::io::Read;
use std::str;

/// The first list of a filter or a route: the set in which kept entries lie, or the table of networks.
#[derive(Drop)]
pub enum Answerer {
    /// The set in which the entries lie that a filter keeps.
    Filter(IpSet),
    /// The table of networks.
    Route(RouteTable<()>),
}

impl Answerer {
    /// Whether a query with this answerer succeeds. `found` is whether a filter printed an entry, or an entry has no
    /// route.
    pub(crate) fn is_success(&self, found: bool) -> bool
        ensures { found_by self.now result ≡ found }
    {
        match self {
            Answerer::Filter(_) => found,
            Answerer::Route(_) => !found,
        }
    }
}

/// The answers to entries.
#[derive(Drop)]
pub(crate) struct Answers {
    /// Their lines.
    pub(crate) text: String,
    /// Whether a filter kept an entry, or an entry has no route.
    pub(crate) found: bool,
}

impl Answers {
    /// The answers to no entry.
    pub(crate) fn new(alloc: Global) -> Answers
        ensures text { string_bytes result.text ≡ [] }
        ensures found { result.found ≡ false }
    {
        Answers {
            text: String::new(alloc),
            found: false,
        }
    }
}

/// The text of an entry, for its line.
pub(crate) fn entry_text(text: &[u8]) -> &str
    requires { IsUtf8 text.now }
    ensures { result.now ≡ text.now }
{
    match str::from_utf8(text) {
        Ok(text) => text,
        Err(_) => unreachable!(),
    }
}

/// Adds a line with the entry, if it lies in the set.
fn push_kept(
    answers: &mut Answers,
    set: &IpSet,
    text: &[u8],
    entry: Entry,
) -> Result<(), AllocError>
    requires { IsUtf8 text.now }
    ensures { OnOk result
        (AddsAnswer (Answerers.Filter set.now) answers.old answers.new (entry_of text.now entry)) }
{
    if covers_entry(set, entry) {
        answers.text.push_str(entry_text(text))?;
        answers.text.push_str("\n")?;
        answers.found = true;
    }
    Ok(())
}

/// Adds the line of an entry without a route.
pub(crate) fn push_missing(answers: &mut Answers, text: &str) -> Result<(), AllocError>
    ensures text { OnOk result
        (string_bytes answers.new.text ≡ string_bytes answers.old.text ++ route_line text.now None) }
    ensures found { answers.new.found ≡ true }
{
    answers.found = true;
    push_line(&mut answers.text, text, None)
}

/// Adds a line with the entry, and the longest network of the table that holds it.
fn push_route(
    answers: &mut Answers,
    table: &RouteTable<()>,
    text: &str,
    entry: Entry,
) -> Result<(), AllocError>
    ensures { OnOk result
        (AddsAnswer (Answerers.Route table.now) answers.old answers.new (entry_of text.now entry)) }
{
    match longest_holding(table, entry) {
        Some(network) => push_line(&mut answers.text, text, Some(network)),
        None => push_missing(answers, text),
    }
}

impl Collector<Answers> for Answerer {
    ghost is_made = { AreAnswersBy };

    fn push(&self, made: &mut Answers, text: &[u8], entry: Entry) -> Result<(), AllocError> {
        match self {
            Answerer::Filter(set) => push_kept(made, set, text, entry),
            Answerer::Route(table) => push_route(made, table, entry_text(text), entry),
        }
    }
}

/// Reads the first list of a filter or a route.
pub(crate) fn read_answerer<R: Read>(
    query: Query,
    reading: &mut Reading,
    input: &mut R,
) -> Result<Answerer, ReadFailure>
    ensures { IfOk result (λ answerer. WasMadeOf (R.remaining input.old) (R.remaining input.new)
        reading.old reading.new (IsAnswererFor query answerer)) }
{
    match query {
        Query::Filter(side) => {
            let alloc = reading.lines.alloc;
            let set = read_set(reading, input)?;
            Ok(Answerer::Filter(side_set(alloc, side, set)?))
        }
        Query::Route => Ok(Answerer::Route(read_table(reading, input)?)),
    }
}

/// Reads one list, and makes the answer to each of its entries.
pub(crate) fn read_answers<R: Read>(
    answerer: &Answerer,
    reading: &mut Reading,
    input: &mut R,
) -> Result<Answers, ReadFailure>
    ensures { IfOk result (λ answers. WasMadeOf (R.remaining input.old) (R.remaining input.new)
        reading.old reading.new (AreAnswersBy answerer.now answers)) }
{
    let mut answers = Answers::new(reading.lines.alloc);
    reading.read_list(input, answerer, &mut answers)?;
    Ok(answers)
}
