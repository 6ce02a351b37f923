//! Lists that are read one after another, each into a value.
ghost use Rattle.std.specs.Prelude.{◌≡◌, [], ℕ, List, IfOk, IfErr};
ghost use Rattle.ipnet.specs.declared.parser.Grammar.{Grammar};
ghost use Rattle.ipnet_lists.specs.Lists.{ListEntry, HaveAddresses};
ghost use Rattle.ipnet_sets.specs.Members.{IsMember};
ghost use Rattle.netset_lib.specs.Answering.{IsAnswererFor, AreAnsweredBy};
ghost use Rattle.netset_lib.specs.Answers.{AreListsRead, HasRefused};

use crate::answer::Answer;
use crate::answerer::{Answerer, read_answerer, read_answers};
use crate::query::Query;
use ipnet::Grammar;
use ipnet_lists::{ReadFailure, Reading, RefusedLines, read_set};
use ipnet_sets::IpSet;
use std::alloc::{AllocError, Global};
use std::io::Read;

/// Reads lists one after another. It keeps the refused lines, which are numbered by list, and no bytes of the lists.
///
/// A call that fails ends the reader.
///
/// ```text
/// new(Strict), read("10.0.0.0/31\n"): the set of 10.0.0.0 to 10.0.0.1; read("x\n"): no address; finish(): line 1 of
///     list 1 is refused
/// ```
#[derive(Drop)]
pub struct SetReader {
    pub(crate) reading: Reading,
}

impl SetReader {
    ghost use Rattle.netset_lib.specs.SetReaders.{WereRead, ReadsNext, has_entry, refused_count};

    /// Returns a reader that has read no list. Fails if memory runs out.
    pub fn new(alloc: Global, grammar: Grammar) -> Result<SetReader, AllocError>
        ensures { IfOk result (WereRead grammar [] []) }
    {
        Ok(SetReader {
            reading: Reading::new(alloc, grammar)?,
        })
    }

    /// Reads the next list up to its end, and returns its addresses.
    ///
    /// A list has an entry a line. Blanks around an entry do not count, nor do a comment, a carriage return at the end
    /// of a line, lines that contain nothing else, and a byte order mark at the start. A comment begins at "#", or at
    /// ";" at the start of the line or after a blank. A line that is not an entry does not fail here: `finish` returns
    /// it. A line that has an entry before the ";", and whose comment has an entry as its first word, is not an entry.
    ///
    /// The error is `Unreadable` if a read fails, and `Memory` if memory runs out.
    pub fn read<R: Read>(self, input: &mut R) -> Result<(SetReader, IpSet), ReadFailure>
        ensures { IfOk result (λ r. ReadsNext (HaveAddresses (IsMember r.1))
            (R.remaining input.old) (R.remaining input.new) self r.0) }
    {
        let mut reading = self.reading;
        let set = read_set(&mut reading, input)?;
        Ok((SetReader { reading }, set))
    }

    /// Reads the next list as `read` does, and returns the answerer of the query that it makes.
    pub fn read_answerer<R: Read>(
        self,
        query: Query,
        input: &mut R,
    ) -> Result<(SetReader, Answerer), ReadFailure>
        ensures { IfOk result (λ r. ReadsNext (IsAnswererFor query r.1)
            (R.remaining input.old) (R.remaining input.new) self r.0) }
    {
        let mut reading = self.reading;
        let answerer = read_answerer(query, &mut reading, input)?;
        Ok((SetReader { reading }, answerer))
    }

    /// Reads the next list as `read` does, and returns the answer to its entries.
    ///
    /// ```text
    /// a route by "10.0.0.0/8\n", and "::1\n": "::1 -\n", which did not succeed
    /// ```
    pub fn read_answers<R: Read>(
        self,
        answerer: &Answerer,
        input: &mut R,
    ) -> Result<(SetReader, Answer), ReadFailure>
        ensures { IfOk result (λ r. ReadsNext (AreAnsweredBy answerer.now r.1)
            (R.remaining input.old) (R.remaining input.new) self r.0) }
    {
        let mut reading = self.reading;
        let answers = read_answers(answerer, &mut reading, input)?;
        let answer = Answer {
            text: answers.text,
            succeeded: answerer.is_success(answers.found),
        };
        Ok((SetReader { reading }, answer))
    }

    /// How many lines of the lists are not entries.
    ///
    /// ```text
    /// after read("10.0.0.1\nx\n") and read("y\n"): 2
    /// ```
    pub fn refused_count(&self) -> usize
        ensures { result ≡ refused_count self.now }
    {
        self.reading.lines.refused.count
    }

    /// Whether the list that was read last has an entry.
    ///
    /// ```text
    /// after read("10.0.0.1\n"): true; after read("# nothing\n"): false
    /// ```
    pub fn has_entry(&self) -> bool
        ensures { result ≡ has_entry self.now }
    {
        self.reading.lines.has_entry
    }

    /// Ends the reading. If lines are not entries, the error is the first ten of them, and the number of all.
    ///
    /// ```text
    /// after read("10.0.0.0/33\n"): line 1 of list 0; after read("10.0.0.1\n"): no error
    /// ```
    pub fn finish(self) -> Result<(), RefusedLines>
        ensures good { IfOk result (λ _. (grammar : Grammar) → (lists : List (List ℕ))
            → (entries : List (List ListEntry)) → WereRead grammar lists entries self
            → AreListsRead grammar 0 lists entries []) }
        ensures refused { IfErr result (λ lines. (grammar : Grammar) → (lists : List (List ℕ))
            → (entries : List (List ListEntry)) → WereRead grammar lists entries self
            → HasRefused grammar lists lines) }
    {
        let reading = self.reading;
        let lines = reading.lines;
        let refused = lines.refused;
        if refused.count != 0 {
            return Err(refused);
        }
        Ok(())
    }
}
