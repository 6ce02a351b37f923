//! The selected entries of lists that are read one after another.
ghost use Rattle.std.specs.Prelude.{◌≡◌, ◌++◌, ◌∷◌, [], List, ℕ, length, IfOk};
ghost use Rattle.ipnet_text.specs.Inputs.{GaveWhole};

use crate::selected::{SelectRequest, Selected};
use ipnet_lists::{ReadFailure, Reading};
use std::alloc::{AllocError, Global};
use std::io::Read;

/// The lists of a call, which are read one after another, and their selected entries.
///
/// The bytes of a list are not kept: only the texts of the selected entries are. A call that fails ends the selection.
///
/// ```text
/// new(IPv4, sorted), read("10.0.0.1 # web\n::1\n"), read("10.0.0.0/8\n"): the answer is "10.0.0.0/8\n10.0.0.1\n"
/// ```
#[derive(Drop)]
pub struct Selection {
    pub(crate) request: SelectRequest,
    pub(crate) reading: Reading,
    pub(crate) selected: Selected,
}

impl Selection {
    ghost use Rattle.netset_entries.specs.SelectSteps.{WereSelected, IsNoted, has_entry, refused_count};
    ghost use Rattle.netset_entries.specs.declared.selected.SelectRequest.{SelectRequest};

    /// Returns a selection that has read no list. Fails if memory runs out.
    pub fn new(alloc: Global, request: SelectRequest) -> Result<Selection, AllocError>
        ensures { IfOk result (WereSelected request []) }
    {
        Ok(Selection {
            request,
            reading: Reading::new(alloc, request.grammar)?,
            selected: Selected::new(alloc),
        })
    }

    /// Reads the next list up to its end, in the format of `SetReader::read` of `netset_lib`. A line that is not an
    /// entry is not an error here: the command `select` reports it.
    ///
    /// The error is `Unreadable` if a read fails, and `Memory` if memory runs out.
    pub fn read<R: Read>(self, input: &mut R) -> Result<Selection, ReadFailure>
        ensures { IfOk result (λ new. (request : SelectRequest) → (lists : List (List ℕ))
            → WereSelected request lists self
            → ((bytes : List ℕ) × GaveWhole (R.remaining input.old) (R.remaining input.new) bytes
            × WereSelected request (lists ++ bytes ∷ []) new
            × IsNoted request.grammar (length lists) bytes (has_entry new))) }
    {
        let Selection {
            request,
            mut reading,
            mut selected,
        } = self;
        reading.read_list(input, &request, &mut selected)?;
        Ok(Selection {
            request,
            reading,
            selected,
        })
    }

    /// Returns the number of refused lines of all lists that were read.
    ///
    /// ```text
    /// after read("10.0.0.1\nx\n") and read("y\n"): 2
    /// ```
    pub fn refused_count(&self) -> usize
        ensures { result ≡ refused_count self.now }
    {
        self.reading.lines.refused.count
    }

    /// Returns whether the list that was read last has an entry, selected or not.
    ///
    /// ```text
    /// after read("10.0.0.1\n"): true; after read("# nothing\n"): false
    /// ```
    pub fn has_entry(&self) -> bool
        ensures { result ≡ has_entry self.now }
    {
        self.reading.lines.has_entry
    }
}
