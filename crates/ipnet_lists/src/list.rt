//! A list, read into a set.
ghost use Rattle.std.specs.Prelude.{◌↔◌, List, IfOk};
ghost use Rattle.ipnet_base.specs.Address.{Address};
ghost use Rattle.ipnet_sets.specs.Members.{IsMember};
ghost use Rattle.ipnet_sets.specs.Pushed.{IsPushed};
ghost use Rattle.ipnet_lists.specs.Lists.{ListEntry, HaveAddresses};
ghost use Rattle.ipnet_lists.specs.Reading.{WasMadeOf};

use crate::entry::Entry;
use crate::reader::Collector;
use crate::reading::{ReadFailure, Reading};
use ipnet_sets::{IpSet, IpSetBuilder};
use std::alloc::AllocError;
use std::io::Read;

/// Collects the addresses of entries.
#[derive(Drop)]
pub(crate) struct Addresses;

impl Collector<IpSetBuilder> for Addresses {
    ghost is_made = { λ _ builder entries. HaveAddresses (IsPushed builder) entries };

    fn push(&self, made: &mut IpSetBuilder, _: &[u8], entry: Entry) -> Result<(), AllocError> {
        let (first, last) = entry.ends();
        made.push_range(first, last)
    }
}

/// Reads one list into a set of its addresses.
///
/// The error is `Unreadable` if a read fails, and `Memory` if memory runs out.
pub fn read_set<R: Read>(reading: &mut Reading, input: &mut R) -> Result<IpSet, ReadFailure>
    ensures { IfOk result (λ set. WasMadeOf (R.remaining input.old) (R.remaining input.new) reading.old reading.new
        (HaveAddresses (IsMember set))) }
{
    let alloc = reading.lines.alloc;
    let mut builder = IpSetBuilder::new(alloc);
    reading.read_list(input, &Addresses, &mut builder)?;
    Ok(builder.into_set(alloc)?)
}
