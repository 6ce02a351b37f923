//! Pictures into the buffers that callers lend.
ghost use Rattle.std.specs.Prelude.{◌≡◌, ◌≢◌, ◌↔◌, ◌⊎◌, Ok, Some, None, String, string_bytes};
ghost use Rattle.std.specs.Global.{Global as GlobalValue};
ghost use Rattle.ipnet_c.specs.Statuses as statuses;
ghost use Rattle.ipnet_c.specs.Buffers.{IsWritten, IsTooLong};

use crate::buffers::write_to_buffer;
use crate::statuses::{NO_ADDRESS, OUT_OF_MEMORY};
use std::alloc::AllocError;

/// Writes the picture to the start of the buffer if there is room, and its length into `count`. Without a picture it
/// writes nothing.
pub(crate) fn write_picture(
    drawn: Result<Option<String>, AllocError>,
    buffer: &mut [u8],
    count: &mut usize,
) -> u32
    ensures known { (result ≡ statuses.ok) ⊎ ((result ≡ statuses.buffer_too_short) ⊎ ((result ≡ statuses.no_address)
        ⊎ (result ≡ statuses.out_of_memory))) }
    ensures ok { result ≡ statuses.ok → (text : String GlobalValue) × (drawn ≡ Ok (Some text))
        × IsWritten (string_bytes text) buffer.old buffer.new count.new }
    ensures too_short { result ≡ statuses.buffer_too_short → (text : String GlobalValue) × (drawn ≡ Ok (Some text))
        × IsTooLong (string_bytes text) buffer.old buffer.new count.new }
    ensures no_address { (result ≡ statuses.no_address) ↔ (drawn ≡ Ok None) }
    ensures kept { result ≢ statuses.ok → result ≢ statuses.buffer_too_short
        → (buffer.new ≡ buffer.old) × (count.new ≡ count.old) }
{
    match drawn {
        Ok(Some(text)) => write_to_buffer(text.as_bytes(), buffer, count),
        Ok(None) => NO_ADDRESS,
        Err(_) => OUT_OF_MEMORY,
    }
}
