//! Answers into the buffers that callers lend.
ghost use Rattle.std.specs.Prelude.{◌≡◌, ◌⊎◌};
ghost use Rattle.ipnet_c.specs.Statuses as statuses;
ghost use Rattle.ipnet_c.specs.Buffers.{IsWritten, IsTooLong};

use crate::statuses::{BUFFER_TOO_SHORT, OK};

/// Writes the answer to the start of the buffer if there is room, and its length into `count` in any case.
pub(crate) fn write_to_buffer(answer: &[u8], buffer: &mut [u8], count: &mut usize) -> u32
    ensures known { (result ≡ statuses.ok) ⊎ (result ≡ statuses.buffer_too_short) }
    ensures ok { result ≡ statuses.ok → IsWritten answer.now buffer.old buffer.new count.new }
    ensures too_short { result ≡ statuses.buffer_too_short → IsTooLong answer.now buffer.old buffer.new count.new }
{
    *count = answer.len();
    if buffer.len() < answer.len() {
        return BUFFER_TOO_SHORT;
    }
    buffer[..answer.len()].copy_from_slice(answer);
    OK
}
