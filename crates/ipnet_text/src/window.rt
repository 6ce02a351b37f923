//! The bytes that were read and not yet processed.
ghost use Rattle.std.specs.Prelude.{◌≡◌, ℕ, ◌<◌, ◌≤◌, List, [], ◌++◌, length, drop, IfOk, OnOk, OnErr, false};
ghost use Rattle.std.specs.Io.KnownBytes.{Consumes, IsAtEnd};

use std::alloc::{AllocError, Global};
use std::io::{ErrorKind, Read};
use thiserror::Error;

/// How many bytes a window has room for.
pub const SIZE: usize = 65536;

/// A read failed, and not because it was interrupted. The text is `cannot be read`.
#[derive(Clone, Copy, Debug, PartialEq, Eq, Drop, Error)]
#[error("cannot be read")]
pub struct ReadError;

/// The bytes that a reader returned and that are not taken yet, and room for more: 64 KiB together, on the heap.
///
/// ```text
/// an empty window, filled from a reader of "ab\nc", holds "ab\nc"; after 3 bytes are taken it holds "c"
/// ```
//
// The bytes from `start` to `end` are held.
#[derive(Drop)]
pub struct Window {
    bytes: Vec<u8>,
    start: usize,
    end: usize,
    ghost ordered: { start ≤ end },
    ghost within: { end ≤ 65536 },
    ghost size: { length bytes.items ≡ 65536 },
}

impl Window {
    ghost use Rattle.ipnet_text.specs.Window.{held};

    /// A window that holds nothing. Fails if memory runs out.
    pub fn new(alloc: Global) -> Result<Window, AllocError>
        ensures { IfOk result (λ window. held window ≡ []) }
    {
        let bytes = vec![in alloc; 0; SIZE]?;
        Ok(Window {
            bytes,
            start: 0,
            end: 0,
        })
    }

    /// The bytes in the window.
    pub fn held(&self) -> &[u8]
        ensures value { result.now ≡ held self.now }
        ensures fits { length result.now ≤ 65536 }
    {
        &self.bytes[self.start..self.end]
    }

    /// Discards the first `count` of the bytes in the window.
    pub fn take(&mut self, count: usize)
        requires { count ≤ length (held self.old) }
        ensures { held self.new ≡ drop count (held self.old) }
    {
        self.start += count;
    }

    /// Moves what the window holds to its front, so that all its room is behind it.
    fn move_to_front(&mut self)
        ensures held { held self.new ≡ held self.old }
        ensures room { self.new.end ≡ length (held self.old) }
    {
        let (start, end) = (self.start, self.end);
        self.bytes.copy_within(start..end, 0);
        self.start = 0;
        self.end = end - start;
    }

    /// Reads once, after the bytes in the window, and returns whether the reader returned any bytes. If it returned
    /// none, it is at its end. An interrupted read is repeated. After an error the window holds what it held before.
    //
    // The loop must provably end, although a reader may be interrupted again and again. So it counts up to more calls
    // than any run makes.
    pub fn fill<R: Read>(&mut self, input: &mut R) -> Result<bool, ReadError>
        requires { length (held self.old) < 65536 }
        ensures read { OnOk result ((more : List ℕ) × (held self.new ≡ held self.old ++ more)
            × Consumes (R.remaining input.old) (R.remaining input.new) more) }
        ensures end { IfOk result (λ some. some ≡ false → IsAtEnd (R.remaining input.new)) }
        ensures kept { OnErr result (held self.new ≡ held self.old) }
    {
        self.move_to_front();
        for _ in 0..u64::MAX {
            let end = self.end;
            match input.read(&mut self.bytes[end..]) {
                Ok(count) => {
                    self.end = end + count;
                    return Ok(count > 0);
                }
                Err(error) => {
                    if error.kind() != ErrorKind::Interrupted {
                        return Err(ReadError);
                    }
                }
            }
        }
        Err(ReadError)
    }
}
