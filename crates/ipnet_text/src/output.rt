//! Writes all bytes of a slice to a writer.
ghost use Rattle.std.specs.Prelude.{ℕ, List, OnOk};
ghost use Rattle.std.specs.Io.{StartsWith};
ghost use Rattle.std.specs.Io.KnownBytes.{Appends};

use std::io;
use std::io::{ErrorKind, Write};

/// Writes all the bytes, and does not flush.
///
/// An interrupted write is repeated. If a write fails otherwise, the writer has taken a front of the bytes, and its
/// error is returned; a writer that takes no byte gives `WriteZero`. `write_all` of the standard library does the same,
/// but does not promise which bytes were written before an error.
///
/// ```text
/// "10.0.0.0/8\n" to a writer that takes four bytes and then fails: its error, and "10.0" is written
/// ```
//
// The loop must provably end, although a writer may be interrupted again and again. So it counts up to more calls than
// any run makes.
pub fn write_whole<W: Write>(out: &mut W, bytes: &[u8]) -> io::Result<()>
    ensures whole { OnOk result (Appends (W.contents out.old) (W.contents out.new) bytes.now) }
    ensures front { (front : List ℕ) × StartsWith bytes.now front
        × Appends (W.contents out.old) (W.contents out.new) front }
{
    let mut written = 0;
    for _ in 0..u64::MAX {
        if written == bytes.len() {
            return Ok(());
        }
        match out.write(&bytes[written..]) {
            Ok(0) => return Err(ErrorKind::WriteZero.into()),
            Ok(count) => written += count,
            Err(error) => {
                if error.kind() != ErrorKind::Interrupted {
                    return Err(error);
                }
            }
        }
    }
    Err(ErrorKind::Interrupted.into())
}
