//! Answers, written whole or piece by piece.
ghost use Rattle.std.specs.Prelude.{◌<◌, List, ℕ, IsTrue, OnOk, OnErr, length};
ghost use Rattle.std.specs.Io.{StartsWith};
ghost use Rattle.std.specs.Io.KnownBytes.{Appends};
ghost use Rattle.ipnet_text.specs.Pieces.{IsInPieces};

use ipnet_text::pieces::PIECE;
use ipnet_text::write_whole;
use std::io;
use std::io::Write;

/// Writes the bytes and flushes the writer, and returns whether both succeeded. If not, a front of the bytes may be
/// written.
///
/// ```text
/// "10.0.0.0/8\n" to a writer that fails after four bytes: false, and "10.0" is written
/// ```
pub fn write_and_flush<W: Write>(out: &mut W, bytes: &[u8]) -> bool
    ensures whole { IsTrue result → Appends (W.contents out.old) (W.contents out.new) bytes.now }
    ensures front { (front : List ℕ) × StartsWith bytes.now front
        × Appends (W.contents out.old) (W.contents out.new) front }
{
    write_whole(out, bytes).is_ok() && out.flush().is_ok()
}

/// Writes the piece if it has 8192 bytes or more, and then it is empty. If a write fails, a front of it may be written.
///
/// ```text
/// a piece of 8191 bytes: nothing is written; of 8192 bytes: they are written, and the piece is empty
/// ```
pub fn write_if_long<W: Write>(out: &mut W, piece: &mut Vec<u8>) -> io::Result<()>
    ensures ok { OnOk result (IsInPieces (W.contents out.old) (W.contents out.new) piece.new.items piece.old.items) }
    ensures short { OnOk result (length piece.new.items < 8192) }
    ensures front { OnErr result ((front : List ℕ) × StartsWith piece.old.items front
        × Appends (W.contents out.old) (W.contents out.new) front) }
{
    if piece.len() < PIECE {
        return Ok(());
    }
    write_whole(out, piece.as_slice())?;
    piece.clear();
    Ok(())
}
