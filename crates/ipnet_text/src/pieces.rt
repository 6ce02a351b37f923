//! Lines of networks, written piece by piece.
ghost use Rattle.std.specs.Prelude.{◌≡◌, ℕ, ◌+◌, ◌<◌, ◌≤◌, List, ◌++◌, ◌∷◌, [], OnOk, OnErr, length};
ghost use Rattle.std.specs.Io.{StartsWith};
ghost use Rattle.std.specs.Io.KnownBytes.{Appends};
ghost use Rattle.arrayvec.specs.ArrayString.{array_string_len};
ghost use Rattle.ipnet.specs.CanonicalTexts.{canonical_text};
ghost use Rattle.ipnet.specs.NetworkOf.{ip_network};
ghost use Rattle.ipnet_text.specs.Pieces.{IsInPieces};

use crate::output::write_whole;
use arrayvec::ArrayString;
use ipnet::IpNet;
use std::io;
use std::io::Write;

/// How many bytes are written at once.
pub const PIECE: usize = 8192;

/// Appends the network's canonical text and a newline to the piece. If they do not fit, the piece is written first.
///
/// Fails if that write fails; then the writer received a front of the piece.
///
/// ```text
/// the piece "fd00::/32\n" and the network 10.0.0.0/8: nothing is written, the piece is "fd00::/32\n10.0.0.0/8\n"
/// ```
pub fn put_line<W: Write>(
    out: &mut W,
    piece: &mut ArrayString<PIECE>,
    network: IpNet,
) -> io::Result<()>
    ensures ok { OnOk result (IsInPieces (W.contents out.old) (W.contents out.new) piece.new.bytes
        ((piece.old.bytes ++ canonical_text (ip_network network)) ++ 10 ∷ [])) }
    ensures front { OnErr result ((front : List ℕ) × StartsWith piece.old.bytes front
        × Appends (W.contents out.old) (W.contents out.new) front) }
{
    put_text_line(out, piece, network.to_text().as_str())
}

/// Appends the text and a newline to the piece. If they do not fit, the piece is written first.
///
/// Fails if that write fails; then the writer received a front of the piece.
///
/// ```text
/// the piece "::1\n" and the text "::2": nothing is written, the piece is "::1\n::2\n"
/// ```
pub fn put_text_line<W: Write>(
    out: &mut W,
    piece: &mut ArrayString<PIECE>,
    text: &str,
) -> io::Result<()>
    requires { length text.now < 8192 }
    ensures ok { OnOk result (IsInPieces (W.contents out.old) (W.contents out.new) piece.new.bytes
        ((piece.old.bytes ++ text.now) ++ 10 ∷ [])) }
    ensures front { OnErr result ((front : List ℕ) × StartsWith piece.old.bytes front
        × Appends (W.contents out.old) (W.contents out.new) front) }
{
    make_room(out, piece, text.len() + 1)?;
    piece.push_str(text);
    piece.push_str("\n");
    Ok(())
}

/// Writes the piece, unless it has room for `more` bytes.
///
/// Fails if that write fails; then the writer received a front of the piece.
///
/// ```text
/// a piece of 8,000 bytes: for 192 bytes more nothing is written, for 193 bytes more the piece is written
/// ```
pub fn make_room<W: Write>(
    out: &mut W,
    piece: &mut ArrayString<PIECE>,
    more: usize,
) -> io::Result<()>
    requires { more ≤ 8192 }
    ensures room { OnOk result (array_string_len piece.new + more ≤ 8192) }
    ensures ok { OnOk result
        (IsInPieces (W.contents out.old) (W.contents out.new) piece.new.bytes piece.old.bytes) }
    ensures front { OnErr result ((front : List ℕ) × StartsWith piece.old.bytes front
        × Appends (W.contents out.old) (W.contents out.new) front) }
{
    if more <= piece.remaining_capacity() {
        return Ok(());
    }
    write_whole(out, piece.as_str().as_bytes())?;
    piece.clear();
    Ok(())
}
