//! Texts, addresses and rows, written piece by piece, so that an answer of any length takes little memory.
ghost use Rattle.std.specs.Prelude.{◌++◌, codes, decimal, OnOk, OnErr};
ghost use Rattle.ipnet_base.specs.Address.{ip_address};
ghost use Rattle.ipnet.specs.CanonicalTexts.{address_text, canonical_text};
ghost use Rattle.ipnet.specs.NetworkOf.{ip_network};
ghost use Rattle.ipnet_text.specs.Pieces.{IsInPieces};
ghost use Rattle.netset_forms.specs.Forms.{network_row};
ghost use Rattle.netset_forms.specs.FormSteps.{IsCut};

use arrayvec::ArrayString;
use ipnet::{IpAddr, IpNet};
use ipnet_lists::ip_addr_text;
use ipnet_text::pieces::{PIECE, make_room};
use ipnet_text::write_whole;
use itoa::Buffer;
use std::io;
use std::io::Write;

/// Appends the text to the piece. If it does not fit, the piece is written first.
pub(crate) fn put<W: Write>(
    out: &mut W,
    piece: &mut ArrayString<PIECE>,
    text: &str,
) -> io::Result<()>
    ensures ok { OnOk result (IsInPieces (W.contents out.old) (W.contents out.new) piece.new.bytes
        (piece.old.bytes ++ text.now)) }
    ensures cut { OnErr result (IsCut (W.contents out.old) (W.contents out.new) piece.old.bytes text.now) }
{
    make_room(out, piece, text.len().min(PIECE))?;
    if text.len() <= PIECE {
        piece.push_str(text);
        return Ok(());
    }
    write_whole(out, text.as_bytes())
}

/// Appends the address's text to the piece.
fn put_address<W: Write>(
    out: &mut W,
    piece: &mut ArrayString<PIECE>,
    address: IpAddr,
) -> io::Result<()>
    ensures ok { let a = ip_address address in OnOk result (IsInPieces (W.contents out.old) (W.contents out.new)
        piece.new.bytes (piece.old.bytes ++ address_text a.family a.number)) }
    ensures cut { let a = ip_address address in OnErr result (IsCut (W.contents out.old) (W.contents out.new)
        piece.old.bytes (address_text a.family a.number)) }
{
    put(out, piece, ip_addr_text(address).as_str())
}

/// Appends the texts of two addresses to the piece, and this text between them.
pub(crate) fn put_pair<W: Write>(
    out: &mut W,
    piece: &mut ArrayString<PIECE>,
    first: IpAddr,
    between: &str,
    last: IpAddr,
) -> io::Result<()>
    ensures ok { let a = ip_address first in let b = ip_address last in
        OnOk result (IsInPieces (W.contents out.old) (W.contents out.new) piece.new.bytes (piece.old.bytes
        ++ (address_text a.family a.number ++ between.now ++ address_text b.family b.number))) }
    ensures cut { let a = ip_address first in let b = ip_address last in
        OnErr result (IsCut (W.contents out.old) (W.contents out.new) piece.old.bytes
        (address_text a.family a.number ++ between.now ++ address_text b.family b.number)) }
{
    put_address(out, piece, first)?;
    put(out, piece, between)?;
    put_address(out, piece, last)
}

/// Appends the network's text to the piece.
pub(crate) fn put_network<W: Write>(
    out: &mut W,
    piece: &mut ArrayString<PIECE>,
    network: IpNet,
) -> io::Result<()>
    ensures ok { OnOk result (IsInPieces (W.contents out.old) (W.contents out.new) piece.new.bytes
        (piece.old.bytes ++ canonical_text (ip_network network))) }
    ensures cut { OnErr result (IsCut (W.contents out.old) (W.contents out.new) piece.old.bytes
        (canonical_text (ip_network network))) }
{
    put(out, piece, network.to_text().as_str())
}

/// Appends the number to the piece, in decimal.
pub(crate) fn put_number<W: Write>(
    out: &mut W,
    piece: &mut ArrayString<PIECE>,
    number: u64,
) -> io::Result<()>
    ensures ok { OnOk result (IsInPieces (W.contents out.old) (W.contents out.new) piece.new.bytes
        (piece.old.bytes ++ decimal number)) }
    ensures cut { OnErr result (IsCut (W.contents out.old) (W.contents out.new) piece.old.bytes (decimal number)) }
{
    let mut buffer = Buffer::new();
    put(out, piece, buffer.format(number))
}

/// Appends the row of a network to the piece: the network, its first and its last address, with commas between.
pub(crate) fn put_row<W: Write>(
    out: &mut W,
    piece: &mut ArrayString<PIECE>,
    network: IpNet,
) -> io::Result<()>
    ensures ok { OnOk result (IsInPieces (W.contents out.old) (W.contents out.new) piece.new.bytes
        (piece.old.bytes ++ network_row (ip_network network))) }
    ensures cut { OnErr result (IsCut (W.contents out.old) (W.contents out.new) piece.old.bytes
        (network_row (ip_network network))) }
{
    put_network(out, piece, network)?;
    put(out, piece, ",")?;
    put_pair(out, piece, network.network(), ",", network.broadcast())
}
