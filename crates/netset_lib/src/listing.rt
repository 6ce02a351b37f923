//! The subnets of a network and its hosts, written piece by piece, so that a listing of any length takes little memory.
ghost use Rattle.std.specs.Prelude.{◌++◌, List, ℕ, OnOk, OnErr, ◌∷◌, []};
ghost use Rattle.std.specs.Io.{StartsWith};
ghost use Rattle.std.specs.Io.KnownBytes.{Appends};
ghost use Rattle.ipnet_base.specs.Address.{ip_address};
ghost use Rattle.ipnet_base.specs.RangeOf.{ip_addresses};
ghost use Rattle.ipnet.specs.CanonicalTexts.{address_text};
ghost use Rattle.ipnet.specs.SubnetsLeft.{ip_subnets_left};
ghost use Rattle.ipnet_text.specs.LineTexts.{text_of_lines};
ghost use Rattle.ipnet_text.specs.Pieces.{IsInPieces};
ghost use Rattle.netset_lib.specs.Listings.{text_of_addresses};

use arrayvec::ArrayString;
use ipnet::{IpAddr, IpAddrRange, IpSubnets};
use ipnet_lists::ip_addr_text;
use ipnet_text::pieces::{PIECE, put_line, put_text_line};
use ipnet_text::write_whole;
use std::io;
use std::io::Write;

/// Appends the address's text and a newline to the piece. If they do not fit, the piece is written first.
fn put_address<W: Write>(
    out: &mut W,
    piece: &mut ArrayString<PIECE>,
    address: IpAddr,
) -> io::Result<()>
    ensures ok { let a = ip_address address in
        OnOk result (IsInPieces (W.contents out.old) (W.contents out.new) piece.new.bytes
        ((piece.old.bytes ++ address_text a.family a.number) ++ 10 ∷ [])) }
    ensures front { OnErr result ((front : List ℕ) × StartsWith piece.old.bytes front
        × Appends (W.contents out.old) (W.contents out.new) front) }
{
    put_text_line(out, piece, ip_addr_text(address).as_str())
}

/// Writes the networks of the walk, one a line, and flushes the writer. If a write or the flush fails, a front of the
/// lines has been written.
pub(crate) fn write_networks<W: Write>(out: &mut W, walk: IpSubnets) -> io::Result<()>
    ensures whole { OnOk result
        (Appends (W.contents out.old) (W.contents out.new) (text_of_lines (ip_subnets_left walk))) }
    ensures front { (front : List ℕ) × StartsWith (text_of_lines (ip_subnets_left walk)) front
        × Appends (W.contents out.old) (W.contents out.new) front }
{
    let mut piece = ArrayString::new();
    for network in walk {
        put_line(out, &mut piece, network)?;
    }
    write_whole(out, piece.as_str().as_bytes())?;
    out.flush()
}

/// Writes the addresses of the range, one a line, and flushes the writer. If a write or the flush fails, a front of the
/// lines has been written.
pub(crate) fn write_addresses<W: Write>(out: &mut W, range: IpAddrRange) -> io::Result<()>
    ensures whole { OnOk result
        (Appends (W.contents out.old) (W.contents out.new) (text_of_addresses (ip_addresses range))) }
    ensures front { (front : List ℕ) × StartsWith (text_of_addresses (ip_addresses range)) front
        × Appends (W.contents out.old) (W.contents out.new) front }
{
    let mut piece = ArrayString::new();
    for address in range {
        put_address(out, &mut piece, address)?;
    }
    write_whole(out, piece.as_str().as_bytes())?;
    out.flush()
}
