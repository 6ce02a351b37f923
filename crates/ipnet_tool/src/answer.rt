//! The answer, written piece by piece.
ghost use Rattle.std.specs.Prelude.{ℕ, List, OnOk};
ghost use Rattle.std.specs.Io.{StartsWith};
ghost use Rattle.std.specs.Io.KnownBytes.{Appends};
ghost use Rattle.ipnet_text.specs.LineTexts.{text_of_lines};
ghost use Rattle.ipnet_text.specs.NetLists.{networks_of};

use arrayvec::ArrayString;
use ipnet::IpNet;
use ipnet_text::pieces::put_line;
use ipnet_text::{NetLists, write_whole};
use std::io;
use std::io::Write;

/// Writes the canonical texts of the networks, one per line, IPv4 first. If a write fails, a front of the lines has
/// been written.
pub(crate) fn write_networks<W: Write>(out: &mut W, families: &NetLists) -> io::Result<()>
    ensures whole { OnOk result
        (Appends (W.contents out.old) (W.contents out.new) (text_of_lines (networks_of families.now))) }
    ensures front { (front : List ℕ) × StartsWith (text_of_lines (networks_of families.now)) front
        × Appends (W.contents out.old) (W.contents out.new) front }
{
    let mut piece = ArrayString::new();
    for network in &families.ipv4 {
        put_line(out, &mut piece, IpNet::V4(*network))?;
    }
    for network in &families.ipv6 {
        put_line(out, &mut piece, IpNet::V6(*network))?;
    }
    write_whole(out, piece.as_str().as_bytes())
}
