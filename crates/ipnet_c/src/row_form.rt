//! Rows: one address of a column of both families, as the byte of its family and 16 bytes of octets.
ghost use Rattle.std.specs.Prelude.{◌≡◌, ◌≢◌, ℕ, ◌+◌, ◌*◌, ◌<◌, ◌≤◌, ◌↔◌, IsTrue, IfSome, None, Some, length};
ghost use Rattle.std.specs.Prelude.{slice_index};
ghost use Rattle.ipnet_base.specs.Address.{ip_address};
ghost use Rattle.ipnet_c.specs.Rows.{AreRows, row_bytes, IsRowOf, IsNoFamily, written_family, written_octets};

use crate::set_questions::read_address;
use ipnet::IpAddr;

/// Returns whether there are 16 bytes of octets for each of the rows.
pub(crate) fn are_rows(families: usize, octets: usize) -> bool
    ensures { IsTrue result ↔ (octets ≡ families * 16) }
{
    octets % 16 == 0 && octets / 16 == families
}

/// Returns the address of a row, or `None` if its family is neither 4 nor 6.
pub(crate) fn read_row(family: u8, bytes: &[u8]) -> Option<IpAddr>
    requires { length bytes.now ≡ 16 }
    ensures some { IfSome result (λ ip. IsRowOf family bytes.now (ip_address ip)) }
    ensures none { (result ≡ None) ↔ IsNoFamily family }
{
    match family {
        4 => read_address(&bytes[..4]),
        6 => read_address(bytes),
        _ => None,
    }
}

/// Returns the octets of an address, with zeros after the four octets of an IPv4 address.
pub(crate) fn padded_octets(ip: IpAddr) -> [u8; 16]
    ensures { result ≡ written_octets (Some (ip_address ip)) }
{
    match ip {
        IpAddr::V4(ip) => {
            let [a, b, c, d] = ip.to_bits().to_be_bytes();
            [a, b, c, d, 0, 0, 0, 0, 0, 0, 0, 0, 0, 0, 0, 0]
        }
        IpAddr::V6(ip) => ip.to_bits().to_be_bytes(),
    }
}

/// Writes the 16 bytes of the row with this index.
pub(crate) fn write_octets(octets: &mut [u8], index: usize, bytes: &[u8; 16])
    requires { (index + 1) * 16 ≤ length octets.old }
    ensures as_many { length octets.new ≡ length octets.old }
    ensures written { row_bytes octets.new index ≡ bytes.now }
    ensures others { (i : ℕ) → i ≢ index → row_bytes octets.new i ≡ row_bytes octets.old i }
{
    octets[index * 16..(index + 1) * 16].copy_from_slice(bytes);
}
