//! Other values for the routes of an image, written over the old ones.
ghost use Rattle.std.specs.Prelude.{◌≡◌, ℕ, ◌+◌, ◌^◌, ◌<◌, ◌≤◌, length};
ghost use Rattle.ipnet_routes.specs.TableImages.{value_place, IsNumberWritten, AreValuesWritten};

/// Writes the number into the four bytes from byte `at` on, the least significant byte first.
fn write_number(bytes: &mut [u8], at: usize, number: u32)
    requires { at + 4 ≤ length bytes.old }
    ensures { IsNumberWritten at number bytes.old bytes.new }
{
    bytes[at..at + 4].copy_from_slice(&number.to_le_bytes());
}

/// Returns the byte at which the value of the route with this index begins. `ipv4` is the number of IPv4 routes.
fn value_at(ipv4: usize, index: usize) -> usize
    requires { value_place ipv4 index < 2 ^ 63 }
    ensures { result ≡ value_place ipv4 index }
{
    if index < ipv4 {
        return 40 + index * 16;
    }
    52 + ipv4 * 16 + (index - ipv4) * 32
}

/// Writes the values over the values of the routes, in their order. `ipv4` is the number of IPv4 routes.
pub(super) fn write_values(bytes: &mut [u8], ipv4: usize, values: &[u32])
    requires { (i : ℕ) → i < length values.now → value_place ipv4 i + 4 ≤ length bytes.old }
    ensures { AreValuesWritten ipv4 (length values.now) values.now bytes.old bytes.new }
{
    for index in 0..values.len() {
        let at = value_at(ipv4, index);
        write_number(bytes, at, values[index]);
    }
}
