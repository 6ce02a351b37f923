//! How many bits a map shows.
ghost use Rattle.std.specs.Prelude.{◌≡◌, ◌+◌, ◌%◌, ◌≤◌, ℕ};
ghost use Rattle.ipnet_base.specs.Address.{width};
ghost use Rattle.ipnet.specs.NetworkOf.{ip_network};

use ipnet::IpNet;

/// The greatest number that is at most 20 and at most `host_bits`, and even or odd as `host_bits` is.
fn depth_below(host_bits: u8) -> u8
    ensures few { result ≤ 20 }
    ensures fits { result ≤ host_bits }
    ensures parity { result % 2 ≡ host_bits % 2 }
    ensures greatest { (depth : ℕ) → depth ≤ 20 → depth ≤ host_bits → depth % 2 ≡ host_bits % 2 → depth ≤ result }
{
    if host_bits <= 20 {
        return host_bits;
    }
    20 - host_bits % 2
}

/// Returns the greatest depth of a map of the frame: the number of bits by which its cells are longer than the frame.
/// It is at most 20, and even or odd as the length of the frame is. So the map is a square, or twice as wide as high.
///
/// ```text
/// of 10.20.0.0/16: 16; of 10.0.0.0/8: 20; of 10.0.0.0/9: 19; of 2001:db8::/32: 20; of 10.20.4.1/32: 0
/// ```
pub fn greatest_depth_of(frame: &IpNet) -> u8
    ensures few { result ≤ 20 }
    ensures fits { (ip_network frame.now).prefix_len + result ≤ width (ip_network frame.now).family }
    ensures parity { result % 2 ≡ (ip_network frame.now).prefix_len % 2 }
    ensures greatest { (depth : ℕ) → depth ≤ 20
        → (ip_network frame.now).prefix_len + depth ≤ width (ip_network frame.now).family
        → depth % 2 ≡ (ip_network frame.now).prefix_len % 2 → depth ≤ result }
{
    match frame {
        IpNet::V4(net) => depth_below(32 - net.prefix_len()),
        IpNet::V6(net) => depth_below(128 - net.prefix_len()),
    }
}
