//! The commands `split` and `hosts` of the program, over any writers.
ghost use Rattle.std.specs.Prelude.{◌≡◌, ◌≤◌, ◌⊎◌};
ghost use Rattle.std.specs.Io.KnownBytes.{Keeps};
ghost use Rattle.ipnet.specs.NetworkOf.{ip_network};
ghost use Rattle.netset_lib.specs.Listings.{IsSplitText, HasNoSplit, IsHostsText};
ghost use Rattle.ipnet_text.specs.Outputs.{IsWritten, IsFrontWritten};

use crate::listing::{write_addresses, write_networks};
use ipnet::IpNet;
use std::io::Write;

/// Writes the subnets of the network that have this prefix length to `out`, one a line, ascending, and returns the exit
/// status. Host bits of the network do not matter. It allocates nothing, whatever the number of the subnets.
///
/// | Status | On `faults` | When |
/// |---|---|---|
/// | 2 | `netset: /7: no subnet of 10.0.0.0/8 has this prefix length` | it is below the network's, or above 32 or 128 |
/// | 2 | `netset: output cannot be written` | a write fails, or the flush after it; the list may be out in part |
/// | 0 | nothing | otherwise |
///
/// ```text
/// 10.0.0.9/24 and 25: status 0, and out gets "10.0.0.0/25\n10.0.0.128/25\n"
/// 10.0.0.0/24 and 23: status 2, and out gets nothing
/// ```
pub fn run_split<W: Write, X: Write>(
    network: &IpNet,
    prefix_len: u8,
    out: &mut W,
    faults: &mut X,
) -> u8
    ensures status { (result ≡ 0) ⊎ (result ≡ 2) }
    ensures answered { result ≡ 0
        → IsWritten (IsSplitText (ip_network network.now) prefix_len) (W.contents out.old) (W.contents out.new) }
    ensures refused { HasNoSplit (ip_network network.now) prefix_len → (result ≡ 2)
        × Keeps (W.contents out.old) (W.contents out.new) }
    ensures cut_short { result ≡ 2 → Keeps (W.contents out.old) (W.contents out.new)
        ⊎ IsFrontWritten (IsSplitText (ip_network network.now) prefix_len)
        (W.contents out.old) (W.contents out.new) }
    ensures faultless { result ≡ 0 → Keeps (X.contents faults.old) (X.contents faults.new) }
{
    let Ok(subnets) = network.subnets(prefix_len) else {
        let _ = writeln!(
            faults,
            "netset: /{prefix_len}: no subnet of {network} has this prefix length"
        );
        return 2;
    };
    if write_networks(out, subnets).is_err() {
        let _ = writeln!(faults, "netset: output cannot be written");
        return 2;
    }
    0
}

/// Writes the hosts of the network to `out`, one a line, ascending, and returns the exit status. They are the addresses
/// of its block; of an IPv4 network that is larger than /31, without the first and the last. It allocates nothing,
/// whatever the number of the hosts.
///
/// | Status | On `faults` | When |
/// |---|---|---|
/// | 2 | `netset: output cannot be written` | a write fails, or the flush after it; the list may be out in part |
/// | 0 | nothing | otherwise |
///
/// ```text
/// 10.0.0.9/30: status 0, and out gets "10.0.0.9\n10.0.0.10\n"
/// fd00::/127:  status 0, and out gets "fd00::\nfd00::1\n"
/// ```
pub fn run_hosts<W: Write, X: Write>(network: &IpNet, out: &mut W, faults: &mut X) -> u8
    ensures status { (result ≡ 0) ⊎ (result ≡ 2) }
    ensures answered { result ≡ 0
        → IsWritten (IsHostsText (ip_network network.now)) (W.contents out.old) (W.contents out.new) }
    ensures cut_short { result ≡ 2
        → IsFrontWritten (IsHostsText (ip_network network.now)) (W.contents out.old) (W.contents out.new) }
    ensures faultless { result ≡ 0 → Keeps (X.contents faults.old) (X.contents faults.new) }
{
    if write_addresses(out, network.hosts()).is_err() {
        let _ = writeln!(faults, "netset: output cannot be written");
        return 2;
    }
    0
}
