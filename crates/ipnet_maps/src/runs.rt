//! The runs of a map's cells: if empty cells divide a set into many parts, a map of its cells has many rectangles.
ghost use Rattle.std.specs.Prelude.{◌≡◌, ◌+◌, ◌<◌, ◌/◌, ◌^◌, IsTrue, IfSome, IfNone};
ghost use Rattle.ipnet_base.specs.Address.{ip_address};
ghost use Rattle.ipnet.specs.NetworkOf.{ip_network};
ghost use Rattle.ipnet_sets.specs.Members.{IsMember};
ghost use Rattle.ipnet_maps.specs.Runs.{IsCellBetween, HasManyRuns};

use crate::layers::MOST_RECTANGLES;
use crate::places::number_of;
use ipnet::IpNet;
use ipnet_sets::IpSet;

/// Whether two numbers without their last bits have a number between them.
fn are_apart(first: u128, second: u128, bits: u8) -> bool
    ensures { IsTrue result → first / 2 ^ bits + 1 < second / 2 ^ bits }
{
    if bits >= 128 {
        return false;
    }
    let before = first >> bits;
    let after = second >> bits;
    before < after && after - before > 1
}

/// Whether a whole cell lies between the networks. False if they have two families.
fn has_cell_between(first: &IpNet, second: &IpNet, cell_len: u8) -> bool
    ensures { IsTrue result → IsCellBetween cell_len (ip_network first.now) (ip_network second.now) }
{
    let width = first.max_prefix_len();
    if second.max_prefix_len() != width {
        return false;
    }
    let bits = width.saturating_sub(cell_len);
    are_apart(
        number_of(first.broadcast()),
        number_of(second.network()),
        bits,
    )
}

/// Whether a run begins with the network, after the last one.
fn begins_run(last: Option<IpNet>, network: &IpNet, cell_len: u8) -> bool
    ensures { IsTrue result → IfSome last (λ l. IsCellBetween cell_len (ip_network l) (ip_network network.now)) }
{
    match last {
        Some(last) => has_cell_between(&last, network, cell_len),
        None => true,
    }
}

/// Whether empty cells divide the set into more than 65,536 parts. If it is true, a map of these cells has more than
/// 65,536 rectangles; if it is false, it may have more too.
pub(crate) fn has_many_runs(set: &IpSet, cell_len: u8) -> bool
    ensures { IsTrue result → HasManyRuns (IsMember set.now) cell_len }
{
    let mut runs = 0;
    let mut last: Option<IpNet> = None;
    for network in set.iter_networks() {
        if begins_run(last, &network, cell_len) {
            if runs == MOST_RECTANGLES {
                return true;
            }
            runs += 1;
        }
        last = Some(network);
    }
    false
}
