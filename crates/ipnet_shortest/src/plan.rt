//! The networks of a part of a list, for each number of networks.
ghost use Rattle.std.specs.Prelude.{◌≡◌, ◌<◌, ◌++◌, map, OnOk};
ghost use Rattle.ipnet.specs.NetworkOf.{ip_network};
ghost use Rattle.ipnet_shortest.specs.Plans.{size_of, networks_of, IsSound};

use ipnet::IpNet;
use std::alloc::AllocError;

/// At index i the networks that cover a part: at most i more than the fewest.
#[derive(Drop)]
pub(crate) enum Plan {
    /// The network, for index 0.
    One(IpNet),
    /// The network for index 0, and the plan for the indexes after it.
    OneOr(IpNet, Box<Plan>),
    /// The networks of both plans. The first plan gets the share of the index, and the second gets the rest.
    Both(Vec<usize>, Box<Plan>, Box<Plan>),
}

/// Adds the networks for the index.
pub(crate) fn push_networks(
    networks: &mut Vec<IpNet>,
    plan: &Plan,
    index: usize,
) -> Result<(), AllocError>
    requires sound { IsSound plan.now }
    requires inside { index < size_of plan.now }
    ensures { OnOk result (map ip_network networks.new.items
        ≡ map ip_network networks.old.items ++ networks_of plan.now index) }
{
    match plan {
        Plan::One(network) => {
            networks.push(*network)?;
            Ok(())
        }
        Plan::OneOr(network, rest) => {
            if index == 0 {
                networks.push(*network)?;
                return Ok(());
            }
            push_networks(networks, rest, index - 1)
        }
        Plan::Both(shares, first, second) => {
            let share = shares[index];
            push_networks(networks, first, share)?;
            push_networks(networks, second, index - share)
        }
    }
}
