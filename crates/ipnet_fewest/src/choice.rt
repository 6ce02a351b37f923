//! Choices that are left open until the value of a block is known, and the routes that follow from them.
ghost use Rattle.std.specs.Prelude.{◌≡◌, ◌++◌, OnOk};
ghost use Rattle.ipnet_routes.specs.Routes.{ip_routes};
ghost use Rattle.ipnet_fewest.specs.Plans.{Plan, choices_of, routes_for, IsSized, HasPlan};

use crate::halves::sibling;
use crate::values::Values;
use ipnet::IpNet;
use std::alloc::AllocError;

/// A block whose halves have no best value in common, so that one of them needs a route. If the value of the block is
/// best for the first half, the second half gets the route. Else the first half gets it.
#[derive(Drop)]
pub(crate) struct Choice {
    /// The first half. The second half is its sibling.
    pub(crate) first: IpNet,
    /// The best values of the first half.
    pub(crate) first_values: Values,
    /// One of the best values of the second half.
    pub(crate) second_value: usize,
    /// How many choices are in the first half, and in the second half. They are before this choice, in this order.
    pub(crate) first_size: usize,
    pub(crate) second_size: usize,
}

/// Adds the routes in the block of these choices, if the block has this value. The last routes come first.
pub(crate) fn push_routes(
    routes: &mut Vec<(IpNet, usize)>,
    choices: &[Choice],
    value: usize,
) -> Result<(), AllocError>
    requires { HasPlan choices.now }
    ensures { OnOk result ((plan : Plan) → IsSized plan → choices_of plan ≡ choices.now
        → ip_routes routes.new.items ≡ ip_routes routes.old.items ++ routes_for plan value) }
{
    let mut left = choices;
    while let Some((choice, earlier)) = left.split_last() {
        let (rest, second) = earlier.split_at(earlier.len() - choice.second_size);
        let (rest, first) = rest.split_at(rest.len() - choice.first_size);
        if choice.first_values.as_slice().contains(&value) {
            push_routes(routes, second, choice.second_value)?;
            routes.push((sibling(&choice.first), choice.second_value))?;
            push_routes(routes, first, value)?;
        } else {
            let first_value = choice.first_values.as_slice()[0];
            push_routes(routes, second, value)?;
            push_routes(routes, first, first_value)?;
            routes.push((choice.first, first_value))?;
        }
        left = rest;
    }
    Ok(())
}
