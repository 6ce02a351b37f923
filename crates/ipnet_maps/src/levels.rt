//! The cells of a map of one set, by the share of their addresses that are in the set.
ghost use Rattle.std.specs.Prelude.{◌≡◌, ◌≢◌, ◌⊎◌, ◌↔◌, ◌+◌, ◌<◌, ◌≤◌, min, IfOk, OnOk, IfSome, IfNone};
ghost use Rattle.ipnet_base.specs.Address.{Address};
ghost use Rattle.ipnet_base.specs.Network.{InBlock, IsSubnetOf};
ghost use Rattle.ipnet.specs.NetworkOf.{ip_network};
ghost use Rattle.ipnet_sets.specs.Members.{IsMember};
ghost use Rattle.ipnet_bars.specs.Parts.{block_size};
ghost use Rattle.ipnet_maps.specs.Levels.{IsShare, IsLevelOf};
ghost use Rattle.ipnet_maps.specs.declared.level.Level.{Level};
ghost use Rattle.ipnet_maps.specs.declared.level.Level.TheVariants.{Nothing, Sparse, BelowQuarter};
ghost use Rattle.ipnet_maps.specs.declared.level.Level.TheVariants.{FromQuarter, Whole};
ghost use Rattle.ipnet_maps.specs.Cells.{IsInCell, widened};
ghost use Rattle.ipnet_maps.specs.LevelSteps.{IsPushedAs, IsPushedTo, IsClosed, IsJoined, IsOpenFor};

use crate::cells::widened_to;
use crate::level::{Level, level_of};
use ipnet::IpNet;
use ipnet_bars::last_place;
use ipnet_sets::{IpSet, IpSetBuilder};
use std::alloc::{AllocError, Global};

/// The cells of a map that have an address of a set, by the share of their addresses that are in the set. No two of
/// these sets share an address.
///
/// ```text
/// of 10.0.0.0-10.0.1.9 with cells of length 24: `whole` is 10.0.0.0/24, `some` is 10.0.1.0/24
/// ```
#[derive(Drop)]
pub struct LevelCells {
    /// Some of the addresses, and less than one of 256.
    pub some: IpSet,
    /// At least one of 256, and less than a quarter.
    pub below_quarter: IpSet,
    /// At least a quarter, and not all.
    pub from_quarter: IpSet,
    /// All addresses.
    pub whole: IpSet,
}

/// The cells whose levels are known.
#[derive(Drop)]
struct KnownCells {
    some: IpSetBuilder,
    below_quarter: IpSetBuilder,
    from_quarter: IpSetBuilder,
    whole: IpSetBuilder,
}

impl KnownCells {
    /// Returns no cells.
    fn new(alloc: Global) -> KnownCells
        ensures { (level : Level) (x : Address) → ¬ (IsPushedAs result level x) }
    {
        KnownCells {
            some: IpSetBuilder::new(alloc),
            below_quarter: IpSetBuilder::new(alloc),
            from_quarter: IpSetBuilder::new(alloc),
            whole: IpSetBuilder::new(alloc),
        }
    }

    /// Adds the addresses of the network to the cells of the level.
    fn push(&mut self, level: Level, network: &IpNet) -> Result<(), AllocError>
        requires { level ≢ Nothing }
        ensures { OnOk result (IsPushedTo self.old self.new level (ip_network network.now)) }
    {
        match level {
            Level::Nothing => Ok(()),
            Level::Sparse => self.some.push_network(network),
            Level::BelowQuarter => self.below_quarter.push_network(network),
            Level::FromQuarter => self.from_quarter.push_network(network),
            Level::Whole => self.whole.push_network(network),
        }
    }

    /// Adds the open cell, if there is one, to the cells of its level.
    fn close(&mut self, current: Option<OpenCell>) -> Result<(), AllocError>
        requires { IfSome current (λ c. c.more + 1 ≤ block_size (ip_network c.network)) }
        ensures { OnOk result (IsClosed self.old self.new current) }
    {
        match current {
            Some(cell) => self.push(cell.level(), &cell.network),
            None => Ok(()),
        }
    }

    /// Returns the sets of the cells.
    fn into_cells(self, alloc: Global) -> Result<LevelCells, AllocError>
        ensures some { IfOk result (λ cells. (x : Address) → IsMember cells.some x ↔ IsPushedAs self Sparse x) }
        ensures below_quarter { IfOk result (λ cells. (x : Address)
            → IsMember cells.below_quarter x ↔ IsPushedAs self BelowQuarter x) }
        ensures from_quarter { IfOk result (λ cells. (x : Address)
            → IsMember cells.from_quarter x ↔ IsPushedAs self FromQuarter x) }
        ensures whole { IfOk result (λ cells. (x : Address) → IsMember cells.whole x ↔ IsPushedAs self Whole x) }
    {
        let KnownCells {
            some,
            below_quarter,
            from_quarter,
            whole,
        } = self;
        let some = some.into_set(alloc)?;
        let below_quarter = below_quarter.into_set(alloc)?;
        let from_quarter = from_quarter.into_set(alloc)?;
        let whole = whole.into_set(alloc)?;
        Ok(LevelCells {
            some,
            below_quarter,
            from_quarter,
            whole,
        })
    }
}

/// The cell of the last network, which is smaller than the cell, and how many addresses of the set it has so far.
#[derive(Clone, Copy)]
struct OpenCell {
    /// The cell, with the host bits of its first network.
    network: IpNet,
    /// The number of addresses, less one: all addresses of IPv6 are more than a word holds.
    more: u128,
}

impl OpenCell {
    /// Returns the level of the cell, if the addresses so far are all.
    fn level(&self) -> Level
        requires { self.now.more + 1 ≤ block_size (ip_network self.now.network) }
        ensures { IsShare result (self.now.more + 1) (block_size (ip_network self.now.network)) }
    {
        let last = last_place(&self.network);
        if self.more == last {
            return Level::Whole;
        }
        level_of(self.more + 1, last)
    }
}

/// Returns the cell of the network, which is smaller than a cell, with the addresses of the network.
fn opened(network: &IpNet, cell_len: u8) -> OpenCell
    ensures cell { ip_network result.network ≡ widened (ip_network network.now) cell_len }
    ensures count { result.more + 1 ≡ block_size (ip_network network.now) }
{
    OpenCell {
        network: widened_to(network, cell_len),
        more: last_place(network),
    }
}

/// Returns the open cell with the addresses of the network, if the network is in it.
fn joined(current: Option<OpenCell>, network: &IpNet) -> Option<OpenCell>
    requires { IfSome current (λ c. IsSubnetOf (ip_network network.now) (ip_network c.network)
        → c.more + 1 + block_size (ip_network network.now) ≤ block_size (ip_network c.network)) }
    ensures joined { IfSome result (λ c. IsJoined current (ip_network network.now) c) }
    ensures other { IfNone result (¬ (IsOpenFor current (ip_network network.now))) }
{
    let mut cell = current?;
    if !cell.network.contains(network) {
        return None;
    }
    cell.more = cell.more + last_place(network) + 1;
    Some(cell)
}

/// Returns the cells that have an address of the set, by the share of their addresses that are in the set. A cell is a
/// network with the prefix length `cell_len`. Fails only if memory runs out.
///
/// A part is never shown as nothing, nor as all.
///
/// ```text
/// of 10.0.0.0-10.0.1.9 with cells of length 24: `whole` is 10.0.0.0/24, `some` is 10.0.1.0/24
/// ```
pub fn level_cells(alloc: Global, set: &IpSet, cell_len: u8) -> Result<LevelCells, AllocError>
    ensures some { IfOk result (λ cells. (x : Address) → IsMember cells.some x
        ↔ IsInCell cell_len (λ n. IsLevelOf (IsMember set.now) n Sparse) x) }
    ensures below_quarter { IfOk result (λ cells. (x : Address) → IsMember cells.below_quarter x
        ↔ IsInCell cell_len (λ n. IsLevelOf (IsMember set.now) n BelowQuarter) x) }
    ensures from_quarter { IfOk result (λ cells. (x : Address) → IsMember cells.from_quarter x
        ↔ IsInCell cell_len (λ n. IsLevelOf (IsMember set.now) n FromQuarter) x) }
    ensures whole { IfOk result (λ cells. (x : Address) → IsMember cells.whole x
        ↔ IsInCell cell_len (λ n. IsLevelOf (IsMember set.now) n Whole) x) }
{
    let mut known = KnownCells::new(alloc);
    let mut current: Option<OpenCell> = None;
    for network in set.iter_networks() {
        if network.prefix_len() <= cell_len {
            known.push(Level::Whole, &network)?;
            continue;
        }
        if let Some(cell) = joined(current, &network) {
            current = Some(cell);
            continue;
        }
        known.close(current)?;
        current = Some(opened(&network, cell_len));
    }
    known.close(current)?;
    known.into_cells(alloc)
}
