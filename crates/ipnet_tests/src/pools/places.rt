//! The networks of the model's nodes at both ends of the addresses of both families, and pools compared with the model.
use super::model::{Model, NODES, Refusal, cells, is_one_of, level, start};
use ipnet::{IpAddr, IpNet, Ipv4Addr, Ipv6Addr, PrefixLenError};
use ipnet_pools::{IpPool, PoolError};
use ipnet_sets::IpSet;
use std::alloc::{AllocError, Global};
use std::test::Fail;

/// The place of the sixteen cells: the first or the last addresses of a family.
#[derive(Clone, Copy, Debug, PartialEq, Eq)]
pub(crate) enum Place {
    FirstIpv4,
    LastIpv4,
    FirstIpv6,
    LastIpv6,
}

pub(crate) const PLACES: [Place; 4] = [
    Place::FirstIpv4,
    Place::LastIpv4,
    Place::FirstIpv6,
    Place::LastIpv6,
];

impl Place {
    pub(crate) fn is_ipv4(self) -> bool {
        match self {
            Place::FirstIpv4 | Place::LastIpv4 => true,
            Place::FirstIpv6 | Place::LastIpv6 => false,
        }
    }

    /// Returns the address of the cell.
    pub(crate) fn address(self, cell: u32) -> IpAddr {
        match self {
            Place::FirstIpv4 => IpAddr::V4(Ipv4Addr::from_bits(cell)),
            Place::LastIpv4 => IpAddr::V4(Ipv4Addr::from_bits(0xffff_fff0 | cell)),
            Place::FirstIpv6 => IpAddr::V6(Ipv6Addr::from_bits(u128::from(cell))),
            Place::LastIpv6 => {
                let first = !0xfu128;
                IpAddr::V6(Ipv6Addr::from_bits(first | u128::from(cell)))
            }
        }
    }

    /// Returns the prefix length of the nodes of the level.
    pub(crate) fn prefix_len(self, level: u8) -> u8 {
        if self.is_ipv4() {
            level.saturating_add(28)
        } else {
            level.saturating_add(124)
        }
    }

    /// Returns the network of the node.
    pub(crate) fn network(self, node: usize) -> Result<IpNet, PrefixLenError> {
        IpNet::new(self.address(start(node)), self.prefix_len(level(node)))
    }

    /// Returns the set of these cells.
    pub(crate) fn set(self, alloc: Global, wanted: u32) -> Result<IpSet, Fail> {
        let mut networks = Vec::new(alloc);
        for node in 0..NODES {
            if cells(node) & !wanted == 0 {
                networks.push(self.network(node)?)?;
            }
        }
        Ok(IpSet::from_networks(alloc, &networks)?)
    }

    /// Whether the lease is one of these nodes.
    fn is_one_of(self, lease: &IpNet, nodes: u32) -> bool {
        for node in 0..NODES {
            if is_one_of(nodes, node) && self.network(node) == Ok(*lease) {
                return true;
            }
        }
        false
    }

    /// Whether the error is the model's refusal.
    pub(crate) fn is_refusal(self, error: &PoolError, refusal: Refusal) -> bool {
        match (error, refusal) {
            (PoolError::Exhausted, Refusal::Exhausted) => true,
            (PoolError::NotLeased, Refusal::NotLeased) => true,
            (PoolError::NotInPool, Refusal::NotInPool) => true,
            (PoolError::NotFree(lease), Refusal::NotFree(nodes)) => self.is_one_of(lease, nodes),
            _ => false,
        }
    }

    /// Returns the pool of the model.
    pub(crate) fn pool(self, alloc: Global, model: Model) -> Result<IpPool<usize>, Fail> {
        let set = self.set(alloc, model.pool)?;
        let mut pool = IpPool::new(alloc, &set)?;
        for node in 0..NODES {
            if model.has(node) {
                let network = self.network(node)?;
                let _ = pool.take(&network, node);
            }
        }
        Ok(pool)
    }

    /// Whether the networks are the model's free blocks.
    fn are_blocks(self, networks: &[IpNet], model: Model) -> Result<bool, Fail> {
        let blocks = model.blocks();
        for node in 0..NODES {
            if is_one_of(blocks, node) {
                let network = self.network(node)?;
                if !networks.contains(&network) {
                    return Ok(false);
                }
            }
        }
        Ok(networks.len() == blocks.count_ones() as usize)
    }

    /// Whether the pool has as many addresses, free ones and leased ones as the model.
    fn has_counts(
        self,
        alloc: Global,
        pool: &IpPool<usize>,
        model: Model,
    ) -> Result<bool, AllocError> {
        let whole = model.pool.count_ones();
        let free = model.free().count_ones();
        let leased = model.leased().count_ones();
        if self.is_ipv4() {
            return Ok(
                pool.ipv4_count() == u64::from(whole)
                    && pool.ipv4_free_count(alloc)? == u64::from(free)
                    && pool.ipv4_leased_count(alloc)? == u64::from(leased)
                    && pool.ipv6_count() == Some(0),
            );
        }
        Ok(
            pool.ipv6_count() == Some(u128::from(whole))
                && pool.ipv6_free_count(alloc)? == Some(u128::from(free))
                && pool.ipv6_leased_count(alloc)? == Some(u128::from(leased))
                && pool.ipv4_count() == 0,
        )
    }

    /// Whether the pool has the leases of the model, and the same free addresses.
    pub(crate) fn is_same(
        self,
        alloc: Global,
        pool: &IpPool<usize>,
        model: Model,
    ) -> Result<bool, Fail> {
        let free = model.free();
        for node in 0..NODES {
            let network = self.network(node)?;
            if pool.get(&network).copied() != model.has(node).then_some(node) {
                return Ok(false);
            }
            if pool.is_free(&network) != (cells(node) & !free == 0) {
                return Ok(false);
            }
        }
        for cell in 0..16 {
            let lease = pool.lease_of(self.address(cell)).map(|lease| *lease.1);
            if lease != model.lease_of(cell) {
                return Ok(false);
            }
        }
        let networks = pool.free_networks(alloc)?;
        Ok(
            pool.lease_count() == model.leases.count_ones() as usize
                && self.are_blocks(&networks, model)?
                && self.has_counts(alloc, pool, model)?,
        )
    }
}
