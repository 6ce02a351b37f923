//! A plain model of a pool of sixteen cells: the networks in it are the 31 nodes of a binary tree, and the pool and its
//! leases are bits of two numbers.

/// The number of nodes: one of all cells, and the halves of each node down to single cells.
pub(crate) const NODES: usize = 31;

/// The level of each node: 0 for all cells, 4 for one cell.
const LEVEL: [u8; 31] = [
    0, 1, 1, 2, 2, 2, 2, 3, 3, 3, 3, 3, 3, 3, 3, 4, 4, 4, 4, 4, 4, 4, 4, 4, 4, 4, 4, 4, 4, 4, 4,
];

/// The cells of each node, as bits.
const CELLS: [u32; 31] = [
    0xffff, 0xff, 0xff00, 0xf, 0xf0, 0xf00, 0xf000, 0x3, 0xc, 0x30, 0xc0, 0x300, 0xc00, 0x3000,
    0xc000, 0x1, 0x2, 0x4, 0x8, 0x10, 0x20, 0x40, 0x80, 0x100, 0x200, 0x400, 0x800, 0x1000, 0x2000,
    0x4000, 0x8000,
];

/// The first cell of each node.
const START: [u32; 31] = [
    0, 0, 8, 0, 4, 8, 12, 0, 2, 4, 6, 8, 10, 12, 14, 0, 1, 2, 3, 4, 5, 6, 7, 8, 9, 10, 11, 12, 13,
    14, 15,
];

/// The node that each node is a half of; the first node is its own.
const PARENT: [usize; 31] = [
    0, 0, 0, 1, 1, 2, 2, 3, 3, 4, 4, 5, 5, 6, 6, 7, 7, 8, 8, 9, 9, 10, 10, 11, 11, 12, 12, 13, 13,
    14, 14,
];

/// Returns the level of the node.
pub(crate) fn level(node: usize) -> u8 {
    LEVEL[node % NODES]
}

/// Returns the cells of the node.
pub(crate) fn cells(node: usize) -> u32 {
    CELLS[node % NODES]
}

/// Returns the first cell of the node.
pub(crate) fn start(node: usize) -> u32 {
    START[node % NODES]
}

/// The bit of each node.
const BIT: [u32; 31] = [
    0x1, 0x2, 0x4, 0x8, 0x10, 0x20, 0x40, 0x80, 0x100, 0x200, 0x400, 0x800, 0x1000, 0x2000, 0x4000,
    0x8000, 0x10000, 0x20000, 0x40000, 0x80000, 0x100000, 0x200000, 0x400000, 0x800000, 0x1000000,
    0x2000000, 0x4000000, 0x8000000, 0x10000000, 0x20000000, 0x40000000,
];

/// Returns the bit of the node.
fn bit(node: usize) -> u32 {
    BIT[node % NODES]
}

/// Why a call fails. `NotFree` has the nodes of the leases that are in the way.
#[derive(Clone, Copy, Debug, PartialEq, Eq)]
pub(crate) enum Refusal {
    Exhausted,
    NotFree(u32),
    NotLeased,
    NotInPool,
}

/// A pool. A node's lease has the node's number as its value.
#[derive(Clone, Copy, Debug, PartialEq, Eq)]
pub(crate) struct Model {
    pub(crate) pool: u32,
    pub(crate) leases: u32,
}

impl Model {
    /// Whether the node is leased.
    pub(crate) fn has(&self, node: usize) -> bool {
        self.leases & bit(node) != 0
    }

    /// Returns the leased cells.
    pub(crate) fn leased(&self) -> u32 {
        let mut leased = 0;
        for node in 0..NODES {
            if self.has(node) {
                leased |= cells(node);
            }
        }
        leased
    }

    /// Returns the free cells.
    pub(crate) fn free(&self) -> u32 {
        self.pool & !self.leased()
    }

    /// Returns the nodes of the leases that have one of these cells.
    fn touching(&self, wanted: u32) -> u32 {
        let mut found = 0;
        for node in 0..NODES {
            if self.has(node) && cells(node) & wanted != 0 {
                found |= bit(node);
            }
        }
        found
    }

    /// Returns the node of the lease that has the cell.
    pub(crate) fn lease_of(&self, cell: u32) -> Option<usize> {
        for node in 0..NODES {
            if self.has(node) && cells(node) & bit(cell as usize) != 0 {
                return Some(node);
            }
        }
        None
    }

    /// Leases the node.
    pub(crate) fn take(&mut self, node: usize) -> Result<(), Refusal> {
        let wanted = cells(node);
        if wanted & !self.pool != 0 {
            return Err(Refusal::NotInPool);
        }
        let found = self.touching(wanted);
        if found != 0 {
            return Err(Refusal::NotFree(found));
        }
        self.leases |= bit(node);
        Ok(())
    }

    /// Ends the lease of the node.
    pub(crate) fn release(&mut self, node: usize) -> Result<(), Refusal> {
        if !self.has(node) {
            return Err(Refusal::NotLeased);
        }
        self.leases &= !bit(node);
        Ok(())
    }

    /// Returns the fewest nodes that have all free cells.
    pub(crate) fn blocks(&self) -> u32 {
        let free = self.free();
        let mut blocks = 0;
        for node in 0..NODES {
            if cells(node) & !free == 0 && (node == 0 || cells(PARENT[node % NODES]) & !free != 0) {
                blocks |= bit(node);
            }
        }
        blocks
    }

    /// Returns the first node of the level in the smallest free node that is large enough, the lowest one of these.
    pub(crate) fn best(&self, wanted: u8) -> Option<usize> {
        let blocks = self.blocks();
        for up in 0..=wanted {
            for node in 0..NODES {
                if level(node) == wanted.saturating_sub(up) && is_one_of(blocks, node) {
                    return first_in(node, wanted);
                }
            }
        }
        None
    }

    /// Removes the cells from the pool.
    pub(crate) fn shrink(&mut self, gone: u32) -> Result<(), Refusal> {
        let found = self.touching(gone);
        if found != 0 {
            return Err(Refusal::NotFree(found));
        }
        self.pool &= !gone;
        Ok(())
    }
}

/// Whether the nodes, as bits, have this one.
pub(crate) fn is_one_of(nodes: u32, node: usize) -> bool {
    nodes & bit(node) != 0
}

/// Returns the first node of the level that is part of the node.
fn first_in(node: usize, wanted: u8) -> Option<usize> {
    for part in 0..NODES {
        if level(part) == wanted && cells(part) & !cells(node) == 0 {
            return Some(part);
        }
    }
    None
}

/// The number of sets of leases in a node, by the level of the node: 2 for one cell, and otherwise one more than the
/// square of the number for a half.
const SETS: [u32; 5] = [458330, 677, 26, 5, 2];

/// Returns the set of leases with this number in the left half of all cells, which is node 1: there are 677 of them.
pub(crate) fn leases_in_half(number: u32) -> u32 {
    let mut left = [0u32; 31];
    left[1] = number;
    let mut leases = 0;
    for node in 1..NODES {
        let sets = SETS[(level(node) as usize) % 5];
        let below = SETS[(level(node) as usize).saturating_add(1) % 5];
        let number = left[node];
        if cells(node) & !cells(1) != 0 {
            continue;
        }
        if number.saturating_add(1) == sets {
            leases |= bit(node);
        } else if level(node) < 4 {
            let first = node.saturating_mul(2).saturating_add(1);
            if first.saturating_add(1) < NODES && below > 0 {
                left[first] = number / below;
                left[first.saturating_add(1)] = number % below;
            }
        }
    }
    leases
}
