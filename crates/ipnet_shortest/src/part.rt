//! The costs and the networks of a part of a list, and how they are found, half by half.
ghost use Rattle.std.specs.Prelude.{◌≡◌, ◌+◌, ◌<◌, ◌≤◌, ◌^◌, ◌++◌, [], ◌∷◌, map, List, length, All};
ghost use Rattle.std.specs.Prelude.{IfOk, IfSome, IfNone};
ghost use Rattle.ipnet_base.specs.Address.{Address};
ghost use Rattle.ipnet_base.specs.Network.{Network, InBlock, IsSubnetOf, IsTruncated, host_bits};
ghost use Rattle.ipnet.specs.NetworkOf.{ip_network};
ghost use Rattle.ipnet_sets.specs.Members.{IsMember};
ghost use Rattle.ipnet_shortest.specs.Halves.{AreBlocksIn};

use crate::halves::{half_with, last_place, leading_in};
use crate::plan::Plan;
use crate::shares::{best_shares, push_costs};
use ipnet::IpNet;
use ipnet_sets::IpSet;
use std::alloc::{AllocError, Global};

/// The blocks of a list that are in one network: how many networks cover them, and how many addresses these add.
#[derive(Drop)]
pub(crate) struct Part {
    /// A network that contains the blocks.
    pub(crate) around: IpNet,
    /// The number of addresses of this network that the blocks lack.
    pub(crate) lacking: u128,
    /// The fewest networks that cover the blocks and only allowed addresses.
    pub(crate) fewest: usize,
    /// At index i the fewest addresses that are added by at most i networks more than the fewest.
    pub(crate) costs: Vec<u128>,
    /// The networks that add so few.
    pub(crate) plan: Plan,
}

/// The addresses that a list of networks may cover, and the greatest number of its networks.
#[derive(Drop)]
pub(crate) struct Terms {
    pub(crate) allowed: IpSet,
    pub(crate) limit: usize,
}

/// Returns the number of addresses that `around` has and the blocks of both parts lack.
fn lacking_in(around: &IpNet, first: &Part, second: &Part) -> u128
    requires sizes { 2 ^ host_bits (ip_network first.now.around) + 2 ^ host_bits (ip_network second.now.around)
        ≤ 2 ^ host_bits (ip_network around.now) }
    requires first { first.now.lacking < 2 ^ host_bits (ip_network first.now.around) }
    requires second { second.now.lacking < 2 ^ host_bits (ip_network second.now.around) }
    ensures { result + 2 ^ host_bits (ip_network first.now.around) + 2 ^ host_bits (ip_network second.now.around)
        ≡ 2 ^ host_bits (ip_network around.now) + first.now.lacking + second.now.lacking }
{
    last_place(around) - last_place(&first.around) - last_place(&second.around) - 1
        + first.lacking
        + second.lacking
}

impl Terms {
    ghost use Rattle.ipnet_shortest.specs.Plans.{AreHalvesOf, IsOrderly};
    ghost use Rattle.ipnet_shortest.specs.Parts.{IsPartOf, HasNoCover, IsLimit, CanBeJoined, AreJoined, IsCostCount};

    /// Returns the part of one block, or `None` if it may not be covered.
    fn single(&self, alloc: Global, block: &IpNet) -> Result<Option<Part>, AllocError>
        requires { IsLimit self.now.limit }
        ensures some { IfOk result (λ o. IfSome o (λ p. IsPartOf (ip_network block.now ∷ []) self.now p)) }
        ensures within { IfOk result (λ o. IfSome o (λ p.
            IsSubnetOf (ip_network p.around) (ip_network block.now))) }
        ensures none { IfOk result (λ o. IfNone o (HasNoCover (ip_network block.now ∷ []) self.now)) }
        ensures order { IsTruncated (ip_network block.now)
            → IfOk result (λ o. IfSome o (λ p. IsOrderly p.plan (ip_network block.now))) }
    {
        if !self.allowed.covers(block) {
            return Ok(None);
        }
        let mut costs = Vec::with_capacity(alloc, 1)?;
        costs.push(0)?;
        Ok(Some(Part {
            around: *block,
            lacking: 0,
            fewest: 1,
            costs,
            plan: Plan::One(*block),
        }))
    }

    /// Returns how many costs both parts together have.
    fn cost_count(&self, first: &Part, second: &Part) -> usize
        requires limit { IsLimit self.now.limit }
        requires first { first.now.fewest + length first.now.costs.items ≤ self.now.limit + 1 }
        requires second { second.now.fewest + length second.now.costs.items ≤ self.now.limit + 1 }
        requires first_some { 0 < length first.now.costs.items }
        requires second_some { 0 < length second.now.costs.items }
        ensures { IsCostCount self.now.limit first.now second.now result }
    {
        let fewest = first.fewest + second.fewest;
        if fewest > self.limit {
            return 0;
        }
        (first.costs.len() + second.costs.len() - 1).min(self.limit - fewest + 1)
    }

    /// Returns the part of two parts in two halves of a network that may be covered.
    fn joined_or_whole(
        &self,
        alloc: Global,
        around: &IpNet,
        first: Part,
        second: Part,
    ) -> Result<Part, AllocError>
        requires limit { IsLimit self.now.limit }
        requires joined { CanBeJoined self.now.limit first second (ip_network around.now) }
        requires whole { (x : Address) → InBlock (ip_network around.now) x → IsMember self.now.allowed x }
        ensures some { (front back : List Network)
            → AreJoined front back self.now first second (ip_network around.now)
            → IfOk result (IsPartOf (front ++ back) self.now) }
        ensures within { IfOk result (λ p. IsSubnetOf (ip_network p.around) (ip_network around.now)) }
        ensures order { (l r : Network) → IsTruncated (ip_network around.now)
            → AreHalvesOf l r (ip_network around.now) → IsOrderly first.plan l → IsOrderly second.plan r
            → IfOk result (λ p. IsOrderly p.plan (ip_network around.now)) }
    {
        let lacking = lacking_in(around, &first, &second);
        let count = self.cost_count(&first, &second);
        let shares = best_shares(alloc, &first.costs, &second.costs, count)?;
        let mut costs = Vec::with_capacity(alloc, count + 1)?;
        costs.push(lacking)?;
        push_costs(&mut costs, &first.costs, &second.costs, &shares)?;
        let both = Plan::Both(
            shares,
            Box::new(alloc, first.plan)?,
            Box::new(alloc, second.plan)?,
        );
        Ok(Part {
            around: *around,
            lacking,
            fewest: 1,
            costs,
            plan: Plan::OneOr(*around, Box::new(alloc, both)?),
        })
    }

    /// Returns the part of two parts in two halves of a network that may not be covered, or `None` if they need more
    /// networks than the limit.
    fn joined(
        &self,
        alloc: Global,
        around: &IpNet,
        first: Part,
        second: Part,
    ) -> Result<Option<Part>, AllocError>
        requires limit { IsLimit self.now.limit }
        requires joined { CanBeJoined self.now.limit first second (ip_network around.now) }
        requires part { ¬ ((x : Address) → InBlock (ip_network around.now) x → IsMember self.now.allowed x) }
        ensures some { (front back : List Network)
            → AreJoined front back self.now first second (ip_network around.now)
            → IfOk result (λ o. IfSome o (IsPartOf (front ++ back) self.now)) }
        ensures within { IfOk result (λ o. IfSome o (λ p.
            IsSubnetOf (ip_network p.around) (ip_network around.now))) }
        ensures none { (front back : List Network)
            → AreJoined front back self.now first second (ip_network around.now)
            → IfOk result (λ o. IfNone o (HasNoCover (front ++ back) self.now)) }
        ensures order { (l r : Network) → AreHalvesOf l r (ip_network around.now) → IsOrderly first.plan l
            → IsOrderly second.plan r
            → IfOk result (λ o. IfSome o (λ p. IsOrderly p.plan (ip_network around.now))) }
    {
        let lacking = lacking_in(around, &first, &second);
        let count = self.cost_count(&first, &second);
        if count == 0 {
            return Ok(None);
        }
        let shares = best_shares(alloc, &first.costs, &second.costs, count)?;
        let mut costs = Vec::with_capacity(alloc, count)?;
        push_costs(&mut costs, &first.costs, &second.costs, &shares)?;
        Ok(Some(Part {
            around: *around,
            lacking,
            fewest: first.fewest + second.fewest,
            costs,
            plan: Plan::Both(
                shares,
                Box::new(alloc, first.plan)?,
                Box::new(alloc, second.plan)?,
            ),
        }))
    }

    /// Returns the part of the blocks, which are in the network, or `None` if no list within the limit covers them.
    pub(crate) fn part(
        &self,
        alloc: Global,
        around: &IpNet,
        blocks: &[IpNet],
    ) -> Result<Option<Part>, AllocError>
        requires limit { IsLimit self.now.limit }
        requires blocks { AreBlocksIn (map ip_network blocks.now) (ip_network around.now) }
        ensures some { IfOk result (λ o. IfSome o (IsPartOf (map ip_network blocks.now) self.now)) }
        ensures within { IfOk result (λ o. IfSome o (λ p.
            IsSubnetOf (ip_network p.around) (ip_network around.now))) }
        ensures none { IfOk result (λ o. IfNone o (HasNoCover (map ip_network blocks.now) self.now)) }
        ensures order { All IsTruncated (map ip_network blocks.now)
            → IfOk result (λ o. IfSome o (λ p. IsOrderly p.plan (ip_network around.now))) }
    {
        if blocks.len() == 1 {
            return self.single(alloc, &blocks[0]);
        }
        let first_half = half_with(around, &blocks[0]);
        let count = leading_in(blocks, &first_half);
        if count == blocks.len() {
            return self.part(alloc, &first_half, blocks);
        }
        let second_half = half_with(around, &blocks[count]);
        let (front, back) = blocks.split_at(count);
        let Some(first) = self.part(alloc, &first_half, front)? else {
            return Ok(None);
        };
        let Some(second) = self.part(alloc, &second_half, back)? else {
            return Ok(None);
        };
        if self.allowed.covers(around) {
            let part = self.joined_or_whole(alloc, around, first, second)?;
            return Ok(Some(part));
        }
        self.joined(alloc, around, first, second)
    }
}
