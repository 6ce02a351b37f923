//! Aggregates: the shortest list of networks over the addresses of a list, and lists compared by what they cover.
ghost use Rattle.std.specs.Prelude.{◌≡◌, ◌↔◌, ◌+◌, ◌-◌, ◌<◌, ◌≤◌, [], map, take, drop, length, get_or, All};
ghost use Rattle.std.specs.Prelude.{IfOk, OnOk, IsOk, IsOkAnd, IsTrue};
ghost use Rattle.ipnet_base.specs.Network.{Network, IsTruncated, IsSubnetOf};
ghost use Rattle.ipnet_base.specs.Blocks.{HaveSameCover, IsAggregateOf, IsCanonicalAggregateOf};
ghost use Rattle.ipnet_base.specs.Blocks.{AreAggregatedNeighbours};
ghost use Rattle.ipnet_base.specs.Stack.{IsBeforeOrEqual, IsInOrder, LiesBefore, AreJoined};
ghost use Rattle.ipnet_base.specs.Stack.{IsListWith, IsStackWith, IsStackOfFirst};
ghost use Rattle.ipnet.specs.NetworkOf.{ipv4_network, ipv6_network, ip_network};

use crate::net::{IpNet, Ipv4Net, Ipv6Net, Net};
use std::alloc::{AllocError, Global};

pub mod laws;

/// Writes a network after the first `kept` networks of the list. While it and the last of these are the two halves of
/// one supernet, both are replaced by that supernet. Returns how many networks there are then. If the first ones are a
/// stack, and the topmost does not cover the network, they are a stack after that.
fn put_or_join<N: Net>(list: &mut [N], kept: usize, network: N) -> usize
    requires room { kept < length list.old }
    requires list { All IsTruncated (map N.network (take kept list.old)) }
    requires network { IsTruncated (N.network network) }
    ensures at_most { result ≤ kept + 1 }
    ensures list { IsListWith (map N.network (take kept list.old)) (N.network network)
        (map N.network (take result list.new)) }
    ensures stack { let old = map N.network (take kept list.old) in AreJoined old
        → All (λ m. IsBeforeOrEqual m (N.network network)) old
        → ((d : Network) → 0 < length old → ¬ (IsSubnetOf (N.network network) (get_or old (length old - 1) d)))
        → IsStackWith old (N.network network) (map N.network (take result list.new)) }
    ensures rest { drop (kept + 1) list.new ≡ drop (kept + 1) list.old }
{
    let mut front = kept;
    let mut next = network;
    while front > 0 && list[front - 1].is_other_half(&next) {
        next = list[front - 1].joined();
        front -= 1;
    }
    list[front] = next;
    front + 1
}

/// Appends a network. While it and the last one are the two halves of one supernet, both are replaced by that
/// supernet. The list need not be sorted.
fn push_or_join<N: Net>(list: &mut Vec<N>, network: N) -> Result<(), AllocError>
    requires list { All IsTruncated (map N.network list.old.items) }
    requires network { IsTruncated (N.network network) }
    ensures { OnOk result
        (IsListWith (map N.network list.old.items) (N.network network) (map N.network list.new.items)) }
{
    let before = list.len();
    list.push(network)?;
    let kept = put_or_join(list.as_mut_slice(), before, network);
    list.truncate(kept);
    Ok(())
}

/// A list over the same addresses, without host bits and in the order of the input. Two halves of one supernet that
/// follow each other are joined here already, so that less has to be sorted.
fn truncated_and_joined<N: Net>(alloc: Global, networks: &Vec<N>) -> Result<Vec<N>, AllocError>
    ensures empty { networks.now.items ≡ [] → IsOk result }
    ensures truncated { IfOk result (λ list. All IsTruncated (map N.network list.items)) }
    ensures addresses { IfOk result (λ list.
        HaveSameCover (map N.network list.items) (map N.network networks.now.items)) }
{
    let mut list = Vec::with_capacity(alloc, networks.len())?;
    for network in networks {
        push_or_join(&mut list, network.truncated())?;
    }
    Ok(list)
}

/// Pushes a network on the stack that fills the front of the list; in the order of networks, none of the stack comes
/// after it. A network that the topmost covers is left out. While it and the topmost are the two halves of one
/// supernet, both are replaced by that supernet. Returns the number of networks on the stack after that.
//
// Only the topmost has to be compared: the stack is ascending, its networks share no address, and the new network
// starts no earlier than the topmost. A lower one that covered it would share an address with the topmost.
fn push_on_stack<N: Net>(list: &mut [N], stacked: usize, network: N) -> usize
    requires room { stacked < length list.old }
    requires joined { AreJoined (map N.network (take stacked list.old)) }
    requires truncated { IsTruncated (N.network network) }
    requires order { All (λ m. IsBeforeOrEqual m (N.network network)) (map N.network (take stacked list.old)) }
    ensures at_most { result ≤ stacked + 1 }
    ensures stack { IsStackWith (map N.network (take stacked list.old)) (N.network network)
        (map N.network (take result list.new)) }
    ensures rest { drop (stacked + 1) list.new ≡ drop (stacked + 1) list.old }
{
    if stacked > 0 && list[stacked - 1].covers(&network) {
        return stacked;
    }
    put_or_join(list, stacked, network)
}

/// Pushes the networks of a sorted list, one after the other, on a stack at the front of the same list. The stack never
/// has more networks than were read, so nothing unread is overwritten. Returns the height of the stack at the end.
fn sweep<N: Net>(list: &mut [N]) -> usize
    requires truncated { All IsTruncated (map N.network list.old) }
    requires order { IsInOrder (map N.network list.old) }
    ensures at_most { result ≤ length list.old }
    ensures stack { IsStackOfFirst (map N.network list.old) (length list.old) (map N.network (take result list.new)) }
{
    let mut stacked = 0;
    for index in 0..list.len() {
        let network = list[index];
        stacked = push_on_stack(list, stacked, network);
    }
    stacked
}

/// Does in the list's own front what [`truncated_and_joined`] does in a new list. Returns how many networks are left.
fn truncate_and_join<N: Net>(list: &mut [N]) -> usize
    ensures at_most { result ≤ length list.old }
    ensures truncated { All IsTruncated (map N.network (take result list.new)) }
    ensures addresses { HaveSameCover (map N.network (take result list.new)) (map N.network list.old) }
{
    let mut kept = 0;
    for index in 0..list.len() {
        let network = list[index];
        kept = put_or_join(list, kept, network.truncated());
    }
    kept
}

/// Replaces networks without host bits by their aggregate. After the sort, each network has to be compared with the
/// topmost of the stack only.
fn sort_and_sweep<N: Net>(list: &mut Vec<N>)
    requires { All IsTruncated (map N.network list.old.items) }
    ensures { IsAggregateOf (map N.network list.new.items) (map N.network list.old.items) }
{
    list.sort_unstable();
    let stacked = sweep(list.as_mut_slice());
    list.truncate(stacked);
}

/// The aggregate, in the one list that is made for it. Sorting takes most of the time, so networks that can be joined
/// in the order of the input are joined before the sort.
fn aggregated<N: Net>(alloc: Global, networks: &Vec<N>) -> Result<Vec<N>, AllocError>
    ensures empty { networks.now.items ≡ [] → IsOkAnd result (λ answer. answer.items ≡ []) }
    ensures aggregate { IfOk result (λ answer.
        IsCanonicalAggregateOf (map N.network answer.items) (map N.network networks.now.items)) }
{
    let mut list = truncated_and_joined(alloc, networks)?;
    sort_and_sweep(&mut list);
    Ok(list)
}

/// Replaces the networks by their aggregate, in the memory that they have.
fn aggregate_list<N: Net>(networks: &mut Vec<N>)
    ensures { IsCanonicalAggregateOf (map N.network networks.new.items) (map N.network networks.old.items) }
{
    let kept = truncate_and_join(networks.as_mut_slice());
    networks.truncate(kept);
    sort_and_sweep(networks);
}

impl Ipv4Net {
    /// The aggregate: the one shortest list of networks over exactly the addresses of these networks, truncated
    /// and in order.
    ///
    /// It has the truncated networks of the maximal blocks: each block is covered by the networks, and lies in no
    /// larger block that they cover. They are in ascending order, each once. Order, repeats and host bits of the input
    /// do not matter, and lists over the same addresses have the same aggregate.
    ///
    /// Allocates once: room for as many networks as the input has. Fails only when memory runs out; an empty list needs
    /// none.
    ///
    /// ```text
    /// 10.0.1.0/24, 10.0.0.0/24, 10.0.0.7/25    become    10.0.0.0/23
    /// 0.0.0.0/1, 128.0.0.0/1                   become    0.0.0.0/0
    /// ```
    pub fn aggregate(alloc: Global, networks: &Vec<Ipv4Net>) -> Result<Vec<Ipv4Net>, AllocError>
        ensures empty { networks.now.items ≡ [] → IsOkAnd result (λ answer. answer.items ≡ []) }
        ensures aggregate { IfOk result (λ answer.
            IsCanonicalAggregateOf (map ipv4_network answer.items) (map ipv4_network networks.now.items)) }
    {
        aggregated::<Ipv4Net>(alloc, networks)
    }

    /// Replaces the networks by their [`aggregate`](Self::aggregate), in the memory that they have.
    ///
    /// Allocates nothing and cannot fail. The vector keeps its capacity.
    ///
    /// ```text
    /// 10.0.1.0/24, 10.0.0.0/24, 10.0.0.7/25    become    10.0.0.0/23
    /// 0.0.0.0/1, 128.0.0.0/1                   become    0.0.0.0/0
    /// ```
    pub fn aggregate_in_place(networks: &mut Vec<Ipv4Net>)
        ensures { IsCanonicalAggregateOf (map ipv4_network networks.new.items) (map ipv4_network networks.old.items) }
    {
        aggregate_list::<Ipv4Net>(networks);
    }
}

impl Ipv6Net {
    /// The aggregate: the one shortest list of networks over exactly the addresses of these networks, truncated
    /// and in order.
    ///
    /// It has the truncated networks of the maximal blocks: each block is covered by the networks, and lies in no
    /// larger block that they cover. They are in ascending order, each once. Order, repeats and host bits of the input
    /// do not matter, and lists over the same addresses have the same aggregate.
    ///
    /// Allocates once: room for as many networks as the input has. Fails only when memory runs out; an empty list needs
    /// none.
    ///
    /// ```text
    /// fd00:1::/32, fd00::/32, fd00::7/64        become    fd00::/31
    /// ::/1, 8000::/1                            become    ::/0
    /// ```
    pub fn aggregate(alloc: Global, networks: &Vec<Ipv6Net>) -> Result<Vec<Ipv6Net>, AllocError>
        ensures empty { networks.now.items ≡ [] → IsOkAnd result (λ answer. answer.items ≡ []) }
        ensures aggregate { IfOk result (λ answer.
            IsCanonicalAggregateOf (map ipv6_network answer.items) (map ipv6_network networks.now.items)) }
    {
        aggregated::<Ipv6Net>(alloc, networks)
    }

    /// Replaces the networks by their [`aggregate`](Self::aggregate), in the memory that they have.
    ///
    /// Allocates nothing and cannot fail. The vector keeps its capacity.
    ///
    /// ```text
    /// fd00:1::/32, fd00::/32, fd00::7/64        become    fd00::/31
    /// ::/1, 8000::/1                            become    ::/0
    /// ```
    pub fn aggregate_in_place(networks: &mut Vec<Ipv6Net>)
        ensures { IsCanonicalAggregateOf (map ipv6_network networks.new.items) (map ipv6_network networks.old.items) }
    {
        aggregate_list::<Ipv6Net>(networks);
    }
}

impl IpNet {
    /// Returns the aggregate: the shortest list of networks with exactly the addresses of these networks, truncated and
    /// in order.
    ///
    /// It has the truncated networks of the maximal blocks, each once, IPv4 before IPv6 and by ascending first address.
    /// Order, repeats and host bits of the input do not matter, and lists with the same addresses have the same
    /// aggregate.
    ///
    /// Allocates once: room for as many networks as the input has. Fails only when memory runs out; an empty list needs
    /// none.
    ///
    /// ```text
    /// fd00::/32, 10.0.1.0/24, 10.0.0.7/24    become    10.0.0.0/23, fd00::/32
    /// ::ffff:10.0.0.0/120, 10.0.0.0/24       become    10.0.0.0/24, ::ffff:10.0.0.0/120
    /// ```
    pub fn aggregate(alloc: Global, networks: &Vec<IpNet>) -> Result<Vec<IpNet>, AllocError>
        ensures empty { networks.now.items ≡ [] → IsOkAnd result (λ answer. answer.items ≡ []) }
        ensures aggregate { IfOk result (λ answer.
            IsCanonicalAggregateOf (map ip_network answer.items) (map ip_network networks.now.items)) }
    {
        aggregated::<IpNet>(alloc, networks)
    }

    /// Replaces the networks by their [`aggregate`](Self::aggregate), in the memory that they have.
    ///
    /// Allocates nothing and cannot fail. The vector keeps its capacity.
    ///
    /// ```text
    /// fd00::/32, 10.0.1.0/24, 10.0.0.7/24    become    10.0.0.0/23, fd00::/32
    /// ```
    pub fn aggregate_in_place(networks: &mut Vec<IpNet>)
        ensures { IsCanonicalAggregateOf (map ip_network networks.new.items) (map ip_network networks.old.items) }
    {
        aggregate_list::<IpNet>(networks);
    }
}

/// Whether the network has no host bit.
fn is_truncated(network: &IpNet) -> bool
    ensures { IsTrue result ↔ IsTruncated (ip_network network.now) }
{
    match network {
        IpNet::V4(network) => network.number() == network.truncated().number(),
        IpNet::V6(network) => network.number() == network.truncated().number(),
    }
}

/// Whether every address of the first network comes before the second: the first is an IPv4 network and the second
/// an IPv6 one, or the second starts after the last address of the first.
fn lies_before(first: &IpNet, second: &IpNet) -> bool
    ensures { IsTrue result ↔ LiesBefore (ip_network first.now) (ip_network second.now) }
{
    match (first, second) {
        (IpNet::V4(first), IpNet::V4(second)) => first.last_number() < second.number(),
        (IpNet::V4(_), IpNet::V6(_)) => true,
        (IpNet::V6(_), IpNet::V4(_)) => false,
        (IpNet::V6(first), IpNet::V6(second)) => first.last_number() < second.number(),
    }
}

/// Whether the list is its own aggregate: `IpNet::aggregate` of the list returns the same list.
///
/// This is the case if and only if four conditions hold: no network has a host bit; IPv4 comes before IPv6; within a
/// family each network starts after the last address of the network before it; and no two neighbours are the two
/// halves of one supernet. Allocates nothing. The empty list is its own aggregate.
///
/// ```text
/// 10.0.0.0/25, 10.0.1.0/24                    is its own aggregate
/// 10.0.0.0/25, 10.0.0.128/25                  is not: the two join
/// 10.0.1.0/24, 10.0.0.0/25                    is not: it is out of order
/// 10.0.0.1/24                                 is not: a host bit is set
/// ```
pub fn is_aggregated(networks: &[IpNet]) -> bool
    ensures own_aggregate { IsTrue result
        ↔ IsAggregateOf (map ip_network networks.now) (map ip_network networks.now) }
    ensures neighbours { IsTrue result ↔ AreAggregatedNeighbours (map ip_network networks.now) }
{
    for index in 0..networks.len() {
        let network = networks[index];
        if !is_truncated(&network) {
            return false;
        }
        if index > 0 {
            let before = networks[index - 1];
            if !lies_before(&before, &network) || before.is_other_half(&network) {
                return false;
            }
        }
    }
    true
}

/// Whether the two lists cover the same addresses. Aggregates both lists and compares the aggregates: lists that cover
/// the same addresses have the same aggregate.
///
/// Fails only when memory runs out. Two empty lists need none.
///
/// ```text
/// 10.0.0.0/25, 10.0.0.128/25 and 10.0.0.7/24 cover the same addresses; 10.0.0.0/25 covers fewer
/// ```
pub fn same_addresses(
    alloc: Global,
    networks: &Vec<IpNet>,
    others: &Vec<IpNet>,
) -> Result<bool, AllocError>
    ensures empty { networks.now.items ≡ [] → others.now.items ≡ [] → IsOkAnd result (λ same. IsTrue same) }
    ensures addresses { IfOk result (λ same.
        IsTrue same ↔ HaveSameCover (map ip_network networks.now.items) (map ip_network others.now.items)) }
{
    let first = aggregated(alloc, networks)?;
    let second = aggregated(alloc, others)?;
    Ok(first == second)
}
