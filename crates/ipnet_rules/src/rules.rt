//! Ordered rules for addresses, and the set of addresses that they permit.
ghost use Rattle.std.specs.Prelude.{◌≡◌, ◌⊎◌, ◌↔◌, IsTrue, IfOk, IsNone, IfSome, Any};
ghost use Rattle.ipnet_base.specs.Address.{Address, IsAddress, ip_address};
ghost use Rattle.ipnet_base.specs.Network.{InBlock};
ghost use Rattle.ipnet.specs.NetworkOf.{ip_network};
ghost use Rattle.ipnet_sets.specs.Members.{IsMember, IsFromTo, HaveSameAddresses, IsFirstOf};
ghost use Rattle.ipnet_rules.specs.declared.rules.Action.TheVariants.{Permit, Deny};
ghost use Rattle.ipnet_rules.specs.Rules.{IsOneOf, Matches, HasRuleVerdict, IsVerdict, IsPermitted};
ghost use Rattle.ipnet_rules.specs.Rules.{HaveSameVerdicts, HaveOtherVerdicts};

use ipnet::{IpAddr, IpNet};
use ipnet_sets::IpSet;
use std::alloc::{AllocError, Global};

/// The action of a rule on the addresses or routes that it matches.
#[derive(Clone, Copy, PartialEq, Eq, Debug)]
pub enum Action {
    /// Let them through.
    Permit,
    /// Refuse them.
    Deny,
}

/// The addresses that a rule matches.
#[derive(Drop)]
pub enum Addresses {
    /// The addresses of the network's block. Its host bits do not matter.
    Network(IpNet),
    /// The addresses from the first to the last, both included. The range is empty if the first is above the last, or
    /// if the two have different families.
    Range(IpAddr, IpAddr),
    /// The addresses of the set.
    Set(IpSet),
    /// Every address, of both families.
    Any,
}

/// An action, and the addresses that it is for.
///
/// ```text
/// permit 10.0.0.0/8: Rule { action: Action::Permit, addresses: Addresses::Network(10.0.0.0/8) }
/// ```
#[derive(Drop)]
pub struct Rule {
    pub action: Action,
    pub addresses: Addresses,
}

/// A list of rules, as an access list has them. The first rule that matches an address decides; the default is for
/// addresses that no rule matches.
///
/// ```text
/// permit 10.0.0.0/24, deny 10.0.0.0/16, permit 10.0.0.0/8, and deny by default:
/// 10.0.0.7 and 10.1.0.1 are permitted; 10.0.1.1 and 11.0.0.1 are denied
/// ```
#[derive(Drop)]
pub struct Rules {
    /// The rules, in their order.
    pub list: Vec<Rule>,
    /// The action for addresses that no rule matches.
    pub default: Action,
}

/// The addresses that some rule of a list matches, and those that the list permits if its default is to deny.
#[derive(Drop)]
pub(crate) struct Compiled {
    pub(crate) matched: IpSet,
    pub(crate) permitted: IpSet,
}

impl Addresses {
    /// Returns whether the address is one of these. Allocates nothing.
    ///
    /// ```text
    /// 10.0.0.3 to 10.0.0.8 contains 10.0.0.3 and 10.0.0.8, but not 10.0.0.9
    /// ```
    pub fn contains(&self, ip: &IpAddr) -> bool
        ensures { IsTrue result ↔ IsOneOf self.now (ip_address ip.now) }
    {
        match self {
            Addresses::Network(network) => network.contains(ip),
            Addresses::Range(first, last) => is_from_to(first, last, ip),
            Addresses::Set(set) => set.contains(ip),
            Addresses::Any => fits_family(ip),
        }
    }

    /// Returns the set of these addresses. Fails only if memory runs out.
    ///
    /// ```text
    /// the range 10.0.0.3 to 10.0.0.8: the set 10.0.0.3-10.0.0.8
    /// ```
    pub fn to_set(&self, alloc: Global) -> Result<IpSet, AllocError>
        ensures { IfOk result (λ s. (x : Address) → IsMember s x ↔ IsOneOf self.now x) }
    {
        match self {
            Addresses::Network(network) => block_set(alloc, network),
            Addresses::Range(first, last) => IpSet::from_range(alloc, *first, *last),
            Addresses::Set(set) => set.clone(),
            Addresses::Any => IpSet::new(alloc).complement(alloc),
        }
    }
}

/// Returns whether the address lies in the range. A range with ends of two families is empty.
fn is_from_to(first: &IpAddr, last: &IpAddr, ip: &IpAddr) -> bool
    ensures { IsTrue result ↔ IsFromTo (ip_address first.now) (ip_address last.now) (ip_address ip.now) }
{
    match (first, last, ip) {
        (IpAddr::V4(first), IpAddr::V4(last), IpAddr::V4(ip)) => {
            first.to_bits() <= ip.to_bits() && ip.to_bits() <= last.to_bits()
        }
        (IpAddr::V6(first), IpAddr::V6(last), IpAddr::V6(ip)) => {
            first.to_bits() <= ip.to_bits() && ip.to_bits() <= last.to_bits()
        }
        _ => false,
    }
}

/// Returns whether the number of the address fits its family, which is always so.
fn fits_family(ip: &IpAddr) -> bool
    ensures { IsTrue result ↔ IsAddress (ip_address ip.now) }
{
    match ip {
        IpAddr::V4(ip) => ip.to_bits() <= u32::MAX,
        IpAddr::V6(ip) => ip.to_bits() <= u128::MAX,
    }
}

/// Returns the set of the network's addresses.
fn block_set(alloc: Global, network: &IpNet) -> Result<IpSet, AllocError>
    ensures { IfOk result (λ s. (x : Address) → IsMember s x ↔ InBlock (ip_network network.now) x) }
{
    IpSet::from_range(alloc, network.network(), network.broadcast())
}

/// Compiles one rule.
fn compile_rule(alloc: Global, rule: &Rule) -> Result<Compiled, AllocError>
    ensures matched { IfOk result (λ c. (x : Address) → IsMember c.matched x ↔ Matches rule.now x) }
    ensures permitted { IfOk result (λ c. (x : Address) → IsMember c.permitted x
        ↔ (Matches rule.now x × (rule.now.action ≡ Permit))) }
{
    let matched = rule.addresses.to_set(alloc)?;
    let permitted = match rule.action {
        Action::Permit => matched.clone()?,
        Action::Deny => IpSet::new(alloc),
    };
    Ok(Compiled { matched, permitted })
}

/// Compiles a list of rules by halves: the second half decides what no rule of the first half matches.
pub(crate) fn compile(alloc: Global, rules: &[Rule]) -> Result<Compiled, AllocError>
    ensures matched { IfOk result (λ c. (x : Address) → IsMember c.matched x ↔ Any (λ r. Matches r x) rules.now) }
    ensures permitted { IfOk result (λ c. (x : Address) → IsMember c.permitted x
        ↔ HasRuleVerdict rules.now Deny x Permit) }
{
    if rules.is_empty() {
        let matched = IpSet::new(alloc);
        let permitted = IpSet::new(alloc);
        return Ok(Compiled { matched, permitted });
    }
    if rules.len() == 1 {
        return compile_rule(alloc, &rules[0]);
    }
    let (first, second) = rules.split_at(rules.len() / 2);
    let first = compile(alloc, first)?;
    let second = compile(alloc, second)?;
    let matched = first.matched.union(alloc, &second.matched)?;
    let left = second.permitted.difference(alloc, &first.matched)?;
    let permitted = first.permitted.union(alloc, &left)?;
    Ok(Compiled { matched, permitted })
}

/// Returns the first address that is in one of the two sets only, or `None` if the sets are equal.
pub(crate) fn first_apart(
    alloc: Global,
    set: &IpSet,
    other: &IpSet,
) -> Result<Option<IpAddr>, AllocError>
    ensures none { IfOk result (λ found. IsNone found ↔ HaveSameAddresses set.now other.now) }
    ensures some { IfOk result (λ found. IfSome found (λ ip. IsFirstOf
        (λ x. (IsMember set.now x × ¬ (IsMember other.now x)) ⊎ (IsMember other.now x × ¬ (IsMember set.now x)))
        (ip_address ip))) }
{
    let apart = set.symmetric_difference(alloc, other)?;
    Ok(apart.first())
}

impl Rules {
    /// Returns the action of the first rule that matches the address, or the default if none does. Allocates nothing;
    /// the time grows with the number of rules.
    ///
    /// ```text
    /// permit 10.0.0.0/24, deny 10.0.0.0/16, and permit by default: 10.0.0.7 is permitted, 10.0.1.1 is denied,
    /// 8.8.8.8 is permitted
    /// ```
    pub fn verdict(&self, ip: &IpAddr) -> Action
        ensures { IsVerdict self.now (ip_address ip.now) result }
    {
        for rule in self.list.as_slice() {
            if rule.addresses.contains(ip) {
                return rule.action;
            }
        }
        self.default
    }

    /// Returns the set of the addresses that the rules permit: those with the verdict `Permit`. Its `networks` are the
    /// shortest list of networks that permits the same addresses. Fails only if memory runs out. The time grows with
    /// `n log n` for `n` rules of networks or ranges.
    ///
    /// ```text
    /// permit 10.0.0.0/24, deny 10.0.0.0/16, permit 10.0.0.0/8, and deny by default:
    /// 10.0.0.0-10.0.0.255 and 10.1.0.0-10.255.255.255
    /// ```
    pub fn permitted(&self, alloc: Global) -> Result<IpSet, AllocError>
        ensures { IfOk result (λ s. (x : Address) → IsAddress x → IsMember s x ↔ IsPermitted self.now x) }
    {
        let compiled = compile(alloc, self.list.as_slice())?;
        match self.default {
            Action::Deny => Ok(compiled.permitted),
            Action::Permit => {
                let unmatched = compiled.matched.complement(alloc)?;
                unmatched.union(alloc, &compiled.permitted)
            }
        }
    }

    /// Returns the first address that one of the two lists permits and the other denies, IPv4 before IPv6, or `None` if
    /// the lists have the same verdict on every address. Fails only if memory runs out.
    ///
    /// ```text
    /// permit 10.0.0.0/8, against deny 10.1.0.0/16 and permit 10.0.0.0/8: Some(10.1.0.0)
    /// ```
    pub fn first_difference(
        &self,
        alloc: Global,
        other: &Rules,
    ) -> Result<Option<IpAddr>, AllocError>
        ensures none { IfOk result (λ found. IsNone found ↔ HaveSameVerdicts self.now other.now) }
        ensures some { IfOk result (λ found. IfSome found (λ ip.
            IsFirstOf (HaveOtherVerdicts self.now other.now) (ip_address ip))) }
    {
        let ours = self.permitted(alloc)?;
        let theirs = other.permitted(alloc)?;
        first_apart(alloc, &ours, &theirs)
    }
}
