//! Validated ROA payloads: which AS may announce which networks.
ghost use Rattle.std.specs.Prelude.{◌≡◌, ◌<◌, ◌≤◌, ◌↔◌, IsTrue, IfOk, IsErrOf};
ghost use Rattle.ipnet_base.specs.Address.{width};
ghost use Rattle.ipnet_base.specs.Network.{IsTruncated, truncation};
ghost use Rattle.ipnet.specs.NetworkOf.{ip_network};
ghost use Rattle.ipnet_origins.specs.declared.payload.PayloadError.TheVariants as PayloadError;

use ipnet::IpNet;
use thiserror::Error;

/// Why a payload is refused.
#[derive(Clone, Debug, PartialEq, Eq, Drop, Error)]
pub enum PayloadError {
    /// The greatest length is less than the network's prefix length.
    #[error("the greatest length must be at least the prefix length")]
    MaxLenBelowPrefixLen,
    /// The greatest length is more than 32, or 128 for IPv6.
    #[error("the greatest length must be at most 32, or 128 for IPv6")]
    MaxLenAboveWidth,
}

/// A validated ROA payload (VRP): an AS may announce a network, and the networks in it up to a greatest prefix length.
///
/// ```text
/// 192.0.2.0/24 with greatest length 26 and AS 64496: AS 64496 may announce 192.0.2.0/24, 192.0.2.128/25 and
/// 192.0.2.64/26, but not 192.0.2.0/27
/// ```
#[derive(Clone, Copy, PartialEq, Eq, Debug)]
pub struct Payload {
    pub(crate) network: IpNet,
    max_len: u8,
    asn: u32,
    ghost truncated: { IsTruncated (ip_network network) },
    ghost at_least: { (ip_network network).prefix_len ≤ max_len },
    ghost at_most: { max_len ≤ width (ip_network network).family },
}

impl Payload {
    ghost use Rattle.ipnet_origins.specs.Groups.{rank_of};
    ghost use Rattle.ipnet_origins.specs.Origins.{IsCovered, IsMatched};

    /// Returns the payload of the network, the greatest prefix length and the AS number. Host bits of the network do
    /// not matter.
    ///
    /// The error is `MaxLenBelowPrefixLen` if the greatest length is less than the network's prefix length, and
    /// `MaxLenAboveWidth` if it is more than 32, or 128 for IPv6.
    ///
    /// ```text
    /// 192.0.2.0/24, 26, AS 64496   Ok
    /// 192.0.2.0/24, 23, AS 64496   Err(MaxLenBelowPrefixLen)
    /// 192.0.2.0/24, 33, AS 64496   Err(MaxLenAboveWidth)
    /// ```
    pub fn new(network: IpNet, max_len: u8, asn: u32) -> Result<Payload, PayloadError>
        ensures network { IfOk result (λ p. ip_network p.network ≡ truncation (ip_network network)) }
        ensures max_len { IfOk result (λ p. p.max_len ≡ max_len) }
        ensures asn { IfOk result (λ p. p.asn ≡ asn) }
        ensures below { IsErrOf result PayloadError.MaxLenBelowPrefixLen
            ↔ (max_len < (ip_network network).prefix_len) }
        ensures above { IsErrOf result PayloadError.MaxLenAboveWidth
            ↔ (width (ip_network network).family < max_len) }
    {
        if max_len < network.prefix_len() {
            return Err(PayloadError::MaxLenBelowPrefixLen);
        }
        if max_len > network.max_prefix_len() {
            return Err(PayloadError::MaxLenAboveWidth);
        }
        Ok(Payload {
            network: network.trunc(),
            max_len,
            asn,
        })
    }

    /// Returns the network of the payload, without host bits.
    ///
    /// ```text
    /// 192.0.2.0/24 with greatest length 26 and AS 64496: 192.0.2.0/24
    /// ```
    pub fn network(&self) -> IpNet
        ensures network { ip_network result ≡ ip_network self.now.network }
        ensures truncated { IsTruncated (ip_network result) }
    {
        self.network
    }

    /// Returns the greatest prefix length of a network that the AS may announce.
    ///
    /// ```text
    /// 192.0.2.0/24 with greatest length 26 and AS 64496: 26
    /// ```
    pub fn max_len(&self) -> u8
        ensures value { result ≡ self.now.max_len }
        ensures at_least { (ip_network self.now.network).prefix_len ≤ result }
        ensures at_most { result ≤ width (ip_network self.now.network).family }
    {
        self.max_len
    }

    /// Returns the number of the AS. If it is 0, this payload covers routes and matches none. Another payload may match
    /// them.
    ///
    /// ```text
    /// 192.0.2.0/24 with greatest length 26 and AS 64496: 64496
    /// ```
    pub fn asn(&self) -> u32
        ensures { result ≡ self.now.asn }
    {
        self.asn
    }

    /// Returns the rank of the payload, by which payloads of one network are sorted.
    pub(crate) fn rank(&self) -> u64
        ensures { result ≡ rank_of self.now }
    {
        u64::from(self.asn) * 256 + u64::from(self.max_len)
    }

    /// Returns whether the payload covers the route: the payload's network contains the route's network. Allocates
    /// nothing.
    ///
    /// ```text
    /// 192.0.2.0/24 with greatest length 26 covers 192.0.2.0/24 and 192.0.2.0/30, and not 192.0.0.0/16
    /// ```
    pub fn covers(&self, network: &IpNet) -> bool
        ensures { IsTrue result ↔ IsCovered (ip_network network.now) self.now }
    {
        let around = &self.network;
        around.prefix_len() <= network.prefix_len() && around.contains(&network.addr())
    }

    /// Returns whether the payload matches a route with this network and this origin: the payload covers the route, the
    /// route is not longer than the greatest length, and the AS numbers are equal, and not 0. A route with no single
    /// origin has the origin `None`, which no payload matches. Allocates nothing.
    ///
    /// ```text
    /// 192.0.2.0/24 with greatest length 26 and AS 64496 matches 192.0.2.64/26 of AS 64496;
    /// it does not match 192.0.2.0/27 of AS 64496, 192.0.2.64/26 of AS 64497, or 192.0.2.64/26 with the origin None
    /// ```
    pub fn matches(&self, network: &IpNet, origin: Option<u32>) -> bool
        ensures { IsTrue result ↔ IsMatched (ip_network network.now) origin self.now }
    {
        origin == Some(self.asn)
            && self.asn != 0
            && network.prefix_len() <= self.max_len
            && self.covers(network)
    }
}
