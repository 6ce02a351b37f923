//! Networks as bytes: the octets of the address, the most significant first, and then the prefix length.
ghost use Rattle.std.specs.Prelude.{◌≡◌, ◌≢◌, ◌+◌, ◌≤◌, ◌↔◌, [], ◌∷◌, ◌++◌, length};
ghost use Rattle.ipnet_base.specs.Address.{IPv4, IPv6};
ghost use Rattle.ipnet.specs.NetworkOf.{ipv4_network, ipv6_network, ip_network};
ghost use Rattle.ipnet_base.specs.Results.{IsOkExactlyAt};
ghost use Rattle.ipnet.specs.Bytes.{network_bytes, tagged_network_bytes, HasWrongLen, HasLongPrefix};
ghost use Rattle.ipnet.specs.Bytes.{HasWrongTaggedLen, HasUnknownVariant, HasLongTaggedPrefix};

pub mod laws;

use crate::net::{IpNet, Ipv4Net, Ipv6Net};
use arrayvec::ArrayVec;
use thiserror::Error;

/// Why bytes are not a network. Displayed as `invalid length`, `invalid variant` or `invalid IP prefix length`.
///
/// ```text
/// IpNet::from_bytes of 0 gives Length, of 2 Variant, and of 0, 10, 1, 1, 0, 33 Prefix
/// ```
#[derive(Clone, Debug, PartialEq, Eq, Drop, Error)]
pub enum CompactError {
    /// There are too few bytes or too many, or none at all.
    #[error("invalid length")]
    Length,
    /// The first byte, which stands for the family, is neither 0 nor 1.
    #[error("invalid variant")]
    Variant,
    /// The last byte, the prefix length, is above the width of the address.
    #[error("invalid IP prefix length")]
    Prefix,
}

/// The octets, and the prefix length after them.
fn with_prefix_len<const OCTETS: usize, const LEN: usize>(
    octets: [u8; OCTETS],
    prefix_len: u8,
) -> [u8; LEN]
    requires { LEN ≡ OCTETS + 1 }
    ensures { result ≡ octets.entry ++ prefix_len ∷ [] }
{
    let mut bytes = [prefix_len; LEN];
    bytes[..OCTETS].copy_from_slice(&octets);
    bytes
}

/// The byte for the family, and the bytes after it.
fn tagged(tag: u8, bytes: &[u8]) -> ArrayVec<u8, 18>
    requires { length bytes.now ≤ 17 }
    ensures { result.items ≡ tag ∷ bytes.now }
{
    let mut out = ArrayVec::new();
    out.push(tag);
    // There is room for 18 bytes: the one for the family, sixteen octets and the prefix length.
    out.try_extend_from_slice(bytes).unwrap();
    out
}

impl Ipv4Net {
    /// The four octets of the address, host bits and all, and the prefix length.
    ///
    /// ```text
    /// 10.1.1.0/24 is the bytes 10, 1, 1, 0, 24
    /// ```
    pub fn to_bytes(&self) -> [u8; 5]
        ensures { result ≡ network_bytes (ipv4_network self.now) }
    {
        let octets: [u8; 4] = self.number().to_be_bytes();
        with_prefix_len(octets, self.prefix_len())
    }

    /// The network with these bytes.
    ///
    /// `Length` if there are not five bytes; otherwise `Prefix` if the last byte is above 32.
    ///
    /// ```text
    /// 10, 1, 1, 0, 24 is 10.1.1.0/24; 10, 1, 1, 0, 33 gives Prefix, and 10, 1, 1, 0, 33, 0 Length
    /// ```
    pub fn from_bytes(bytes: &[u8]) -> Result<Ipv4Net, CompactError>
        ensures ok { IsOkExactlyAt result (λ n. bytes.now ≡ network_bytes (ipv4_network n)) }
        ensures length { (result ≡ Err CompactError.Length) ↔ HasWrongLen IPv4 bytes.now }
        ensures variant { result ≢ Err CompactError.Variant }
        ensures prefix { (result ≡ Err CompactError.Prefix) ↔ HasLongPrefix IPv4 bytes.now }
    {
        let Some((octets, [prefix_len])) = bytes.split_first_chunk::<4>() else {
            return Err(CompactError::Length);
        };
        if *prefix_len > 32 {
            return Err(CompactError::Prefix);
        }
        Ok(Ipv4Net::from_number(u32::from_be_bytes(*octets), u32::from(*prefix_len)))
    }
}

impl Ipv6Net {
    /// The sixteen octets of the address, host bits and all, and the prefix length.
    ///
    /// ```text
    /// fd00::/32 is the byte 253, fifteen bytes 0, and the byte 32
    /// ```
    pub fn to_bytes(&self) -> [u8; 17]
        ensures { result ≡ network_bytes (ipv6_network self.now) }
    {
        let octets: [u8; 16] = self.number().to_be_bytes();
        with_prefix_len(octets, self.prefix_len())
    }

    /// The network with these bytes.
    ///
    /// `Length` if there are not seventeen bytes; otherwise `Prefix` if the last byte is above 128.
    ///
    /// ```text
    /// 253, fifteen bytes 0 and 32 are fd00::/32; with 129 for 32 they give Prefix
    /// ```
    pub fn from_bytes(bytes: &[u8]) -> Result<Ipv6Net, CompactError>
        ensures ok { IsOkExactlyAt result (λ n. bytes.now ≡ network_bytes (ipv6_network n)) }
        ensures length { (result ≡ Err CompactError.Length) ↔ HasWrongLen IPv6 bytes.now }
        ensures variant { result ≢ Err CompactError.Variant }
        ensures prefix { (result ≡ Err CompactError.Prefix) ↔ HasLongPrefix IPv6 bytes.now }
    {
        let Some((octets, [prefix_len])) = bytes.split_first_chunk::<16>() else {
            return Err(CompactError::Length);
        };
        if *prefix_len > 128 {
            return Err(CompactError::Prefix);
        }
        Ok(Ipv6Net::from_number(u128::from_be_bytes(*octets), u32::from(*prefix_len)))
    }
}

impl IpNet {
    /// A byte for the family, 0 for IPv4 and 1 for IPv6, and then the bytes of the network in its family: 6 bytes, or
    /// 18.
    ///
    /// ```text
    /// 10.1.1.0/24 is the bytes 0, 10, 1, 1, 0, 24
    /// ```
    pub fn to_bytes(&self) -> ArrayVec<u8, 18>
        ensures { result.items ≡ tagged_network_bytes (ip_network self.now) }
    {
        match self {
            IpNet::V4(net) => tagged(0, &net.to_bytes()),
            IpNet::V6(net) => tagged(1, &net.to_bytes()),
        }
    }

    /// The network with these bytes.
    ///
    /// Checked in this order: `Length` if there are no bytes; `Variant` if the first byte is neither 0 nor 1; `Length`
    /// unless 5 bytes (IPv4) or 17 bytes (IPv6) follow it; `Prefix` if the last byte is above 32 (IPv4) or 128 (IPv6).
    ///
    /// ```text
    /// 0, 10, 1, 1, 0, 24 is 10.1.1.0/24; 2 gives Variant, 0 Length, and 0, 10, 1, 1, 0, 33 Prefix
    /// ```
    pub fn from_bytes(bytes: &[u8]) -> Result<IpNet, CompactError>
        ensures ok { IsOkExactlyAt result (λ n. bytes.now ≡ tagged_network_bytes (ip_network n)) }
        ensures length { (result ≡ Err CompactError.Length) ↔ HasWrongTaggedLen bytes.now }
        ensures variant { (result ≡ Err CompactError.Variant) ↔ HasUnknownVariant bytes.now }
        ensures prefix { (result ≡ Err CompactError.Prefix) ↔ HasLongTaggedPrefix bytes.now }
    {
        let Some((tag, rest)) = bytes.split_first() else {
            return Err(CompactError::Length);
        };
        match tag {
            0 => Ok(IpNet::V4(Ipv4Net::from_bytes(rest)?)),
            1 => Ok(IpNet::V6(Ipv6Net::from_bytes(rest)?)),
            _ => Err(CompactError::Variant),
        }
    }
}
