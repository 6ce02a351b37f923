//! The buckets of the index of an image of a table: by the first bits of its number, a network is in one of them.
ghost use Rattle.std.specs.Prelude.{◌≡◌, ◌^◌, ◌<◌, ◌≤◌, IfSome};
ghost use Rattle.ipnet.specs.NetworkOf.{ip_network};
ghost use Rattle.ipnet_routes.specs.TableImages.{index_bits, index_size, bucket_start, IsInBucket};

use super::rows::{ipv4_number, ipv6_number};
use ipnet::{IpNet, Ipv4Addr, Ipv4Net, Ipv6Addr, Ipv6Net};

/// How many of the first bits of a network's number the index reads, in each family.
#[derive(Clone, Copy)]
pub(crate) struct Buckets {
    ipv4_bits: u32,
    ipv6_bits: u32,
    ghost ipv4_few: { ipv4_bits ≤ 20 },
    ghost ipv6_few: { ipv6_bits ≤ 20 },
}

/// Returns how many bits the index reads of the networks of a family with this many routes. There are at most twice as
/// many buckets as routes, and mostly fewer.
#[inline(always)]
fn bits(count: usize) -> u32
    ensures bits { result ≡ index_bits count }
    ensures few { result ≤ 20 }
{
    if count >= 524_288 {
        return 20;
    }
    if count >= 65_536 {
        return 16;
    }
    if count >= 4_096 {
        return 12;
    }
    if count >= 256 {
        return 8;
    }
    0
}

impl Buckets {
    /// Returns the buckets of a table with these numbers of routes.
    #[inline(always)]
    pub(crate) fn new(ipv4: usize, ipv6: usize) -> Buckets
        ensures ipv4 { result.ipv4_bits ≡ index_bits ipv4 }
        ensures ipv6 { result.ipv6_bits ≡ index_bits ipv6 }
    {
        Buckets {
            ipv4_bits: bits(ipv4),
            ipv6_bits: bits(ipv6),
        }
    }

    /// Returns the number of entries of the index.
    pub(crate) fn entries(&self) -> usize
        ensures size { result ≡ index_size self.now.ipv4_bits self.now.ipv6_bits }
        ensures few { result < 2 ^ 22 }
    {
        if self.ipv4_bits + self.ipv6_bits == 0 {
            return 0;
        }
        (1 << self.ipv4_bits) + (1 << self.ipv6_bits) + 1
    }

    /// Returns the first network that a bucket may have; of the bucket after the last, 4000::/0.
    pub(crate) fn start_of(&self, bucket: usize) -> IpNet
        requires { bucket < index_size self.now.ipv4_bits self.now.ipv6_bits }
        ensures { ip_network result ≡ bucket_start self.now.ipv4_bits self.now.ipv6_bits bucket }
    {
        let ipv4: usize = 1 << self.ipv4_bits;
        if bucket < ipv4 {
            let number = bucket << (32 - self.ipv4_bits);
            return IpNet::V4(Ipv4Net::new_assert(Ipv4Addr::from_bits(number as u32), 0));
        }
        let top = 0x2000_0000 + ((bucket - ipv4) << (29 - self.ipv6_bits));
        let number = (top as u128) << 96;
        IpNet::V6(Ipv6Net::new_assert(Ipv6Addr::from_bits(number), 0))
    }

    /// Returns the bucket of the network; `None` if there is no index, or if the network is not in 2000::/3 as all
    /// buckets of IPv6.
    #[inline(always)]
    pub(crate) fn bucket_of(&self, network: &IpNet) -> Option<usize>
        ensures { IfSome result (λ bucket.
            IsInBucket self.now.ipv4_bits self.now.ipv6_bits bucket (ip_network network.now)) }
    {
        if self.ipv4_bits + self.ipv6_bits == 0 {
            return None;
        }
        match network {
            IpNet::V4(network) => {
                let number = u64::from(ipv4_number(network));
                Some((number >> (32 - self.ipv4_bits)) as usize)
            }
            IpNet::V6(network) => {
                let top = (ipv6_number(network) >> 96) as usize;
                if top < 0x2000_0000 || top >= 0x4000_0000 {
                    return None;
                }
                Some((1 << self.ipv4_bits) + ((top - 0x2000_0000) >> (29 - self.ipv6_bits)))
            }
        }
    }
}
