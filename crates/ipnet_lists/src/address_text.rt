//! The text of an address of either family.
ghost use Rattle.std.specs.Prelude.{◌≡◌};
ghost use Rattle.ipnet_base.specs.Address.{ip_address};
ghost use Rattle.ipnet.specs.CanonicalTexts.{address_text};

use arrayvec::ArrayString;
use ipnet::print::IPV6_ADDR_LEN;
use ipnet::{IpAddr, ipv4_addr_text, ipv6_addr_text};

/// Returns the text of the address, as `ipv4_addr_text` and `ipv6_addr_text` do. Allocates nothing.
///
/// ```text
/// 10.0.0.1, 2001:db8::1
/// ```
pub fn ip_addr_text(address: IpAddr) -> ArrayString<IPV6_ADDR_LEN>
    ensures { let a = ip_address address in result.bytes ≡ address_text a.family a.number }
{
    match address {
        IpAddr::V4(address) => {
            let mut text = ArrayString::new();
            text.push_str(ipv4_addr_text(address).as_str());
            text
        }
        IpAddr::V6(address) => ipv6_addr_text(address),
    }
}
