//! Texts, bytes and masks that may be wrong.
ghost use Rattle.std.specs.Prelude.{◌≡◌, ◌↔◌, Some, IfSome, IsTrue};
ghost use Rattle.ipnet.specs.declared.net.IpNet.{IpNet};
ghost use Rattle.ipnet.specs.declared.parser.Grammar.TheVariants.{Strict};
ghost use Rattle.ipnet.specs.Address.{IPv4, ipv4_address};
ghost use Rattle.ipnet.specs.Bytes.{network_bytes};
ghost use Rattle.ipnet.specs.Masks.{IsNetmaskOf};
ghost use Rattle.ipnet.specs.NetworkOf.{ip_network, ipv4_network};
ghost use Rattle.ipnet.specs.NetworkTexts.{IsNetworkText, WritesNone};

use ipnet::{IpNet, Ipv4Addr, Ipv4Net, ipv4_mask_to_prefix};

/// The network of the text; `None` if the text does not denote a network.
pub fn read(text: &str) -> Option<IpNet>
    ensures some { IfSome result (λ n. IsNetworkText Strict text.now (ip_network n)) }
    ensures complete { (n : IpNet) → IsNetworkText Strict text.now (ip_network n) → result ≡ Some n }
{
    text.parse().ok()
}

/// Whether the text does not denote a network.
pub fn is_bad(text: &str) -> bool
    ensures { IsTrue result ↔ WritesNone (IsNetworkText Strict) text.now }
{
    match text.parse::<IpNet>() {
        Ok(_) => false,
        Err(_) => true,
    }
}

/// The network of the five bytes; `None` if they are not the bytes of a network.
pub fn from_bytes(bytes: &[u8]) -> Option<Ipv4Net>
    ensures { IfSome result (λ n. network_bytes (ipv4_network n) ≡ bytes.now) }
{
    Ipv4Net::from_bytes(bytes).ok()
}

/// The prefix length of the netmask; `None` if the address is not a netmask.
pub fn mask_length(mask: Ipv4Addr) -> Option<u8>
    ensures { IfSome result (λ len. IsNetmaskOf IPv4 (ipv4_address mask).number len) }
{
    ipv4_mask_to_prefix(mask).ok()
}
