//! What IANA's registries of special-purpose addresses say about a network.
ghost use Rattle.std.specs.Prelude.{◌≡◌, ◌++◌, ◌↔◌, [], ◌∷◌, All, List, OnOk, IfOk, IsTrue};
ghost use Rattle.ipnet_base.specs.Address.{address_at, ip_address};
ghost use Rattle.ipnet_base.specs.Network.{AreDisjoint, IsNetwork};
ghost use Rattle.ipnet.specs.NetworkOf.{ip_network};
ghost use Rattle.ipnet_info.specs.Registries.{registry, ArePurposes};
ghost use Rattle.ipnet_info.specs.Registries as registries;
ghost use Rattle.ipnet_info.specs.RegistryRows.{block_of, blocks_of, purposes_of};

use crate::registry::{Row, ipv4_rows, ipv6_rows};
use ipnet::value_laws::ip;
use ipnet::{IpAddr, IpNet, Ipv4Addr, Ipv6Addr};
use std::alloc::{AllocError, Global};

/// A row of a registry of special-purpose addresses whose block shares addresses with a network.
///
/// ```text
/// for 10.1.0.0/16: block 10.0.0.0/8, name "Private-Use", rfc "RFC 1918", is_whole true
/// ```
#[derive(Clone, Copy)]
pub struct SpecialPurpose {
    /// The block.
    pub block: IpNet,
    /// The name of the block in the registry.
    pub name: &'static str,
    /// The RFC that assigns the block.
    pub rfc: &'static str,
    /// Whether all addresses of the network are in the block.
    pub is_whole: bool,
}

/// Returns the first address of the row's block, in the network's family.
fn first_address(network: &IpNet, row: &Row) -> IpAddr
    requires { IsNetwork (block_of (ip_network network.now).family row.now).network }
    ensures { ip_address result ≡ address_at (ip_network network.now).family row.now.0 }
{
    match network {
        IpNet::V4(_) => IpAddr::V4(Ipv4Addr::from_bits(row.0 as u32)),
        IpNet::V6(_) => IpAddr::V6(Ipv6Addr::from_bits(row.0)),
    }
}

/// Returns the block of the row, in the network's family.
fn block_network(network: &IpNet, row: &Row) -> IpNet
    requires { IsNetwork (block_of (ip_network network.now).family row.now).network }
    ensures { ip_network result ≡ (block_of (ip_network network.now).family row.now).network }
{
    IpNet::new_assert(first_address(network, row), row.1)
}

/// Whether the networks share no address.
fn is_apart(network: &IpNet, block: &IpNet) -> bool
    ensures { IsTrue result ↔ AreDisjoint (ip_network network.now) (ip_network block.now) }
{
    ip::nested_or_disjoint(network, block);
    !network.contains(block) && !block.contains(network)
}

/// Appends the row if its block shares an address with the network. Fails only if memory runs out.
fn push_purpose(
    network: &IpNet,
    row: &Row,
    purposes: &mut Vec<SpecialPurpose>,
) -> Result<(), AllocError>
    requires { IsNetwork (block_of (ip_network network.now).family row.now).network }
    ensures { let n = ip_network network.now in OnOk result ((more : List registries.SpecialPurpose)
        × (purposes_of purposes.new.items ≡ purposes_of purposes.old.items ++ more)
        × ArePurposes n (block_of n.family row.now ∷ []) more) }
{
    let block = block_network(network, row);
    if is_apart(network, &block) {
        return Ok(());
    }
    purposes.push(SpecialPurpose {
        block,
        name: row.2,
        rfc: row.3,
        is_whole: block.contains(network),
    })?;
    Ok(())
}

/// Appends the rows whose blocks share an address with the network. Fails only if memory runs out.
fn push_purposes(
    network: &IpNet,
    rows: &[Row],
    purposes: &mut Vec<SpecialPurpose>,
) -> Result<(), AllocError>
    requires { All (λ block. IsNetwork block.network) (blocks_of (ip_network network.now).family rows.now) }
    ensures { let n = ip_network network.now in OnOk result ((more : List registries.SpecialPurpose)
        × (purposes_of purposes.new.items ≡ purposes_of purposes.old.items ++ more)
        × ArePurposes n (blocks_of n.family rows.now) more) }
{
    for row in rows {
        push_purpose(network, row, purposes)?;
    }
    Ok(())
}

/// Returns the rows of IANA's registry of special-purpose addresses whose blocks share an address with the network, in
/// the order of the registry (RFC 6890). The newest RFC in the registries is RFC 9665, of June 2025. Host bits of the
/// network do not matter. Fails only if memory runs out.
///
/// ```text
/// 10.1.0.0/16:     10.0.0.0/8 Private-Use, as a whole
/// 192.0.0.8/32:    192.0.0.0/24 IETF Protocol Assignments and 192.0.0.8/32 IPv4 dummy address, as a whole
/// 192.168.0.0/15:  192.168.0.0/16 Private-Use, in part
/// 8.8.8.0/24:      nothing
/// ```
pub fn special_purposes(alloc: Global, network: &IpNet) -> Result<Vec<SpecialPurpose>, AllocError>
    ensures { let n = ip_network network.now in
        IfOk result (λ list. ArePurposes n (registry n.family) (purposes_of list.items)) }
{
    let mut purposes = Vec::new(alloc);
    match network {
        IpNet::V4(_) => push_purposes(network, ipv4_rows(), &mut purposes)?,
        IpNet::V6(_) => push_purposes(network, ipv6_rows(), &mut purposes)?,
    }
    Ok(purposes)
}
