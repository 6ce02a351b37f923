//! Images of tables: a table is made again from its bytes while memory runs out.
use ipnet::{IpNet, Ipv4Addr, Ipv4Net, Ipv6Addr, Ipv6Net};
use ipnet_routes::RouteTable;
use ipnet_routes::routes::image::TableImageError;
use std::alloc::{AllocError, Global};
use std::test::Fail;
use test_support::memory::{Outcome, grow_stack, is_refused_and_answered};

/// The table of this many networks of each family, each with a value of its own.
fn table_of(alloc: Global, count: u32) -> Result<RouteTable<u32>, AllocError> {
    let mut routes = Vec::new(alloc);
    for place in 0..count.min(1_000) {
        let number = 0x0a00_0000 + place * 0x1000;
        let ipv4 = Ipv4Net::new_assert(Ipv4Addr::from_bits(number), 20);
        let ipv6 = Ipv6Net::new_assert(Ipv6Addr::from_bits(u128::from(number) << 96), 24);
        routes.push((IpNet::V6(ipv6), 2 * place + 1))?;
        routes.push((IpNet::V4(ipv4), 2 * place))?;
    }
    RouteTable::from_routes(alloc, routes)
}

/// How the call ended that makes the table again from its image.
fn restore(alloc: Global, image: &[u8], wanted: &RouteTable<u32>) -> Outcome {
    match RouteTable::from_bytes(alloc, image) {
        Ok(table) if table == *wanted => Outcome::Answered,
        Err(TableImageError::Memory) => Outcome::Refused,
        _ => Outcome::Wrong,
    }
}

#[test]
fn a_table_is_made_again_without_memory(rt: HostRuntime) -> Result<(), Fail> {
    grow_stack(rt.alloc())?;
    let alloc = rt.alloc();
    let table = table_of(alloc, 5)?;
    let image = table.to_bytes(alloc)?;
    let is_right = is_refused_and_answered(alloc, || restore(alloc, image.as_slice(), &table))?;
    assert!(rt; is_right, "from_bytes");
    Ok(())
}
