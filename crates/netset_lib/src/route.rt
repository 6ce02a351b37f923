//! For each entry of a list the longest network of another list that holds the whole of it.
ghost use Rattle.std.specs.Prelude.{◌≡◌, ◌↔◌, ◌++◌, IsTrue, IfOk, OnOk, string_bytes};
ghost use Rattle.ipnet_base.specs.Address.{ip_address};
ghost use Rattle.ipnet_base.specs.Network.{InBlock, truncation};
ghost use Rattle.ipnet.specs.NetworkOf.{ip_network};
ghost use Rattle.ipnet_routes.specs.Routes.{ip_networks};
ghost use Rattle.ipnet_lists.specs.EntryOf.{entry_range};
ghost use Rattle.ipnet_lists.specs.Reading.{WasMadeOf};
ghost use Rattle.netset_lib.specs.Routing.{IsTruncatedOne, AddsMaximal, AreTableNetworks, InTable, HasEnds};
ghost use Rattle.netset_lib.specs.Routing.{IsLongestIfAny, route_line};

use ipnet::{IpAddr, IpNet};
use ipnet_lists::{Collector, Entry, ReadFailure, Reading};
use ipnet_routes::RouteTable;
use std::alloc::AllocError;
use std::io::Read;

/// Puts the fewest networks with the addresses of the entry at the end of the routes.
fn push_entry(routes: &mut Vec<(IpNet, ())>, entry: Entry) -> Result<(), AllocError>
    ensures { OnOk result
        (AddsMaximal (ip_networks routes.old.items) (entry_range entry) (ip_networks routes.new.items)) }
{
    for network in entry.walk() {
        routes.push((network, ()))?;
    }
    Ok(())
}

/// Collects the networks of entries.
#[derive(Drop)]
struct Networks;

impl Collector<Vec<(IpNet, ())>> for Networks {
    ghost is_made = { λ _ routes. AreTableNetworks (IsTruncatedOne (ip_networks routes.items)) };

    fn push(&self, made: &mut Vec<(IpNet, ())>, _: &[u8], entry: Entry) -> Result<(), AllocError> {
        push_entry(made, entry)
    }
}

/// Reads one list into a table of the networks of its entries.
pub(crate) fn read_table<R: Read>(
    reading: &mut Reading,
    input: &mut R,
) -> Result<RouteTable<()>, ReadFailure>
    ensures { IfOk result (λ table. WasMadeOf (R.remaining input.old) (R.remaining input.new) reading.old reading.new
        (AreTableNetworks (InTable table))) }
{
    let alloc = reading.lines.alloc;
    let mut routes = Vec::new(alloc);
    reading.read_list(input, &Networks, &mut routes)?;
    Ok(RouteTable::from_routes(alloc, routes)?)
}

/// Whether the network holds the address and is one of the table's.
fn is_holder<V>(table: &RouteTable<V>, network: &IpNet, address: &IpAddr) -> bool
    ensures { IsTrue result ↔ (InBlock (ip_network network.now) (ip_address address.now)
        × InTable table.now (truncation (ip_network network.now))) }
{
    network.contains(address) && table.get(network).is_some()
}

/// The longest network of the table that holds the first and the last address of the entry: the longest that holds the
/// first one, or the nearest around it that holds the last one too.
pub(crate) fn longest_holding<V>(table: &RouteTable<V>, entry: Entry) -> Option<IpNet>
    ensures { IsLongestIfAny (InTable table.now) (HasEnds (entry_range entry)) result }
{
    let (first, last) = entry.ends();
    let Some(route) = table.longest_match(&first) else {
        return None;
    };
    let mut network = route.0;
    'climb: while !is_holder(table, &network, &last) {
        match network.supernet() {
            Some(around) => network = around,
            None => return None,
        }
    }
    Some(network)
}

/// Appends the line of the entry that is written so.
pub(crate) fn push_line(
    text: &mut String,
    written: &str,
    network: Option<IpNet>,
) -> Result<(), AllocError>
    ensures { OnOk result (string_bytes text.new ≡ string_bytes text.old ++ route_line written.now network) }
{
    text.push_str(written)?;
    match network {
        Some(network) => {
            text.push_str(" ")?;
            text.push_str(network.to_text().as_str())?;
        }
        None => text.push_str(" -")?,
    }
    text.push_str("\n")
}
