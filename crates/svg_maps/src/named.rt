//! The networks with names on a map: their outlines.
ghost use Rattle.std.specs.Prelude.{◌≡◌, ◌+◌, ◌≤◌, ◌++◌, All, Contains, IfOk, OnOk, map, take, chars, encode_utf8};
ghost use Rattle.std.specs.Prelude.{string_bytes};
ghost use Rattle.std.specs.List.{AllZip};
ghost use Rattle.ipnet_base.specs.Address.{width};
ghost use Rattle.ipnet_base.specs.Network.{Network, IsSubnetOf};
ghost use Rattle.ipnet.specs.CanonicalTexts.{canonical_text};
ghost use Rattle.ipnet.specs.NetworkOf.{ip_network};
ghost use Rattle.ipnet_routes.specs.Routes.{ip_networks};
ghost use Rattle.ipnet_routes.specs.RoutesOf.{routes_of};
ghost use Rattle.svg_maps.specs.FreeOutlines.{largest_first};
ghost use Rattle.svg_maps.specs.NamedOutlines.{blank_for_tab, spaced_text, IsShownName, name_part};
ghost use Rattle.svg_maps.specs.NamedOutlines.{IsNamedOutline, HasName, AreNamedOutlines};

use crate::free::{MOST, largest_blocks};
use crate::outline::{Outline, OutlineClass};
use ipnet::IpNet;
use ipnet_bars::shorten;
use ipnet_maps::rectangle_in;
use ipnet_routes::RouteTable;
use std::alloc::{AllocError, Global};

/// Appends the character, or a blank for a tab.
fn push_spaced(text: &mut String, c: char) -> Result<(), AllocError>
    ensures { OnOk result (string_bytes text.new ≡ string_bytes text.old ++ encode_utf8 (blank_for_tab c)) }
{
    if c == '\t' {
        return text.push(' ');
    }
    text.push(c)
}

/// Appends the text, with a blank for each tab.
fn push_without_tabs(text: &mut String, value: &str) -> Result<(), AllocError>
    ensures { OnOk result (string_bytes text.new ≡ string_bytes text.old ++ spaced_text (chars value.now)) }
{
    for c in value.chars() {
        push_spaced(text, c)?;
    }
    Ok(())
}

/// The name as a map shows it: cut if it has more than 100 bytes, and with a blank for each tab.
pub(crate) fn shown_name(alloc: Global, name: &str) -> Result<String, AllocError>
    ensures { IfOk result (λ text. IsShownName name.now (string_bytes text)) }
{
    let short = shorten(alloc, name)?;
    let mut text = String::new(alloc);
    push_without_tabs(&mut text, short.as_str())?;
    Ok(text)
}

/// The title of the network with this name, which may be empty.
pub(crate) fn name_title(alloc: Global, network: &IpNet, name: &str) -> Result<String, AllocError>
    ensures { IfOk result (λ title. string_bytes title
        ≡ canonical_text (ip_network network.now) ++ name_part name.now) }
{
    let mut title = String::from_str(alloc, network.to_text().as_str())?;
    if name.is_empty() {
        return Ok(title);
    }
    title.push_str(": ")?;
    title.push_str(name)?;
    Ok(title)
}

/// The outline of the network, which has a name.
fn named_outline(
    alloc: Global,
    frame: &IpNet,
    depth: u8,
    names: &RouteTable<&str>,
    network: &IpNet,
) -> Result<Outline, AllocError>
    requires few { depth ≤ 20 }
    requires fits { (ip_network frame.now).prefix_len + depth ≤ width (ip_network frame.now).family }
    requires inside { IsSubnetOf (ip_network network.now) (ip_network frame.now) }
    requires large { (ip_network network.now).prefix_len ≤ (ip_network frame.now).prefix_len + depth }
    requires named { HasName (routes_of names.now) (ip_network network.now) }
    ensures { IfOk result
        (IsNamedOutline (routes_of names.now) (ip_network frame.now) depth (ip_network network.now)) }
{
    let Some(name) = names.get(network) else {
        unreachable!();
    };
    let label = shown_name(alloc, name)?;
    let title = name_title(alloc, network, label.as_str())?;
    let rectangle = rectangle_in(frame, depth, network);
    Ok(Outline {
        class: OutlineClass::Named,
        rectangle,
        title: Some(title),
        label,
        comment: String::new(alloc),
    })
}

/// The outlines of the networks, which have names.
fn outlines_in_order(
    alloc: Global,
    frame: &IpNet,
    depth: u8,
    names: &RouteTable<&str>,
    networks: &[IpNet],
) -> Result<Vec<Outline>, AllocError>
    requires few { depth ≤ 20 }
    requires fits { (ip_network frame.now).prefix_len + depth ≤ width (ip_network frame.now).family }
    requires inside { All (λ n. IsSubnetOf (ip_network n) (ip_network frame.now)) networks.now }
    requires large { All (λ n. (ip_network n).prefix_len ≤ (ip_network frame.now).prefix_len + depth) networks.now }
    requires named { All (λ n. HasName (routes_of names.now) (ip_network n)) networks.now }
    ensures { IfOk result (λ list. AllZip (IsNamedOutline (routes_of names.now) (ip_network frame.now) depth)
        (map ip_network networks.now) list.items) }
{
    let mut outlines = Vec::new(alloc);
    for network in networks {
        let outline = named_outline(alloc, frame, depth, names, network)?;
        outlines.push(outline)?;
    }
    Ok(outlines)
}

/// The outlines of the largest of the networks, which have names.
fn largest_outlines(
    alloc: Global,
    frame: &IpNet,
    depth: u8,
    names: &RouteTable<&str>,
    networks: &[IpNet],
) -> Result<Vec<Outline>, AllocError>
    requires few { depth ≤ 20 }
    requires fits { (ip_network frame.now).prefix_len + depth ≤ width (ip_network frame.now).family }
    requires inside { (n : Network) → Contains (map ip_network networks.now) n → IsSubnetOf n (ip_network frame.now) }
    requires named { (n : Network) → Contains (map ip_network networks.now) n → HasName (routes_of names.now) n }
    ensures { let n = ip_network frame.now in
        IfOk result (λ list. AllZip (IsNamedOutline (routes_of names.now) n depth)
        (take 1500 (largest_first (map ip_network networks.now) n.prefix_len (depth + 1))) list.items) }
{
    let list = largest_blocks(alloc, networks, frame, depth)?;
    let all = list.as_slice();
    let (front, _) = all.split_at(MOST.min(all.len()));
    outlines_in_order(alloc, frame, depth, names, front)
}

/// The networks of the routes.
fn listed_networks(alloc: Global, routes: &[(IpNet, &str)]) -> Result<Vec<IpNet>, AllocError>
    ensures { IfOk result (λ list. map ip_network list.items ≡ ip_networks routes.now) }
{
    let mut list = Vec::new(alloc);
    for route in routes {
        list.push(route.0)?;
    }
    Ok(list)
}

/// Returns the outlines of the largest of the networks that have names and are in the frame. Fails only if memory runs
/// out.
///
/// ```text
/// of 10.20.96.0/20 with "guests" and 10.20.0.0/18 with "Berlin", in 10.20.0.0/16: the outline of 10.20.0.0/18 with the
///     title "10.20.0.0/18: Berlin" and the label "Berlin", and then the one of 10.20.96.0/20
/// ```
pub(crate) fn named_outlines(
    alloc: Global,
    frame: &IpNet,
    depth: u8,
    names: &RouteTable<&str>,
) -> Result<Vec<Outline>, AllocError>
    requires few { depth ≤ 20 }
    requires fits { (ip_network frame.now).prefix_len + depth ≤ width (ip_network frame.now).family }
    ensures { IfOk result (λ list.
        AreNamedOutlines (routes_of names.now) (ip_network frame.now) depth list.items) }
{
    let routes = names.within(frame);
    let networks = listed_networks(alloc, routes)?;
    largest_outlines(alloc, frame, depth, names, networks.as_slice())
}
