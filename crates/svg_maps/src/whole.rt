//! The entries and the names of networks that contain the whole map. They are lines of the legend, because an area over
//! the whole map would hide the titles of all its squares.

use crate::entry::MapEntry;
use crate::named::{name_title, shown_name};
use crate::outline_labels::columns_of;
use ipnet::IpNet;
use ipnet_routes::RouteTable;
use std::alloc::{AllocError, Global};

/// How many such entries, and how many such names, the legend has at most.
const MOST_LINES: usize = 8;

/// How many columns of a title fit a line of the smallest page.
const MOST_COLUMNS: u32 = 80;

/// Appends the front of the title that fits, and two dots if that is not all.
fn push_front(line: &mut String, title: &str) -> Result<(), AllocError> {
    let mut columns: u32 = 0;
    for c in title.chars() {
        columns = columns.saturating_add(columns_of(c));
        if columns > MOST_COLUMNS {
            return line.push_str("..");
        }
        line.push(c)?;
    }
    Ok(())
}

/// Appends the line about a network with this title.
fn push_line(alloc: Global, lines: &mut Vec<String>, title: &str) -> Result<(), AllocError> {
    let mut line = String::from_str(alloc, "All of the map is in ")?;
    push_front(&mut line, title)?;
    lines.push(line)?;
    Ok(())
}

/// Returns the lines of the legend about the entries that contain the whole frame: of the last eight, the last first,
/// which are the smallest if the largest come first. Fails only if memory runs out.
///
/// ```text
/// of 10.20.0.0/16 with "10.20.0.0/16: office", in 10.20.0.0/16: "All of the map is in 10.20.0.0/16: office"
/// ```
pub(crate) fn entry_lines(
    alloc: Global,
    frame: &IpNet,
    entries: &[MapEntry],
) -> Result<Vec<String>, AllocError> {
    let mut lines = Vec::new(alloc);
    for index in (0..entries.len()).rev() {
        let entry = &entries[index];
        if lines.len() < MOST_LINES && entry.network.contains(frame) {
            push_line(alloc, &mut lines, entry.title.as_str())?;
        }
    }
    Ok(lines)
}

/// Returns the lines of the legend about the networks with names that are larger than the frame and contain it: of the
/// eight smallest. Fails only if memory runs out.
///
/// ```text
/// of 10.0.0.0/8 with "office" and 10.20.0.0/16 with "Berlin", in 10.20.0.0/16:
/// "All of the map is in 10.0.0.0/8: office"
/// ```
pub(crate) fn name_lines(
    alloc: Global,
    frame: &IpNet,
    names: &RouteTable<&str>,
) -> Result<Vec<String>, AllocError> {
    let mut lines = Vec::new(alloc);
    for route in names.matches(&frame.addr()) {
        if lines.len() < MOST_LINES && route.0.prefix_len() < frame.prefix_len() {
            let name = shown_name(alloc, route.1)?;
            let title = name_title(alloc, &route.0, name.as_str())?;
            push_line(alloc, &mut lines, title.as_str())?;
        }
    }
    Ok(lines)
}
