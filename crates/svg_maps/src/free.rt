//! The free blocks of a map: their outlines, and the lines of the legend about them.
ghost use Rattle.std.specs.Prelude.{◌≡◌, ◌+◌, ◌≤◌, ◌++◌, All, IfOk, OnOk, map, take, string_bytes};
ghost use Rattle.std.specs.List.{AllZip};
ghost use Rattle.ipnet_base.specs.Address.{width};
ghost use Rattle.ipnet_base.specs.Blocks.{AreMaximalBlocks};
ghost use Rattle.ipnet_base.specs.Network.{IsSubnetOf};
ghost use Rattle.ipnet.specs.NetworkOf.{ip_network};
ghost use Rattle.ipnet_sets.specs.Members.{IsMember};
ghost use Rattle.ipnet_bars.specs.Summaries.{IsFree};
ghost use Rattle.svg_maps.specs.FreeOutlines.{with_len, largest_first, free_class, free_label, free_comment};
ghost use Rattle.svg_maps.specs.FreeOutlines.{IsFreeOutline, AreFreeOutlines};

use crate::outline::{Outline, OutlineClass};
use ipnet::IpNet;
use ipnet_bars::{free_in, largest_of};
use ipnet_maps::rectangle_in;
use ipnet_sets::IpSet;
use std::alloc::{AllocError, Global};

/// How many outlines of one class a map has at most.
pub(crate) const MOST: usize = 1_500;

/// Appends the blocks of this prefix length.
fn push_with_len(list: &mut Vec<IpNet>, blocks: &[IpNet], len: u8) -> Result<(), AllocError>
    ensures { OnOk result (map ip_network list.new.items
        ≡ map ip_network list.old.items ++ with_len (map ip_network blocks.now) len) }
{
    for block in blocks {
        if block.prefix_len() == len {
            list.push(*block)?;
        }
    }
    Ok(())
}

/// The blocks that are at most `depth` bits longer than the frame, the largest first.
pub(crate) fn largest_blocks(
    alloc: Global,
    blocks: &[IpNet],
    frame: &IpNet,
    depth: u8,
) -> Result<Vec<IpNet>, AllocError>
    requires { (ip_network frame.now).prefix_len + depth ≤ width (ip_network frame.now).family }
    ensures { IfOk result (λ list. map ip_network list.items
        ≡ largest_first (map ip_network blocks.now) (ip_network frame.now).prefix_len (depth + 1)) }
{
    let mut list = Vec::new(alloc);
    let first = frame.prefix_len();
    let end = first + depth + 1;
    for len in first..end {
        push_with_len(&mut list, blocks, len)?;
    }
    Ok(list)
}

/// The class of the outline of a free block.
fn free_class(is_largest: bool) -> OutlineClass
    ensures { result ≡ free_class is_largest }
{
    if is_largest {
        OutlineClass::LargestFree
    } else {
        OutlineClass::Free
    }
}

/// The text in a free block.
fn free_label(alloc: Global, block: &IpNet, is_largest: bool) -> Result<String, AllocError>
    ensures { IfOk result (λ label. string_bytes label ≡ free_label is_largest (ip_network block.now)) }
{
    if is_largest {
        return String::from_str(alloc, block.to_text().as_str());
    }
    let len = block.prefix_len();
    format!(in alloc; "/{len}")
}

/// The text above the label of a free block.
fn free_comment(is_largest: bool) -> &'static str
    ensures { result.now ≡ free_comment is_largest }
{
    if is_largest { "largest free block" } else { "" }
}

/// The outline of the free block, which may be the largest.
fn free_outline(
    alloc: Global,
    frame: &IpNet,
    depth: u8,
    block: &IpNet,
    is_largest: bool,
) -> Result<Outline, AllocError>
    requires few { depth ≤ 20 }
    requires fits { (ip_network frame.now).prefix_len + depth ≤ width (ip_network frame.now).family }
    requires inside { IsSubnetOf (ip_network block.now) (ip_network frame.now) }
    requires large { (ip_network block.now).prefix_len ≤ (ip_network frame.now).prefix_len + depth }
    ensures { IfOk result (IsFreeOutline is_largest (ip_network frame.now) depth (ip_network block.now)) }
{
    let label = free_label(alloc, block, is_largest)?;
    let comment = String::from_str(alloc, free_comment(is_largest))?;
    Ok(Outline {
        class: free_class(is_largest),
        rectangle: rectangle_in(frame, depth, block),
        title: None,
        label,
        comment,
    })
}

/// The outlines of the free blocks, or of the largest.
fn free_outlines(
    alloc: Global,
    frame: &IpNet,
    depth: u8,
    blocks: &[IpNet],
    is_largest: bool,
) -> Result<Vec<Outline>, AllocError>
    requires few { depth ≤ 20 }
    requires fits { (ip_network frame.now).prefix_len + depth ≤ width (ip_network frame.now).family }
    requires inside { All (λ n. IsSubnetOf (ip_network n) (ip_network frame.now)) blocks.now }
    requires large { All (λ n. (ip_network n).prefix_len ≤ (ip_network frame.now).prefix_len + depth) blocks.now }
    ensures { IfOk result (λ list.
        AllZip (IsFreeOutline is_largest (ip_network frame.now) depth) (map ip_network blocks.now) list.items) }
{
    let mut outlines = Vec::new(alloc);
    for block in blocks {
        let outline = free_outline(alloc, frame, depth, block, is_largest)?;
        outlines.push(outline)?;
    }
    Ok(outlines)
}

/// Returns the outlines of the largest of the free blocks, and then once more the outline of the first of them.
pub(crate) fn outlines_of(
    alloc: Global,
    frame: &IpNet,
    depth: u8,
    set: &IpSet,
    free: &[IpNet],
) -> Result<Vec<Outline>, AllocError>
    requires few { depth ≤ 20 }
    requires fits { (ip_network frame.now).prefix_len + depth ≤ width (ip_network frame.now).family }
    requires blocks { AreMaximalBlocks (IsFree (IsMember set.now) (ip_network frame.now)) 0 (map ip_network free.now) }
    ensures { IfOk result (λ list. AreFreeOutlines (IsMember set.now) (ip_network frame.now) depth list.items) }
{
    let list = largest_blocks(alloc, free, frame, depth)?;
    let all = list.as_slice();
    let (front, _) = all.split_at(MOST.min(all.len()));
    let (first, _) = all.split_at(usize::min(1, all.len()));
    let mut outlines = free_outlines(alloc, frame, depth, front, false)?;
    let mut largest = free_outlines(alloc, frame, depth, first, true)?;
    outlines.append(&mut largest)?;
    Ok(outlines)
}
