//! How a tree in memory looks at its nodes.
ghost use Rattle.std.specs.Prelude.{◌≡◌, ◌==◌, IfOk, OnOk, filter, map, position};
ghost use Rattle.std.specs.Option.{option_map};
ghost use Rattle.tt_outside.specs.Listing.{first_part, has_name, item_named, item_of, listed, part_behind, with_item};
ghost use Rattle.tt_outside.specs.TreeMap.{are_nested, front_of, goes_on, has_below, is_named, is_nested, kind_at, node_at};

use crate::tree::{Item, ItemKind, Node};
use std::alloc::Global;
use tt_base::{Bytes, Items, NoMemory};

/// How the paths below a directory begin.
fn front_of(alloc: Global, dir: &[u8]) -> Result<Bytes, NoMemory>
    ensures { IfOk result (λ front. front ≡ front_of dir.now) }
{
    let mut front = Bytes::from_slice(alloc, dir)?;
    if dir != b"/".as_slice() {
        front.append(b"/".as_slice())?;
    }
    Ok(front)
}

/// Whether a path begins so, and goes on behind it.
fn goes_on(front: &[u8], path: &[u8]) -> bool
    ensures { result ≡ goes_on front.now path.now }
{
    path.starts_with(front) && front.len() < path.len()
}

/// The first node of a path.
pub(crate) fn node_at<'a>(nodes: &'a [Node], path: &[u8]) -> Option<&'a Node>
    ensures { option_map (λ node. node.now) result ≡ node_at nodes.now path.now }
{
    nodes.iter().find(|node| node.path.as_slice() == path)
}

/// Whether a node lies below the path.
fn has_below(alloc: Global, nodes: &[Node], path: &[u8]) -> Result<bool, NoMemory>
    ensures { IfOk result (λ below. below ≡ has_below nodes.now path.now) }
{
    let front = front_of(alloc, path)?;
    let front = front.as_slice();
    Ok(
        nodes
            .iter()
            .any(|node| goes_on(front, node.path.as_slice())),
    )
}

/// What stands at a path.
pub(crate) fn kind_at(
    alloc: Global,
    nodes: &[Node],
    path: &[u8],
) -> Result<Option<ItemKind>, NoMemory>
    ensures { IfOk result (λ kind. kind ≡ kind_at nodes.now path.now) }
{
    if let Some(node) = node_at(nodes, path) {
        return Ok(Some(node.kind));
    }
    if has_below(alloc, nodes, path)? {
        Ok(Some(ItemKind::Dir))
    } else {
        Ok(None)
    }
}

/// Whether only directories lie above other nodes, as a tree in memory asks of its nodes.
pub fn are_nested(alloc: Global, nodes: &[Node]) -> Result<bool, NoMemory>
    ensures { IfOk result (λ nested. nested ≡ are_nested nodes.now) }
{
    for node in nodes {
        if !is_nested(alloc, nodes, node)? {
            return Ok(false);
        }
    }
    Ok(true)
}

/// Whether a node is a directory, or no node lies below it.
fn is_nested(alloc: Global, nodes: &[Node], node: &Node) -> Result<bool, NoMemory>
    ensures { IfOk result (λ nested. nested ≡ is_nested nodes.now node.now) }
{
    if matches!(node.kind, ItemKind::Dir) {
        return Ok(true);
    }
    Ok(!has_below(alloc, nodes, node.path.as_slice())?)
}

/// A path up to its first slash.
fn first_part(path: &[u8]) -> &[u8]
    ensures { result.now ≡ first_part path.now }
{
    match slash_in(path) {
        Some(at) => &path[..at],
        None => path,
    }
}

/// Where a path's first slash stands.
fn slash_in(path: &[u8]) -> Option<usize>
    ensures { result ≡ position (λ byte. byte == 47) path.now }
{
    path.iter().position(|byte| *byte == b'/')
}

/// The part of a path behind the front of a directory.
fn part_behind<'a>(front: &[u8], path: &'a [u8]) -> Option<&'a [u8]>
    ensures { option_map (λ part. part.now) result ≡ part_behind front.now path.now }
{
    if !goes_on(front, path) {
        return None;
    }
    let part = first_part(&path[front.len()..]);
    if part.is_empty() { None } else { Some(part) }
}

/// The item of a name, where something stands there.
fn item_named(
    alloc: Global,
    nodes: &[Node],
    front: &[u8],
    name: &[u8],
) -> Result<Option<Item>, NoMemory>
    ensures { IfOk result (λ item. item ≡ item_named nodes.now front.now name.now) }
{
    let mut path = Bytes::from_slice(alloc, front)?;
    path.append(name)?;
    match kind_at(alloc, nodes, path.as_slice())? {
        Some(kind) => {
            let name = Bytes::from_slice(alloc, name)?;
            Ok(Some(Item { name, kind }))
        }
        None => Ok(None),
    }
}

/// The item that a node gives.
fn item_of(
    alloc: Global,
    nodes: &[Node],
    front: &[u8],
    node: &Node,
) -> Result<Option<Item>, NoMemory>
    ensures { IfOk result (λ item. item ≡ item_of nodes.now front.now node.now) }
{
    match part_behind(front, node.path.as_slice()) {
        Some(name) => item_named(alloc, nodes, front, name),
        None => Ok(None),
    }
}

fn has_name(items: &[Item], name: &[u8]) -> bool
    ensures { result ≡ has_name items.now name.now }
{
    items.iter().any(|item| item.name.as_slice() == name)
}

/// Adds an item, if its name is new.
fn add_item(items: &mut Items<Item>, item: Option<Item>) -> Result<(), NoMemory>
    ensures { OnOk result (items.new ≡ with_item items.old item) }
{
    match item {
        None => Ok(()),
        Some(item) => {
            if has_name(items.as_slice(), item.name.as_slice()) {
                return Ok(());
            }
            items.push(item)
        }
    }
}

/// The items of a directory.
pub(crate) fn list_nodes(alloc: Global, nodes: &[Node], dir: &[u8]) -> Result<Items<Item>, NoMemory>
    ensures { IfOk result (λ items. items ≡ listed nodes.now dir.now) }
{
    let front = front_of(alloc, dir)?;
    let mut items = Items::new(alloc);
    for node in nodes {
        let item = item_of(alloc, nodes, front.as_slice(), node)?;
        add_item(&mut items, item)?;
    }
    Ok(items)
}

/// Whether an item has one of these names.
fn is_named(names: &[&str], item: &Item) -> bool
    ensures { result ≡ is_named (map (λ name. name.now) names.now) item.now }
{
    for name in names {
        if item.name.as_slice() == name.as_bytes() {
            return true;
        }
    }
    false
}

/// Those of some items that have one of these names.
pub(crate) fn keep_named(items: Items<Item>, names: &[&str]) -> Items<Item>
    ensures { result ≡ filter (is_named (map (λ name. name.now) names.now)) items }
{
    let mut items = items.into_vec();
    items.retain(|item| is_named(names, item));
    Items::from_vec(items)
}
