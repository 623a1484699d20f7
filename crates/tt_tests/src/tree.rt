//! The public calls on a tree in memory, with ample memory.
use crate::rows::{are_bytes, three};
use std::alloc::Global;
use tt_base::{Bytes, Items, NoMemory};
use tt_outside::{Counted, Item, ItemKind, MemTree, Node, Tree, TreeFault, are_nested};

fn node(alloc: Global, path: &str, kind: ItemKind, text: &str) -> Result<Node, NoMemory> {
    Ok(Node {
        path: Bytes::from_slice(alloc, path.as_bytes())?,
        kind,
        bytes: Bytes::from_slice(alloc, text.as_bytes())?,
    })
}

/// Four nodes: two files, a directory that is named, and a link to a directory.
fn four_nodes(alloc: Global) -> Result<Items<Node>, NoMemory> {
    let mut nodes = Items::new(alloc);
    nodes.push(node(alloc, "/w/b/c/d", ItemKind::File, "deep")?)?;
    nodes.push(node(alloc, "/w/a.txt", ItemKind::File, "abc")?)?;
    nodes.push(node(alloc, "/w/b", ItemKind::Dir, "")?)?;
    nodes.push(node(alloc, "/w/link", ItemKind::Other, "")?)?;
    Ok(nodes)
}

/// A tree of them. A file above another node would count as want of memory.
fn small_tree(alloc: Global, fails: &[u64]) -> Result<MemTree, NoMemory> {
    let nodes = four_nodes(alloc)?;
    if !are_nested(alloc, nodes.as_slice())? {
        return Err(NoMemory);
    }
    MemTree::new(alloc, b"/w".as_slice(), nodes, fails)
}

/// A refusal in words.
fn told(alloc: Global, fault: TreeFault) -> Result<Bytes, NoMemory> {
    let text = match fault {
        TreeFault::Missing => "missing",
        TreeFault::NotDirectory => "no directory",
        TreeFault::TooLarge => "too large",
        TreeFault::Failed => "failed",
        TreeFault::NoMemory => "no memory",
    };
    Bytes::from_slice(alloc, text.as_bytes())
}

/// What lists in a line stand behind a name.
fn mark(kind: ItemKind) -> &'static [u8] {
    match kind {
        ItemKind::File => b" ",
        ItemKind::Dir => b"/ ",
        ItemKind::Other => b"@ ",
    }
}

/// Some items in a line, a directory's with `/` and those of neither kind with `@`.
fn line_of(alloc: Global, items: &[Item]) -> Result<Bytes, NoMemory> {
    let mut text = Bytes::new(alloc);
    for item in items {
        text.append(item.name.as_slice())?;
        text.append(mark(item.kind))?;
    }
    Ok(text)
}

/// What a directory lists, or the refusal.
fn listed(alloc: Global, tree: &mut MemTree, path: &str) -> Result<Bytes, NoMemory> {
    match tree.list(alloc, path.as_bytes()) {
        Ok(items) => line_of(alloc, items.as_slice()),
        Err(fault) => told(alloc, fault),
    }
}

/// How many items were counted, and some in a line; or the refusal.
fn counted_told(alloc: Global, counted: &Result<Counted, TreeFault>) -> Result<Bytes, NoMemory> {
    match counted {
        Ok(Counted { count, named }) => {
            let mut text = Bytes::from_slice(alloc, &[b'0' + (*count % 10) as u8, b' '])?;
            text.append(line_of(alloc, named.as_slice())?.as_slice())?;
            Ok(text)
        }
        Err(fault) => told(alloc, *fault),
    }
}

/// How many items a directory has, and in a line those called `b`, `b/c`, `link` and `none`; or the refusal.
fn counted(alloc: Global, tree: &mut MemTree, path: &str) -> Result<Bytes, NoMemory> {
    let counted = tree.count(alloc, path.as_bytes(), &["b", "b/c", "link", "none"]);
    counted_told(alloc, &counted)
}

/// The bytes of a file of up to three bytes, or the refusal.
fn read(alloc: Global, tree: &mut MemTree, path: &str) -> Result<Bytes, NoMemory> {
    match tree.read_all(alloc, path.as_bytes(), 3) {
        Ok(bytes) => Ok(bytes),
        Err(fault) => told(alloc, fault),
    }
}

fn lists(alloc: Global, tree: &mut MemTree, path: &str, due: &str) -> Result<bool, NoMemory> {
    are_bytes(listed(alloc, tree, path), due.as_bytes())
}

fn reads(alloc: Global, tree: &mut MemTree, path: &str, due: &str) -> Result<bool, NoMemory> {
    are_bytes(read(alloc, tree, path), due.as_bytes())
}

#[test]
fn a_directory_lists_each_name_once(rt: HostRuntime) -> Result<(), NoMemory> {
    let alloc = rt.alloc();
    let mut tree = small_tree(alloc, &[])?;
    for (path, due) in [("/w", "b/ a.txt link@ "), ("/", "w/ ")] {
        assert!(rt; lists(alloc, &mut tree, path, due)?, "{path}");
    }
    Ok(())
}

/// A directory, how many items it has, and those of some names; or a path that is none, and the refusal. The fifth
/// call fails.
const COUNTED: &str = "/w => 3 b/ link@ 
/w/b => 1 
/w/a.txt => no directory
/w/none => missing
/w => failed
/ => 1 ";

fn is_counted(alloc: Global, tree: &mut MemTree, row: &str) -> Result<bool, NoMemory> {
    match row.split_once(" => ") {
        Some((path, due)) => are_bytes(counted(alloc, tree, path), due.as_bytes()),
        None => Ok(false),
    }
}

#[test]
fn all_items_count_and_some_are_told(rt: HostRuntime) -> Result<(), NoMemory> {
    let mut tree = small_tree(rt.alloc(), &[4])?;
    for row in COUNTED.lines() {
        assert!(rt; is_counted(rt.alloc(), &mut tree, row)?, "{row}");
    }
    Ok(())
}

/// Whether a path is listed and read as a row says.
fn is_listed_and_read(alloc: Global, tree: &mut MemTree, row: &str) -> Result<bool, NoMemory> {
    match three(row) {
        Some((path, list, bytes)) => {
            Ok(lists(alloc, tree, path, list)? && reads(alloc, tree, path, bytes)?)
        }
        None => Ok(false),
    }
}

/// A path, what its list is, and what its bytes are, row by row. The ninth call fails.
const LISTED: &str = "/w/a.txt => no directory => abc
/w/link => missing => missing
/w/none => missing => missing
/w/b/c/d => no directory => too large
/w => failed => missing
/w/b => c/  => missing";

#[test]
fn only_a_directory_is_listed_and_only_a_file_is_read(rt: HostRuntime) -> Result<(), NoMemory> {
    let mut tree = small_tree(rt.alloc(), &[8])?;
    for row in LISTED.lines() {
        assert!(rt; is_listed_and_read(rt.alloc(), &mut tree, row)?, "{row}");
    }
    Ok(())
}
