//! Trees in memory, and the words for refusals.
use crate::rows::bytes_of;
use lit_dirs::DiscoverFault;
use lit_suite::SuiteFault;
use std::alloc::Global;
use tt_base::{Bytes, Items, NoMemory};
use tt_outside::{ItemKind, MemTree, Node, are_nested};

/// The file of a line: its path, and its text behind an arrow where it isn't empty.
fn file(alloc: Global, line: &str) -> Result<Node, NoMemory> {
    let (path, text) = line.split_once(" => ").unwrap_or((line, ""));
    Ok(Node {
        path: Bytes::from_slice(alloc, path.as_bytes())?,
        kind: ItemKind::File,
        bytes: bytes_of(alloc, text)?,
    })
}

fn nodes_of(alloc: Global, files: &str) -> Result<Items<Node>, NoMemory> {
    let mut nodes = Items::new(alloc);
    for line in files.lines() {
        nodes.push(file(alloc, line)?)?;
    }
    Ok(nodes)
}

/// A tree with the base `/w`, and a file for each line. These calls of it fail. A file above another one counts as want
/// of memory.
pub(crate) fn tree_of(alloc: Global, files: &str, fails: &[u64]) -> Result<MemTree, NoMemory> {
    let nodes = nodes_of(alloc, files)?;
    if !are_nested(alloc, nodes.as_slice())? {
        return Err(NoMemory);
    }
    MemTree::new(alloc, b"/w".as_slice(), nodes, fails)
}

/// A refusal in words, with its path.
fn told(fault: &DiscoverFault) -> (&str, &[u8]) {
    match fault {
        DiscoverFault::Missing(path) => ("missing ", path.as_slice()),
        DiscoverFault::PythonConfig(path) => ("Python ", path.as_slice()),
        DiscoverFault::NoSuite(path) => ("no suite ", path.as_slice()),
        DiscoverFault::BadSuite {
            path,
            fault: SuiteFault::NotToml,
        } => ("no TOML ", path.as_slice()),
        DiscoverFault::BadSuite { path, .. } => ("bad suite ", path.as_slice()),
        DiscoverFault::SuiteTooLarge(path) => ("too large ", path.as_slice()),
        DiscoverFault::TooMany => ("too many tests", b"".as_slice()),
        DiscoverFault::TooManyItems => ("too many items", b"".as_slice()),
        DiscoverFault::NoTests => ("no tests", b"".as_slice()),
        DiscoverFault::TreeFault => ("fault", b"".as_slice()),
        DiscoverFault::NoMemory => ("no memory", b"".as_slice()),
    }
}

/// A refusal as a text.
pub(crate) fn refusal(alloc: Global, fault: &DiscoverFault) -> Result<Bytes, NoMemory> {
    let (kind, path) = told(fault);
    let mut text = Bytes::from_slice(alloc, kind.as_bytes())?;
    text.append(path)?;
    Ok(text)
}
