//! The system's folders.
use crate::paths::own_path;
use std::alloc::{AllocError, Global};
use std::fs::{self, Files};
use std::io;
use std::os::unix;
use std::process::{self, Abort};
use tt_base::Bytes;
use tt_outside::{Item, ItemKind, Tree};
use tt_real::StdTree;

/// Makes a folder with a file `a`, a link to it and a link to the folder itself.
fn make(files: &impl Files, alloc: Global, folder: &str) -> io::Result<()> {
    fs::create_dir(files, folder)?;
    make_file(files, alloc, folder)?;
    make_link(files, alloc, "a", folder, "a.link")?;
    make_link(files, alloc, folder, folder, "link")
}

fn make_file(files: &impl Files, alloc: Global, folder: &str) -> io::Result<()> {
    let file = format!(in alloc; "{folder}/a")?;
    fs::write(files, file.as_str(), "abc")
}

/// Makes a link to a target, with a name in a folder.
fn make_link(
    files: &impl Files,
    alloc: Global,
    target: &str,
    folder: &str,
    name: &str,
) -> io::Result<()> {
    let link = format!(in alloc; "{folder}/{name}")?;
    unix::fs::symlink(files, target, link.as_str())
}

/// Whether an item is the file `a` or the link to it, or of neither kind and named otherwise: a link to a folder is neither.
fn has_its_kind(item: &Item) -> bool {
    match item.kind {
        ItemKind::File => item.name.as_slice().starts_with(b"a"),
        ItemKind::Other => item.name.as_slice() == b"link".as_slice(),
        ItemKind::Dir => false,
    }
}

/// Whether a folder lists three items of their kinds.
fn lists_three<T: Tree>(alloc: Global, tree: &mut T, folder: &str) -> bool {
    match tree.list(alloc, folder.as_bytes()) {
        Ok(items) => match items.as_slice() {
            [one, same, other] => has_its_kind(one) && has_its_kind(same) && has_its_kind(other),
            _ => false,
        },
        Err(_) => false,
    }
}

/// Whether a folder has three items, and of these names those two, of their kinds.
fn counts_three<T: Tree>(alloc: Global, tree: &mut T, folder: &str) -> bool {
    match tree.count(alloc, folder.as_bytes(), &["link", "b", "a", "."]) {
        Ok(few) => match few.named.as_slice() {
            [one, other] => few.count == 3 && has_its_kind(one) && has_its_kind(other),
            _ => false,
        },
        Err(_) => false,
    }
}

/// Whether a path below the folder is neither listed and counted nor read up to two bytes, for these reasons.
fn is_refused<T: Tree>(
    alloc: Global,
    tree: &mut T,
    folder: &str,
    row: &str,
) -> Result<bool, AllocError> {
    let Some((rest, due)) = row.split_once(" => ") else {
        return Ok(false);
    };
    let path = format!(in alloc; "{folder}{rest}")?;
    let listed = tree.list(alloc, path.as_str().as_bytes()).err();
    let counted = tree.count(alloc, path.as_str().as_bytes(), &["a"]).err();
    let read = tree.read_all(alloc, path.as_str().as_bytes(), 2).err();
    Ok(counted == listed && format!(in alloc; "{listed:?} {read:?}")?.as_str() == due)
}

/// Whether a file has three bytes, which are read up to a limit of as many.
fn is_read<T: Tree>(
    alloc: Global,
    tree: &mut T,
    folder: &str,
    name: &str,
) -> Result<bool, AllocError> {
    let path = format!(in alloc; "{folder}/{name}")?;
    match tree.read_all(alloc, path.as_str().as_bytes(), 3) {
        Ok(bytes) => Ok(bytes.as_slice() == b"abc".as_slice()),
        Err(_) => Ok(false),
    }
}

/// What is behind the folder in a path, and why it is not listed and not read.
const REFUSED: &str = "/a => Some(NotDirectory) Some(TooLarge)
/link => Some(Missing) Some(Missing)
/none => Some(Missing) Some(Missing)
/a/b => Some(Missing) Some(Missing)
/\0 => Some(Failed) Some(Failed)
 => None Some(Missing)";

fn see<T: Tree>(
    rt: &impl Abort,
    alloc: Global,
    tree: &mut T,
    folder: &str,
) -> Result<(), AllocError> {
    assert!(rt; tree.base() == folder.as_bytes());
    assert!(rt; lists_three(alloc, tree, folder));
    assert!(rt; counts_three(alloc, tree, folder));
    for row in REFUSED.lines() {
        assert!(rt; is_refused(alloc, tree, folder, row)?, "{row:?}");
    }
    for name in ["a", "a.link", "link/a"] {
        assert!(rt; is_read(alloc, tree, folder, name)?, "{name}");
    }
    Ok(())
}

/// Whether the link is read where the path that words are joined to, as if it were the current directory, is a front of its path.
fn is_beside<R: Files>(rt: R, alloc: Global, folder: &str) -> Result<bool, AllocError>
where
    R: Drop,
{
    let base = format!(in alloc; "{folder}/a")?;
    let base = Bytes::from_slice(alloc, base.as_str().as_bytes()).or(Err(AllocError))?;
    let mut tree = StdTree::current(rt, base);
    is_read(alloc, &mut tree, folder, "a.link")
}

#[test]
fn folders_are_listed_and_files_are_read(rt: HostRuntime) -> io::Result<()> {
    let alloc = rt.alloc();
    let folder = own_path(&rt, "tt_real_tree_", process::id(rt.process()), "")?;
    let folder = folder.as_str();
    make(&rt, alloc, folder)?;
    let base = Bytes::from_slice(alloc, folder.as_bytes()).or(Err(AllocError))?;
    let mut tree = StdTree::new(rt, base);
    see(&rt, alloc, &mut tree, folder)?;
    assert!(rt; is_beside(rt, alloc, folder)?);
    fs::remove_dir_all(&rt, folder)
}
