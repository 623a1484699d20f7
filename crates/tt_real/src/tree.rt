//! The system's folders.
ghost use Rattle.std.specs.Prelude.{◌≡◌, ◌≢◌, ◌≤◌, Err, IfOk, None, length};
ghost use Rattle.std.specs.IoError.{error_kind};
ghost use Rattle.tt_real.specs.RealTree.{asked_path, from_base, kept_item, tree_base, tree_fault, tree_faults};

use crate::files::read_whole;
use std::alloc::{AllocError, Global};
use std::fs::{self, Metadata};
use std::io::{Error, ErrorKind, Read};
use std::{rt, str};
use tt_base::{Bytes, Items, NoMemory};
use tt_outside::{Counted, FilesFault, Item, ItemKind, Tree, TreeFault};

/// The folders of a runtime: `StdTree::new(rt, base)`, or `StdTree::current(rt, base)`.
#[derive(Drop)]
pub struct StdTree<R> {
    rt: R,
    base: Bytes,
    /// Whether the base is the current directory.
    is_current: bool,
    faults: u64,
}

impl<R> StdTree<R> {
    /// The folders of a runtime, with the path that words are joined to. It takes no memory.
    pub fn new(rt: R, base: Bytes) -> StdTree<R>
        ensures base { tree_base result ≡ base }
        ensures faults { tree_faults result ≡ 0 }
    {
        StdTree {
            rt,
            base,
            is_current: false,
            faults: 0,
        }
    }

    /// The same, where the path is that of the current directory, as long as that stays the same. What lies below it is
    /// asked for by its path from there, which the system finds sooner.
    pub fn current(rt: R, base: Bytes) -> StdTree<R>
        ensures base { tree_base result ≡ base }
        ensures faults { tree_faults result ≡ 0 }
    {
        StdTree {
            rt,
            base,
            is_current: true,
            faults: 0,
        }
    }

    /// The path by which the system is asked for another.
    fn asked<'a>(&'a self, path: &'a [u8]) -> &'a [u8] {
        asked_path(self.is_current, self.base.as_slice(), path)
    }
}

/// The path by which the system is asked for another, where the base is the current directory or isn't.
fn asked_path<'a>(is_current: bool, base: &[u8], path: &'a [u8]) -> &'a [u8]
    ensures { result.now ≡ asked_path is_current base.now path.now }
{
    if !is_current {
        return path;
    }
    match path.strip_prefix(base) {
        Some(behind) => from_base(path, behind),
        None => path,
    }
}

/// A path from the base, by what stands behind the base in it.
fn from_base<'a>(path: &'a [u8], behind: &'a [u8]) -> &'a [u8]
    ensures { result.now ≡ from_base path.now behind.now }
{
    match behind {
        [] => b".",
        [byte, next, ..] => {
            if *byte == b'/' && *next != b'/' {
                &behind[1..]
            } else {
                path
            }
        }
        _ => path,
    }
}

impl<R: rt::Files> Tree for StdTree<R> {
    ghost nodes = { λ _. None };

    ghost root = { λ tree. tree_base tree };

    ghost faults = { λ tree. tree_faults tree };

    fn base(&self) -> &[u8] {
        self.base.as_slice()
    }

    fn list(&mut self, alloc: Global, dir: &[u8]) -> Result<Items<Item>, TreeFault> {
        let answer = list_folder(&self.rt, alloc, self.asked(dir));
        if matches!(&answer, Err(TreeFault::Failed)) {
            self.faults = self.faults.saturating_add(1);
        }
        answer
    }

    fn count(&mut self, alloc: Global, dir: &[u8], names: &[&str]) -> Result<Counted, TreeFault> {
        let answer = count_folder(&self.rt, alloc, self.asked(dir), names);
        if matches!(&answer, Err(TreeFault::Failed)) {
            self.faults = self.faults.saturating_add(1);
        }
        answer
    }

    fn read_all(&mut self, alloc: Global, name: &[u8], limit: u64) -> Result<Bytes, TreeFault> {
        let answer = read_file(&self.rt, alloc, self.asked(name), limit);
        if matches!(&answer, Err(TreeFault::Failed)) {
            self.faults = self.faults.saturating_add(1);
        }
        answer
    }
}

/// What an error of the system means. A path through a file isn't found.
fn fault_of(error: &Error) -> TreeFault
    ensures exact { result ≡ tree_fault (error_kind error.now) }
    ensures large { result ≢ TreeFault.TooLarge }
    ensures file { result ≢ TreeFault.NotDirectory }
{
    match error.kind() {
        ErrorKind::NotFound | ErrorKind::NotADirectory => TreeFault::Missing,
        ErrorKind::OutOfMemory => TreeFault::NoMemory,
        _ => TreeFault::Failed,
    }
}

/// The kind of what stands at a path. A link to a file is a file, and another link is neither.
fn kind_of<R: rt::Files>(rt: &R, path: &str, here: &Metadata) -> ItemKind {
    if here.is_dir() {
        return ItemKind::Dir;
    }
    if here.is_file() {
        return ItemKind::File;
    }
    if !here.is_symlink() {
        return ItemKind::Other;
    }
    match fs::metadata(rt, path) {
        Ok(there) => {
            if there.is_file() {
                ItemKind::File
            } else {
                ItemKind::Other
            }
        }
        Err(_) => ItemKind::Other,
    }
}

/// What the names in a folder gave.
#[derive(Drop)]
struct Entries {
    /// How many names there were.
    count: usize,
    /// The items that were asked for.
    items: Vec<Fronted>,
}

/// Lists a folder. The links on the way to it are followed, the last part of its path is not.
fn list_folder<R: rt::Files>(rt: &R, alloc: Global, dir: &[u8]) -> Result<Items<Item>, TreeFault>
    ensures { result ≢ Err TreeFault.TooLarge }
{
    by_name(alloc, entries_in(rt, alloc, dir, None)?.items)
}

/// How many names a folder has, and the items of some. Its path is followed as in a listing.
fn count_folder<R: rt::Files>(
    rt: &R,
    alloc: Global,
    dir: &[u8],
    names: &[&str],
) -> Result<Counted, TreeFault>
    ensures { result ≢ Err TreeFault.TooLarge }
{
    let Entries { count, items } = entries_in(rt, alloc, dir, Some(names))?;
    Ok(Counted {
        count,
        named: by_name(alloc, items)?,
    })
}

/// What a folder has: its items, or those of some names.
fn entries_in<R: rt::Files>(
    rt: &R,
    alloc: Global,
    dir: &[u8],
    wanted: Option<&[&str]>,
) -> Result<Entries, TreeFault>
    ensures { result ≢ Err TreeFault.TooLarge }
{
    let Ok(path) = str::from_utf8(dir) else {
        return Err(TreeFault::Failed);
    };
    match rt.open_dir(path) {
        Ok(mut folder) => entries_of(rt, alloc, path, &mut folder, wanted),
        Err(error) => Err(unlisted(rt, path, &error)),
    }
}

/// Why a path that didn't open as a folder isn't listed.
fn unlisted<R: rt::Files>(rt: &R, path: &str, error: &Error) -> TreeFault
    ensures { result ≢ TreeFault.TooLarge }
{
    match fs::symlink_metadata(rt, path) {
        Ok(here) => match kind_of(rt, path, &here) {
            ItemKind::Dir => fault_of(error),
            ItemKind::File => TreeFault::NotDirectory,
            ItemKind::Other => TreeFault::Missing,
        },
        Err(error) => fault_of(&error),
    }
}

/// How many bytes of names are taken from a folder at once. A name has 255 at most.
const NAMES: usize = 8192;

/// For how many items of a folder there is room at first.
const FIRST_ITEMS: usize = 64;

/// A path with a slash behind it.
fn with_slash(alloc: Global, path: &str) -> Result<String, AllocError> {
    let mut text = String::with_capacity(alloc, path.len().saturating_add(1))?;
    text.push_str(path)?;
    if !path.ends_with('/') {
        text.push('/')?;
    }
    Ok(text)
}

/// An item, with the first eight bytes of its name as a number.
type Fronted = (u64, Item);

/// The first eight bytes of a name as a number. It is less for a name that comes before, or the same.
fn front_of(name: &[u8]) -> u64 {
    let mut front = [0u8; 8];
    for (place, byte) in front.iter_mut().zip(name) {
        *place = *byte;
    }
    u64::from_be_bytes(front)
}

/// Items in byte order of their names: the system tells them in any order.
fn by_name(alloc: Global, mut fronted: Vec<Fronted>) -> Result<Items<Item>, TreeFault>
    ensures { result ≢ Err TreeFault.TooLarge }
{
    fronted.sort_unstable_by(|one, other| {
        one.0
            .cmp(&other.0)
            .then_with(|| one.1.name.as_slice().cmp(other.1.name.as_slice()))
    });
    let Ok(mut items) = Vec::with_capacity(alloc, fronted.len()) else {
        return Err(TreeFault::NoMemory);
    };
    for (_, item) in fronted {
        if items.push(item).is_err() {
            return Err(TreeFault::NoMemory);
        }
    }
    Ok(Items::from_vec(items))
}

/// What a folder has: its items, or those of some names. A name that isn't text is a fault; an item that vanished since
/// its name was read is left out.
fn entries_of<R: rt::Files, D: Read>(
    rt: &R,
    alloc: Global,
    dir: &str,
    folder: &mut D,
    wanted: Option<&[&str]>,
) -> Result<Entries, TreeFault>
    ensures { result ≢ Err TreeFault.TooLarge }
{
    let Ok(front) = with_slash(alloc, dir) else {
        return Err(TreeFault::NoMemory);
    };
    let Ok(items) = Vec::with_capacity(alloc, FIRST_ITEMS) else {
        return Err(TreeFault::NoMemory);
    };
    let mut entries = Entries { count: 0, items };
    add_all(rt, alloc, folder, front.as_str(), wanted, &mut entries)?;
    Ok(entries)
}

/// Adds what all names in a folder give. `front` is its path, with a slash behind it.
fn add_all<R: rt::Files, D: Read>(
    rt: &R,
    alloc: Global,
    folder: &mut D,
    front: &str,
    wanted: Option<&[&str]>,
    entries: &mut Entries,
) -> Result<(), TreeFault>
    ensures { result ≢ Err TreeFault.TooLarge }
{
    let mut names = [0u8; NAMES];
    for _ in 0..u64::MAX {
        match folder.read(&mut names) {
            Ok(0) => return Ok(()),
            Ok(count) => add_items(rt, alloc, front, &names[..count], wanted, entries)?,
            Err(error) => return Err(fault_of(&error)),
        }
    }
    Err(TreeFault::Failed)
}

/// Whether the item of a name is asked for.
fn is_wanted(wanted: Option<&[&str]>, name: &[u8]) -> bool {
    match wanted {
        Some(names) => names.iter().any(|one| one.as_bytes() == name),
        None => true,
    }
}

/// Adds what names give, each of which ends in a NUL. `front` is as above.
fn add_items<R: rt::Files>(
    rt: &R,
    alloc: Global,
    front: &str,
    names: &[u8],
    wanted: Option<&[&str]>,
    entries: &mut Entries,
) -> Result<(), TreeFault>
    ensures { result ≢ Err TreeFault.TooLarge }
{
    let Ok(mut path) = String::with_capacity(alloc, front.len().saturating_add(NAMES)) else {
        return Err(TreeFault::NoMemory);
    };
    for name in names.split(|byte| *byte == 0) {
        if name.is_empty() || name == b".".as_slice() || name == b"..".as_slice() {
            continue;
        }
        let Ok(text) = str::from_utf8(name) else {
            return Err(TreeFault::Failed);
        };
        entries.count = entries.count.saturating_add(1);
        if !is_wanted(wanted, name) {
            continue;
        }
        path.clear();
        if path.push_str(front).is_err() || path.push_str(text).is_err() {
            return Err(TreeFault::NoMemory);
        }
        let Some(item) = kept_item(item_of(rt, alloc, name, path.as_str()))? else {
            continue;
        };
        if entries.items.push((front_of(name), item)).is_err() {
            return Err(TreeFault::NoMemory);
        }
    }
    Ok(())
}

/// An item of a folder, left out where it isn't found any more.
fn kept_item(answer: Result<Item, TreeFault>) -> Result<Option<Item>, TreeFault>
    ensures { result ≡ kept_item answer }
{
    match answer {
        Ok(item) => Ok(Some(item)),
        Err(TreeFault::Missing) => Ok(None),
        Err(fault) => Err(fault),
    }
}

/// An item of a folder.
fn item_of<R: rt::Files>(rt: &R, alloc: Global, name: &[u8], path: &str) -> Result<Item, TreeFault>
    ensures { result ≢ Err TreeFault.TooLarge }
{
    match fs::symlink_metadata(rt, path) {
        Ok(here) => match Bytes::from_slice(alloc, name) {
            Ok(name) => Ok(Item {
                name,
                kind: kind_of(rt, path, &here),
            }),
            Err(NoMemory) => Err(TreeFault::NoMemory),
        },
        Err(error) => Err(fault_of(&error)),
    }
}

/// Reads a file, also one behind a link.
fn read_file<R: rt::Files>(
    rt: &R,
    alloc: Global,
    path: &[u8],
    limit: u64,
) -> Result<Bytes, TreeFault>
    ensures within { IfOk result (λ bytes. length bytes ≤ limit) }
    ensures file { result ≢ Err TreeFault.NotDirectory }
{
    let Ok(path) = str::from_utf8(path) else {
        return Err(TreeFault::Failed);
    };
    match fs::metadata(rt, path) {
        Ok(there) => {
            if !there.is_file() {
                return Err(TreeFault::Missing);
            }
        }
        Err(error) => return Err(fault_of(&error)),
    }
    match read_whole(rt, alloc, path, limit) {
        Ok(bytes) => Ok(bytes),
        Err(FilesFault::Missing) => Err(TreeFault::Missing),
        Err(FilesFault::TooLarge { .. }) => Err(TreeFault::TooLarge),
        Err(FilesFault::Failed) => Err(TreeFault::Failed),
        Err(FilesFault::NoMemory) => Err(TreeFault::NoMemory),
    }
}
