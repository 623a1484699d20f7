//! One step of the threads.
ghost use Rattle.std.specs.Prelude.{◌≡◌, ℕ, ◌+◌, ◌<◌, ◌≤◌, length, vec_len, vec_capacity, Some};
ghost use Rattle.ere_auto.specs.Closure.{IsFree, NodesBelow, OriginsBelow, StaysBelow};
ghost use Rattle.ere_auto.specs.Step.{Seeds, Shows, ends_line};
ghost use Rattle.ere_auto.specs.StepView.{IsStepOf};

use crate::closure::close;
use crate::marks::Marks;
use crate::moves::go_on;
use crate::slot::free_slot;
use crate::thread::Thread;
use crate::threads::Threads;
use ere_table::NodeTable;

/// What a step did besides: the slot of the start that began there, and the slot of the start that matched there.
#[derive(Clone, Copy, Debug, PartialEq, Eq)]
pub struct Note {
    pub begun: Option<usize>,
    pub met: Option<usize>,
}

/// What stands around the place of a step.
#[derive(Clone, Copy)]
pub struct Around {
    /// Whether a line starts there.
    pub line: bool,
    /// Whether no match is known.
    pub searching: bool,
    /// The next byte. None at the slice's end.
    pub next: Option<u8>,
}

/// Whether a line ends before the next byte.
pub(crate) fn ends_line(next: Option<u8>) -> bool
    ensures { result ≡ ends_line next }
{
    match next {
        None => true,
        Some(byte) => byte == b'\n',
    }
}

/// The byte at a place. None at the text's end.
pub(crate) fn byte_at(text: &[u8], place: usize) -> Option<u8>
    requires { place ≤ length text.now }
    ensures { Shows text.now place result }
{
    if place < text.len() {
        Some(text[place])
    } else {
        None
    }
}

/// Adds the start that begins here, while no match is known.
fn seed(
    entry: usize,
    threads: &mut Vec<Thread>,
    slots: &mut Marks,
    searching: bool,
) -> Option<usize>
    requires room { vec_len threads.old < vec_capacity threads.old }
    requires few { vec_len threads.old < length slots.old }
    requires within { OriginsBelow threads.old.items (length slots.old) }
    ensures seeds { Seeds threads.old.items threads.new.items entry searching result }
    ensures free { (slot : ℕ) → result ≡ Some slot → IsFree threads.old.items slot }
    ensures slot { (slot : ℕ) → result ≡ Some slot → slot < length slots.old }
    ensures within { OriginsBelow threads.new.items (length slots.old) }
    ensures nodes { StaysBelow threads.old.items threads.new.items entry }
    ensures room { length slots.new ≡ length slots.old }
    ensures capacity { vec_capacity threads.new ≡ vec_capacity threads.old }
{
    if searching {
        let slot = free_slot(threads.as_slice(), slots);
        threads.push_reserved(Thread {
            node: entry,
            origin: slot,
        });
        Some(slot)
    } else {
        None
    }
}

/// One step from the threads, which get the start that begins here: `moved` gets those behind the next byte.
pub fn step(
    table: &NodeTable,
    threads: &mut Vec<Thread>,
    slots: &mut Marks,
    reached: &mut Threads,
    moved: &mut Threads,
    around: Around,
) -> Note
    requires few { vec_len threads.old ≤ vec_len table.now.nodes }
    requires capacity { vec_len table.now.nodes < vec_capacity threads.old }
    requires reached { length reached.old.marks ≡ vec_len table.now.nodes }
    requires moved { length moved.old.marks ≡ vec_len table.now.nodes }
    requires room { length slots.old ≡ vec_len table.now.nodes + 1 }
    requires origins { OriginsBelow threads.old.items (length slots.old) }
    requires nodes { NodesBelow threads.old.items (vec_len table.now.nodes) }
    ensures step { IsStepOf table.now threads.old.items moved.new.held.items around result }
    ensures begun { (slot : ℕ) → result.begun ≡ Some slot → slot < length slots.old }
    ensures met { (slot : ℕ) → result.met ≡ Some slot → slot < length slots.old }
    ensures within { OriginsBelow moved.new.held.items (length slots.old) }
    ensures reached { length reached.new.marks ≡ length reached.old.marks }
    ensures moved { length moved.new.marks ≡ length moved.old.marks }
    ensures room { length slots.new ≡ length slots.old }
    ensures capacity { vec_capacity threads.new ≡ vec_capacity threads.old }
{
    let begun = seed(table.entry, threads, slots, around.searching);
    let ends = ends_line(around.next);
    close(table, threads.as_slice(), around.line, ends, reached);
    let seeds = threads.as_slice();
    let opened = reached.held.as_slice();
    let moves = go_on(table, seeds, opened, around.next, moved);
    Note {
        begun,
        met: moves.met,
    }
}
