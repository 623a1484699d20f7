//! Steps that are kept.
ghost use Rattle.std.specs.Prelude.{◌≡◌, ℕ, ◌+◌, ◌-◌, ◌*◌, ◌<◌, ◌≤◌, ◌==◌, ◌&&◌, ◌++◌, not, true, false, replicate, length, vec_len, vec_capacity, slice_index, IfOk, IfSome, Some, None};
ghost use Rattle.ere_table.specs.Node.{Node};
ghost use Rattle.ere_auto.specs.Closure.{node_in, origin_in};
ghost use Rattle.ere_auto.specs.RowTable.{row_in, threads_in, threads_of, cell_of, AreSteps, Keeps, slot_or_zero};

use crate::row::Row;
use crate::step::Note;
use crate::thread::{Thread, add_threads};
use std::alloc::{AllocError, Global};

/// How many rows are kept.
pub const MAX_ROWS: usize = 192;

/// In how many slots the places of rows are kept, by what is in them, once there are more than a few.
const SLOTS: usize = 512;

/// In how many slots, one behind the other, a row is looked for.
const TRIES: usize = 8;

/// For how many threads of each row there is room, one with the other.
const ROW_WIDTH: usize = 16;

/// From how many rows on a row is looked for before it is made.
const FEW_ROWS: usize = 16;

/// For how many rows there is room at first: the first two, and one that is met. Where there is no memory for more, rows
/// are dropped.
const LEAST_ROWS: usize = 3;

/// For how many rows more memory is taken when the first is met: many automata meet none.
const FIRST_ROWS: usize = 24;

/// The rows that were met, and to which of them each byte leads. Rows 0 and 1 have no thread: a line starts at row 0.
#[derive(Drop)]
pub struct Rows {
    pool: Vec<Thread>,
    rows: Vec<Row>,
    cells: Vec<u8>,
    index: Vec<u8>,
    pub nodes: usize,
    room: usize,
    pub ghost two: { 2 ≤ vec_len rows },
    pub ghost few: { vec_len rows ≤ 192 },
    ghost rows_room: { 2 < vec_capacity rows },
    pub ghost square: { vec_len cells ≡ 256 * vec_len rows },
    ghost cells_room: { 768 ≤ vec_capacity cells },
    pub ghost inside: { (k : ℕ) → k < vec_len cells → slice_index cells.items k < vec_len rows },
    pub ghost ordered: { (r : ℕ) → r < vec_len rows → (row_in rows.items r).from ≤ (row_in rows.items r).to },
    pub ghost ranges: { (r : ℕ) → r < vec_len rows → (row_in rows.items r).to ≤ vec_len pool },
    pub ghost narrow: { (r : ℕ) → r < vec_len rows →
        (row_in rows.items r).to ≤ (row_in rows.items r).from + nodes },
    ghost pool_fits: { vec_len pool ≤ room },
    ghost pool_room: { nodes ≤ vec_capacity pool },
    ghost wide: { nodes ≤ room },
    pub ghost begun: { (r : ℕ) → r < vec_len rows → slot_or_zero (row_in rows.items r).begun ≤ nodes },
    pub ghost met: { (r : ℕ) → r < vec_len rows → slot_or_zero (row_in rows.items r).met ≤ nodes },
    pub ghost origins: { (x : ℕ) → x < vec_len pool → origin_in pool.items x ≤ nodes },
    pub ghost within: { (x : ℕ) → x < vec_len pool → node_in pool.items x < nodes },
    pub ghost over: { (r : ℕ) → r < vec_len rows → (row_in rows.items r).over
        ≡ (not (row_in rows.items r).searching && (row_in rows.items r).from == (row_in rows.items r).to) },
    pub ghost first_line: { (row_in rows.items 0).line ≡ true },
    pub ghost second_line: { (row_in rows.items 1).line ≡ false },
    pub ghost first_searches: { (row_in rows.items 0).searching ≡ true },
    pub ghost second_searches: { (row_in rows.items 1).searching ≡ true },
    pub ghost first_empty: { (row_in rows.items 0).to ≡ 0 },
    pub ghost second_empty: { (row_in rows.items 1).to ≡ 0 },
}

impl Rows {
    ghost use Rattle.ere_auto.specs.RowTableView.{row_table_of, HasRoom, HasRow, StaysRight, Learns, LearnsKept};

    /// The first two rows, for a table of so many nodes, and room for some more.
    pub fn new(alloc: Global, nodes: usize) -> Result<Rows, AllocError>
        ensures nodes { IfOk result (λ made. made.nodes ≡ nodes) }
        ensures steps { IfOk result (λ made. (T : ℕ → Node) (e : ℕ) → AreSteps T e (row_table_of made)) }
    {
        let Some(room) = nodes.checked_add(MAX_ROWS * ROW_WIDTH) else {
            return Err(AllocError);
        };
        let pool = Vec::with_capacity(alloc, nodes)?;
        let mut rows = Vec::with_capacity(alloc, LEAST_ROWS)?;
        rows.push_reserved(Row {
            from: 0,
            to: 0,
            line: true,
            searching: true,
            over: false,
            begun: None,
            met: None,
        });
        rows.push_reserved(Row {
            from: 0,
            to: 0,
            line: false,
            searching: true,
            over: false,
            begun: None,
            met: None,
        });
        let mut cells = Vec::with_capacity(alloc, 256 * LEAST_ROWS)?;
        add_cells(&mut cells);
        add_cells(&mut cells);
        Ok(Rows {
            pool,
            rows,
            cells,
            index: Vec::new(alloc),
            nodes,
            room,
        })
    }

    /// The row at a place.
    #[inline(always)]
    pub fn row(&self, row: usize) -> Row
        requires { row < vec_len self.now.rows }
        ensures { result ≡ row_in self.now.rows.items row }
    {
        self.rows[row]
    }

    /// The threads of the row at a place.
    pub fn threads(&self, row: usize) -> &[Thread]
        requires { row < vec_len self.now.rows }
        ensures { result.now ≡ threads_of (row_table_of self.now) row }
    {
        let row = self.rows[row];
        &self.pool[row.from..row.to]
    }

    /// The row to which a row leads by a byte. 0 where that isn't known.
    #[inline(always)]
    pub fn cell(&self, row: usize, byte: u8) -> usize
        requires { row < vec_len self.now.rows }
        ensures value { result ≡ cell_of (row_table_of self.now) row byte }
        ensures inside { result < vec_len self.now.rows }
    {
        self.cells[row * 256 + byte as usize] as usize
    }

    /// Keeps to which row a row leads by a byte, unless the rows were dropped meanwhile.
    pub fn learn(&mut self, from: usize, byte: u8, entered: Entered)
        requires from { entered.kept ≡ true → from < vec_len self.old.rows }
        requires to { entered.row < vec_len self.old.rows }
        ensures steps { LearnsKept self.old self.new from byte entered }
        ensures rows { self.new.rows ≡ self.old.rows }
        ensures pool { self.new.pool ≡ self.old.pool }
        ensures nodes { self.new.nodes ≡ self.old.nodes }
    {
        if entered.kept {
            self.set_cell(from, byte, entered.row);
        }
    }

    /// Keeps to which row a row leads by a byte.
    fn set_cell(&mut self, row: usize, byte: u8, to: usize)
        requires row { row < vec_len self.old.rows }
        requires to { to < vec_len self.old.rows }
        ensures steps { Learns self.old self.new row byte to }
        ensures rows { self.new.rows ≡ self.old.rows }
        ensures pool { self.new.pool ≡ self.old.pool }
        ensures nodes { self.new.nodes ≡ self.old.nodes }
    {
        self.cells[row * 256 + byte as usize] = to as u8;
    }

    /// The row that the index has in a slot, if it is this one.
    fn find(
        &self,
        slot: usize,
        threads: &[Thread],
        line: bool,
        searching: bool,
        note: Note,
    ) -> Option<usize>
        ensures { IfSome result (λ row. HasRow self.now row threads.now line searching note) }
    {
        let known = row_in_slot(&self.index, slot);
        if known >= self.rows.len() {
            return None;
        }
        let row = self.rows[known];
        let same = row.line == line && row.searching == searching;
        if same
            && row.begun == note.begun
            && row.met == note.met
            && same_threads(self.threads(known), threads)
        {
            Some(known)
        } else {
            None
        }
    }

    /// The row that the index has for these threads. Those that no slot has are kept in the first free one, or else in the
    /// first. While rows are few, none is looked for: most searches are short, and making a row anew is as fast.
    fn look(&self, threads: &[Thread], line: bool, searching: bool, note: Note) -> Looked
        ensures { IfSome result.row (λ row. HasRow self.now row threads.now line searching note) }
    {
        if self.rows.len() < FEW_ROWS {
            return Looked { row: None, slot: 0 };
        }
        let first = slot_of(threads, line, searching, note.met);
        for step in 0..TRIES {
            let slot = (first + step) % SLOTS;
            if row_in_slot(&self.index, slot) == 0 {
                return Looked { row: None, slot };
            }
            if let Some(row) = self.find(slot, threads, line, searching, note) {
                return Looked {
                    row: Some(row),
                    slot,
                };
            }
        }
        Looked {
            row: None,
            slot: first,
        }
    }

    /// Drops all rows but the first two, and what is known of them.
    fn clear(&mut self)
        ensures steps { (T : ℕ → Node) (e : ℕ) → AreSteps T e (row_table_of self.new) }
        ensures rows { vec_len self.new.rows ≡ 2 }
        ensures pool { vec_len self.new.pool ≡ 0 }
        ensures nodes { self.new.nodes ≡ self.old.nodes }
        ensures room { self.new.room ≡ self.old.room }
    {
        self.pool.clear();
        self.rows.truncate(2);
        self.cells.clear();
        self.index.fill(0);
        add_cells(&mut self.cells);
        add_cells(&mut self.cells);
    }

    /// Takes memory for a row of so many threads, and tells whether there was enough.
    fn grow(&mut self, count: usize) -> bool
        ensures table { row_table_of self.new ≡ row_table_of self.old }
        ensures nodes { self.new.nodes ≡ self.old.nodes }
        ensures room { self.new.room ≡ self.old.room }
        ensures rows { vec_len self.new.rows ≡ vec_len self.old.rows }
        ensures pool { vec_len self.new.pool ≡ vec_len self.old.pool }
        ensures has { result ≡ true → HasRoom self.new count }
    {
        let more = rows_to_take(self.rows.len());
        self.rows.reserve(more).is_ok()
            && self.cells.reserve(256 * more).is_ok()
            && self.pool.reserve(count.max(2 * more)).is_ok()
    }

    /// Makes room for a row of so many threads, and tells whether all rows were kept.
    fn make_room(&mut self, count: usize) -> bool
        requires { count ≤ self.old.nodes }
        ensures steps { StaysRight self.old self.new }
        ensures kept { result ≡ true → Keeps (row_table_of self.old) (row_table_of self.new) }
        ensures rows { vec_len self.new.rows < 192 }
        ensures pool { vec_len self.new.pool + count ≤ self.new.room }
        ensures has { HasRoom self.new count }
        ensures nodes { self.new.nodes ≡ self.old.nodes }
    {
        let few = self.rows.len() < MAX_ROWS && count <= self.room - self.pool.len();
        if few && self.grow(count) {
            return true;
        }
        self.clear();
        false
    }

    /// Adds a row, for which there is room.
    fn push_row(&mut self, threads: &[Thread], line: bool, searching: bool, note: Note) -> usize
        requires few { vec_len self.old.rows < 192 }
        requires room { vec_len self.old.pool + length threads.now ≤ self.old.room }
        requires has { HasRoom self.old (length threads.now) }
        requires narrow { length threads.now ≤ self.old.nodes }
        requires begun { slot_or_zero note.begun ≤ self.old.nodes }
        requires met { slot_or_zero note.met ≤ self.old.nodes }
        requires origins { (x : ℕ) → x < length threads.now → origin_in threads.now x ≤ self.old.nodes }
        requires within { (x : ℕ) → x < length threads.now → node_in threads.now x < self.old.nodes }
        ensures row { HasRow self.new result threads.now line searching note }
        ensures keeps { Keeps (row_table_of self.old) (row_table_of self.new) }
        ensures steps { StaysRight self.old self.new }
        ensures nodes { self.new.nodes ≡ self.old.nodes }
        ensures few { result < 192 }
    {
        let place = self.rows.len();
        let from = self.pool.len();
        add_threads(&mut self.pool, threads);
        let to = self.pool.len();
        let over = is_over(searching, from, to);
        self.rows.push_reserved(Row {
            from,
            to,
            line,
            searching,
            over,
            begun: note.begun,
            met: note.met,
        });
        add_cells(&mut self.cells);
        place
    }

    /// The place of a row, which is added where it isn't there.
    pub fn enter(&mut self, threads: &[Thread], line: bool, searching: bool, note: Note) -> Entered
        requires narrow { length threads.now ≤ self.old.nodes }
        requires begun { slot_or_zero note.begun ≤ self.old.nodes }
        requires met { slot_or_zero note.met ≤ self.old.nodes }
        requires origins { (x : ℕ) → x < length threads.now → origin_in threads.now x ≤ self.old.nodes }
        requires within { (x : ℕ) → x < length threads.now → node_in threads.now x < self.old.nodes }
        ensures row { HasRow self.new result.row threads.now line searching note }
        ensures kept { result.kept ≡ true → Keeps (row_table_of self.old) (row_table_of self.new) }
        ensures steps { StaysRight self.old self.new }
        ensures nodes { self.new.nodes ≡ self.old.nodes }
    {
        if self.rows.len() >= FEW_ROWS {
            open_index(&mut self.index);
        }
        let looked = self.look(threads, line, searching, note);
        if let Some(row) = looked.row {
            return Entered { row, kept: true };
        }
        let kept = self.make_room(threads.len());
        let row = self.push_row(threads, line, searching, note);
        put_in_slot(&mut self.index, looked.slot, row);
        Entered { row, kept }
    }
}

/// Takes memory for the slots, unless that was done. Where there is none, no row is found in them.
fn open_index(index: &mut Vec<u8>) {
    if index.is_empty() {
        let _ = index.resize(SLOTS, 0);
    }
}

/// The row in a slot. 0 where there is none.
fn row_in_slot(index: &Vec<u8>, slot: usize) -> usize {
    match index.get(slot) {
        Some(row) => *row as usize,
        None => 0,
    }
}

/// Puts a row in a slot.
fn put_in_slot(index: &mut Vec<u8>, slot: usize, row: usize)
    requires { row < 192 }
{
    if let Some(place) = index.get_mut(slot) {
        *place = row as u8;
    }
}

/// For how many rows memory is taken behind so many.
fn rows_to_take(rows: usize) -> usize
    ensures some { 1 ≤ result }
    ensures few { result ≤ 24 }
{
    if rows == 2 { FIRST_ROWS } else { 1 }
}

/// The row that the index has, and the slot in which it is, or is to be.
#[derive(Clone, Copy, Debug, PartialEq, Eq)]
struct Looked {
    row: Option<usize>,
    slot: usize,
}

/// The place of a row, and whether the rows before are where they were.
#[derive(Clone, Copy, Debug, PartialEq, Eq)]
pub struct Entered {
    pub row: usize,
    pub kept: bool,
}

/// Whether no byte that comes can change the span: a match is known, and no thread is left.
fn is_over(searching: bool, from: usize, to: usize) -> bool
    ensures { result ≡ (not searching && from == to) }
{
    !searching && from == to
}

/// Adds the cells of a row, of which none is known. There is room for them.
fn add_cells(cells: &mut Vec<u8>)
    requires { vec_len cells.old + 256 ≤ vec_capacity cells.old }
    ensures items { cells.new.items ≡ cells.old.items ++ replicate 256 0 }
    ensures len { vec_len cells.new ≡ vec_len cells.old + 256 }
    ensures capacity { vec_capacity cells.old ≤ vec_capacity cells.new }
{
    let _ = cells.extend_from_slice(&[0; 256]);
}

/// Whether these are the same threads.
fn same_threads(one: &[Thread], other: &[Thread]) -> bool
    ensures { result ≡ true → one.now ≡ other.now }
{
    if one.len() != other.len() {
        return false;
    }
    for index in 0..one.len() {
        let here = one[index];
        let there = other[index];
        if here.node != there.node || here.origin != there.origin {
            return false;
        }
    }
    true
}

/// A slot of the index: any function of the row would do.
fn slot_of(threads: &[Thread], line: bool, searching: bool, met: Option<usize>) -> usize
    ensures { result < 512 }
{
    const MIX: u64 = 0x9E37_79B9_7F4A_7C15;
    let mut hash = line as u64 * 2 + searching as u64;
    if let Some(slot) = met {
        hash = hash.wrapping_add(slot as u64).wrapping_mul(MIX);
    }
    for thread in threads {
        let both = (thread.node as u64).wrapping_mul(MIX) ^ thread.origin as u64;
        hash = (hash.rotate_left(11) ^ both).wrapping_mul(MIX);
    }
    ((hash >> 32) % SLOTS as u64) as usize
}
