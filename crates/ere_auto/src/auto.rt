//! The automaton.
ghost use Rattle.std.specs.Prelude.{◌≡◌, ℕ, ◌+◌, ◌<◌, ◌≤◌, ◌↔◌, ◌&&◌, is_none, [], ◌∷◌, true, false, List, IsSome, IfOk, OnOk, IfSome, IfNone, MatchOption, Some, length, take, vec_len, vec_capacity, slice_index};
ghost use Rattle.ere_tree.specs.Derivation.{is_line_start};
ghost use Rattle.ere_tree.specs.Shape.{has_refs};
ghost use Rattle.ere_tree.specs.Tree.{Tree};
ghost use Rattle.ere_tree.specs.View.{view};
ghost use Rattle.ere_auto.specs.RowTable.{slot_or_zero};
ghost use Rattle.ere_places.specs.Places.{Finds, IsInside};
ghost use Rattle.ere_places.specs.declared.window.Direction.TheVariants.{Ahead};
ghost use Rattle.ere_auto.specs.Alone.{EndsStarts, Meets};
ghost use Rattle.ere_auto.specs.Closure.{OriginsUpTo};
ghost use Rattle.ere_auto.specs.Span.{IsSpan};
ghost use Rattle.ere_auto.specs.Seen.{IsFor, HasSeen, HasFound, SeesAnew, SeesNext, SettlesUnless, HasEnded, StepsTo, EndsIn, Waits, Fresh, starts_behind, best_behind};

use crate::marks::Marks;
use crate::rows::Rows;
use crate::step::{Around, Note, byte_at, step};
use crate::steps::Steps;
use crate::thread::{Thread, add_threads};
use crate::threads::Threads;
use ere_places::Window;
use ere_table::NodeTable;
use ere_tree::{Cap, Ere};
use std::alloc::{AllocError, Global};
use std::sync::ledger::Ledger;
use tt_base::NoMemory;

/// The automaton of an expression without references. It is shown the bytes of a slice, and then knows the span.
#[derive(Drop)]
pub struct Auto {
    table: NodeTable,
    rows: Rows,
    seeds: Vec<Thread>,
    reached: Threads,
    moved: Threads,
    slots: Marks,
    starts: Vec<usize>,
    best: Option<Cap>,
    at: usize,
    begin: usize,
    row: usize,
    ghost nodes: { rows.nodes ≡ vec_len table.nodes },
    ghost seed_room: { vec_len table.nodes < vec_capacity seeds },
    ghost reached_nodes: { length reached.marks ≡ vec_len table.nodes },
    ghost moved_nodes: { length moved.marks ≡ vec_len table.nodes },
    ghost room: { length slots ≡ vec_len table.nodes + 1 },
    ghost slot_room: { vec_len starts ≡ vec_len table.nodes + 1 },
    ghost in_rows: { row < vec_len rows.rows },
}

/// The starts with the one that began.
#[inline(always)]
fn put_start(starts: &mut Vec<usize>, begun: Option<usize>, at: usize)
    requires { slot_or_zero begun < vec_len starts.old }
    ensures starts { starts.new.items ≡ starts_behind starts.old.items begun at }
    ensures len { vec_len starts.new ≡ vec_len starts.old }
{
    if let Some(slot) = begun {
        starts[slot] = at;
    }
}

/// The span with the one that was met.
#[inline(always)]
fn put_best(best: &mut Option<Cap>, starts: &Vec<usize>, met: Option<usize>, at: usize)
    requires { slot_or_zero met < vec_len starts.now }
    ensures { best.new ≡ best_behind best.old starts.now.items met at }
{
    if let Some(slot) = met {
        *best = Some(Cap {
            from: starts[slot],
            to: at,
        });
    }
}

/// The threads, for which there is room, in place of those that were there.
fn load(seeds: &mut Vec<Thread>, threads: &[Thread])
    requires { length threads.now ≤ vec_capacity seeds.old }
    ensures items { seeds.new.items ≡ threads.now }
    ensures len { vec_len seeds.new ≡ length threads.now }
    ensures capacity { vec_capacity seeds.old ≤ vec_capacity seeds.new }
{
    seeds.clear();
    add_threads(seeds, threads);
}

impl Auto {
    ghost use Rattle.ere_auto.specs.State.{state_of, TurnsBy, GoesBy};

    /// The automaton of an expression. What it needs to search is taken here; for what it learns it takes more where there
    /// is some.
    pub fn build(alloc: Global, ere: &Ere) -> Result<Auto, NoMemory>
        requires { has_refs (view ere.now) ≡ false }
        ensures fresh { IfOk result (λ made. HasSeen (state_of made) (view ere.now) []) }
        ensures begin { IfOk result (λ made. made.begin ≡ 0) }
    {
        match Auto::new(alloc, ere) {
            Ok(made) => Ok(made),
            Err(_) => Err(NoMemory),
        }
    }

    /// What `build` makes. Want of memory is an `AllocError`.
    pub fn new(alloc: Global, ere: &Ere) -> Result<Auto, AllocError>
        requires { has_refs (view ere.now) ≡ false }
        ensures fresh { IfOk result (λ made. HasSeen (state_of made) (view ere.now) []) }
        ensures begin { IfOk result (λ made. made.begin ≡ 0) }
    {
        let table = NodeTable::build(alloc, ere)?;
        let nodes = table.nodes.len();
        let rows = Rows::new(alloc, nodes)?;
        let seeds = Vec::with_capacity(alloc, nodes + 1)?;
        let reached = Threads::new(alloc, nodes)?;
        let moved = Threads::new(alloc, nodes)?;
        let slots = Marks::new(alloc, nodes + 1)?;
        let starts = vec![in alloc; 0usize; nodes + 1]?;
        Ok(Auto {
            table,
            rows,
            seeds,
            reached,
            moved,
            slots,
            starts,
            best: None,
            at: 0,
            begin: 0,
            row: 0,
        })
    }

    /// Begins anew with a slice of which nothing was shown. No start before the place will count.
    pub fn begin_at(&mut self, place: usize)
        ensures fresh { (t : Tree) → IsFor (state_of self.old) t → HasSeen (state_of self.new) t [] }
        ensures begin { self.new.begin ≡ place }
        ensures shown { self.new.at ≡ 0 }
    {
        self.restart(0, true);
        self.begin = place;
    }

    /// The state of no thread behind so many bytes, where a line starts or doesn't.
    fn restart(&mut self, at: usize, line: bool)
        ensures { Fresh (state_of self.old) (state_of self.new) at line }
    {
        self.row = if line { 0 } else { 1 };
        self.at = at;
        self.best = None;
    }

    /// Begins anew in a slice at a place, as if the bytes before it had been shown. No start before it will count.
    fn skip_to(&mut self, slice: &[u8], place: usize)
        requires { place ≤ length slice.now }
        ensures seen { SeesAnew (state_of self.old) (state_of self.new) (take place slice.now) }
        ensures begin { self.new.begin ≡ place }
        ensures at { self.new.at ≡ place }
    {
        self.restart(place, is_line_start(slice, place));
        self.begin = place;
    }

    /// The span in a whole slice, of those that begin at the place or behind it. Of the bytes before the place one at most
    /// is looked at. No step is counted: it is for whoever counted the slice once.
    pub fn span_from(&mut self, slice: &[u8], place: usize) -> Option<Cap>
        requires { place ≤ length slice.now }
        ensures found { (t : Tree) → IsFor (state_of self.old) t → IsSpan slice.now t place result }
        ensures expression { (t : Tree) → IsFor (state_of self.old) t → IsFor (state_of self.new) t }
    {
        self.skip_to(slice, place);
        for index in place..slice.len() {
            if !self.show(slice[index]) {
                return self.best;
            }
        }
        self.finish();
        self.best
    }

    /// Begins anew with a slice of which nothing was shown. What was made for earlier ones is kept.
    pub fn again(&mut self)
        ensures fresh { (t : Tree) → IsFor (state_of self.old) t → HasSeen (state_of self.new) t [] }
        ensures begin { self.new.begin ≡ 0 }
    {
        self.begin_at(0);
    }

    /// Whether the bytes that come next are not looked at.
    #[inline(always)]
    pub fn waits(&self) -> bool
        ensures { result ≡ true ↔ (self.now.at < self.now.begin) }
    {
        self.at < self.begin
    }

    /// The step from the threads of the row. `moved` gets those behind it.
    #[inline(always)]
    fn step(&mut self, next: Option<u8>) -> Note
        ensures step { StepsTo (state_of self.old) self.new.moved.held.items next result.begun result.met }
        ensures begun { slot_or_zero result.begun ≤ vec_len self.old.table.nodes }
        ensures met { slot_or_zero result.met ≤ vec_len self.old.table.nodes }
        ensures origins { OriginsUpTo self.new.moved.held.items (vec_len self.old.table.nodes) }
        ensures table { self.new.table ≡ self.old.table }
        ensures rows { self.new.rows ≡ self.old.rows }
        ensures starts { self.new.starts ≡ self.old.starts }
        ensures best { self.new.best ≡ self.old.best }
        ensures place { (self.new.at ≡ self.old.at) × (self.new.begin ≡ self.old.begin) }
        ensures row { self.new.row ≡ self.old.row }
    {
        load(&mut self.seeds, self.rows.threads(self.row));
        let row = self.rows.row(self.row);
        let around = Around {
            line: row.line,
            searching: row.searching,
            next,
        };
        step(
            &self.table,
            &mut self.seeds,
            &mut self.slots,
            &mut self.reached,
            &mut self.moved,
            around,
        )
    }

    /// Goes from the row to the one behind a byte, by a step where that isn't known.
    #[inline(always)]
    fn turn(&mut self, byte: u8)
        ensures turns { TurnsBy self.old self.new byte }
        ensures table { self.new.table ≡ self.old.table }
        ensures starts { self.new.starts ≡ self.old.starts }
        ensures best { self.new.best ≡ self.old.best }
        ensures place { (self.new.at ≡ self.old.at) × (self.new.begin ≡ self.old.begin) }
    {
        let known = self.rows.cell(self.row, byte);
        if known == 0 {
            self.miss(byte);
        } else {
            self.row = known;
        }
    }

    /// Makes the step from the row by a byte, and keeps it.
    #[inline(never)]
    fn miss(&mut self, byte: u8)
        ensures turns { TurnsBy self.old self.new byte }
        ensures table { self.new.table ≡ self.old.table }
        ensures starts { self.new.starts ≡ self.old.starts }
        ensures best { self.new.best ≡ self.old.best }
        ensures place { (self.new.at ≡ self.old.at) × (self.new.begin ≡ self.old.begin) }
    {
        let row = self.rows.row(self.row);
        let note = self.step(Some(byte));
        let searching = seeks(row.searching, note.met);
        let entered = self
            .rows
            .enter(self.moved.held.as_slice(), byte == b'\n', searching, note);
        self.rows.learn(self.row, byte, entered);
        self.row = entered.row;
    }

    /// Shows a byte before the place at which a start counts.
    #[inline(always)]
    fn wait(&mut self, byte: u8)
        requires { self.old.at < usize.MAX }
        ensures { Waits (state_of self.old) (state_of self.new) byte }
    {
        self.at += 1;
        self.row = if byte == b'\n' { 0 } else { 1 };
    }

    /// Shows a byte.
    #[inline(always)]
    fn show(&mut self, byte: u8) -> bool
        requires { self.old.at < usize.MAX }
        ensures seen { SeesNext (state_of self.old) (state_of self.new) byte }
        ensures known { SettlesUnless result (state_of self.old) (state_of self.new) byte }
        ensures begin { self.new.begin ≡ self.old.begin }
        ensures shown { self.new.at ≡ self.old.at + 1 }
    {
        if self.at < self.begin {
            self.wait(byte);
            return true;
        }
        self.go(byte);
        !self.rows.row(self.row).over
    }

    /// The state behind a byte.
    #[inline(always)]
    fn go(&mut self, byte: u8)
        requires { self.old.at < usize.MAX }
        ensures goes { GoesBy self.old self.new byte }
        ensures begin { self.new.begin ≡ self.old.begin }
        ensures shown { self.new.at ≡ self.old.at + 1 }
    {
        self.turn(byte);
        let row = self.rows.row(self.row);
        put_start(&mut self.starts, row.begun, self.at);
        put_best(&mut self.best, &self.starts, row.met, self.at);
        self.at += 1;
    }

    /// The state at the slice's end.
    fn end(&mut self) -> Note
        ensures { EndsIn (state_of self.old) (state_of self.new) result.begun result.met }
    {
        let note = self.step(None);
        put_start(&mut self.starts, note.begun, self.at);
        put_best(&mut self.best, &self.starts, note.met, self.at);
        note
    }

    /// Shows the slice's end.
    fn finish(&mut self)
        ensures ended { HasEnded (state_of self.old) (state_of self.new) }
        ensures begin { self.new.begin ≡ self.old.begin }
        ensures shown { self.new.at ≡ self.old.at }
    {
        if self.begin <= self.at {
            let _note = self.end();
        }
    }

    /// Shows the next byte, or None for the slice's end, to the threads alone, and tells whether the stop is met in front of it.
    #[inline(always)]
    fn meets(&mut self, next: Option<u8>) -> bool
        ensures { (t : Tree) → IsFor (state_of self.old) t → Meets (state_of self.old) (state_of self.new) next result }
    {
        match next {
            Some(byte) => {
                self.turn(byte);
                self.rows.row(self.row).met.is_some()
            }
            None => self.step(None).met.is_some(),
        }
    }

    /// Lets no start begin any more.
    fn end_starts(&mut self)
        ensures { (t : Tree) → IsFor (state_of self.old) t → EndsStarts (state_of self.old) (state_of self.new) }
    {
        load(&mut self.seeds, self.rows.threads(self.row));
        let row = self.rows.row(self.row);
        let note = Note {
            begun: row.begun,
            met: row.met,
        };
        let seeds = self.seeds.as_slice();
        self.row = self.rows.enter(seeds, row.line, false, note).row;
    }

    /// The places of a window to which the expression leads ahead from one of them. No step is counted.
    pub(crate) fn ends_alone(
        &mut self,
        alloc: Global,
        slice: &[u8],
        window: Window,
        place: usize,
    ) -> Result<Vec<usize>, AllocError>
        requires ahead { window.direction ≡ Ahead }
        requires window { window.high ≤ length slice.now }
        requires inside { IsInside window place }
        ensures ends { (t : Tree) → IsFor (state_of self.old) t → IfOk result (Finds slice.now t window (place ∷ [])) }
        ensures kept { (t : Tree) → IsFor (state_of self.old) t → OnOk result (IsFor (state_of self.new) t) }
    {
        let mut found = Vec::new(alloc);
        let starts = is_line_start(slice, place);
        self.restart(place, starts);
        if self.meets(byte_at(slice, place)) {
            found.push(place)?;
        }
        self.end_starts();
        for index in place + 1..window.high + 1 {
            if self.rows.row(self.row).over {
                return Ok(found);
            }
            if self.meets(byte_at(slice, index)) {
                found.push(index)?;
            }
        }
        Ok(found)
    }

    /// Shows the next byte, or None for the slice's end, and counts it. False tells that the span is known.
    #[inline(always)]
    pub fn advance<L: Ledger>(&mut self, next: Option<u8>, steps: &mut Steps<L>) -> bool
        requires { IsSome next → self.old.at < usize.MAX }
        ensures counted { steps.new ≡ steps.old + 1 }
        ensures seen { IfSome next (SeesNext (state_of self.old) (state_of self.new)) }
        ensures known { IfSome next (SettlesUnless result (state_of self.old) (state_of self.new)) }
        ensures ended { IfNone next ((result ≡ false) × HasEnded (state_of self.old) (state_of self.new)) }
        ensures begin { self.new.begin ≡ self.old.begin }
        ensures shown { MatchOption next (self.new.at ≡ self.old.at) (λ _. self.new.at ≡ self.old.at + 1) }
    {
        steps.tick();
        match next {
            Some(byte) => self.show(byte),
            None => {
                self.finish();
                false
            }
        }
    }

    /// The span, once `advance` has told that it is known.
    pub fn span(&self) -> Option<Cap>
        ensures value { result ≡ self.now.best }
        ensures found { (t : Tree) (s : List ℕ) → HasFound (state_of self.now) t s →
            IsSpan s t self.now.begin result }
    {
        self.best
    }
}

/// Whether the place is the slice's start, or lies behind a newline.
pub(crate) fn is_line_start(slice: &[u8], place: usize) -> bool
    requires { place ≤ length slice.now }
    ensures { result ≡ is_line_start slice.now place }
{
    place == 0 || slice[place - 1] == b'\n'
}

/// Whether a match is still sought once this thread was met.
fn seeks(searching: bool, met: Option<usize>) -> bool
    ensures { result ≡ (searching && is_none met) }
{
    searching && met.is_none()
}
