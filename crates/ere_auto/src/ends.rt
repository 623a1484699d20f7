//! Where an expression that begins at one of some places ends.
ghost use Rattle.std.specs.Prelude.{◌≡◌, ◌≤◌, [], false, length, vec_len, IfOk, OnOk};
ghost use Rattle.std.specs.List.{All};
ghost use Rattle.ere_tree.specs.Shape.{has_refs};
ghost use Rattle.ere_tree.specs.Tree.{Tree};
ghost use Rattle.ere_tree.specs.View.{view};
ghost use Rattle.ere_table.specs.Path.{LeadsAs};
ghost use Rattle.ere_places.specs.Places.{Finds, IsInside};
ghost use Rattle.ere_places.specs.declared.window.Direction.TheVariants.{Ahead};
ghost use Rattle.ere_auto.specs.Ends.{AreOne, PassesAll, StandsAll};
ghost use Rattle.ere_auto.specs.Seen.{IsFor};
ghost use Rattle.ere_auto.specs.State.{state_of};

use crate::auto::{Auto, is_line_start};
use crate::closure::close;
use crate::moves::go_on;
use crate::step::{byte_at, ends_line};
use crate::threads::Threads;
use ere_places::{Direction, Seen, Window, image, nearest, put_new};
use ere_table::NodeTable;
use ere_tree::Ere;
use std::alloc::{AllocError, Global};

/// How wide a window is that isn't gone through member by member.
const WIDE: usize = 200;

/// From how many places it is gone through one by one.
const FEW: usize = 32;

/// A walk over a text: the threads that stand at a place, and room for those that are reached there and go on.
#[derive(Drop)]
struct Walk {
    table: NodeTable,
    standing: Threads,
    reached: Threads,
    moved: Threads,
    ghost standing_nodes: { length standing.marks ≡ vec_len table.nodes },
    ghost reached_nodes: { length reached.marks ≡ vec_len table.nodes },
    ghost moved_nodes: { length moved.marks ≡ vec_len table.nodes },
}

impl Walk {
    fn new(alloc: Global, ere: &Ere) -> Result<Walk, AllocError>
        requires { has_refs (view ere.now) ≡ false }
        ensures table { IfOk result (λ walk. LeadsAs walk.table.nodes.items walk.table.entry (view ere.now)) }
        ensures none { IfOk result (λ walk. walk.standing.held.items ≡ []) }
    {
        let table = NodeTable::build(alloc, ere)?;
        let nodes = table.nodes.len();
        let standing = Threads::new(alloc, nodes)?;
        let reached = Threads::new(alloc, nodes)?;
        let moved = Threads::new(alloc, nodes)?;
        Ok(Walk {
            table,
            standing,
            reached,
            moved,
        })
    }

    /// Stands at the entry too, where the place is one of those at which a walk begins.
    fn stand(&mut self, begins: &Seen, place: usize)
        requires { AreOne self.old.standing.held.items }
        ensures table { self.new.table ≡ self.old.table }
        ensures one { AreOne self.new.standing.held.items }
        ensures stands { StandsAll self.old.table begins.now place self.old.standing.held.items
            self.new.standing.held.items }
    {
        if begins.has(place) {
            self.standing.add(self.table.entry, 0);
        }
    }

    /// Goes past a place, and tells whether it comes to the stop there.
    fn pass(&mut self, text: &[u8], place: usize) -> bool
        requires within { place ≤ length text.now }
        requires one { AreOne self.old.standing.held.items }
        ensures table { self.new.table ≡ self.old.table }
        ensures one { AreOne self.new.standing.held.items }
        ensures passes { PassesAll text.now self.old.table place self.old.standing.held.items
            self.new.standing.held.items result }
    {
        let table = &self.table;
        let standing = &self.standing;
        let seeds = standing.held.as_slice();
        let starts = is_line_start(text, place);
        let next = byte_at(text, place);
        let ends = ends_line(next);
        close(table, seeds, starts, ends, &mut self.reached);
        let reached = &self.reached;
        let moves = go_on(table, seeds, reached.held.as_slice(), next, &mut self.moved);
        std::mem::swap(&mut self.standing, &mut self.moved);
        moves.met.is_some()
    }
}

/// The least of some places, or this one where it is less.
fn least_of(places: &[usize], most: usize) -> usize
    ensures within { result ≤ most }
    ensures least { All (λ p. result ≤ p) places.now }
{
    let mut least = most;
    for place in places {
        least = least.min(*place);
    }
    least
}

/// The greatest of some places.
fn greatest_of(places: &[usize]) -> usize
    ensures { All (λ p. p ≤ result) places.now }
{
    let mut greatest = 0usize;
    for place in places {
        greatest = greatest.max(*place);
    }
    greatest
}

/// The places that `ends_from` tells of the automaton's expression, from one place after the other: the automaton keeps its
/// steps, so it takes one for a byte.
pub fn ends_by(
    automaton: &mut Auto,
    alloc: Global,
    text: &[u8],
    window: Window,
    from: &[usize],
) -> Result<Vec<usize>, AllocError>
    requires expression { (t : Tree) × IsFor (state_of automaton.old) t }
    requires ahead { window.direction ≡ Ahead }
    requires window { window.high ≤ length text.now }
    requires inside { All (IsInside window) from.now }
    ensures ends { (t : Tree) → IsFor (state_of automaton.old) t → IfOk result (Finds text.now t window from.now) }
    ensures kept { (t : Tree) → IsFor (state_of automaton.old) t → OnOk result (IsFor (state_of automaton.new) t) }
{
    let mut seen = Seen::new(alloc, window.direction, nearest(window.direction, from));
    let mut all = Vec::new(alloc);
    for place in from {
        let ends = automaton.ends_alone(alloc, text, window, *place)?;
        put_new(ends.as_slice(), &mut seen, &mut all)?;
    }
    Ok(all)
}

/// The places that `ends_from` tells, in one pass over the text: it takes as many steps for a place as the expression has nodes
/// once its bounds are unfolded.
fn walked(
    alloc: Global,
    ere: &Ere,
    text: &[u8],
    window: Window,
    from: &[usize],
) -> Result<Vec<usize>, AllocError>
    requires no_refs { has_refs (view ere.now) ≡ false }
    requires ahead { window.direction ≡ Ahead }
    requires window { window.high ≤ length text.now }
    requires inside { All (IsInside window) from.now }
    ensures { IfOk result (Finds text.now (view ere.now) window from.now) }
{
    let first = least_of(from, window.high);
    let last = greatest_of(from);
    let begins = Seen::of(alloc, Direction::Ahead, first, from)?;
    let mut walk = Walk::new(alloc, ere)?;
    let mut found = Vec::new(alloc);
    for place in first..window.high + 1 {
        walk.stand(&begins, place);
        if place > last && walk.standing.held.is_empty() {
            return Ok(found);
        }
        if walk.pass(text, place) {
            found.push(place)?;
        }
    }
    Ok(found)
}

/// The places of the window to which the expression leads ahead from some of its places, as `image` tells them. Where repeats
/// stand in repeats that goes through the text anew for each member, so a wide window is gone through once.
pub fn ends_from(
    alloc: Global,
    ere: &Ere,
    text: &[u8],
    window: Window,
    from: &[usize],
) -> Result<Vec<usize>, AllocError>
    requires no_refs { has_refs (view ere.now) ≡ false }
    requires ahead { window.direction ≡ Ahead }
    requires window { window.high ≤ length text.now }
    requires inside { All (IsInside window) from.now }
    ensures { IfOk result (Finds text.now (view ere.now) window from.now) }
{
    if window.high.saturating_sub(window.low) < WIDE {
        return image(alloc, ere, text, window, from);
    }
    if from.len() <= FEW {
        let mut automaton = Auto::new(alloc, ere)?;
        return ends_by(&mut automaton, alloc, text, window, from);
    }
    walked(alloc, ere, text, window, from)
}
