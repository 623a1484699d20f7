//! What the next byte makes of the nodes that were reached.
ghost use Rattle.std.specs.Prelude.{◌≡◌, ℕ, ◌<◌, length, vec_len};
ghost use Rattle.std.specs.Bool.{MatchBool};
ghost use Rattle.ere_table.specs.Node.{node_at};
ghost use Rattle.ere_auto.specs.Closure.{node_in, origin_in, MetFirst, CutAt};
ghost use Rattle.ere_auto.specs.Moved.{Moved, Differs, Agrees, met_behind};

use crate::thread::Thread;
use crate::threads::Threads;
use ere_table::NodeTable;

/// What became of the nodes that were reached.
#[derive(Clone, Copy, Debug, PartialEq, Eq)]
pub struct Moves {
    /// The origin of the first thread that came to the stop.
    pub met: Option<usize>,
    /// How many of the reached nodes count: all, or those of this origin and before it.
    pub used: usize,
}

/// Whether another thread was met.
fn differs(met: Option<usize>, origin: usize) -> bool
    ensures { MatchBool result (Differs met origin) (Agrees met origin) }
{
    match met {
        Some(slot) => slot != origin,
        None => false,
    }
}

/// The thread that was met, once it is known on which node the next one stands.
fn met_at(met: Option<usize>, node: usize, origin: usize) -> Option<usize>
    ensures { result ≡ met_behind met node origin }
{
    if node == 0 { Some(origin) } else { met }
}

/// Where the reached nodes lead by the next byte. Once one has come to the stop, those of later starts don't count.
pub fn go_on(
    table: &NodeTable,
    seeds: &[Thread],
    reached: &[Thread],
    next: Option<u8>,
    moved: &mut Threads,
) -> Moves
    requires marks { length moved.old.marks ≡ vec_len table.now.nodes }
    requires within { (x : ℕ) → x < length reached.now → node_in reached.now x < vec_len table.now.nodes }
    requires from { (x : ℕ) → x < length reached.now → origin_in reached.now x < length seeds.now }
    ensures moved { Moved (node_at table.now.nodes.items) seeds.now reached.now moved.new.held.items next result.used }
    ensures met { MetFirst seeds.now reached.now result.used result.met }
    ensures cut { CutAt seeds.now reached.now result.used result.met }
    ensures nodes { length moved.new.marks ≡ length moved.old.marks }
{
    moved.clear();
    let mut met = None;
    let mut used = 0;
    while used < reached.len() {
        let thread = reached[used];
        let origin = seeds[thread.origin].origin;
        if differs(met, origin) {
            return Moves { met, used };
        }
        met = met_at(met, thread.node, origin);
        moved.take(table.nodes[thread.node], next, origin);
        used += 1;
    }
    Moves { met, used }
}
