//! What is reached without a byte.
ghost use Rattle.std.specs.Prelude.{◌≡◌, ℕ, ◌<◌, length, vec_len};
ghost use Rattle.ere_table.specs.Node.{node_at};
ghost use Rattle.ere_auto.specs.Closure.{node_in, Closed};

use crate::thread::Thread;
use crate::threads::Threads;
use ere_table::NodeTable;

/// All that the seeds reach without a byte. The first seed that reaches a node keeps it: so each seed is followed to
/// the end before the next is looked at.
pub fn close(table: &NodeTable, seeds: &[Thread], starts: bool, ends: bool, reached: &mut Threads)
    requires marks { length reached.old.marks ≡ vec_len table.now.nodes }
    requires within { (x : ℕ) → x < length seeds.now → node_in seeds.now x < vec_len table.now.nodes }
    ensures closed { Closed starts ends (node_at table.now.nodes.items) seeds.now reached.new.held.items }
    ensures nodes { length reached.new.marks ≡ length reached.old.marks }
{
    reached.clear();
    let mut next = 0;
    for index in 0..seeds.len() {
        reached.add(seeds[index].node, index);
        while next < reached.held.len() {
            let node = reached.held[next].node;
            reached.follow(table.nodes[node], starts, ends, index);
            next += 1;
        }
    }
}
