//! Lists of threads, in which no node stands twice.
ghost use Rattle.std.specs.Prelude.{◌≡◌, ◌≢◌, ℕ, ◌<◌, ◌≤◌, [], false, length, vec_len, vec_capacity, slice_index_or, IfOk};
ghost use Rattle.ere_table.specs.Node.{node_of, furthest};
ghost use Rattle.ere_auto.specs.Closure.{node_in, has_node, HasNode, Skips};
ghost use Rattle.ere_auto.specs.Marks.{members};
ghost use Rattle.ere_auto.specs.Threads.{Adds, Grown, Took};

use crate::marks::Marks;
use crate::taking::taken;
use crate::thread::Thread;
use ere_table::EreNode;
use std::alloc::{AllocError, Global};

/// Threads in order, of which no two stand on one node. Room for one on each node is taken when it is made.
#[derive(Drop)]
pub struct Threads {
    pub held: Vec<Thread>,
    pub marks: Marks,
    ghost room: { length marks ≤ vec_capacity held },
    ghost counted: { vec_len held ≡ members marks },
    pub ghost fits: { vec_len held ≤ length marks },
    ghost listed: { (q : ℕ) → slice_index_or marks q false ≡ has_node held.items q },
    pub ghost within: { (x : ℕ) → x < length held.items → node_in held.items x < length marks },
}

impl Threads {
    /// No threads, and room for one on each of so many nodes.
    pub fn new(alloc: Global, nodes: usize) -> Result<Threads, AllocError>
        ensures none { IfOk result (λ made. made.held.items ≡ []) }
        ensures nodes { IfOk result (λ made. length made.marks ≡ nodes) }
    {
        let held = Vec::with_capacity(alloc, nodes)?;
        let marks = Marks::new(alloc, nodes)?;
        Ok(Threads { held, marks })
    }

    /// Drops all threads.
    pub fn clear(&mut self)
        ensures none { self.new.held.items ≡ [] }
        ensures nodes { length self.new.marks ≡ length self.old.marks }
    {
        self.held.clear();
        self.marks.clear();
    }

    /// Adds a thread at the end, unless its node has one.
    pub fn add(&mut self, node: usize, origin: usize)
        requires { node < length self.old.marks }
        ensures adds { Adds self.old.held.items self.new.held.items node origin }
        ensures nodes { length self.new.marks ≡ length self.old.marks }
    {
        if self.marks.insert(node) {
            self.held.push_reserved(Thread { node, origin });
        }
    }

    /// Adds the nodes to which a node goes on without a byte.
    pub fn follow(&mut self, node: EreNode, starts: bool, ends: bool, origin: usize)
        requires { furthest node < length self.old.marks }
        ensures grown { Grown self.old.held.items self.new.held.items origin (Skips starts ends (node_of node)) }
        ensures all { (q : ℕ) → Skips starts ends (node_of node) q → HasNode self.new.held.items q }
        ensures nodes { length self.new.marks ≡ length self.old.marks }
    {
        match node {
            EreNode::Fork { one, other } => {
                self.add(one, origin);
                self.add(other, origin);
            }
            EreNode::AtStart { next } => {
                if starts {
                    self.add(next, origin);
                }
            }
            EreNode::AtEnd { next } => {
                if ends {
                    self.add(next, origin);
                }
            }
            EreNode::Stop | EreNode::Byte { .. } | EreNode::Set { .. } | EreNode::Fail => {}
        }
    }

    /// Adds the node to which a node goes on by the next byte.
    pub fn take(&mut self, node: EreNode, next: Option<u8>, origin: usize)
        requires { furthest node < length self.old.marks }
        ensures took { Took (node_of node) next self.old.held.items self.new.held.items origin }
        ensures nodes { length self.new.marks ≡ length self.old.marks }
    {
        if let Some(byte) = next {
            if let Some(to) = taken(node, byte) {
                self.add(to, origin);
            }
        }
    }
}
