//! A tree in memory.
ghost use Rattle.std.specs.Prelude.{◌≡◌, ◌≢◌, ◌≤◌, ◌↔◌, IfOk, IfSome, Some, Err, IsTrue, length, map, true};
ghost use Rattle.tt_outside.specs.Faults.{Lasts, Rose};
ghost use Rattle.tt_outside.specs.TreeMap.{GivesCount, GivesItems, GivesText, are_nested};

use crate::listing::{keep_named, kind_at, list_nodes, node_at};
use crate::plan::Plan;
use crate::tree::{Counted, Item, ItemKind, Node, Tree, TreeFault};
use std::alloc::Global;
use tt_base::{Bytes, Items, NoMemory};

/// A tree in memory, some of whose calls may be planned to fail. Of several nodes of one path the first counts, and each
/// path above a node is a directory.
#[derive(Drop, Debug)]
pub struct MemTree {
    base: Bytes,
    nodes: Items<Node>,
    plan: Plan,
    ghost nested: { are_nested nodes ≡ true },
}

impl MemTree {
    ghost use Rattle.tt_outside.specs.TreeOf.{tree_base, tree_nodes, tree_plan};
    ghost use Rattle.tt_outside.specs.Plan.{first_plan};

    /// These nodes. The calls whose numbers, from 0, stand in `fails` fail.
    pub fn new(
        alloc: Global,
        base: &[u8],
        nodes: Items<Node>,
        fails: &[u64],
    ) -> Result<MemTree, NoMemory>
        requires { are_nested nodes ≡ true }
        ensures base { IfOk result (λ made. tree_base made ≡ base.now) }
        ensures nodes { IfOk result (λ made. tree_nodes made ≡ nodes) }
        ensures plan { IfOk result (λ made. tree_plan made ≡ first_plan fails.now) }
    {
        Ok(MemTree {
            base: Bytes::from_slice(alloc, base)?,
            nodes,
            plan: Plan::new(alloc, fails)?,
        })
    }
}

/// What a directory lists.
fn list_dir(alloc: Global, nodes: &[Node], dir: &[u8]) -> Result<Items<Item>, TreeFault>
    ensures gives { GivesItems (Some nodes.now) dir.now result }
    ensures small { result ≢ Err TreeFault.TooLarge }
    ensures calm { result ≢ Err TreeFault.Failed }
{
    match kind_at(alloc, nodes, dir) {
        Ok(Some(ItemKind::Dir)) => match list_nodes(alloc, nodes, dir) {
            Ok(items) => Ok(items),
            Err(NoMemory) => Err(TreeFault::NoMemory),
        },
        Ok(Some(ItemKind::File)) => Err(TreeFault::NotDirectory),
        Ok(Some(ItemKind::Other)) => Err(TreeFault::Missing),
        Ok(None) => Err(TreeFault::Missing),
        Err(NoMemory) => Err(TreeFault::NoMemory),
    }
}

/// How many items a directory lists, and those of some names.
fn count_dir(
    alloc: Global,
    nodes: &[Node],
    dir: &[u8],
    names: &[&str],
) -> Result<Counted, TreeFault>
    ensures gives { GivesCount (Some nodes.now) dir.now (map (λ name. name.now) names.now) result }
    ensures small { result ≢ Err TreeFault.TooLarge }
    ensures calm { result ≢ Err TreeFault.Failed }
{
    match list_dir(alloc, nodes, dir) {
        Ok(items) => Ok(Counted {
            count: items.len(),
            named: keep_named(items, names),
        }),
        Err(fault) => Err(fault),
    }
}

/// The bytes of a file.
fn read_node(alloc: Global, nodes: &[Node], path: &[u8], limit: u64) -> Result<Bytes, TreeFault>
    ensures gives { GivesText (Some nodes.now) path.now limit result }
    ensures within { IfOk result (λ bytes. length bytes ≤ limit) }
    ensures file { result ≢ Err TreeFault.NotDirectory }
    ensures calm { result ≢ Err TreeFault.Failed }
{
    let Some(node) = node_at(nodes, path) else {
        return Err(TreeFault::Missing);
    };
    if node.kind != ItemKind::File {
        return Err(TreeFault::Missing);
    }
    if node.bytes.len() as u64 > limit {
        return Err(TreeFault::TooLarge);
    }
    match Bytes::from_slice(alloc, node.bytes.as_slice()) {
        Ok(bytes) => Ok(bytes),
        Err(NoMemory) => Err(TreeFault::NoMemory),
    }
}

impl Tree for MemTree {
    ghost use Rattle.tt_outside.specs.TreeOf.{tree_base, tree_faults, tree_nodes, tree_plan, tree_steady};
    ghost use Rattle.tt_outside.specs.Plan.{after_call, fails_next};

    ghost nodes = { λ tree. Some (tree_nodes tree) };

    ghost root = { λ tree. tree_base tree };

    ghost faults = { tree_faults };

    ghost steady = { tree_steady };

    fn base(&self) -> &[u8] {
        self.base.as_slice()
    }

    fn list(&mut self, alloc: Global, dir: &[u8]) -> Result<Items<Item>, TreeFault>
        ensures fails { result ≡ Err TreeFault.Failed ↔ IsTrue (fails_next (tree_plan self.old)) }
        ensures counts { tree_plan self.new ≡ after_call (tree_plan self.old) }
        ensures gives { GivesItems (Some (tree_nodes self.old)) dir.now result }
        ensures small { result ≢ Err TreeFault.TooLarge }
        ensures nodes { Some (tree_nodes self.new) ≡ Some (tree_nodes self.old) }
        ensures root { tree_base self.new ≡ tree_base self.old }
        ensures later { tree_faults self.old ≤ tree_faults self.new }
        ensures cause { result ≡ Err TreeFault.Failed → Rose (tree_faults self.old) (tree_faults self.new) }
        ensures calm { result ≢ Err TreeFault.Failed → tree_faults self.new ≡ tree_faults self.old }
        ensures steady { Lasts tree_steady tree_faults self.old self.new (result ≢ Err TreeFault.Failed) }
    {
        if self.plan.call() {
            return Err(TreeFault::Failed);
        }
        list_dir(alloc, self.nodes.as_slice(), dir)
    }

    fn count(&mut self, alloc: Global, dir: &[u8], names: &[&str]) -> Result<Counted, TreeFault>
        ensures fails { result ≡ Err TreeFault.Failed ↔ IsTrue (fails_next (tree_plan self.old)) }
        ensures counts { tree_plan self.new ≡ after_call (tree_plan self.old) }
        ensures gives { GivesCount (Some (tree_nodes self.old)) dir.now (map (λ name. name.now) names.now) result }
        ensures small { result ≢ Err TreeFault.TooLarge }
        ensures nodes { Some (tree_nodes self.new) ≡ Some (tree_nodes self.old) }
        ensures root { tree_base self.new ≡ tree_base self.old }
        ensures later { tree_faults self.old ≤ tree_faults self.new }
        ensures cause { result ≡ Err TreeFault.Failed → Rose (tree_faults self.old) (tree_faults self.new) }
        ensures calm { result ≢ Err TreeFault.Failed → tree_faults self.new ≡ tree_faults self.old }
        ensures steady { Lasts tree_steady tree_faults self.old self.new (result ≢ Err TreeFault.Failed) }
    {
        if self.plan.call() {
            return Err(TreeFault::Failed);
        }
        count_dir(alloc, self.nodes.as_slice(), dir, names)
    }

    fn read_all(&mut self, alloc: Global, name: &[u8], limit: u64) -> Result<Bytes, TreeFault>
        ensures fails { result ≡ Err TreeFault.Failed ↔ IsTrue (fails_next (tree_plan self.old)) }
        ensures counts { tree_plan self.new ≡ after_call (tree_plan self.old) }
        ensures gives { GivesText (Some (tree_nodes self.old)) name.now limit result }
        ensures within { IfOk result (λ bytes. length bytes ≤ limit) }
        ensures file { result ≢ Err TreeFault.NotDirectory }
        ensures nodes { Some (tree_nodes self.new) ≡ Some (tree_nodes self.old) }
        ensures root { tree_base self.new ≡ tree_base self.old }
        ensures later { tree_faults self.old ≤ tree_faults self.new }
        ensures cause { result ≡ Err TreeFault.Failed → Rose (tree_faults self.old) (tree_faults self.new) }
        ensures calm { result ≢ Err TreeFault.Failed → tree_faults self.new ≡ tree_faults self.old }
        ensures steady { Lasts tree_steady tree_faults self.old self.new (result ≢ Err TreeFault.Failed) }
    {
        if self.plan.call() {
            return Err(TreeFault::Failed);
        }
        read_node(alloc, self.nodes.as_slice(), name, limit)
    }
}
