//! A table of nodes.
ghost use Rattle.std.specs.Prelude.{◌≡◌, ℕ, ◌<◌, false, vec_len, IfOk};
ghost use Rattle.ere_tree.specs.Shape.{has_refs};
ghost use Rattle.ere_tree.specs.View.{view};
ghost use Rattle.ere_table.specs.Node.{furthest_at};
ghost use Rattle.ere_table.specs.Path.{LeadsAs};

use crate::node::EreNode;
use ere_tree::Ere;
use std::alloc::{AllocError, Global};

/// For how many nodes there is room at first: most expressions have fewer.
const FIRST_NODES: usize = 20;

/// An expression as nodes that name each other by their places. It is entered at `entry`, and left at node 0.
#[derive(Drop, Debug)]
pub struct NodeTable {
    pub nodes: Vec<EreNode>,
    pub entry: usize,
    pub ghost entered: { entry < vec_len nodes },
    pub ghost closed: { (q : ℕ) → q < vec_len nodes → furthest_at nodes.items q < vec_len nodes },
}

impl NodeTable {
    /// The table of an expression. It has about as many nodes as the expression has places once its bounds are
    /// unfolded.
    #[tactic(auto, using(crate::proofs::TableLemmas::leads_as))]
    pub fn build(alloc: Global, ere: &Ere) -> Result<NodeTable, AllocError>
        requires { has_refs (view ere.now) ≡ false }
        ensures { IfOk result (λ table. LeadsAs table.nodes.items table.entry (view ere.now)) }
    {
        let mut nodes = Vec::with_capacity(alloc, FIRST_NODES)?;
        nodes.push_reserved(EreNode::Stop);
        let mut table = NodeTable { nodes, entry: 0 };
        table.put(ere)?;
        Ok(table)
    }
}
