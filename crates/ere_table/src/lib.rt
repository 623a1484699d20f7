//! Regular expressions without references as tables of nodes that lead through a text: Thompson's NFA, with bounds unfolded.
//! The automaton of the crate above runs over such a table, and never sees an expression.
#![tactic(auto)]

mod node;
mod put;
mod table;

pub use node::EreNode;
pub use table::NodeTable;
