//! Prefixes as a tree of bytes, a trie: which of them is meant at a place, in a time that doesn't depend on how many there are.
#![tactic(auto)]

mod heads;
mod standing;
mod tree;
mod turns;

pub use standing::Standing;
pub use tree::PrefixTree;
