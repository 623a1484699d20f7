//! Where an expression matches in a slice of a text, and what its groups hold. Without references: the leftmost longest
//! span, by an automaton that is built once and kept, with plain text telling where a match can begin; and inside that
//! span the captures. With references its greatest end is told, it is tried part by part, or its derivations are listed, from
//! where a filter without references lets one begin.
#![tactic(auto)]

mod bytes;
mod ends;
mod filter;
mod line;
mod literal;
mod search;
mod span;
mod starts;

pub use literal::earliest;
pub use search::{Search, find, hit_span};
pub use span::find_span;
