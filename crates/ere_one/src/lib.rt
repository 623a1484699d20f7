//! The longest span of an expression from one place, where the expression leaves nothing to choose: one walk along the
//! slice finds it, and takes no memory. A search stands on this crate.
#![tactic(auto)]

mod follow;
mod leaf;
mod walking;

pub use walking::{Walked, only_end, walk};
