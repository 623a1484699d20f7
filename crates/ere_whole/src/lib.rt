//! Whether an expression without references matches a text as a whole. It takes no memory: places of the text are
//! kept as bits, block by block, and what leads from block to block is halved, as Savitch's search is.
#![tactic(auto)]

mod leaf;
mod places;
mod reach;
mod whole;

pub use whole::matches_whole;
