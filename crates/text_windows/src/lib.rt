//! Which short windows of bytes a text has, and where first: one pass over it tells of many texts that they don't stand in it,
//! or don't before a place. The idea: a table of windows of four bytes by their hashes, as a Bloom filter has, which may clash and so tell
//! absence alone. Own rule.
#![tactic(auto)]

mod firsts;
mod windows;

pub use firsts::Firsts;
pub use windows::Windows;
