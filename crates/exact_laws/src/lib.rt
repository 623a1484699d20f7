//! The theorem of check files that are made from outputs, over the public definitions of reading, compiling and scanning.
#![tactic(auto)]

mod laws;

pub use laws::law_of_exactness;
