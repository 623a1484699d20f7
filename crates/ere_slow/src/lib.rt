//! The plain, slow program beside the definitions of `ere_tree`: it lists the derivations of an expression one by one.
//! Later matchers are compared with it on small texts.
#![tactic(auto)]

mod begin;
mod limit;
mod settings;
mod slow;
mod way;

pub use limit::{Limit, MAX_STEPS};
pub use settings::{GroupSettings, Setting};
pub use slow::{Derivation, derivations, slow_hit, slow_hit_from};
pub use way::{OwnedStep, OwnedWay, OwnedWays};
