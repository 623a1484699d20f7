//! What one directive comes to at a place of an input, what a group of DAGs does, and what NOTs tell of a region. After LLVM
//! Command Guide, FileCheck. Patterns are sought below, in `pattern_scan`; blocks of directives stand above this crate. The matches of a group stand in a ring buffer, in order of
//! their places, and those that a try overlaps are found by halves.
#![tactic(auto)]

mod alone;
mod answer;
mod directive;
mod fault;
mod group;
mod laws;
mod lines;
mod near;
mod ranges;
mod region;
mod tries;

pub use alone::match_alone;
pub use answer::{Matched, Met, look};
pub use directive::Check;
pub use fault::{Fault, FaultKind};
pub use group::place_group;
pub use laws::{members_apart, tries_are_a_chain};
pub use region::test_region;
