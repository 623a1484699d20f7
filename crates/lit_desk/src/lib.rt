//! lit's desk: what takes the tests of a run one by one, in their order. It writes the part of each into the report, and adds up
//! the bytes that they keep, of which a run has at most 2 GiB. Own rule.
#![tactic(auto)]

mod desk;
mod laws;
mod stop;

pub use desk::{LitDesk, MAX_KEPT};
pub use laws::law_of_putting;
pub use stop::DeskStop;
