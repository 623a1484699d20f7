//! Where an expression with references ends from one place: sets of places, with what the groups hold there that a reference
//! behind them still reads.
#![tactic(auto)]

mod asked;
mod budget;
mod closing;
mod ending;
mod frame;
mod held;
mod live;
mod memo;
mod moving;
mod reach;
mod row;
mod rows;
mod same;
mod site;

pub use budget::{Budget, MAX_STEPS};
pub use ending::{ends_nowhere, greatest_end};
