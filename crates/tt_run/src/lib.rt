//! The frame of a tool's run: what reading gave, an answer before it is written, how it is written, and what every tool tells in the
//! same words. Each tool stands above, and says its contract in the words of specs/Run.antt.
#![tactic(auto)]

mod answer;
mod frame;
mod parts;
mod reading;

pub use answer::{Answer, answer_on};
pub use frame::ToolFrame;
pub use parts::answer_parts;
pub use reading::{Reading, read_named, read_source};
