//! lit as one call over objects that are handed in: words, a tree of directories, a crew whose hands run programs, and two
//! streams. After LLVM Command Guide, lit. The program `lit` stands above; how tests are run and reported is below.
#![tactic(auto)]

mod answer;
mod kept;
mod message;
mod run;
mod stop;
mod tests;

pub use run::lit_run;
pub use run_report::{LIT, LitEnd};
pub use stop::LitStop;
