//! Which tests of a run `--select` and `--drop` keep. Own rule; an expression is found in a name after POSIX.1 XBD 9.4.
#![tactic(auto)]

mod finder;
mod selection;

pub use selection::select;
