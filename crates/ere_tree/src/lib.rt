//! Regular expressions as trees: POSIX extended regular expressions (POSIX.1 XBD 9.4) with back-references, their
//! parser, their classes, and the definitions of what they match. Everything about matching stands on this crate.
#![tactic(auto)]

mod bound;
mod bracket;
mod byte_set;
mod case;
mod classes;
mod copy;
mod ere;
mod fault;
mod folded;
mod front;
mod hit;
mod laws;
mod level;
mod parser;
mod shape;
mod token;

pub use bound::MAX_BOUND;
pub use byte_set::ByteSet;
pub use classes::class;
pub use ere::{ByteRun, Ere, EreList};
pub use fault::{EreFail, EreFault, EreKind};
pub use hit::{Cap, Caps, Hit};
pub use laws::{law_of_preference, law_of_the_hit};
pub use parser::{MAX_DEPTH, MAX_SIZE, parse};
