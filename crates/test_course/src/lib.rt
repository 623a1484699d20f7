//! What a test asks of the outside, as a course: what is asked now, and for each reply how it goes on. What a course asks,
//! and in which room, is said here for all that is played above: the lines of a script, its attempts, and a whole test.
#![tactic(auto)]

mod kept;
mod laws;

pub use kept::{COUNTED, LIMIT, MAX_KEPT, kept_bytes, own_bytes, reply_bytes};
pub use laws::{law_of_few_bytes, law_of_few_entries, law_of_steadiness};
