//! How a test ended.
use crate::text::Text;
use test_outcome::Outcome;

/// How a test ended: its result, and its transcript.
#[derive(Drop, Debug)]
pub struct Ending {
    pub outcome: Outcome,
    pub text: Text,
}
