//! Laws of the answers of `filecheck`: words, readings and room leave one answer, though programs are told by a relation.
#![tactic(auto)]

mod laws;

pub use laws::law_of_answers;
