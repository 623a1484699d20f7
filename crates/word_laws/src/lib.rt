//! A law of the words of a command line: a list of words is its givens in order, each word once.
#![tactic(auto)]

mod laws;

pub use laws::law_of_words;
