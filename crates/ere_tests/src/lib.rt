//! Tests of regular expressions: trees, worked examples of what matches where, and the fast programs beside the slow
//! one.
#![tactic(auto)]

#[cfg(test)]
mod automaton;
#[cfg(test)]
mod captures;
#[cfg(test)]
mod finding;
#[cfg(test)]
mod hits;
#[cfg(test)]
mod parsing;
#[cfg(test)]
mod places;
#[cfg(test)]
mod reach;
#[cfg(test)]
mod references;
#[cfg(test)]
mod relaxed;
#[cfg(test)]
mod rows;
#[cfg(test)]
mod shown;
#[cfg(test)]
mod slow;
#[cfg(test)]
mod spans;
#[cfg(test)]
mod table;
#[cfg(test)]
mod tree;
#[cfg(test)]
mod walks;
#[cfg(test)]
mod whole;
