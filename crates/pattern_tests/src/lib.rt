//! Tests of patterns: numbers, their spellings and blocks, bodies of directives, variables, and where patterns are found.
#![tactic(auto)]

#[cfg(test)]
mod blocks;
#[cfg(test)]
mod bodies;
#[cfg(test)]
mod numbers;
#[cfg(test)]
mod rows;
#[cfg(test)]
mod seeking;
#[cfg(test)]
mod spelling;
#[cfg(test)]
mod variables;
