//! Tests of how a test runs: scripts and features, replacements, the lines of lit's shell and how they are played, and tests over
//! planned replies.
#![tactic(auto)]

#[cfg(test)]
mod crews;
#[cfg(test)]
mod features;
#[cfg(test)]
mod plays;
#[cfg(test)]
mod replacements;
#[cfg(test)]
mod rows;
#[cfg(test)]
mod scripts;
#[cfg(test)]
mod shell;
#[cfg(test)]
mod trials;
