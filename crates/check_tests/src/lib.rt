//! Tests of check files: their prefixes and lines, the program that they are, and what it finds amiss in an input; of dumps of an input,
//! and check files that are made from outputs; and of `filecheck` by what memory alone can show: calls that fail, streams with
//! little room, bytes that move one at a time, and what its words and definitions become. Whole runs are rows of `rows/`.
#![tactic(auto)]

#[cfg(test)]
mod asked;
#[cfg(test)]
mod counts;
#[cfg(test)]
mod defines;
#[cfg(test)]
mod dumps;
#[cfg(test)]
mod faults;
#[cfg(test)]
mod fields;
#[cfg(test)]
mod lines;
#[cfg(test)]
mod makes;
#[cfg(test)]
mod marking;
#[cfg(test)]
mod objects;
#[cfg(test)]
mod pieces;
#[cfg(test)]
mod prefixes;
#[cfg(test)]
mod rows;
#[cfg(test)]
mod scans;
