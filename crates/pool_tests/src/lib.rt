//! Tests of runs: reports, also in JSON, and what changed between two; what comes to a desk of a run, the numbers that workers draw, tests
//! that are run by one hand and by several workers, and whole runs of `lit`: of which a call fails, and by hands that answer FileCheck,
//! `count` and `not` by themselves.
#![tactic(auto)]

#[cfg(test)]
mod changes;
#[cfg(test)]
mod claimed;
#[cfg(test)]
mod demo;
#[cfg(test)]
mod desks;
#[cfg(test)]
mod gates;
#[cfg(test)]
mod inside;
#[cfg(test)]
mod json_reports;
#[cfg(test)]
mod pools;
#[cfg(test)]
mod reports;
#[cfg(test)]
mod rows;
#[cfg(test)]
mod runs;
#[cfg(test)]
mod shown;
#[cfg(test)]
mod whole;
