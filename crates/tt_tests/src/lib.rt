//! Tests of the crates that each program stands on: lists and places, words, what a tool is handed from outside, the frame of
//! a run, `not` and `count` where a read fails, and the trusted edge over the system's own streams, files, folders and programs.
#![tactic(auto)]

#[cfg(test)]
mod base;
#[cfg(test)]
mod children;
#[cfg(test)]
mod equal;
#[cfg(test)]
mod folders;
#[cfg(test)]
mod hired;
#[cfg(test)]
mod options;
#[cfg(test)]
mod outside;
#[cfg(test)]
mod paths;
#[cfg(test)]
mod plain;
#[cfg(test)]
mod rows;
#[cfg(test)]
mod run;
#[cfg(test)]
mod status;
#[cfg(test)]
mod streams;
#[cfg(test)]
mod tree;
#[cfg(test)]
mod words;
#[cfg(test)]
mod written;
