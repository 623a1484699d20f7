//! Tests of which tests there are: directories, suites, paths, what a test has, and trees that no system has. Whole runs are rows of `rows/`.
#![tactic(auto)]

#[cfg(test)]
mod looks;
#[cfg(test)]
mod lost;
#[cfg(test)]
mod paths;
#[cfg(test)]
mod rows;
#[cfg(test)]
mod suites;
#[cfg(test)]
mod tests_made;
#[cfg(test)]
mod trees;
#[cfg(test)]
mod wide;
