//! Laws of the definition of compiling: the bodies of a check file come to one thing. Two lists of directives that the
//! definition allows are the same to scanning, no body is both compiled and refused, and one refusal is told.
#![tactic(auto)]

mod laws;

pub use laws::law_of_compiling;
