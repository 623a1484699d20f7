//! Lines of check files that look like directives and are none, so that nobody reads them: a letter is amiss in a suffix or a prefix, an
//! underscore or a blank stands where the hyphen should, a blank stands before the colon, or the colon is missing. Own form; `filecheck`
//! passes over such lines in silence, as LLVM's FileCheck does. What is told is advice, and no rule of `filecheck` hangs on it.
#![tactic(auto)]

mod lint;
mod meant;
mod near;
mod prefixes;
mod run;
mod word;

pub use lint::{LintRemark, remarks};
pub use near::is_near;
pub use prefixes::prefixes_in;
pub use run::{LINT, lint_run};
