//! Laws of the definitions of scanning, which a reader believes: of a run of DAGs, of a directive's line and the region of a
//! NOT, and that what is found hangs on what scanning sees of directives and on nothing else.
#![tactic(auto)]

mod laws;

pub use laws::{law_of_blocks, law_of_groups, law_of_verdicts};
