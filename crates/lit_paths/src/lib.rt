//! Paths as lists of their parts: how a text reads as a path, and how a path is written. Own rule; what stands at a
//! path is the matter of a tree.
#![tactic(auto)]

mod laws;
mod reading;
mod writing;

pub use laws::law_of_paths;
pub use reading::{cut, joined, read_path};
pub use writing::{
    add_slashed, behind_path, chained, copied, cut_name, dir_of, front_of, is_above, text_of,
    with_name,
};
