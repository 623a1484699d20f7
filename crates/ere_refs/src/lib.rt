//! What an expression with references matches from one place, and what its groups hold: ends are tried from the greatest
//! down, and over each span lists of what groups hold are made part by part, the preferred first; of those that agree on
//! what is still read behind, the first alone is kept.
#![tactic(auto)]

mod ends;
mod held;
mod kept;
mod laws;
mod lists;
mod live;
mod row;
mod sets;
mod site;
mod tries;
mod trying;

pub use laws::{law_of_lists, law_of_live};
pub use sets::refs_fit;
pub use tries::{MAX_KEPT, MAX_TRIES, Tries};
pub use trying::{Found, try_from};
