//! Numbers that workers draw, each once, from one word that they share. What is handed on between workers is this word alone.
#![tactic(auto)]

mod claims;
mod laws;
mod rule;
mod view;

pub use claims::{ClaimSeat, ClaimSet, Claims};
pub use laws::law_of_numbers;
pub use rule::{ClaimRule, Draws, OneShare, TakesOver};
pub use view::View;
