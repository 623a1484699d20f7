//! A crew inside lit: its hands answer FileCheck, `count` and `not` by themselves, over files that another crew's hands read, and hand
//! every other request on. Own form. The program `lit_in` stands above.
#![tactic(auto)]

mod crew;
mod hand;

pub use crew::InCrew;
pub use hand::{InHand, answer};
