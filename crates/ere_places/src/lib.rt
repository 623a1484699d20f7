//! The places that an expression without references leads to from given ones: the ends of its spans ahead, or the
//! starts of its spans back, as sets of bits. Captures inside a known span stand on this crate.
#![tactic(auto)]

mod leaf;
mod list;
mod reach;
mod seen;
mod window;

pub use list::{nearest, put_new};
pub use reach::{image, image_of_repeat};
pub use seen::Seen;
pub use window::{Direction, Window};
