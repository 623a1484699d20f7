//! What FileCheck, `count` and `not` answer to a request of a test, without a process of their own: what the request asks of a hand, and
//! the reply over the replies to that. Own rules: files, limits and answers are those of the tools where they run. `lit_inproc` hands
//! the requests to a hand.
#![tactic(auto)]

mod below;
mod files;
mod inside;
mod peeling;
mod told;
mod tool;

pub use inside::Inside;
