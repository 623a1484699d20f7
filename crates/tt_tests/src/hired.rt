//! Requests to a hand that is hired for one alone.
use std::alloc::Global;
use tt_base::NoMemory;
use tt_outside::{Crew, Reply, Request, Runner};

/// The reply of a hand that is hired for a test and dismissed.
pub(crate) fn reply_to<C: Crew>(
    alloc: Global,
    crew: &mut C,
    test: u64,
    request: &Request,
) -> Result<Reply, NoMemory>
    requires { C.ready crew.old }
    ensures { C.ready crew.new }
{
    let mut hand = crew.hire(alloc, 1)?;
    hand.begin(test);
    let reply = hand.ask(alloc, &[], request);
    crew.dismiss(hand);
    reply
}
