//! A hand that answers some requests by itself.
ghost use Rattle.std.specs.Prelude.{◌≡◌, ◌≢◌, ◌≤◌, [], IfOk, OnOk, length, true};
ghost use Rattle.std.specs.List.{list_any};
ghost use Rattle.tt_outside.specs.Fits.{fits};
ghost use Rattle.tt_outside.specs.Gave.{SameGave, last_of};
ghost use Rattle.inner_answers.specs.Inside.{AreFit, asked_inside, is_broken};
ghost use Rattle.lit_inproc.specs.Inside.{AreGiven, RoseIf, in_gave, more};

use inner_answers::Inside;
use std::alloc::Global;
use tt_base::{Items, NoMemory};
use tt_outside::{Entry, Reply, Request, Runner};

/// A hand round another one.
#[derive(Drop)]
pub struct InHand<H> {
    pub(crate) hand: H,
    pub(crate) asked: u64,
}

impl<H> InHand<H> {
    /// Round a hand. It has answered nothing.
    pub(crate) fn round(hand: H) -> InHand<H>
        ensures { (result.hand ≡ hand) × (result.asked ≡ 0) }
    {
        InHand { hand, asked: 0 }
    }
}

/// Answers a request of the test that was begun last: by itself over what it asks of the hand, or by way of the hand.
pub fn answer<H: Runner>(
    alloc: Global,
    hand: &mut H,
    earlier: &[Entry],
    request: &Request,
) -> Result<Reply, NoMemory>
    requires begun { H.begun hand.old ≢ [] }
    requires ready { H.ready hand.old }
    ensures given { IfOk result (in_gave (H.gave hand.old) (last_of 0 (H.begun hand.old)) earlier.now request.now) }
    ensures fit { IfOk result (λ reply. fits request.now reply ≡ true) }
    ensures counted { OnOk result (H.asked hand.new ≡ more (H.asked hand.old) (length (asked_inside request.now))) }
    ensures later { H.faults hand.old ≤ H.faults hand.new }
    ensures rose { IfOk result (λ reply. RoseIf (is_broken reply) (H.faults hand.old) (H.faults hand.new)) }
    ensures begun { H.begun hand.new ≡ H.begun hand.old }
    ensures room { H.rooms hand.new ≡ H.rooms hand.old }
    ensures gave { SameGave (H.gave hand.new) (H.gave hand.old) }
    ensures ready { H.ready hand.new }
{
    let Some(inside) = Inside::of(alloc, request)? else {
        return hand.ask(alloc, earlier, request);
    };
    let asked = inside.asked(alloc, request)?;
    let replies = replies(alloc, hand, earlier, asked.as_slice())?;
    let reply = inside.reply(alloc, request, replies)?;
    Ok(reply)
}

/// What a hand answers to requests, to each behind the same entries.
fn replies<H: Runner>(
    alloc: Global,
    hand: &mut H,
    earlier: &[Entry],
    asked: &[Request],
) -> Result<Items<Reply>, NoMemory>
    requires begun { H.begun hand.old ≢ [] }
    requires ready { H.ready hand.old }
    ensures given { IfOk result (AreGiven (H.gave hand.old (last_of 0 (H.begun hand.old)) earlier.now) asked.now) }
    ensures fit { IfOk result (AreFit asked.now) }
    ensures counted { OnOk result (H.asked hand.new ≡ more (H.asked hand.old) (length asked.now)) }
    ensures later { H.faults hand.old ≤ H.faults hand.new }
    ensures rose { IfOk result (λ replies. RoseIf (list_any is_broken replies) (H.faults hand.old) (H.faults hand.new)) }
    ensures begun { H.begun hand.new ≡ H.begun hand.old }
    ensures room { H.rooms hand.new ≡ H.rooms hand.old }
    ensures gave { SameGave (H.gave hand.new) (H.gave hand.old) }
    ensures ready { H.ready hand.new }
{
    let mut replies = Items::new(alloc);
    for request in asked {
        let reply = hand.ask(alloc, earlier, request)?;
        replies.push(reply)?;
    }
    Ok(replies)
}

impl<H: Runner> Runner for InHand<H> {
    ghost use Rattle.lit_inproc.specs.Inside.{in_gave};

    ghost begun = { λ it. H.begun it.hand };

    ghost asked = { λ it. it.asked };

    ghost faults = { λ it. H.faults it.hand };

    ghost rooms = { λ it. H.rooms it.hand };

    ghost gave = { λ it. in_gave (H.gave it.hand) };

    ghost ready = { λ it. H.ready it.hand };

    fn begin(&mut self, test: u64) {
        self.hand.begin(test);
    }

    fn ask(
        &mut self,
        alloc: Global,
        earlier: &[Entry],
        request: &Request,
    ) -> Result<Reply, NoMemory> {
        let reply = answer(alloc, &mut self.hand, earlier, request)?;
        self.asked = self.asked.saturating_add(1);
        Ok(reply)
    }
}
