//! A crew beside which a line of progress is shown.

use crate::line::ProgressLine;
use std::alloc::Global;
use std::io::Write;
use tt_base::NoMemory;
use tt_outside::{Crew, Entry, Reply, Request, Runner};

/// A hand that shows that a test was begun.
#[derive(Drop)]
pub struct ProgressHand<H, W> {
    hand: H,
    line: ProgressLine<W>,
}

impl<H: Runner, W: Write + Copy> Runner for ProgressHand<H, W> {
    ghost begun = { λ it. H.begun it.hand };

    ghost asked = { λ it. H.asked it.hand };

    ghost faults = { λ it. H.faults it.hand };

    ghost rooms = { λ it. H.rooms it.hand };

    ghost gave = { λ it. H.gave it.hand };

    ghost ready = { λ it. H.ready it.hand };

    fn begin(&mut self, test: u64) {
        self.hand.begin(test);
        self.line.begin();
    }

    fn ask(
        &mut self,
        alloc: Global,
        earlier: &[Entry],
        request: &Request,
    ) -> Result<Reply, NoMemory> {
        self.hand.ask(alloc, earlier, request)
    }
}

/// A crew whose hands are those of another, and show that a test was begun.
#[derive(Drop)]
pub struct ProgressCrew<C, W> {
    crew: C,
    line: ProgressLine<W>,
}

impl<C, W> ProgressCrew<C, W> {
    /// The crew, beside which the line is shown.
    pub fn new(crew: C, line: ProgressLine<W>) -> ProgressCrew<C, W> {
        ProgressCrew { crew, line }
    }
}

impl<C: Crew, W: Write + Copy + Send + Drop> Crew for ProgressCrew<C, W> {
    type Hand = ProgressHand<C::Hand, W>;

    ghost gave = { λ it. C.gave it.crew };

    ghost hands = { λ it. C.hands it.crew };

    ghost seats = { λ it. C.seats it.crew };

    ghost ready = { λ it. C.ready it.crew };

    fn hire(&mut self, alloc: Global, room: u64) -> Result<ProgressHand<C::Hand, W>, NoMemory> {
        let line = self.line.another()?;
        match self.crew.hire(alloc, room) {
            Ok(hand) => Ok(ProgressHand { hand, line }),
            Err(NoMemory) => Err(NoMemory),
        }
    }

    fn dismiss(&mut self, hand: ProgressHand<C::Hand, W>) {
        let ProgressHand { hand, line } = hand;
        drop(line);
        self.crew.dismiss(hand);
    }
}
