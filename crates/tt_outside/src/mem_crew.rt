//! A crew in memory, whose replies are planned.
ghost use Rattle.std.specs.Prelude.{◌≡◌, []};
ghost use Rattle.std.specs.Arc.{arc_value};
ghost use Rattle.tt_outside.specs.Gave.{IsSteady, last_of};
ghost use Rattle.tt_outside.specs.Seats.{begun_by};

use crate::crew::{Crew, Left, Runner};
use crate::planned::{Planned, Shared, reply_planned};
use crate::request::{Entry, Reply, Request};
use crate::seats::{Seats, Work};
use std::alloc::Global;
use std::sync::Arc;
use tt_base::{Items, NoMemory};

/// A hand of a crew in memory.
#[derive(Drop)]
pub struct MemHand {
    pub(crate) plan: Arc<Items<Planned>>,
    pub(crate) work: Work,
    pub(crate) test: u64,
    ghost last: { test ≡ last_of 0 (begun_by work) },
}

impl Runner for MemHand {
    ghost use Rattle.std.specs.Arc.{arc_value};
    ghost use Rattle.tt_outside.specs.Planned.{MemGave};
    ghost use Rattle.tt_outside.specs.Seats.{begun_by};

    ghost begun = { λ hand. begun_by hand.work };

    ghost asked = { λ hand. hand.work.asked };

    ghost faults = { λ hand. hand.work.faults };

    ghost rooms = { λ hand. hand.work.rooms };

    ghost gave = { λ hand. MemGave (arc_value hand.plan) };

    fn begin(&mut self, test: u64) {
        self.work.begin(test);
        self.test = test;
    }

    fn ask(
        &mut self,
        _alloc: Global,
        earlier: &[Entry],
        request: &Request,
    ) -> Result<Reply, NoMemory> {
        let plan = self.plan.as_slice();
        let reply = reply_planned(plan, self.test, earlier.len() as u64, request)?;
        self.work.count(&reply);
        Ok(reply)
    }
}

/// A crew whose hands answer by a plan: the first planned reply for a test and a number of entries before, where it
/// fits the request; else Written to what is to be made or written, and Missing to all else.
#[derive(Drop)]
pub struct MemCrew {
    plan: Shared,
    pub(crate) seats: Seats,
}

impl MemCrew {
    ghost use Rattle.tt_outside.specs.PlanOf.{crew_left, crew_plan, crew_seats};
    ghost use Rattle.tt_outside.specs.Planned.{MemGave};

    /// A crew that answers by a plan. It takes no memory.
    pub fn new(alloc: Global, plan: Items<Planned>) -> MemCrew
        ensures plan { crew_plan result ≡ plan }
        ensures none { crew_left result ≡ [] }
        ensures seats { crew_seats result ≡ 0 }
    {
        MemCrew {
            plan: Shared::Own(plan),
            seats: Seats::none(alloc),
        }
    }

    /// What the dismissed hands left, in order.
    pub fn hands(&self) -> &[Left]
        ensures { result.now ≡ crew_left self.now }
    {
        self.seats.as_slice()
    }

    /// Law: a test, the entries before and a request have one reply at most.
    pub fn law_of_steadiness(&self)
        ensures { IsSteady (MemGave (crew_plan self.now)) }
    {}
}

impl Crew for MemCrew {
    ghost use Rattle.tt_outside.specs.PlanOf.{crew_left, crew_plan, crew_seats};
    ghost use Rattle.tt_outside.specs.Planned.{MemGave};

    type Hand = MemHand;

    ghost gave = { λ crew. MemGave (crew_plan crew) };

    ghost hands = { λ crew. crew_left crew };

    ghost seats = { λ crew. crew_seats crew };

    fn hire(&mut self, alloc: Global, room: u64) -> Result<MemHand, NoMemory> {
        let work = match Work::with_room(alloc, room) {
            Ok(work) => work,
            Err(NoMemory) => return Err(NoMemory),
        };
        let plan = match self.plan.share(alloc) {
            Ok(plan) => plan,
            Err(NoMemory) => return Err(NoMemory),
        };
        match self.seats.add() {
            Ok(()) => Ok(MemHand {
                plan,
                work,
                test: 0,
            }),
            Err(NoMemory) => Err(NoMemory),
        }
    }

    fn dismiss(&mut self, hand: MemHand) {
        self.seats.keep(hand.work.leave());
    }
}
