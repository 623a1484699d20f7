//! A crew in memory that holds one of three tests back until all three were begun: it tells whether workers share their tests.
ghost use Rattle.std.specs.Prelude.{◌≡◌, ◌<◌, [], IfOk};

use crate::crew::{Crew, Left, Runner};
use crate::mem_crew::{MemCrew, MemHand};
use crate::request::{Entry, Reply, Request};
use std::alloc::Global;
use std::sync::Arc;
use std::sync::atomic::{AtomicU64, Ordering};
use std::thread::yield_now;
use tt_base::NoMemory;

/// Whether all three tests were begun, within so many looks.
fn is_open(gate: &AtomicU64, turns: u32) -> bool {
    for _ in 0..turns {
        if gate.load(Ordering::SeqCst) == 7 {
            return true;
        }
        yield_now();
    }
    false
}

/// A hand of such a crew.
#[derive(Drop)]
pub struct GateHand {
    inner: MemHand,
    gate: Arc<AtomicU64>,
    held: u64,
    turns: u32,
}

impl Runner for GateHand {
    ghost use Rattle.tt_outside.specs.Gate.{GateGave};
    ghost use Rattle.tt_outside.specs.Planned.{MemGave};
    ghost use Rattle.tt_outside.specs.Seats.{begun_by};
    ghost use Rattle.std.specs.Arc.{arc_value};

    ghost begun = { λ hand. begun_by hand.inner.work };

    ghost asked = { λ hand. hand.inner.work.asked };

    ghost faults = { λ hand. hand.inner.work.faults };

    ghost rooms = { λ hand. hand.inner.work.rooms };

    ghost gave = { λ hand. GateGave (MemGave (arc_value hand.inner.plan)) hand.held };

    fn begin(&mut self, test: u64) {
        self.inner.begin(test);
        if test < 3 {
            self.gate.fetch_or(1 << test, Ordering::SeqCst);
        }
    }

    fn ask(
        &mut self,
        alloc: Global,
        earlier: &[Entry],
        request: &Request,
    ) -> Result<Reply, NoMemory> {
        if self.inner.test == self.held
            && matches!(request, Request::Spawn { .. })
            && !is_open(&self.gate, self.turns)
        {
            self.inner.work.count(&Reply::Broken);
            return Ok(Reply::Broken);
        }
        self.inner.ask(alloc, earlier, request)
    }
}

/// A crew whose hands answer as those of a crew in memory, but for the program of one test: that they hold back until the tests
/// 0, 1 and 2 were begun, and answer Broken where that takes more than so many looks.
#[derive(Drop)]
pub struct GateCrew {
    inner: MemCrew,
    gate: Arc<AtomicU64>,
    held: u64,
    turns: u32,
}

impl GateCrew {
    ghost use Rattle.tt_outside.specs.PlanOf.{crew_left};

    /// A crew with the plan of another, which holds this test back.
    pub fn new(alloc: Global, inner: MemCrew, held: u64, turns: u32) -> Result<GateCrew, NoMemory>
        requires { held < 3 }
    {
        match Arc::new(alloc, AtomicU64::new(0)) {
            Ok(gate) => Ok(GateCrew {
                inner,
                gate,
                held,
                turns,
            }),
            Err(_) => Err(NoMemory),
        }
    }

    /// What the dismissed hands left, in order.
    pub fn hands(&self) -> &[Left]
        ensures { result.now ≡ crew_left self.now.inner }
    {
        self.inner.hands()
    }
}

impl Crew for GateCrew {
    ghost use Rattle.tt_outside.specs.Gate.{GateGave};
    ghost use Rattle.tt_outside.specs.PlanOf.{crew_left, crew_plan, crew_seats};
    ghost use Rattle.tt_outside.specs.Planned.{MemGave};

    type Hand = GateHand;

    ghost gave = { λ crew. GateGave (MemGave (crew_plan crew.inner)) crew.held };

    ghost hands = { λ crew. crew_left crew.inner };

    ghost seats = { λ crew. crew_seats crew.inner };

    fn hire(&mut self, alloc: Global, room: u64) -> Result<GateHand, NoMemory> {
        let gate = match Arc::try_clone(&self.gate) {
            Ok(gate) => gate,
            Err(_) => return Err(NoMemory),
        };
        match self.inner.hire(alloc, room) {
            Ok(inner) => Ok(GateHand {
                inner,
                gate,
                held: self.held,
                turns: self.turns,
            }),
            Err(NoMemory) => Err(NoMemory),
        }
    }

    fn dismiss(&mut self, hand: GateHand) {
        self.inner.seats.keep(hand.inner.work.leave());
    }
}
