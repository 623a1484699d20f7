//! The crew of such hands.
ghost use Rattle.std.specs.Prelude.{◌≡◌, ◌+◌, ◌≤◌, []};
ghost use Rattle.std.specs.Vec.{vec_capacity, vec_len};

use crate::hand::InHand;
use std::alloc::Global;
use tt_base::NoMemory;
use tt_outside::{Crew, Runner};

/// A crew round another one. What its hands leave is what the hands in them leave, but for the number of requests, which are its own.
#[derive(Drop)]
pub struct InCrew<C> {
    crew: C,
    asked: Vec<u64>,
    seats: u64,
    ghost room: { vec_len asked + seats ≤ vec_capacity asked },
}

impl<C> InCrew<C> {
    /// Round a crew. It takes no memory.
    pub fn new(alloc: Global, crew: C) -> InCrew<C>
        ensures { (result.crew ≡ crew) × (result.asked.items ≡ []) × (result.seats ≡ 0) }
    {
        InCrew {
            crew,
            asked: Vec::new(alloc),
            seats: 0,
        }
    }

    /// How many requests each dismissed hand answered, in order.
    pub fn asked(&self) -> &[u64]
        ensures { result.now ≡ self.now.asked.items }
    {
        self.asked.as_slice()
    }
}

impl<C: Crew> Crew for InCrew<C> {
    ghost use Rattle.std.specs.Prelude.{min};
    ghost use Rattle.lit_inproc.specs.Hands.{recounted};
    ghost use Rattle.lit_inproc.specs.Inside.{in_gave};

    type Hand = InHand<C::Hand>;

    ghost gave = { λ it. in_gave (C.gave it.crew) };

    ghost hands = { λ it. recounted (C.hands it.crew) it.asked.items };

    ghost seats = { λ it. min it.seats (C.seats it.crew) };

    ghost ready = { λ it. C.ready it.crew };

    fn hire(&mut self, alloc: Global, room: u64) -> Result<InHand<C::Hand>, NoMemory> {
        let Some(seats) = self.seats.checked_add(1) else {
            return Err(NoMemory);
        };
        if self.asked.reserve(seats as usize).is_err() {
            return Err(NoMemory);
        }
        match self.crew.hire(alloc, room) {
            Ok(hand) => {
                self.seats = seats;
                Ok(InHand::round(hand))
            }
            Err(NoMemory) => Err(NoMemory),
        }
    }

    fn dismiss(&mut self, hand: InHand<C::Hand>) {
        let InHand { hand, asked } = hand;
        self.seats -= 1;
        self.asked.push_reserved(asked);
        self.crew.dismiss(hand);
    }
}
