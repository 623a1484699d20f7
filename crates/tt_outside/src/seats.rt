//! What hands and crews keep, with room that is taken beforehand: beginning a test and dismissing a hand take no
//! memory.
ghost use Rattle.std.specs.Prelude.{◌≡◌, ◌+◌, ◌++◌, ◌∷◌, [], ◌≤◌, ◌<◌, ◌≢◌, IfOk, OnErr, OnOk};
ghost use Rattle.std.specs.Vec.{vec_capacity, vec_len};
ghost use Rattle.tt_outside.specs.Faults.{Rose};
ghost use Rattle.tt_outside.specs.Gave.{last_of, one_more};

use crate::crew::Left;
use crate::request::Reply;
use std::alloc::Global;
use tt_base::{Items, NoMemory};

/// What a hand did: the tests that it began, and how many requests it answered and how many of its calls failed.
#[derive(Drop)]
pub struct Work {
    begun: Vec<u64>,
    rooms: u64,
    asked: u64,
    faults: u64,
    ghost fits: { vec_len begun + rooms ≤ vec_capacity begun },
}

impl Work {
    ghost use Rattle.tt_outside.specs.Seats.{IsUnused, begun_by, work_left};

    /// Nothing was done, and there is room to begin so many tests.
    pub fn with_room(alloc: Global, room: u64) -> Result<Work, NoMemory>
        ensures { IfOk result (IsUnused room) }
    {
        match Vec::with_capacity(alloc, room as usize) {
            Ok(begun) => Ok(Work {
                begun,
                rooms: room,
                asked: 0,
                faults: 0,
            }),
            Err(_) => Err(NoMemory),
        }
    }

    /// Begins a test.
    pub fn begin(&mut self, test: u64)
        requires { 0 < self.old.rooms }
        ensures begun { begun_by self.new ≡ begun_by self.old ++ test ∷ [] }
        ensures room { self.new.rooms + 1 ≡ self.old.rooms }
        ensures counts { (self.new.asked ≡ self.old.asked) × (self.new.faults ≡ self.old.faults) }
    {
        self.rooms -= 1;
        self.begun.push_reserved(test);
    }

    /// Counts a request that was answered, and a fault where the reply is Broken.
    pub fn count(&mut self, reply: &Reply)
        ensures begun { (begun_by self.new ≡ begun_by self.old) × (self.new.rooms ≡ self.old.rooms) }
        ensures asked { self.new.asked ≡ one_more self.old.asked }
        ensures cause { reply.now ≡ Reply.Broken → Rose self.old.faults self.new.faults }
        ensures calm { reply.now ≢ Reply.Broken → self.new.faults ≡ self.old.faults }
        ensures later { self.old.faults ≤ self.new.faults }
    {
        self.asked = self.asked.saturating_add(1);
        if matches!(reply, Reply::Broken) {
            self.faults = self.faults.saturating_add(1);
        }
    }

    /// What the hand leaves.
    pub fn leave(self) -> Left
        ensures { result ≡ work_left self }
    {
        Left {
            begun: Items::from_vec(self.begun),
            asked: self.asked,
            faults: self.faults,
        }
    }
}

/// What dismissed hands left, and room for the hands that were hired.
#[derive(Drop)]
pub struct Seats {
    left: Vec<Left>,
    seats: u64,
    ghost fits: { vec_len left + seats ≤ vec_capacity left },
}

impl Seats {
    ghost use Rattle.tt_outside.specs.Seats.{left_by, seats_of};

    /// Nothing was left, and there is no room. It takes no memory.
    pub fn none(alloc: Global) -> Seats
        ensures { (left_by result ≡ []) × (seats_of result ≡ 0) }
    {
        Seats {
            left: Vec::new(alloc),
            seats: 0,
        }
    }

    /// Makes room for one more hand.
    pub fn add(&mut self) -> Result<(), NoMemory>
        ensures left { left_by self.new ≡ left_by self.old }
        ensures ok { OnOk result (seats_of self.new ≡ seats_of self.old + 1) }
        ensures err { OnErr result (seats_of self.new ≡ seats_of self.old) }
    {
        let Some(seats) = self.seats.checked_add(1) else {
            return Err(NoMemory);
        };
        match self.left.reserve(seats as usize) {
            Ok(()) => {
                self.seats = seats;
                Ok(())
            }
            Err(_) => Err(NoMemory),
        }
    }

    /// Keeps what a hand leaves.
    pub fn keep(&mut self, left: Left)
        requires { 0 < seats_of self.old }
        ensures left { left_by self.new ≡ left_by self.old ++ left ∷ [] }
        ensures seats { seats_of self.new + 1 ≡ seats_of self.old }
    {
        self.seats -= 1;
        self.left.push_reserved(left);
    }

    /// What was left, in order.
    pub fn as_slice(&self) -> &[Left]
        ensures { result.now ≡ left_by self.now }
    {
        self.left.as_slice()
    }
}
