//! The word from which workers draw numbers, and their seats.
ghost use Rattle.std.specs.Prelude.{◌≡◌, ◌+◌, ◌<◌, ◌≤◌, ◌++◌, ◌∷◌, [], IfOk};
ghost use Rattle.std.specs.List.{All};
ghost use Rattle.lit_claims.specs.Claimed.{Drawn, MAX_DRAWN, SHARES};

use crate::rule::{ClaimRule, Draws, OneShare, TakesOver};
use crate::view::View;
use atomic_table::{Seat, Table};
use std::alloc::Global;
use tt_base::{Items, NoMemory};

/// The word from which the workers of a round draw numbers, from 0 on.
#[derive(Drop)]
pub struct Claims {
    table: Table<(), View, (), ClaimRule, Global>,
    ghost one_word: { table.shared.table_id.words ≡ 1 },
    ghost no_slots: { table.shared.table_id.slots ≡ 0 },
}

/// A worker's seat, without which it can't draw. It takes no bytes: which numbers were drawn with it is known in proofs alone.
#[derive(Drop)]
pub struct ClaimSeat {
    seat: Seat<(), View>,
    ghost some_share: { 0 < seat.me.0.share },
    ghost no_slot: { seat.me.1 ≡ [] },
}

/// Claims, and a seat for each worker.
#[derive(Drop)]
pub struct ClaimSet {
    pub claims: Claims,
    pub seats: Items<ClaimSeat>,
}

impl Claims {
    ghost use Rattle.lit_claims.specs.Seats.{AreSeats, IsFresh, claims_id, drawn_by, seat_id, share_of};

    /// New claims, of which no number was drawn.
    pub fn new(alloc: Global, workers: u32) -> Result<ClaimSet, NoMemory>
        requires some { 0 < workers }
        requires most { workers ≤ SHARES }
        ensures { IfOk result (λ set. AreSeats (claims_id set.claims) workers set.seats) }
    {
        let Ok((claims, mut first)) = Claims::open(alloc) else {
            return Err(NoMemory);
        };
        let mut seats = Items::new(alloc);
        for _ in 1..workers {
            let seat = claims.another(&mut first);
            if seats.push(seat).is_err() {
                return Err(NoMemory);
            }
        }
        match seats.push(first) {
            Ok(()) => Ok(ClaimSet { claims, seats }),
            Err(NoMemory) => Err(NoMemory),
        }
    }

    /// New claims, and the one seat, which has all shares.
    fn open(alloc: Global) -> Result<(Claims, ClaimSeat), NoMemory>
        ensures { IfOk result (λ made. IsFresh (claims_id made.0) made.1 × (share_of made.1 ≡ SHARES)) }
    {
        match Table::of_words(alloc, &[0], &()) {
            Ok((table, seat)) => Ok((Claims { table }, ClaimSeat { seat })),
            Err(_) => Err(NoMemory),
        }
    }

    /// A further seat, which gets one share.
    fn another(&self, seat: &mut ClaimSeat) -> ClaimSeat
        requires own { IsFresh (claims_id self.now) seat.old }
        requires shares { 1 < share_of seat.old }
        ensures old { IsFresh (claims_id self.now) seat.new × (share_of seat.new + 1 ≡ share_of seat.old) }
        ensures new { IsFresh (claims_id self.now) result × (share_of result ≡ 1) }
    {
        ClaimSeat {
            seat: self.table.shared.split_seat::<OneShare>(&mut seat.seat),
        }
    }

    /// Draws a number, in one step. It takes no memory.
    pub fn draw(&self, seat: &mut ClaimSeat) -> u64
        requires own { seat_id seat.old ≡ claims_id self.now }
        requires early { All (λ number. number < MAX_DRAWN) (drawn_by seat.old) }
        ensures seat { (seat_id seat.new ≡ seat_id seat.old) × (share_of seat.new ≡ share_of seat.old) }
        ensures drawn { drawn_by seat.new ≡ drawn_by seat.old ++ result ∷ [] }
        ensures later { All (λ number. number < result) (drawn_by seat.old) }
    {
        self.table.shared.fetch_add::<Draws>(&mut seat.seat, 0, 1)
    }

    /// The seat takes over the numbers of the other. It takes no memory.
    pub fn join(&self, seat: &mut ClaimSeat, other: ClaimSeat)
        requires own { (seat_id seat.old ≡ claims_id self.now) × (seat_id other ≡ claims_id self.now) }
        ensures seat { (seat_id seat.new ≡ seat_id seat.old) × (share_of seat.new ≡ share_of seat.old + share_of other) }
        ensures drawn { drawn_by seat.new ≡ drawn_by seat.old ++ drawn_by other }
    {
        let ClaimSeat { seat: other } = other;
        self.table
            .shared
            .join_seat::<TakesOver>(&mut seat.seat, other);
    }

    /// How many numbers were drawn. All other seats were joined into this one, so it has every share. It takes no memory.
    pub fn close(self, seat: ClaimSeat) -> u64
        requires own { seat_id seat ≡ claims_id self }
        requires all { share_of seat ≡ SHARES }
        ensures { Drawn result (drawn_by seat) }
    {
        let Claims { table } = self;
        let ClaimSeat { seat } = seat;
        let closed = table.close_with(seat);
        let drawn = closed.word(0);
        closed.free();
        drawn
    }
}
