//! One worker of a round.
ghost use Rattle.std.specs.Prelude.{◌≡◌, ◌<◌, ◌≤◌, ◌^◌, [], length};
ghost use Rattle.lit_claims.specs.Seats.{claims_id, drawn_by, seat_id, share_of};
ghost use Rattle.lit_round.specs.Hands.{CanRun, MAX_FIRST, MAX_ROUND};
ghost use Rattle.lit_round.specs.Work.{WorksWith};

use lit_claims::{ClaimSeat, Claims};
use lit_test::{Trial, run_test};
use std::alloc::Global;
use tt_outside::{Runner, Test};

/// What the workers of a round share: the word from which they draw, and the tests, the first of which has this number.
#[derive(Drop)]
pub(crate) struct Shared<'a> {
    pub claims: &'a Claims,
    pub first: u64,
    pub tests: &'a [Test],
}

/// A worker behind its round: its hand and its seat, the trials of the tests that it ran, and whether it met no want of memory.
#[derive(Drop)]
pub(crate) struct Worked<H> {
    pub hand: H,
    pub seat: ClaimSeat,
    pub trials: Vec<Trial>,
    pub whole: bool,
}

/// Draws numbers and runs the tests that they name, until a number lies past the round or memory is wanting.
pub(crate) fn work<H: Runner + Drop>(
    alloc: Global,
    shared: &Shared<'_>,
    mut hand: H,
    mut seat: ClaimSeat,
) -> Worked<H>
    requires own { seat_id seat ≡ claims_id shared.now.claims.now }
    requires fresh { drawn_by seat ≡ [] }
    requires few { length shared.now.tests.now ≤ MAX_ROUND }
    requires first { shared.now.first ≤ MAX_FIRST }
    requires ready { CanRun H.Runner (H.gave hand) (length shared.now.tests.now) hand }
    requires asked { H.asked hand < 2 ^ 62 }
    ensures seat { (seat_id result.seat ≡ seat_id seat) × (share_of result.seat ≡ share_of seat) }
    ensures works { WorksWith H.Runner shared.now hand result }
{
    let mut trials = Vec::new(alloc);
    let mut whole = true;
    let mut place = shared.claims.draw(&mut seat);
    while place < shared.tests.len() as u64 {
        let test = &shared.tests[place as usize];
        let Ok(trial) = run_test(alloc, shared.first + place, test, &mut hand) else {
            whole = false;
            break;
        };
        if trials.push(trial).is_err() {
            whole = false;
            break;
        }
        place = shared.claims.draw(&mut seat);
    }
    Worked {
        hand,
        seat,
        trials,
        whole,
    }
}
