//! A round, from hands to hands.
ghost use Rattle.std.specs.Prelude.{◌≡◌, ◌<◌, ◌≤◌, ◌^◌, IfSome, None, length, vec_len};
ghost use Rattle.std.specs.List.{All};
ghost use Rattle.lit_claims.specs.Claimed.{SHARES};
ghost use Rattle.lit_round.specs.Hands.{CanRun, IsHandOf, MAX_FIRST, MAX_ROUND, asked_by, rooms_of};
ghost use Rattle.lit_round.specs.Round.{HandsBegin, HandsRun};

use crate::team::all_work;
use crate::worker::Shared;
use lit_claims::{ClaimSet, Claims};
use lit_test::Trial;
use std::alloc::Global;
use std::thread::Threads;
use tt_outside::{Crew, Test};

/// A round that was run: the hands, and the trials in the order of their tests, unless memory was wanting.
#[derive(Drop)]
pub struct Ran<H> {
    pub hands: Vec<H>,
    pub trials: Option<Vec<Trial>>,
}

/// Runs at most 256 tests by hands of a crew, each by one of them, the first test under the number `first`. It waits for programs.
pub fn run_round<R: Threads + Sync, C: Crew>(
    rt: &R,
    alloc: Global,
    crew: &C,
    first: u64,
    tests: &[Test],
    hands: Vec<C::Hand>,
) -> Ran<C::Hand>
    requires workers { (0 < vec_len hands) × (vec_len hands ≤ SHARES) }
    requires few { length tests.now ≤ MAX_ROUND }
    requires first { first ≤ MAX_FIRST }
    requires ready { All (CanRun C.Hand.Runner (C.gave crew.now) (length tests.now)) hands.items }
    requires asked { asked_by C.Hand.Runner hands.items < 2 ^ 62 }
    ensures hands { All (IsHandOf C.Hand.Runner (C.gave crew.now)) result.hands.items }
    ensures rooms { rooms_of C.Hand.Runner result.hands.items ≡ rooms_of C.Hand.Runner hands.items }
    ensures begun { HandsBegin C.Hand.Runner first tests.now hands.items result.hands.items }
    ensures trials { IfSome result.trials (λ trials.
        HandsRun C.Hand.Runner (C.gave crew.now) first tests.now hands.items result.hands.items trials.items) }
{
    let Ok(ClaimSet { claims, seats }) = Claims::new(alloc, hands.len() as u32) else {
        return without_trials(hands);
    };
    let shared = Shared {
        claims: &claims,
        first,
        tests,
    };
    let mut team = all_work(rt, alloc, crew, &shared, hands, seats.into_vec());
    claims.close(team.seat);
    if !team.whole {
        return without_trials(team.hands);
    }
    team.trials.sort_unstable_by_key(|trial| trial.number);
    Ran {
        hands: team.hands,
        trials: Some(team.trials),
    }
}

/// A round in which memory was wanting.
fn without_trials<H: Drop>(hands: Vec<H>) -> Ran<H>
    ensures { result ≡ record { hands = hands; trials = None } }
{
    Ran {
        hands,
        trials: None,
    }
}
