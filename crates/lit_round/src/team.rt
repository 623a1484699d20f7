//! All workers of a round.
ghost use Rattle.std.specs.Prelude.{◌≡◌, ◌⊎◌, ◌+◌, ◌<◌, ◌++◌, ◌∷◌, [], true, vec_capacity, vec_len};
ghost use Rattle.std.specs.Thread.{IsSync};
ghost use Rattle.lit_claims.specs.Seats.{claims_id, drawn_by, seat_id, share_of};
ghost use Rattle.lit_round.specs.Work.{AreBothWhole, HasJob, HaveJobs, TeamDid, TrialsJoin, WorkerDid};

use crate::worker::{Shared, Worked, work};
use lit_claims::{ClaimSeat, Claims};
use lit_test::Trial;
use std::alloc::Global;
use std::thread::{Threads, join};
use tt_outside::Crew;

/// Workers behind their round: their hands, one seat that took over what all drew, all their trials, and whether none met want of
/// memory.
#[derive(Drop)]
pub(crate) struct Team<H> {
    pub hands: Vec<H>,
    pub seat: ClaimSeat,
    pub trials: Vec<Trial>,
    pub whole: bool,
}

/// A worker joins others. For want of memory its trials are let go.
fn add<H: Drop>(claims: &Claims, mut team: Team<H>, worked: Worked<H>) -> Team<H>
    requires own { seat_id team.seat ≡ claims_id claims.now }
    requires joining { seat_id worked.seat ≡ claims_id claims.now }
    requires space { vec_len team.hands < vec_capacity team.hands }
    ensures seat { seat_id result.seat ≡ seat_id team.seat }
    ensures share { share_of result.seat ≡ share_of team.seat + share_of worked.seat }
    ensures drawn { drawn_by result.seat ≡ drawn_by team.seat ++ drawn_by worked.seat }
    ensures hands { result.hands.items ≡ team.hands.items ++ worked.hand ∷ [] }
    ensures space { vec_capacity result.hands ≡ vec_capacity team.hands }
    ensures trials { TrialsJoin team worked result ⊎ (result.trials.items ≡ team.trials.items) }
    ensures whole { result.whole ≡ true → AreBothWhole team worked result }
{
    let Worked {
        hand,
        seat,
        mut trials,
        whole,
    } = worked;
    team.hands.push_reserved(hand);
    claims.join(&mut team.seat, seat);
    let taken = team.trials.append(&mut trials).is_ok();
    team.whole = team.whole & whole & taken;
    team
}

/// A worker for each hand of a crew. One works in this thread, and each other in one of its own, or in this one where none can be had.
pub(crate) fn all_work<R: Threads + Sync, C: Crew>(
    rt: &R,
    alloc: Global,
    crew: &C,
    shared: &Shared<'_>,
    mut hands: Vec<C::Hand>,
    mut seats: Vec<ClaimSeat>,
) -> Team<C::Hand>
    requires jobs { HaveJobs C.Hand.Runner (C.gave crew.now) shared.now hands.items seats.items }
    ensures did { TeamDid C.Hand.Runner (C.gave crew.now) shared.now hands seats result }
{
    let Some(hand) = hands.pop() else {
        unreachable!()
    };
    let Some(seat) = seats.pop() else {
        unreachable!()
    };
    if hands.is_empty() {
        let worked = work(alloc, shared, hand, seat);
        hands.push_reserved(worked.hand);
        return Team {
            hands,
            seat: worked.seat,
            trials: worked.trials,
            whole: worked.whole,
        };
    }
    let (worked, team) = join(
        rt,
        || -> Worked<C::Hand>
            requires { HasJob C.Hand.Runner shared.now hand seat }
            ensures { WorkerDid C.Hand.Runner shared.entry.now hand seat result }
        { work(alloc, shared, hand, seat) },
        || -> Team<C::Hand>
            requires { IsSync R.row × HaveJobs C.Hand.Runner (C.gave crew.now) shared.now hands.items seats.items }
            ensures { TeamDid C.Hand.Runner (C.gave crew.entry.now) shared.entry.now hands seats result }
        { all_work(rt, alloc, crew, shared, hands, seats) },
    );
    add(shared.claims, team, worked)
}
