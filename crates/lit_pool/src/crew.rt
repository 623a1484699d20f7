//! The hands of a run: hired before its first test, and dismissed behind its last.
ghost use Rattle.std.specs.Prelude.{◌≡◌, ◌+◌, ◌≤◌, ◌++◌, IfOk, OnErr, OnOk, length};
ghost use Rattle.std.specs.List.{All};
ghost use Rattle.tt_outside.specs.Gave.{SameGave};
ghost use Rattle.lit_round.specs.Hands.{IsHandOf, all_left};
ghost use Rattle.lit_pool.specs.Crew.{AreHired, LeavesFresh};

use std::alloc::Global;
use tt_base::NoMemory;
use tt_outside::Crew;

/// Hires a hand for each worker, with room for so many tests. For want of memory those that were hired are dismissed.
pub(crate) fn hire_all<C: Crew>(
    alloc: Global,
    workers: u32,
    room: u64,
    crew: &mut C,
) -> Result<Vec<C::Hand>, NoMemory>
    requires ready { C.ready crew.old }
    ensures hired { IfOk result (λ hands. AreHired C.Hand.Runner (C.gave crew.old) room hands.items) }
    ensures count { IfOk result (λ hands. length hands.items ≡ workers) }
    ensures hands { OnOk result (C.hands crew.new ≡ C.hands crew.old) }
    ensures seats { OnOk result (C.seats crew.new ≡ C.seats crew.old + workers) }
    ensures refused { OnErr result (LeavesFresh workers (C.hands crew.old) (C.hands crew.new)) }
    ensures refused_seats { OnErr result (C.seats crew.new ≡ C.seats crew.old) }
    ensures gave { SameGave (C.gave crew.new) (C.gave crew.old) }
    ensures ready { C.ready crew.new }
{
    let Ok(mut hands) = Vec::with_capacity(alloc, workers as usize) else {
        return Err(NoMemory);
    };
    for _ in 0..workers {
        let Ok(hand) = crew.hire(alloc, room) else {
            dismiss_all(hands, crew);
            return Err(NoMemory);
        };
        hands.push_reserved(hand);
    }
    Ok(hands)
}

/// Dismisses hands of a crew, in order. It takes no memory.
pub(crate) fn dismiss_all<C: Crew>(mut hands: Vec<C::Hand>, crew: &mut C)
    requires seats { length hands.items ≤ C.seats crew.old }
    requires own { All (IsHandOf C.Hand.Runner (C.gave crew.old)) hands.items }
    ensures hands { C.hands crew.new ≡ C.hands crew.old ++ all_left C.Hand.Runner hands.items }
    ensures seats { C.seats crew.new + length hands.items ≡ C.seats crew.old }
    ensures gave { SameGave (C.gave crew.new) (C.gave crew.old) }
    ensures ready { C.ready crew.old → C.ready crew.new }
{
    hands.reverse();
    while let Some(hand) = hands.pop() {
        crew.dismiss(hand);
    }
}
