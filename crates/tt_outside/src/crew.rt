//! Hands that answer requests, and the crew that hires them.
ghost use Rattle.std.specs.Prelude.{◌≡◌, ◌≢◌, ◌+◌, ◌≤◌, ◌<◌, ◌++◌, ◌∷◌, [], IfOk, OnOk, OnErr, Ok, true, ⊤, ℕ};
ghost use Rattle.tt_outside.specs.Faults.{Rose};
ghost use Rattle.tt_outside.specs.Fits.{fits};
ghost use Rattle.tt_outside.specs.Gave.{SameGave, last_of, one_more};

use crate::request::{Entry, Reply, Request};
use std::alloc::Global;
use tt_base::{Items, NoMemory};

/// What a dismissed hand leaves.
#[derive(Drop, Debug)]
pub struct Left {
    pub begun: Items<u64>,
    pub asked: u64,
    pub faults: u64,
}

/// A hand: it answers the requests of tests, one test after the other.
pub trait Runner {
    ghost use Rattle.std.specs.Prelude.{ℕ, List, ⊤};
    ghost use Rattle.tt_outside.specs.Gave.{Gave};

    /// The numbers of the tests that were begun, in order.
    ghost begun: { Self → List ℕ };

    /// How many requests were answered. It stays at its type's last value.
    ghost asked: { Self → ℕ };

    /// How often a call has failed. It never falls.
    ghost faults: { Self → ℕ };

    /// How many tests may still be begun.
    ghost rooms: { Self → ℕ };

    /// The replies that the hand may give, as far as it tells.
    ghost gave: { Self → Gave };

    /// What a call rests on beside the state, as that the runtime may be shared by threads.
    ghost ready: { Self → Type 0 } = { λ _. ⊤ };

    /// Begins a test. It takes no memory.
    fn begin(&mut self, test: u64)
        requires room { 0 < rooms self.old }
        ensures begun { begun self.new ≡ begun self.old ++ test ∷ [] }
        ensures room { rooms self.new + 1 ≡ rooms self.old }
        ensures asked { asked self.new ≡ asked self.old }
        ensures faults { faults self.new ≡ faults self.old }
        ensures ready { ready self.old → ready self.new }
        ensures gave { SameGave (gave self.new) (gave self.old) };

    /// Answers a request of the test that was begun last. `earlier` are the entries of the test before it.
    fn ask(
        &mut self,
        alloc: Global,
        earlier: &[Entry],
        request: &Request,
    ) -> Result<Reply, NoMemory>
        requires begun { begun self.old ≢ [] }
        requires ready { ready self.old }
        ensures ready { ready self.new }
        ensures given { IfOk result (gave self.old (last_of 0 (begun self.old)) earlier.now request.now) }
        ensures fit { IfOk result (λ reply. fits request.now reply ≡ true) }
        ensures counted { OnOk result (asked self.new ≡ one_more (asked self.old)) }
        ensures refused { OnErr result (asked self.new ≡ asked self.old) }
        ensures begun { begun self.new ≡ begun self.old }
        ensures room { rooms self.new ≡ rooms self.old }
        ensures later { faults self.old ≤ faults self.new }
        ensures cause { result ≡ Ok Reply.Broken → Rose (faults self.old) (faults self.new) }
        ensures calm { IfOk result (λ reply. reply ≢ Reply.Broken → faults self.new ≡ faults self.old) }
        ensures gave { SameGave (gave self.new) (gave self.old) };
}

/// A crew: it hires hands, and keeps what each leaves when it is dismissed. All its hands give the same replies.
pub trait Crew {
    ghost use Rattle.std.specs.Prelude.{ℕ, List, ⊤};
    ghost use Rattle.tt_outside.specs.Gave.{Gave};
    ghost use Rattle.tt_outside.specs.declared.crew.Left.{Left};

    type Hand: Runner + Send + Drop;

    /// The replies that every hand may give.
    ghost gave: { Self → Gave };

    /// What the dismissed hands left, in order.
    ghost hands: { Self → List Left };

    /// How many hands may still be dismissed.
    ghost seats: { Self → ℕ };

    /// What a call rests on beside the state.
    ghost ready: { Self → Type 0 } = { λ _. ⊤ };

    /// A hand with room to begin so many tests. It has begun and asked nothing.
    fn hire(&mut self, alloc: Global, room: u64) -> Result<Self::Hand, NoMemory>
        requires ready { ready self.old }
        ensures ready { ready self.new × IfOk result (λ hand. Self.Hand.ready hand) }
        ensures fresh { IfOk result (λ hand. (Self.Hand.begun hand ≡ []) × (Self.Hand.asked hand ≡ 0)
            × (Self.Hand.faults hand ≡ 0) × (Self.Hand.rooms hand ≡ room)) }
        ensures own { IfOk result (λ hand. SameGave (Self.Hand.gave hand) (gave self.new)) }
        ensures seat { OnOk result (seats self.new ≡ seats self.old + 1) }
        ensures refused { OnErr result (seats self.new ≡ seats self.old) }
        ensures hands { hands self.new ≡ hands self.old }
        ensures gave { SameGave (gave self.new) (gave self.old) };

    /// Keeps what a hand leaves. It takes no memory.
    fn dismiss(&mut self, hand: Self::Hand)
        requires seat { 0 < seats self.old }
        ensures ready { ready self.old → ready self.new }
        ensures hands { hands self.new ≡ hands self.old
            ++ (record { begun = Self.Hand.begun hand; asked = Self.Hand.asked hand; faults = Self.Hand.faults hand }) ∷ [] }
        ensures seat { seats self.new + 1 ≡ seats self.old }
        ensures gave { SameGave (gave self.new) (gave self.old) };
}
