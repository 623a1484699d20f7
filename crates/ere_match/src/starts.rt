//! Places at which hits may begin, and for how many of them it is told at once that none does.
ghost use Rattle.std.specs.Prelude.{◌≡◌, ◌∷◌, ◌++◌, [], OnOk, IfOk};

use std::alloc::{AllocError, Global};

/// For how many places at once it is told at most.
const MOST_AHEAD: usize = 1_024;

/// How many places behind one are looked at with it. There are more of them as long as no hit begins at any, and fewer from
/// there on.
#[derive(Drop)]
pub(crate) struct Ahead {
    pub(crate) count: usize,
    grows: bool,
}

impl Ahead {
    pub(crate) fn new() -> Ahead {
        Ahead {
            count: 1,
            grows: true,
        }
    }

    /// No hit began at any of them.
    pub(crate) fn pass(&mut self) {
        if self.grows {
            self.count = self.count.saturating_mul(2).min(MOST_AHEAD);
        }
    }

    /// One may begin at one of them.
    pub(crate) fn turn_back(&mut self) {
        self.grows = false;
        self.count /= 2;
    }

    /// They are too many to be told.
    pub(crate) fn stop(&mut self) {
        self.count = 0;
    }
}

/// Places at which hits may begin, one behind the other, the last place that was looked at, and how far those may reach that begin
/// there.
#[derive(Drop)]
pub(crate) struct Starts {
    pub(crate) places: Vec<usize>,
    pub(crate) last: usize,
    pub(crate) high: usize,
}

impl Starts {
    /// One place, from where they reach this far.
    pub(crate) fn new(alloc: Global, place: usize, high: usize) -> Result<Starts, AllocError>
        ensures places { IfOk result (λ made. made.places.items ≡ place ∷ []) }
        ensures last { IfOk result (λ made. made.last ≡ place) }
        ensures high { IfOk result (λ made. made.high ≡ high) }
    {
        let mut places = Vec::new(alloc);
        places.push(place)?;
        Ok(Starts {
            places,
            last: place,
            high,
        })
    }

    /// Adds the next place.
    pub(crate) fn put(&mut self, place: usize) -> Result<(), AllocError>
        ensures places { OnOk result (self.new.places.items ≡ self.old.places.items ++ place ∷ []) }
        ensures last { OnOk result (self.new.last ≡ place) }
        ensures high { self.new.high ≡ self.old.high }
    {
        self.places.push(place)?;
        self.last = place;
        Ok(())
    }

    /// Passes the next place, at which none begins.
    pub(crate) fn pass(&mut self, place: usize)
        ensures places { self.new.places.items ≡ self.old.places.items }
        ensures last { self.new.last ≡ place }
        ensures high { self.new.high ≡ self.old.high }
    {
        self.last = place;
    }
}
