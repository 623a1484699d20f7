//! A desk that notes the numbers of what is put on it, up to so many trials.
ghost use Rattle.std.specs.Prelude.{◌≡◌, ◌++◌, ◌∷◌, []};

use lit_desk::DeskStop;
use lit_pool::Desk;
use lit_test::Trial;
use std::alloc::Global;
use tt_base::{Items, NoMemory};

/// The numbers of the trials that were put, and how many are taken.
#[derive(Drop)]
pub(crate) struct Noted {
    pub numbers: Items<u64>,
    pub most: u64,
}

impl Desk for Noted {
    ghost took = { λ old place trial new. new.numbers ≡ old.numbers ++ trial.number ∷ [] };

    ghost kept = { λ old place trial stop new. new.numbers ≡ old.numbers };

    fn put(&mut self, _alloc: Global, place: u64, trial: &Trial) -> Result<(), DeskStop> {
        if place >= self.most {
            return Err(DeskStop::NoMemory);
        }
        match self.numbers.push(trial.number) {
            Ok(()) => Ok(()),
            Err(NoMemory) => Err(DeskStop::NoMemory),
        }
    }
}
