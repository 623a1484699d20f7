//! Where trials go.
ghost use Rattle.std.specs.Prelude.{◌<◌, IfErr, OnOk};

use crate::told::ReportedTrial;
use lit_desk::{DeskStop, LitDesk};
use lit_test::Trial;
use std::alloc::Global;
use tt_outside::Sink;

/// Takes the trials of a run one by one, in their order.
pub trait Desk {
    ghost use Rattle.std.specs.Prelude.{ℕ};
    ghost use Rattle.lit_desk.specs.declared.stop.DeskStop.{DeskStop};
    ghost use Rattle.lit_test.specs.declared.trial.Trial.{Trial};

    /// What a trial that is taken does to the desk.
    ghost took: { Self → ℕ → Trial → Self → Type 0 };

    /// What a refused one does.
    ghost kept: { Self → ℕ → Trial → DeskStop → Self → Type 0 };

    /// Takes the trial of a place, counted from 0.
    fn put(&mut self, alloc: Global, place: u64, trial: &Trial) -> Result<(), DeskStop>
        requires { place < 100000 }
        ensures took { OnOk result (took self.old place trial.now self.new) }
        ensures kept { IfErr result (λ stop. kept self.old place trial.now stop self.new) };
}

impl<'a, O: Sink> Desk for LitDesk<'a, O> {
    ghost use Rattle.std.specs.Prelude.{◌≡◌};
    ghost use Rattle.lit_desk.specs.Desk.{Refused, Took, desk};
    ghost use Rattle.lit_pool.specs.Pool.{kept_of};

    ghost took = { λ old place trial new. Took (desk O.Sink old) place (kept_of trial) (desk O.Sink new)
        × (new.out.ghost_name ≡ old.out.ghost_name) };

    ghost kept = { λ old place trial stop new. Refused (desk O.Sink old) place (kept_of trial) stop (desk O.Sink new)
        × (new.out.ghost_name ≡ old.out.ghost_name) };

    fn put(&mut self, alloc: Global, place: u64, trial: &Trial) -> Result<(), DeskStop> {
        LitDesk::put(self, alloc, place, trial.kept(), &ReportedTrial { trial })
    }
}
