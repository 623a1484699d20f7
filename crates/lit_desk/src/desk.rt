//! The desk.
ghost use Rattle.std.specs.Prelude.{◌≡◌, ◌<◌, ◌≤◌, ◌^◌, IfErr, OnOk};
ghost use Rattle.lit_desk.specs.Desk.{Refused, Took, desk, keeping};

use crate::stop::DeskStop;
use lit_report::{Reported, part_of};
use lit_words::Detail;
use std::alloc::Global;
use tt_base::NoMemory;
use tt_outside::{Sink, write_all};

/// How many bytes the tests of a run keep at most.
pub const MAX_KEPT: u64 = 2_147_483_648;

/// Writes the parts of a report, and adds up the bytes that are kept.
#[derive(Drop)]
pub struct LitDesk<'a, O: Sink> {
    pub out: &'a mut O,
    pub detail: Detail,
    /// How many tests the run has.
    pub tests: u64,
    /// How many bytes are kept.
    pub kept: u64,
}

impl<'a, O: Sink> LitDesk<'a, O> {
    /// Takes the test of a place, counted from 0, which keeps so many bytes.
    #[tactic(auto, using(crate::proofs::PutLemmas::room_left))]
    pub fn put<T: Reported>(
        &mut self,
        alloc: Global,
        place: u64,
        kept: u64,
        test: &T,
    ) -> Result<(), DeskStop>
        requires { place < 2 ^ 32 }
        ensures took { OnOk result (Took (desk O.Sink self.old) place
            (keeping kept (T.told test.now)) (desk O.Sink self.new)) }
        ensures refused { IfErr result (λ stop. Refused (desk O.Sink self.old) place
            (keeping kept (T.told test.now)) stop (desk O.Sink self.new)) }
        ensures same_stream { self.new.out.ghost_name ≡ self.old.out.ghost_name }
    {
        let sum = self.kept.saturating_add(kept);
        if sum > MAX_KEPT {
            return Err(DeskStop::TooMuch);
        }
        let part = match part_of(alloc, self.detail, self.tests, place, test) {
            Ok(part) => part,
            Err(NoMemory) => return Err(DeskStop::NoMemory),
        };
        if write_all(&mut *self.out, part.as_slice()).is_err() {
            return Err(DeskStop::SinkFault);
        }
        self.kept = sum;
        Ok(())
    }
}
