//! A crew over the system: its hands read and write files, make directories and run programs.
ghost use denote.Param.Send.{IsSync};

use crate::child::run;
use crate::command::{CommandFault, command_of};
use crate::disk::{SystemDisk, disk_reply};
use std::alloc::Global;
use std::process::{Processes, SystemProcess};
use std::rt;
use tt_base::NoMemory;
use tt_outside::{Crew, Entry, Reply, Request, Runner, Seats, Work};

/// A hand that reads and writes files and runs programs.
#[derive(Drop)]
pub struct StdHand<R> {
    rt: R,
    work: Work,
}

impl<R> Runner for StdHand<R>
where
    R: rt::Files + Processes<Started = SystemProcess> + Sync,
{
    ghost use Rattle.std.specs.Prelude.{⊤};
    ghost use Rattle.tt_outside.specs.Seats.{begun_by};

    ghost begun = { λ hand. begun_by hand.work };

    ghost asked = { λ hand. hand.work.asked };

    ghost faults = { λ hand. hand.work.faults };

    ghost rooms = { λ hand. hand.work.rooms };

    ghost gave = { λ _ _ _ _ _. ⊤ };

    ghost ready = { λ _. IsSync R.row };

    fn begin(&mut self, test: u64) {
        self.work.begin(test);
    }

    fn ask(
        &mut self,
        alloc: Global,
        _earlier: &[Entry],
        request: &Request,
    ) -> Result<Reply, NoMemory> {
        let reply = match request {
            Request::Spawn {
                words,
                dir,
                env,
                input,
                limit,
            } => match command_of(alloc, words, dir, env) {
                Ok(command) => run(&self.rt, alloc, command, input.as_slice(), *limit)?,
                Err(CommandFault::NotText) => Reply::Broken,
                Err(CommandFault::NoMemory) => return Err(NoMemory),
            },
            _ => disk_reply(&SystemDisk { rt: &self.rt }, alloc, request)?,
        };
        self.work.count(&reply);
        Ok(reply)
    }
}

/// A crew whose hands read and write files and run programs.
#[derive(Drop)]
pub struct StdCrew<R> {
    rt: R,
    seats: Seats,
}

impl<R: Sync> StdCrew<R> {
    /// A crew of a runtime. It takes no memory.
    pub fn new(alloc: Global, rt: R) -> StdCrew<R>
        ensures { IsSync R.row }
    {
        StdCrew {
            rt,
            seats: Seats::none(alloc),
        }
    }
}

impl<R> Crew for StdCrew<R>
where
    R: rt::Files + Processes<Started = SystemProcess> + Send + Sync,
    R: Clone + Drop,
{
    ghost use Rattle.std.specs.Prelude.{⊤};
    ghost use Rattle.tt_outside.specs.Seats.{left_by, seats_of};

    type Hand = StdHand<R>;

    ghost gave = { λ _ _ _ _ _. ⊤ };

    ghost ready = { λ _. IsSync R.row };

    ghost hands = { λ crew. left_by crew.seats };

    ghost seats = { λ crew. seats_of crew.seats };

    fn hire(&mut self, alloc: Global, room: u64) -> Result<StdHand<R>, NoMemory> {
        let work = match Work::with_room(alloc, room) {
            Ok(work) => work,
            Err(NoMemory) => return Err(NoMemory),
        };
        let Ok(rt) = self.rt.clone() else {
            return Err(NoMemory);
        };
        match self.seats.add() {
            Ok(()) => Ok(StdHand { rt, work }),
            Err(NoMemory) => Err(NoMemory),
        }
    }

    fn dismiss(&mut self, hand: StdHand<R>) {
        self.seats.keep(hand.work.leave());
    }
}
