//! What a run comes to, in few words.
use crate::rows::{add, add_number};
use lit_pool::{PoolStop, PoolWhy, reported};
use lit_report::status_of;
use lit_test::Trial;
use std::alloc::Global;
use tt_base::{Bytes, Items, NoMemory};
use tt_outside::Left;

/// A trial's number and its result.
fn add_trial(out: &mut Bytes, trial: &Trial) -> Result<(), NoMemory> {
    add_number(out, trial.number)?;
    out.append(b" ")?;
    out.append(trial.result.name())?;
    out.append(b", ")
}

fn add_trials(out: &mut Bytes, trials: &[Trial]) -> Result<(), NoMemory> {
    for trial in trials {
        add_trial(out, trial)?;
    }
    Ok(())
}

fn why_text(why: PoolWhy) -> &'static str {
    match why {
        PoolWhy::SinkFault => "a fault",
        PoolWhy::TooMuch => "too much",
        PoolWhy::NoMemory => "no memory",
    }
}

/// The trials that were put; of a stop, why it was, and the trial that was refused.
fn add_end(out: &mut Bytes, end: &Result<Items<Trial>, PoolStop>) -> Result<(), NoMemory> {
    match end {
        Ok(trials) => add_trials(out, trials.as_slice()),
        Err(stop) => {
            add_trials(out, stop.trials.as_slice())?;
            add(out, why_text(stop.why))?;
            match &stop.other {
                Some(other) => {
                    add(out, " at ")?;
                    add_trial(out, other)
                }
                None => Ok(()),
            }
        }
    }
}

/// The trials that were put, or the stop.
pub(crate) fn end_text(
    alloc: Global,
    end: &Result<Items<Trial>, PoolStop>,
) -> Result<Bytes, NoMemory> {
    let mut out = Bytes::new(alloc);
    add_end(&mut out, end)?;
    Ok(out)
}

/// The status of a run with these trials.
pub(crate) fn add_status(alloc: Global, out: &mut Bytes, trials: &[Trial]) -> Result<(), NoMemory> {
    let all = reported(alloc, trials)?;
    add(out, "status ")?;
    add_number(out, u64::from(status_of(all.as_slice())))?;
    out.append(b", ")
}

/// The tests that a hand began, the number of its requests, and that of its faults.
pub(crate) fn add_left(out: &mut Bytes, left: &Left) -> Result<(), NoMemory> {
    add(out, "begun ")?;
    for number in left.begun.as_slice() {
        add_number(out, *number)?;
    }
    add(out, ", asked ")?;
    add_number(out, left.asked)?;
    add(out, ", faults ")?;
    add_number(out, left.faults)
}
