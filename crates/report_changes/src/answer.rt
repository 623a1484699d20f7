//! What is told of two reports.
ghost use Rattle.std.specs.Prelude.{◌≡◌, ◌≤◌, ◌++◌, IfErr, IfOk, OnOk, length};
ghost use Rattle.opt_words.specs.Step.{texts};
ghost use Rattle.report_changes.specs.Answer.{answer_to, change_line, changes_text, result_text};
ghost use Rattle.report_changes.specs.Stop.{IsToldOf};

use crate::stop::{ChangesStop, add_number, status_of, text_of};
use json_report::Change;
use std::alloc::Global;
use test_outcome::Outcome;
use tt_base::{Bytes, Items, NoMemory};
use tt_run::Answer;

/// The answer to what changed, or to a stop.
pub(crate) fn answer_to(
    alloc: Global,
    words: &[String],
    outcome: &Result<Items<Change>, ChangesStop>,
) -> Result<Answer, NoMemory>
    requires { IfErr outcome.now (IsToldOf (length words.now)) }
    ensures value { IfOk result (λ answer. answer ≡ answer_to (texts words.now) outcome.now) }
    ensures small { IfOk result (λ answer. answer.status ≤ 3) }
{
    match outcome {
        Ok(changes) => Ok(Answer {
            out: changes_text(alloc, changes.as_slice())?,
            err: Bytes::new(alloc),
            status: if changes.is_empty() { 0 } else { 1 },
        }),
        Err(stop) => Ok(Answer {
            out: Bytes::new(alloc),
            err: text_of(alloc, words, *stop)?,
            status: status_of(*stop),
        }),
    }
}

/// Each change on a line, and how many there are.
fn changes_text(alloc: Global, changes: &[Change]) -> Result<Bytes, NoMemory>
    ensures { IfOk result (λ text. text ≡ changes_text changes.now) }
{
    let mut text = Bytes::new(alloc);
    for change in changes {
        add_change(&mut text, change)?;
    }
    text.append(b"changed: ")?;
    add_number(&mut text, changes.len())?;
    text.append(b"\n")?;
    Ok(text)
}

/// Adds the line of a change.
fn add_change(text: &mut Bytes, change: &Change) -> Result<(), NoMemory>
    ensures { OnOk result (text.new ≡ text.old ++ change_line change.now) }
{
    text.append(change.path.as_slice())?;
    text.append(b": ")?;
    text.append(result_text(&change.old))?;
    text.append(b" -> ")?;
    text.append(result_text(&change.new))?;
    text.append(b"\n")
}

/// The name of a result, if there is one.
fn result_text(outcome: &Option<Outcome>) -> &'static [u8]
    ensures { result.now ≡ result_text outcome.now }
{
    match outcome {
        Some(outcome) => outcome.name(),
        None => b"absent",
    }
}
