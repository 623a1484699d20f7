//! The report, as it is written.
ghost use Rattle.std.specs.Prelude.{◌≡◌, [], None, Ok, IfOk, map, true};
ghost use Rattle.std.specs.List.{list_all};
ghost use Rattle.json_report.specs.Reading.{report_in, twice_from};
ghost use Rattle.json_report.specs.Report.{entries_of, entry_of, report_data, results_of};
ghost use Rattle.lit_json.specs.Trials.{is_text, json_text, line_of, test_of};
ghost use Rattle.serde_json.specs.Data.{array};
ghost use Rattle.serde_json.specs.View.{view};

use crate::text::text_of;
use json_report::{counts_of, outcome_text};
use lit_test::Trial;
use serde_json::{Value, json};
use std::alloc::Global;
use test_outcome::Outcome;
use tt_base::{Bytes, NoMemory};

/// The entry of a trial.
fn entry_of(alloc: Global, trial: &Trial) -> Result<Value, NoMemory>
    requires { is_text trial.now.test ≡ true }
    ensures { IfOk result (λ value. view value ≡ entry_of (line_of trial.now)) }
{
    let name = text_of(trial.test.name.as_slice());
    let path = text_of(trial.test.path.as_slice());
    let result = outcome_text(trial.result);
    match json!(in alloc; {"name": name, "path": path, "result": result}) {
        Ok(entry) => Ok(entry),
        Err(_) => Err(NoMemory),
    }
}

/// The entries of trials, in order.
fn entries_of(alloc: Global, trials: &[Trial]) -> Result<Value, NoMemory>
    requires { list_all is_text (map test_of trials.now) ≡ true }
    ensures { IfOk result (λ value. view value ≡ array (entries_of (map line_of trials.now))) }
{
    let mut entries = Vec::new(alloc);
    for trial in trials {
        let entry = entry_of(alloc, trial)?;
        if entries.push(entry).is_err() {
            return Err(NoMemory);
        }
    }
    Ok(Value::Array(entries))
}

/// The results of trials, in order.
fn results_of(alloc: Global, trials: &[Trial]) -> Result<Vec<Outcome>, NoMemory>
    ensures { IfOk result (λ results. results.items ≡ results_of (map line_of trials.now)) }
{
    let mut results = Vec::new(alloc);
    for trial in trials {
        if results.push(trial.result).is_err() {
            return Err(NoMemory);
        }
    }
    Ok(results)
}

/// The value of a report.
fn report_of(alloc: Global, trials: &[Trial]) -> Result<Value, NoMemory>
    requires { list_all is_text (map test_of trials.now) ≡ true }
    ensures { IfOk result (λ report. view report ≡ report_data (map line_of trials.now)) }
{
    let results = results_of(alloc, trials)?;
    let counts = counts_of(alloc, results.as_slice())?;
    let entries = entries_of(alloc, trials)?;
    match json!(in alloc; {"counts": counts, "tests": entries, "version": 1u64}) {
        Ok(report) => Ok(report),
        Err(_) => Err(NoMemory),
    }
}

/// The report of trials on one line. Where their paths differ it is read as what it tells of them.
#[tactic(auto, using(json_report::proofs::FloatLemmas::report_has_none, json_report::proofs::DepthLemmas::report_is_flat, json_report::proofs::BackLemmas::reads_back))]
pub fn to_json(alloc: Global, trials: &[Trial]) -> Result<Bytes, NoMemory>
    requires { list_all is_text (map test_of trials.now) ≡ true }
    ensures text { IfOk result (λ text. text ≡ json_text trials.now) }
    ensures read { IfOk result (λ text. twice_from 0 [] (map line_of trials.now) ≡ None
        → report_in text ≡ Ok (map line_of trials.now)) }
{
    let report = report_of(alloc, trials)?;
    let mut text = json_report::text_of(alloc, &report)?;
    text.append(b"\n")?;
    Ok(text)
}
