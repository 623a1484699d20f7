//! How many tests have each result, and the text of a value.
ghost use Rattle.std.specs.Prelude.{◌≡◌, IfOk, false};
ghost use Rattle.std.specs.Str.{IsUtf8, bytes_eq};
ghost use Rattle.json_report.specs.Report.{count_of, counts_of, outcomes};
ghost use Rattle.json_report.specs.Texts.{IsCompact, ReadsAs};
ghost use Rattle.serde_json.specs.Data.{object};
ghost use Rattle.serde_json.specs.View.{view};
ghost use Rattle.serde_json.specs.Written.{compact_text, has_float};
ghost use Rattle.test_outcome.specs.Outcome.{name_of};

use serde_json::{Map, Value, put};
use std::alloc::Global;
use std::str::from_utf8;
use test_outcome::Outcome;
use tt_base::{Bytes, NoMemory};

/// All results.
pub(crate) fn outcomes() -> &'static [Outcome]
    ensures { result.now ≡ outcomes }
{
    &[
        Outcome::Pass,
        Outcome::Flakypass,
        Outcome::Fail,
        Outcome::Xfail,
        Outcome::Xpass,
        Outcome::Unsupported,
        Outcome::Unresolved,
    ]
}

/// The name of a result.
pub fn outcome_text(outcome: Outcome) -> &'static str
    ensures { result.now ≡ name_of outcome }
{
    match from_utf8(outcome.name()) {
        Ok(name) => name,
        Err(_) => unreachable!(),
    }
}

/// How many of results are this one.
fn count_of(results: &[Outcome], outcome: Outcome) -> u64
    ensures { result ≡ count_of results.now outcome }
{
    let mut count = 0;
    for result in results {
        if result.is_same(outcome) {
            count += 1;
        }
    }
    count
}

/// The count of each result that occurs.
pub fn counts_of(alloc: Global, results: &[Outcome]) -> Result<Value, NoMemory>
    ensures { IfOk result (λ value. view value ≡ object (counts_of results.now)) }
{
    let mut counts = Map::new(alloc);
    for outcome in outcomes() {
        let count = count_of(results, *outcome);
        if count > 0 {
            let name = outcome_text(*outcome);
            if put(&mut counts, alloc, name, Value::from(count)).is_err() {
                return Err(NoMemory);
            }
        }
    }
    Ok(Value::Object(counts))
}

/// The text of a value on one line.
pub fn text_of(alloc: Global, value: &Value) -> Result<Bytes, NoMemory>
    ensures text { IfOk result (IsCompact (view value.now)) }
    ensures utf8 { IfOk result IsUtf8 }
    ensures read { IfOk result (ReadsAs (view value.now)) }
{
    match value.to_vec(alloc) {
        Ok(text) => Ok(Bytes::from_vec(text)),
        Err(_) => Err(NoMemory),
    }
}

/// Whether two values without a float are written alike.
pub(crate) fn is_written_alike(alloc: Global, one: &Value, other: &Value) -> Result<bool, NoMemory>
    ensures { IfOk result (λ is. has_float (view one.now) ≡ false → has_float (view other.now) ≡ false
        → is ≡ bytes_eq (compact_text (view one.now)) (compact_text (view other.now))) }
{
    let one = text_of(alloc, one)?;
    let other = text_of(alloc, other)?;
    Ok(one.as_slice() == other.as_slice())
}
