//! A report that is read.
ghost use Rattle.std.specs.Prelude.{◌≡◌, IfOk, []};
ghost use Rattle.std.specs.Option.{option_map};
ghost use Rattle.json_report.specs.Reading.{Reads, are_whole, counted, has_keys, has_whole, items_at, line_in, lines_from, named_in, object_at, report_in, report_of, text_at, twice_from, unended, whole_at};
ghost use Rattle.json_report.specs.Report.{outcomes, results_of};
ghost use Rattle.serde_json.specs.Find.{as_object};
ghost use Rattle.serde_json.specs.View.{items_view, members_view, view};

use crate::counts::{counts_of, is_written_alike, outcomes};
use crate::line::{Line, ReportFail, ReportFault};
use crate::results::ByPath;
use serde_json::{Map, Value};
use std::alloc::Global;
use test_outcome::Outcome;
use tt_base::{Bytes, Items, NoMemory};

/// Whether a value is an object with so many keys.
fn has_keys(value: &Value, count: usize) -> bool
    ensures { result ≡ has_keys count (view value.now) }
{
    match value.as_object() {
        Some(members) => members.len() == count,
        None => false,
    }
}

/// The result of this name.
fn outcome_named(name: &[u8]) -> Option<Outcome>
    ensures { result ≡ named_in outcomes name.now }
{
    for outcome in outcomes() {
        if outcome.name() == name {
            return Some(*outcome);
        }
    }
    None
}

/// The text of a key.
fn text_at<'a>(value: &'a Value, key: &str) -> Option<&'a str>
    ensures { option_map (λ text. text.now) result ≡ text_at key.now (view value.now) }
{
    value.get(key).and_then(Value::as_str)
}

/// The test of an entry.
fn line_in(alloc: Global, entry: &Value) -> Result<Option<Line>, NoMemory>
    ensures { IfOk result (λ line. line ≡ line_in (view entry.now)) }
{
    if !has_keys(entry, 3) {
        return Ok(None);
    }
    let Some(name) = text_at(entry, "name") else {
        return Ok(None);
    };
    let Some(path) = text_at(entry, "path") else {
        return Ok(None);
    };
    let Some(result) = text_at(entry, "result") else {
        return Ok(None);
    };
    match outcome_named(result.as_bytes()) {
        Some(result) => Ok(Some(Line {
            name: Bytes::from_slice(alloc, name.as_bytes())?,
            path: Bytes::from_slice(alloc, path.as_bytes())?,
            result,
        })),
        None => Ok(None),
    }
}

/// The tests of entries, in order.
fn lines_in(alloc: Global, entries: &[Value]) -> Result<Items<Line>, ReportFail>
    ensures { Reads result (lines_from 0 (items_view entries.now)) }
{
    let mut lines = Items::new(alloc);
    for (place, entry) in entries.iter().enumerate() {
        match line_in(alloc, entry)? {
            Some(line) => lines.push(line)?,
            None => return Err(ReportFail::Bad(ReportFault::BadTest(place))),
        }
    }
    Ok(lines)
}

/// The place of the first test whose path is that of an earlier one.
fn twice(alloc: Global, lines: &[Line]) -> Result<Option<usize>, NoMemory>
    ensures { IfOk result (λ place. place ≡ twice_from 0 [] lines.now) }
{
    let mut paths = ByPath::new(alloc);
    for (place, line) in lines.iter().enumerate() {
        if paths.put_old(line)?.is_some() {
            return Ok(Some(place));
        }
    }
    Ok(None)
}

/// Whether all members are whole numbers.
fn are_whole(members: &Map<String, Value>) -> bool
    ensures { result ≡ are_whole (members_view members.now.entries) }
{
    for (_, value) in members {
        if value.as_u64().is_none() {
            return false;
        }
    }
    true
}

/// Whether a value is an object of whole numbers.
fn has_whole(value: &Value) -> bool
    ensures { result ≡ has_whole (as_object (view value.now)) }
{
    match value.as_object() {
        Some(members) => are_whole(members),
        None => false,
    }
}

/// The results of tests, in order.
fn results_of(alloc: Global, lines: &[Line]) -> Result<Vec<Outcome>, NoMemory>
    ensures { IfOk result (λ results. results.items ≡ results_of lines.now) }
{
    let mut results = Vec::new(alloc);
    for line in lines {
        if results.push(line.result).is_err() {
            return Err(NoMemory);
        }
    }
    Ok(results)
}

/// Whether counts are those of tests.
#[tactic(auto, using(crate::proofs::FloatLemmas::counts_have_none, crate::proofs::FloatLemmas::whole_has_none))]
fn is_counted(alloc: Global, counts: &Value, lines: &[Line]) -> Result<bool, NoMemory>
    ensures { IfOk result (λ is. is ≡ counted (view counts.now) lines.now) }
{
    if !has_whole(counts) {
        return Ok(false);
    }
    let results = results_of(alloc, lines)?;
    let due = counts_of(alloc, results.as_slice())?;
    is_written_alike(alloc, counts, &due)
}

/// The value of a key that is an object.
fn object_at<'a>(value: &'a Value, key: &str) -> Option<&'a Value>
    ensures { option_map (λ found. view found.now) result ≡ object_at key.now (view value.now) }
{
    match value.get(key) {
        Some(found) if found.is_object() => Some(found),
        _ => None,
    }
}

/// The items of a key that is a list.
fn items_at<'a>(value: &'a Value, key: &str) -> Option<&'a [Value]>
    ensures { option_map (λ items. items_view items.now) result ≡ items_at key.now (view value.now) }
{
    match value.get(key).and_then(Value::as_array) {
        Some(items) => Some(items.as_slice()),
        None => None,
    }
}

/// The whole number of a key.
fn whole_at(value: &Value, key: &str) -> Option<u64>
    ensures { result ≡ whole_at key.now (view value.now) }
{
    value.get(key).and_then(Value::as_u64)
}

/// The tests of a report's value.
fn report_of(alloc: Global, report: &Value) -> Result<Items<Line>, ReportFail>
    ensures { Reads result (report_of (view report.now)) }
{
    if !has_keys(report, 3) {
        return Err(ReportFail::Bad(ReportFault::BadShape));
    }
    let Some(counts) = object_at(report, "counts") else {
        return Err(ReportFail::Bad(ReportFault::BadShape));
    };
    let Some(tests) = items_at(report, "tests") else {
        return Err(ReportFail::Bad(ReportFault::BadShape));
    };
    let Some(version) = whole_at(report, "version") else {
        return Err(ReportFail::Bad(ReportFault::BadShape));
    };
    if version != 1 {
        return Err(ReportFail::Bad(ReportFault::BadVersion));
    }
    let lines = lines_in(alloc, tests)?;
    if let Some(place) = twice(alloc, lines.as_slice())? {
        return Err(ReportFail::Bad(ReportFault::TwicePath(place)));
    }
    if !is_counted(alloc, counts, lines.as_slice())? {
        return Err(ReportFail::Bad(ReportFault::BadCounts));
    }
    Ok(lines)
}

/// Bytes without one newline at their end.
fn unended(bytes: &[u8]) -> &[u8]
    ensures { result.now ≡ unended bytes.now }
{
    bytes.strip_suffix(b"\n").unwrap_or(bytes)
}

/// Reads a report. Blanks may stand between its parts, as JSON has it, and the members of an object in any order.
pub fn read_report(alloc: Global, bytes: &[u8]) -> Result<Items<Line>, ReportFail>
    ensures { Reads result (report_in bytes.now) }
{
    match Value::from_slice(alloc, unended(bytes)) {
        Ok(report) => report_of(alloc, &report),
        Err(error) => {
            if error.is_memory() {
                Err(ReportFail::NoMemory)
            } else {
                Err(ReportFail::Bad(ReportFault::NotJson))
            }
        }
    }
}
