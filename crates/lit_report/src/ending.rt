//! The end of a report, and the status of a run.
ghost use Rattle.std.specs.Prelude.{◌≡◌, ◌≤◌, ◌++◌, IfOk, OnOk, length, map};
ghost use Rattle.std.specs.List.{list_any};
ghost use Rattle.lit_report.specs.Ending.{count_line, count_lines, count_of, counts, end_of, group_of, groups, names_of, rule_of, status_of};
ghost use Rattle.test_outcome.specs.Outcome.{is_failure};

use crate::reported::Reported;
use crate::text::{add_number, stars};
use lit_words::Detail;
use std::alloc::Global;
use test_outcome::Outcome;
use tt_base::{Bytes, NoMemory};

/// Whether a test failed.
fn has_failure<T: Reported>(tests: &[T]) -> bool
    ensures { result ≡ list_any (λ test. is_failure test.result) (map T.told tests.now) }
{
    for test in tests {
        if test.outcome().is_failure() {
            return true;
        }
    }
    false
}

/// How many tests have a result.
fn count_of<T: Reported>(tests: &[T], outcome: Outcome) -> u64
    ensures { result ≡ count_of outcome (map T.told tests.now) }
{
    let mut count = 0;
    for test in tests {
        if test.outcome().is_same(outcome) {
            count += 1;
        }
    }
    count
}

/// Adds the names of the tests of a result, each on a line.
fn add_names<T: Reported>(text: &mut Bytes, tests: &[T], outcome: Outcome) -> Result<(), NoMemory>
    ensures { OnOk result (text.new ≡ text.old ++ names_of outcome (map T.told tests.now)) }
{
    for test in tests {
        if test.outcome().is_same(outcome) {
            text.append(b"  ")?;
            text.append(test.name())?;
            text.append(b"\n")?;
        }
    }
    Ok(())
}

/// Adds the names of the tests of a result under its title.
#[tactic(auto, unfolding(crate::specs::Ending::group_of))]
fn add_group<T: Reported>(text: &mut Bytes, tests: &[T], outcome: Outcome) -> Result<(), NoMemory>
    ensures { OnOk result (text.new ≡ text.old ++ group_of outcome (map T.told tests.now)) }
{
    let count = count_of(tests, outcome);
    if count == 0 {
        return Ok(());
    }
    text.append(outcome.label())?;
    text.append(b" Tests (")?;
    add_number(text, count)?;
    text.append(b"):\n")?;
    add_names(text, tests, outcome)?;
    text.append(b"\n")
}

/// Adds the line above the names of the tests that failed, if some did.
fn add_rule<T: Reported>(text: &mut Bytes, tests: &[T]) -> Result<(), NoMemory>
    ensures { OnOk result (text.new ≡ text.old ++ rule_of (map T.told tests.now)) }
{
    if !has_failure(tests) {
        return Ok(());
    }
    text.append(stars())?;
    text.append(b"\n")
}

/// Adds the names of the tests that failed.
#[tactic(auto, unfolding(crate::specs::Ending::groups))]
fn add_groups<T: Reported>(text: &mut Bytes, tests: &[T]) -> Result<(), NoMemory>
    ensures { OnOk result (text.new ≡ text.old ++ groups (map T.told tests.now)) }
{
    add_rule(text, tests)?;
    add_group(text, tests, Outcome::Unresolved)?;
    add_group(text, tests, Outcome::Fail)?;
    add_group(text, tests, Outcome::Xpass)
}

/// Adds how many tests have a result, if some have.
#[tactic(auto, unfolding(crate::specs::Ending::count_line))]
fn add_count<T: Reported>(text: &mut Bytes, tests: &[T], outcome: Outcome) -> Result<(), NoMemory>
    ensures { OnOk result (text.new ≡ text.old ++ count_line outcome (map T.told tests.now)) }
{
    let count = count_of(tests, outcome);
    if count == 0 {
        return Ok(());
    }
    text.append(b"  ")?;
    text.append(outcome.label())?;
    text.append(b": ")?;
    add_number(text, count)?;
    text.append(b"\n")
}

/// Adds how many tests have each result.
#[tactic(auto, unfolding(crate::specs::Ending::count_lines))]
fn add_counts<T: Reported>(text: &mut Bytes, tests: &[T]) -> Result<(), NoMemory>
    ensures { OnOk result (text.new ≡ text.old ++ count_lines (map T.told tests.now)) }
{
    add_count(text, tests, Outcome::Unsupported)?;
    add_count(text, tests, Outcome::Pass)?;
    add_count(text, tests, Outcome::Flakypass)?;
    add_count(text, tests, Outcome::Xfail)?;
    add_count(text, tests, Outcome::Unresolved)?;
    add_count(text, tests, Outcome::Fail)?;
    add_count(text, tests, Outcome::Xpass)
}

/// Adds how many tests there were, and how many had each result, unless failures alone are shown.
fn add_numbers<T: Reported>(
    text: &mut Bytes,
    detail: Detail,
    count: u64,
    tests: &[T],
) -> Result<(), NoMemory>
    ensures { OnOk result (text.new ≡ text.old ++ counts detail count (map T.told tests.now)) }
{
    match detail {
        Detail::Quiet | Detail::Json => Ok(()),
        Detail::Whole | Detail::Verbose | Detail::Plain => {
            text.append(b"Testing done: ")?;
            add_number(text, count)?;
            text.append(b" tests\n")?;
            add_counts(text, tests)
        }
    }
}

/// The end of a report of so many tests, which isn't in JSON.
pub fn end_of<T: Reported>(
    alloc: Global,
    detail: Detail,
    count: u64,
    tests: &[T],
) -> Result<Bytes, NoMemory>
    ensures { IfOk result (λ text. text ≡ end_of detail count (map T.told tests.now)) }
{
    let mut text = Bytes::new(alloc);
    add_groups(&mut text, tests)?;
    add_numbers(&mut text, detail, count, tests)?;
    Ok(text)
}

/// The status of a run: 1 where a test failed, else 0.
pub fn status_of<T: Reported>(tests: &[T]) -> u8
    ensures { result ≡ status_of (map T.told tests.now) }
{
    if has_failure(tests) { 1 } else { 0 }
}
