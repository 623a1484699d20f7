//! The test of a path.
ghost use Rattle.std.specs.Prelude.{IfOk};
ghost use Rattle.lit_suite.specs.Whole.{IsWhole};

use crate::rows::{Tells, each_is_told, no_row};
use lit_dirs::{test_of, tools_of};
use lit_paths::read_path;
use lit_suite::{Suite, read_suite};
use std::alloc::Global;
use tt_base::{Bytes, NoMemory};
use tt_outside::{Pair, Test};

const SUITE: &str = r#"version = 2
name = "s"
suffixes = [".t"]
features = ["f"]
exec_root = "../out"
substitutions = [["%a", "1"]]
tools = {t = "bin/./t", u = "/u"}
environment = {E = "e"}
parts = [{path = "x", features = ["g"], substitutions = [["%a", "2"]]}, {path = "y"}]
"#;

/// The suite at `/w/s`. One that is refused counts as want of memory.
#[tactic(auto, using(lit_suite::proofs::WholeLemmas::reading_is_whole))]
fn suite_of(alloc: Global) -> Result<Suite, NoMemory>
    ensures { IfOk result IsWhole }
{
    match read_suite(alloc, SUITE.as_bytes()) {
        Ok(suite) => Ok(suite),
        Err(_) => Err(NoMemory),
    }
}

fn path_of(alloc: Global, below: &str) -> Result<Bytes, NoMemory> {
    let mut path = Bytes::from_slice(alloc, b"/w/s/".as_slice())?;
    path.append(below.as_bytes())?;
    Ok(path)
}

/// The test of a path below the directory of a suite, and behind another where there is one.
fn made_in(
    alloc: Global,
    root: &[Bytes],
    suite: &Suite,
    below: &str,
    last: Option<&Test>,
) -> Result<Test, NoMemory>
    requires { IsWhole suite.now }
{
    let tools = tools_of(alloc, root, suite.tools.as_slice())?;
    let path = path_of(alloc, below)?;
    test_of(alloc, root, suite, &tools, path, last)
}

/// The same of the suite at `/w/s`.
fn made_behind(alloc: Global, below: &str, last: Option<&Test>) -> Result<Test, NoMemory> {
    let root = read_path(alloc, b"/w/s".as_slice())?;
    let suite = suite_of(alloc)?;
    made_in(alloc, root.as_slice(), &suite, below, last)
}

/// The test of a path below `/w/s`.
fn made(alloc: Global, below: &str) -> Result<Test, NoMemory> {
    made_behind(alloc, below, None)
}

/// The value of the first pair.
fn first_value(pairs: &[Pair]) -> &[u8] {
    match pairs {
        [first, ..] => first.value.as_slice(),
        [] => b"none",
    }
}

/// The last text.
fn last_text(texts: &[Bytes]) -> &[u8] {
    match texts {
        [.., last] => last.as_slice(),
        [] => b"none",
    }
}

/// Bytes, and a blank behind them.
fn add(text: &mut Bytes, part: &[u8]) -> Result<(), NoMemory> {
    text.append(part)?;
    text.append(b" ")
}

/// A test's name, its file, and its directories.
fn places_of(alloc: Global, test: &Test) -> Result<Bytes, NoMemory> {
    let mut text = Bytes::new(alloc);
    add(&mut text, test.name.as_slice())?;
    add(&mut text, test.path.as_slice())?;
    add(&mut text, test.source_dir.as_slice())?;
    add(&mut text, test.work_dir.as_slice())?;
    add(&mut text, test.temp_dir.as_slice())?;
    add(&mut text, test.temp.as_slice())?;
    Ok(text)
}

/// The same, its first tool, its first replacement, and its last feature.
fn parts_of(alloc: Global, test: &Test) -> Result<Bytes, NoMemory> {
    let mut text = places_of(alloc, test)?;
    add(&mut text, first_value(test.tools.as_slice()))?;
    add(&mut text, first_value(test.substitutions.as_slice()))?;
    text.append(last_text(test.features.as_slice()))?;
    Ok(text)
}

/// What the test of a path has.
struct Parts;

impl Tells for Parts {
    fn told(&self, alloc: Global, given: &str) -> Result<Bytes, NoMemory> {
        let test = made(alloc, given)?;
        parts_of(alloc, &test)
    }
}

/// A path, and its test's name, file, directories, first tool, first replacement and last feature.
const FIRST: &str =
    "a.t => s :: a.t /w/s/a.t /w/s /w/out /w/out/Output /w/out/Output/a.t.tmp /w/s/bin/t 1 f";

#[test]
fn a_test_has_all_that_its_run_needs(rt: HostRuntime) -> Result<(), NoMemory> {
    each_is_told(&rt, rt.alloc(), FIRST, &Parts)
}

/// The same of a path below a part.
const SECOND: &str =
    "x/b.t => s :: x/b.t /w/s/x/b.t /w/s/x /w/out/x /w/out/x/Output /w/out/x/Output/b.t.tmp /w/s/bin/t 2 g";

#[test]
fn a_part_adds_to_the_tests_below_it(rt: HostRuntime) -> Result<(), NoMemory> {
    each_is_told(&rt, rt.alloc(), SECOND, &Parts)
}

/// Whether a test is that of a path.
fn is_made_of(alloc: Global, test: &Test, below: &str) -> Result<bool, NoMemory> {
    let other = made(alloc, below)?;
    Ok(test.same(&other))
}

/// Whether the test of a path behind another is what it is by itself.
fn is_its_own(alloc: Global, before: &Test, below: &str) -> Result<bool, NoMemory> {
    let behind = made_behind(alloc, below, Some(before))?;
    is_made_of(alloc, &behind, below)
}

/// The same of the test of a path that is made behind that of another.
fn are_their_own(alloc: Global, first: &str, second: &str) -> Result<bool, NoMemory> {
    let before = made(alloc, first)?;
    is_its_own(alloc, &before, second)
}

/// `same` or `other`.
fn word(alloc: Global, same: bool) -> Result<Bytes, NoMemory> {
    Bytes::from_slice(alloc, if same { b"same" } else { b"other" })
}

/// Whether the second test of a row is the same behind the first.
struct Behind;

impl Tells for Behind {
    fn told(&self, alloc: Global, given: &str) -> Result<Bytes, NoMemory> {
        match given.split_once(" => ") {
            Some((first, second)) => word(alloc, are_their_own(alloc, first, second)?),
            None => no_row(alloc),
        }
    }
}

/// Paths of two tests, of which the second is made behind the first.
const BEHIND: &str = "a.t => b.t => same
a.t => x/b.t => same
x/a.t => x/b.t => same
x/a.t => y/b.t => same
y/a.t => z.t => same";

#[test]
fn a_test_is_the_same_behind_any_other(rt: HostRuntime) -> Result<(), NoMemory> {
    each_is_told(&rt, rt.alloc(), BEHIND, &Behind)
}

/// Whether a test and its copy are the same.
fn is_its_copy(alloc: Global, test: &Test) -> Result<bool, NoMemory> {
    let copy = test.copy(alloc)?;
    Ok(test.same(&copy))
}

/// The same of the test of a path.
fn is_copied(alloc: Global, below: &str) -> Result<bool, NoMemory> {
    let test = made(alloc, below)?;
    is_its_copy(alloc, &test)
}

/// Whether the tests of two paths are the same.
fn are_same(alloc: Global, first: &str, second: &str) -> Result<bool, NoMemory> {
    let test = made(alloc, first)?;
    is_made_of(alloc, &test, second)
}

#[test]
fn a_copy_of_a_test_is_equal_and_another_test_is_not(rt: HostRuntime) -> Result<(), NoMemory> {
    assert!(rt; is_copied(rt.alloc(), "a.t")?);
    assert!(rt; !are_same(rt.alloc(), "a.t", "x/b.t")?);
    Ok(())
}
