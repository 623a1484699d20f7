//! What a discovery has found.
ghost use Rattle.std.specs.Prelude.{◌≡◌, ◌↔◌, ◌∷◌, ◌++◌, All, IfOk, IsTrue, OnOk, [], length, map};
ghost use Rattle.lit_find.specs.Files.{IsFiled, test_in};
ghost use Rattle.lit_find.specs.Found.{IsInOrder};

use crate::place::TestFile;
use lit_dirs::{name_of, test_of};
use std::alloc::Global;
use std::marker::Model;
use tt_base::{Bytes, Items, NoMemory};
use tt_outside::Test;

/// The tests of files. A discovery answers those that words make, each once, in byte order of their paths. A test is
/// made, or named, when it is asked for.
#[derive(Drop, Debug)]
pub struct Discovery {
    files: Vec<TestFile>,
}

impl Model for Discovery {
    ghost use Rattle.std.specs.Prelude.{All, List, map};
    ghost use Rattle.lit_find.specs.Files.{IsFiled, test_in};
    ghost use Rattle.tt_outside.specs.declared.test_data.Test.{Test};

    ghost Value = { List Test };

    ghost view = { λ found. map test_in found.files.items };

    ghost invariant = { λ found. All IsFiled found.files.items };
}

/// The name of a file's test.
fn name_in(alloc: Global, file: &TestFile) -> Result<Bytes, NoMemory>
    requires { IsFiled file.now }
    ensures { IfOk result (λ name. name ≡ (test_in file.now).name) }
{
    let root = file.suite.get();
    name_of(
        alloc,
        root.dir.as_slice(),
        &root.suite,
        file.path.as_slice(),
    )
}

/// The test of a file. `last` is the test that was made before it.
fn test_in(alloc: Global, file: TestFile, last: Option<&Test>) -> Result<Test, NoMemory>
    requires { IsFiled file }
    ensures { IfOk result (λ test. test ≡ test_in file) }
{
    let TestFile { path, suite } = file;
    let root = suite.get();
    let dir = root.dir.as_slice();
    test_of(alloc, dir, &root.suite, suite.tools(), path, last)
}

/// The names of the tests of files.
fn names_in(alloc: Global, files: &[TestFile]) -> Result<Items<Bytes>, NoMemory>
    requires { All IsFiled files.now }
    ensures { IfOk result (λ names. names ≡ map (λ file. (test_in file).name) files.now) }
{
    let mut names = Items::new(alloc);
    for file in files {
        names.push(name_in(alloc, file)?)?;
    }
    Ok(names)
}

/// The tests of files.
fn tests_in(alloc: Global, files: Vec<TestFile>) -> Result<Items<Test>, NoMemory>
    requires { All IsFiled files.items }
    ensures { IfOk result (λ tests. tests ≡ map test_in files.items) }
{
    let mut tests = Items::new(alloc);
    for file in files {
        let test = test_in(alloc, file, tests.as_slice().last())?;
        tests.push(test)?;
    }
    Ok(tests)
}

impl Discovery {
    /// No tests. It takes no memory.
    pub(crate) fn new(alloc: Global) -> Discovery
        ensures { result ≡ [] }
    {
        Discovery {
            files: Vec::new(alloc),
        }
    }

    /// Adds the test of a file.
    #[tactic(auto, using(std::proofs::lemmas::List::map_push))]
    pub(crate) fn put(&mut self, file: TestFile) -> Result<(), NoMemory>
        requires { IsFiled file }
        ensures { OnOk result (self.new ≡ self.old ++ test_in file ∷ []) }
    {
        match self.files.push(file) {
            Ok(_) => Ok(()),
            Err(_) => Err(NoMemory),
        }
    }

    /// These tests, each path once, in byte order.
    pub(crate) fn in_order(self) -> Discovery
        ensures { IsInOrder self result }
    {
        let mut files = self.files;
        files.sort_unstable_by(|one, other| one.path.as_slice().cmp(other.path.as_slice()));
        files.dedup_by(|one, other| one.path.as_slice().cmp(other.path.as_slice()).is_eq());
        Discovery { files }
    }

    /// How many tests there are.
    pub fn len(&self) -> usize
        ensures { result ≡ length self.now }
    {
        self.files.len()
    }

    /// Whether there are none.
    pub fn is_empty(&self) -> bool
        ensures { IsTrue result ↔ (self.now ≡ []) }
    {
        self.files.is_empty()
    }

    /// The names of the tests, without the rest of each.
    pub fn names(&self, alloc: Global) -> Result<Items<Bytes>, NoMemory>
        ensures { IfOk result (λ names. names ≡ map (λ test. test.name) self.now) }
    {
        names_in(alloc, self.files.as_slice())
    }

    /// The tests.
    pub fn into_tests(self, alloc: Global) -> Result<Items<Test>, NoMemory>
        ensures { IfOk result (λ tests. tests ≡ self) }
    {
        tests_in(alloc, self.files)
    }
}
