//! The tests of a suite `demo` at `/w/demo`, over planned replies.
ghost use Rattle.std.specs.Prelude.{◌≡◌, IfOk, []};

use crate::rows::both;
use std::alloc::Global;
use tt_base::{Bytes, Items, NoMemory};
use tt_outside::{Finish, Planned, Reply, SharedBytes, SharedItems, Test};

/// A suite's tests, in order, and the replies that their commands get.
#[derive(Drop)]
pub(crate) struct Demo {
    pub tests: Items<Test>,
    pub plan: Items<Planned>,
}

/// The paths of the test of a file: of the file, and how those of its temporary files begin.
fn paths(alloc: Global, file: &str) -> Result<(Bytes, Bytes, Bytes), NoMemory> {
    let name = both(alloc, "demo :: ", file)?;
    let path = both(alloc, "/w/demo/", file)?;
    let temp = both(alloc, "/w/demo/Output/", file)?;
    Ok((name, path, temp))
}

/// Its directories: of the file, in which its commands run, and of its temporary files.
fn dirs(alloc: Global) -> Result<(Bytes, Bytes, Bytes), NoMemory> {
    let source_dir = both(alloc, "/w/demo", "")?;
    let work_dir = both(alloc, "/w/demo", "")?;
    let temp_dir = both(alloc, "/w/demo", "/Output")?;
    Ok((source_dir, work_dir, temp_dir))
}

/// No items, shared.
fn none<T: Drop>(alloc: Global) -> Result<SharedItems<T>, NoMemory>
    ensures { IfOk result (λ shared. shared ≡ []) }
{
    SharedItems::new(alloc, Items::new(alloc))
}

/// The test of a file.
fn test_of(alloc: Global, file: &str) -> Result<Test, NoMemory> {
    let features = none(alloc)?;
    let substitutions = none(alloc)?;
    let tools = none(alloc)?;
    let environment = none(alloc)?;
    let (name, path, temp) = paths(alloc, file)?;
    let (source_dir, work_dir, temp_dir) = dirs(alloc)?;
    Ok(Test {
        name,
        path,
        source_dir,
        work_dir,
        temp_dir,
        temp,
        features,
        substitutions,
        tools,
        environment,
    })
}

/// A program that ended with a code.
fn ended(code: u8) -> Reply {
    Reply::Status {
        finish: Finish::Code(code),
        out: SharedBytes::none(),
        err: SharedBytes::none(),
    }
}

/// What the program of a test comes to, by a digit: its code, or else Broken.
fn reply_of(word: &str) -> Reply {
    match word.bytes().next() {
        Some(byte) if byte.is_ascii_digit() => ended(byte - b'0'),
        _ => Reply::Broken,
    }
}

/// A test's file, which is read behind no entries.
fn file_of(alloc: Global, test: u64, text: &str) -> Result<Planned, NoMemory> {
    let bytes = SharedBytes::new(alloc, both(alloc, text, "")?)?;
    Ok(Planned {
        test,
        earlier: 0,
        reply: Reply::Bytes(bytes),
    })
}

/// A test's program, which is run behind two entries.
fn program_of(test: u64, word: &str) -> Planned {
    Planned {
        test,
        earlier: 2,
        reply: reply_of(word),
    }
}

/// Adds the test of a field, as `0 a.txt: RUN: true`, whose program ends with code 0.
fn add_test(alloc: Global, demo: &mut Demo, number: u64, field: &str) -> Result<(), NoMemory> {
    let (word, rest) = field.split_once(" ").unwrap_or(("", field));
    let (file, text) = rest.split_once(": ").unwrap_or((rest, ""));
    demo.tests.push(test_of(alloc, file)?)?;
    demo.plan.push(file_of(alloc, number, text)?)?;
    demo.plan.push(program_of(number, word))
}

/// The tests of a line, with semicolons between them.
pub(crate) fn demo_of(alloc: Global, line: &str) -> Result<Demo, NoMemory> {
    let mut demo = Demo {
        tests: Items::new(alloc),
        plan: Items::new(alloc),
    };
    let mut number = 0;
    for field in line.split("; ") {
        if !field.is_empty() && number < 1000 {
            add_test(alloc, &mut demo, number, field)?;
            number += 1;
        }
    }
    Ok(demo)
}
