//! What a suite file says, and which tests a shard has.
use lit_suite::{Suite, SuiteFail, read_suite, shard};
use std::alloc::Global;

const WHOLE: &str = r#"version = 2
name = "n"
suffixes = [".a", ".b"]
excludes = ["x"]
features = ["f"]
exec_root = "/e"
substitutions = [["%a", ""], ["%b", "c"]]
parts = [{path = "p/q", features = ["g"]}]
[tools]
z = "1"
y = "2"
[environment]
E = "3"
"#;

/// How many suffixes, excluded names, features, substitutions and variables a suite has.
fn lengths(suite: &Suite) -> [usize; 5] {
    [
        suite.suffixes.len(),
        suite.excludes.len(),
        suite.features.len(),
        suite.substitutions.len(),
        suite.environment.len(),
    ]
}

/// Whether the tools are two, in the order of their names.
fn has_its_tools(suite: &Suite) -> bool {
    match suite.tools.as_slice() {
        [first, second] => {
            first.name.as_slice() == b"y".as_slice() && second.value.as_slice() == b"1".as_slice()
        }
        _ => false,
    }
}

/// Whether there is one part, with its path and a feature.
fn has_its_part(suite: &Suite) -> bool {
    match suite.parts.as_slice() {
        [part] => part.path.as_slice() == b"p/q".as_slice() && part.features.len() == 1,
        _ => false,
    }
}

/// What of that a suite lacks.
fn lacking(suite: &Suite) -> &'static str {
    if lengths(suite) != [2, 1, 1, 2, 1] {
        return "lengths";
    }
    if !has_its_tools(suite) {
        return "tools";
    }
    if has_its_part(suite) {
        "nothing"
    } else {
        "parts"
    }
}

/// What is lacking of a suite that was read.
fn told(read: &Result<Suite, SuiteFail>) -> &'static str {
    match read {
        Ok(suite) => lacking(suite),
        Err(_) => "all",
    }
}

fn is_told(alloc: Global, text: &str, due: &str) -> bool {
    let read = read_suite(alloc, text.as_bytes());
    told(&read) == due
}

#[test]
fn each_key_is_kept(rt: HostRuntime) {
    assert!(rt; is_told(rt.alloc(), WHOLE, "nothing"));
}

#[test]
fn the_second_shard_of_two_has_every_other_test(rt: HostRuntime) {
    for (place, due) in [(0, false), (1, true), (2, false), (3, true)] {
        assert!(rt; shard(place, 2, 2) == due, "{place}");
    }
}
