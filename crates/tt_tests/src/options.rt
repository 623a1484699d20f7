//! Tables of words, and what they give. Words are written between commas.
use opt_words::{Form, Name, Row, Table};
use std::alloc::{AllocError, Global};

/// Rows of each form, the first seven of a kind as `filecheck` has them.
fn table() -> Table<7> {
    Table {
        rows: [
            Row {
                name: Name::of("check-prefix"),
                form: Form::Many,
            },
            Row {
                name: Name::of("input-file"),
                form: Form::Once,
            },
            Row {
                name: Name::of("allow-empty"),
                form: Form::Flag,
            },
            Row {
                name: Name::of("allow-unused-prefixes"),
                form: Form::Switch,
            },
            Row {
                name: Name::of("D"),
                form: Form::Glued,
            },
            Row {
                name: Name::of("j"),
                form: Form::Number { least: 1, most: 64 },
            },
            Row {
                name: Name::of("generate"),
                form: Form::Number {
                    least: 1,
                    most: 20_000,
                },
            },
        ],
        stop_at_plain: false,
    }
}

fn words(alloc: Global, line: &str) -> Result<Vec<String>, AllocError> {
    let mut words = Vec::new(alloc);
    for word in line.split(',') {
        words.push(String::from_str(alloc, word)?)?;
    }
    Ok(words)
}

/// Words; then a row, its last value, how often it is given, and how many plain words there are.
const LAST: &str = "--check-prefix=A => 0 'A' 1 0
-check-prefix=A,t.txt => 0 'A' 1 1
--check-prefix,A,--check-prefix=B=C => 0 'B=C' 2 0
--check-prefix,--nope => 0 '--nope' 1 0
--check-prefix=,t.txt => 0 '' 1 1
--input-file,-,t.txt => 1 '-' 1 1
--allow-empty,-allow-empty => 2 '' 2 0
--allow-unused-prefixes => 3 '' 1 0
--allow-unused-prefixes=true,-allow-unused-prefixes=false => 3 'false' 2 0
-DX=1 => 4 'X=1' 1 0
-D#N=1,--D=1 => 4 '=1' 2 0
-D,X=1,-D= => 4 '=' 2 0
-j8 => 5 '8' 1 0
-j,8 => 5 '8' 1 0
-j=8 => 5 '8' 1 0
--j=064 => 5 '064' 1 0
--generate=20000 => 6 '20000' 1 0
-,,a,--,--allow-empty,-x => 2 'none' 0 5
--,-- => 2 'none' 0 1";

/// What stands behind the arrow of a row: a row of the table, its last value, how often it is given, and how many plain words
/// there are.
#[derive(Drop)]
struct Due<'a> {
    row: usize,
    last: &'a str,
    times: usize,
    plain: usize,
}

fn due_of(text: &str) -> Option<Due<'_>> {
    let (row, rest) = text.split_once(" '")?;
    let (last, counts) = rest.split_once("' ")?;
    let (times, plain) = counts.split_once(' ')?;
    Some(Due {
        row: row.parse().ok()?,
        last,
        times: times.parse().ok()?,
        plain: plain.parse().ok()?,
    })
}

/// Whether a row is given with this last value, and so often beside so many plain words.
fn gives(words: &[String], due: &Due<'_>) -> bool {
    let Ok(settings) = table().read(words) else {
        return false;
    };
    if due.row >= 7 {
        return false;
    }
    let is_last = match settings.last[due.row] {
        None => due.last == "none",
        Some(given) => given.value(words) == due.last.as_bytes(),
    };
    is_last && settings.times[due.row] == due.times && settings.plain == due.plain
}

/// Whether the words before the arrow of a row give what stands behind it.
fn is_given(alloc: Global, row: &str) -> Result<bool, AllocError> {
    let Some((line, due)) = row.split_once(" => ") else {
        return Ok(false);
    };
    let Some(due) = due_of(due) else {
        return Ok(false);
    };
    let words = words(alloc, line)?;
    Ok(gives(words.as_slice(), &due))
}

#[test]
fn the_last_value_of_a_row_counts(rt: HostRuntime) -> Result<(), AllocError> {
    for row in LAST.lines() {
        assert!(rt; is_given(rt.alloc(), row)?, "{row}");
    }
    Ok(())
}

/// A table of one row, whose words are plain behind the first plain one.
fn stopping() -> Table<1> {
    Table {
        rows: [Row {
            name: Name::of("crash"),
            form: Form::Flag,
        }],
        stop_at_plain: true,
    }
}

/// How often the row is given, how many plain words there are, and how many words in all; nothing of refused words, or at
/// want of memory.
fn counts(alloc: Global, words: &[String]) -> Option<(usize, usize, usize)> {
    let table = stopping();
    let settings = table.read(words).ok()?;
    let all = table.givens(alloc, words).ok()?;
    Some((settings.times[0], settings.plain, all.len()))
}

#[test]
fn all_words_behind_a_plain_one_may_be_plain(rt: HostRuntime) -> Result<(), AllocError> {
    let words = words(rt.alloc(), "--crash,p,--crash,--nope,--")?;
    assert!(rt; counts(rt.alloc(), words.as_slice()) == Some((1, 4, 5)));
    Ok(())
}
