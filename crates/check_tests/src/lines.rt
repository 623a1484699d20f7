//! Cases of the public calls with ample memory.
use crate::fields::{Tells, are_bytes, bytes_of, each_is_told, in_bytes, no_row, three};
use crate::prefixes::list_of;
use check_lines::{
    CheckFail, CheckFault, CheckKind, Directive, FileRules, canon, canon_owned, read_checks,
};
use std::alloc::{AllocError, Global};
use tt_base::{Bytes, Items, NoMemory};

/// Texts, and their canonical forms, plain and strict.
const CANON: &str = "a \t b\r~c => a b~c => a \t b~c
\r => \r => \r
a\rb~ => a\rb~ => a\rb~
\r\r~ => \r~ => \r~
\r~\r~ => ~~ => ~~
a \r~\t\tb => a ~ b => a ~\t\tb
 \r ~ =>  \r ~ =>  \r ~
\t\ta  \t =>  a  => \t\ta  \t
   =>   =>   
 =>  => ";

/// Whether this is the canonical form of a text.
fn is_canon(alloc: Global, text: &[u8], strict: bool, due: &str) -> Result<bool, NoMemory> {
    let due = bytes_of(alloc, due)?;
    are_bytes(canon(alloc, text, strict), due.as_slice())
}

/// Whether a row has the canonical forms of its text.
fn are_canon(alloc: Global, row: &str) -> Result<bool, NoMemory> {
    let Some((text, plain, strict)) = three(row) else {
        return Ok(false);
    };
    let text = bytes_of(alloc, text)?;
    let is_plain = is_canon(alloc, text.as_slice(), false, plain)?;
    Ok(is_plain && is_canon(alloc, text.as_slice(), true, strict)?)
}

#[test]
fn runs_of_blanks_and_line_ends_become_one_byte(rt: HostRuntime) -> Result<(), NoMemory> {
    for row in CANON.split('\n') {
        assert!(rt; are_canon(rt.alloc(), row)?, "{row:?}");
    }
    Ok(())
}

/// Whether two bytes, behind so many others of 40, become this one.
fn become_one(alloc: Global, at: usize, two: (u8, u8), one: u8) -> Result<bool, NoMemory> {
    if at >= 39 {
        return Ok(false);
    }
    let mut text = [b'a'; 40];
    text[at] = two.0;
    text[at + 1] = two.1;
    let mut due = [b'a'; 39];
    due[at] = one;
    let out = canon_owned(Bytes::from_slice(alloc, text.as_slice())?, false);
    Ok(out.as_slice() == due.as_slice())
}

#[test]
fn two_bytes_become_one_at_each_offset(rt: HostRuntime) -> Result<(), NoMemory> {
    for at in 0..39 {
        for (first, second, one) in [
            (b'\r', b'\n', b'\n'),
            (b' ', b'\t', b' '),
            (b'\t', b' ', b' '),
        ] {
            let are_one = become_one(rt.alloc(), at, (first, second), one)?;
            assert!(rt; are_one, "{first} and {second} at {at}");
        }
    }
    Ok(())
}

/// The directives by these check prefixes, and the comment prefixes COM and RUN.
/// A text longer than any that is read counts as want of memory.
fn read_by(
    alloc: Global,
    prefixes: &str,
    allow_unused: bool,
    text: &[u8],
) -> Result<Items<Directive>, CheckFail> {
    if text.len() > 1 << 30 {
        return Err(CheckFail::NoMemory);
    }
    let prefixes = list_of(alloc, prefixes)?;
    let comments = list_of(alloc, "COM,RUN")?;
    let rules = FileRules {
        checks: prefixes.as_slice(),
        comments: comments.as_slice(),
        allow_unused,
        keep_blanks: false,
        may_lack: false,
    };
    read_checks(alloc, &rules, text)
}

/// The directives by the prefix CHECK.
fn read(alloc: Global, text: &[u8]) -> Result<Items<Directive>, CheckFail> {
    read_by(alloc, "CHECK", false, text)
}

/// The numbers of a directive, as `line head col from to`.
fn numbers_of(alloc: Global, one: &Directive) -> Result<String, AllocError> {
    let (line, head, col) = (one.line, one.head, one.col);
    let (from, to) = (one.body.from, one.body.to);
    format!(in alloc; "{line} {head} {col} {from} {to}")
}

/// Texts, and the numbers of their one directive.
const PLACES: &str = "CHECK: foo => 1 1 8 7 10
CHECK: foo~ => 1 1 8 7 10
x CHECK: y   => 1 3 10 9 10
CHECK:y~~ => 1 1 7 6 7
~~// CHECK:  a CHECK: b ~c => 3 4 12 13 23
MYCHECK: CHECK: a => 1 10 17 16 17
CHECK: a RUN: b => 1 1 8 7 15
RUN:~XCOM: CHECK: a => 2 7 14 18 19
CHECK-NOTE: CHECK: a => 1 13 20 19 20
RUN CHECK: a => 1 5 12 11 12
x CHECK-COUNT-2: y => 1 3 18 17 18";

/// The directives that were read; none of a text that was refused.
fn directives_of(read: &Result<Items<Directive>, CheckFail>) -> &[Directive] {
    match read {
        Ok(directives) => directives.as_slice(),
        Err(_) => &[],
    }
}

/// The numbers of the one directive of a text.
fn numbers_told(alloc: Global, text: &[u8]) -> Result<Bytes, NoMemory> {
    let read = read(alloc, text);
    one_told(alloc, directives_of(&read))
}

fn one_told(alloc: Global, directives: &[Directive]) -> Result<Bytes, NoMemory> {
    match directives {
        [one] => in_bytes(alloc, numbers_of(alloc, one)),
        _ => no_row(alloc),
    }
}

/// The numbers of the one directive of a text.
struct Places;

impl Tells for Places {
    fn told(&self, alloc: Global, given: &str) -> Result<Bytes, NoMemory> {
        let text = bytes_of(alloc, given)?;
        numbers_told(alloc, text.as_slice())
    }
}

#[test]
fn a_directive_has_the_rest_of_its_line(rt: HostRuntime) -> Result<(), NoMemory> {
    each_is_told(&rt, rt.alloc(), PLACES, &Places)
}

/// Lines behind a first one; the kind of their directive, and whether it is literal.
const KINDS: &str = "CHECK: a => Plain false
CHECK-NEXT: a => Next false
CHECK-SAME: a => Same false
CHECK-EMPTY: => Empty false
CHECK-EMPTY:   => Empty false
CHECK-NOT: a => Not false
CHECK-DAG: {{a => Dag false
CHECK-LABEL: [[X]] => Label false
CHECK-NOT{LITERAL}: a => Not true
CHECK-COUNT-1: a => Count(1) false
CHECK-COUNT-03: a => Count(3) false
CHECK-COUNT-100000: a => Count(100000) false
CHECK{LITERAL}: {{a => Plain true
CHECK-NEXT{ LITERAL }: a => Next true
CHECK-COUNT-2{LITERAL}: [[ => Count(2) true";

/// The kind of the second of two directives, and whether it is literal.
fn second_told(alloc: Global, directives: &[Directive]) -> Result<String, AllocError> {
    match directives {
        [_, Directive { kind, literal, .. }] => format!(in alloc; "{kind:?} {literal}"),
        _ => String::from_str(alloc, "not two directives"),
    }
}

/// The same of a text's.
fn kind_of(alloc: Global, text: &[u8]) -> Result<String, AllocError> {
    let read = read(alloc, text);
    second_told(alloc, directives_of(&read))
}

/// The kind of a line behind a first directive.
fn second_kind(alloc: Global, line: &str) -> Result<String, AllocError> {
    let text = format!(in alloc; "CHECK: first\n{line}")?;
    kind_of(alloc, text.as_bytes())
}

/// The kind of a line.
struct Kinds;

impl Tells for Kinds {
    fn told(&self, alloc: Global, given: &str) -> Result<Bytes, NoMemory> {
        in_bytes(alloc, second_kind(alloc, given))
    }
}

#[test]
fn a_suffix_gives_the_kind(rt: HostRuntime) -> Result<(), NoMemory> {
    each_is_told(&rt, rt.alloc(), KINDS, &Kinds)
}

/// Texts, and where and why they are refused.
const REFUSED: &str = " => 1:1 NoChecks
a~MYCHECK: x => 1:1 NoChecks
CHECK x => 1:1 NoChecks
CHECK-FOO: x~CHECK-NOTE: x => 1:1 NoChecks
CHECK-COUNT: a~CHECK{a => 1:1 NoChecks
RUN: CHECK: x => 1:1 NoChecks
a COM: CHECK: x => 1:1 NoChecks
CHECK-COUNT-0: a => 1:1 BadCount
x CHECK-COUNT-: a => 1:3 BadCount
CHECK-COUNT-100001: a => 1:1 BadCount
CHECK-COUNT-99999999999999999999: a => 1:1 BadCount
CHECK-COUNT-1 : a => 1:1 BadCount
CHECK-NOT-NEXT: a => 1:1 NotCombination
CHECK-DAG-NOT: a => 1:1 NotCombination
CHECK{FOO}: a => 1:1 BadModifier
CHECK{}: a => 1:1 BadModifier
CHECK-NEXT{LITERAL, a}: a => 1:1 BadModifier
CHECK: => 1:7 EmptyPattern
a~ CHECK: ~CHECK-NEXT: b => 2:8 EmptyPattern
CHECK: a~CHECK-EMPTY:  b => 2:15 NonEmptyForEmpty
CHECK-NEXT: a => 1:1 NoEarlierCheck
CHECK-EMPTY: => 1:1 NoEarlierCheck";

/// What is wrong with a file or a line of it.
fn kind_text(alloc: Global, kind: CheckKind) -> Result<String, AllocError> {
    match kind {
        CheckKind::Line(fault) => format!(in alloc; "{fault:?}"),
        CheckKind::NoChecks | CheckKind::UnusedPrefix(_) => format!(in alloc; "{kind:?}"),
    }
}

/// Where and why a text is refused, or that it is read.
fn refusal_of(alloc: Global, text: &[u8]) -> Result<String, AllocError> {
    match read(alloc, text).err() {
        Some(CheckFail::Bad(CheckFault { place, kind, .. })) => {
            let (line, col) = (place.line, place.col);
            let kind = kind_text(alloc, kind)?;
            format!(in alloc; "{line}:{col} {kind}")
        }
        Some(CheckFail::NoMemory) => Err(AllocError),
        None => String::from_str(alloc, "read"),
    }
}

/// Where and why a text is refused.
struct Refusals;

impl Tells for Refusals {
    fn told(&self, alloc: Global, given: &str) -> Result<Bytes, NoMemory> {
        let text = bytes_of(alloc, given)?;
        in_bytes(alloc, refusal_of(alloc, text.as_slice()))
    }
}

#[test]
fn the_first_refused_line_refuses_the_file(rt: HostRuntime) -> Result<(), NoMemory> {
    each_is_told(&rt, rt.alloc(), REFUSED, &Refusals)
}

/// The numbers of the directives' prefixes.
fn prefixes_of(alloc: Global, directives: &[Directive]) -> Result<String, AllocError> {
    let mut all = String::new(alloc);
    for one in directives {
        all.push_str(one.prefix.to_string(alloc)?.as_str())?;
    }
    Ok(all)
}

/// The numbers of the prefixes of a text's directives, or why it is refused.
fn told(alloc: Global, prefixes: &str, unused: bool, text: &[u8]) -> Result<String, AllocError> {
    match read_by(alloc, prefixes, unused, text) {
        Ok(directives) => prefixes_of(alloc, directives.as_slice()),
        Err(CheckFail::Bad(CheckFault { kind, .. })) => kind_text(alloc, kind),
        Err(CheckFail::NoMemory) => Err(AllocError),
    }
}

/// The prefixes of a text's directives, where prefixes may be unused or not.
struct ByPrefixes {
    unused: bool,
}

impl Tells for ByPrefixes {
    fn told(&self, alloc: Global, given: &str) -> Result<Bytes, NoMemory> {
        let Some((prefixes, text)) = given.split_once(" => ") else {
            return no_row(alloc);
        };
        let text = bytes_of(alloc, text)?;
        let told = told(alloc, prefixes, self.unused, text.as_slice());
        in_bytes(alloc, told)
    }
}

const LONGEST: &str = "A,AB,A-B => A: x => 0
A,AB,A-B => AB: x => 1
A,AB,A-B => A-B: x => 2
A,AB,A-B => A-COUNT-2: x => 0
A,AB,A-B => ABC: x => NoChecks
A,AB,A-B => A-BC: x => NoChecks
A,AB,A-B => RUN-X: A: x => 0
A,AB,A-B => COMA: x => NoChecks";

#[test]
fn the_longest_prefix_counts(rt: HostRuntime) -> Result<(), NoMemory> {
    each_is_told(&rt, rt.alloc(), LONGEST, &ByPrefixes { unused: true })
}

const UNUSED: &str = "A,B => B: x => UnusedPrefix(0)
A,B => A: x => UnusedPrefix(1)
A,B => A: x~B: y => 01
A => A: x => 0";

#[test]
fn an_unused_prefix_is_refused(rt: HostRuntime) -> Result<(), NoMemory> {
    each_is_told(&rt, rt.alloc(), UNUSED, &ByPrefixes { unused: false })
}

/// The directives of a short text, where blanks are kept or there may be none.
fn read_so(
    alloc: Global,
    text: &str,
    keep: bool,
    may_lack: bool,
) -> Result<Items<Directive>, CheckFail> {
    if text.len() > 100 {
        return Err(CheckFail::NoMemory);
    }
    let prefixes = list_of(alloc, "CHECK")?;
    let rules = FileRules {
        checks: prefixes.as_slice(),
        comments: &[],
        allow_unused: false,
        keep_blanks: keep,
        may_lack,
    };
    read_checks(alloc, &rules, text.as_bytes())
}

/// Where the body of a text's one directive begins and ends, and its column.
fn body_of(alloc: Global, text: &str) -> Result<Option<(usize, usize, u32)>, CheckFail> {
    let directives = read_so(alloc, text, true, false)?;
    match directives.as_slice() {
        [one] => Ok(Some((one.body.from, one.body.to, one.col))),
        _ => Ok(None),
    }
}

#[test]
fn blanks_are_kept_where_that_is_asked(rt: HostRuntime) -> Result<(), CheckFail> {
    assert!(rt; body_of(rt.alloc(), "CHECK: a ")? == Some((6, 9, 7)));
    assert!(rt; read_so(rt.alloc(), "x", false, true)?.is_empty());
    Ok(())
}

/// How many directives there are, and the lines of the first and the last.
fn lines_of(directives: &Items<Directive>) -> (usize, u32, u32) {
    match directives.as_slice() {
        [first, .., last] => (directives.len(), first.line, last.line),
        [one] => (1, one.line, one.line),
        [] => (0, 0, 0),
    }
}

/// So many copies of a text.
fn repeated(alloc: Global, text: &str, count: usize) -> Result<Bytes, NoMemory> {
    let mut all = Bytes::new(alloc);
    for _ in 0..count {
        all.append(text.as_bytes())?;
    }
    Ok(all)
}

/// The size of a text, how many directives it has, and the lines of the first and the last.
fn measured(alloc: Global, text: &Bytes) -> Result<(usize, (usize, u32, u32)), CheckFail> {
    let directives = read(alloc, text.as_slice())?;
    Ok((text.len(), lines_of(&directives)))
}

/// The same of a text that was made.
fn measured_of(
    alloc: Global,
    made: Result<Bytes, NoMemory>,
) -> Result<(usize, (usize, u32, u32)), CheckFail> {
    let text = made?;
    measured(alloc, &text)
}

#[test]
fn a_hundred_thousand_directives_are_read(rt: HostRuntime) -> Result<(), CheckFail> {
    let text = repeated(rt.alloc(), "CHECK: a\n", 100_000);
    assert!(rt; measured_of(rt.alloc(), text)? == (900_000, (100_000, 1, 100_000)));
    Ok(())
}

/// So many letters.
fn letters(alloc: Global, length: usize) -> Result<Bytes, NoMemory> {
    let large = vec![in alloc; b'a'; length].or(Err(NoMemory))?;
    Bytes::from_slice(alloc, large.as_slice())
}

/// A line of so many letters and a directive, in canonical form.
fn long_line(alloc: Global, length: usize) -> Result<Bytes, NoMemory> {
    let mut text = letters(alloc, length)?;
    text.append(b" CHECK: b")?;
    canon(alloc, text.as_slice(), false)
}

#[test]
fn a_line_of_a_mebibyte_is_read(rt: HostRuntime) -> Result<(), CheckFail> {
    let text = long_line(rt.alloc(), 1 << 20);
    assert!(rt; measured_of(rt.alloc(), text)? == ((1 << 20) + 9, (1, 1, 1)));
    Ok(())
}
