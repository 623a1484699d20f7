//! Cases of the public calls with ample memory.
use crate::rows::{Tells, each_is_told, no_row};
use bool_exprs::{BoolExpr, has_refs, holds, read_list};
use std::alloc::Global;
use tt_base::{Bytes, Items, NoMemory};

/// `1` where an expression holds, else `0`; `r` where it has references.
pub(crate) fn held(expr: &BoolExpr, features: &[Bytes]) -> u8 {
    if has_refs(expr) {
        return b'r';
    }
    if holds(expr, features) { b'1' } else { b'0' }
}

/// The features of a line, each but the first behind a blank.
pub(crate) fn features_of(alloc: Global, line: &str) -> Result<Items<Bytes>, NoMemory> {
    let mut features = Items::new(alloc);
    for feature in line.split(' ') {
        features.push(Bytes::from_slice(alloc, feature.as_bytes())?)?;
    }
    Ok(features)
}

/// Which expressions of a list hold, as a text of `1` and `0`; `no list` where it is none.
fn shown(alloc: Global, xfail: bool, text: &[u8], features: &[Bytes]) -> Result<Bytes, NoMemory> {
    let Some(list) = read_list(alloc, xfail, text)? else {
        return Bytes::from_slice(alloc, b"no list");
    };
    let mut shown = Bytes::new(alloc);
    for expr in list.as_slice() {
        shown.append(&[held(expr, features)])?;
    }
    Ok(shown)
}

/// Which expressions of a list hold over features.
struct Lists {
    xfail: bool,
}

impl Tells for Lists {
    fn told(&self, alloc: Global, given: &str) -> Result<Bytes, NoMemory> {
        let Some((text, features)) = given.split_once(" => ") else {
            return no_row(alloc);
        };
        let features = features_of(alloc, features)?;
        shown(alloc, self.xfail, text.as_bytes(), features.as_slice())
    }
}

/// A list, the features that are there, and which expressions hold.
const LISTS: &str = r"linux && !{{arm.*}} => linux => 1
linux && !{{arm.*}} => linux armv7 => 0
true, false,, linux => linux => 101
!!linux, !linux => linux => 10
a && b || linux => linux => 1
linux || a && b => linux => 1
(linux || a) && b => linux => 0
!a && !b || c => linux => 1
!(a || linux) => linux => 0
li{{[a-z]+}}x => linux => 1
{{inu}}, {{linu}}, {{|linux}} => linux => no list
{{inu}}, {{linu}} => linux => 00
{{a{1,2}rm}}v7, {{[,]*}}linux => linux armv7 => 11
{{}}linux{{}}, {{}} => linux => 10
* => linux => no list
linux armv7 => linux armv7 => no list
linux && => linux => no list
(linux => linux => no list
linux) => linux => no list
{{linux => linux => no list
{{(a)\1}} => linux => no list
linux & armv7 => linux armv7 => no list";

/// The same of lists of XFAIL.
const XFAILS: &str = "*, linux => linux => 11
* && linux => linux => no list";

#[test]
fn expressions_hold_over_features(rt: HostRuntime) -> Result<(), NoMemory> {
    each_is_told(&rt, rt.alloc(), LISTS, &Lists { xfail: false })?;
    each_is_told(&rt, rt.alloc(), XFAILS, &Lists { xfail: true })
}

/// How many texts of one byte and of two are lists.
fn counted(alloc: Global, xfail: bool) -> Result<(u32, u32), NoMemory> {
    let (mut single, mut double) = (0u32, 0u32);
    for first in 0..=255u8 {
        if read_list(alloc, xfail, &[first])?.is_some() {
            single = single.wrapping_add(1);
        }
        for second in 0..=255u8 {
            if read_list(alloc, xfail, &[first, second])?.is_some() {
                double = double.wrapping_add(1);
            }
        }
    }
    Ok((single, double))
}

// 67 bytes of names, two blanks and the comma stand alone and with each other, a `!` before a byte of a name, and the
// `*` of XFAIL beside a blank or a comma.
#[test]
fn short_texts_are_lists_or_not(rt: HostRuntime) -> Result<(), NoMemory> {
    assert!(rt; counted(rt.alloc(), false)? == (70, 70 * 70 + 67));
    assert!(rt; counted(rt.alloc(), true)? == (71, 70 * 70 + 67 + 6));
    Ok(())
}

/// Whether so many times a part, and an `a`, are a list.
fn is_list(alloc: Global, part: &str, times: usize) -> Result<bool, NoMemory> {
    let mut text = Bytes::new(alloc);
    for _ in 0..times {
        text.append(part.as_bytes())?;
    }
    text.append(b"a")?;
    Ok(read_list(alloc, false, text.as_slice())?.is_some())
}

/// Whether so many times a part, and an `a`, are a list, in words.
fn list_told(alloc: Global, part: &str, times: usize) -> Result<Bytes, NoMemory> {
    let told = if is_list(alloc, part, times)? {
        "a list"
    } else {
        "none"
    };
    Bytes::from_slice(alloc, told.as_bytes())
}

/// Whether a part that stands so often before an `a` is a list.
struct Repeated;

impl Tells for Repeated {
    fn told(&self, alloc: Global, given: &str) -> Result<Bytes, NoMemory> {
        let Some((part, times)) = given.split_once(" => ") else {
            return no_row(alloc);
        };
        match times.parse::<usize>() {
            Ok(times) => list_told(alloc, part, times),
            Err(_) => no_row(alloc),
        }
    }
}

/// A part, how often it stands before an `a`, and whether that is a list.
const REPEATED: &str = "! => 250 => a list
! => 251 => none
a&& => 250 => a list
a|| => 251 => none
( => 1048576 => none
{{ => 524288 => none";

#[test]
fn the_251st_operator_is_refused_and_hostile_texts_are_read(
    rt: HostRuntime,
) -> Result<(), NoMemory> {
    each_is_told(&rt, rt.alloc(), REPEATED, &Repeated)
}
