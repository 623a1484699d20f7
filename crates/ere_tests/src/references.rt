//! Expressions with references: the span of each part tells what later parts refer to, or all ways are listed.
use crate::finding::{told, told_behind};
use crate::rows::{Tells, each_is_told, four, no_row};
use std::alloc::{AllocError, Global};

/// The hit of an expression in a front, so many `a`, and an end.
struct Behind;

impl Tells for Behind {
    fn told(&self, alloc: Global, given: &str) -> Result<String, AllocError> {
        match four(given) {
            Some((pattern, front, count, end)) => told_behind(alloc, pattern, front, count, end),
            None => no_row(alloc),
        }
    }
}

/// An expression, a front, how many `a` stand behind it, an end, and the hit with its groups.
const MATCHED: &str = r"(x)(aa?)+\1b => x => 42 => xb => 0-45 0-1 41-43
(a+)\1b =>  => 2000 => b => 0-2001 0-1000
(a+)\1b =>  => 2001 => b => 1-2002 1-1001
(a*)\1b =>  => 6324 => b => 0-6325 0-3162
(a*)(a*)\1\2b =>  => 200 => b => 0-201 0-100 100-100
x(a*)(b|ba)(a*)\1$ => x => 3 => baaa => 0-8 1-4 4-5 5-5
(x+)(a+)\2\1z => xxx => 8 => xxz => 1-14 1-3 3-7
(a|aa)(\1|b)\2c =>  => 3 => c => 0-4 0-1 1-2
((a)x|(a+)y)\1 =>  => 1 => xax => 0-4 0-2 0-1 none
(a)(b)?\2 =>  => 1 => c => none
(b)?\1a =>  => 1 =>  => none";

#[test]
fn a_span_tells_what_is_referred_to(rt: HostRuntime) -> Result<(), AllocError> {
    each_is_told(&rt, rt.alloc(), MATCHED, &Behind)
}

/// An expression, how many `a` stand before a `b`, and the hit.
const AMONG: &str = r"((a*))\2b => 3162 => 0-3163 0-1581 0-1581
(a*)(\1)b => 200 => 0-201 0-100 100-200
(a*)*\1b => 16 => 0-17 14-15
(a*)*\1b => 200 => 0-201 198-199
((a*))*\2b => 100 => 0-101 98-99 98-99";

/// The hit of an expression in so many `a` and a `b`.
struct Among;

impl Tells for Among {
    fn told(&self, alloc: Global, given: &str) -> Result<String, AllocError> {
        let Some((pattern, count)) = given.split_once(" => ") else {
            return no_row(alloc);
        };
        match count.parse::<usize>() {
            Ok(count) => told_among(alloc, pattern, count),
            Err(_) => no_row(alloc),
        }
    }
}

/// What is found of an expression in so many `a` and a `b`, in words. Want of memory is told as such.
fn told_among(alloc: Global, pattern: &str, count: usize) -> Result<String, AllocError> {
    let mut text = vec![in alloc; b'a'; count]?;
    text.push(b'b')?;
    match told(alloc, pattern, text.as_slice(), 0) {
        Ok(words) => Ok(words),
        Err(_) => String::from_str(alloc, "no memory"),
    }
}

#[test]
fn ways_that_agree_are_one(rt: HostRuntime) -> Result<(), AllocError> {
    each_is_told(&rt, rt.alloc(), AMONG, &Among)
}

/// The same below the limit of tries, and above it.
const LIMITS: &str = r"(a*)*\1b => 2000 => 0-2001 1998-1999
(a*)*\1b => 3200 => no memory";

#[test]
fn tries_end_at_their_limit(rt: HostRuntime) -> Result<(), AllocError> {
    each_is_told(&rt, rt.alloc(), LIMITS, &Among)
}
