//! What decides a line.
ghost use Rattle.std.specs.Prelude.{◌≡◌, ◌<◌, ◌≤◌, ◌^◌, IfSome, length};
ghost use Rattle.check_lines.specs.Decision.{DecisionLies, DecisionLiesIn, IsDecisionBy, MarkLies, check_count, check_mark, comment_mark, decide_by, decided_by, is_word, mark_by};

use crate::suffix::{Spelling, suffix};
use prefix_tree::{PrefixTree, Standing};

/// The prefixes of both kinds.
#[derive(Drop)]
pub struct Prefixes<'a> {
    /// Those of directives.
    pub checks: PrefixTree<'a>,
    /// Those that hide the rest of their lines.
    pub comments: PrefixTree<'a>,
}

/// What stands at an offset and decides its line.
#[derive(Clone, Copy, Debug, PartialEq, Eq)]
pub enum LineMark {
    /// `COM:` or `RUN:`: the rest of the line is hidden.
    Comment,
    /// `CHECK-NEXT:`: a check prefix, and what is spelled behind it.
    Check(Standing, Spelling),
}

/// A mark and its offset in the line.
#[derive(Clone, Copy, Debug, PartialEq, Eq)]
pub struct Decision {
    pub at: usize,
    pub mark: LineMark,
}

/// What decides a line, if anything does.
pub fn decide(prefixes: &Prefixes<'_>, line: &[u8]) -> Option<Decision>
    requires { length line.now ≤ 2 ^ 30 }
    ensures least { IsDecisionBy prefixes.now line.now result }
    ensures value { result ≡ decide_by prefixes.now line.now }
    ensures lies { IfSome result (DecisionLiesIn (check_count prefixes.now) line.now) }
{
    let mut behind_word = false;
    for at in 0..line.len() {
        match decided_at(prefixes, behind_word, at, &line[at..]) {
            Some(decision) => return Some(decision),
            None => behind_word = is_word(line[at]),
        }
    }
    None
}

fn decided_at(
    prefixes: &Prefixes<'_>,
    behind_word: bool,
    at: usize,
    text: &[u8],
) -> Option<Decision>
    requires { length text.now ≤ 2 ^ 30 }
    ensures value { result ≡ decided_by prefixes.now behind_word at text.now }
    ensures lies { IfSome result (DecisionLies (check_count prefixes.now) text.now at) }
{
    if behind_word {
        return None;
    }
    match mark_at(prefixes, text) {
        Some(mark) => Some(Decision { at, mark }),
        None => None,
    }
}

/// The mark at the front of a text.
fn mark_at(prefixes: &Prefixes<'_>, text: &[u8]) -> Option<LineMark>
    requires { length text.now ≤ 2 ^ 30 }
    ensures value { result ≡ mark_by prefixes.now text.now }
    ensures lies { IfSome result (MarkLies (check_count prefixes.now) text.now 0) }
{
    match prefixes.checks.longest(text) {
        None => match prefixes.comments.longest(text) {
            None => None,
            Some(comment) => comment_mark(&text[comment.length..]),
        },
        Some(check) => match prefixes.comments.longest(text) {
            None => check_mark(check, suffix(&text[check.length..])),
            Some(comment) => {
                if check.length < comment.length {
                    comment_mark(&text[comment.length..])
                } else {
                    check_mark(check, suffix(&text[check.length..]))
                }
            }
        },
    }
}

fn comment_mark(rest: &[u8]) -> Option<LineMark>
    ensures value { result ≡ comment_mark rest.now }
    ensures lies { IfSome result (λ mark. 0 < length rest.now) }
{
    if rest.starts_with(b":") {
        Some(LineMark::Comment)
    } else {
        None
    }
}

fn check_mark(prefix: Standing, spelling: Option<Spelling>) -> Option<LineMark>
    ensures { result ≡ check_mark prefix spelling }
{
    match spelling {
        Some(spelling) => Some(LineMark::Check(prefix, spelling)),
        None => None,
    }
}

/// Whether a byte is a letter, a digit, `-` or `_`: no prefix stands behind one.
fn is_word(byte: u8) -> bool
    ensures { result ≡ is_word byte }
{
    matches!(byte, b'a'..=b'z' | b'A'..=b'Z' | b'0'..=b'9' | b'-' | b'_')
}
