//! Cutting a body into plain text, regular expressions and blocks.
ghost use Rattle.std.specs.Prelude.{◌≡◌, ◌≤◌, ◌<◌, ◌+◌, ◌^◌, [], ◌∷◌, IfOk, IfSome, IsTrue, false, drop, length};
ghost use Rattle.pattern_parse.specs.Cut.{IsCut, front_at, over, starts_twice, text};
ghost use Rattle.pattern_parse.specs.Ends.{behind_byte, end_of, is_text, run_of, up_to_end};
ghost use Rattle.pattern_parse.specs.RawView.{IsCutAs, Steps};

use num_spell::behind;
use std::alloc::Global;
use tt_base::NoMemory;

/// What begins at the front of a body.
#[derive(Clone, Copy, Debug, PartialEq, Eq)]
pub(crate) enum Front {
    End,
    Regex,
    Block,
    Text,
}

/// Plain text, a regular expression or a block: the bytes of the body from `from` to before `to`, without those that
/// enclose them.
#[derive(Clone, Copy, Debug, PartialEq, Eq)]
pub(crate) struct Raw {
    pub(crate) kind: RawKind,
    pub(crate) from: usize,
    pub(crate) to: usize,
}

#[derive(Clone, Copy, Debug, PartialEq, Eq)]
pub(crate) enum RawKind {
    Text,
    Regex,
    Block,
}

/// How a body ends.
#[derive(Clone, Copy, Debug, PartialEq, Eq)]
pub(crate) enum Ending {
    Over,
    NoRegexEnd,
    NoBlockEnd,
}

/// The pieces of a body, and how it ends.
#[derive(Drop, Debug)]
pub(crate) struct Cut {
    pub(crate) raws: Vec<Raw>,
    pub(crate) ending: Ending,
}

/// Whether two of a byte stand at the front.
fn starts_twice(text: &[u8], byte: u8) -> bool
    ensures exact { result ≡ starts_twice byte text.now }
    ensures some { IsTrue result → 2 ≤ length text.now }
{
    text.len() > 1 && text[0] == byte && text[1] == byte
}

/// What begins at the front of a body.
fn front_at(text: &[u8]) -> Front
    ensures exact { result ≡ front_at text.now }
    ensures end { result ≡ Front.End → length text.now ≡ 0 }
    ensures regex { result ≡ Front.Regex → 2 ≤ length text.now }
    ensures block { result ≡ Front.Block → 2 ≤ length text.now }
{
    if text.is_empty() {
        return Front::End;
    }
    if starts_twice(text, b'{') {
        Front::Regex
    } else if starts_twice(text, b'[') && !starts_twice(behind(text, 1), b'[') {
        Front::Block
    } else {
        Front::Text
    }
}

/// Whether plain text begins at the front of a body.
fn begins_text(text: &[u8]) -> bool
    ensures { result ≡ is_text (front_at text.now) }
{
    match front_at(text) {
        Front::Text => true,
        Front::End => false,
        Front::Regex => false,
        Front::Block => false,
    }
}

/// How many bytes of plain text there are.
#[tactic(auto, using(crate::proofs::EndLemmas::run_more, crate::proofs::EndLemmas::run_past, crate::proofs::EndLemmas::run_stops))]
fn run_length(text: &[u8]) -> usize
    ensures exact { result ≡ run_of text.now }
    ensures within { result ≤ length text.now }
{
    let mut count: usize = 0;
    while count < text.len() {
        if matches!(text[count], b'{' | b'[') && !begins_text(behind(text, count)) {
            return count;
        }
        count += 1;
    }
    count
}

/// Whether a body is plain text alone, as most are.
#[tactic(auto, using(crate::proofs::CutLemmas::text_alone))]
pub(crate) fn is_text_alone(body: &[u8]) -> bool
    ensures { IsTrue result → IsCut body.now (text body.now ∷ []) over }
{
    !body.is_empty() && run_length(body) == body.len()
}

/// How many bytes there are before the first `}}`.
#[tactic(auto, using(crate::proofs::EndLemmas::regex_more, crate::proofs::EndLemmas::regex_here, crate::proofs::EndLemmas::none_left))]
fn regex_end(text: &[u8]) -> Option<usize>
    ensures exact { result ≡ up_to_end text.now }
    ensures within { IfSome result (λ count. count + 2 ≤ length text.now) }
{
    let mut count: usize = 0;
    while count < text.len() {
        if starts_twice(behind(text, count), b'}') {
            return Some(count);
        }
        count += 1;
    }
    None
}

/// How many brackets are open behind a byte, and whether the next byte is hidden; nothing at a `]` that closes none.
fn behind_byte(depth: usize, hidden: bool, byte: u8) -> Option<(usize, bool)>
    requires { depth < 2 ^ 63 }
    ensures exact { result ≡ behind_byte depth hidden byte }
    ensures small { IfSome result (λ next. next.0 ≤ depth + 1) }
{
    if hidden {
        Some((depth, false))
    } else if byte == b'\\' {
        Some((depth, true))
    } else if byte == b'[' {
        Some((depth + 1, false))
    } else if byte != b']' {
        Some((depth, false))
    } else if depth == 0 {
        None
    } else {
        Some((depth - 1, false))
    }
}

/// How many bytes there are before the `]]` of a block.
#[tactic(auto, using(crate::proofs::EndLemmas::block_more, crate::proofs::EndLemmas::block_here, crate::proofs::EndLemmas::block_none))]
fn block_end(text: &[u8]) -> Option<usize>
    ensures exact { result ≡ end_of 0 false text.now }
    ensures within { IfSome result (λ count. count + 2 ≤ length text.now) }
{
    let mut depth: usize = 0;
    let mut hidden = false;
    let mut count: usize = 0;
    while count < text.len() {
        let Some((open, slash)) = behind_byte(depth, hidden, text[count]) else {
            return if starts_twice(behind(text, count), b']') {
                Some(count)
            } else {
                None
            };
        };
        depth = open;
        hidden = slash;
        count += 1;
    }
    None
}

/// What comes next in a body: a piece, and where it ends, or the body's end.
#[derive(Clone, Copy, Debug, PartialEq, Eq)]
pub(crate) enum Step {
    Piece { raw: Raw, next: usize },
    Ends(Ending),
}

fn text_step(body: &[u8], at: usize) -> Step
    requires within { at ≤ length body.now }
    requires front { front_at (drop at body.now) ≡ Front.Text }
    ensures { Steps body.now at result }
{
    let next = at + run_length(behind(body, at));
    let raw = Raw {
        kind: RawKind::Text,
        from: at,
        to: next,
    };
    Step::Piece { raw, next }
}

fn regex_step(body: &[u8], at: usize) -> Step
    requires within { at + 2 ≤ length body.now }
    requires front { front_at (drop at body.now) ≡ Front.Regex }
    ensures { Steps body.now at result }
{
    let from = at + 2;
    match regex_end(behind(body, from)) {
        Some(count) => {
            let raw = Raw {
                kind: RawKind::Regex,
                from,
                to: from + count,
            };
            Step::Piece {
                raw,
                next: from + count + 2,
            }
        }
        None => Step::Ends(Ending::NoRegexEnd),
    }
}

fn block_step(body: &[u8], at: usize) -> Step
    requires within { at + 2 ≤ length body.now }
    requires front { front_at (drop at body.now) ≡ Front.Block }
    ensures { Steps body.now at result }
{
    let from = at + 2;
    match block_end(behind(body, from)) {
        Some(count) => {
            let raw = Raw {
                kind: RawKind::Block,
                from,
                to: from + count,
            };
            Step::Piece {
                raw,
                next: from + count + 2,
            }
        }
        None => Step::Ends(Ending::NoBlockEnd),
    }
}

/// What comes next in a body from an offset on.
fn next_step(body: &[u8], at: usize) -> Step
    requires { at ≤ length body.now }
    ensures { Steps body.now at result }
{
    match front_at(behind(body, at)) {
        Front::End => Step::Ends(Ending::Over),
        Front::Text => text_step(body, at),
        Front::Regex => regex_step(body, at),
        Front::Block => block_step(body, at),
    }
}

/// Cuts a body.
pub(crate) fn cut_body(alloc: Global, body: &[u8]) -> Result<Cut, NoMemory>
    ensures { IfOk result (IsCutAs body.now) }
{
    let mut raws = Vec::new(alloc);
    let mut at: usize = 0;
    loop {
        match next_step(body, at) {
            Step::Piece { raw, next } => {
                if let Err(_) = raws.push(raw) {
                    return Err(NoMemory);
                }
                at = next;
            }
            Step::Ends(ending) => return Ok(Cut { raws, ending }),
        }
    }
}
