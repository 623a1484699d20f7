//! Seeking a pattern.
ghost use Rattle.std.specs.Prelude.{◌≡◌, ◌≤◌, ◌+◌, ◌-◌, [], ℕ, false, IfOk, IfSome, List, OnOk, length};
ghost use Rattle.ere_tree.specs.Hit.{FindsHit};
ghost use Rattle.pattern_parse.specs.PieceView.{items_view};
ghost use Rattle.pattern_parse.specs.Search.{IsSearchable};
ghost use Rattle.pattern_scan.specs.Seek.{IsPlain, IsShownIn, IsWithin, KeepsPlaces, answer_of, sought_in};

use crate::ready::{found_part, prepare};
use crate::sought::Sought;
use crate::stored::stored_text;
use ere_auto::Steps;
use ere_tree::Hit;
use pattern_hits::find_text;
use pattern_parse::{Frame, Pattern, Piece};
use pattern_vars::Vars;
use std::alloc::Global;
use std::sync::ledger::Ledger;
use tt_base::NoMemory;

/// What a search sees: a text, and the variables that patterns use.
#[derive(Drop)]
pub struct Context<'a> {
    pub alloc: Global,
    pub text: &'a [u8],
    pub vars: &'a Vars,
}

/// The bytes that a pattern stands for where it is one piece of plain text.
pub fn plain_text(pattern: &Pattern) -> Option<&[u8]>
    ensures { IfSome result (λ text. IsPlain pattern.now text.now) }
{
    if pattern.fold {
        return None;
    }
    match (pattern.frame, pattern.pieces.as_slice()) {
        (Frame::Open, [Piece::Plain(text)]) => Some(text.as_slice()),
        _ => None,
    }
}

/// The answer of a hit that binds nothing, or of none.
fn plain_answer(alloc: Global, hit: Option<Hit>) -> Sought
    ensures { (text : List ℕ) → result ≡ answer_of false text [] hit }
{
    match hit {
        Some(hit) => found_part(alloc, hit.from, hit.to),
        None => Sought::Absent,
    }
}

/// Seeks a pattern that is made ready for this slice alone. It stands apart, since what is ready is large, and plain text
/// shouldn't pay for it.
#[inline(never)]
fn seek_once<L: Ledger>(
    context: &Context<'_>,
    pattern: &Pattern,
    line: u32,
    from: usize,
    steps: &mut Steps<L>,
) -> Result<Sought, NoMemory>
    requires inside { from ≤ length context.now.text.now }
    requires searchable { IsSearchable (items_view pattern.now.pieces) }
    ensures value { IfOk result (λ answer. answer ≡ sought_in context.now pattern.now from line) }
    ensures least { OnOk result (IsShownIn context.now pattern.now line from (steps.new - steps.old)) }
    ensures most { steps.new ≤ steps.old + (length context.now.text.now - from) + 1 }
    ensures counted { steps.old ≤ steps.new }
{
    let mut ready = prepare(context.alloc, pattern, context.vars, line)?;
    ready.seek(context.alloc, context.text, from, steps)
}

/// Seeks a pattern of a directive of this line, in the slice from `from` to the text's end. No variable changes. Whoever
/// seeks one pattern in many slices with the same variables keeps a `Ready`.
pub fn seek<L: Ledger>(
    context: &Context<'_>,
    pattern: &Pattern,
    line: u32,
    from: usize,
    steps: &mut Steps<L>,
) -> Result<Sought, NoMemory>
    requires inside { from ≤ length context.now.text.now }
    requires searchable { IsSearchable (items_view pattern.now.pieces) }
    ensures value { IfOk result (λ answer. answer ≡ sought_in context.now pattern.now from line) }
    ensures within { IfOk result (IsWithin from (length context.now.text.now)) }
    ensures named { KeepsPlaces context.now pattern.now result }
    ensures least { OnOk result (IsShownIn context.now pattern.now line from (steps.new - steps.old)) }
    ensures most { steps.new ≤ steps.old + (length context.now.text.now - from) + 1 }
    ensures counted { steps.old ≤ steps.new }
{
    let alloc = context.alloc;
    let text = context.text;
    if let Some(needle) = plain_text(pattern) {
        return Ok(plain_answer(alloc, find_text(alloc, needle, text, from)));
    }
    if let Some(needle) = stored_text(alloc, pattern, context.vars, line)? {
        return Ok(plain_answer(alloc, find_text(alloc, needle.as_slice(), text, from)));
    }
    seek_once(context, pattern, line, from, steps)
}
