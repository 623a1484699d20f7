//! Newlines, and the lines between them.
ghost use Rattle.std.specs.Prelude.{◌≡◌, ◌≤◌, ◌^◌, length};
ghost use Rattle.input_dump.specs.Dump.{line_at};
ghost use Rattle.input_dump.specs.Follow.{BeginsLine};
ghost use Rattle.tt_base.specs.Place.{line_end};

use byte_counts::count_of;
use memchr::{memchr, memrchr};

/// Where the line ends that an offset lies in, before its newline.
pub(crate) fn line_end(text: &[u8], at: usize) -> usize
    requires { at ≤ length text.now }
    ensures { result ≡ line_end text.now at }
{
    match memchr(b'\n', &text[at..]) {
        Some(newline) => at + newline,
        None => text.len(),
    }
}

/// The line of an offset behind another one, whose line is known.
#[tactic(auto, using(crate::proofs::NewlineLemmas::line_small))]
pub(crate) fn line_behind(text: &[u8], line: u64, from: usize, at: usize) -> u64
    requires short { length text.now ≤ 2 ^ 30 }
    requires within { at ≤ length text.now }
    requires ordered { from ≤ at }
    requires known { line ≡ line_at text.now from }
    ensures { result ≡ line_at text.now at }
{
    line + count_of(b'\n', &text[from..at]) as u64
}

/// Where the line begins that an offset lies in.
fn line_begin(text: &[u8], at: usize) -> usize
    requires { at ≤ length text.now }
    ensures begins { BeginsLine text.now result }
    ensures same { line_at text.now result ≡ line_at text.now at }
    ensures within { result ≤ at }
{
    match memrchr(b'\n', &text[..at]) {
        Some(newline) => newline + 1,
        None => 0,
    }
}

/// Where a line begins by its number, going back from an offset whose line is known.
#[tactic(auto, using(crate::proofs::NewlineLemmas::first_begins, crate::proofs::NewlineLemmas::line_before))]
pub(crate) fn begin_before(text: &[u8], wanted: u64, line: u64, at: usize) -> usize
    requires within { at ≤ length text.now }
    requires known { line ≡ line_at text.now at }
    requires some { 1 ≤ wanted }
    requires before { wanted ≤ line }
    ensures begins { BeginsLine text.now result }
    ensures number { line_at text.now result ≡ wanted }
    ensures within { result ≤ at }
{
    let mut from = line_begin(text, at);
    let mut number = line;
    while number > wanted {
        from = line_begin(text, from - 1);
        number -= 1;
    }
    from
}
