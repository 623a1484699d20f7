//! The reading of a line.
ghost use Rattle.std.specs.Prelude.{◌≡◌};
ghost use Rattle.mini_shell.specs.Grammar.{Parses};
ghost use Rattle.mini_shell.specs.Reading.{Reads};
ghost use Rattle.mini_shell.specs.Value.{IsLineIn, line_in};

use crate::fault::ShellFail;
use crate::line::Line;
use crate::reader::Reader;
use crate::token::{Next, next_token};
use std::alloc::Global;

/// The line that a text is, or its first refusal from the left. Of a refused line nothing is kept.
#[tactic(auto, using(crate::proofs::SentenceLemmas::read_parses, crate::proofs::ValueLemmas::reads_in))]
pub fn parse_line(alloc: Global, text: &[u8]) -> Result<Line, ShellFail>
    ensures line { Parses text.now result }
    ensures first { Reads text.now result }
    ensures value { IsLineIn result (line_in text.now) }
{
    read_line(alloc, text)
}

/// Takes words and operators as long as they go together.
fn read_line(alloc: Global, text: &[u8]) -> Result<Line, ShellFail>
    ensures reading { Reads text.now result }
{
    let mut reader = Reader::new(alloc);
    let mut at: usize = 0;
    loop {
        match next_token(alloc, text, at) {
            Ok(Next::Found(token, end)) => {
                match reader.step(alloc, token) {
                    Ok(next) => reader = next,
                    Err(fail) => return Err(fail),
                }
                at = end;
            }
            Ok(Next::Over(end)) => return reader.ended(end),
            Err(fail) => return Err(fail),
        }
    }
}
