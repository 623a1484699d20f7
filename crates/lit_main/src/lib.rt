//! What the programs `lit` and `lit_in` have before and beside their top call: words, the path that these are joined to, and a line of
//! progress.
#![tactic(auto)]

mod lines;

ghost use Rattle.std.specs.Prelude.{◌≡◌, IfErr, OnOk};
ghost use Rattle.lit_main.specs.Before.{NoBase};
ghost use Rattle.tt_run.specs.Run.{stream_of};

pub use lines::{Lines, is_quiet};
use std::env::{self, Env};
use std::io::{self, ErrorKind};
use tt_base::Bytes;
use tt_main::{Pages, no_words, with_variable, words_or_page};
use tt_outside::Sink;
use tt_run::{ToolFrame, answer_parts};

/// The variable of the environment whose words stand before those of the command line.
const VARIABLE: &str = "LIT_OPTS";

/// The path of the current directory.
fn current_dir<R: Env + AllocGlobal>(rt: &R) -> io::Result<Bytes> {
    let dir = env::current_dir(rt)?;
    match Bytes::from_slice(rt.alloc(), dir.as_str().as_bytes()) {
        Ok(path) => Ok(path),
        Err(_) => Err(io::Error::from(ErrorKind::OutOfMemory)),
    }
}

/// The path that words are joined to: that of the current directory. Where there is none, that is told, with a status.
pub fn base<R: Env + AllocGlobal, E: Sink>(
    rt: &R,
    frame: ToolFrame,
    err: &mut E,
) -> Result<Bytes, u8>
    ensures told { IfErr result (λ status. NoBase frame.name.now status (stream_of E.Sink err.old err.new)) }
    ensures silent { OnOk result (err.new ≡ err.old) }
{
    match current_dir(rt) {
        Ok(path) => Ok(path),
        Err(error) => match error.kind() {
            ErrorKind::OutOfMemory => Err(frame.out_of_memory(err)),
            _ => Err(cannot_read_tree(frame, err)),
        },
    }
}

/// Tells that the tree cannot be read.
fn cannot_read_tree<E: Sink>(frame: ToolFrame, err: &mut E) -> u8
    ensures { NoBase frame.name.now result (stream_of E.Sink err.old err.new) }
{
    answer_parts(&[frame.name, b": error: cannot read the tree\n"], 3, err)
}

/// The words of the command line behind those of the variable. The program may end before its top call, with a status: where there are
/// no words, or where they ask for one of its pages, which is shown.
pub fn all_words<R: Env + AllocGlobal, O: Sink, E: Sink>(
    rt: &R,
    frame: ToolFrame,
    pages: Pages,
    out: &mut O,
    err: &mut E,
) -> Result<Vec<String>, u8> {
    let words = words_or_page(rt, frame, pages, out, err)?;
    match with_variable(rt, VARIABLE, words) {
        Ok(words) => Ok(words),
        Err(error) => Err(no_words(&error, frame, err)),
    }
}
