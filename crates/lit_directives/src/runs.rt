//! RUN lines, part by part.
ghost use Rattle.std.specs.Prelude.{◌≡◌, ◌++◌, ◌∷◌, [], IfOk};
ghost use Rattle.lit_directives.specs.Script.{AddsPart, begun, goes_on, pending_view, part_text, with_text};

use crate::front::{front_kept, trimmed};
use crate::script::RunLine;
use std::alloc::Global;
use tt_base::{Bytes, Items, NoMemory};

/// A RUN line that goes on, and the line of its last part.
#[derive(Drop, Debug)]
pub(crate) struct Pending {
    pub(crate) run: RunLine,
    pub(crate) last: u32,
}

/// The text of a part: a first one without blanks at its ends, a later one with those at its front.
fn part_text<'a>(pending: &Option<Pending>, rest: &'a [u8]) -> &'a [u8]
    ensures { result.now ≡ part_text (pending_view pending.now) rest.now }
{
    match pending {
        None => trimmed(rest),
        Some(_) => front_kept(rest),
    }
}

/// A RUN line of which nothing was read, or the one that goes on.
fn begun(alloc: Global, line: u32, pending: Option<Pending>) -> RunLine
    ensures { result ≡ begun line (pending_view pending) }
{
    match pending {
        None => RunLine {
            line,
            text: Bytes::new(alloc),
        },
        Some(pending) => pending.run,
    }
}

/// A RUN line and a part of it more.
fn with_text(mut run: RunLine, text: &[u8]) -> Result<RunLine, NoMemory>
    ensures { IfOk result (λ longer. longer ≡ with_text run text.now) }
{
    run.text.append(text)?;
    Ok(run)
}

fn goes_on(text: &[u8]) -> bool
    ensures { result ≡ goes_on text.now }
{
    !text.is_empty() && text[text.len() - 1] == b'\\'
}

/// Adds a part of a RUN line that stands on a line, and answers the RUN line that goes on.
pub(crate) fn add_part(
    alloc: Global,
    runs: &mut Items<RunLine>,
    line: u32,
    pending: Option<Pending>,
    rest: &[u8],
) -> Result<Option<Pending>, NoMemory>
    ensures { IfOk result (λ next. AddsPart runs.old line (pending_view pending) rest.now runs.new (pending_view next)) }
{
    let text = part_text(&pending, rest);
    let run = begun(alloc, line, pending);
    if goes_on(text) {
        let run = with_text(run, text.split_at(text.len() - 1).0)?;
        Ok(Some(Pending { run, last: line }))
    } else {
        let run = with_text(run, text)?;
        runs.push(run)?;
        Ok(None)
    }
}
