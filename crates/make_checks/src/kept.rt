//! What a refreshed check file keeps of the old one.
ghost use Rattle.std.specs.Prelude.{◌≡◌, ◌≤◌, ◌^◌, ◌++◌, IfOk, length};
ghost use Rattle.lead_laws.specs.Canon.{form_of, unreturned};
ghost use Rattle.lead_laws.specs.Marks.{checks, comments};
ghost use Rattle.make_checks.specs.Adding.{Becomes, Makes};
ghost use Rattle.make_checks.specs.Keeping.{free_by, line_by, text_by};
ghost use Rattle.file_laws.specs.Kept.{kept};

use crate::fault::{MAX_FILE, MakeFail, MakeFault};
use crate::lines::first_line;
use check_lines::{LineMark, Prefixes, canon_owned, decide};
use prefix_tree::PrefixTree;
use std::alloc::Global;
use tt_base::{Bytes, Items, NoMemory};

/// The prefixes of directives, where none are given.
fn check_names(alloc: Global) -> Result<Items<Bytes>, NoMemory>
    ensures { IfOk result (λ names. names ≡ checks) }
{
    let mut names = Items::new(alloc);
    names.push(Bytes::from_slice(alloc, b"CHECK")?)?;
    Ok(names)
}

/// Those of comments.
fn comment_names(alloc: Global) -> Result<Items<Bytes>, NoMemory>
    ensures { IfOk result (λ names. names ≡ comments) }
{
    let mut names = Items::new(alloc);
    names.push(Bytes::from_slice(alloc, b"COM")?)?;
    names.push(Bytes::from_slice(alloc, b"RUN")?)?;
    Ok(names)
}

/// Whether a line holds no directive, nor a faulty one.
fn is_free(prefixes: &Prefixes<'_>, line: &[u8]) -> bool
    requires { length line.now ≤ 2 ^ 30 }
    ensures { result ≡ free_by prefixes.now line.now }
{
    match decide(prefixes, line) {
        None => true,
        Some(found) => match found.mark {
            LineMark::Comment => true,
            LineMark::Check(_, _) => false,
        },
    }
}

/// A text without a `\r` at its end.
#[tactic(auto, using(lead_laws::proofs::FormLemmas::unreturned_return, crate::proofs::KeptLemmas::unreturned_byte))]
fn unreturned(text: &[u8]) -> &[u8]
    ensures value { result.now ≡ unreturned text.now }
    ensures within { length result.now ≤ length text.now }
{
    match text.split_last() {
        None => text,
        Some((last, front)) => { if *last == b'\r' { front } else { text } }
    }
}

/// A line as it stands in the canonical text, before its newline.
fn form_of(alloc: Global, line: &[u8]) -> Result<Bytes, NoMemory>
    ensures value { IfOk result (λ form. form ≡ form_of line.now) }
    ensures within { IfOk result (λ form. length form ≤ length line.now) }
{
    let copy = Bytes::from_slice(alloc, unreturned(line))?;
    Ok(canon_owned(copy, false))
}

/// Adds a line with its newline, if it is free in its canonical form, as far as there is room.
fn keep(
    alloc: Global,
    text: &mut Bytes,
    prefixes: &Prefixes<'_>,
    line: &[u8],
) -> Result<(), MakeFail>
    requires within { length text.old ≤ 16777216 }
    requires short { length line.now ≤ 2 ^ 30 }
    ensures { Becomes (text.old ++ line_by prefixes.now line.now) text.new result }
{
    let form = form_of(alloc, line)?;
    if !is_free(prefixes, form.as_slice()) {
        return Ok(());
    }
    text.append(line)?;
    text.append(b"\n")?;
    if text.len() > MAX_FILE {
        return Err(MakeFail::Bad(MakeFault::TooLarge));
    }
    Ok(())
}

/// The lines of a text that are free, one behind the other.
fn free_lines(alloc: Global, prefixes: &Prefixes<'_>, old: &[u8]) -> Result<Bytes, MakeFail>
    requires { length old.now ≤ 2 ^ 30 }
    ensures { Makes (text_by prefixes.now old.now) result }
{
    let mut text = Bytes::with_capacity(alloc, old.len() + 1)?;
    let mut rest = old;
    while !rest.is_empty() {
        let (line, behind) = first_line(rest);
        match keep(alloc, &mut text, prefixes, line) {
            Ok(()) => {}
            Err(fail) => return Err(fail),
        }
        match behind {
            None => return Ok(text),
            Some(behind) => rest = behind,
        }
    }
    Ok(text)
}

/// The lines of a check file that hold no directive, as they are, each with a newline. A line is decided as it stands in the canonical
/// text before a newline, which has as many lines: a `\r` at the end of the text goes with the newline that is put behind it.
pub(crate) fn kept_lines(alloc: Global, old: &[u8]) -> Result<Bytes, MakeFail>
    requires { length old.now ≤ 2 ^ 30 }
    ensures { Makes (kept old.now) result }
{
    let checks = check_names(alloc)?;
    let comments = comment_names(alloc)?;
    let prefixes = Prefixes {
        checks: PrefixTree::new(alloc, checks.as_slice())?,
        comments: PrefixTree::new(alloc, comments.as_slice())?,
    };
    free_lines(alloc, &prefixes, old)
}
