//! What a word of the command line defines.
ghost use Rattle.std.specs.Prelude.{◌≡◌, ◌≤◌, ◌<◌, ◌==◌, IfOk, IfSome, length};
ghost use Rattle.std.specs.FinMap as map;
ghost use Rattle.std.specs.List.{list_all, position_from};
ghost use Rattle.num_base.specs.Term.{term_of};
ghost use Rattle.num_exprs.specs.Block.{reading};
ghost use Rattle.define_words.specs.View.{word_view};
ghost use Rattle.define_words.specs.Word.{block_in, block_of, in_format, is_inside, known_with, number_word, said_in, text_behind, text_word, word_of};

use crate::format::word_format;
use num_base::{Expr, Format};
use num_exprs::{BlockReading, name_at, read_block};
use num_spell::{begins, behind};
use pattern_parse::Formats;
use std::alloc::Global;
use tt_base::{Bytes, NoMemory};

/// What a value says.
#[derive(Drop, Debug)]
pub(crate) enum Says {
    /// `X=text`.
    Text {
        name: Bytes,
        text: Bytes,
    },
    /// `#N=3`.
    Number {
        name: Bytes,
        format: Format,
        expr: Expr,
    },
    /// Neither.
    Nothing,
}

/// A value with what it says.
#[derive(Drop, Debug)]
pub(crate) struct Read {
    pub(crate) value: Bytes,
    pub(crate) says: Says,
}

/// What a value says where these formats are known; from then on that of the number that it defines is, too.
pub(crate) fn says_of(alloc: Global, known: &mut Formats, value: &[u8]) -> Result<Says, NoMemory>
    ensures says { IfOk result (λ says. word_view says ≡ word_of (map.get known.old) value.now) }
    ensures known { IfOk result (λ says. known.new ≡ known_with known.old (word_view says)) }
{
    if !begins(value, b'#') {
        return text_says(alloc, value);
    }
    number_says(alloc, known, behind(value, 1))
}

// ---- texts

fn text_says(alloc: Global, value: &[u8]) -> Result<Says, NoMemory>
    ensures { IfOk result (λ says. word_view says ≡ text_word value.now) }
{
    match name_at(value) {
        Ok(long) => text_behind(alloc, long, value),
        Err(_) => Ok(Says::Nothing),
    }
}

/// A text behind a name of this length.
fn text_behind(alloc: Global, long: usize, value: &[u8]) -> Result<Says, NoMemory>
    requires { long ≤ length value.now }
    ensures { IfOk result (λ says. word_view says ≡ text_behind long value.now) }
{
    let (name, rest) = value.split_at(long);
    if !begins(rest, b'=') {
        return Ok(Says::Nothing);
    }
    Ok(Says::Text {
        name: Bytes::from_slice(alloc, name)?,
        text: Bytes::from_slice(alloc, behind(value, long + 1))?,
    })
}

// ---- numbers

/// Where the first `=` stands.
fn sign_at(definition: &[u8]) -> Option<usize>
    ensures value { result ≡ position_from (λ byte. byte == 61) 0 definition.now }
    ensures within { IfSome result (λ at. at < length definition.now) }
{
    definition.iter().position(|byte| *byte == b'=')
}

/// Whether bytes can stand behind the `=`.
fn are_inside(tail: &[u8]) -> bool
    ensures { result ≡ list_all is_inside tail.now }
{
    tail.iter().all(|byte| !matches!(*byte, b'=' | b'@'))
}

/// The block of a definition, with a `:` for its `=`.
fn block_in(alloc: Global, definition: &[u8]) -> Result<Option<Bytes>, NoMemory>
    ensures { IfOk result (λ block. block ≡ block_in definition.now) }
{
    match sign_at(definition) {
        Some(at) => block_of(alloc, definition.split_at(at).0, behind(definition, at + 1)),
        None => Ok(None),
    }
}

/// The block of what stands before an `=` and behind it.
fn block_of(alloc: Global, head: &[u8], tail: &[u8]) -> Result<Option<Bytes>, NoMemory>
    ensures { IfOk result (λ block. block ≡ block_of head.now tail.now) }
{
    if !are_inside(tail) {
        return Ok(None);
    }
    let mut block = Bytes::from_slice(alloc, head)?;
    block.append(b":")?;
    block.append(tail)?;
    Ok(Some(block))
}

/// What a definition says, as `%x,N=3`.
fn number_says(alloc: Global, known: &mut Formats, definition: &[u8]) -> Result<Says, NoMemory>
    ensures says { IfOk result (λ says. word_view says ≡ number_word (map.get known.old) definition.now) }
    ensures known { IfOk result (λ says. known.new ≡ known_with known.old (word_view says)) }
{
    match block_in(alloc, definition)? {
        Some(block) => block_says(alloc, known, block.as_slice()),
        None => Ok(Says::Nothing),
    }
}

/// What the block of a definition says.
fn block_says(alloc: Global, known: &mut Formats, block: &[u8]) -> Result<Says, NoMemory>
    ensures says { IfOk result (λ says. word_view says ≡ said_in (map.get known.old) (reading block.now)) }
    ensures known { IfOk result (λ says. known.new ≡ known_with known.old (word_view says)) }
{
    let BlockReading {
        format: written,
        defines,
        uses,
        expr,
    } = read_block(alloc, block)?;
    let format = word_format(known, written, uses.as_slice());
    match (defines, expr) {
        (Some(named), Ok(Some(expr))) => number_says_in(known, named.name, format, expr),
        (Some(_), Ok(None)) => Ok(Says::Nothing),
        (Some(_), Err(_)) => Ok(Says::Nothing),
        (None, _) => Ok(Says::Nothing),
    }
}

/// The number of an expression under a name, if it has a format, which is known from then on.
fn number_says_in(
    known: &mut Formats,
    name: Bytes,
    format: Option<Format>,
    expr: Expr,
) -> Result<Says, NoMemory>
    ensures says { IfOk result (λ says. word_view says ≡ in_format name (term_of expr) format) }
    ensures known { IfOk result (λ says. known.new ≡ known_with known.old (word_view says)) }
{
    match format {
        Some(format) => {
            known.put(name.as_slice(), format)?;
            Ok(Says::Number { name, format, expr })
        }
        None => Ok(Says::Nothing),
    }
}
