//! A line of a script, expanded.
ghost use Rattle.std.specs.Prelude.{◌≡◌, ◌↔◌, ◌<◌, ◌≤◌, ◌^◌, Some, length, true};
ghost use Rattle.substs.specs.Expansion.{AreNamed, Makes, after_all, expansion, line_rules, name_rules, rules_of, within};

use crate::fail::{ExpandFail, MAX_LINE, add, add_both};
use crate::forms::replace_forms;
use crate::replace::replace_name;
use itoa::Buffer;
use std::alloc::Global;
use tt_base::{Bytes, Items, find_in};
use tt_outside::Pair;

/// Names and what stands for them, in the order in which they are replaced.
#[derive(Drop, Debug)]
pub struct Texts {
    pub pairs: Items<Pair>,
}

impl Texts {
    /// Whether no name is empty, as `expand` asks.
    pub fn are_named(&self) -> bool
        ensures { result ≡ true ↔ AreNamed self.now.pairs }
    {
        self.pairs
            .as_slice()
            .iter()
            .all(|pair| !pair.name.is_empty())
    }
}

/// A line in which the first `suite` pairs, then the forms of the line's own number, then the other pairs are replaced,
/// each in all of the line. `%%` stands for `%`, and nothing is replaced across it.
pub fn expand(
    alloc: Global,
    line: &[u8],
    list: &Texts,
    suite: usize,
    line_no: u32,
) -> Result<Bytes, ExpandFail>
    requires split { suite ≤ length list.now.pairs }
    requires named { AreNamed list.now.pairs }
    ensures { Makes result (expansion list.now.pairs suite line_no line.now) }
{
    let pairs = list.pairs.as_slice();
    let mut made = Bytes::new(alloc);
    let mut from = 0;
    while let Some(at) = find_in(line, b"%%", from, line.len()) {
        let part = expand_part(alloc, &line[from..at], pairs, suite, line_no)?;
        add_both(&mut made, part.as_slice(), b"%")?;
        from = at + 2;
    }
    let part = expand_part(alloc, &line[from..], pairs, suite, line_no)?;
    add(&mut made, part.as_slice())?;
    Ok(made)
}

/// A part of a line, in which each rule in turn has replaced what it finds.
fn expand_part(
    alloc: Global,
    part: &[u8],
    pairs: &[Pair],
    suite: usize,
    line_no: u32,
) -> Result<Bytes, ExpandFail>
    requires split { suite ≤ length pairs.now }
    requires named { AreNamed pairs.now }
    ensures { Makes result (after_all (rules_of pairs.now suite line_no) (within part.now)) }
{
    if part.len() > MAX_LINE {
        return Err(ExpandFail::TooLong);
    }
    let Ok(copy) = Bytes::from_slice(alloc, part) else {
        return Err(ExpandFail::NoMemory);
    };
    let text = replace_names(alloc, copy, &pairs[..suite])?;
    let text = replace_line(alloc, text, line_no)?;
    replace_names(alloc, text, &pairs[suite..])
}

/// The text in which each name in turn has given way to its value.
fn replace_names(alloc: Global, text: Bytes, pairs: &[Pair]) -> Result<Bytes, ExpandFail>
    requires named { AreNamed pairs.now }
    requires short { length text ≤ 2 ^ 20 }
    ensures { Makes result (after_all (name_rules pairs.now) (Some text)) }
{
    let mut text = text;
    for pair in pairs {
        text = replace_name(alloc, text, pair.name.as_slice(), pair.value.as_slice())?;
    }
    Ok(text)
}

/// The text in which the forms of the line's number have given way to numbers.
fn replace_line(alloc: Global, text: Bytes, line_no: u32) -> Result<Bytes, ExpandFail>
    requires short { length text ≤ 2 ^ 20 }
    ensures { Makes result (after_all (line_rules line_no) (Some text)) }
{
    let mut buffer = Buffer::new();
    let text = replace_name(alloc, text, b"%(line)", buffer.format(line_no).as_bytes())?;
    let text = replace_forms(alloc, text.as_slice(), b"%(line+", true, line_no)?;
    replace_forms(alloc, text.as_slice(), b"%(line-", false, line_no)
}
