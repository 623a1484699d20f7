//! One replacement in a text.
ghost use Rattle.std.specs.Prelude.{◌≡◌, ◌<◌, ◌≤◌, ◌^◌, length};
ghost use Rattle.substs.specs.Expansion.{Makes, within};
ghost use Rattle.substs.specs.Replacement.{name_rule, replaced};

use crate::fail::{ExpandFail, add, add_both};
use std::alloc::Global;
use tt_base::{Bytes, find_in};

/// The text in which a name's value stands for the name. A text without the name is handed back.
pub(crate) fn replace_name(
    alloc: Global,
    text: Bytes,
    name: &[u8],
    value: &[u8],
) -> Result<Bytes, ExpandFail>
    requires named { 0 < length name.now }
    requires short { length text ≤ 2 ^ 20 }
    ensures { Makes result (within (replaced (name_rule name.now value.now) text)) }
{
    match find_in(text.as_slice(), name, 0, text.len()) {
        None => Ok(text),
        Some(_) => replace_found(alloc, text.as_slice(), name, value),
    }
}

/// The same as a new text.
fn replace_found(alloc: Global, text: &[u8], name: &[u8], value: &[u8]) -> Result<Bytes, ExpandFail>
    requires named { 0 < length name.now }
    ensures { Makes result (within (replaced (name_rule name.now value.now) text.now)) }
{
    let mut made = Bytes::new(alloc);
    let mut done = 0;
    while let Some(at) = find_in(text, name, done, text.len()) {
        add_both(&mut made, &text[done..at], value)?;
        done = at + name.len();
    }
    add(&mut made, &text[done..])?;
    Ok(made)
}
