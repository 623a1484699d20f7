//! The names that the body of a directive uses.
ghost use Rattle.std.specs.Prelude.{◌≤◌, length};

use pattern_vars::Vars;
use std::alloc::Global;
use tt_base::{Bytes, NoMemory};

/// A name that a body uses.
#[derive(Clone, Copy)]
pub struct Use<'a> {
    /// Where it stands.
    pub at: usize,
    pub name: &'a [u8],
    /// It is a number's, and not a text's.
    pub is_number: bool,
}

/// The names that the blocks of a body use and that have a place among variables, each where it stands first.
pub fn uses_in<'a>(alloc: Global, body: &'a [u8], vars: &Vars) -> Result<Vec<Use<'a>>, NoMemory> {
    let mut uses = Vec::new(alloc);
    for at in 0..body.len() {
        match body.split_at(at).1 {
            [b'[', b'[', b'#', block @ ..] => {
                add_numbers(&mut uses, at.saturating_add(3), up_to_close(block), vars)?;
            }
            [b'[', b'[', block @ ..] => {
                let name = up_to_close(block);
                if name_length(name) == name.len() {
                    let one = Use {
                        at: at.saturating_add(2),
                        name,
                        is_number: false,
                    };
                    add(&mut uses, one, vars)?;
                }
            }
            _ => {}
        }
    }
    Ok(uses)
}

/// The text of a block, before the brackets that close it.
fn up_to_close(text: &[u8]) -> &[u8] {
    match text.windows(2).position(|pair| pair == b"]]".as_slice()) {
        Some(at) => text.split_at(at.min(text.len())).0,
        None => b"",
    }
}

/// Whether a byte may stand in a name.
fn is_name_byte(byte: u8) -> bool {
    byte.is_ascii_alphanumeric() || byte == b'_' || byte == b'$'
}

/// How many bytes of a name stand at the front.
fn name_length(text: &[u8]) -> usize
    ensures { result ≤ length text.now }
{
    for (at, byte) in text.iter().enumerate() {
        if !is_name_byte(*byte) {
            return at;
        }
    }
    text.len()
}

/// Adds the names that the expression of a block uses.
fn add_numbers<'a>(
    uses: &mut Vec<Use<'a>>,
    at: usize,
    block: &'a [u8],
    vars: &Vars,
) -> Result<(), NoMemory> {
    for from in 0..block.len() {
        let (before, rest) = block.split_at(from);
        let (name, behind) = rest.split_at(name_length(rest));
        if may_begin(before, name) && !is_no_use(behind) {
            let one = Use {
                at: at.saturating_add(from),
                name,
                is_number: true,
            };
            add(uses, one, vars)?;
        }
    }
    Ok(())
}

/// Whether a name begins here: behind no other byte of it, and not as that of a format or of `@LINE`.
fn may_begin(before: &[u8], name: &[u8]) -> bool {
    match name {
        [] => return false,
        [first, ..] => if first.is_ascii_digit() {
            return false;
        },
    }
    match before.last() {
        Some(b'%' | b'@' | b'.' | b'#') => false,
        Some(last) => !is_name_byte(*last),
        None => true,
    }
}

/// Whether what stands behind a name says that it is defined, or is a function.
fn is_no_use(behind: &[u8]) -> bool {
    let mut rest = behind;
    while let [b' ' | b'\t', later @ ..] = rest {
        rest = later;
    }
    matches!(rest, [b':' | b'(', ..])
}

/// Adds a use of a name that has a place, unless one is there.
fn add<'a>(uses: &mut Vec<Use<'a>>, one: Use<'a>, vars: &Vars) -> Result<(), NoMemory> {
    if !vars.has_place(one.name) || uses.as_slice().iter().any(|it| it.name == one.name) {
        return Ok(());
    }
    match uses.push(one) {
        Ok(()) => Ok(()),
        Err(_) => Err(NoMemory),
    }
}
