//! The lines of the generated texts.
ghost use Rattle.std.specs.Prelude.{◌≡◌, ◌≤◌, ◌*◌, ◌++◌, IfOk, OnOk, length};
ghost use Rattle.std.specs.Fmt.{decimal};
ghost use Rattle.generator.specs.Generated.{check_line, checks_text, input_line, input_text, numbered, value_at};

use std::alloc::Global;
use tt_base::{Bytes, NoMemory};

/// The check file: so many directives, a line each.
#[tactic(auto, unfolding(crate::specs::Generated::first_lines))]
pub fn checks_text(alloc: Global, lines: u64) -> Result<Bytes, NoMemory>
    ensures value { IfOk result (λ text. text ≡ checks_text lines) }
    ensures short { lines ≤ 20000 → IfOk result (λ text. length text ≤ lines * 64) }
{
    let mut text = Bytes::new(alloc);
    for done in 0..lines {
        add_check_line(alloc, &mut text, done + 1)?;
    }
    Ok(text)
}

/// The input that it matches.
#[tactic(auto, unfolding(crate::specs::Generated::first_lines))]
pub fn input_text(alloc: Global, lines: u64) -> Result<Bytes, NoMemory>
    ensures value { IfOk result (λ text. text ≡ input_text lines) }
    ensures short { lines ≤ 20000 → IfOk result (λ text. length text ≤ lines * 64) }
{
    let mut text = Bytes::new(alloc);
    for done in 0..lines {
        add_input_line(alloc, &mut text, done + 1)?;
    }
    Ok(text)
}

fn add_check_line(alloc: Global, text: &mut Bytes, line: u64) -> Result<(), NoMemory>
    ensures { OnOk result (text.new ≡ text.old ++ check_line line) }
{
    if line == 1 {
        text.append(b"CHECK: op 1 val [[#V:]]\n")
    } else {
        add_numbered(alloc, text, b"CHECK-NEXT: op ", line, b" val {{[0-9]+}}\n")
    }
}

fn add_input_line(alloc: Global, text: &mut Bytes, line: u64) -> Result<(), NoMemory>
    ensures { OnOk result (text.new ≡ text.old ++ input_line line) }
{
    add_numbered(alloc, text, b"op ", line, b" val ")?;
    add_numbered(alloc, text, b"", value_at(line), b"\n")
}

/// Adds a number between two texts.
fn add_numbered(
    alloc: Global,
    text: &mut Bytes,
    before: &[u8],
    number: u64,
    behind: &[u8],
) -> Result<(), NoMemory>
    ensures { OnOk result (text.new ≡ text.old ++ numbered before.now number behind.now) }
{
    text.append(before)?;
    add_number(alloc, text, number)?;
    text.append(behind)
}

/// The value that a line of the input ends in.
fn value_at(line: u64) -> u64
    ensures { result ≡ value_at line }
{
    let line = line as u128;
    ((line * line + 7) % 1000) as u64
}

fn add_number(alloc: Global, text: &mut Bytes, number: u64) -> Result<(), NoMemory>
    ensures { OnOk result (text.new ≡ text.old ++ decimal number) }
{
    match number.to_string(alloc) {
        Ok(digits) => text.append(digits.as_bytes()),
        Err(_) => Err(NoMemory),
    }
}
