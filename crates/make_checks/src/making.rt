//! A check file that is made from an output.
ghost use Rattle.std.specs.Prelude.{◌≤◌, ◌^◌, IfOk, length};
ghost use Rattle.make_checks.specs.Adding.{IsAnswer};
ghost use Rattle.exact_laws.specs.Exact.{IsExactFor};
ghost use Rattle.make_checks.specs.Made.{made_checks, refreshed};

use crate::fault::{MAX_FILE, MakeFail, MakeFault};
use crate::kept::kept_lines;
use crate::lead::is_bad;
use crate::lines::{long_line, trimmed};
use crate::room::has_room;
use crate::told::{MadeFile, bytes_of};
use check_lines::canon_owned;
use std::alloc::Global;
use tt_base::Bytes;

/// The check file that an output makes, with a lead before each directive.
pub fn make_checks(alloc: Global, output: &[u8], lead: &[u8]) -> Result<Bytes, MakeFail>
    requires { length output.now ≤ 2 ^ 30 }
    ensures value { IsAnswer (made_checks output.now lead.now) result }
    ensures exact { IfOk result (IsExactFor output.now) }
{
    refresh(alloc, b"", output, lead)
}

/// The lines of an old check file that hold no directive, and behind them the check file that an output makes.
pub fn refresh(alloc: Global, old: &[u8], output: &[u8], lead: &[u8]) -> Result<Bytes, MakeFail>
    requires old_short { length old.now ≤ 2 ^ 30 }
    requires short { length output.now ≤ 2 ^ 30 }
    ensures value { IsAnswer (refreshed old.now output.now lead.now) result }
    ensures exact { IfOk result (IsExactFor output.now) }
{
    let copy = Bytes::from_slice(alloc, output)?;
    match refresh_file(alloc, old, copy, lead) {
        Ok(file) => Ok(bytes_of(alloc, &file)?),
        Err(fail) => Err(fail),
    }
}

/// The same as `make_checks`, before it is written. The output is made canonical in its own memory.
pub fn make_file(alloc: Global, output: Bytes, lead: &[u8]) -> Result<MadeFile, MakeFail>
    requires { length output ≤ 2 ^ 30 }
    ensures value { IsAnswer (made_checks output lead.now) result }
    ensures exact { IfOk result (IsExactFor output) }
{
    refresh_file(alloc, b"", output, lead)
}

/// The same as `refresh`, before it is written. The output is made canonical in its own memory.
pub fn refresh_file(
    alloc: Global,
    old: &[u8],
    output: Bytes,
    lead: &[u8],
) -> Result<MadeFile, MakeFail>
    requires old_short { length old.now ≤ 2 ^ 30 }
    requires short { length output ≤ 2 ^ 30 }
    ensures value { IsAnswer (refreshed old.now output lead.now) result }
    ensures exact { IfOk result (IsExactFor output) }
{
    if is_bad(lead) {
        return Err(MakeFail::Bad(MakeFault::BadLead));
    }
    let output = canon_owned(output, false);
    let lines = trimmed(output.as_slice());
    if let Some(number) = long_line(lines) {
        return Err(MakeFail::Bad(MakeFault::LineTooLong(number)));
    }
    let kept = match kept_lines(alloc, old) {
        Ok(kept) => kept,
        Err(fail) => return Err(fail),
    };
    if !has_room(MAX_FILE - kept.len(), lead, lines) {
        return Err(MakeFail::Bad(MakeFault::TooLarge));
    }
    let lead = Bytes::from_slice(alloc, lead)?;
    Ok(MadeFile { kept, lead, output })
}
