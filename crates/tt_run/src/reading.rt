//! What reading gave.
ghost use Rattle.std.specs.Prelude.{◌≡◌, ◌≤◌, ◌<◌, ◌+◌, ◌^◌, IfOk, IsErr};
ghost use Rattle.tt_outside.specs.Transfer.{TakesAtMost};
ghost use Rattle.tt_run.specs.Run.{FileRead, IsShort, SourceRead, StaysSteady, files_of, source_of};

use std::alloc::Global;
use tt_base::{Bytes, NoMemory};
use tt_outside::{Files, FilesFault, Source, TakeFault, take_all};

/// What reading a file or a source gave.
#[derive(Drop, Debug)]
pub enum Reading {
    /// All of its bytes, within the limit.
    Whole(Bytes),
    /// No file has the name.
    Missing,
    /// It has more bytes than the limit.
    TooLarge,
    /// It couldn't be read.
    Failed,
}

/// What reading the file of a name gave.
pub fn read_named<F: Files>(
    alloc: Global,
    name: &str,
    limit: u64,
    from: &mut F,
) -> Result<Reading, NoMemory>
    requires { limit < 2 ^ 62 }
    ensures read { IfOk result (FileRead (files_of F.Files from.old from.new) limit name.now) }
    ensures short { IfOk result (IsShort limit) }
    ensures calm { IsErr result → F.faults from.new ≡ F.faults from.old }
    ensures stay { F.held from.new ≡ F.held from.old }
    ensures steady { StaysSteady F.steady from.old from.new }
{
    match from.read_all(alloc, name, limit) {
        Ok(bytes) => Ok(Reading::Whole(bytes)),
        Err(FilesFault::Missing) => Ok(Reading::Missing),
        Err(FilesFault::TooLarge { .. }) => Ok(Reading::TooLarge),
        Err(FilesFault::Failed) => Ok(Reading::Failed),
        Err(FilesFault::NoMemory) => Err(NoMemory),
    }
}

/// What reading a source to its end gave.
pub fn read_source<S: Source>(alloc: Global, limit: u64, from: &mut S) -> Result<Reading, NoMemory>
    requires { limit < 2 ^ 62 }
    ensures read { IfOk result (SourceRead (source_of S.Source from.old from.new) limit) }
    ensures short { IfOk result (IsShort limit) }
    ensures calm { IsErr result → S.faults from.new ≡ S.faults from.old }
    ensures taken { TakesAtMost (S.left from.old) (S.left from.new) (limit + 1) }
{
    match take_all(alloc, from, limit) {
        Ok(bytes) => Ok(Reading::Whole(bytes)),
        Err(TakeFault::TooLarge) => Ok(Reading::TooLarge),
        Err(TakeFault::Failed) => Ok(Reading::Failed),
        Err(TakeFault::NoMemory) => Err(NoMemory),
    }
}
