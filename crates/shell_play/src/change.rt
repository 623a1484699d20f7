//! What a reply changes.
ghost use Rattle.std.specs.Prelude.{◌≡◌, ◌+◌, ◌<◌, ◌++◌, ◌∷◌, [], IfOk, OnOk, length, if◌then◌else◌};
ghost use Rattle.shell_play.specs.Play.{is_none_left, first_word, last_failed, lacking, status_of, tooled};
ghost use Rattle.shell_play.specs.Standing.{IsHere, IsPoured, AreFew, ChangesBy, ChangesTo, files_by, files_left, is_heard, told_last, read_by, spawned_by, streamed_by, task, written_by};

use crate::places::{Write, errors_of, flow_of, places_of, writes_of};
use crate::stage::{Running, Stage, Wants};
use crate::steps::next_command;
use crate::told::{LackNote, PlayEnd, Told};
use crate::tools::tooled;
use mini_shell::Command;
use std::alloc::Global;
use tt_base::{Bytes, Items, NoMemory};
use tt_outside::{Finish, Reply, SharedBytes, Test};

/// What is told now of the command at hand, and what is due next.
#[derive(Drop)]
pub struct Change<'a> {
    pub now: Told,
    pub stage: Stage<'a>,
}

fn status_of(finish: Finish) -> u32
    ensures { result ≡ status_of finish }
{
    match finish {
        Finish::Code(code) => u32::from(code),
        Finish::Signal(signal) => 128 + u32::from(signal),
    }
}

fn lacking(status: u32) -> u32
    ensures { result ≡ lacking status }
{
    if status == 0 { 1 } else { status }
}

fn last_failed(failed: u32, status: u32) -> u32
    ensures { result ≡ last_failed failed status }
{
    if status == 0 { failed } else { status }
}

/// An equal one.
fn copy_running<'a>(alloc: Global, running: &Running<'a>) -> Result<Running<'a>, NoMemory>
    ensures { IfOk result (λ copy. copy ≡ running.now) }
{
    Ok(Running {
        line: running.line,
        lines: running.lines,
        pipes: running.pipes,
        inverted: running.inverted,
        commands: running.commands,
        command: running.command,
        dir: Bytes::from_slice(alloc, running.dir.as_slice())?,
        failed: running.failed,
    })
}

/// A command that ended, as it is told so far: the files that are left to write, what goes on to the next one, and its status.
#[derive(Drop)]
pub struct Ending {
    pub told: Told,
    pub writes: Items<Write>,
    pub flow: SharedBytes,
    pub status: u32,
}

/// Files that are left to write, and then the command has its status.
fn write_files<'a>(
    alloc: Global,
    test: &Test,
    running: &Running<'a>,
    ending: Ending,
) -> Result<Change<'a>, NoMemory>
    requires few { running.now.line + length running.now.lines.now < 1000 }
    requires here { ending.told.line ≡ running.now.line }
    ensures few { IfOk result (λ change. AreFew change.stage) }
    ensures here { IfOk result (λ change. IsHere change.stage change.now.line) }
    ensures exact { IfOk result (ChangesTo test.now (files_by test.now running.now ending)) }
{
    let Ending {
        told: now,
        writes,
        flow,
        status,
    } = ending;
    if writes.is_empty() {
        let failed = last_failed(running.failed, status);
        let stage = next_command(alloc, test, running, failed, flow)?;
        let mut now = now;
        now.status = Some(status);
        return Ok(Change { now, stage });
    }
    let running = copy_running(alloc, running)?;
    Ok(Change {
        now,
        stage: Stage::Command(running, Wants::Files(writes, flow, status)),
    })
}

/// Where the bytes of a command's streams come to.
#[derive(Drop)]
struct Poured {
    writes: Items<Write>,
    errors: SharedBytes,
    flow: SharedBytes,
}

/// The streams of a command, each at its place.
fn pour(alloc: Global, running: &Running, output: &Output) -> Result<Poured, NoMemory>
    ensures { IfOk result (IsPoured running.now output.now) }
{
    let redirs = running.command.redirs.as_slice();
    let places = places_of(alloc, running.dir.as_slice(), redirs)?;
    let writes = writes_of(alloc, &places, &output.out, &output.err)?;
    let errors = errors_of(alloc, &places, &output.out, &output.err)?;
    let flow = flow_of(alloc, &places, &output.out, &output.err)?;
    Ok(Poured {
        writes,
        errors,
        flow,
    })
}

fn is_none_left(commands: &[Command]) -> bool
    ensures { result ≡ is_none_left commands.now }
{
    commands.is_empty()
}

/// What comes to the transcript of a pipe's last command, and what goes on behind another one.
fn shown_or_passed(last: bool, flow: SharedBytes) -> (SharedBytes, SharedBytes)
    ensures shown { result.0 ≡ if last then flow else [] }
    ensures passed { result.1 ≡ if last then [] else flow }
{
    if last {
        (flow, SharedBytes::none())
    } else {
        (SharedBytes::none(), flow)
    }
}

/// What a command left: its streams, and its status.
#[derive(Drop)]
pub struct Output {
    pub out: SharedBytes,
    pub err: SharedBytes,
    pub status: u32,
}

/// A command that ended: its streams go to their places.
fn streamed<'a>(
    alloc: Global,
    test: &Test,
    running: &Running<'a>,
    notes: Items<LackNote>,
    output: &Output,
) -> Result<Change<'a>, NoMemory>
    requires few { running.now.line + length running.now.lines.now < 1000 }
    ensures few { IfOk result (λ change. AreFew change.stage) }
    ensures here { IfOk result (λ change. IsHere change.stage change.now.line) }
    ensures exact { IfOk result (ChangesTo test.now (streamed_by test.now running.now notes output.now)) }
{
    let Poured {
        writes,
        errors,
        flow,
    } = pour(alloc, running, output)?;
    let last = is_none_left(running.commands);
    let (shown, passed) = shown_or_passed(last, flow);
    let told = Told {
        line: running.line,
        notes,
        out: shown,
        err: errors,
        status: None,
    };
    let ending = Ending {
        told,
        writes,
        flow: passed,
        status: output.status,
    };
    write_files(alloc, test, running, ending)
}

/// The word of a program that is missing.
fn program_of(alloc: Global, test: &Test, running: &Running) -> Result<Bytes, NoMemory>
    ensures { IfOk result (λ word. word ≡ first_word (task test.now running.now).words) }
{
    let words = tooled(
        alloc,
        test.tools.as_slice(),
        running.command.words.as_slice(),
    )?;
    match words.as_slice().split_first() {
        Some((word, _)) => Bytes::from_slice(alloc, word.as_slice()),
        None => Ok(Bytes::new(alloc)),
    }
}

/// One note.
fn one(alloc: Global, note: LackNote) -> Result<Items<LackNote>, NoMemory>
    ensures { IfOk result (λ notes. notes ≡ note ∷ []) }
{
    let mut notes = Items::new(alloc);
    notes.push(note)?;
    Ok(notes)
}

/// Nothing was written.
fn silent(status: u32) -> Output
    ensures { (result.out ≡ []) × (result.err ≡ []) × (result.status ≡ status) }
{
    Output {
        out: SharedBytes::none(),
        err: SharedBytes::none(),
        status,
    }
}

/// A reply that ends the play.
fn unresolved<'a>(now: Told, line: u32) -> Change<'a>
    requires few { line < 1000 }
    ensures { (result.now ≡ now) × (result.stage ≡ Stage.Over (line + 1) PlayEnd.Unresolved) }
{
    Change {
        now,
        stage: Stage::Over(line + 1, PlayEnd::Unresolved),
    }
}

/// Behind the reply to the ReadFile of its input.
fn by_read<'a>(
    alloc: Global,
    test: &Test,
    running: &Running<'a>,
    path: &Bytes,
    reply: &Reply,
) -> Result<Change<'a>, NoMemory>
    requires few { running.now.line + length running.now.lines.now < 1000 }
    ensures few { IfOk result (λ change. AreFew change.stage) }
    ensures here { IfOk result (λ change. IsHere change.stage change.now.line) }
    ensures exact { IfOk result (ChangesTo test.now (read_by test.now running.now path.now reply.now)) }
{
    match reply {
        Reply::Bytes(bytes) => {
            let input = bytes.share()?;
            let copy = copy_running(alloc, running)?;
            Ok(Change {
                now: Told::quiet(alloc, running.line),
                stage: Stage::Command(copy, Wants::Program(input, true)),
            })
        }
        Reply::Missing => {
            let notes = one(
                alloc,
                LackNote::NoFile(Bytes::from_slice(alloc, path.as_slice())?),
            )?;
            streamed(alloc, test, running, notes, &silent(1))
        }
        Reply::Written | Reply::Status { .. } | Reply::TooLarge(_) | Reply::Broken => {
            Ok(unresolved(Told::quiet(alloc, running.line), running.line))
        }
    }
}

/// Behind the reply to the Spawn of its program.
fn by_spawn<'a>(
    alloc: Global,
    test: &Test,
    running: &Running<'a>,
    reply: &Reply,
) -> Result<Change<'a>, NoMemory>
    requires few { running.now.line + length running.now.lines.now < 1000 }
    ensures few { IfOk result (λ change. AreFew change.stage) }
    ensures here { IfOk result (λ change. IsHere change.stage change.now.line) }
    ensures exact { IfOk result (ChangesTo test.now (spawned_by test.now running.now reply.now)) }
{
    match reply {
        Reply::Status { finish, out, err } => {
            let output = Output {
                out: out.share()?,
                err: err.share()?,
                status: status_of(*finish),
            };
            streamed(alloc, test, running, Items::new(alloc), &output)
        }
        Reply::Missing => {
            let notes = one(
                alloc,
                LackNote::NoProgram(program_of(alloc, test, running)?),
            )?;
            streamed(alloc, test, running, notes, &silent(127))
        }
        Reply::Written | Reply::Bytes(_) | Reply::TooLarge(_) | Reply::Broken => {
            Ok(unresolved(Told::quiet(alloc, running.line), running.line))
        }
    }
}

/// Adds equal files.
fn add_writes(alloc: Global, writes: &mut Items<Write>, more: &[Write]) -> Result<(), NoMemory>
    ensures { OnOk result (writes.new ≡ writes.old ++ more.now) }
{
    for write in more {
        writes.push(Write {
            path: Bytes::from_slice(alloc, write.path.as_slice())?,
            bytes: write.bytes.share()?,
            append: write.append,
        })?;
    }
    Ok(())
}

/// Equal files.
fn same_writes(alloc: Global, writes: &[Write]) -> Result<Items<Write>, NoMemory>
    ensures { IfOk result (λ same. same ≡ writes.now) }
{
    let mut same = Items::new(alloc);
    add_writes(alloc, &mut same, writes)?;
    Ok(same)
}

/// Behind the reply to a WriteFile, of which the path is given.
fn by_write<'a>(
    alloc: Global,
    test: &Test,
    running: &Running<'a>,
    path: &Bytes,
    mut ending: Ending,
    reply: &Reply,
) -> Result<Change<'a>, NoMemory>
    requires few { running.now.line + length running.now.lines.now < 1000 }
    requires here { ending.told.line ≡ running.now.line }
    ensures few { IfOk result (λ change. AreFew change.stage) }
    ensures here { IfOk result (λ change. IsHere change.stage change.now.line) }
    ensures exact { IfOk result (ChangesTo test.now (written_by test.now running.now path.now ending reply.now)) }
{
    match reply {
        Reply::Written => write_files(alloc, test, running, ending),
        Reply::Missing => {
            let note = LackNote::NoWrite(Bytes::from_slice(alloc, path.as_slice())?);
            ending.told.notes.push(note)?;
            ending.status = lacking(ending.status);
            write_files(alloc, test, running, ending)
        }
        Reply::Bytes(_) | Reply::Status { .. } | Reply::TooLarge(_) | Reply::Broken => {
            Ok(unresolved(ending.told, running.line))
        }
    }
}

/// Whether something was told of the command already.
pub(crate) fn is_heard(wants: &Wants) -> bool
    ensures { result ≡ is_heard wants.now }
{
    match wants {
        Wants::Input(_) => false,
        Wants::Program(_, heard) => *heard,
        Wants::Files(..) => true,
    }
}

/// An equal one of the last that was told.
fn last_told(alloc: Global, line: u32, told: &[Told]) -> Result<Told, NoMemory>
    ensures { IfOk result (λ last. last ≡ record (told_last told.now) { line = line }) }
{
    let mut last = if told.is_empty() {
        Told::quiet(alloc, line)
    } else {
        told[told.len() - 1].copy(alloc)?
    };
    last.line = line;
    Ok(last)
}

/// What a reply to a command's request changes.
pub(crate) fn change_by<'a>(
    alloc: Global,
    test: &Test,
    told: &[Told],
    running: &Running<'a>,
    wants: &Wants,
    reply: &Reply,
) -> Result<Change<'a>, NoMemory>
    requires few { running.now.line + length running.now.lines.now < 1000 }
    requires next { 0 < files_left wants.now }
    ensures few { IfOk result (λ change. AreFew change.stage) }
    ensures here { IfOk result (λ change. IsHere change.stage change.now.line) }
    ensures exact { IfOk result (ChangesBy test.now told.now running.now wants.now reply.now) }
{
    match wants {
        Wants::Input(path) => by_read(alloc, test, running, path, reply),
        Wants::Program(_, false) => by_spawn(alloc, test, running, reply),
        Wants::Program(_, true) => by_spawn(alloc, test, running, reply),
        Wants::Files(writes, flow, status) => {
            let Some((first, left)) = writes.as_slice().split_first() else {
                unreachable!();
            };
            let last = last_told(alloc, running.line, told)?;
            let files = same_writes(alloc, left)?;
            let passed = flow.share()?;
            let ending = Ending {
                told: last,
                writes: files,
                flow: passed,
                status: *status,
            };
            let change = by_write(alloc, test, running, &first.path, ending, reply)?;
            Ok(change)
        }
    }
}
