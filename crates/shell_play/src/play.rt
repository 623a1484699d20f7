//! The play of a script's lines: what is due next, given the replies so far.
ghost use Rattle.std.specs.Prelude.{◌≡◌, ◌≤◌, ◌<◌, IfOk, IsOkAnd, OnErr, OnOk, length, true};
ghost use Rattle.std.specs.Vec.{vec_len};
ghost use Rattle.test_course.specs.Bytes.{IsLimited};
ghost use Rattle.shell_play.specs.Standing.{AreFew, IsHere, files_due, told_last, files_left, request_of};

use crate::change::{change_by, is_heard};
use crate::stage::{Running, Stage, Wants};
use crate::steps::first_stage;
use crate::told::{PlayEnd, Told};
use crate::tools::tooled;
use mini_shell::Line;
use std::alloc::Global;
use test_course::LIMIT;
use tt_base::{Bytes, NoMemory};
use tt_outside::{Reply, Request, Test, pairs};

/// A play of lines.
#[derive(Drop)]
pub struct Play<'a> {
    test: &'a Test,
    told: Vec<Told>,
    stage: Stage<'a>,
    ghost few: { AreFew stage },
    ghost here: { IsHere stage (told_last told.items).line },
    ghost heard: { files_due stage ≡ true → 0 < vec_len told },
}

/// What is due of a play.
#[derive(Drop, Debug)]
pub enum Due {
    Ask(Request),
    Over(PlayEnd),
}

/// An equal text.
fn text(alloc: Global, bytes: &Bytes) -> Result<Bytes, NoMemory>
    ensures { IfOk result (λ copy. copy ≡ bytes.now) }
{
    Bytes::from_slice(alloc, bytes.as_slice())
}

/// The request of a command that is due.
fn request_of(
    alloc: Global,
    test: &Test,
    running: &Running,
    wants: &Wants,
) -> Result<Request, NoMemory>
    requires next { 0 < files_left wants.now }
    ensures exact { IfOk result (λ request. request ≡ request_of test.now running.now wants.now) }
    ensures limited { IfOk result IsLimited }
{
    match wants {
        Wants::Input(path) => Ok(Request::ReadFile {
            path: text(alloc, path)?,
            limit: LIMIT,
        }),
        Wants::Program(input, _) => Ok(Request::Spawn {
            words: tooled(
                alloc,
                test.tools.as_slice(),
                running.command.words.as_slice(),
            )?,
            dir: text(alloc, &running.dir)?,
            env: pairs(alloc, test.environment.as_slice())?,
            input: input.share()?,
            limit: LIMIT,
        }),
        Wants::Files(writes, _, _) => {
            let Some((first, _)) = writes.as_slice().split_first() else {
                unreachable!();
            };
            Ok(Request::WriteFile {
                path: text(alloc, &first.path)?,
                bytes: first.bytes.share()?,
                append: first.append,
            })
        }
    }
}

impl<'a> Play<'a> {
    ghost use Rattle.test_course.specs.Course.{after, shown};
    ghost use Rattle.shell_play.specs.Play.{play};
    ghost use Rattle.shell_play.specs.PlayOf.{Asks, DueIsLimited, Shows, course_of};

    /// The play of lines of a test. It takes no memory yet.
    pub fn new(alloc: Global, lines: &'a [Line], test: &'a Test) -> Result<Play<'a>, NoMemory>
        requires few { length lines.now ≤ 1000 }
        ensures { IsOkAnd result (λ made. course_of made ≡ play lines.now test.now) }
    {
        Ok(Play {
            test,
            told: Vec::new(alloc),
            stage: Stage::Dir(lines),
        })
    }

    /// What the commands that have a reply did, in order.
    pub fn told(&self) -> &[Told]
        ensures { result.now ≡ (shown (course_of self.now)).told }
    {
        self.told.as_slice()
    }

    /// How many lines began.
    pub fn began(&self) -> u32
        ensures { result ≡ (shown (course_of self.now)).began }
    {
        match &self.stage {
            Stage::Dir(_) => 0,
            Stage::Command(running, _) => running.line + 1,
            Stage::Over(began, _) => *began,
        }
    }

    /// The request that is due, or the play's end.
    pub fn due(&self, alloc: Global) -> Result<Due, NoMemory>
        ensures exact { IfOk result (Shows (course_of self.now)) }
        ensures limited { IfOk result DueIsLimited }
    {
        match &self.stage {
            Stage::Dir(_) => Ok(Due::Ask(Request::MakeDir {
                path: text(alloc, &self.test.temp_dir)?,
            })),
            Stage::Command(running, wants) => {
                let request = request_of(alloc, self.test, running, wants)?;
                Ok(Due::Ask(request))
            }
            Stage::Over(_, end) => Ok(Due::Over(*end)),
        }
    }

    /// Takes the reply to the request that is due.
    pub fn take(&mut self, alloc: Global, reply: &Reply) -> Result<(), NoMemory>
        requires due { Asks (course_of self.old) }
        ensures ok { OnOk result (course_of self.new ≡ after (course_of self.old) reply.now) }
        ensures err { OnErr result (course_of self.new ≡ course_of self.old) }
    {
        match self.told.reserve(1) {
            Ok(()) => {}
            Err(_) => return Err(NoMemory),
        }
        match &self.stage {
            Stage::Dir(script) => {
                let stage = match reply {
                    Reply::Written => first_stage(alloc, self.test, script)?,
                    _ => Stage::Over(0, PlayEnd::Unresolved),
                };
                self.stage = stage;
            }
            Stage::Command(running, wants) => {
                let change = change_by(
                    alloc,
                    self.test,
                    self.told.as_slice(),
                    running,
                    wants,
                    reply,
                )?;
                if is_heard(wants) {
                    drop(self.told.pop());
                }
                self.told.push_reserved(change.now);
                self.stage = change.stage;
            }
            Stage::Over(..) => unreachable!(),
        }
        Ok(())
    }
}
