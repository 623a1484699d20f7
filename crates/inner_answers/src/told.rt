//! Answers as replies.
ghost use Rattle.std.specs.Prelude.{◌≡◌, ◌<◌, All, IfOk, length, map};
ghost use Rattle.opt_words.specs.Step.{texts};
ghost use Rattle.inner_answers.specs.Peeled.{level_in};
ghost use Rattle.inner_answers.specs.Told.{count_answer, inverse_all, inverse_reply, refused_answer, reply_within};

use not_count::{Inverse, NotCommand, command_in, count_run, inverse_answer, reply_answer};
use std::alloc::Global;
use tt_base::{Bytes, NoMemory};
use tt_outside::{Finish, MemSink, MemSource, Reply, SharedBytes, Stream};
use tt_run::Answer;

/// An answer as a reply, under a limit. Its bytes aren't copied.
pub(crate) fn reply_within(alloc: Global, limit: u64, answer: Answer) -> Result<Reply, NoMemory>
    ensures { IfOk result (λ reply. reply ≡ reply_within limit answer) }
{
    if answer.out.len() as u64 > limit {
        return Ok(Reply::TooLarge(Stream::Out));
    }
    if answer.err.len() as u64 > limit {
        return Ok(Reply::TooLarge(Stream::Err));
    }
    Ok(Reply::Status {
        finish: Finish::Code(answer.status),
        out: SharedBytes::new(alloc, answer.out)?,
        err: SharedBytes::new(alloc, answer.err)?,
    })
}

/// The reply of `count` to words, which are without its name, and an input.
pub(crate) fn count_reply(
    alloc: Global,
    words: &[String],
    input: &[u8],
    limit: u64,
) -> Result<Reply, NoMemory>
    ensures { IfOk result (λ reply. reply ≡ reply_within limit (count_answer (texts words.now) input.now)) }
{
    let mut source = MemSource::new(alloc, input, &[])?;
    let mut err = MemSink::new(alloc, limit as usize)?;
    match count_run(words, &mut source, &mut err) {
        3 => Ok(Reply::TooLarge(Stream::Err)),
        status => {
            let answer = Answer {
                out: Bytes::new(alloc),
                err: err.into_bytes(),
                status,
            };
            let reply = reply_within(alloc, limit, answer)?;
            Ok(reply)
        }
    }
}

/// The reply of a `not` that refuses its words, which are without its name, or its input.
pub(crate) fn refused_reply(alloc: Global, words: &[String], limit: u64) -> Result<Reply, NoMemory>
    ensures { IfOk result (λ reply. reply ≡ reply_within limit (refused_answer (texts words.now))) }
{
    let outcome = match command_in(words) {
        Ok(_) => Inverse::TooLarge,
        Err(refusal) => Inverse::Refused(refusal),
    };
    reply_within(alloc, limit, inverse_answer(alloc, words, outcome)?)
}

/// The inverse of the reply to a command of these words.
fn inverse_reply(
    alloc: Global,
    words: &[String],
    command: NotCommand,
    limit: u64,
    reply: Reply,
) -> Result<Reply, NoMemory>
    requires { command.first < length words.now }
    ensures { IfOk result (λ inverse. inverse ≡ inverse_reply limit (level_in (texts words.now) command) reply) }
{
    match reply {
        Reply::Broken => Ok(Reply::Broken),
        Reply::TooLarge(stream) => Ok(Reply::TooLarge(stream)),
        reply => {
            let name = words[command.first].as_bytes();
            let answer = reply_answer(alloc, name, command.crash, reply)?;
            reply_within(alloc, limit, answer)
        }
    }
}

/// What all `not`s make of the reply below them.
pub(crate) fn inverse_all(
    alloc: Global,
    words: &[String],
    levels: &[NotCommand],
    limit: u64,
    core: Reply,
) -> Result<Reply, NoMemory>
    requires { All (λ command. command.first < length words.now) levels.now }
    ensures { IfOk result (λ inverse. inverse ≡ inverse_all limit (map (level_in (texts words.now)) levels.now) core) }
{
    let mut reply = core;
    let mut at = levels.len();
    while at > 0 {
        at -= 1;
        reply = inverse_reply(alloc, words, levels[at], limit, reply)?;
    }
    Ok(reply)
}
