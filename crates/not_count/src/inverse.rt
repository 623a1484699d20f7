//! The top call of `not`.
ghost use Rattle.std.specs.Prelude.{◌≡◌, ◌≢◌, ◌⊎◌, ◌≤◌, ◌<◌, ◌+◌, ◌^◌, [], IfOk, codes, length, true};
ghost use Rattle.tt_outside.specs.Fits.{fits};
ghost use Rattle.tt_outside.specs.Gave.{SameGave};
ghost use Rattle.tt_outside.specs.Transfer.{TakesAtMost};
ghost use Rattle.tt_run.specs.Run.{Failed, LacksMemory, crew_of, source_of, stream_of};
ghost use Rattle.opt_words.specs.Step.{texts};
ghost use Rattle.not_count.specs.Command.{IsToldWord, command_in};
ghost use Rattle.not_count.specs.Inverse.{AskedOnce, AtMostOneHand, HandFailed, HandsOf, Inverts, IsToldInverse, LeavesHands, OutcomeFrom, Replied, inverse_answer, no_command_text, reply_answer, status_at, telling, word_text};

use crate::command::{NoCommand, NotCommand, bytes_of, command_in};
use std::alloc::Global;
use tt_base::{Bytes, Items, NoMemory};
use tt_outside::{Crew, Finish, Reply, Request, Runner, SharedBytes, Sink, Source};
use tt_run::{Answer, Reading, ToolFrame, read_source};

/// The name of `not`.
pub const NOT: ToolFrame = ToolFrame { name: b"not" };

/// The greatest length of an input, and of each stream of the program, in bytes.
pub const INPUT_LIMIT: u64 = 67_108_864;

/// What a run of `not` comes to.
#[derive(Drop, Debug)]
pub enum Inverse {
    Refused(NoCommand),
    /// The input has more bytes than the limit.
    TooLarge,
    /// The input couldn't be read.
    Unread,
    /// What was answered to the command.
    Replied(NotCommand, Reply),
}

/// Runs `not` on words, which are without the program's name: the command is run once, with the whole input, and what it
/// wrote is written on. The status is 0 where the program ended with a code other than 0, or with `--crash` by a signal;
/// 1 where it ended otherwise, or isn't there; 2 where the words are refused, or the input or an output is too large; 3 at
/// a fault of what was handed in, and 4 for want of memory. It returns where the program ends.
pub fn not_run<C: Crew, I: Source, O: Sink, E: Sink>(
    alloc: Global,
    words: &[String],
    crew: &mut C,
    input: &mut I,
    out: &mut O,
    err: &mut E,
) -> u8
    requires { C.ready crew.old }
    ensures answer { Inverts (texts words.now) (source_of I.Source input.old input.new) (crew_of C.Crew crew.old crew.new)
        result (stream_of O.Sink out.old out.new) (stream_of E.Sink err.old err.new) }
    ensures fault { result ≡ 3 → Failed I.faults input.old input.new ⊎ HandFailed (C.hands crew.old) (C.hands crew.new)
        ⊎ Failed O.faults out.old out.new ⊎ Failed E.faults err.old err.new }
    ensures memory { LacksMemory (codes "not") result (stream_of O.Sink out.old out.new) (stream_of E.Sink err.old err.new) }
    ensures few { result ≡ 4 → AtMostOneHand (C.hands crew.old) (C.hands crew.new) }
    ensures taken { TakesAtMost (I.left input.old) (I.left input.new) (2 ^ 26 + 1) }
    ensures seats { C.seats crew.new ≡ C.seats crew.old }
    ensures gave { SameGave (C.gave crew.new) (C.gave crew.old) }
    ensures ready { C.ready crew.new }
    ensures no_other { result ≤ 4 }
{
    let Ok(outcome) = outcome_from(alloc, words, crew, input) else {
        return NOT.out_of_memory(err);
    };
    let Ok(answer) = inverse_answer(alloc, words, outcome) else {
        return NOT.out_of_memory(err);
    };
    answer.write(NOT, out, err)
}

/// What the words, the input and the command come to.
fn outcome_from<C: Crew, I: Source>(
    alloc: Global,
    words: &[String],
    crew: &mut C,
    input: &mut I,
) -> Result<Inverse, NoMemory>
    requires { C.ready crew.old }
    ensures value { IfOk result (OutcomeFrom (source_of I.Source input.old input.new) (C.gave crew.old) (2 ^ 26)
        (texts words.now) (command_in (texts words.now))) }
    ensures hands { LeavesHands HandsOf (C.hands crew.old) (C.hands crew.new) result }
    ensures told { IfOk result (IsToldInverse (length words.now)) }
    ensures taken { TakesAtMost (I.left input.old) (I.left input.new) (2 ^ 26 + 1) }
    ensures seats { C.seats crew.new ≡ C.seats crew.old }
    ensures gave { SameGave (C.gave crew.new) (C.gave crew.old) }
    ensures ready { C.ready crew.new }
{
    let command = match command_in(words) {
        Ok(command) => command,
        Err(refusal) => return Ok(Inverse::Refused(refusal)),
    };
    match read_source(alloc, INPUT_LIMIT, input)? {
        Reading::Whole(bytes) => {
            let bytes = SharedBytes::new(alloc, bytes)?;
            replied(alloc, words, command, bytes, crew)
        }
        Reading::TooLarge => Ok(Inverse::TooLarge),
        Reading::Failed | Reading::Missing => Ok(Inverse::Unread),
    }
}

/// What was answered to a command with an input.
fn replied<C: Crew>(
    alloc: Global,
    words: &[String],
    command: NotCommand,
    input: SharedBytes,
    crew: &mut C,
) -> Result<Inverse, NoMemory>
    requires ready { C.ready crew.old }
    requires within { command.first < length words.now }
    ensures value { IfOk result (Replied (C.gave crew.old) (2 ^ 26) (texts words.now) command input) }
    ensures hands { LeavesHands HandsOf (C.hands crew.old) (C.hands crew.new) result }
    ensures told { IfOk result (IsToldInverse (length words.now)) }
    ensures seats { C.seats crew.new ≡ C.seats crew.old }
    ensures gave { SameGave (C.gave crew.new) (C.gave crew.old) }
    ensures ready { C.ready crew.new }
{
    let request = Request::Spawn {
        words: bytes_of(alloc, &words[command.first..])?,
        dir: Bytes::from_slice(alloc, b".")?,
        env: Items::new(alloc),
        input,
        limit: INPUT_LIMIT,
    };
    let reply = ask_once(alloc, crew, &request)?;
    Ok(Inverse::Replied(command, reply))
}

/// The reply of a hand that is hired for one test, the number 0, and dismissed.
fn ask_once<C: Crew>(alloc: Global, crew: &mut C, request: &Request) -> Result<Reply, NoMemory>
    requires { C.ready crew.old }
    ensures given { IfOk result (λ reply. C.gave crew.old 0 [] request.now reply) }
    ensures fit { IfOk result (λ reply. fits request.now reply ≡ true) }
    ensures hands { LeavesHands AskedOnce (C.hands crew.old) (C.hands crew.new) result }
    ensures seats { C.seats crew.new ≡ C.seats crew.old }
    ensures gave { SameGave (C.gave crew.new) (C.gave crew.old) }
    ensures ready { C.ready crew.new }
{
    let mut hand = crew.hire(alloc, 1)?;
    hand.begin(0);
    let reply = hand.ask(alloc, &[], request);
    crew.dismiss(hand);
    reply
}

/// What is told of a run.
pub fn inverse_answer(alloc: Global, words: &[String], outcome: Inverse) -> Result<Answer, NoMemory>
    requires { IsToldInverse (length words.now) outcome }
    ensures value { IfOk result (λ answer. answer ≡ inverse_answer (texts words.now) outcome) }
    ensures small { IfOk result (λ answer. answer.status ≤ 3) }
{
    match outcome {
        Inverse::Refused(refusal) => telling(alloc, 2, no_command_text(alloc, words, refusal)?),
        Inverse::TooLarge => telling(alloc, 2, Bytes::from_slice(alloc, b"input too large")?),
        Inverse::Unread => telling(
            alloc,
            3,
            Bytes::from_slice(alloc, b"cannot read '<stdin>'")?,
        ),
        Inverse::Replied(command, reply) => {
            reply_answer(alloc, words[command.first].as_bytes(), command.crash, reply)
        }
    }
}

/// The answer with a message and nothing else.
fn telling(alloc: Global, status: u8, text: Bytes) -> Result<Answer, NoMemory>
    requires { status ≤ 3 }
    ensures value { IfOk result (λ answer. answer ≡ telling status text) }
    ensures small { IfOk result (λ answer. answer.status ≤ 3) }
{
    let mut err = Bytes::from_slice(alloc, b"not: error: ")?;
    err.append(text.as_slice())?;
    err.append(b"\n")?;
    Ok(Answer {
        out: Bytes::new(alloc),
        err,
        status,
    })
}

/// Why no program is run.
fn no_command_text(alloc: Global, words: &[String], refusal: NoCommand) -> Result<Bytes, NoMemory>
    requires { IsToldWord (length words.now) refusal }
    ensures { IfOk result (λ text. text ≡ no_command_text (texts words.now) refusal) }
{
    match refusal {
        NoCommand::FaultyWord(fault) => {
            word_text(
                alloc,
                fault.text_before(),
                fault.word(words),
                fault.text_behind(),
            )
        }
        NoCommand::Missing => Bytes::from_slice(alloc, b"a command is needed"),
    }
}

/// A word between two texts.
fn word_text(alloc: Global, before: &[u8], word: &[u8], behind: &[u8]) -> Result<Bytes, NoMemory>
    ensures { IfOk result (λ text. text ≡ word_text before.now word.now behind.now) }
{
    let mut text = Bytes::from_slice(alloc, before)?;
    text.append(word)?;
    text.append(behind)?;
    Ok(text)
}

/// What is told of a reply to the program of a name.
pub fn reply_answer(
    alloc: Global,
    name: &[u8],
    crash: bool,
    reply: Reply,
) -> Result<Answer, NoMemory>
    ensures value { IfOk result (λ answer. answer ≡ reply_answer name.now crash reply) }
    ensures small { IfOk result (λ answer. answer.status ≤ 3) }
{
    match reply {
        Reply::Status { finish, out, err } => Ok(Answer {
            out: out.into_bytes(alloc)?,
            err: err.into_bytes(alloc)?,
            status: status_at(crash, finish),
        }),
        Reply::Missing => telling(
            alloc,
            1,
            word_text(alloc, b"no such program '", name, b"'")?,
        ),
        Reply::TooLarge(_) => telling(alloc, 2, Bytes::from_slice(alloc, b"output too large")?),
        Reply::Broken | Reply::Bytes(_) | Reply::Written => {
            telling(alloc, 3, word_text(alloc, b"cannot run '", name, b"'")?)
        }
    }
}

/// The status where the program ended so.
fn status_at(crash: bool, finish: Finish) -> u8
    ensures value { result ≡ status_at crash finish }
    ensures small { result ≤ 1 }
{
    match finish {
        Finish::Code(0) => 1,
        Finish::Code(_) => crash as u8,
        Finish::Signal(_) => !crash as u8,
    }
}
