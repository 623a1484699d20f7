//! The top call of `count`.
ghost use Rattle.std.specs.Prelude.{◌≡◌, ◌⊎◌, ◌≤◌, ◌+◌, ◌^◌, length};
ghost use Rattle.tt_outside.specs.Transfer.{TakesAtMost};
ghost use Rattle.tt_run.specs.Run.{Failed, source_of, stream_of};
ghost use Rattle.opt_words.specs.Step.{texts};
ghost use Rattle.not_count.specs.Asked.{IsTold};
ghost use Rattle.not_count.specs.Count.{Counts, IsToldOf, OutcomeOf};
ghost use Rattle.not_count.specs.Count.{ComparedTold, ExpectedTold, FaultTold, LinesTold, OutcomeTold, RefusalTold};

use crate::asked::{CountRefusal, asked};
use crate::lines::{Counted, count_lines};
use itoa::Buffer;
use opt_words::WordFault;
use tt_outside::{Sink, Source};
use tt_run::{ToolFrame, answer_on, answer_parts};

/// The name of `count`.
pub const COUNT: ToolFrame = ToolFrame { name: b"count" };

/// What a run of `count` comes to.
#[derive(Clone, Copy, Debug, PartialEq, Eq)]
pub enum Outcome {
    Refused(CountRefusal),
    Compared(u64, Counted),
}

/// Runs `count` on words, which are without the program's name: 0 where the input has as many newlines as the one word
/// says, 1 where it has another number, 2 where the words are refused or the input has more than 2^40 bytes, and 3 at a
/// fault of the input or of `err`. It takes no memory.
pub fn count_run<I: Source, E: Sink>(words: &[String], input: &mut I, err: &mut E) -> u8
    ensures answer { Counts (texts words.now) (source_of I.Source input.old input.new) result
        (stream_of E.Sink err.old err.new) }
    ensures fault { result ≡ 3 → Failed I.faults input.old input.new ⊎ Failed E.faults err.old err.new }
    ensures taken { TakesAtMost (I.left input.old) (I.left input.new) (2 ^ 40 + 1) }
    ensures no_other { result ≤ 3 }
{
    let outcome = outcome_from(words, input);
    answer(words, outcome, err)
}

/// What the words and the input come to.
fn outcome_from<I: Source>(words: &[String], input: &mut I) -> Outcome
    ensures value { OutcomeOf (texts words.now) (source_of I.Source input.old input.new) result }
    ensures told { IsToldOf (length words.now) result }
    ensures taken { TakesAtMost (I.left input.old) (I.left input.new) (2 ^ 40 + 1) }
{
    match asked(words) {
        Err(refusal) => Outcome::Refused(refusal),
        Ok(wanted) => Outcome::Compared(wanted, count_lines(input)),
    }
}

/// Tells the outcome, and answers its status.
fn answer<E: Sink>(words: &[String], outcome: Outcome, err: &mut E) -> u8
    requires { IsToldOf (length words.now) outcome }
    ensures answered { OutcomeTold (texts words.now) outcome result (stream_of E.Sink err.old err.new) }
    ensures range { result ≤ 3 }
{
    match outcome {
        Outcome::Refused(refusal) => refuse(words, refusal, err),
        Outcome::Compared(wanted, counted) => compare(wanted, counted, err),
    }
}

/// Tells why the words are refused.
fn refuse<E: Sink>(words: &[String], refusal: CountRefusal, err: &mut E) -> u8
    requires { IsTold (length words.now) refusal }
    ensures answered { RefusalTold (texts words.now) refusal result (stream_of E.Sink err.old err.new) }
    ensures range { result ≤ 3 }
{
    match refusal {
        CountRefusal::FaultyWord(fault) => tell_fault(fault.word(words), fault, err),
        CountRefusal::NotOneNumber => answer_on(b"count: error: one number is needed\n", 2, err),
    }
}

/// Tells what is wrong with a word.
fn tell_fault<E: Sink>(word: &[u8], fault: WordFault, err: &mut E) -> u8
    ensures answered { FaultTold word.now fault result (stream_of E.Sink err.old err.new) }
    ensures range { result ≤ 3 }
{
    answer_parts(
        &[
            b"count: error: ",
            fault.text_before(),
            word,
            fault.text_behind(),
            b"\n",
        ],
        2,
        err,
    )
}

/// Tells how the lines compare with the number that was asked for.
fn compare<E: Sink>(wanted: u64, counted: Counted, err: &mut E) -> u8
    ensures answered { ComparedTold wanted counted result (stream_of E.Sink err.old err.new) }
    ensures range { result ≤ 3 }
{
    match counted {
        Counted::Lines(lines) => compare_lines(wanted, lines, err),
        Counted::TooLong => answer_on(b"count: error: input too long\n", 2, err),
        Counted::Failed => answer_on(b"count: error: cannot read '<stdin>'\n", 3, err),
    }
}

fn compare_lines<E: Sink>(wanted: u64, lines: u64, err: &mut E) -> u8
    ensures answered { LinesTold wanted lines result (stream_of E.Sink err.old err.new) }
    ensures range { result ≤ 3 }
{
    if lines == wanted {
        answer_on(b"", 0, err)
    } else {
        tell_lines(wanted, lines, err)
    }
}

/// Tells the number of lines that was asked for, and the one that was found.
fn tell_lines<E: Sink>(wanted: u64, lines: u64, err: &mut E) -> u8
    ensures answered { ExpectedTold wanted lines result (stream_of E.Sink err.old err.new) }
    ensures range { result ≤ 3 }
{
    let (mut due, mut found) = (Buffer::new(), Buffer::new());
    let due = due.format(wanted).as_bytes();
    let found = found.format(lines).as_bytes();
    answer_parts(&[b"Expected ", due, b" lines, got ", found, b".\n"], 1, err)
}
