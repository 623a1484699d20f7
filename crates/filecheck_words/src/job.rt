//! What the words of the command line ask for.
ghost use Rattle.std.specs.Prelude.{IfOk};
ghost use Rattle.opt_words.specs.Step.{Stands, texts};
ghost use Rattle.filecheck_words.specs.Fault.{Gives};
ghost use Rattle.filecheck_words.specs.Given.{IsRead};
ghost use Rattle.filecheck_words.specs.Job.{IsSound, asked_by, bad_number, generated, job_of};

use crate::checking::{Asked, checking};
use crate::dumping::{DUMP_FILTER, DUMP_INPUT, dump_fault};
use crate::fault::{WordsFail, WordsFault, refuse};
use crate::given::{GivenWords, given_by, named_at};
use crate::making::{Making, is_making, make_asked};
use opt_words::{Given, WordFault, decimal};
use std::alloc::Global;
use tt_base::{Bytes, NoMemory};

/// What the words ask for.
#[derive(Drop, Debug)]
pub enum Job {
    /// To check an input by a check file.
    Check(Asked),
    /// The same with a check file and an input of so many lines, which are generated.
    Generate(u64),
    /// To make a check file from an input.
    Make(Making),
}

/// The row of `--generate`.
const GENERATE: usize = 10;

/// What the words ask for, which are without the program's name.
pub fn asked_by(alloc: Global, words: &[String]) -> Result<Job, WordsFail>
    ensures value { Gives (λ job. job) result (asked_by (texts words.now)) }
    ensures sound { IfOk result IsSound }
{
    let given = given_by(alloc, words)?;
    let when = given.settings.last[DUMP_INPUT];
    let filter = given.settings.last[DUMP_FILTER];
    if let Some(fault) = dump_fault(alloc, words, when, filter)? {
        return refuse(fault);
    }
    match given.settings.last[GENERATE] {
        Some(number) => generated(alloc, words, given.all.len(), number),
        None => job_of(alloc, words, &given),
    }
}

/// The job of what the words give, without `--generate`.
fn job_of(alloc: Global, words: &[String], given: &GivenWords) -> Result<Job, WordsFail>
    requires { IsRead (texts words.now) given.now }
    ensures value { Gives (λ job. job) result (job_of (texts words.now) given.now.all) }
    ensures sound { IfOk result IsSound }
{
    if is_making(given) {
        return Ok(Job::Make(make_asked(alloc, words, given)?));
    }
    Ok(Job::Check(checking(alloc, words, given)?))
}

/// The lines that are generated, where nothing else is given.
fn generated(alloc: Global, words: &[String], count: usize, given: Given) -> Result<Job, WordsFail>
    requires { Stands (texts words.now) given }
    ensures value { Gives (λ job. job) result (generated (texts words.now) count given) }
    ensures sound { IfOk result IsSound }
{
    if count != 1 {
        return refuse(WordsFault::Misfit);
    }
    match decimal(given.value(words)) {
        Some(n) => {
            if 1 <= n && n <= 20_000 {
                return Ok(Job::Generate(n));
            }
            bad_number(alloc, words, given)
        }
        None => bad_number(alloc, words, given),
    }
}

/// The refusal of a number.
fn bad_number(alloc: Global, words: &[String], given: Given) -> Result<Job, WordsFail>
    requires { Stands (texts words.now) given }
    ensures { Gives (λ job. job) result (bad_number (texts words.now) given) }
{
    let fault = WordFault::BadNumber(named_at(given));
    let word = Bytes::from_slice(alloc, fault.word(words))?;
    refuse(WordsFault::Faulty(fault, word))
}
