//! Tables of options, and the step from one word to the next.
ghost use Rattle.std.specs.Prelude.{◌≡◌, ◌≤◌, ◌<◌, ◌+◌, ◌^◌, All, IfErr, IfOk, IfSome, List, OnOk, length};
ghost use Rattle.std.specs.List.{position_from};
ghost use Rattle.opt_words.specs.Fault.{word_of};
ghost use Rattle.opt_words.specs.Reading.{AllStand, AreAll, GivensStand, IsJoined, IsRefused, IsTally, OfGivens, Reads, StillStand, behind, givens_by, is_once, is_twice};
ghost use Rattle.opt_words.specs.declared.step.Given.{Given};
ghost use Rattle.opt_words.specs.Step.{Leads, Stands, StepsOn, next_word, option_at, step_from, step_of, texts};
ghost use Rattle.opt_words.specs.Word.{begins_named, dashes, is_named, meant};

use crate::fault::WordFault;
use crate::row::{Form, Row};
use crate::settings::Settings;
use crate::step::{Given, Step, formed, takes};
use crate::word::{begins_named, dashes, is_named, is_option, name_in, own_value};
use std::alloc::Global;
use tt_base::{Items, NoMemory};

/// The options of a program. Of rows with equal names the first is meant.
#[derive(Drop, Debug)]
pub struct Table<const N: usize> {
    pub rows: [Row; N],
    /// Whether all words behind the first plain word are plain.
    pub stop_at_plain: bool,
}

impl<const N: usize> Table<N> {
    fn row_count(&self) -> usize
        ensures rows { result ≡ length self.now.rows }
        ensures count { result ≡ N }
    {
        self.rows.iter().len()
    }

    fn first_named(&self, name: &[u8]) -> Option<usize>
        ensures value { result ≡ position_from (is_named name.now) 0 self.now.rows }
        ensures within { IfSome result (λ row. row < N) }
    {
        self.rows.iter().position(|row| is_named(name, row))
    }

    fn first_begun(&self, name: &[u8]) -> Option<usize>
        ensures value { result ≡ position_from (begins_named name.now) 0 self.now.rows }
        ensures within { IfSome result (λ row. row < N) }
    {
        self.rows.iter().position(|row| begins_named(name, row))
    }

    /// The row that an option means.
    fn meant(&self, word: &[u8]) -> Option<usize>
        requires { dashes word.now ≤ length word.now }
        ensures value { result ≡ meant self.now.rows word.now }
        ensures within { IfSome result (λ row. row < N) }
    {
        let name = name_in(word);
        match self.first_named(name) {
            Some(row) => Some(row),
            None => {
                if dashes(word) == 1 {
                    self.first_begun(name)
                } else {
                    None
                }
            }
        }
    }

    /// The step at an option.
    fn option_step(&self, at: usize, word: &[u8], rest: &[String]) -> Result<Step, WordFault>
        requires dashes { dashes word.now ≤ length word.now }
        requires room { at + length rest.now < 2 ^ 63 }
        ensures value { result ≡ option_at self.now.rows at word.now (next_word rest.now) }
        ensures leads { IfOk result (Leads N at word.now (length rest.now)) }
        ensures told { IfErr result (λ fault. word_of fault ≡ at) }
    {
        match self.meant(word) {
            None => Err(WordFault::Unknown(at)),
            Some(row) => {
                let one = &self.rows[row];
                formed(&one.form, row, at, word, own_value(one, word), rest)
            }
        }
    }

    /// The step at a word with others behind it.
    fn step_at(
        &self,
        at: usize,
        only_plain: bool,
        word: &[u8],
        rest: &[String],
    ) -> Result<Step, WordFault>
        requires { at + length rest.now < 2 ^ 63 }
        ensures value { result ≡ step_of self.now at only_plain word.now (next_word rest.now) }
        ensures leads { IfOk result (Leads N at word.now (length rest.now)) }
        ensures told { IfErr result (λ fault. word_of fault ≡ at) }
    {
        if only_plain {
            return Ok(takes(self.row_count(), at, 0, at + 1, true));
        }
        if !is_option(word) {
            return Ok(takes(self.row_count(), at, 0, at + 1, self.stop_at_plain));
        }
        if word == b"--".as_slice() {
            return Ok(Step {
                given: None,
                next: at + 1,
                only_plain: true,
            });
        }
        self.option_step(at, word, rest)
    }

    /// The step at the word with the index `from`, where `only_plain` is what the step before said, and false at the
    /// first word. None at the words' end. A row that may be given once is not counted here: `read` does that.
    pub fn step(
        &self,
        words: &[String],
        from: usize,
        only_plain: bool,
    ) -> Result<Option<Step>, WordFault>
        requires { from ≤ length words.now }
        ensures value { result ≡ step_from self.now from only_plain (texts words.now) }
        ensures on { IfOk result (λ step. IfSome step (StepsOn N from (texts words.now))) }
        ensures told { IfErr result (λ fault. (word_of fault ≡ from) × (from < length words.now)) }
    {
        match words.split_at(from).1.split_first() {
            None => Ok(None),
            Some((word, rest)) => match self.step_at(from, only_plain, word.as_bytes(), rest) {
                Ok(step) => Ok(Some(step)),
                Err(fault) => Err(fault),
            },
        }
    }

    /// Whether it is given a second time, and may be given once.
    fn is_twice(&self, settings: &Settings<N>, given: &Given) -> bool
        ensures { OfGivens N settings.now (λ before. result ≡ is_twice self.now.rows before given.now) }
    {
        given.row < self.row_count()
            && is_once(&self.rows[given.row].form)
            && settings.times[given.row] > 0
    }

    /// Counts what a step at a word takes.
    fn join(
        &self,
        at: usize,
        settings: &mut Settings<N>,
        given: Option<Given>,
    ) -> Result<(), WordFault>
        requires row { IfSome given (λ given. given.row ≤ N) }
        requires room { (before : List Given) × IsTally N before settings.old × (length before < 2 ^ 63) }
        ensures ok { OnOk result (IsJoined N self.now.rows at given settings.old settings.new) }
        ensures stand { StillStand N given settings.old settings.new }
        ensures told { IfErr result (λ fault. word_of fault ≡ at) }
        ensures err { IfErr result (IsRefused N self.now.rows at given settings.old) }
    {
        match given {
            None => Ok(()),
            Some(given) => {
                if self.is_twice(settings, &given) {
                    return Err(WordFault::TwiceGiven(at));
                }
                settings.add(given);
                Ok(())
            }
        }
    }

    /// All that the words give, in order, where they are read without a fault.
    pub fn givens(&self, alloc: Global, words: &[String]) -> Result<Items<Given>, NoMemory>
        ensures all { IfOk result (AreAll (givens_by self.now (texts words.now))) }
        ensures stand { IfOk result (All (Stands (texts words.now))) }
    {
        let mut all = Items::new(alloc);
        let mut at = 0;
        let mut only_plain = false;
        loop {
            match self.step(words, at, only_plain) {
                Err(_) => return Ok(all),
                Ok(None) => return Ok(all),
                Ok(Some(step)) => {
                    match push_given(&mut all, step.given) {
                        Ok(()) => {}
                        Err(fail) => return Err(fail),
                    }
                    at = step.next;
                    only_plain = step.only_plain;
                }
            }
        }
    }

    /// Reads all words.
    pub fn read(&self, words: &[String]) -> Result<Settings<N>, WordFault>
        ensures read { Reads N (givens_by self.now (texts words.now)) result }
        ensures stand { IfOk result (AllStand N (texts words.now)) }
        ensures told { IfErr result (λ fault. word_of fault < length words.now) }
    {
        let mut settings = Settings::none();
        let mut at = 0;
        let mut only_plain = false;
        loop {
            match self.step(words, at, only_plain) {
                Err(fault) => return Err(fault),
                Ok(None) => return Ok(settings),
                Ok(Some(step)) => {
                    if let Err(fault) = self.join(at, &mut settings, step.given) {
                        return Err(fault);
                    }
                    at = step.next;
                    only_plain = step.only_plain;
                }
            }
        }
    }
}

/// Adds what a step takes.
fn push_given(all: &mut Items<Given>, given: Option<Given>) -> Result<(), NoMemory>
    ensures added { OnOk result (all.new ≡ behind all.old given) }
    ensures stand { OnOk result (GivensStand given all.old all.new) }
{
    match given {
        None => Ok(()),
        Some(given) => all.push(given),
    }
}

/// Whether an option of this form may be given once.
fn is_once(form: &Form) -> bool
    ensures { result ≡ is_once form.now }
{
    match form {
        Form::Once => true,
        Form::Number { .. } => true,
        Form::Flag | Form::Switch | Form::Many | Form::Glued => false,
    }
}
