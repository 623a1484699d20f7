//! What words of `filecheck` ask for. Words stand between `|`.
use crate::fields::{Tells, each_is_told};
use crate::objects::words_of;
use filecheck_words::{Asked, Dump, Input, Job, Making, When, WordsFail, asked_by};
use std::alloc::Global;
use tt_base::{Bytes, NoMemory};

fn add_list(text: &mut Bytes, items: &[Bytes]) -> Result<(), NoMemory> {
    text.append(b" [")?;
    for item in items {
        text.append(item.as_slice())?;
        text.append(b",")?;
    }
    text.append(b"]")
}

fn add_flag(text: &mut Bytes, is: bool, letter: &[u8]) -> Result<(), NoMemory> {
    if is { text.append(letter) } else { Ok(()) }
}

fn add_flags(text: &mut Bytes, asked: &Asked) -> Result<(), NoMemory> {
    text.append(b" ")?;
    add_flag(text, asked.strict, b"s")?;
    add_flag(text, asked.allow_empty, b"e")?;
    add_flag(text, asked.allow_unused, b"u")?;
    add_flag(text, asked.full_lines, b"l")?;
    add_flag(text, asked.fold, b"i")?;
    add_flag(text, asked.var_scope, b"v")?;
    add_flag(text, asked.may_lack, b"m")
}

/// A letter for each annotated input: none for never.
fn add_dump(text: &mut Bytes, dump: Dump) -> Result<(), NoMemory> {
    match dump.when {
        When::Never => return Ok(()),
        When::Fail => text.append(b" fail")?,
        When::Always => text.append(b" always")?,
    }
    add_flag(text, dump.all, b"+")?;
    add_flag(text, dump.context == 5, b"5")?;
    add_flag(text, dump.context == 1_000_000, b"M")
}

/// What is asked for, where a check file is to be made, as a line.
fn making_told(alloc: Global, making: &Making) -> Result<Bytes, NoMemory> {
    let mut text = Bytes::from_slice(alloc, b"make ")?;
    match &making.old {
        Some(name) => text.append(name.as_slice())?,
        None => text.append(b"new")?,
    }
    text.append(b" ")?;
    match &making.input {
        Input::Standard => text.append(b"<stdin>")?,
        Input::Named(name) => text.append(name.as_slice())?,
    }
    text.append(b" [")?;
    text.append(making.lead.as_slice())?;
    text.append(b"]")?;
    add_flag(&mut text, making.allow_empty, b"e")?;
    Ok(text)
}

/// What is asked for, as a line.
fn asked_told(alloc: Global, asked: &Asked) -> Result<Bytes, NoMemory> {
    let mut text = Bytes::from_slice(alloc, asked.name.as_slice())?;
    text.append(b" ")?;
    match &asked.input {
        Input::Standard => text.append(b"<stdin>")?,
        Input::Named(name) => text.append(name.as_slice())?,
    }
    add_flags(&mut text, asked)?;
    add_list(&mut text, asked.prefixes.checks.as_slice())?;
    add_list(&mut text, asked.prefixes.comments.as_slice())?;
    add_list(&mut text, asked.implicit.as_slice())?;
    add_list(&mut text, asked.defines.as_slice())?;
    add_dump(&mut text, asked.dump)?;
    Ok(text)
}

/// What was asked for, or that words were refused.
fn job_told(alloc: Global, job: &Result<Job, WordsFail>) -> Result<Bytes, NoMemory> {
    match job {
        Ok(Job::Check(asked)) => asked_told(alloc, asked),
        Ok(Job::Generate(3)) => Bytes::from_slice(alloc, b"three"),
        Ok(Job::Generate(20_000)) => Bytes::from_slice(alloc, b"most"),
        Ok(Job::Generate(_)) => Bytes::from_slice(alloc, b"some"),
        Ok(Job::Make(making)) => making_told(alloc, making),
        Err(WordsFail::Bad(_)) => Bytes::from_slice(alloc, b"refused"),
        Err(WordsFail::NoMemory) => Err(NoMemory),
    }
}

/// What words ask for.
fn words_told(alloc: Global, words: &[String]) -> Result<Bytes, NoMemory> {
    let job = asked_by(alloc, words);
    job_told(alloc, &job)
}

/// What the words of a line ask for.
fn told(alloc: Global, line: &str) -> Result<Bytes, NoMemory> {
    match words_of(alloc, line) {
        Ok(words) => words_told(alloc, words.as_slice()),
        Err(_) => Err(NoMemory),
    }
}

/// The words of a line, and what they ask for.
const ASKED: &str = "t.txt => t.txt <stdin>  [CHECK,] [COM,RUN,] [] []
-strict-whitespace|--allow-empty|t.txt|--allow-unused-prefixes => t.txt <stdin> seu [CHECK,] [COM,RUN,] [] []
--match-full-lines|-ignore-case|t.txt|--enable-var-scope|--dump-input=never => t.txt <stdin> liv [CHECK,] [COM,RUN,] [] []
t.txt|--input-file|in.txt|-dump-input|never => t.txt in.txt  [CHECK,] [COM,RUN,] [] []
-DX=1|t.txt|-D|#N=3|-D=|--D=x => t.txt <stdin>  [CHECK,] [COM,RUN,] [] [X=1,#N=3,=,=x,]
t.txt|--implicit-check-not= a \t b\t|--implicit-check-not|c => t.txt <stdin> m [CHECK,] [COM,RUN,] [a b,c,] []
t.txt|--implicit-check-not= a \t b\t|--strict-whitespace => t.txt <stdin> sm [CHECK,] [COM,RUN,] [a \t b,] []
t.txt|--implicit-check-not=a|--check-prefix=CHECK => t.txt <stdin>  [CHECK,] [COM,RUN,] [a,] []
t.txt|--implicit-check-not=a|--check-prefixes=A,B|--comment-prefixes=C => t.txt <stdin>  [A,B,] [C,] [a,] []
--generate=3 => three
-generate|20000 => most
--|--generate => --generate <stdin>  [CHECK,] [COM,RUN,] [] []
t.txt|--dump-input=fail => t.txt <stdin>  [CHECK,] [COM,RUN,] [] [] fail5
--dump-input|always|t.txt => t.txt <stdin>  [CHECK,] [COM,RUN,] [] [] always+5
t.txt|-dump-input-filter|all|--dump-input=fail|-dump-input-context=1000000 => t.txt <stdin>  [CHECK,] [COM,RUN,] [] [] fail+M
t.txt|--dump-input=always|--dump-input-filter=error|--dump-input-context|0 => t.txt <stdin>  [CHECK,] [COM,RUN,] [] [] always
t.txt|--dump-input-filter=all => t.txt <stdin>  [CHECK,] [COM,RUN,] [] []
--make-checks => make new <stdin> []
--make-checks|-make-checks|--input-file=in.txt|--make-lead|; |--allow-empty => make new in.txt [; ]e
--refresh=t.txt|--make-lead= => make t.txt <stdin> []
--refresh|t.txt|--make-checks => refused
--make-lead=x => refused
--make-checks|t.txt => refused";

/// What words ask for.
struct Words;

impl Tells for Words {
    fn told(&self, alloc: Global, given: &str) -> Result<Bytes, NoMemory> {
        told(alloc, given)
    }
}

#[test]
fn each_option_asks_for_something(rt: HostRuntime) -> Result<(), NoMemory> {
    each_is_told(&rt, rt.alloc(), ASKED, &Words)
}
