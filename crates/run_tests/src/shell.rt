//! Lines as they are understood, and refused ones with the place of the refusal.
use crate::rows::{Tells, each_is_told, in_bytes, no_row};
use mini_shell::{Command, Join, Line, Redir, RedirForm, ShellFail, ShellFault, parse_line};
use std::alloc::Global;
use tt_base::{Bytes, NoMemory};

fn join_text(join: Join) -> &'static [u8] {
    match join {
        Join::First => b":",
        Join::And => b"&&",
        Join::Or => b"||",
        Join::Then => b";",
    }
}

fn form_text(form: RedirForm) -> &'static [u8] {
    match form {
        RedirForm::Input => b"<",
        RedirForm::Out => b">",
        RedirForm::OutAppend => b">>",
        RedirForm::Err => b"2>",
        RedirForm::ErrAppend => b"2>>",
        RedirForm::Both => b"&>",
        RedirForm::ErrToOut => b"2>&1",
        RedirForm::OutToErr => b">&2",
    }
}

fn show_words(out: &mut Bytes, words: &[Bytes]) -> Result<(), NoMemory> {
    for word in words {
        out.append(b"[")?;
        out.append(word.as_slice())?;
        out.append(b"]")?;
    }
    Ok(())
}

fn show_redirs(out: &mut Bytes, redirs: &[Redir]) -> Result<(), NoMemory> {
    for redir in redirs {
        out.append(b"{")?;
        out.append(form_text(redir.form))?;
        out.append(redir.target.as_slice())?;
        out.append(b"}")?;
    }
    Ok(())
}

/// Writes commands in parentheses: words in brackets, and redirections in braces.
fn show_commands(out: &mut Bytes, commands: &[Command]) -> Result<(), NoMemory> {
    for command in commands {
        out.append(b"(")?;
        show_words(out, command.words.as_slice())?;
        show_redirs(out, command.redirs.as_slice())?;
        out.append(b")")?;
    }
    Ok(())
}

/// What a line is, written with its commands in parentheses.
fn shown(alloc: Global, line: &Line) -> Result<Bytes, NoMemory> {
    let mut out = Bytes::new(alloc);
    for pipe in line.pipes.as_slice() {
        out.append(join_text(pipe.join))?;
        if pipe.inverted {
            out.append(b"!")?;
        }
        show_commands(&mut out, pipe.commands.as_slice())?;
    }
    Ok(out)
}

/// What is wrong, and where.
fn refusal(alloc: Global, fault: ShellFault) -> Result<Bytes, NoMemory> {
    let ShellFault { kind, at } = fault;
    in_bytes(alloc, format!(in alloc; "{kind:?} {at}"))
}

/// What was read of a line, or what is wrong with it and where.
fn told_of(alloc: Global, read: &Result<Line, ShellFail>) -> Result<Bytes, NoMemory> {
    match read {
        Ok(line) => shown(alloc, line),
        Err(ShellFail::Bad(fault)) => refusal(alloc, *fault),
        Err(ShellFail::NoMemory) => Err(NoMemory),
    }
}

/// What a line is, or what is wrong with it and where.
fn told(alloc: Global, text: &[u8]) -> Result<Bytes, NoMemory> {
    let read = parse_line(alloc, text);
    told_of(alloc, &read)
}

/// What a line is.
struct Lines;

impl Tells for Lines {
    fn told(&self, alloc: Global, given: &str) -> Result<Bytes, NoMemory> {
        told(alloc, given.as_bytes())
    }
}

/// Lines, and what they are.
const LINES: &str = "a 2>&1 | b && ! c > f; d => :([a]{2>&1})([b])&&!([c]{>f});([d])
a||b\t;c ; => :([a])||([b]);([c])
a<f>g 2>>h => :([a]{<f}{>g}{2>>h})
a 0< f 1> g 2> h => :([a]{<f}{>g}{2>h})
a >> f 2>&1; a 1>> f => :([a]{>>f}{2>&1});([a]{>>f})
a &> f; a >& f; a >& 2 => :([a]{&>f});([a]{&>f});([a]{&>2})
a >&2; a 1>&2<f => :([a]{>&2});([a]{>&2}{<f})
a 2>&1>f | b => :([a]{2>&1}{>f})([b])
a > f b 2x<g => :([a][b][2x]{>f}{<g})
a \"2\">f 3 => :([a][2][3]{>f})
! ! a | ! b => :!([!][a])([!][b])
\\! a => :([!][a])
a 'b c'\"d\\\"e\\f*\"\\*'?`' '' \"\" => :([a][b cd\"e\\f**?`][][])
a $b #[c] {d} ~ e(f) => :([a][$b][#[c]][{d}][~][e(f)])
cd a && ! 'c'd 'b c'; e cd => :([cd][a])&&!([cd][b c]);([e][cd])
exports; a export => :([exports]);([a][export])";

#[test]
fn lines_are_pipes_of_commands(rt: HostRuntime) -> Result<(), NoMemory> {
    each_is_told(&rt, rt.alloc(), LINES, &Lines)
}

/// Refused lines; what is wrong with them, and where.
const REFUSED: &str = "a 'b => NoQuoteEnd 2
a \"b\\\" => NoQuoteEnd 2
a\\ => NoQuoteEnd 1
a |& f => BadOperator 2
a & b => BadOperator 2
a << b => BadOperator 2
a &>> f => BadOperator 2
a ||| b => BadOperator 2
a >&1 => BadOperator 2
a >&22 => BadOperator 2
a 2>&2 => BadOperator 2
a 1>& f => BadOperator 2
a 33> f => BadOperator 2
a b`c` => BadOperator 3
(a) => BadOperator 0
a ) => BadOperator 2
ls *.c => Glob 3
ls a? => Glob 4
 => NoCommand 0
   => NoCommand 2
&& a => NoCommand 0
a && ; b => NoCommand 5
a |  => NoCommand 4
a ;; b => NoCommand 3
> f a => NoCommand 0
! => NoCommand 1
a > => NoTarget 3
a > 2> f => NoTarget 4
a > > f => NoTarget 4
a > f > g => TwiceRedirected 6
a &> f 2>&1 => TwiceRedirected 7
a 2> f 2>&1 => TwiceRedirected 7
a < f 0< g => TwiceRedirected 6
a | export B => LeftOut 4
'umask' 3> f => LeftOut 0
a; cd => BadCd 3
cd a > f => BadCd 0
a | cd b => BadCd 4
'c'd a b; cd => BadCd 0
cd a b; ls * => Glob 11
a > * => Glob 4";

#[test]
fn refused_lines_tell_the_first_place(rt: HostRuntime) -> Result<(), NoMemory> {
    each_is_told(&rt, rt.alloc(), REFUSED, &Lines)
}

/// What is wrong with a line and where; nothing of lines that are read.
fn refused(alloc: Global, text: &[u8]) -> Result<Bytes, NoMemory> {
    match parse_line(alloc, text).err() {
        Some(ShellFail::Bad(fault)) => refusal(alloc, fault),
        Some(ShellFail::NoMemory) => Err(NoMemory),
        None => Ok(Bytes::new(alloc)),
    }
}

/// The same of as many of a byte as a line may have.
fn told_of_many(alloc: Global, byte: u8) -> Result<Bytes, NoMemory> {
    let many = vec![in alloc; byte; 1 << 20].or(Err(NoMemory))?;
    refused(alloc, many.as_slice())
}

/// What is told of as many of a byte.
struct Many;

impl Tells for Many {
    fn told(&self, alloc: Global, given: &str) -> Result<Bytes, NoMemory> {
        match given.as_bytes() {
            [byte] => told_of_many(alloc, *byte),
            _ => no_row(alloc),
        }
    }
}

/// A byte, and what is told of as many as a line may have.
const MANY: &str = "\" => 
a => 
1 => 
! => 
; => NoCommand 0
( => BadOperator 0
| => BadOperator 0
> => BadOperator 0
  => NoCommand 1048576";

#[test]
fn long_lines_of_one_byte_are_answered(rt: HostRuntime) -> Result<(), NoMemory> {
    each_is_told(&rt, rt.alloc(), MANY, &Many)
}

/// Whether a text is read or refused.
fn is_answered(alloc: Global, text: &[u8]) -> bool {
    !matches!(parse_line(alloc, text).err(), Some(ShellFail::NoMemory))
}

#[test]
fn each_byte_and_each_pair_is_answered(rt: HostRuntime) {
    let alloc = rt.alloc();
    for first in 0..=255u8 {
        assert!(rt; is_answered(alloc, &[first]), "{first}");
        for second in 0..=255u8 {
            assert!(rt; is_answered(alloc, &[first, second]), "{first} {second}");
        }
    }
}
