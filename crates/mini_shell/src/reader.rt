//! From words and operators to a line.
ghost use Rattle.std.specs.Prelude.{◌≡◌, IfOk};
ghost use Rattle.mini_shell.specs.Fault.{Says};
ghost use Rattle.mini_shell.specs.Reading.{at_first, at_more, at_start, at_target, bad_cd, begun, closed, ended, is_alone, is_cd, is_left_out, is_stream, is_then, is_twice, joined, made, meet, moves_errors, moves_input, moves_output, no_command, no_pipe, none_of_it, piped, redirected, redirects, step, with_command, worded};

use crate::fault::{ShellFail, ShellKind, refuse};
use crate::line::{Command, Join, Line, Pipe, Redir, RedirForm};
use crate::token::{Token, TokenKind};
use std::alloc::Global;
use tt_base::{Bytes, Items, NoMemory};

/// What may come next.
#[derive(Clone, Copy, Debug, PartialEq, Eq)]
pub(crate) enum Wants {
    /// A pipe: a `!`, or the first word of its first command.
    Start,
    /// The first word of a command.
    First,
    /// A word, a redirection, or what ends the command.
    More,
    /// The word of a redirection.
    Target(RedirForm),
}

/// A line that is being read.
#[derive(Drop, Debug)]
pub(crate) struct Reader {
    /// The pipes that are whole.
    pub(crate) pipes: Items<Pipe>,
    /// The one at hand, with the commands that are whole.
    pub(crate) pipe: Pipe,
    /// The command at hand.
    pub(crate) command: Command,
    pub(crate) wants: Wants,
    /// Where the first `cd` of the pipe at hand stands.
    pub(crate) cd: Option<usize>,
    /// Where the first `cd` stands that isn't alone, in the pipes that are whole.
    pub(crate) bad_cd: Option<usize>,
}

/// Whether a command isn't in this shell.
fn is_left_out(word: &[u8]) -> bool
    ensures { result ≡ is_left_out word.now }
{
    word == b"export".as_slice()
        || word == b"pushd".as_slice()
        || word == b"popd".as_slice()
        || word == b"ulimit".as_slice()
        || word == b"umask".as_slice()
}

fn is_cd(word: &[u8]) -> bool
    ensures { result ≡ is_cd word.now }
{
    word == b"cd".as_slice()
}

fn moves_input(form: RedirForm) -> bool
    ensures { result ≡ moves_input form }
{
    matches!(form, RedirForm::Input)
}

fn moves_output(form: RedirForm) -> bool
    ensures { result ≡ moves_output form }
{
    matches!(
        form,
        RedirForm::Out | RedirForm::OutAppend | RedirForm::Both | RedirForm::OutToErr
    )
}

fn moves_errors(form: RedirForm) -> bool
    ensures { result ≡ moves_errors form }
{
    matches!(
        form,
        RedirForm::Err | RedirForm::ErrAppend | RedirForm::Both | RedirForm::ErrToOut
    )
}

/// Whether two redirections move the same stream.
fn meet(one: RedirForm, other: RedirForm) -> bool
    ensures { result ≡ meet one other }
{
    moves_input(one) && moves_input(other)
        || moves_output(one) && moves_output(other)
        || moves_errors(one) && moves_errors(other)
}

/// Whether a redirection moves a stream that one of these moves.
fn is_twice(form: RedirForm, redirs: &[Redir]) -> bool
    ensures { result ≡ is_twice form redirs.now }
{
    redirs.iter().any(|redir| meet(form, redir.form))
}

/// Whether a stream is sent to the other one.
fn is_stream(form: RedirForm) -> bool
    ensures { result ≡ is_stream form }
{
    matches!(form, RedirForm::ErrToOut | RedirForm::OutToErr)
}

fn is_then(join: Join) -> bool
    ensures { result ≡ is_then join }
{
    matches!(join, Join::Then)
}

/// Whether a pipe is one command with one word behind its first, and no redirection.
fn is_alone(commands: &[Command]) -> bool
    ensures { result ≡ is_alone commands.now }
{
    match commands {
        [command] => command.words.len() == 2 && command.redirs.len() == 0,
        _ => false,
    }
}

fn no_command(alloc: Global) -> Command
    ensures { result ≡ no_command }
{
    Command {
        words: Items::new(alloc),
        redirs: Items::new(alloc),
    }
}

fn no_pipe(alloc: Global, join: Join) -> Pipe
    ensures { result ≡ no_pipe join }
{
    Pipe {
        join,
        inverted: false,
        commands: Items::new(alloc),
    }
}

/// The line of these pipes, unless a `cd` is refused.
fn made(bad_cd: Option<usize>, pipes: Items<Pipe>) -> Result<Line, ShellFail>
    ensures { Says result (made bad_cd pipes) }
{
    match bad_cd {
        None => Ok(Line { pipes }),
        Some(at) => refuse(ShellKind::BadCd, at),
    }
}

/// The first `cd` that doesn't stand alone: one before, or the first one of a pipe of these commands.
fn bad_cd(before: Option<usize>, cd: Option<usize>, commands: &[Command]) -> Option<usize>
    ensures { result ≡ bad_cd before cd commands.now }
{
    match before {
        Some(at) => Some(at),
        None => { if is_alone(commands) { None } else { cd } }
    }
}

/// A pipe with a command more.
fn with_command(pipe: Pipe, command: Command) -> Result<Pipe, NoMemory>
    ensures { IfOk result (λ whole. whole ≡ with_command pipe command) }
{
    let mut commands = pipe.commands;
    commands.push(command)?;
    Ok(Pipe {
        join: pipe.join,
        inverted: pipe.inverted,
        commands,
    })
}

impl Reader {
    /// Nothing of a line.
    pub(crate) fn new(alloc: Global) -> Reader
        ensures { result ≡ none_of_it }
    {
        Reader {
            pipes: Items::new(alloc),
            pipe: no_pipe(alloc, Join::First),
            command: no_command(alloc),
            wants: Wants::Start,
            cd: None,
            bad_cd: None,
        }
    }

    /// A command that begins with this word.
    fn begun(self, alloc: Global, at: usize, word: Bytes) -> Result<Reader, ShellFail>
        ensures { Says result (begun at word self) }
    {
        if is_left_out(word.as_slice()) {
            return refuse(ShellKind::LeftOut, at);
        }
        let cd = if is_cd(word.as_slice()) {
            self.cd.or(Some(at))
        } else {
            self.cd
        };
        let mut command = no_command(alloc);
        command.words.push(word)?;
        Ok(Reader {
            pipes: self.pipes,
            pipe: self.pipe,
            command,
            wants: Wants::More,
            cd,
            bad_cd: self.bad_cd,
        })
    }

    /// The command with a redirection more.
    fn redirected(self, form: RedirForm, target: Bytes) -> Result<Reader, NoMemory>
        ensures { IfOk result (λ next. next ≡ redirected form target self) }
    {
        let mut command = self.command;
        command.redirs.push(Redir { form, target })?;
        Ok(Reader {
            pipes: self.pipes,
            pipe: self.pipe,
            command,
            wants: Wants::More,
            cd: self.cd,
            bad_cd: self.bad_cd,
        })
    }

    /// A token where a pipe begins.
    fn at_start(self, alloc: Global, token: Token) -> Result<Reader, ShellFail>
        ensures { Says result (at_start token.at token.kind self) }
    {
        let at = token.at;
        match token.kind {
            TokenKind::Word(value, is_bang) => {
                if !is_bang {
                    return self.begun(alloc, at, value);
                }
                Ok(Reader {
                    pipes: self.pipes,
                    pipe: Pipe {
                        join: self.pipe.join,
                        inverted: true,
                        commands: self.pipe.commands,
                    },
                    command: self.command,
                    wants: Wants::First,
                    cd: self.cd,
                    bad_cd: self.bad_cd,
                })
            }
            TokenKind::Pipes => refuse(ShellKind::NoCommand, at),
            TokenKind::Joins(_) => refuse(ShellKind::NoCommand, at),
            TokenKind::Redirects(_) => refuse(ShellKind::NoCommand, at),
        }
    }

    /// A token where a command begins.
    fn at_first(self, alloc: Global, token: Token) -> Result<Reader, ShellFail>
        ensures { Says result (at_first token.at token.kind self) }
    {
        let at = token.at;
        match token.kind {
            TokenKind::Word(value, _) => self.begun(alloc, at, value),
            TokenKind::Pipes => refuse(ShellKind::NoCommand, at),
            TokenKind::Joins(_) => refuse(ShellKind::NoCommand, at),
            TokenKind::Redirects(_) => refuse(ShellKind::NoCommand, at),
        }
    }

    /// The command with a word more.
    fn worded(self, word: Bytes) -> Result<Reader, NoMemory>
        ensures { IfOk result (λ next. next ≡ worded word self) }
    {
        let mut command = self.command;
        command.words.push(word)?;
        Ok(Reader {
            pipes: self.pipes,
            pipe: self.pipe,
            command,
            wants: Wants::More,
            cd: self.cd,
            bad_cd: self.bad_cd,
        })
    }

    /// A `|` behind the command.
    fn piped(self, alloc: Global) -> Result<Reader, NoMemory>
        ensures { IfOk result (λ next. next ≡ piped self) }
    {
        Ok(Reader {
            pipes: self.pipes,
            pipe: with_command(self.pipe, self.command)?,
            command: no_command(alloc),
            wants: Wants::First,
            cd: self.cd,
            bad_cd: self.bad_cd,
        })
    }

    /// What joins the next pipe, behind the command.
    fn joined(self, alloc: Global, join: Join) -> Result<Reader, NoMemory>
        ensures { IfOk result (λ next. next ≡ joined join self) }
    {
        let pipe = with_command(self.pipe, self.command)?;
        let bad_cd = bad_cd(self.bad_cd, self.cd, pipe.commands.as_slice());
        let mut pipes = self.pipes;
        pipes.push(pipe)?;
        Ok(Reader {
            pipes,
            pipe: no_pipe(alloc, join),
            command: no_command(alloc),
            wants: Wants::Start,
            cd: None,
            bad_cd,
        })
    }

    /// A redirection behind the command.
    fn redirects(self, alloc: Global, at: usize, form: RedirForm) -> Result<Reader, ShellFail>
        ensures { Says result (redirects at form self) }
    {
        if is_twice(form, self.command.redirs.as_slice()) {
            return refuse(ShellKind::TwiceRedirected, at);
        }
        if is_stream(form) {
            return Ok(self.redirected(form, Bytes::new(alloc))?);
        }
        Ok(Reader {
            pipes: self.pipes,
            pipe: self.pipe,
            command: self.command,
            wants: Wants::Target(form),
            cd: self.cd,
            bad_cd: self.bad_cd,
        })
    }

    /// A token in a command, behind its first word.
    fn at_more(self, alloc: Global, token: Token) -> Result<Reader, ShellFail>
        ensures { Says result (at_more token.at token.kind self) }
    {
        match token.kind {
            TokenKind::Word(value, _) => Ok(self.worded(value)?),
            TokenKind::Pipes => Ok(self.piped(alloc)?),
            TokenKind::Joins(join) => Ok(self.joined(alloc, join)?),
            TokenKind::Redirects(form) => self.redirects(alloc, token.at, form),
        }
    }

    /// A token behind a redirection.
    fn at_target(self, form: RedirForm, token: Token) -> Result<Reader, ShellFail>
        ensures { Says result (at_target form token.at token.kind self) }
    {
        match token.kind {
            TokenKind::Word(value, _) => Ok(self.redirected(form, value)?),
            TokenKind::Pipes => refuse(ShellKind::NoTarget, token.at),
            TokenKind::Joins(_) => refuse(ShellKind::NoTarget, token.at),
            TokenKind::Redirects(_) => refuse(ShellKind::NoTarget, token.at),
        }
    }

    /// A token more.
    pub(crate) fn step(self, alloc: Global, token: Token) -> Result<Reader, ShellFail>
        ensures { Says result (step self token) }
    {
        match self.wants {
            Wants::Start => self.at_start(alloc, token),
            Wants::First => self.at_first(alloc, token),
            Wants::More => self.at_more(alloc, token),
            Wants::Target(form) => self.at_target(form, token),
        }
    }

    /// The line behind its last command.
    fn closed(self) -> Result<Line, ShellFail>
        ensures { Says result (closed self) }
    {
        let pipe = with_command(self.pipe, self.command)?;
        let bad_cd = bad_cd(self.bad_cd, self.cd, pipe.commands.as_slice());
        let mut pipes = self.pipes;
        pipes.push(pipe)?;
        made(bad_cd, pipes)
    }

    /// The line that ends at an offset.
    pub(crate) fn ended(self, at: usize) -> Result<Line, ShellFail>
        ensures { Says result (ended self at) }
    {
        match self.wants {
            Wants::Start => {
                if is_then(self.pipe.join) {
                    made(self.bad_cd, self.pipes)
                } else {
                    refuse(ShellKind::NoCommand, at)
                }
            }
            Wants::First => refuse(ShellKind::NoCommand, at),
            Wants::More => self.closed(),
            Wants::Target(_) => refuse(ShellKind::NoTarget, at),
        }
    }
}
