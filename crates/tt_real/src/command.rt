//! The command of a request.
ghost use Rattle.std.specs.Prelude.{◌≡◌, ◌++◌, IfOk, OnOk, Some};
ghost use Rattle.std.specs.Process.{SameEnv, SameOtherVars, SameProgramAndArgs, clears_env, command_args, command_program, command_var};
ghost use Rattle.tt_real.specs.Command.{IsCommand, SaysMore};

use std::alloc::Global;
use std::process::{Command, Stdio};
use std::str;
use tt_base::{Bytes, Items, NoMemory};
use tt_outside::Pair;

/// Why a command couldn't be made.
#[derive(Clone, Copy)]
pub(crate) enum CommandFault {
    /// There are no words, or one of its texts isn't UTF-8.
    NotText,
    NoMemory,
}

/// The command of words, run in a directory with this environment beside the inherited one.
pub(crate) fn command_of(
    alloc: Global,
    words: &Items<Bytes>,
    dir: &Bytes,
    env: &Items<Pair>,
) -> Result<Command, CommandFault>
    ensures { IfOk result (λ command. IsCommand command words.now dir.now env.now) }
{
    let [program, rest @ ..] = words.as_slice() else {
        return Err(CommandFault::NotText);
    };
    let Ok(mut command) = Command::new(alloc, text(program)?) else {
        return Err(CommandFault::NoMemory);
    };
    add_words(&mut command, rest)?;
    add_pairs(&mut command, env.as_slice())?;
    match command.current_dir(text(dir)?) {
        Ok(_) => {}
        Err(_) => return Err(CommandFault::NoMemory),
    }
    command.stdout(Stdio::piped());
    command.stderr(Stdio::piped());
    Ok(command)
}

/// Adds words to those of a command.
fn add_words(command: &mut Command, words: &[Bytes]) -> Result<(), CommandFault>
    ensures words { OnOk result (command_args command.new ≡ command_args command.old ++ words.now) }
    ensures program { OnOk result (command_program command.new ≡ command_program command.old) }
    ensures env { OnOk result (SameEnv command.old command.new) }
{
    for word in words {
        match command.arg(text(word)?) {
            Ok(_) => {}
            Err(_) => return Err(CommandFault::NoMemory),
        }
    }
    Ok(())
}

/// Adds variables to those of a command.
fn add_pairs(command: &mut Command, env: &[Pair]) -> Result<(), CommandFault>
    ensures vars { OnOk result (SaysMore env.now command.old command.new) }
    ensures call { OnOk result (SameProgramAndArgs command.old command.new) }
    ensures clears { OnOk result (clears_env command.new ≡ clears_env command.old) }
{
    for pair in env {
        add_pair(command, pair)?;
    }
    Ok(())
}

/// Adds a variable.
fn add_pair(command: &mut Command, pair: &Pair) -> Result<(), CommandFault>
    ensures set { OnOk result (command_var command.new pair.now.name ≡ Some (Some pair.now.value)) }
    ensures others { OnOk result (SameOtherVars command.old command.new pair.now.name) }
    ensures call { OnOk result (SameProgramAndArgs command.old command.new) }
    ensures clears { OnOk result (clears_env command.new ≡ clears_env command.old) }
{
    match command.env(text(&pair.name)?, text(&pair.value)?) {
        Ok(_) => Ok(()),
        Err(_) => Err(CommandFault::NoMemory),
    }
}

/// Bytes as text.
fn text(bytes: &Bytes) -> Result<&str, CommandFault>
    ensures { IfOk result (λ text. text.now ≡ bytes.now) }
{
    match str::from_utf8(bytes.as_slice()) {
        Ok(text) => Ok(text),
        Err(_) => Err(CommandFault::NotText),
    }
}
