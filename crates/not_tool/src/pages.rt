//! What the program tells of itself. Made by tools/pages of docs/help.txt.

/// What `--help` writes.
pub(crate) const HELP: &str = "usage: not [--crash] COMMAND [WORD..] < INPUT

Runs a command, and turns round whether it succeeds. COMMAND is run with
standard input, and what it wrote is written on when it has ended. Words behind
COMMAND are its own.

Options:
  --crash                     succeed only where a signal ended the command
  -h, --help                  print this, where it is the only word
  --version                   print the version, where it is the only word

Statuses:
  0  the command ended with another status than 0; with --crash, by a signal
  1  it ended otherwise, or there is no such program
  2  the words are refused, or the input or an output is too large
  3  a fault of the system
  4  out of memory

Examples:
  not cc broken.c
      succeeds where the compiler fails
  not --crash ./aborts
      succeeds where a signal ended it

More: man not
";

/// What `--version` writes.
pub(crate) const VERSION: &str = "not 0.1.0 (Lubyarko, rattle-kit-13f)\n";
