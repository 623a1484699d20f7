//! What the program tells of itself. Made by tools/pages of docs/help.txt.

/// What `--help` writes.
pub(crate) const HELP: &str = "usage: count N < INPUT

Tells whether the input has N lines. Another number of lines is reported on
standard error.

Options:
  -h, --help                  print this, where it is the only word
  --version                   print the version, where it is the only word

Statuses:
  0  the input has N lines
  1  it has another number
  2  the words are refused, or the input is too long
  3  a fault of the system
  4  out of memory

Examples:
  grep -c x a.txt | count 1
      one line came
  count 0 < errors.txt
      a file without a line

More: man count
";

/// What `--version` writes.
pub(crate) const VERSION: &str = "count 0.1.0 (Lubyarko, rattle-kit-13f)\n";
