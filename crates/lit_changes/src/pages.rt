//! What the program tells of itself. Made by tools/pages of docs/help.txt.

/// What `--help` writes.
pub(crate) const HELP: &str = "usage: lit_changes OLD NEW

Tells what changed between two JSON reports of lit. OLD and NEW are files, each
with a report of lit --json. For each test whose result differs, or that one of
them lacks, a line with the path of the test and both results is written to
standard output, and behind these how many there are.

Options:
  -h, --help                  print this, where it is the only word
  --version                   print the version, where it is the only word

Statuses:
  0  nothing changed
  1  something did
  2  the words are refused, or a file isn't there, is too large or has no such
     report
  3  a fault of the system: reading or writing failed
  4  out of memory

Examples:
  lit --json tests > new.json; lit_changes old.json new.json
      what changed since the last run
  lit_changes old.json new.json > /dev/null && echo same
      ask whether it is the same

More: man lit_changes
";

/// What `--version` writes.
pub(crate) const VERSION: &str = "lit_changes 0.1.0 (Lubyarko, rattle-kit-13f)\n";
