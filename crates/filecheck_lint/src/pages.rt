//! What the program tells of itself. Made by tools/pages of docs/help.txt.

/// What `--help` writes.
pub(crate) const HELP: &str = "usage: filecheck_lint FILE..

Tells the lines of check files that look like directives and are none. Each line
of a FILE that FileCheck reads as no directive, though it nearly is one of the
prefixes that the RUN lines of the file name, is written to standard output with
its place and with what may have been meant.

Options:
  -h, --help                  print this, where it is the only word
  --version                   print the version, where it is the only word

Statuses:
  0  there is no such line
  1  there is one
  2  the words are refused, or a file isn't there or is too large
  3  a fault of the system: reading or writing failed
  4  out of memory

Examples:
  filecheck_lint test/*.ll
      look at all tests of a directory
  filecheck_lint a.ll && echo fine
      ask about one

More: man filecheck_lint
";

/// What `--version` writes.
pub(crate) const VERSION: &str = "filecheck_lint 0.1.0 (Lubyarko, rattle-kit-13f)\n";
