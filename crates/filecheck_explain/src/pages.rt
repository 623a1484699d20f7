//! What the program tells of itself. Made by tools/pages of docs/help.txt.

/// What `--help` writes.
pub(crate) const HELP: &str = "usage: filecheck_explain FILE [OPTION..] < INPUT

Checks as filecheck does, and tells why a check may have failed. What filecheck
writes is written, with its status. Behind each message, of the first twenty,
stand the value of each variable that the directive uses, the names that have
none, and the line of the input that may have been meant. The options are those
of filecheck; words in the variable FILECHECK_OPTS come before those of the
command line.

Options:
  -h, --help                  print this, where it is the only word
  --version                   print the version, where it is the only word

Statuses:
  0  every directive matches
  1  one doesn't; the message says which, and the notes why that may be
  2  the words, the check file or the input are refused
  3  a fault of the system: reading or writing failed
  4  out of memory

Examples:
  filecheck_explain checks.txt < output.txt
      ask why a check failed
  filecheck_explain a.ll --input-file=a.out --check-prefix=ASM
      with options of filecheck

More: man filecheck_explain
";

/// What `--version` writes.
pub(crate) const VERSION: &str = "filecheck_explain 0.1.0 (Lubyarko, rattle-kit-13f)\n";
