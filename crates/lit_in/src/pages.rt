//! What the program tells of itself. Made by tools/pages of docs/help.txt.

/// What `--help` writes.
pub(crate) const HELP: &str = "usage: lit_in PATH.. [OPTION..]

Does what lit does, but answers FileCheck, count and not by itself. A command
whose first word is FileCheck, filecheck, count or not is answered without a
program of that name; all others are run as lit runs them. The report is that of
lit. Words in the variable LIT_OPTS come before those of the command line.

Options:
  -q                          show only what failed, without transcripts
  -v                          show the transcripts of tests that failed
  -a                          show all transcripts
  -j N, --workers=N           how many tests may run side by side, 1 to 64; 1 by
                              default
  --select=REGEX              keep the tests in whose name REGEX is found
  --drop=REGEX                of those, drop the tests in whose name REGEX is
                              found
  --num-shards=N              split the tests into N parts
  --run-shard=N               and run part N of them, from 1 on
  --show-tests                show the names of the tests, and run none
  --json                      write the report in JSON, at the end of the run
  -h, --help                  print this, where it is the only word
  --version                   print the version, where it is the only word

Statuses:
  0  no test is FAIL, XPASS or UNRESOLVED
  1  one is
  2  the words, a path or a suite are refused, or tests kept too many bytes
  3  a fault of the system: reading the tree or writing failed
  4  out of memory

Examples:
  lit_in -j 8 tests
      run a suite whose tests pipe into FileCheck
  lit_in -v tests/calls/puts.test
      run one test, and show what failed

More: man lit_in
";

/// What `--version` writes.
pub(crate) const VERSION: &str = "lit_in 0.1.0 (Lubyarko, rattle-kit-13f)\n";
