//! What the program tells of itself. Made by tools/pages of docs/help.txt.

/// What `--help` writes.
pub(crate) const HELP: &str = "usage: filecheck FILE [OPTION..] < INPUT

Tells whether a text has what the directives of a check file ask for. The
directives of FILE, CHECK: and its kin, are matched one after the other with
standard input, or with the file that --input-file names. What doesn't match is
reported on standard error, with its places in both. Words in the variable
FILECHECK_OPTS come before those of the command line.

Options:
  --input-file=FILE           the file with the input; - is standard input
  --check-prefix=PREFIX       directives begin with PREFIX instead of CHECK; may
                              be given again
  --check-prefixes=PREFIXES   the same for several, with commas between
  --comment-prefixes=PREFIXES
                              prefixes of comments, instead of COM and RUN
  --allow-unused-prefixes     a check prefix may be used by no directive
  --match-full-lines          a match begins and ends where a line does, but for
                              spaces
  --strict-whitespace         each blank counts; without it a run of them is one
                              space
  --ignore-case               letters match in either case
  --implicit-check-not=PATTERN
                              a NOT of PATTERN between all matches
  -DNAME=TEXT                 the text variable NAME is TEXT
  -D#NAME=EXPR                the numeric variable NAME is EXPR; before it a
                              format and a comma may stand: -D#%x,N=11
  --enable-var-scope          variables without a $ end with their LABEL block
  --allow-empty               an empty input is taken
  --dump-input=WHEN           show the input with what failed: never, as by
                              default, fail or always
  --dump-input-context=N      with fail, N lines on either side of one with a
                              mark; 5 by default
  --dump-input-filter=FILTER  show all lines, or those of an error: all or error
  --make-checks               write a check file that takes this input and no
                              other; without FILE
  --make-lead=TEXT            what stands before each directive that is made
  --refresh=FILE              the same, behind the lines of FILE that hold no
                              directive; this is the only FILE
  --generate=N                time a made run of N lines; no file is read
  -h, --help                  print this, where it is the only word
  --version                   print the version, where it is the only word

Statuses:
  0  every directive matches
  1  one doesn't; the message says which
  2  the words, the check file or the input are refused
  3  a fault of the system: reading or writing failed
  4  out of memory

Examples:
  filecheck checks.txt < output.txt
      check what a compiler wrote
  cc -S -o - a.c | filecheck a.c --check-prefix=ASM
      directives in comments of the source

More: man filecheck
";

/// What `--version` writes.
pub(crate) const VERSION: &str = "filecheck 0.1.0 (Lubyarko, rattle-kit-13f)\n";
