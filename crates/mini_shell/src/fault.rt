//! Why a line is refused.
ghost use Rattle.std.specs.Prelude.{◌≡◌, Err};
ghost use Rattle.mini_shell.specs.Fault.{fault_at};
ghost use Rattle.mini_shell.specs.declared.fault.ShellFail.TheVariants.{Bad};

use tt_base::NoMemory;

/// Where and why a line is refused.
#[derive(Clone, Copy, Debug, PartialEq, Eq)]
pub struct ShellFault {
    /// The offset in the line, in bytes from 0.
    pub at: usize,
    pub kind: ShellKind,
}

/// What is wrong with a line.
#[derive(Clone, Copy, Debug, PartialEq, Eq)]
pub enum ShellKind {
    /// A quote that doesn't end, as in `a 'b`, at the quote: 2. Also a backslash with nothing behind it, at itself.
    NoQuoteEnd,
    /// What looks like an operator and is none, as in `a |& f`, at its first byte: 2.
    BadOperator,
    /// A `*` or `?` that isn't quoted, as in `ls *.c`, at itself: 3.
    Glob,
    /// No command where one is wanted, as in `a && ; b`, at what stands there: 5.
    NoCommand,
    /// No word behind a redirection, as in `a >`, at what stands there or at the end: 3.
    NoTarget,
    /// A stream is redirected a second time, as in `a > f > g`, at the second redirection: 6.
    TwiceRedirected,
    /// A `cd` that isn't a whole pipe of one word and one directory, as in `cd a b`, at the word: 0.
    BadCd,
    /// A command that this shell doesn't have, as in `export A=1`, at its word: 0.
    LeftOut,
}

/// Why there is no line.
#[derive(Clone, Copy, Debug, PartialEq, Eq)]
pub enum ShellFail {
    /// The line is refused, as `a >`.
    Bad(ShellFault),
    /// Memory ran out.
    NoMemory,
}

impl From<NoMemory> for ShellFail {
    ghost use Rattle.std.specs.Prelude.{◌≡◌};
    ghost use Rattle.mini_shell.specs.declared.fault.ShellFail.TheVariants.{NoMemory};

    ghost from_gives = { λ _ fail. fail ≡ NoMemory };

    fn from(_: NoMemory) -> ShellFail {
        ShellFail::NoMemory
    }
}

/// A refusal.
pub(crate) fn refuse<T>(kind: ShellKind, at: usize) -> Result<T, ShellFail>
    ensures { result ≡ Err (Bad (fault_at kind at)) }
{
    Err(ShellFail::Bad(ShellFault { at, kind }))
}
