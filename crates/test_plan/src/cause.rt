//! Why a test has no result of its own.
use lit_directives::ScriptFault;
use mini_shell::ShellKind;

/// Why a test is unresolved.
#[derive(Clone, Copy, Debug, PartialEq, Eq)]
pub enum Cause {
    /// Its file is no script.
    Script(ScriptFault),
    /// A RUN line is refused.
    Shell(ShellKind),
    /// A RUN line, or a stage of it, is too long where it is expanded.
    TooLong,
    /// There is no file.
    MissingTest,
    /// A fault of the outside.
    Broken,
    /// A file or a stream is larger than the limit.
    TooLarge,
    /// More bytes would be kept than a test may keep.
    TooMuch,
}
