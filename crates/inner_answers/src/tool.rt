//! The tools that are answered inside.
ghost use Rattle.std.specs.Prelude.{◌≡◌};
ghost use Rattle.inner_answers.specs.Peeled.{tool_in, tool_of};

use tt_base::Bytes;

/// A tool that is answered inside.
#[derive(Clone, Copy, Debug, PartialEq, Eq)]
pub enum Tool {
    FileCheck,
    Count,
    Not,
}

/// The tool of a name.
pub(crate) fn tool_of(name: &[u8]) -> Option<Tool>
    ensures { result ≡ tool_of name.now }
{
    if name == b"FileCheck".as_slice() || name == b"filecheck".as_slice() {
        Some(Tool::FileCheck)
    } else if name == b"count".as_slice() {
        Some(Tool::Count)
    } else if name == b"not".as_slice() {
        Some(Tool::Not)
    } else {
        None
    }
}

/// The tool that words begin with.
pub(crate) fn tool_in(words: &[Bytes]) -> Option<Tool>
    ensures { result ≡ tool_in words.now }
{
    match words.split_first() {
        Some((name, _)) => tool_of(name.as_slice()),
        None => None,
    }
}
