//! A line of a script, as it is understood.
use tt_base::{Bytes, Items};

/// Pipes, joined from the left.
#[derive(Drop, Debug)]
pub struct Line {
    pub pipes: Items<Pipe>,
}

/// Commands, each of which reads what the one before it wrote.
#[derive(Drop, Debug)]
pub struct Pipe {
    /// What joins it to the pipe before it.
    pub join: Join,
    /// Whether a `!` before it turns its status round.
    pub inverted: bool,
    pub commands: Items<Command>,
}

/// What stands before a pipe.
#[derive(Clone, Copy, Debug, PartialEq, Eq)]
pub enum Join {
    /// Nothing: it is the line's first.
    First,
    /// `&&`
    And,
    /// `||`
    Or,
    /// `;`
    Then,
}

/// A command's words, of which there is at least one, and its redirections, each in order.
#[derive(Drop, Debug)]
pub struct Command {
    pub words: Items<Bytes>,
    pub redirs: Items<Redir>,
}

/// A redirection, and the name of its file. Where a stream is sent to the other one, the name is empty.
#[derive(Drop, Debug)]
pub struct Redir {
    pub form: RedirForm,
    pub target: Bytes,
}

/// What is redirected, and how.
#[derive(Clone, Copy, Debug, PartialEq, Eq)]
pub enum RedirForm {
    /// `< file`, or `0< file`.
    Input,
    /// `> file`, or `1> file`.
    Out,
    /// `>> file`, or `1>> file`.
    OutAppend,
    /// `2> file`
    Err,
    /// `2>> file`
    ErrAppend,
    /// `&> file`, or `>& file`: both streams.
    Both,
    /// `2>&1`
    ErrToOut,
    /// `>&2`, or `1>&2`.
    OutToErr,
}
