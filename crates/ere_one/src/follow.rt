//! What stands behind a part of an expression.
ghost use Rattle.std.specs.Prelude.{map};
ghost use Rattle.ere_tree.specs.Tree.{cat, plain, trees_of};
ghost use Rattle.ere_tree.specs.View.{view};
ghost use Rattle.ere_one.specs.Walk.{BeginsAs, Precedes};

use ere_tree::Ere;

/// What stands behind a part.
#[derive(Clone, Copy, Debug, PartialEq, Eq)]
pub(crate) enum Follow {
    /// Nothing: the longest span is wanted.
    End,
    /// This byte, or the slice's end.
    Byte(u8),
    /// Nothing is known of it.
    Any,
}

fn first_byte(bytes: &[u8]) -> Follow
    ensures { BeginsAs result (plain bytes.now) }
{
    if bytes.is_empty() {
        Follow::Any
    } else {
        Follow::Byte(bytes[0])
    }
}

/// How an expression begins.
#[cycle(begin)]
fn begin_of(ere: &Ere) -> Follow
    ensures { BeginsAs result (view ere.now) }
{
    match ere {
        Ere::Plain(run) => first_byte(run.as_slice()),
        Ere::LineEnd => Follow::Byte(b'\n'),
        Ere::Group { inner, .. } => begin_of(inner),
        Ere::Cat(parts) => begin_of_all(parts.as_slice()),
        Ere::Empty | Ere::Set(_) | Ere::LineStart => Follow::Any,
        Ere::Alt(_) | Ere::Repeat { .. } | Ere::Ref { .. } => Follow::Any,
    }
}

#[cycle(begin)]
fn begin_of_all(parts: &[Ere]) -> Follow
    ensures { BeginsAs result (cat (trees_of (map view parts.now))) }
{
    match parts.split_first() {
        Some((part, _)) => begin_of(part),
        None => Follow::Any,
    }
}

/// What stands behind a part that has these parts behind it.
pub(crate) fn behind(rest: &[Ere], follow: Follow) -> Follow
    ensures { Precedes follow result (trees_of (map view rest.now)) }
{
    match rest.split_first() {
        Some((part, _)) => begin_of(part),
        None => follow,
    }
}
