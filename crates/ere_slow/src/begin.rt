//! Whether an expression can match from a place at all, as what stands there tells.
ghost use Rattle.std.specs.Prelude.{◌≡◌, false};
ghost use Rattle.ere_tree.specs.Tree.{cat};
ghost use Rattle.ere_tree.specs.View.{view, trees_in};
ghost use Rattle.ere_slow.specs.Slow.{DerivesNothing};

use crate::slow::{is_in_set_at, stands_at};
use ere_tree::{Ere, EreList};

/// Whether a derivation may begin at the place. A `false` is sure.
#[cycle(begins)]
pub(crate) fn may_begin(ere: &Ere, text: &[u8], at: usize) -> bool
    ensures { result ≡ false → DerivesNothing text.now (view ere.now) at }
{
    match ere {
        Ere::Plain(run) => stands_at(text, at, run.as_slice(), false),
        Ere::Set(set) => is_in_set_at(set, text, at),
        Ere::Cat(all) => may_begin_row(all, text, at),
        Ere::Group { inner, .. } => may_begin(inner, text, at),
        Ere::Repeat { inner, least, .. } => *least == 0 || may_begin(inner, text, at),
        Ere::Empty | Ere::LineStart | Ere::LineEnd | Ere::Alt(_) | Ere::Ref { .. } => true,
    }
}

/// The same of parts one behind the other.
#[cycle(begins)]
fn may_begin_row(all: &EreList, text: &[u8], at: usize) -> bool
    ensures { result ≡ false → DerivesNothing text.now (cat (trees_in all.now)) at }
{
    match all.as_slice() {
        [first, ..] => may_begin(first, text, at),
        [] => true,
    }
}
