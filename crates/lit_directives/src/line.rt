//! What a line says.
ghost use Rattle.std.specs.Prelude.{◌≡◌};
ghost use Rattle.std.specs.List.{list_all};
ghost use Rattle.ere_tree.specs.Class.{is_blank};
ghost use Rattle.lit_directives.specs.Line.{read_line};
ghost use Rattle.lit_directives.specs.Said.{said_view};

use crate::front::is_blank;
use crate::keyword::{Keyword, Kind, length_of, mark_of};

/// What a line says: nothing, that the reading stops, or a directive and what is behind its keyword.
#[derive(Clone, Copy, Debug, PartialEq, Eq)]
pub(crate) enum Said<'a> {
    Nothing,
    Stop,
    Directive(Kind, &'a [u8]),
}

fn are_blank(text: &[u8]) -> bool
    ensures { result ≡ list_all is_blank text.now }
{
    text.iter().all(|byte| is_blank(*byte))
}

/// What a line says.
pub(crate) fn read_line(line: &[u8]) -> Said<'_>
    ensures { said_view result ≡ read_line line.now }
{
    let Some(mark) = mark_of(line) else {
        return Said::Nothing;
    };
    let rest = line.split_at(mark.at + length_of(mark.keyword)).1;
    match mark.keyword {
        Keyword::Of(kind) => Said::Directive(kind, rest),
        Keyword::End => {
            if are_blank(rest) {
                Said::Stop
            } else {
                Said::Nothing
            }
        }
    }
}
