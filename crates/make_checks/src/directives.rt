//! The directives of an output, one by one.
ghost use Rattle.std.specs.Prelude.{◌≡◌, ◌∷◌, ◌++◌, [], map};
ghost use Rattle.make_checks.specs.Directives.{IsParted, directive_text, directives_left, last_not};
ghost use Rattle.make_checks.specs.Made.{lines_behind};
ghost use Rattle.file_laws.specs.Made.{next_of};
ghost use Rattle.make_checks.specs.declared.directives.Left.TheVariants.{Front};

use crate::lines::first_line;

/// The NOT in front of all lines, and the one at the end.
const FRONT: &[u8] = b"CHECK-NOT: {{.|[[:space:]]}}";

const LAST: &[u8] = b"CHECK-NOT: {{.}}";

/// A directive that is made.
#[derive(Clone, Copy, Debug)]
pub(crate) enum Directive<'a> {
    /// One that is written as it is.
    Plain(&'static [u8]),
    /// One that asks for a line of the output behind these words.
    Asks(&'static [u8], &'a [u8]),
}

/// The directives of lines that are left.
#[derive(Clone, Copy, Debug)]
pub(crate) enum Left<'a> {
    /// All of them.
    Front(&'a [u8]),
    /// Those from the first line on.
    First(&'a [u8]),
    /// Those from a further line on.
    Further(&'a [u8]),
    /// The one at the end.
    Last,
    Done,
}

/// What is left behind a line, where the further ones are known.
fn behind<'a>(rest: Option<&'a [u8]>) -> Left<'a>
    ensures { directives_left result ≡ map next_of (lines_behind rest.entry) ++ last_not ∷ [] }
{
    match rest {
        Some(lines) => Left::Further(lines),
        None => Left::Last,
    }
}

/// The directive of a line behind another.
fn next_of<'a>(line: &'a [u8]) -> Directive<'a>
    ensures { directive_text result ≡ next_of line.now }
{
    if line.is_empty() {
        Directive::Plain(b"CHECK-EMPTY:")
    } else {
        Directive::Asks(b"CHECK-NEXT: ", line)
    }
}

/// The first of the directives that are left, and those behind it.
pub(crate) fn parted<'a>(left: Left<'a>) -> Option<(Directive<'a>, Left<'a>)>
    ensures { IsParted (directives_left left.entry) result }
{
    match left {
        Left::Front(lines) => Some(front_of(lines)),
        Left::First(lines) => {
            let (line, rest) = first_line(lines);
            Some((Directive::Asks(b"CHECK: ", line), behind(rest)))
        }
        Left::Further(lines) => {
            let (line, rest) = first_line(lines);
            Some((next_of(line), behind(rest)))
        }
        Left::Last => Some((Directive::Plain(LAST), Left::Done)),
        Left::Done => None,
    }
}

/// The NOT in front of lines, and what is left behind it; there is one NOT where there are no lines.
fn front_of<'a>(lines: &'a [u8]) -> (Directive<'a>, Left<'a>)
    ensures { directives_left (Front lines.entry) ≡ directive_text result.0 ∷ directives_left result.1 }
{
    if lines.is_empty() {
        (Directive::Plain(LAST), Left::Done)
    } else {
        (Directive::Plain(FRONT), Left::First(lines))
    }
}
