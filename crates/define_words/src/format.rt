//! The format of a number of the command line.
ghost use Rattle.std.specs.Prelude.{◌≡◌, None};
ghost use Rattle.std.specs.FinMap as map;
ghost use Rattle.define_words.specs.Format.{shared, word_format};
ghost use Rattle.pattern_parse.specs.Block as blocks;

use num_base::{Format, FormatKind};
use num_exprs::PlacedName;
use pattern_parse::Formats;

/// Whether a format differs from one that was seen before it.
fn differs(seen: Option<Format>, format: Format) -> bool
    ensures { result ≡ blocks.differs seen format }
{
    match seen {
        Some(before) => before != format,
        None => false,
    }
}

/// The one format of numbers, if any of them has one. There is none where two differ.
fn shared(known: &Formats, uses: &[PlacedName]) -> Option<Option<Format>>
    ensures { result ≡ shared (map.get known.now) None uses.now }
{
    let mut seen: Option<Format> = None;
    for named in uses {
        if let Some(format) = known.get(named.name.as_slice()) {
            if differs(seen, format) {
                return None;
            }
            seen = Some(format);
        }
    }
    Some(seen)
}

/// The format of numbers that may have none: `%u`.
fn format_of(seen: Option<Format>) -> Format
    ensures { result ≡ blocks.format_of None seen }
{
    match seen {
        Some(format) => format,
        None => Format {
            kind: FormatKind::Unsigned,
            alternate: false,
            digits: 0,
        },
    }
}

/// The format of a number whose expression uses these.
pub(crate) fn word_format(
    known: &Formats,
    written: Option<Format>,
    uses: &[PlacedName],
) -> Option<Format>
    ensures { result ≡ word_format (map.get known.now) written uses.now }
{
    if written.is_some() {
        return written;
    }
    match shared(known, uses) {
        Some(seen) => Some(format_of(seen)),
        None => None,
    }
}
