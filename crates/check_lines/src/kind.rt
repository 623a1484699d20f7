//! The kinds of directives: how each is spelled, and what it asks for.
ghost use Rattle.std.specs.Prelude.{◌≡◌, ◌≤◌, IfSome, false, length};
ghost use Rattle.check_lines.specs.Kind.{is_earlier, is_other, named, row_of, suffix_of};

use pattern_parse::{Demand, LineRule, Role};

/// A kind of directive.
#[derive(Clone, Copy, Debug, PartialEq, Eq)]
pub enum Kind {
    /// `CHECK:`: somewhere behind the match before.
    Plain,
    /// `CHECK-NEXT:`: on the line after the match before.
    Next,
    /// `CHECK-SAME:`: on the line of the match before.
    Same,
    /// `CHECK-EMPTY:`: the line after the match before is empty.
    Empty,
    /// `CHECK-NOT:`: nowhere between two matches.
    Not,
    /// `CHECK-DAG:`: in any order with those beside it.
    Dag,
    /// `CHECK-LABEL:`: where a block of the input ends.
    Label,
    /// `CHECK-COUNT-3:`: so often, one match behind the other.
    Count(u32),
}

/// What differs between kinds.
#[derive(Drop)]
pub struct KindRow {
    /// What stands between a prefix and its colon; a COUNT has its number behind it.
    pub suffix: &'static [u8],
    pub demand: Demand,
    /// How many of its matches were found is told.
    pub counted: bool,
}

/// The kinds that a suffix alone names.
const SUFFIXED: [Kind; 6] = [
    Kind::Next,
    Kind::Dag,
    Kind::Not,
    Kind::Same,
    Kind::Empty,
    Kind::Label,
];

fn once(suffix: &'static [u8], role: Role, rule: LineRule) -> KindRow
    ensures suffix { result.suffix.now ≡ suffix.now }
    ensures demand { result.demand ≡ record { role = role; rule = rule; times = 1 } }
    ensures counted { result.counted ≡ false }
{
    KindRow {
        suffix,
        demand: Demand {
            role,
            rule,
            times: 1,
        },
        counted: false,
    }
}

/// The row of a kind.
pub fn row_of(kind: Kind) -> KindRow
    ensures suffix { result.suffix.now ≡ (row_of kind).suffix }
    ensures demand { result.demand ≡ (row_of kind).demand }
    ensures counted { result.counted ≡ (row_of kind).counted }
{
    match kind {
        Kind::Plain => once(b"", Role::Sought, LineRule::Any),
        Kind::Next => once(b"-NEXT", Role::Sought, LineRule::Next),
        Kind::Same => once(b"-SAME", Role::Sought, LineRule::Same),
        Kind::Empty => once(b"-EMPTY", Role::Sought, LineRule::Empty),
        Kind::Not => once(b"-NOT", Role::Excluded, LineRule::Any),
        Kind::Dag => once(b"-DAG", Role::Unordered, LineRule::Any),
        Kind::Label => once(b"-LABEL", Role::Label, LineRule::Any),
        Kind::Count(times) => KindRow {
            suffix: b"-COUNT",
            demand: Demand {
                role: Role::Sought,
                rule: LineRule::Any,
                times,
            },
            counted: true,
        },
    }
}

/// The kind whose suffix begins a text, if one does.
pub(crate) fn named(text: &[u8]) -> Option<Kind>
    ensures value { result ≡ named text.now }
    ensures lies { IfSome result (λ kind. length (suffix_of kind) ≤ length text.now) }
{
    for kind in &SUFFIXED {
        if text.starts_with(row_of(*kind).suffix) {
            return Some(*kind);
        }
    }
    None
}

/// Whether a NOT can't be combined with a kind.
pub(crate) fn is_other(kind: Kind) -> bool
    ensures { result ≡ is_other kind }
{
    let demand = row_of(kind).demand;
    demand.rule.asks_line() || demand.role.is_unordered()
}

/// Whether a kind counts as an earlier match.
pub(crate) fn is_earlier(kind: Kind) -> bool
    ensures { result ≡ is_earlier kind }
{
    let role = row_of(kind).demand.role;
    !role.is_excluded() && !role.is_unordered()
}
