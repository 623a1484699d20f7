//! What is told of an expression from its tree alone.
ghost use Rattle.std.specs.Prelude.{◌≡◌, true, false, map};
ghost use Rattle.ere_reach.specs.Moving as moving;
ghost use Rattle.ere_tree.specs.Shape.{any_has_refs, has_refs};
ghost use Rattle.ere_tree.specs.Tree.{trees_of};
ghost use Rattle.ere_tree.specs.View.{view};

use ere_tree::Ere;

/// Whether a reference stands in the expression, or one of these groups.
#[cycle(tells)]
pub(crate) fn refers_or_sets(ere: &Ere, live: &[u32]) -> bool
    ensures refers { result ≡ false → has_refs (view ere.now) ≡ false }
    ensures sets { result ≡ false → moving.sets_one (view ere.now) live.now ≡ false }
{
    match ere {
        Ere::Empty | Ere::Plain(_) | Ere::Set(_) => false,
        Ere::LineStart | Ere::LineEnd => false,
        Ere::Cat(parts) => one_refers_or_sets(parts.as_slice(), live),
        Ere::Alt(choices) => one_refers_or_sets(choices.as_slice(), live),
        Ere::Repeat { inner, .. } => refers_or_sets(inner, live),
        Ere::Group { number, inner } => live.contains(number) || refers_or_sets(inner, live),
        Ere::Ref { .. } => true,
    }
}

/// The same of at least one of them.
#[cycle(tells)]
fn one_refers_or_sets(all: &[Ere], live: &[u32]) -> bool
    ensures refers { result ≡ false → any_has_refs (trees_of (map view all.now)) ≡ false }
    ensures sets { result ≡ false → moving.one_sets_one (trees_of (map view all.now)) live.now ≡ false }
{
    for one in all {
        if refers_or_sets(one, live) {
            return true;
        }
    }
    false
}

/// Whether one of these groups stands in the expression.
#[cycle(sets)]
pub(crate) fn sets_one(ere: &Ere, live: &[u32]) -> bool
    ensures { result ≡ moving.sets_one (view ere.now) live.now }
{
    match ere {
        Ere::Empty | Ere::Plain(_) | Ere::Set(_) => false,
        Ere::LineStart | Ere::LineEnd | Ere::Ref { .. } => false,
        Ere::Cat(parts) => one_sets_one(parts.as_slice(), live),
        Ere::Alt(choices) => one_sets_one(choices.as_slice(), live),
        Ere::Repeat { inner, .. } => sets_one(inner, live),
        Ere::Group { number, inner } => live.contains(number) || sets_one(inner, live),
    }
}

/// The same of at least one of them.
#[cycle(sets)]
fn one_sets_one(all: &[Ere], live: &[u32]) -> bool
    ensures { result ≡ moving.one_sets_one (trees_of (map view all.now)) live.now }
{
    for one in all {
        if sets_one(one, live) {
            return true;
        }
    }
    false
}

/// Whether the expression spans a byte at least, as far as its tree tells.
#[cycle(moves)]
pub(crate) fn has_byte(ere: &Ere) -> bool
    ensures { result ≡ moving.has_byte (view ere.now) }
{
    match ere {
        Ere::Empty | Ere::LineStart | Ere::LineEnd | Ere::Ref { .. } => false,
        Ere::Plain(bytes) => !bytes.as_slice().is_empty(),
        Ere::Set(_) => true,
        Ere::Cat(parts) => one_has_byte(parts.as_slice()),
        Ere::Alt(choices) => each_has_byte(choices.as_slice()),
        Ere::Repeat { inner, least, .. } => *least > 0 && has_byte(inner),
        Ere::Group { inner, .. } => has_byte(inner),
    }
}

/// The same of at least one of them.
#[cycle(moves)]
fn one_has_byte(all: &[Ere]) -> bool
    ensures { result ≡ moving.one_has_byte (trees_of (map view all.now)) }
{
    for one in all {
        if has_byte(one) {
            return true;
        }
    }
    false
}

/// The same of all of them.
#[cycle(moves)]
fn each_has_byte(all: &[Ere]) -> bool
    ensures { result ≡ moving.each_has_byte (trees_of (map view all.now)) }
{
    for one in all {
        if !has_byte(one) {
            return false;
        }
    }
    true
}
