//! Which groups stand in an expression, and which its references name.
ghost use Rattle.std.specs.Prelude.{◌≡◌, true, map};
ghost use Rattle.ere_tree.specs.Tree.{trees_of};
ghost use Rattle.ere_tree.specs.View.{view};
ghost use Rattle.ere_refs.specs.Lists.{TellsAll};
ghost use Rattle.ere_refs.specs.Refers as refer;
ghost use Rattle.ere_refs.specs.Sets as groups;

use ere_tree::Ere;

/// Whether a group of this number stands in the expression.
#[cycle(sets)]
fn sets(ere: &Ere, number: u32) -> bool
    ensures { result ≡ groups.sets (view ere.now) number }
{
    match ere {
        Ere::Empty | Ere::Plain(_) | Ere::Set(_) => false,
        Ere::LineStart | Ere::LineEnd | Ere::Ref { .. } => false,
        Ere::Cat(parts) => any_sets(parts.as_slice(), number),
        Ere::Alt(choices) => any_sets(choices.as_slice(), number),
        Ere::Repeat { inner, .. } => sets(inner, number),
        Ere::Group { number: own, inner } => *own == number || sets(inner, number),
    }
}

/// The same of at least one of them.
#[cycle(sets)]
fn any_sets(all: &[Ere], number: u32) -> bool
    ensures { result ≡ groups.any_sets (trees_of (map view all.now)) number }
{
    for one in all {
        if sets(one, number) {
            return true;
        }
    }
    false
}

/// Whether none of these groups stands in the expression.
fn sets_none(ere: &Ere, live: &[u32]) -> bool
    ensures { result ≡ true → TellsAll (view ere.now) live.now }
{
    for number in live {
        if sets(ere, *number) {
            return false;
        }
    }
    true
}

/// Whether the span of an expression tells what these groups hold behind it, from what they hold before.
#[cycle(tells)]
pub(crate) fn tells(ere: &Ere, live: &[u32]) -> bool
    ensures { result ≡ true → TellsAll (view ere.now) live.now }
{
    match ere {
        Ere::Group { inner, .. } => tells(inner, live),
        Ere::Empty | Ere::Plain(_) | Ere::Set(_) => sets_none(ere, live),
        Ere::LineStart | Ere::LineEnd | Ere::Ref { .. } => sets_none(ere, live),
        Ere::Cat(_) | Ere::Alt(_) | Ere::Repeat { .. } => sets_none(ere, live),
    }
}

/// Whether each reference is to one of so many groups.
#[cycle(refs_fit)]
pub fn refs_fit(ere: &Ere, groups: u32) -> bool
    ensures { result ≡ refer.refs_fit groups (view ere.now) }
{
    match ere {
        Ere::Empty | Ere::Plain(_) | Ere::Set(_) => true,
        Ere::LineStart | Ere::LineEnd => true,
        Ere::Cat(parts) => all_refs_fit(parts.as_slice(), groups),
        Ere::Alt(choices) => all_refs_fit(choices.as_slice(), groups),
        Ere::Repeat { inner, .. } => refs_fit(inner, groups),
        Ere::Group { inner, .. } => refs_fit(inner, groups),
        Ere::Ref { number, .. } => *number > 0 && *number <= groups,
    }
}

/// The same of all of them.
#[cycle(refs_fit)]
fn all_refs_fit(all: &[Ere], groups: u32) -> bool
    ensures { result ≡ refer.all_refs_fit groups (trees_of (map view all.now)) }
{
    for one in all {
        if !refs_fit(one, groups) {
            return false;
        }
    }
    true
}
