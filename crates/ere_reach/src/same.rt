//! Whether two expressions are one.
ghost use Rattle.std.specs.Prelude.{◌≡◌, true, map};
ghost use Rattle.ere_tree.specs.View.{view};

use ere_tree::Ere;

/// Whether two expressions are one.
#[cycle(same)]
pub(crate) fn are_one(one: &Ere, other: &Ere) -> bool
    ensures { result ≡ true → view one.now ≡ view other.now }
{
    match (one, other) {
        (Ere::Empty, Ere::Empty) => true,
        (Ere::LineStart, Ere::LineStart) => true,
        (Ere::LineEnd, Ere::LineEnd) => true,
        (Ere::Plain(bytes), Ere::Plain(others)) => bytes.as_slice() == others.as_slice(),
        (Ere::Set(set), Ere::Set(other)) => set == other,
        (Ere::Cat(parts), Ere::Cat(others)) => are_all_one(parts.as_slice(), others.as_slice()),
        (Ere::Alt(parts), Ere::Alt(others)) => are_all_one(parts.as_slice(), others.as_slice()),
        (
            Ere::Repeat { inner, least, most },
            Ere::Repeat {
                inner: its,
                least: low,
                most: high,
            },
        ) => *least == *low && *most == *high && are_one(inner, its),
        (
            Ere::Group { number, inner },
            Ere::Group {
                number: its_number,
                inner: its,
            },
        ) => *number == *its_number && are_one(inner, its),
        (
            Ere::Ref { number, fold },
            Ere::Ref {
                number: its_number,
                fold: its_fold,
            },
        ) => *number == *its_number && *fold == *its_fold,
        _ => false,
    }
}

/// The same of each of them.
#[cycle(same)]
fn are_all_one(all: &[Ere], others: &[Ere]) -> bool
    ensures { result ≡ true → map view all.now ≡ map view others.now }
{
    if all.len() != others.len() {
        return false;
    }
    for index in 0..all.len() {
        if !are_one(&all[index], &others[index]) {
            return false;
        }
    }
    true
}
