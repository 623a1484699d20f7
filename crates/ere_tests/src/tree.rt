ghost use Rattle.std.specs.Prelude.{◌≡◌, IfOk};
ghost use Rattle.ere_tree.specs.Shape.{greatest_number};
ghost use Rattle.ere_tree.specs.Tree.{alt, plain, then, none};
ghost use Rattle.ere_tree.specs.View.{view};

use ere_tree::{
    ByteRun, ByteSet, Cap, Caps, Ere, EreList, Hit, class, law_of_preference, law_of_the_hit,
};
use std::alloc::{AllocError, Global};

/// Classes, each with a byte that it has and one that it has not, between bars.
const CLASSES: &str =
    "alnum 0/|alpha z0|blank \t\n|cntrl \x7f |digit 9:|graph ! |lower aA|print  \x7f|punct ~a|space \r\x0e|upper Z[|xdigit fg";

/// Whether the class of a row tells its two bytes apart.
fn tells_apart(row: &str) -> bool {
    let Some((name, bytes)) = row.split_once(' ') else {
        return false;
    };
    match (class(name.as_bytes()), bytes.as_bytes()) {
        (Some(set), [inside, outside]) => set.has(*inside) && !set.has(*outside),
        _ => false,
    }
}

#[test]
fn classes_have_their_bytes(rt: HostRuntime) {
    for row in CLASSES.split('|') {
        assert!(rt; tells_apart(row), "{row:?}");
    }
    assert!(rt; class(b"word").is_none());
    assert!(rt; !ByteSet::empty().has(0));
}

// The tree of `a|(b*)`.
fn a_or_many_b(alloc: Global) -> Result<Ere, AllocError>
    ensures { IfOk result (λ tree. greatest_number (view tree) ≡ 1) }
{
    let many = Ere::Repeat {
        inner: Box::new(alloc, plain(alloc, b"b")?)?,
        least: 0,
        most: None,
    };
    let group = Ere::Group {
        number: 1,
        inner: Box::new(alloc, many)?,
    };
    either(alloc, plain(alloc, b"a")?, group)
}

fn either(alloc: Global, first: Ere, second: Ere) -> Result<Ere, AllocError>
    ensures { IfOk result (λ tree. view tree ≡ alt (then (view first) (then (view second) none))) }
{
    let mut choices = Vec::new(alloc);
    choices.push(first)?;
    choices.push(second)?;
    Ok(Ere::Alt(EreList::from_vec(choices)))
}

fn plain(alloc: Global, bytes: &[u8]) -> Result<Ere, AllocError>
    ensures { IfOk result (λ tree. view tree ≡ plain bytes.now) }
{
    Ok(Ere::Plain(ByteRun::from_vec(Vec::from_slice(alloc, bytes)?)))
}

/// Whether two trees are written alike.
fn are_alike(alloc: Global, one: &Ere, other: &Ere) -> Result<bool, AllocError> {
    let text = format!(in alloc; "{one:?}")?;
    Ok(format!(in alloc; "{other:?}")?.as_str() == text.as_str())
}

/// A tree's size, its number of groups, and whether it has references.
fn measured(tree: &Ere) -> (u64, u32, bool) {
    (tree.size(), tree.groups(), tree.has_refs())
}

#[test]
fn a_copy_is_an_equal_tree(rt: HostRuntime) -> Result<(), AllocError> {
    let mut tree = a_or_many_b(rt.alloc())?;
    let made = tree.copy(rt.alloc())?;
    assert!(rt; are_alike(rt.alloc(), &tree, &made)?);
    assert!(rt; measured(&made) == (5, 1, false));
    tree.shift(2);
    assert!(rt; measured(&tree) == (5, 3, false));
    assert!(rt; measured(&made) == (5, 1, false));
    Ok(())
}

#[test]
fn a_shift_raises_references(rt: HostRuntime) {
    let mut tree = Ere::Ref {
        number: 1,
        fold: false,
    };
    tree.shift(2);
    assert!(rt;
        matches!(
            tree,
            Ere::Ref {
                number: 3,
                fold: false
            }
        )
    );
    assert!(rt; tree.has_refs());
}

#[test]
fn a_size_stops_at_the_greatest_number(rt: HostRuntime) -> Result<(), AllocError> {
    let mut tree = Ere::Empty;
    for _ in 0..9 {
        tree = Ere::Repeat {
            inner: Box::new(rt.alloc(), tree)?,
            least: 255,
            most: Some(255),
        };
    }
    assert_eq!(rt; tree.size(), u64::MAX);
    Ok(())
}

/// A hit whose first group is unset.
fn hit_of_two(alloc: Global) -> Result<Hit, AllocError> {
    let mut all = Vec::new(alloc);
    all.push(None)?;
    all.push(Some(Cap { from: 1, to: 3 }))?;
    Ok(Hit {
        from: 0,
        to: 4,
        groups: Caps::from_vec(all),
    })
}

#[test]
fn captures_keep_what_is_unset(rt: HostRuntime) -> Result<(), AllocError> {
    let hit = hit_of_two(rt.alloc())?;
    let due = [None, Some(Cap { from: 1, to: 3 })];
    assert!(rt; hit.groups.as_slice() == due.as_slice());
    assert!(rt; Caps::new(rt.alloc()).into_vec().is_empty());
    Ok(())
}

#[test]
fn laws_can_be_called() {
    law_of_preference();
    law_of_the_hit();
}
