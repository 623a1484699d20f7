//! What changed between two reports.
ghost use Rattle.std.specs.Prelude.{◌≡◌, IfOk};
ghost use Rattle.json_report.specs.Changes.{changes, differs};

use crate::line::Line;
use crate::results::ByPath;
use std::alloc::Global;
use test_outcome::Outcome;
use tt_base::{Bytes, Items, NoMemory};

/// A path whose results differ, or that one of two reports lacks.
#[derive(Drop, Debug)]
pub struct Change {
    pub path: Bytes,
    pub old: Option<Outcome>,
    pub new: Option<Outcome>,
}

/// Whether two results differ, or one of them alone is there.
pub(crate) fn differs(old: Option<Outcome>, new: Option<Outcome>) -> bool
    ensures { result ≡ differs old new }
{
    match (old, new) {
        (Some(old), Some(new)) => !old.is_same(new),
        (None, None) => false,
        _ => true,
    }
}

/// What changed between two lists of tests, in byte order of the paths. Where a path stands twice in one of them, its last
/// result counts.
pub fn changes(alloc: Global, old: &[Line], new: &[Line]) -> Result<Items<Change>, NoMemory>
    ensures { IfOk result (λ found. found ≡ changes old.now new.now) }
{
    let mut results = ByPath::new(alloc);
    results.add_old(old)?;
    results.add_new(new)?;
    results.changes(alloc)
}
