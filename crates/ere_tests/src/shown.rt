//! Hits and spans in words, as the rows of these tests have them.
use ere_tree::{Cap, Hit};
use std::alloc::{AllocError, Global};

/// The two ends of a span, as `0-4`; or `none`.
pub(crate) fn ends_of(alloc: Global, span: Option<Cap>) -> Result<String, AllocError> {
    match span {
        Some(Cap { from, to }) => format!(in alloc; "{from}-{to}"),
        None => String::from_str(alloc, "none"),
    }
}

/// The ends of a hit, and then those of what each group holds, as `0-4 0-2 none`.
fn hit_in_words(alloc: Global, hit: &Hit) -> Result<String, AllocError> {
    let mut text = format!(in alloc; "{}-{}", hit.from, hit.to)?;
    for group in hit.groups.as_slice() {
        text.push(' ')?;
        text.push_str(ends_of(alloc, *group)?.as_str())?;
    }
    Ok(text)
}

/// A hit in words, or `none`.
pub(crate) fn in_words(alloc: Global, hit: &Option<Hit>) -> Result<String, AllocError> {
    match hit {
        Some(hit) => hit_in_words(alloc, hit),
        None => ends_of(alloc, None),
    }
}

fn same_hit(one: &Hit, other: &Hit) -> bool {
    one.from == other.from && one.to == other.to && one.groups.as_slice() == other.groups.as_slice()
}

/// Whether two programs found the same, its groups included.
pub(crate) fn are_same(one: &Option<Hit>, other: &Option<Hit>) -> bool {
    match (one, other) {
        (None, None) => true,
        (Some(one), Some(other)) => same_hit(one, other),
        (None, Some(_)) | (Some(_), None) => false,
    }
}
