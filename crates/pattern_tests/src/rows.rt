//! Rows of tests: a line each, with arrows between the fields.
use std::alloc::{AllocError, Global};
use std::process::Abort;

/// What a test tells of a row.
pub(crate) trait Tells {
    /// What is told of all fields but the last, or a text that no row has.
    fn told(&self, alloc: Global, given: &str) -> Result<String, AllocError>;
}

/// Sees that of each row that is told which its last field has.
pub(crate) fn each_is_told<T: Tells>(
    rt: &impl Abort,
    alloc: Global,
    rows: &str,
    telling: &T,
) -> Result<(), AllocError> {
    for row in rows.lines() {
        assert!(rt; is_told(alloc, row, telling)?, "{row}");
    }
    Ok(())
}

/// Whether that is told of a row which its last field has.
pub(crate) fn is_told<T: Tells>(alloc: Global, row: &str, telling: &T) -> Result<bool, AllocError> {
    match row.rsplit_once(" => ") {
        Some((given, due)) => is_text(telling.told(alloc, given), due),
        None => Ok(false),
    }
}

/// Whether a text was made, and is the one that is due.
pub(crate) fn is_text(made: Result<String, AllocError>, due: &str) -> Result<bool, AllocError> {
    Ok(made?.as_str() == due)
}

/// What is told where a row has other fields than its kind.
pub(crate) fn no_row(alloc: Global) -> Result<String, AllocError> {
    String::from_str(alloc, "no row")
}
