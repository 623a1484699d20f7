//! Paths of files that a test makes.
use std::env::{self, Env};
use std::io;

/// A path in the folder for temporary files, with a number between a front and an end.
pub(crate) fn own_path<R: Env + AllocGlobal>(
    rt: &R,
    front: &str,
    number: u32,
    end: &str,
) -> io::Result<String> {
    let folder = env::temp_dir(rt)?;
    let folder = folder.as_str();
    Ok(format!(in rt.alloc(); "{folder}/{front}{number}{end}")?)
}
