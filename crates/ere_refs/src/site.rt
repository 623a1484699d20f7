//! Where lists are made.
use crate::held::Part;
use ere_tree::Cap;

/// A part of a slice, with what groups hold before it, and which of them are read behind it.
#[derive(Clone, Copy)]
pub(crate) struct Site<'t, 'c, 'v> {
    pub(crate) text: &'t [u8],
    pub(crate) part: Part,
    pub(crate) caps: &'c [Option<Cap>],
    pub(crate) live: &'v [u32],
}
