//! What is to be spanned.

/// The bytes of a text from `from` to `to`.
#[derive(Drop)]
pub struct Input<'a> {
    pub text: &'a [u8],
    pub from: usize,
    pub to: usize,
}
