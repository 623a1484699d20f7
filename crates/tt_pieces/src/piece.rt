//! A piece of a text.

/// A piece of a text. A blank is a byte.
#[derive(Drop, Debug)]
pub enum TextPiece<'a> {
    Bytes(&'a [u8]),
    Number(u64),
    Blanks(usize),
}
