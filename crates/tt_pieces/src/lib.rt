//! Texts that are told in pieces: borrowed bytes, numbers and runs of blanks, which take no memory for what they tell. A pen writes them
//! to a stream by way of a buffer that is there before the first byte is written. What a stream holds at a fault is as in `tt_run`.
#![tactic(auto)]

mod gathered;
mod pen;
mod piece;
mod pieces;
mod told;

pub use gathered::Gathered;
pub use pen::Pen;
pub use piece::TextPiece;
pub use pieces::Pieces;
pub use told::put_pieces;
