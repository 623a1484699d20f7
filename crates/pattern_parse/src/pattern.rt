//! Patterns and the pieces that they are made of.
use crate::demand::Demand;
use ere_tree::Ere;
use num_base::Format;
use num_exprs::NumBlock;
use tt_base::{Bytes, Items};

/// What stands round a match on its line.
#[derive(Clone, Copy, Debug, PartialEq, Eq)]
pub enum Frame {
    /// Anything.
    Open,
    /// Spaces alone.
    Spaced,
    /// Nothing.
    Tight,
}

/// What decides how the body of a directive is read.
#[derive(Clone, Copy, Debug, PartialEq, Eq)]
pub struct BodyRules {
    /// What its directive asks for.
    pub demand: Demand,
    /// All of it is plain text.
    pub literal: bool,
    /// Letters match in either case.
    pub fold: bool,
    /// What stands round a match on its line, if its directive has no other frame.
    pub frame: Frame,
}

/// A piece of a pattern.
#[derive(Drop, Debug)]
pub enum Piece {
    /// Text that stands for itself.
    Plain(Bytes),
    /// `{{ere}}`.
    Regex(Ere),
    /// `[[X:ere]]`.
    Define { name: Bytes, ere: Ere },
    /// `[[X]]`.
    Recall { name: Bytes },
    /// `[[#num]]` or `[[@LINE+n]]`, with the format that it is spelled in.
    Num { block: NumBlock, format: Format },
}

/// The pattern of a directive.
#[derive(Drop, Debug)]
pub struct Pattern {
    pub pieces: Items<Piece>,
    pub frame: Frame,
    /// Letters match in either case.
    pub fold: bool,
}
