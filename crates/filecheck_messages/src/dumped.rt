//! The annotated input of a run.
ghost use Rattle.std.specs.Prelude.{◌≡◌, ◌≤◌, ◌^◌, All, IfOk, length};
ghost use Rattle.input_dump.specs.Dump.{dump, framed};

use input_dump::{Mark, Rows, Shown};
use std::alloc::Global;
use std::marker::Model;
use tt_base::{Items, NoMemory};
use tt_outside::SharedBytes;

/// An annotated input, of which a contract sees the bytes that are told.
#[derive(Drop, Debug)]
pub struct Dumped {
    text: SharedBytes,
    marks: Items<Mark>,
    shown: Shown,
}

impl Model for Dumped {
    ghost use Rattle.std.specs.Prelude.{◌≤◌, ◌^◌, ℕ, All, List, length};
    ghost use Rattle.input_dump.specs.Dump.{dump};

    ghost Value = { List ℕ };

    ghost view = { λ dumped. dump dumped.text dumped.marks dumped.shown };

    ghost invariant = { λ dumped.
        (length dumped.text ≤ 2 ^ 30) × All (λ mark. mark.at ≤ length dumped.text) dumped.marks };
}

impl Dumped {
    /// A text with its marks, of which these lines are shown.
    pub fn new(text: SharedBytes, marks: Items<Mark>, shown: Shown) -> Dumped
        requires short { length text ≤ 2 ^ 30 }
        requires within { All (λ mark. mark.at ≤ length text) marks }
        ensures { result ≡ dump text marks shown }
    {
        Dumped { text, marks, shown }
    }

    /// Its rows.
    pub(crate) fn rows(&self, alloc: Global) -> Result<Rows<'_>, NoMemory>
        ensures { IfOk result (λ rows. framed rows ≡ self.now) }
    {
        Rows::new(
            alloc,
            self.text.as_slice(),
            self.marks.as_slice(),
            &self.shown,
        )
    }
}
