//! What the pieces before a place said.
ghost use Rattle.std.specs.Prelude.{◌≡◌, ◌<◌, ◌+◌, ◌^◌, OnOk, is_some, pos};
ghost use Rattle.std.specs.FinMap as map;
ghost use Rattle.pattern_parse.specs.Block.{with_recall, with_text};
ghost use Rattle.pattern_parse.specs.PieceView.{said_view};
ghost use Rattle.pattern_parse.specs.Pieces.{nothing_said};

use num_base::Numbers;
use std::alloc::Global;
use tt_base::NoMemory;

/// The texts that are defined, with 1 where a recall means the nearest definition and else 0; how many definitions
/// recalls mean; the numbers that are defined, and those that are used.
#[derive(Drop, Debug)]
pub(crate) struct Said {
    pub(crate) texts: Numbers,
    pub(crate) references: usize,
    pub(crate) defined: Numbers,
    pub(crate) used: Numbers,
}

impl Said {
    pub(crate) fn new(alloc: Global) -> Said
        ensures { said_view result ≡ nothing_said }
    {
        Said {
            texts: Numbers::new(alloc),
            references: 0,
            defined: Numbers::new(alloc),
            used: Numbers::new(alloc),
        }
    }

    /// A text is defined.
    pub(crate) fn add_text(&mut self, name: &[u8]) -> Result<(), NoMemory>
        ensures ok { OnOk result (said_view self.new ≡ with_text name.now (said_view self.old)) }
    {
        self.texts.put(name, 0)
    }

    /// A text is recalled. There are never so many that they can't be counted; the sum is checked all the same.
    pub(crate) fn add_recall(&mut self, name: &[u8]) -> Result<(), NoMemory>
        ensures ok { OnOk result (said_view self.new ≡ with_recall name.now (said_view self.old)) }
    {
        if self.texts.get(name) == Some(0) {
            let Some(references) = self.references.checked_add(1) else {
                return Err(NoMemory);
            };
            self.texts.put(name, 1)?;
            self.references = references;
        }
        Ok(())
    }
}
