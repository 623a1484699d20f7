//! Pieces of texts.
ghost use Rattle.std.specs.Prelude.{◌≡◌, ◌++◌, OnOk, decimal};
ghost use Rattle.lit_report.specs.Report.{stars};

use itoa::Buffer;
use tt_base::{Bytes, NoMemory};

/// Adds the digits of a number.
pub(crate) fn add_number(text: &mut Bytes, number: u64) -> Result<(), NoMemory>
    ensures { OnOk result (text.new ≡ text.old ++ decimal number) }
{
    let mut buffer = Buffer::new();
    text.append(buffer.format(number).as_bytes())
}

/// The line between the parts of a report.
#[tactic(auto, unfolding(crate::specs::Report::stars))]
pub(crate) fn stars() -> &'static [u8]
    ensures { result.now ≡ stars }
{
    b"********************"
}
