//! Matches of a whole text.
ghost use Rattle.std.specs.Prelude.{◌≡◌, ◌↔◌, false, IsTrue};
ghost use Rattle.ere_tree.specs.Shape.{has_refs};
ghost use Rattle.ere_tree.specs.View.{view};
ghost use Rattle.ere_whole.specs.Whole.{MatchesWhole};

use crate::places::{Places, block_of};
use crate::reach::image;
use ere_tree::Ere;

/// Whether the expression matches the whole text. For a text of up to 255 bytes its places are one block, and the time
/// is that of finding the ends of its matches. Longer ones take more for each further block.
pub fn matches_whole(ere: &Ere, text: &[u8]) -> bool
    requires no_refs { has_refs (view ere.now) ≡ false }
    ensures exact { IsTrue result ↔ MatchesWhole (view ere.now) text.now }
{
    let mut start = Places::none(0);
    start.put(0);
    let ends = image(ere, text, &start, block_of(text.len()));
    ends.has(text.len())
}
