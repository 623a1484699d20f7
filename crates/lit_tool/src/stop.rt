//! Why a run shows no tests. src/message.rt has what is told of each.

use lit_dirs::DiscoverFault;
use lit_words::LitWordsFault;

/// Why a run shows no tests, in the order of docs/PROFILE.md.
#[derive(Drop, Debug)]
pub enum LitStop {
    /// The words are refused.
    Words(LitWordsFault),
    /// The tests weren't found.
    Discovery(DiscoverFault),
    /// `--select zz`: no test is kept of those that were found.
    NoneSelected,
    /// `--json`: the name or the file of a test that is to be run isn't text.
    NotText,
}
