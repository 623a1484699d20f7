//! Names of variables.
ghost use Rattle.std.specs.Prelude.{◌≡◌, ◌≤◌, ◌<◌, IfErr, IfOk, length};
ghost use Rattle.ere_tree.specs.Front.{begins_with};
ghost use Rattle.num_exprs.specs.Name.{begins_name, name_at};

use crate::row::{Row, row_length};
use num_spell::{begins, behind};

/// Whether a name begins here.
#[tactic(auto, using(ere_tree::proofs::FrontLemmas::begins_some, ere_tree::proofs::FrontLemmas::begins_none))]
fn begins_name(text: &[u8]) -> bool
    ensures { result ≡ begins_with begins_name text.now }
{
    match text.first() {
        Some(first) => first.is_ascii_alphabetic() || *first == b'_',
        None => false,
    }
}

/// The length of the name at the front of a text, or the offset of the byte that can't be read on.
#[tactic(auto, using(crate::proofs::RowLemmas::name_begins))]
pub fn name_at(text: &[u8]) -> Result<usize, usize>
    ensures exact { result ≡ name_at text.now }
    ensures some { IfOk result (λ count. 0 < count) }
    ensures within { IfOk result (λ count. count ≤ length text.now) }
    ensures place { IfErr result (λ at. at ≤ length text.now) }
{
    let count = if begins(text, b'$') { 1 } else { 0 };
    let rest = behind(text, count);
    if begins_name(rest) {
        Ok(count + row_length(rest, Row::NameBytes))
    } else {
        Err(count)
    }
}
