//! The bytes that a prefix may begin with.
ghost use Rattle.std.specs.Prelude.{◌≡◌};
ghost use Rattle.prefix_tree.specs.Heads.{AreHeads, HasHead, HeadsStay, may_begin};

use tt_base::Bytes;

/// For each byte, whether one of the prefixes may begin with it.
pub fn heads_of(prefixes: &[Bytes]) -> [bool; 256]
    ensures { AreHeads result prefixes.now }
{
    let mut heads = [false; 256];
    for prefix in prefixes {
        set_head(&mut heads, prefix.as_slice());
    }
    heads
}

/// Sets the flag of the byte with which a prefix begins; an empty one may stand anywhere.
fn set_head(heads: &mut [bool; 256], prefix: &[u8])
    ensures head { HasHead heads.new prefix.now }
    ensures stay { HeadsStay heads.old heads.new }
{
    match prefix {
        [] => *heads = [true; 256],
        [byte, ..] => heads[*byte as usize] = true,
    }
}

/// Whether a prefix may stand at the front of a text.
#[inline]
pub fn may_begin(heads: &[bool; 256], text: &[u8]) -> bool
    ensures { result ≡ may_begin heads.now text.now }
{
    match text {
        [] => true,
        [byte, ..] => heads[*byte as usize],
    }
}
