//! The character classes of brackets, as `[:alpha:]`, each a table of words.
ghost use Rattle.std.specs.Prelude.{◌≡◌};
ghost use Rattle.std.specs.Option.{option_map};
ghost use Rattle.ere_tree.specs.Class.{class_of, is_alnum, is_alpha, is_blank, is_cntrl, is_digit, is_graph};
ghost use Rattle.ere_tree.specs.Class.{is_lower, is_print, is_punct, is_space, is_upper, is_xdigit};
ghost use Rattle.ere_tree.specs.Tree.{bytes_passing};
ghost use Rattle.ere_tree.specs.View.{members_of};

use crate::byte_set::ByteSet;

/// A table of bytes below 128: the bits of those below 64, and of the others.
macro_rules! table {
    ($low:literal, $high:literal) => {
        ByteSet { bits: [$low, $high, 0, 0] }
    };
}

#[tactic(auto, unfolding(crate::specs::Tree::bytes_passing, crate::specs::Tree::numbers_below))]
fn alnum() -> ByteSet
    ensures { members_of result.bits ≡ bytes_passing is_alnum }
{
    table!(0x03ff_0000_0000_0000, 0x07ff_fffe_07ff_fffe)
}

#[tactic(auto, unfolding(crate::specs::Tree::bytes_passing, crate::specs::Tree::numbers_below))]
fn alpha() -> ByteSet
    ensures { members_of result.bits ≡ bytes_passing is_alpha }
{
    table!(0x0000_0000_0000_0000, 0x07ff_fffe_07ff_fffe)
}

#[tactic(auto, unfolding(crate::specs::Tree::bytes_passing, crate::specs::Tree::numbers_below))]
fn blank() -> ByteSet
    ensures { members_of result.bits ≡ bytes_passing is_blank }
{
    table!(0x0000_0001_0000_0200, 0x0000_0000_0000_0000)
}

#[tactic(auto, unfolding(crate::specs::Tree::bytes_passing, crate::specs::Tree::numbers_below))]
fn cntrl() -> ByteSet
    ensures { members_of result.bits ≡ bytes_passing is_cntrl }
{
    table!(0x0000_0000_ffff_ffff, 0x8000_0000_0000_0000)
}

#[tactic(auto, unfolding(crate::specs::Tree::bytes_passing, crate::specs::Tree::numbers_below))]
fn digit() -> ByteSet
    ensures { members_of result.bits ≡ bytes_passing is_digit }
{
    table!(0x03ff_0000_0000_0000, 0x0000_0000_0000_0000)
}

#[tactic(auto, unfolding(crate::specs::Tree::bytes_passing, crate::specs::Tree::numbers_below))]
fn graph() -> ByteSet
    ensures { members_of result.bits ≡ bytes_passing is_graph }
{
    table!(0xffff_fffe_0000_0000, 0x7fff_ffff_ffff_ffff)
}

#[tactic(auto, unfolding(crate::specs::Tree::bytes_passing, crate::specs::Tree::numbers_below))]
fn lower() -> ByteSet
    ensures { members_of result.bits ≡ bytes_passing is_lower }
{
    table!(0x0000_0000_0000_0000, 0x07ff_fffe_0000_0000)
}

#[tactic(auto, unfolding(crate::specs::Tree::bytes_passing, crate::specs::Tree::numbers_below))]
fn print() -> ByteSet
    ensures { members_of result.bits ≡ bytes_passing is_print }
{
    table!(0xffff_ffff_0000_0000, 0x7fff_ffff_ffff_ffff)
}

#[tactic(auto, unfolding(crate::specs::Tree::bytes_passing, crate::specs::Tree::numbers_below))]
fn punct() -> ByteSet
    ensures { members_of result.bits ≡ bytes_passing is_punct }
{
    table!(0xfc00_fffe_0000_0000, 0x7800_0001_f800_0001)
}

#[tactic(auto, unfolding(crate::specs::Tree::bytes_passing, crate::specs::Tree::numbers_below))]
fn space() -> ByteSet
    ensures { members_of result.bits ≡ bytes_passing is_space }
{
    table!(0x0000_0001_0000_3e00, 0x0000_0000_0000_0000)
}

#[tactic(auto, unfolding(crate::specs::Tree::bytes_passing, crate::specs::Tree::numbers_below))]
fn upper() -> ByteSet
    ensures { members_of result.bits ≡ bytes_passing is_upper }
{
    table!(0x0000_0000_0000_0000, 0x0000_0000_07ff_fffe)
}

#[tactic(auto, unfolding(crate::specs::Tree::bytes_passing, crate::specs::Tree::numbers_below))]
fn xdigit() -> ByteSet
    ensures { members_of result.bits ≡ bytes_passing is_xdigit }
{
    table!(0x03ff_0000_0000_0000, 0x0000_007e_0000_007e)
}

/// The bytes of the class of this name, without brackets and colons, as `alpha`.
pub fn class(name: &[u8]) -> Option<ByteSet>
    ensures { option_map (λ set. members_of set.bits) result
        ≡ option_map bytes_passing (class_of name.now) }
{
    if name == b"alnum".as_slice() {
        Some(alnum())
    } else if name == b"alpha".as_slice() {
        Some(alpha())
    } else if name == b"blank".as_slice() {
        Some(blank())
    } else if name == b"cntrl".as_slice() {
        Some(cntrl())
    } else if name == b"digit".as_slice() {
        Some(digit())
    } else if name == b"graph".as_slice() {
        Some(graph())
    } else if name == b"lower".as_slice() {
        Some(lower())
    } else if name == b"print".as_slice() {
        Some(print())
    } else if name == b"punct".as_slice() {
        Some(punct())
    } else if name == b"space".as_slice() {
        Some(space())
    } else if name == b"upper".as_slice() {
        Some(upper())
    } else if name == b"xdigit".as_slice() {
        Some(xdigit())
    } else {
        None
    }
}
