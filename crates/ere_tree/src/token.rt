//! An expression byte by byte: its tokens.
ghost use Rattle.std.specs.Prelude.{◌≡◌, true, [], ◌≤◌, ◌<◌, ◌+◌, IfOk, IfErr, is_some, if◌then◌else◌, length};
ghost use Rattle.ere_tree.specs.Bracket.{bracket};
ghost use Rattle.ere_tree.specs.Token.{bound_refusal, bound_behind, with_bound, item, escaped, escape_at, bracket_item, atom_at, token};
ghost use Rattle.ere_tree.specs.TokenView.{atom_view, token_view, as_token};
ghost use Rattle.ere_tree.specs.View.{members_of};

use crate::bound::{Bound, bound_begins, find_bound};
use crate::bracket::{Bracket, bracket_at};
use crate::byte_set::ByteSet;
use crate::fault::{EreFault, EreKind};
use crate::front::{begins, behind};

/// What may be repeated, but for a group.
#[derive(Clone, Copy, Debug, PartialEq, Eq)]
pub(crate) enum Atom {
    Byte(u8),
    OneOf(Bracket),
    SameAs(u32),
}

/// An atom or a group's `)` with the bound behind it, or a byte with a meaning of its own.
#[derive(Clone, Copy, Debug, PartialEq, Eq)]
pub(crate) enum Token {
    Item(Atom, Option<Bound>),
    LineStart,
    LineEnd,
    Bar,
    OpenGroup,
    CloseGroup(Option<Bound>),
}

/// The bound that stands behind so many bytes, where there is one, and the length with it.
#[tactic(auto, unfolding(crate::specs::Token::bound_behind))]
fn with_bound(text: &[u8], count: usize) -> (Option<Bound>, usize)
    requires { count ≤ length text.now }
    ensures exact { result ≡ bound_behind count text.now }
    ensures some { count ≤ result.1 }
    ensures within { result.1 ≤ length text.now }
{
    match find_bound(behind(text, count)) {
        Some((bound, taken)) => (Some(bound), count + taken),
        None => (None, count),
    }
}

fn item_of(atom: Atom, text: &[u8], count: usize) -> (Token, usize)
    requires { count ≤ length text.now }
    ensures exact { (token_view result.0, result.1) ≡ with_bound (item (atom_view atom)) count text.now }
    ensures some { count ≤ result.1 }
    ensures within { result.1 ≤ length text.now }
{
    let (bound, taken) = with_bound(text, count);
    (Token::Item(atom, bound), taken)
}

fn refused(kind: EreKind) -> EreFault
    ensures { result ≡ record { at = 0; kind = kind } }
{
    EreFault { at: 0, kind }
}

/// What a backslash stands for with the byte behind it.
fn escape(byte: u8) -> Atom
    ensures { atom_view result ≡ escaped byte }
{
    if byte >= b'1' && byte <= b'9' {
        Atom::SameAs(u32::from(byte - b'0'))
    } else {
        Atom::Byte(byte)
    }
}

fn escaped_at(text: &[u8]) -> Result<(Token, usize), EreFault>
    requires { 0 < length text.now }
    ensures exact { as_token result ≡ escape_at text.now }
    ensures some { IfOk result (λ found. 0 < found.1) }
    ensures within { IfOk result (λ found. found.1 ≤ length text.now) }
    ensures place { IfErr result (λ fault. fault.at < length text.now) }
{
    if text.len() > 1 {
        Ok(item_of(escape(text[1]), text, 2))
    } else {
        Err(refused(EreKind::TrailingBackslash))
    }
}

fn bracketed_at(text: &[u8]) -> Result<(Token, usize), EreFault>
    requires { 0 < length text.now }
    ensures exact { as_token result ≡ bracket_item text.now (bracket text.now) }
    ensures some { IfOk result (λ found. 0 < found.1) }
    ensures within { IfOk result (λ found. found.1 ≤ length text.now) }
    ensures place { IfErr result (λ fault. fault.at < length text.now) }
{
    match bracket_at(text) {
        Ok((bracket, count)) => Ok(item_of(Atom::OneOf(bracket), text, count)),
        Err(fault) => Err(fault),
    }
}

/// The bracket that a `.` stands for.
#[tactic(auto, using(crate::proofs::CaseLemmas::none_of_bits))]
fn any_but_newline() -> Bracket
    ensures negated { result.negated ≡ true }
    ensures members { members_of result.members.bits ≡ [] }
{
    Bracket {
        negated: true,
        members: ByteSet::empty(),
    }
}

#[tactic(auto, unfolding(crate::specs::Token::atom_at))]
fn atom_item(text: &[u8]) -> Result<(Token, usize), EreFault>
    requires { 0 < length text.now }
    ensures exact { as_token result ≡ atom_at text.now }
    ensures some { IfOk result (λ found. 0 < found.1) }
    ensures within { IfOk result (λ found. found.1 ≤ length text.now) }
    ensures place { IfErr result (λ fault. fault.at < length text.now) }
{
    if begins(text, b'.') {
        Ok(item_of(Atom::OneOf(any_but_newline()), text, 1))
    } else if begins(text, b'[') {
        bracketed_at(text)
    } else if begins(text, b'\\') {
        escaped_at(text)
    } else {
        Ok(item_of(Atom::Byte(text[0]), text, 1))
    }
}

fn stray_bound(text: &[u8]) -> EreFault
    ensures { result ≡ record { at = 0; kind = bound_refusal text.now } }
{
    match find_bound(text) {
        Some(_) => refused(EreKind::RepeatOfNothing),
        None => refused(EreKind::BadBound),
    }
}

/// The token at the front of a text that isn't empty, and its length. The place of a fault counts from there.
#[tactic(auto, unfolding(crate::specs::Token::token))]
pub(crate) fn token_at(text: &[u8]) -> Result<(Token, usize), EreFault>
    requires { 0 < length text.now }
    ensures exact { as_token result ≡ token text.now }
    ensures some { IfOk result (λ found. 0 < found.1) }
    ensures within { IfOk result (λ found. found.1 ≤ length text.now) }
    ensures place { IfErr result (λ fault. fault.at < length text.now) }
{
    if begins(text, b'^') {
        Ok((Token::LineStart, 1))
    } else if begins(text, b'$') {
        Ok((Token::LineEnd, 1))
    } else if begins(text, b'|') {
        Ok((Token::Bar, 1))
    } else if begins(text, b'(') {
        Ok((Token::OpenGroup, 1))
    } else if begins(text, b')') {
        let (bound, taken) = with_bound(text, 1);
        Ok((Token::CloseGroup(bound), taken))
    } else if bound_begins(text) {
        Err(stray_bound(text))
    } else {
        atom_item(text)
    }
}
