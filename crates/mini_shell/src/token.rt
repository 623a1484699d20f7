//! Words and operators, one after the other.
ghost use Rattle.std.specs.Prelude.{◌≡◌, ◌≤◌, ◌<◌, true, false, IfOk, length, drop};
ghost use Rattle.mini_shell.specs.Class.{begins};
ghost use Rattle.mini_shell.specs.Fault.{Says};
ghost use Rattle.mini_shell.specs.Token.{GoesOn, begins_operator, form_of, found_word, next_at, number_count, operator_at, operator_count, operator_of, signs_count, stream_count, token_at};
ghost use Rattle.mini_shell.specs.Word.{word_at};
ghost use Rattle.mini_shell.specs.declared.class.Class.TheVariants.{Bang, Blank, Inner, Sign};

use crate::class::{Class, begins, front};
use crate::fault::{ShellFail, ShellKind, refuse};
use crate::line::{Join, RedirForm};
use crate::word::read_word;
use std::alloc::Global;
use tt_base::Bytes;

/// A word or an operator, and its offset in the line.
#[derive(Drop, Debug)]
pub(crate) struct Token {
    pub(crate) at: usize,
    pub(crate) kind: TokenKind,
}

#[derive(Drop, Debug)]
pub(crate) enum TokenKind {
    /// A word, and whether it is written as `!`.
    Word(Bytes, bool),
    /// `|`
    Pipes,
    /// `&&`, `||` or `;`.
    Joins(Join),
    Redirects(RedirForm),
}

/// What comes next in a line.
#[derive(Drop, Debug)]
pub(crate) enum Next {
    /// A token, and the offset behind it.
    Found(Token, usize),
    /// The line's end, at its offset.
    Over(usize),
}

/// The redirection that is written so.
fn form_of(text: &[u8]) -> Option<RedirForm>
    ensures { result ≡ form_of text.now }
{
    if text == b"<".as_slice() || text == b"0<".as_slice() {
        Some(RedirForm::Input)
    } else if text == b">".as_slice() || text == b"1>".as_slice() {
        Some(RedirForm::Out)
    } else if text == b">>".as_slice() || text == b"1>>".as_slice() {
        Some(RedirForm::OutAppend)
    } else if text == b"2>".as_slice() {
        Some(RedirForm::Err)
    } else if text == b"2>>".as_slice() {
        Some(RedirForm::ErrAppend)
    } else if text == b"&>".as_slice() || text == b">&".as_slice() {
        Some(RedirForm::Both)
    } else if text == b"2>&1".as_slice() {
        Some(RedirForm::ErrToOut)
    } else if text == b">&2".as_slice() || text == b"1>&2".as_slice() {
        Some(RedirForm::OutToErr)
    } else {
        None
    }
}

/// The operator that is written so.
fn operator_of(text: &[u8]) -> Option<TokenKind>
    ensures { result ≡ operator_of text.now }
{
    if text == b"|".as_slice() {
        Some(TokenKind::Pipes)
    } else if text == b"&&".as_slice() {
        Some(TokenKind::Joins(Join::And))
    } else if text == b"||".as_slice() {
        Some(TokenKind::Joins(Join::Or))
    } else {
        match form_of(text) {
            Some(form) => Some(TokenKind::Redirects(form)),
            None => None,
        }
    }
}

/// How many digits are a stream's number.
fn number_count(text: &[u8]) -> usize
    ensures value { result ≡ number_count text.now }
    ensures within { result ≤ length text.now }
{
    let digits = front(Class::Digit, text);
    if begins(Class::Arrow, text.split_at(digits).1) {
        digits
    } else {
        0
    }
}

/// How many bytes behind `>&` belong to it.
fn stream_count(signs: &[u8], behind: &[u8]) -> usize
    ensures value { result ≡ stream_count signs.now behind.now }
    ensures within { result ≤ length behind.now }
{
    if signs == b">&".as_slice() && begins(Class::Digit, behind) {
        front(Class::Inner, behind)
    } else {
        0
    }
}

/// How many bytes an operator has without the number before it.
fn signs_count(text: &[u8]) -> usize
    ensures value { result ≡ signs_count text.now }
    ensures within { result ≤ length text.now }
    ensures some { begins Sign text.now ≡ true → 0 < result }
{
    let (signs, behind) = text.split_at(front(Class::Sign, text));
    signs.len() + stream_count(signs, behind)
}

/// How many bytes an operator has.
fn operator_count(text: &[u8]) -> usize
    ensures value { result ≡ operator_count text.now }
    ensures within { result ≤ length text.now }
    ensures some { begins_operator text.now ≡ true → 0 < result }
{
    let number = number_count(text);
    number + signs_count(text.split_at(number).1)
}

/// Whether a text begins with an operator.
fn begins_operator(text: &[u8]) -> bool
    ensures { result ≡ begins_operator text.now }
{
    begins(Class::Sign, text.split_at(number_count(text)).1)
}

/// The operator at an offset.
fn read_operator(text: &[u8], at: usize) -> Result<Next, ShellFail>
    requires within { at ≤ length text.now }
    requires operator { begins_operator (drop at text.now) ≡ true }
    ensures exact { Says result (operator_at at (drop at text.now)) }
    ensures onward { IfOk result (GoesOn at (length text.now)) }
{
    let rest = text.split_at(at).1;
    let count = operator_count(rest);
    match operator_of(rest.split_at(count).0) {
        Some(kind) => Ok(Next::Found(Token { at, kind }, at + count)),
        None => refuse(ShellKind::BadOperator, at),
    }
}

/// The word at an offset.
fn read_plain(alloc: Global, text: &[u8], at: usize) -> Result<Next, ShellFail>
    requires within { at ≤ length text.now }
    requires front { begins Inner (drop at text.now) ≡ true }
    ensures exact { Says result (found_word at (begins Bang (drop at text.now)) (word_at at (drop at text.now))) }
    ensures onward { IfOk result (GoesOn at (length text.now)) }
{
    let is_bang = begins(Class::Bang, text.split_at(at).1);
    match read_word(alloc, text, at) {
        Ok(word) => {
            let alone = is_bang && word.end - at == 1;
            Ok(Next::Found(
                Token {
                    at,
                    kind: TokenKind::Word(word.value, alone),
                },
                word.end,
            ))
        }
        Err(fail) => Err(fail),
    }
}

/// What stands at an offset that isn't blank.
fn token_at(alloc: Global, text: &[u8], at: usize) -> Result<Next, ShellFail>
    requires within { at ≤ length text.now }
    requires front { begins Blank (drop at text.now) ≡ false }
    ensures exact { Says result (token_at at (drop at text.now)) }
    ensures onward { IfOk result (GoesOn at (length text.now)) }
{
    let rest = text.split_at(at).1;
    if rest.is_empty() {
        Ok(Next::Over(at))
    } else if begins(Class::Then, rest) {
        let kind = TokenKind::Joins(Join::Then);
        Ok(Next::Found(Token { at, kind }, at + 1))
    } else if begins_operator(rest) {
        read_operator(text, at)
    } else if begins(Class::Paren, rest) {
        refuse(ShellKind::BadOperator, at)
    } else {
        read_plain(alloc, text, at)
    }
}

/// What comes next in a line from an offset on.
#[tactic(auto, using(crate::proofs::ClassLemmas::begins_front_from))]
pub(crate) fn next_token(alloc: Global, text: &[u8], from: usize) -> Result<Next, ShellFail>
    requires within { from ≤ length text.now }
    ensures exact { Says result (next_at from (drop from text.now)) }
    ensures onward { IfOk result (GoesOn from (length text.now)) }
{
    let blanks = front(Class::Blank, text.split_at(from).1);
    token_at(alloc, text, from + blanks)
}
