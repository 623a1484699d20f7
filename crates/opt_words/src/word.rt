//! One word of a command line.
ghost use Rattle.std.specs.Prelude.{◌≡◌, ◌==◌, ◌≤◌, IfSome, length};
ghost use Rattle.std.specs.List.{position_from};
ghost use Rattle.opt_words.specs.Word.{is_option, dashes, name_in, is_glued, is_all_glued, is_named, begins_named, own_value};

use crate::row::{Form, Row};

/// Whether the word is an option: it begins with `-`, and isn't `-` alone.
pub(crate) fn is_option(word: &[u8]) -> bool
    ensures { result ≡ is_option word.now }
{
    word.starts_with(b"-") && word != b"-".as_slice()
}

/// How many dashes the option has, one or two.
pub(crate) fn dashes(word: &[u8]) -> usize
    ensures { result ≡ dashes word.now }
{
    if word.starts_with(b"--") { 2 } else { 1 }
}

/// Where the first `=` stands.
fn sign_at(text: &[u8]) -> Option<usize>
    ensures value { result ≡ position_from (λ byte. byte == 61) 0 text.now }
    ensures within { IfSome result (λ at. at ≤ length text.now) }
{
    text.iter().position(|byte| *byte == b'=')
}

/// The name in the option: up to the first `=` behind its dashes, or to its end.
pub(crate) fn name_in(word: &[u8]) -> &[u8]
    requires { dashes word.now ≤ length word.now }
    ensures { result.now ≡ name_in word.now }
{
    let behind = word.split_at(dashes(word)).1;
    match sign_at(behind) {
        Some(at) => behind.split_at(at).0,
        None => behind,
    }
}

/// Whether a value may follow the row's name directly.
fn is_glued(form: &Form, len: usize) -> bool
    ensures { result ≡ is_glued form.now len }
{
    match form {
        Form::Glued => true,
        Form::Number { .. } => len == 1,
        Form::Flag | Form::Switch | Form::Once | Form::Many => false,
    }
}

/// Whether all that follows the row's name is the value, also a `=`.
fn is_all_glued(form: &Form) -> bool
    ensures { result ≡ is_all_glued form.now }
{
    match form {
        Form::Glued => true,
        Form::Flag | Form::Switch | Form::Once | Form::Many | Form::Number { .. } => false,
    }
}

/// Whether the name is the row's.
pub(crate) fn is_named(name: &[u8], row: &Row) -> bool
    ensures { result ≡ is_named name.now row.now }
{
    row.name.as_slice() == name
}

/// Whether the name begins with the row's, and the rest of it may be a value.
pub(crate) fn begins_named(name: &[u8], row: &Row) -> bool
    ensures { result ≡ begins_named name.now row.now }
{
    let own = row.name.as_slice();
    is_glued(&row.form, own.len()) && name.starts_with(own)
}

/// Where the option's own value begins, if there is one.
pub(crate) fn own_value(row: &Row, word: &[u8]) -> Option<usize>
    requires { dashes word.now ≤ length word.now }
    ensures value { result ≡ own_value row.now word.now }
    ensures within { IfSome result (λ at. at ≤ length word.now) }
{
    let end = dashes(word) + row.name.as_slice().len();
    if word.len() <= end {
        return None;
    }
    if is_named(name_in(word), row) && !is_all_glued(&row.form) {
        return Some(end + 1);
    }
    Some(end)
}
