//! Bytes by what they do where nothing quotes them.
ghost use Rattle.std.specs.Prelude.{◌≡◌, ◌≤◌, length};
ghost use Rattle.mini_shell.specs.Class.{begins, ends_word, front, has, is_blank, is_sign};

/// A kind of bytes.
#[derive(Clone, Copy, Debug, PartialEq, Eq)]
pub(crate) enum Class {
    Blank,
    Digit,
    /// `|`, `&`, `<` or `>`, of which operators are made.
    Sign,
    /// `<` or `>`.
    Arrow,
    /// What ends no word: no blank, `;` or sign.
    Inner,
    /// `*` or `?`.
    Glob,
    /// `(` or `)`.
    Paren,
    /// `!`
    Bang,
    /// `;`
    Then,
}

fn is_blank(byte: u8) -> bool
    ensures { result ≡ is_blank byte }
{
    byte == b' ' || byte == b'\t'
}

fn is_sign(byte: u8) -> bool
    ensures { result ≡ is_sign byte }
{
    byte == b'|' || byte == b'&' || byte == b'<' || byte == b'>'
}

/// Whether a word ends in front of a byte.
pub(crate) fn ends_word(byte: u8) -> bool
    ensures { result ≡ ends_word byte }
{
    is_blank(byte) || byte == b';' || is_sign(byte)
}

/// Whether a byte is of a class.
pub(crate) fn has(class: Class, byte: u8) -> bool
    ensures { result ≡ has class byte }
{
    match class {
        Class::Blank => is_blank(byte),
        Class::Digit => matches!(byte, b'0'..=b'9'),
        Class::Sign => is_sign(byte),
        Class::Arrow => byte == b'<' || byte == b'>',
        Class::Inner => !ends_word(byte),
        Class::Glob => byte == b'*' || byte == b'?',
        Class::Paren => byte == b'(' || byte == b')',
        Class::Bang => byte == b'!',
        Class::Then => byte == b';',
    }
}

/// Whether a text begins with a byte of a class.
pub(crate) fn begins(class: Class, text: &[u8]) -> bool
    ensures { result ≡ begins class text.now }
{
    match text {
        [] => false,
        [byte, ..] => has(class, *byte),
    }
}

/// How many bytes of a class a text begins with.
pub(crate) fn front(class: Class, text: &[u8]) -> usize
    ensures value { result ≡ front class text.now }
    ensures within { result ≤ length text.now }
{
    for (at, &byte) in text.iter().enumerate() {
        if !has(class, byte) {
            return at;
        }
    }
    text.len()
}
