//! Keywords of directives.
ghost use Rattle.std.specs.Prelude.{◌≡◌, ◌+◌, ◌≤◌, IfSome, length};
ghost use Rattle.lit_directives.specs.Keyword.{IsMark, is_word, keyword_of, mark_at, mark_of, width};

/// What a directive is for.
#[derive(Clone, Copy, Debug, PartialEq, Eq)]
pub enum Kind {
    /// `RUN:`
    Run,
    /// `REQUIRES:`
    Requires,
    /// `UNSUPPORTED:`
    Unsupported,
    /// `XFAIL:`
    Xfail,
    /// `ALLOW_RETRIES:`
    Retries,
}

/// A keyword.
#[derive(Clone, Copy, Debug, PartialEq, Eq)]
pub enum Keyword {
    /// That of a directive.
    Of(Kind),
    /// `END.`
    End,
}

/// A keyword of a line and its offset.
#[derive(Clone, Copy, Debug, PartialEq, Eq)]
pub struct Mark {
    pub at: usize,
    pub keyword: Keyword,
}

/// How many bytes a keyword has.
pub(crate) fn length_of(keyword: Keyword) -> usize
    ensures { result ≡ width keyword }
{
    match keyword {
        Keyword::Of(Kind::Run) => 4,
        Keyword::Of(Kind::Requires) => 9,
        Keyword::Of(Kind::Unsupported) => 12,
        Keyword::Of(Kind::Xfail) => 6,
        Keyword::Of(Kind::Retries) => 14,
        Keyword::End => 4,
    }
}

/// The keyword at the front of a text.
fn keyword_of(text: &[u8]) -> Option<Keyword>
    ensures value { result ≡ keyword_of text.now }
    ensures within { IfSome result (λ keyword. width keyword ≤ length text.now) }
{
    if text.starts_with(b"RUN:") {
        Some(Keyword::Of(Kind::Run))
    } else if text.starts_with(b"REQUIRES:") {
        Some(Keyword::Of(Kind::Requires))
    } else if text.starts_with(b"UNSUPPORTED:") {
        Some(Keyword::Of(Kind::Unsupported))
    } else if text.starts_with(b"XFAIL:") {
        Some(Keyword::Of(Kind::Xfail))
    } else if text.starts_with(b"ALLOW_RETRIES:") {
        Some(Keyword::Of(Kind::Retries))
    } else if text.starts_with(b"END.") {
        Some(Keyword::End)
    } else {
        None
    }
}

/// Whether a byte is a letter, a digit, `-` or `_`: no keyword stands behind one.
fn is_word(byte: u8) -> bool
    ensures { result ≡ is_word byte }
{
    byte.is_ascii_alphanumeric() || byte == b'-' || byte == b'_'
}

/// The mark at an offset, where no word is before it.
fn mark_at(behind_word: bool, at: usize, text: &[u8]) -> Option<Mark>
    ensures value { result ≡ mark_at behind_word at text.now }
    ensures within { IfSome result (λ mark. (mark.at ≡ at) × (width mark.keyword ≤ length text.now)) }
{
    if behind_word {
        return None;
    }
    match keyword_of(text) {
        Some(keyword) => Some(Mark { at, keyword }),
        None => None,
    }
}

/// The mark of a line: the keyword at the least offset at which one stands.
pub(crate) fn mark_of(line: &[u8]) -> Option<Mark>
    ensures least { IsMark line.now result }
    ensures value { result ≡ mark_of line.now }
    ensures within { IfSome result (λ mark. mark.at + width mark.keyword ≤ length line.now) }
{
    let mut behind_word = false;
    for at in 0..line.len() {
        match mark_at(behind_word, at, &line[at..]) {
            Some(mark) => return Some(mark),
            None => behind_word = is_word(line[at]),
        }
    }
    None
}
