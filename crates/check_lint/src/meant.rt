//! What may have been meant by a word that is no directive.
ghost use Rattle.std.specs.Prelude.{◌≤◌, length};

use crate::near::is_near;
use crate::word::{behind_blanks, next_word};
use std::alloc::Global;
use tt_base::{Bytes, NoMemory};

/// The names that may stand behind a prefix and a hyphen, but for COUNT with its number.
const SUFFIXES: [&str; 6] = ["NEXT", "SAME", "NOT", "DAG", "EMPTY", "LABEL"];

/// How many bytes a prefix has at least, if a word that is near it is taken for it.
const LONG: usize = 4;

/// A directive that may have been meant.
#[derive(Clone, Copy)]
pub(crate) struct Meant<'a> {
    prefix: &'a [u8],
    /// The name of the suffix, without its hyphen; empty where there is none.
    suffix: &'a [u8],
    /// Behind COUNT, a hyphen and the number.
    number: &'a [u8],
}

impl Meant<'_> {
    /// Its spelling.
    pub(crate) fn spelled(&self, alloc: Global) -> Result<Bytes, NoMemory> {
        let mut text = Bytes::from_slice(alloc, self.prefix)?;
        if !self.suffix.is_empty() {
            text.append(b"-")?;
            text.append(self.suffix)?;
            text.append(self.number)?;
        }
        text.append(b":")?;
        Ok(text)
    }
}

/// Behind a prefix and a hyphen, the name that stands there or is near what does, and the number behind it.
#[derive(Clone, Copy)]
struct Suffix<'a> {
    name: &'a [u8],
    number: &'a [u8],
    /// It stands there as it is.
    is_exact: bool,
}

/// The suffix that a text is, or is near.
fn suffix_of(text: &[u8]) -> Option<Suffix<'_>> {
    for name in SUFFIXES {
        let name = name.as_bytes();
        if text == name {
            return Some(Suffix {
                name,
                number: b"",
                is_exact: true,
            });
        }
    }
    let (name, number) = text.split_at(number_from(text));
    if !number.is_empty() {
        if name == b"COUNT".as_slice() || is_near(name, b"COUNT") {
            return Some(Suffix {
                name: b"COUNT",
                number,
                is_exact: name == b"COUNT".as_slice(),
            });
        }
    }
    for name in SUFFIXES {
        let name = name.as_bytes();
        if is_near(text, name) {
            return Some(Suffix {
                name,
                number: b"",
                is_exact: false,
            });
        }
    }
    None
}

/// Where a hyphen with a number behind it begins, up to the end of a text; its length where none does.
fn number_from(text: &[u8]) -> usize
    ensures { result ≤ length text.now }
{
    let mut at = text.len();
    while at > 0 && text[at - 1].is_ascii_digit() {
        at -= 1;
    }
    if at > 0 && at < text.len() && text[at - 1] == b'-' {
        at - 1
    } else {
        text.len()
    }
}

/// What stands behind a prefix in a name that begins with it.
fn behind<'a>(name: &'a [u8], prefix: &[u8]) -> Option<&'a [u8]> {
    if name.starts_with(prefix) {
        Some(name.split_at(prefix.len()).1)
    } else {
        None
    }
}

/// Whether a name is a prefix, or one with a suffix.
fn is_directive(name: &[u8], prefix: &[u8]) -> bool {
    match behind(name, prefix) {
        Some([]) => true,
        Some([b'-', suffix @ ..]) => match suffix_of(suffix) {
            Some(suffix) => suffix.is_exact,
            None => false,
        },
        _ => false,
    }
}

/// Whether a word with the text behind it is a directive, or a comment.
pub(crate) fn is_right(name: &[u8], rest: &[u8], prefixes: &[Bytes]) -> bool {
    match rest {
        [b':' | b'{', ..] => {
            name == b"RUN".as_slice()
                || name == b"COM".as_slice()
                || prefixes.iter().any(|it| is_directive(name, it.as_slice()))
        }
        _ => false,
    }
}

/// What may have been meant by a word, by what stands behind it, and by whether it is its line's first.
pub(crate) fn meant_by<'a>(
    name: &'a [u8],
    rest: &'a [u8],
    is_first: bool,
    prefix: &'a [u8],
) -> Option<Meant<'a>> {
    match rest {
        [b':', ..] => meant_by_name(name, prefix),
        [b' ' | b'\t', ..] => match behind_blanks(rest) {
            [b':', ..] => as_it_stands(name, prefix),
            later => match apart(name, later, prefix) {
                Some(meant) => Some(meant),
                None => if is_first {
                    without_colon(name, later, prefix)
                } else {
                    None
                },
            },
        },
        [] => if is_first {
            without_colon(name, rest, prefix)
        } else {
            None
        },
        _ => None,
    }
}

/// What may have been meant by a word before a colon.
fn meant_by_name<'a>(name: &'a [u8], prefix: &'a [u8]) -> Option<Meant<'a>> {
    match behind(name, prefix) {
        Some([b'-' | b'_', suffix @ ..]) => {
            let Suffix {
                name: suffix,
                number,
                ..
            } = suffix_of(suffix)?;
            Some(Meant {
                prefix,
                suffix,
                number,
            })
        }
        Some(_) => near_prefix(name, prefix),
        None => near_prefix(name, prefix),
    }
}

/// What may have been meant by a word that begins with what is near a prefix.
fn near_prefix<'a>(name: &'a [u8], prefix: &'a [u8]) -> Option<Meant<'a>> {
    if prefix.len() < LONG {
        return None;
    }
    if is_near(name, prefix) {
        return Some(Meant {
            prefix,
            suffix: b"",
            number: b"",
        });
    }
    for length in [prefix.len() - 1, prefix.len(), prefix.len() + 1] {
        if length < name.len() && name[length] == b'-' && is_near(&name[..length], prefix) {
            if let Some(
                Suffix {
                    name: suffix,
                    number,
                    is_exact: true,
                },
            ) = suffix_of(&name[length + 1..])
            {
                return Some(Meant {
                    prefix,
                    suffix,
                    number,
                });
            }
        }
    }
    None
}

/// A prefix, or one with a suffix, as it stands.
fn as_it_stands<'a>(name: &'a [u8], prefix: &'a [u8]) -> Option<Meant<'a>> {
    match behind(name, prefix)? {
        [] => Some(Meant {
            prefix,
            suffix: b"",
            number: b"",
        }),
        [b'-', suffix @ ..] => match suffix_of(suffix) {
            Some(
                Suffix {
                    name: suffix,
                    number,
                    is_exact: true,
                },
            ) => Some(Meant {
                prefix,
                suffix,
                number,
            }),
            _ => None,
        },
        _ => None,
    }
}

/// What may have been meant by a prefix with a word behind a blank, and a colon.
fn apart<'a>(name: &'a [u8], later: &'a [u8], prefix: &'a [u8]) -> Option<Meant<'a>> {
    if name != prefix {
        return None;
    }
    let (from, to) = next_word(later, 0);
    match later.split_at(to).1 {
        [b':', ..] => {
            if from > 0 {
                return None;
            }
            let Suffix {
                name: suffix,
                number,
                ..
            } = suffix_of(later.split_at(to).0)?;
            Some(Meant {
                prefix,
                suffix,
                number,
            })
        }
        _ => None,
    }
}

/// What may have been meant by a line's first word with no colon behind it: a prefix with a suffix, or a prefix alone before a text
/// that has brackets of a pattern.
fn without_colon<'a>(name: &'a [u8], later: &'a [u8], prefix: &'a [u8]) -> Option<Meant<'a>> {
    let meant = as_it_stands(name, prefix)?;
    if meant.suffix.is_empty() && !has_brackets(later) {
        None
    } else {
        Some(meant)
    }
}

/// Whether two brackets of a kind stand in a text, as a pattern has them.
fn has_brackets(text: &[u8]) -> bool {
    text.windows(2).any(|pair| pair == b"{{".as_slice() || pair == b"[[".as_slice())
}
