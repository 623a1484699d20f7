//! What is wrong with a list of words.
ghost use Rattle.std.specs.Prelude.{◌≡◌, ◌<◌, [], length, slice_index_or};
ghost use Rattle.opt_words.specs.Step.{texts};
ghost use Rattle.opt_words.specs.Fault.{text_before, text_behind, word_of};

/// The first word that is refused, by its index. It is the word that names the option, also where the value is the
/// word behind it.
#[derive(Clone, Copy, Debug, PartialEq, Eq)]
pub enum WordFault {
    /// No row is meant, as by `--nope`.
    Unknown(usize),
    /// An option that takes a value has none, as `--input-file` as the last word.
    MissingValue(usize),
    /// A value that the option doesn't take, as `--allow-empty=1`.
    UnwantedValue(usize),
    /// Not a decimal number, or one outside of the row's bounds, as `-j 0` where 1 is the least.
    BadNumber(usize),
    /// An option that may be given once is given again.
    TwiceGiven(usize),
}

impl WordFault {
    /// The index of the word.
    pub fn index(&self) -> usize
        ensures { result ≡ word_of self.now }
    {
        match self {
            WordFault::Unknown(at) => *at,
            WordFault::MissingValue(at) => *at,
            WordFault::UnwantedValue(at) => *at,
            WordFault::BadNumber(at) => *at,
            WordFault::TwiceGiven(at) => *at,
        }
    }

    /// The word, of those that were read.
    pub fn word<'a>(&self, words: &'a [String]) -> &'a [u8]
        requires { word_of self.now < length words.now }
        ensures { result.now ≡ slice_index_or (texts words.now) (word_of self.now) [] }
    {
        words[self.index()].as_bytes()
    }

    /// What a message of the fault says before the word.
    pub fn text_before(&self) -> &[u8]
        ensures { result.now ≡ text_before self.now }
    {
        match self {
            WordFault::Unknown(_) => b"unknown option '",
            WordFault::MissingValue(_) => b"option '",
            WordFault::UnwantedValue(_) => b"option '",
            WordFault::BadNumber(_) => b"option '",
            WordFault::TwiceGiven(_) => b"option '",
        }
    }

    /// What a message of the fault says behind the word.
    pub fn text_behind(&self) -> &[u8]
        ensures { result.now ≡ text_behind self.now }
    {
        match self {
            WordFault::Unknown(_) => b"'",
            WordFault::MissingValue(_) => b"' needs a value",
            WordFault::UnwantedValue(_) => b"' takes no such value",
            WordFault::BadNumber(_) => b"' needs another number",
            WordFault::TwiceGiven(_) => b"' given twice",
        }
    }
}
