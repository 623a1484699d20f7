//! What the words of a command line set.
ghost use Rattle.std.specs.Prelude.{[], ℕ, List, Some, ◌<◌, ◌≤◌, ◌^◌, slice_index};
ghost use Rattle.opt_words.specs.Reading.{AllStand, IsCounted, IsTally, StillStand};

use crate::step::Given;

/// What is given for each row of a table.
#[derive(Clone, Copy, Debug, PartialEq, Eq)]
pub struct Settings<const N: usize> {
    /// How often each row is given.
    pub times: [usize; N],
    /// What each row is given last.
    pub last: [Option<Given>; N],
    /// How many words are plain.
    pub plain: usize,
    /// The first plain word.
    pub first_plain: Option<Given>,
}

impl<const N: usize> Settings<N> {
    /// Nothing is given.
    pub(crate) fn none() -> Settings<N>
        ensures tally { IsTally N [] result }
        ensures stand { (words : List (List ℕ)) → AllStand N words result }
    {
        Settings {
            times: [0; N],
            last: [None; N],
            plain: 0,
            first_plain: None,
        }
    }

    /// Counts what is given.
    pub(crate) fn add(&mut self, given: Given)
        requires row { given.row ≤ N }
        requires counts { (row : ℕ) → row < N → slice_index self.old.times row < 2 ^ 63 }
        requires others { self.old.plain < 2 ^ 63 }
        ensures tally { IsCounted N (Some given) self.old self.new }
        ensures stand { StillStand N (Some given) self.old self.new }
    {
        if given.row < N {
            self.times[given.row] += 1;
            self.last[given.row] = Some(given);
        } else {
            self.plain += 1;
            self.first_plain = self.first_plain.or(Some(given));
        }
    }
}
