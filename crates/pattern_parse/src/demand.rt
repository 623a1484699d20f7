//! What a directive asks for: a role, a line rule and a number of matches.
ghost use Rattle.std.specs.Prelude.{◌≡◌};
ghost use Rattle.pattern_parse.specs.Demand.{asks_line, is_excluded, is_label, is_unordered, takes_none};

/// What a directive is for.
#[derive(Clone, Copy, Debug, PartialEq, Eq)]
pub enum Role {
    /// It has to be met behind the match before it.
    Sought,
    /// It may not be met up to the next match, as a NOT.
    Excluded,
    /// It has to be met beside those of its role next to it, in any order, as a DAG.
    Unordered,
    /// It ends a block, and is sought first.
    Label,
}

/// On which line a match has to begin, counted from the end of the match before.
#[derive(Clone, Copy, Debug, PartialEq, Eq)]
pub enum LineRule {
    Any,
    Next,
    Same,
    /// On the next line, which has to be empty.
    Empty,
}

/// What a directive asks for. Each role goes with each rule and each number.
#[derive(Clone, Copy, Debug, PartialEq, Eq)]
pub struct Demand {
    pub role: Role,
    pub rule: LineRule,
    /// How many matches it has to have, one behind the other.
    pub times: u32,
}

impl Role {
    pub fn is_excluded(self) -> bool
        ensures { result ≡ is_excluded self }
    {
        matches!(self, Role::Excluded)
    }

    pub fn is_unordered(self) -> bool
        ensures { result ≡ is_unordered self }
    {
        matches!(self, Role::Unordered)
    }

    pub fn is_label(self) -> bool
        ensures { result ≡ is_label self }
    {
        matches!(self, Role::Label)
    }
}

impl LineRule {
    /// Whether it asks for a line, and so for a match before it.
    pub fn asks_line(self) -> bool
        ensures { result ≡ asks_line self }
    {
        !matches!(self, LineRule::Any)
    }

    /// Whether it takes no body.
    pub fn takes_none(self) -> bool
        ensures { result ≡ takes_none self }
    {
        matches!(self, LineRule::Empty)
    }
}
