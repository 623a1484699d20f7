//! How a number is spelled.

/// How a number is spelled: `%`, then `#` where it is alternate, `.` and digits where some are written, and the kind.
#[derive(Clone, Copy, Debug, PartialEq, Eq)]
pub struct Format {
    pub kind: FormatKind,
    /// `0x` stands in front. The kinds Unsigned and Signed have none.
    pub alternate: bool,
    /// The least number of digits, from 1 to 100, or 0 where none is written.
    pub digits: u32,
}

/// The digits of a number, and whether it may be negative.
#[derive(Clone, Copy, Debug, PartialEq, Eq)]
pub enum FormatKind {
    /// `%u`: decimal digits.
    Unsigned,
    /// `%d`: decimal digits, behind a `-` where the number is negative.
    Signed,
    /// `%x`: hex digits, `a` to `f` among them.
    LowerHex,
    /// `%X`: hex digits, `A` to `F` among them.
    UpperHex,
}
