//! Rows of a table.

use crate::name::Name;

/// An option of a program: its name, and what value it takes.
#[derive(Drop, Debug)]
pub struct Row {
    pub name: Name,
    pub form: Form,
}

/// What value an option takes, where the value stands, and whether the option may be given again.
#[derive(Clone, Copy, Debug, PartialEq, Eq)]
pub enum Form {
    /// No value. It may be given again.
    Flag,
    /// No value, which means true, or `=true` or `=false`. It may be given again, and the last one counts.
    Switch,
    /// A value behind `=`, or else the next word. It may be given once.
    Once,
    /// A value behind `=`, or else the next word. It may be given again.
    Many,
    /// All that follows the name, also a `=`, or else the next word. It may be given again.
    Glued,
    /// A decimal number from `least` to `most`, behind `=` or else the next word; where the name is one letter, also
    /// directly behind it. It may be given once.
    Number { least: u64, most: u64 },
}
