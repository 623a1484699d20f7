//! What a match gives.
use num_base::Format;
use tt_base::Bytes;

/// What a match gives a name.
#[derive(Drop, Debug)]
pub enum Gift {
    /// The text of the group that stands behind so many groups.
    Text {
        name: Bytes,
        group: u32,
    },
    /// The number that the text of the group behind so many groups spells.
    Number {
        name: Bytes,
        group: u32,
        format: Format,
    },
    /// This value.
    Given {
        name: Bytes,
        value: i128,
    },
}
