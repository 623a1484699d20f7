//! What a match gives.
ghost use Rattle.std.specs.Prelude.{◌≡◌};
ghost use Rattle.pattern_vars.specs.Vars.{name_of};

use tt_base::{Bytes, Items};

/// What a match gives a name.
#[derive(Drop, Debug)]
pub enum Binding {
    /// The text that `[[NAME:ere]]` matched.
    Text { name: Bytes, text: Bytes },
    /// The number of `[[#NAME:]]`.
    Number { name: Bytes, value: i128 },
}

impl Binding {
    /// The name that it is for.
    pub fn name(&self) -> &[u8]
        ensures { result.now ≡ name_of self.now }
    {
        match self {
            Binding::Text { name, .. } => name.as_slice(),
            Binding::Number { name, .. } => name.as_slice(),
        }
    }
}

/// What a match gives, in the order of the pattern.
pub type Bindings = Items<Binding>;
