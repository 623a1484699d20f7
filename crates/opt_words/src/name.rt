//! Names of options.
ghost use Rattle.std.specs.Prelude.{◌≡◌, ◌≤◌, ◌<◌, length, take};

use std::marker::Model;

/// The name of an option, without its dashes: up to 32 bytes, held in place.
#[derive(Drop, Debug)]
pub struct Name {
    bytes: [u8; 32],
    len: usize,
    ghost within: { len ≤ 32 },
}

impl Model for Name {
    ghost use Rattle.std.specs.Prelude.{ℕ, List, take};

    ghost Value = { List ℕ };

    ghost view = { λ name. take name.len name.bytes };
}

impl Name {
    /// The name with these bytes.
    pub fn of(text: &str) -> Name
        requires { length text.now ≤ 32 }
        ensures { result ≡ text.now }
    {
        let mut bytes = [0; 32];
        let len = text.len();
        bytes[..len].copy_from_slice(text.as_bytes());
        Name { bytes, len }
    }

    /// The bytes of the name.
    pub fn as_slice(&self) -> &[u8]
        ensures { result.now ≡ self.now }
    {
        &self.bytes[..self.len]
    }
}
