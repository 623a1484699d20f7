//! Directives with their patterns.
ghost use Rattle.std.specs.Prelude.{◌≡◌};

use crate::fault::{Fault, FaultKind};
use pattern_parse::{Demand, Pattern};

/// A directive with its pattern.
#[derive(Drop, Debug)]
pub struct Check {
    /// Its place among the directives of the check file, from 0.
    pub number: usize,
    pub demand: Demand,
    /// Its line in the check file, from 1.
    pub line: u32,
    pub pattern: Pattern,
}

impl Check {
    /// The fault of this directive.
    pub fn fault(&self, kind: FaultKind) -> Fault
        ensures { result ≡ record { directive = self.now.number; kind = kind } }
    {
        Fault {
            directive: self.number,
            kind,
        }
    }
}
