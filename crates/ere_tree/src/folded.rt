//! Expressions in which letters match in either case.
ghost use Rattle.std.specs.Prelude.{◌≡◌, map, IfOk};
ghost use Rattle.ere_tree.specs.Folded.{folded_run, folded, all_folded};
ghost use Rattle.ere_tree.specs.Tree.{trees_of};
ghost use Rattle.ere_tree.specs.View.{view};

use crate::ere::{ByteRun, Ere, EreList};
use crate::level::Level;
use std::alloc::{AllocError, Global};

/// The expression of a run of bytes.
fn folded_run(alloc: Global, bytes: &[u8]) -> Result<Ere, AllocError>
    ensures { IfOk result (λ made. view made ≡ folded_run bytes.now) }
{
    if bytes.is_empty() {
        return Ok(Ere::Plain(ByteRun::from_vec(Vec::new(alloc))));
    }
    let mut level = Level::new(alloc, 0, 0);
    for byte in bytes {
        level.add_byte(alloc, *byte, true)?;
    }
    level.finish(alloc)
}

impl Ere {
    /// The expression with its letters in both cases: each letter of a run is the set of its two cases, a set has
    /// the other case of its letters, and references match in either case. On an error the expression is given up.
    pub fn folded(self, alloc: Global) -> Result<Ere, AllocError>
        ensures { IfOk result (λ made. view made ≡ folded (view self)) }
    {
        self.in_both_cases(alloc)
    }

    #[cycle(fold)]
    fn in_both_cases(&self, alloc: Global) -> Result<Ere, AllocError>
        ensures { IfOk result (λ made. view made ≡ folded (view self.now)) }
    {
        match self {
            Ere::Empty => Ok(Ere::Empty),
            Ere::Plain(run) => folded_run(alloc, run.as_slice()),
            Ere::Set(set) => Ok(Ere::Set(set.both_cases())),
            Ere::LineStart => Ok(Ere::LineStart),
            Ere::LineEnd => Ok(Ere::LineEnd),
            Ere::Cat(parts) => Ok(Ere::Cat(parts.in_both_cases(alloc)?)),
            Ere::Alt(choices) => Ok(Ere::Alt(choices.in_both_cases(alloc)?)),
            Ere::Repeat { inner, least, most } => Ok(Ere::Repeat {
                inner: Box::new(alloc, inner.in_both_cases(alloc)?)?,
                least: *least,
                most: *most,
            }),
            Ere::Group { number, inner } => Ok(Ere::Group {
                number: *number,
                inner: Box::new(alloc, inner.in_both_cases(alloc)?)?,
            }),
            Ere::Ref { number, .. } => Ok(Ere::Ref {
                number: *number,
                fold: true,
            }),
        }
    }
}

impl EreList {
    #[cycle(fold)]
    fn in_both_cases(&self, alloc: Global) -> Result<EreList, AllocError>
        ensures { IfOk result (λ made. trees_of (map view made.held.items)
            ≡ all_folded (trees_of (map view self.now.held.items))) }
    {
        let mut held = Vec::with_capacity(alloc, self.held.len())?;
        for one in self.held.iter() {
            held.push(one.in_both_cases(alloc)?)?;
        }
        Ok(EreList { held })
    }
}
