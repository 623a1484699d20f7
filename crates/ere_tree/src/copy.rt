//! Copies of expressions.
ghost use Rattle.std.specs.Prelude.{◌≡◌, map, IfOk};
ghost use Rattle.ere_tree.specs.View.{view};

use crate::ere::{ByteRun, Ere, EreList};
use std::alloc::{AllocError, Global};

impl Ere {
    /// An equal expression.
    #[cycle(copy)]
    pub fn copy(&self, alloc: Global) -> Result<Ere, AllocError>
        ensures { IfOk result (λ made. view made ≡ view self.now) }
    {
        match self {
            Ere::Empty => Ok(Ere::Empty),
            Ere::Plain(run) => Ok(Ere::Plain(run.copy(alloc)?)),
            Ere::Set(set) => Ok(Ere::Set(*set)),
            Ere::LineStart => Ok(Ere::LineStart),
            Ere::LineEnd => Ok(Ere::LineEnd),
            Ere::Cat(parts) => Ok(Ere::Cat(parts.copy(alloc)?)),
            Ere::Alt(choices) => Ok(Ere::Alt(choices.copy(alloc)?)),
            Ere::Repeat { inner, least, most } => Ok(Ere::Repeat {
                inner: Box::new(alloc, inner.copy(alloc)?)?,
                least: *least,
                most: *most,
            }),
            Ere::Group { number, inner } => Ok(Ere::Group {
                number: *number,
                inner: Box::new(alloc, inner.copy(alloc)?)?,
            }),
            Ere::Ref { number, fold } => Ok(Ere::Ref {
                number: *number,
                fold: *fold,
            }),
        }
    }
}

impl EreList {
    #[cycle(copy)]
    fn copy(&self, alloc: Global) -> Result<EreList, AllocError>
        ensures { IfOk result (λ made. map view made.held.items ≡ map view self.now.held.items) }
    {
        let mut held = Vec::with_capacity(alloc, self.held.len())?;
        for one in self.held.iter() {
            held.push(one.copy(alloc)?)?;
        }
        Ok(EreList { held })
    }
}

impl ByteRun {
    /// An equal run.
    pub fn copy(&self, alloc: Global) -> Result<ByteRun, AllocError>
        ensures { IfOk result (λ made. made ≡ self.now) }
    {
        Ok(ByteRun::from_vec(Vec::from_slice(alloc, self.as_slice())?))
    }
}
