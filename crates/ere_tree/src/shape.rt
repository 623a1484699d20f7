//! The shape of an expression: its size, its groups, its references.
ghost use Rattle.std.specs.Prelude.{◌≡◌, ◌+◌, ◌-◌, ◌^◌, ◌<◌, min, map};
ghost use Rattle.ere_tree.specs.Shape.{copies, size_of, size_of_all, greatest_group, greatest_group_of};
ghost use Rattle.ere_tree.specs.Shape.{has_refs, any_has_refs, greatest_number, greatest_number_of};
ghost use Rattle.ere_tree.specs.Shape.{shifted, all_shifted};
ghost use Rattle.ere_tree.specs.Tree.{trees_of};
ghost use Rattle.ere_tree.specs.View.{view};

use crate::ere::{Ere, EreList};
use std::mem;

impl Ere {
    /// The size with each bound unfolded. A size past `u64::MAX` is answered as `u64::MAX`.
    #[cycle(size)]
    #[tactic(auto, using(crate::proofs::ShapeLemmas::stopped_product))]
    pub fn size(&self) -> u64
        ensures { result ≡ min (size_of (view self.now)) (2 ^ 64 - 1) }
    {
        match self {
            Ere::Empty | Ere::Set(_) | Ere::LineStart | Ere::LineEnd | Ere::Ref { .. } => 1,
            Ere::Plain(run) => run.as_slice().len() as u64,
            Ere::Cat(parts) => parts.total_size(),
            Ere::Alt(choices) => choices.total_size().saturating_add(1),
            Ere::Repeat { inner, least, most } => copies(*least, *most)
                .saturating_mul(inner.size())
                .saturating_add(1),
            Ere::Group { inner, .. } => inner.size().saturating_add(1),
        }
    }

    /// The greatest group number, 0 where there is no group.
    #[cycle(groups)]
    pub fn groups(&self) -> u32
        ensures { result ≡ greatest_group (view self.now) }
    {
        match self {
            Ere::Empty | Ere::Plain(_) | Ere::Set(_) => 0,
            Ere::LineStart | Ere::LineEnd | Ere::Ref { .. } => 0,
            Ere::Cat(parts) => parts.greatest_group(),
            Ere::Alt(choices) => choices.greatest_group(),
            Ere::Repeat { inner, .. } => inner.groups(),
            Ere::Group { number, inner } => inner.groups().max(*number),
        }
    }

    /// Whether there is a reference in the expression.
    #[cycle(refs)]
    pub fn has_refs(&self) -> bool
        ensures { result ≡ has_refs (view self.now) }
    {
        match self {
            Ere::Empty | Ere::Plain(_) | Ere::Set(_) => false,
            Ere::LineStart | Ere::LineEnd => false,
            Ere::Cat(parts) => parts.have_refs(),
            Ere::Alt(choices) => choices.have_refs(),
            Ere::Repeat { inner, .. } => inner.has_refs(),
            Ere::Group { inner, .. } => inner.has_refs(),
            Ere::Ref { .. } => true,
        }
    }

    /// Raises the number of every group and of every reference.
    #[cycle(shift)]
    pub fn shift(&mut self, by: u32)
        requires { greatest_number (view self.old) + by < 2 ^ 31 }
        ensures { view self.new ≡ shifted by (view self.old) }
    {
        let raised = mem::replace(self, Ere::Empty).raised(by);
        *self = raised;
    }

    #[cycle(shift)]
    fn raised(self, by: u32) -> Ere
        requires { greatest_number (view self) + by < 2 ^ 31 }
        ensures { view result ≡ shifted by (view self) }
    {
        match self {
            Ere::Empty => Ere::Empty,
            Ere::Plain(run) => Ere::Plain(run),
            Ere::Set(set) => Ere::Set(set),
            Ere::LineStart => Ere::LineStart,
            Ere::LineEnd => Ere::LineEnd,
            Ere::Cat(mut parts) => {
                parts.shift(by);
                Ere::Cat(parts)
            }
            Ere::Alt(mut choices) => {
                choices.shift(by);
                Ere::Alt(choices)
            }
            Ere::Repeat {
                mut inner,
                least,
                most,
            } => {
                inner.shift(by);
                Ere::Repeat { inner, least, most }
            }
            Ere::Group { number, mut inner } => {
                inner.shift(by);
                Ere::Group {
                    number: number + by,
                    inner,
                }
            }
            Ere::Ref { number, fold } => {
                let number = number + by;
                Ere::Ref { number, fold }
            }
        }
    }
}

/// How often the inner expression of a repeat is counted.
fn copies(least: u32, most: Option<u32>) -> u64
    ensures { result ≡ copies least most }
{
    match most {
        Some(most) => most as u64,
        None => least as u64 + 1,
    }
}

impl EreList {
    #[cycle(size)]
    fn total_size(&self) -> u64
        ensures { result ≡ min (size_of_all (trees_of (map view self.now.held.items))) (2 ^ 64 - 1) }
    {
        let mut total: u64 = 0;
        for one in self.held.iter() {
            total = total.saturating_add(one.size());
        }
        total
    }

    #[cycle(groups)]
    fn greatest_group(&self) -> u32
        ensures { result ≡ greatest_group_of (trees_of (map view self.now.held.items)) }
    {
        let mut greatest: u32 = 0;
        for one in self.held.iter() {
            greatest = greatest.max(one.groups());
        }
        greatest
    }

    #[cycle(refs)]
    fn have_refs(&self) -> bool
        ensures { result ≡ any_has_refs (trees_of (map view self.now.held.items)) }
    {
        for one in self.held.iter() {
            if one.has_refs() {
                return true;
            }
        }
        false
    }

    #[cycle(shift)]
    fn shift(&mut self, by: u32)
        requires { greatest_number_of (trees_of (map view self.old.held.items)) + by < 2 ^ 31 }
        ensures { trees_of (map view self.new.held.items)
            ≡ all_shifted by (trees_of (map view self.old.held.items)) }
    {
        for one in self.held.iter_mut() {
            one.shift(by);
        }
    }
}
