//! The turns from one front of prefixes to the next.
ghost use Rattle.std.specs.Prelude.{◌≡◌, ◌≤◌, ℕ, None, Some, IfOk, OnOk};
ghost use Rattle.prefix_tree.specs.Tree.{EndOnly, EndStay, NextOnly, NextStay};
ghost use Rattle.prefix_tree.specs.Turns.{next_of, end_of};

use std::alloc::Global;
use std::collections::HashMap;
use tt_base::NoMemory;

/// What follows the fronts of prefixes. A front is told by the number of the first prefix that has it, its owner, and by
/// its length.
#[derive(Drop)]
pub struct Turns {
    /// The owner of a front with one more byte.
    next: HashMap<(usize, usize, u8), usize>,
    /// The first prefix that is the whole front.
    end: HashMap<(usize, usize), usize>,
}

impl Turns {
    /// No turns. It takes no memory.
    pub fn new(alloc: Global) -> Turns
        ensures next { (owner length byte : ℕ) → next_of result owner length byte ≡ None }
        ensures end { (owner length : ℕ) → end_of result owner length ≡ None }
    {
        Turns {
            next: HashMap::new(alloc),
            end: HashMap::new(alloc),
        }
    }

    /// The owner of a front with one more byte.
    pub fn next(&self, owner: usize, length: usize, byte: u8) -> Option<usize>
        ensures { result ≡ next_of self.now owner length byte }
    {
        self.next.get(&(owner, length, byte)).copied()
    }

    /// The first prefix that is a whole front.
    pub fn end(&self, owner: usize, length: usize) -> Option<usize>
        ensures { result ≡ end_of self.now owner length }
    {
        self.end.get(&(owner, length)).copied()
    }

    /// The owner of a front with one more byte: `new` where no prefix has had it.
    pub fn go_on(
        &mut self,
        owner: usize,
        length: usize,
        byte: u8,
        new: usize,
    ) -> Result<usize, NoMemory>
        ensures went { IfOk result (λ to. next_of self.new owner length byte ≡ Some to) }
        ensures stay { OnOk result (NextStay (next_of self.old) (next_of self.new)) }
        ensures only { OnOk result (NextOnly (next_of self.old) (next_of self.new) owner length byte new) }
        ensures ends { OnOk result (self.new.end ≡ self.old.end) }
    {
        match self.next(owner, length, byte) {
            Some(to) => Ok(to),
            None => match self.next.insert((owner, length, byte), new) {
                Ok(_) => Ok(new),
                Err(_) => Err(NoMemory),
            },
        }
    }

    /// A front is a whole prefix, of the number `new` where none was before.
    pub fn end_at(&mut self, owner: usize, length: usize, new: usize) -> Result<(), NoMemory>
        ensures ended { OnOk result ((to : ℕ) × (end_of self.new owner length ≡ Some to)) }
        ensures stay { OnOk result (EndStay (end_of self.old) (end_of self.new)) }
        ensures only { OnOk result (EndOnly (end_of self.old) (end_of self.new) owner length new) }
        ensures nexts { OnOk result (self.new.next ≡ self.old.next) }
    {
        match self.end(owner, length) {
            Some(_) => Ok(()),
            None => match self.end.insert((owner, length), new) {
                Ok(_) => Ok(()),
                Err(_) => Err(NoMemory),
            },
        }
    }
}
