//! Putting an expression into a table, from its end to its front: what is put leads to what was the entry before.
ghost use Rattle.std.specs.Prelude.{◌≡◌, ℕ, ◌+◌, ◌<◌, ◌≤◌, ◌++◌, ◌∷◌, [], false, vec_len, map, OnOk};
ghost use Rattle.ere_tree.specs.Shape.{has_refs, any_has_refs};
ghost use Rattle.ere_tree.specs.Tree.{trees_of};
ghost use Rattle.ere_tree.specs.View.{view};
ghost use Rattle.ere_table.specs.Node.{node_at, node_of, furthest};
ghost use Rattle.ere_table.specs.Stands.{PlainStands, LoopStands, CopiesStand, Stands, AllStand, OneStands};
ghost use Rattle.ere_table.specs.Table.{Grows};

use crate::node::EreNode;
use crate::table::NodeTable;
use ere_tree::Ere;
use std::alloc::AllocError;

impl NodeTable {
    /// Adds a node, and enters there.
    fn push(&mut self, node: EreNode) -> Result<(), AllocError>
        requires { furthest node < vec_len self.old.nodes }
        ensures node { OnOk result (node_at self.new.nodes.items self.new.entry ≡ node_of node) }
        ensures grows { OnOk result (Grows self.old.nodes.items self.new.nodes.items) }
        ensures place { OnOk result (self.new.entry ≡ vec_len self.old.nodes) }
        ensures longer { OnOk result (vec_len self.new.nodes ≡ vec_len self.old.nodes + 1) }
    {
        let place = self.nodes.len();
        self.nodes.push(node)?;
        self.entry = place;
        Ok(())
    }

    /// Puts bytes in front of the entry.
    fn put_bytes(&mut self, bytes: &[u8]) -> Result<(), AllocError>
        ensures stands { OnOk result
            (PlainStands (node_at self.new.nodes.items) bytes.now self.new.entry self.old.entry) }
        ensures grows { OnOk result (Grows self.old.nodes.items self.new.nodes.items) }
    {
        let mut left = bytes.len();
        while left > 0 {
            left -= 1;
            self.push(EreNode::Byte {
                byte: bytes[left],
                next: self.entry,
            })?;
        }
        Ok(())
    }

    /// Puts an expression in front of the entry.
    #[cycle(put)]
    pub(crate) fn put(&mut self, ere: &Ere) -> Result<(), AllocError>
        requires { has_refs (view ere.now) ≡ false }
        ensures stands { OnOk result
            (Stands (node_at self.new.nodes.items) (view ere.now) self.new.entry self.old.entry) }
        ensures grows { OnOk result (Grows self.old.nodes.items self.new.nodes.items) }
    {
        let next = self.entry;
        match ere {
            Ere::Empty => Ok(()),
            Ere::Plain(run) => self.put_bytes(run.as_slice()),
            Ere::Set(set) => self.push(EreNode::Set { set: *set, next }),
            Ere::LineStart => self.push(EreNode::AtStart { next }),
            Ere::LineEnd => self.push(EreNode::AtEnd { next }),
            Ere::Cat(parts) => self.put_all(parts.as_slice()),
            Ere::Alt(choices) => self.put_one(choices.as_slice()),
            Ere::Repeat { inner, least, most } => match most {
                None => self.put_loop(inner, *least),
                Some(most) => self.put_copies(inner, *least, *most),
            },
            Ere::Group { inner, .. } => self.put(inner),
            Ere::Ref { .. } => unreachable!(),
        }
    }

    /// Puts expressions one behind the other in front of the entry.
    #[cycle(put)]
    fn put_all(&mut self, parts: &[Ere]) -> Result<(), AllocError>
        requires { any_has_refs (trees_of (map view parts.now)) ≡ false }
        ensures stands { OnOk result
            (AllStand (node_at self.new.nodes.items) (trees_of (map view parts.now)) self.new.entry self.old.entry) }
        ensures grows { OnOk result (Grows self.old.nodes.items self.new.nodes.items) }
    {
        let mut left = parts.len();
        while left > 0 {
            left -= 1;
            self.put(&parts[left])?;
        }
        Ok(())
    }

    /// Puts expressions beside each other in front of the entry.
    #[cycle(put)]
    fn put_one(&mut self, choices: &[Ere]) -> Result<(), AllocError>
        requires { any_has_refs (trees_of (map view choices.now)) ≡ false }
        ensures stands { OnOk result
            (OneStands (node_at self.new.nodes.items) (trees_of (map view choices.now)) self.new.entry self.old.entry) }
        ensures grows { OnOk result (Grows self.old.nodes.items self.new.nodes.items) }
    {
        let next = self.entry;
        self.push(EreNode::Fail)?;
        let mut left = choices.len();
        while left > 0 {
            left -= 1;
            let other = self.entry;
            self.entry = next;
            self.put(&choices[left])?;
            self.push(EreNode::Fork {
                one: self.entry,
                other,
            })?;
        }
        Ok(())
    }

    /// Puts a repeat with no most in front of the entry.
    #[cycle(put)]
    fn put_loop(&mut self, inner: &Ere, least: u32) -> Result<(), AllocError>
        requires { has_refs (view inner.now) ≡ false }
        ensures stands { let nodes = node_at self.new.nodes.items in OnOk result
            (LoopStands nodes (Stands nodes (view inner.now)) least self.new.entry self.old.entry) }
        ensures grows { OnOk result (Grows self.old.nodes.items self.new.nodes.items) }
    {
        let next = self.entry;
        self.push(EreNode::Stop)?;
        let head = self.entry;
        self.put(inner)?;
        self.nodes[head] = EreNode::Fork {
            one: self.entry,
            other: next,
        };
        self.entry = head;
        for _ in 0..least {
            self.put(inner)?;
        }
        Ok(())
    }

    /// Puts a repeat with a most in front of the entry.
    #[cycle(put)]
    fn put_copies(&mut self, inner: &Ere, least: u32, most: u32) -> Result<(), AllocError>
        requires { has_refs (view inner.now) ≡ false }
        ensures stands { let nodes = node_at self.new.nodes.items in OnOk result
            (CopiesStand nodes (Stands nodes (view inner.now)) least most self.new.entry self.old.entry) }
        ensures grows { OnOk result (Grows self.old.nodes.items self.new.nodes.items) }
    {
        let next = self.entry;
        if most < least {
            self.push(EreNode::Fail)?;
        }
        for _ in least..most {
            self.put(inner)?;
            self.push(EreNode::Fork {
                one: self.entry,
                other: next,
            })?;
        }
        for _ in 0..least.min(most) {
            self.put(inner)?;
        }
        Ok(())
    }
}
