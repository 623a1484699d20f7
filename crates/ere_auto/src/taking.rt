//! What a node takes.
ghost use Rattle.std.specs.Prelude.{◌≡◌, ℕ, ◌≤◌, IfSome, MatchOption};
ghost use Rattle.ere_table.specs.Node.{node_of, furthest};
ghost use Rattle.ere_auto.specs.Closure.{Takes};

use ere_table::EreNode;

/// The node behind a byte.
pub fn taken(node: EreNode, byte: u8) -> Option<usize>
    ensures takes { MatchOption result ((q : ℕ) → Takes (node_of node) byte q → ⊥) (Takes (node_of node) byte) }
    ensures one { IfSome result (λ to. (q : ℕ) → Takes (node_of node) byte q → q ≡ to) }
    ensures near { IfSome result (λ to. to ≤ furthest node) }
{
    match node {
        EreNode::Byte { byte: own, next } => { if own == byte { Some(next) } else { None } }
        EreNode::Set { set, next } => { if set.has(byte) { Some(next) } else { None } }
        EreNode::Stop
        | EreNode::Fork { .. }
        | EreNode::AtStart { .. }
        | EreNode::AtEnd { .. }
        | EreNode::Fail => { None }
    }
}
