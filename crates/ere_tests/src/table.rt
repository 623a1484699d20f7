//! Tables of small expressions.
use ere_table::NodeTable;
use ere_tree::parse;
use std::alloc::Global;

/// How many nodes the table of an expression has. Nothing of one that is refused or has references.
fn nodes_of(alloc: Global, expression: &str) -> Option<usize> {
    let ere = parse(alloc, expression.as_bytes(), false).ok()?;
    if ere.has_refs() {
        return None;
    }
    let table = NodeTable::build(alloc, &ere).ok()?;
    Some(table.nodes.len())
}

/// Whether the table of a row's expression has so many nodes.
fn has_nodes(alloc: Global, row: &str) -> bool {
    match row.split_once(" => ") {
        Some((expression, due)) => nodes_of(alloc, expression) == due.parse::<usize>().ok(),
        None => false,
    }
}

/// An expression, and the number of nodes.
const NODES: &str = " => 1
abc => 4
[ab]^$ => 4
a|b => 6
a* => 3
a{3} => 4
a{2,4} => 7
(a{2}){3} => 7
a{0} => 1";

#[test]
fn a_table_has_a_node_for_each_place_of_the_unfolded_expression(rt: HostRuntime) {
    for row in NODES.lines() {
        assert!(rt; has_nodes(rt.alloc(), row), "{row}");
    }
}
