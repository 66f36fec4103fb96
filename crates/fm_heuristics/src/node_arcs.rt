//! The arcs of nodes: those of a network by numbers are in the order of the nodes that they leave.

use crate::lenient::part;
use fm_cycles::indexed_arcs::IndexedArc;
use fm_indexed::indexed_network::IndexedNetwork;

/// Where the arcs that leave nodes from this place on begin. O(log arcs).
pub(crate) fn first_from(numbered: &IndexedNetwork, node: usize) -> usize {
    numbered.arcs.partition_point(|arc| arc.from < node)
}

/// The arcs that leave nodes from the first place to before the end. O(log arcs).
pub(crate) fn arcs_between(numbered: &IndexedNetwork, first: usize, end: usize) -> &[IndexedArc] {
    part(
        &numbered.arcs,
        first_from(numbered, first),
        first_from(numbered, end),
    )
}

/// The arcs that leave the node, if the arcs from the number on begin with them. O(arcs of the node).
pub(crate) fn arcs_of_node(numbered: &IndexedNetwork, node: usize, first: usize) -> &[IndexedArc] {
    let rest = part(&numbered.arcs, first, numbered.arcs.len());
    let count = rest.iter().take_while(|arc| arc.from == node).count();
    part(rest, 0, count)
}
