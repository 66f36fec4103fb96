//! Where each node may stand in a list, as it was found there last: most nodes are ends of many arcs, and are searched for once.

use crate::node::Node;
use fm_lattice::join::OutOfMemory;
use std::alloc::Global;

// At most so many guesses are kept: in 64 KB, which stay in a processor's cache, one for each machine of some thousand.
const MOST: usize = 8192;

// Knuth's multiplier, a prime near 2^32 over the golden ratio: it spreads bandwidths, most of which are multiples of a
// round number.
const SPREAD: u64 = 2_654_435_761;

// The lowest bits of a product depend on the lowest bits of the bandwidth alone, so the slot is taken above them.
const LOWEST: u64 = 4096;

// The lower half of an id.
fn lower(id: u128) -> u64 {
    (id % (1 << 64)) as u64
}

// Some number of the node's name.
fn number_of(node: &Node) -> u64 {
    match node {
        Node::Sink => 0,
        Node::Request(bandwidth) => u64::from(*bandwidth) * SPREAD / LOWEST,
        Node::Unscheduled(job) => lower(job.value()),
        Node::Machine(machine) => lower(machine.value()),
        Node::Task(task) => lower(task.value()),
    }
}

/// Guesses the places of nodes in a list. Nodes share guesses, so that one may be wrong: whoever uses it compares the node there.
#[derive(Drop)]
pub struct NodeGuesses {
    // As many as a power of two.
    places: Vec<usize>,
}

impl NodeGuesses {
    /// For a list of so many nodes, of which none was found yet. At most 64 KB. Refused only if memory runs out.
    pub fn none(alloc: Global, nodes: usize) -> Result<NodeGuesses, OutOfMemory> {
        let count = nodes.min(MOST).checked_next_power_of_two().unwrap_or(MOST);
        let places = vec![in alloc; 0usize; count]?;
        Ok(NodeGuesses { places })
    }

    // Where the node's guess is kept.
    fn slot(&self, node: &Node) -> usize {
        number_of(node) as usize & self.places.len().saturating_sub(1)
    }

    /// Where the node may stand. O(1).
    pub fn guess(&self, node: &Node) -> usize {
        self.places.get(self.slot(node)).copied().unwrap_or(0)
    }

    /// The node stands there. O(1).
    pub fn keep(&mut self, node: &Node, place: usize) {
        let slot = self.slot(node);
        if let Some(there) = self.places.get_mut(slot) {
            *there = place;
        }
    }
}
