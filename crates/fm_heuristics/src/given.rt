//! The units of an earlier flow on the arcs of a network, found without a search.
//!
//! The earlier flow may be of another network. Both have their arcs in the same order, so one walk along both finds
//! each arc's units: a merge join, O(arcs of both).

use fm_certificate::flow::Flow;
use fm_certificate::flow_iter::FlowIter;
use fm_indexed::indexed_network::IndexedNetwork;
use fm_lattice::join::OutOfMemory;
use fm_net::network::Network;
use fm_net::node::Node;
use std::alloc::Global;
use std::cmp::Ordering;

// A walk over the units of an earlier flow: the next ones, and how many it has not passed by.
#[derive(Drop)]
struct Earlier<'a> {
    next: Option<(Node, Node, u64)>,
    rest: FlowIter<'a>,
    left: usize,
}

impl<'a> Earlier<'a> {
    // From the first units on.
    fn of(flow: &'a Flow) -> Self {
        let mut rest = flow.iter();
        Earlier {
            next: rest.next(),
            rest,
            left: flow.len(),
        }
    }

    // Passes by the units on arcs before this one, and answers those on it, if any are left. O(1) for each that it passes.
    fn units(&mut self, from: &Node, to: &Node) -> u64 {
        'passing: while self.left > 0 {
            let Some((source, target, units)) = self.next else {
                return 0;
            };
            if source == *from && target == *to {
                return units;
            }
            match (source, target).cmp(&(*from, *to)) {
                Ordering::Greater => return 0,
                Ordering::Less | Ordering::Equal => {
                    self.next = self.rest.next();
                    self.left -= 1;
                }
            }
        }
        0
    }
}

/// The flow's units on the network's arcs, in order; 0 on arcs that it does not have. Both come in the same order, so that
/// nothing is looked up: O(arcs of both).
pub(crate) fn given_units(
    alloc: Global,
    network: &Network,
    numbered: &IndexedNetwork,
    flow: &Flow,
) -> Result<Vec<u64>, OutOfMemory> {
    let nodes: Vec<Node> = network.nodes().collect(alloc)?;
    let mut units = Vec::with_capacity(alloc, numbered.arcs.len())?;
    let mut earlier = Earlier::of(flow);
    for arc in numbered.arcs.iter() {
        let sent = match (nodes.get(arc.from), nodes.get(arc.to)) {
            (Some(from), Some(to)) => earlier.units(from, to),
            _ => 0,
        };
        units.push(sent)?;
    }
    Ok(units)
}
