//! The arcs and requests of a network by numbers.

ghost use Rattle.std.specs.Prelude.{◌≡◌, IfOk};
ghost use Rattle.std.specs.List.{filter_map};
ghost use Rattle.fm_indexed.specs.NodeRanges.{AreRangesOf};
ghost use Rattle.fm_indexed.specs.Numbered.{AreArcsOf, bandwidth_in};

use crate::node_index::{index_by, index_of};
use crate::node_ranges::NodeRanges;
use fm_cycles::indexed_arcs::IndexedArc;
use fm_lattice::join::OutOfMemory;
use fm_net::network::Network;
use fm_net::node::Node;
use fm_net::node_guesses::NodeGuesses;
use std::alloc::Global;

/// The nodes, in order.
pub(crate) fn nodes_of(alloc: Global, network: &Network) -> Result<Vec<Node>, OutOfMemory>
    ensures { IfOk result (λ nodes. nodes.items ≡ network.now.nodes) }
{
    let nodes = network.nodes().collect(alloc)?;
    Ok(nodes)
}

/// The arcs by places of nodes, in the network's order.
pub(crate) fn arcs_of(
    alloc: Global,
    network: &Network,
    nodes: &[Node],
    places: &NodeRanges,
) -> Result<Vec<IndexedArc>, OutOfMemory>
    requires nodes { nodes.now ≡ network.now.nodes }
    requires places { AreRangesOf nodes.now places.now }
    ensures { IfOk result (λ arcs. AreArcsOf nodes.now network.now.arcs arcs.items) }
{
    network.known();
    let mut arcs = Vec::with_capacity(alloc, network.arcs_len())?;
    let mut guesses = NodeGuesses::none(alloc, nodes.len())?;
    let mut from = 0;
    let mut to = 0;
    for arc in network.arc_entries() {
        from = index_of(nodes, places, from, &arc.0.0);
        to = index_by(nodes, places, to, &mut guesses, &arc.0.1);
        arcs.push(IndexedArc {
            from,
            to,
            capacity: arc.1.0,
            cost: arc.1.1,
        })?;
    }
    Ok(arcs)
}

// The bandwidth of a request's node.
fn bandwidth(node: &Node) -> Option<u32>
    ensures { result ≡ bandwidth_in node.now }
{
    match node {
        Node::Request(bandwidth) => Some(*bandwidth),
        Node::Sink | Node::Unscheduled(_) | Node::Machine(_) | Node::Task(_) => None,
    }
}

/// The bandwidths of the requests, in order.
pub(crate) fn requests_of(alloc: Global, nodes: &[Node]) -> Result<Vec<u32>, OutOfMemory>
    ensures { IfOk result (λ requests. requests.items ≡ filter_map bandwidth_in nodes.now) }
{
    let requests = nodes.iter().filter_map(bandwidth).collect(alloc)?;
    Ok(requests)
}
