//! Networks that are made by hand.

ghost use Rattle.std.specs.Prelude.{IsTrue};
ghost use Rattle.fm_net.specs.Net.{IsArcKind};
ghost use Rattle.fm_net.specs.Nodes.{IsRequestInRange};

use fm_lattice::join::OutOfMemory;
use fm_net::network::Network;
use fm_net::node::Node;
use std::alloc::Global;

/// An arc between two nodes, with its capacity and its cost.
pub(crate) type Laid = (Node, Node, u64, u32);

// Whether an arc may join the nodes.
fn may_join(from: &Node, to: &Node) -> bool
    ensures kinds { IsTrue result → IsArcKind from.now to.now }
    ensures from_range { IsTrue result → IsRequestInRange from.now }
    ensures to_range { IsTrue result → IsRequestInRange to.now }
{
    match (*from, *to) {
        (Node::Task(_), Node::Request(request)) | (Node::Request(request), Node::Machine(_)) => {
            request <= 1_000_000
        }
        (Node::Task(_), Node::Machine(_) | Node::Unscheduled(_))
        | (Node::Machine(_) | Node::Unscheduled(_), Node::Sink) => true,
        _ => false,
    }
}

/// Puts the arc with its ends, if it may be.
pub(crate) fn lay(network: &mut Network, arc: &Laid) -> Result<(), OutOfMemory> {
    let (from, to, capacity, cost) = *arc;
    if !may_join(&from, &to) || capacity == 0 || cost > 1_000_000_000 {
        return Ok(());
    }
    network.put_node(from)?;
    network.put_node(to)?;
    network.put_arc(from, to, capacity, cost)?;
    Ok(())
}

/// The network of those of the arcs that may be, with their ends.
pub(crate) fn network_of(alloc: Global, arcs: &[Laid]) -> Result<Network, OutOfMemory> {
    let mut network = Network::new(alloc)?;
    for arc in arcs {
        lay(&mut network, arc)?;
    }
    Ok(network)
}
