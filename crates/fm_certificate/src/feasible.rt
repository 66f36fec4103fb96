//! Whether a flow is feasible: the walks over arcs and nodes that find it.

ghost use Rattle.std.specs.Prelude.{◌≡◌, ◌↔◌, IsTrue};
ghost use Rattle.std.specs.List.{list_all};
ghost use Rattle.fm_certificate.specs.Flows.{units_in, IsFeasible};
ghost use Rattle.fm_certificate.specs.inner.Checks.{AreUnitsWithin, sends};

use crate::flow::Flow;
use fm_net::network::Network;
use fm_net::node::Node;

/// Whether the flow's keys are the network's arcs, and it is feasible: each arc has at most its capacity, each task sends
/// one unit, and the nodes between tasks and sink keep none. Allocates nothing. O((nodes + arcs) log nodes).
pub fn is_feasible(network: &Network, flow: &Flow) -> bool
    ensures { IsTrue result → IsFeasible network.now (units_in flow.now) }
{
    flow.known();
    if !are_units_within(network, flow) {
        return false;
    }
    nodes_send(network, flow)
}

// Whether the flow's keys are exactly the arcs, and each arc's units are within its capacity.
fn are_units_within(network: &Network, flow: &Flow) -> bool
    ensures { IsTrue result ↔ AreUnitsWithin flow.now network.now.arcs }
{
    let mut entries = flow.iter();
    for (from, to, capacity, _) in network.arcs() {
        let Some((source, target, units)) = entries.next() else {
            return false;
        };
        if source != from || target != to || units > capacity {
            return false;
        }
    }
    entries.next().is_none()
}

// Whether each task sends one unit, and each node between tasks and sink what enters it.
pub(crate) fn nodes_send(network: &Network, flow: &Flow) -> bool
    ensures { result ≡ list_all (sends flow.now) network.now.nodes }
{
    network.nodes().all(|node| sends(flow, &node))
}

// Whether the node sends what it has to.
fn sends(flow: &Flow, node: &Node) -> bool
    ensures { result ≡ sends flow.now node.now }
{
    match node {
        Node::Sink => true,
        Node::Task(_) => flow.leaving(node) == 1,
        Node::Unscheduled(_) | Node::Request(_) | Node::Machine(_) => {
            flow.entering(node) == flow.leaving(node)
        }
    }
}
