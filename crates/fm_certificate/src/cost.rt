//! What a flow costs: the sum of cost times units over all arcs.
//!
//! A flow of a network has the network's arcs as its keys, in the same order. So the units of each arc are looked for
//! at its own place first: O(arcs), and a search for each only if the keys are others.

ghost use Rattle.std.specs.Prelude.{◌≡◌, ◌*◌};
ghost use Rattle.fm_certificate.specs.PolicyNetwork.{IsBuilt};
ghost use Rattle.fm_certificate.specs.Flows.{units_in, cost_of, IsFeasible};

use crate::flow::Flow;
use fm_net::network::Network;
use fm_net::node::Node;

/// The sum of cost times units over all arcs. The caller must pass a network that the policy can build, and a feasible
/// flow. Allocates nothing. O(arcs) if the flow's keys are exactly the arcs, O(arcs log arcs) else.
pub fn cost(network: &Network, flow: &Flow) -> u128
    requires built { IsBuilt network.now }
    requires feasible { IsFeasible network.now (units_in flow.now) }
    ensures { result ≡ cost_of network.now (units_in flow.now) }
{
    network.known();
    let mut sum = 0;
    let mut near = 0usize;
    for arc in network.arc_entries() {
        sum += price(flow, near, arc);
        near = near.saturating_add(1);
    }
    sum
}

// The cost of the units on the arc, which are looked for near a place first.
fn price(flow: &Flow, near: usize, arc: &((Node, Node), (u64, u32))) -> u128
    ensures { result ≡ arc.now.1.1 * units_in flow.now arc.now.0.0 arc.now.0.1 }
{
    let (ends, (_, cost)) = arc;
    if *cost == 0 {
        return 0;
    }
    u128::from(*cost) * u128::from(flow.units_at(near, ends).unwrap_or(0))
}
