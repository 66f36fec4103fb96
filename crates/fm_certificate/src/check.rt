//! The checker of certificates: whether a flow is least is seen without trust in whoever computed it.
//!
//! A solver is long, and this is a few walks over nodes and arcs. Potentials certify a feasible flow if they meet
//! complementary slackness at each arc (Ahuja, Magnanti and Orlin, "Network flows", 1993): then no feasible flow costs
//! less. A solver that also answers potentials is a certifying algorithm (McConnell, Mehlhorn, Näher and Schweitzer,
//! 2011).

ghost use Rattle.std.specs.Prelude.{◌≡◌, ◌↔◌, ◌≤◌, IsTrue};
ghost use Rattle.fm_certificate.specs.Flows.{units_in, IsLeast};
ghost use Rattle.fm_certificate.specs.Certificates.{potential_in, reduced_cost, AreSmall, IsCertified};
ghost use Rattle.fm_certificate.specs.inner.Checks.{IsComplementary, FitAll, AreOf};

use crate::feasible::nodes_send;
use crate::flow::Flow;
use crate::potentials::Potentials;
use fm_net::network::Network;
use fm_net::node::Node;

/// Whether the potentials certify that the flow is least: the flow is feasible, the keys of flow and potentials are
/// exactly the network's arcs and nodes, no potential is beyond 2^100 in size, and, with potentials p, an arc from u to
/// v of cost c has c + p(u) - p(v) >= 0 if a further unit fits, and <= 0 if it has a unit. Then no feasible flow costs
/// less. Allocates nothing. O((nodes + arcs) log nodes).
pub fn check(network: &Network, flow: &Flow, potentials: &Potentials) -> bool
    ensures exact { IsTrue result ↔ IsCertified network.now flow.now potentials.now }
    ensures least { IsTrue result → IsLeast network.now (units_in flow.now) }
{
    network.known();
    flow.known();
    potentials.known();
    if !potentials.are_of(network) {
        return false;
    }
    if !arcs_fit(network, flow, potentials) {
        return false;
    }
    nodes_send(network, flow)
}

// Whether the flow's keys are exactly the arcs, and each arc's units fit it.
fn arcs_fit(network: &Network, flow: &Flow, potentials: &Potentials) -> bool
    requires small { AreSmall potentials.now }
    ensures { IsTrue result ↔ FitAll potentials.now flow.now network.now.arcs }
{
    let mut entries = flow.iter();
    for (from, to, capacity, cost) in network.arcs() {
        let Some((source, target, units)) = entries.next() else {
            return false;
        };
        if source != from || target != to {
            return false;
        }
        if !fits(units, capacity, reduced(potentials, &from, &to, cost)) {
            return false;
        }
    }
    entries.next().is_none()
}

// What a further unit over the arc costs, with the potentials of its ends.
fn reduced(potentials: &Potentials, from: &Node, to: &Node, cost: u32) -> i128
    requires small { AreSmall potentials.now }
    ensures { result ≡ reduced_cost cost (potential_in potentials.now from.now) (potential_in potentials.now to.now) }
{
    i128::from(cost) + potentials.or_zero(from) - potentials.or_zero(to)
}

// Whether the units are within the capacity, a further one saves nothing, and neither does one less.
fn fits(units: u64, capacity: u64, reduced: i128) -> bool
    ensures { IsTrue result ↔ IsComplementary units capacity reduced }
{
    units <= capacity && (units == capacity || reduced >= 0) && (units == 0 || reduced <= 0)
}
