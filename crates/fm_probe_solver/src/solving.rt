//! Solving a network, from nothing and from earlier flows.

ghost use Rattle.std.specs.Prelude.{◌≡◌, ◌<◌, ◌^◌, length, IfOk};
ghost use Rattle.fm_net.specs.Network.{net_of};
ghost use Rattle.fm_certificate.specs.PolicyNetwork.{IsBuilt};
ghost use Rattle.fm_certificate.specs.Flows.{units_in, cost_of, IsLeast};
ghost use Rattle.fm_cycles.specs.Residual.{AreArcs};
ghost use Rattle.fm_cycles.specs.Units.{AreCapacities, AreWithin};

use fm_cycles::cancel::cancel;
use fm_cycles::cycle_search::search;
use fm_cycles::indexed_arcs::IndexedArc;
use fm_flow::cost::cost;
use fm_flow::flow::Flow;
use fm_flow::solve::{solve, solve_from};
use fm_heuristics::first::first_flow;
use fm_heuristics::searched::searched;
use fm_indexed::indexed_network::IndexedNetwork;
use fm_indexed::unscheduled::law_unscheduled;
use fm_know::knowledge::Knowledge;
use fm_know::laws::law_can_be;
use fm_lattice::join::OutOfMemory;
use fm_net::network::Network;
use fm_policy::build::build;
use fm_records::refusal::Refusal;
use std::alloc::Global;

// More cycles than are counted.
const MANY: usize = 1000;

/// The network of what is known.
pub(crate) fn network_of(alloc: Global, known: &Knowledge) -> Result<Network, Refusal>
    ensures { IfOk result (λ network. IsBuilt network) }
{
    law_can_be(known);
    let network = build(alloc, known)?;
    Ok(network)
}

/// A least flow, with what it costs.
pub(crate) fn anew(alloc: Global, network: &Network) -> Result<(Flow, u128), Refusal>
    requires { IsBuilt network.now }
    ensures { IfOk result (λ found. found.1 ≡ cost_of network.now (units_in found.0)) }
{
    let (flow, _) = solve(alloc, network)?;
    let cost = cost(network, &flow);
    Ok((flow, cost))
}

/// A least flow from an earlier one, with what it costs.
pub(crate) fn from(
    alloc: Global,
    network: &Network,
    earlier: &Flow,
) -> Result<(Flow, u128), Refusal>
    requires { IsBuilt network.now }
    ensures { IfOk result (λ found. found.1 ≡ cost_of network.now (units_in found.0)) }
{
    let (flow, _) = solve_from(alloc, network, earlier)?;
    let again = cost(network, &flow);
    Ok((flow, again))
}

/// What a least flow from an earlier one costs.
pub(crate) fn cost_from(alloc: Global, network: &Network, earlier: &Flow) -> Result<u128, Refusal>
    requires { IsBuilt network.now }
{
    let (_, cost) = from(alloc, network, earlier)?;
    Ok(cost)
}

/// What the flow costs that the search finds, if it finds any.
pub(crate) fn searched_cost(alloc: Global, network: &Network) -> Result<Option<u128>, Refusal> {
    let numbered = IndexedNetwork::of(alloc, network)?;
    let Some((units, _costs)) = searched(alloc, &numbered)? else {
        return Ok(None);
    };
    let mut cost = 0u128;
    for (arc, sent) in numbered.arcs.iter().zip(units.iter()) {
        let part = u128::from(arc.cost).saturating_mul(u128::from(*sent));
        cost = cost.saturating_add(part);
    }
    Ok(Some(cost))
}

/// How many cycles are cancelled after the first flow, at most 1,000.
pub(crate) fn cycles_after_first(alloc: Global, network: &Network) -> Result<usize, Refusal>
    requires { IsBuilt network.now }
{
    network.known();
    law_unscheduled();
    let numbered = IndexedNetwork::of(alloc, network)?;
    let (units, _) = first_flow(alloc, &numbered)?;
    let count = cycles(alloc, numbered.places.end, &numbered.arcs, units)?;
    Ok(count)
}

// How many cycles are cancelled until there is none, at most 1,000.
fn cycles(
    alloc: Global,
    nodes: usize,
    arcs: &[IndexedArc],
    units: Vec<u64>,
) -> Result<usize, OutOfMemory>
    requires arcs { AreArcs arcs.now nodes }
    requires few { nodes < 2 ^ 63 }
    requires sized { length units.items ≡ length arcs.now }
    requires within { AreWithin arcs.now units.items }
    requires fits { AreCapacities arcs.now }
{
    let mut units = units;
    for count in 0..MANY {
        let first = vec![in alloc; 0i128; nodes]?;
        let mut cycles = search(alloc, nodes, arcs, &units, first)?.cycles;
        match cycles.pop() {
            Some(cycle) => {
                cancel(arcs, &mut units, &cycle);
            }
            None => return Ok(count),
        }
    }
    Ok(MANY)
}
