//! From numbers back to the network's flows and potentials, in one walk and without a search.

ghost use Rattle.std.specs.Prelude.{◌≡◌, IfOk, length, slice_index_or};
ghost use Rattle.fm_net.specs.declared.node.Node.{Node as NodeName};
ghost use Rattle.fm_cycles.specs.Walks.{ArePotentials};
ghost use Rattle.fm_cycles.specs.Residual.{residual};
ghost use Rattle.fm_cycles.specs.Found.{costs_in};
ghost use Rattle.fm_certificate.specs.Certificates.{IsCertified};
ghost use Rattle.fm_indexed.specs.Numbered.{IsNumbered};
ghost use Rattle.fm_indexed.specs.Feasible.{IsFlowOf};
ghost use Rattle.fm_indexed.specs.inner.Named.{name_at, named_units, named_potentials, units_by, entered_by};

use crate::indexed_network::IndexedNetwork;
use crate::numbering::nodes_of;
use crate::sums::{at, inflow, sum_at};
use fm_certificate::flow::Flow;
use fm_certificate::potentials::Potentials;
use fm_cycles::indexed_arcs::IndexedArc;
use fm_cycles::lookup::value_or;
use fm_lattice::join::OutOfMemory;
use fm_net::network::Network;
use fm_net::node::Node;
use std::alloc::Global;

// The node at a place, the sink beyond the end.
fn node_at(nodes: &[Node], place: usize) -> Node
    ensures { result ≡ name_at nodes.now place }
{
    value_or(nodes, place, Node::Sink)
}

// The units of the arcs, in order, by the nodes at their ends.
fn units_of(
    alloc: Global,
    nodes: &[Node],
    arcs: &[IndexedArc],
    units: &[u64],
) -> Result<Vec<((Node, Node), u64)>, OutOfMemory>
    ensures { IfOk result (λ entries. entries.items ≡ units_by nodes.now arcs.now units.now) }
{
    let mut entries = Vec::with_capacity(alloc, arcs.len())?;
    for (place, arc) in arcs.iter().enumerate() {
        let ends = (node_at(nodes, arc.from), node_at(nodes, arc.to));
        entries.push((ends, at(units, place)))?;
    }
    Ok(entries)
}

// What enters the nodes, in order, except those that nothing enters.
fn entered_of(
    alloc: Global,
    nodes: &[Node],
    sums: &[u128],
) -> Result<Vec<(Node, u128)>, OutOfMemory>
    ensures { IfOk result (λ entered. entered.items ≡ entered_by nodes.now sums.now) }
{
    let mut entered = Vec::new(alloc);
    for (place, node) in nodes.iter().enumerate() {
        let sum = sum_at(sums, place);
        if sum != 0 {
            entered.push((*node, sum))?;
        }
    }
    Ok(entered)
}

// The units of the arcs, in order, as a flow.
fn flow_of(
    alloc: Global,
    network: &Network,
    nodes: &[Node],
    numbered: &IndexedNetwork,
    units: &[u64],
) -> Result<Flow, OutOfMemory>
    requires nodes { nodes.now ≡ network.now.nodes }
    requires numbered { IsNumbered network.now numbered.now.places numbered.now.arcs.items }
    ensures { IfOk result (λ flow. flow ≡ named_units network.now.arcs units.now) }
{
    network.known();
    let entries = units_of(alloc, nodes, &numbered.arcs, units)?;
    let sums = inflow(alloc, numbered, units)?;
    let entered = entered_of(alloc, nodes, &sums)?;
    Ok(Flow::of(entries, entered))
}

// The value at a place, 0 beyond the end.
fn value_at(values: &[i128], place: usize) -> i128
    ensures { result ≡ costs_in values.now place }
{
    value_or(values, place, 0)
}

// The values of the nodes, in order.
fn values_of(
    alloc: Global,
    nodes: &[Node],
    values: &[i128],
) -> Result<Vec<(Node, i128)>, OutOfMemory>
    ensures { IfOk result (λ pairs. pairs.items ≡ named_potentials nodes.now values.now) }
{
    let mut pairs = Vec::with_capacity(alloc, nodes.len())?;
    for (place, node) in nodes.iter().enumerate() {
        pairs.push((*node, value_at(values, place)))?;
    }
    Ok(pairs)
}

// The values of the nodes, in order, as potentials.
fn potentials_of(
    alloc: Global,
    network: &Network,
    nodes: &[Node],
    values: &[i128],
) -> Result<Potentials, OutOfMemory>
    requires nodes { nodes.now ≡ network.now.nodes }
    ensures { IfOk result (λ potentials. potentials ≡ named_potentials network.now.nodes values.now) }
{
    network.known();
    let pairs = values_of(alloc, nodes, values)?;
    Ok(Potentials::of(pairs))
}

/// The flow and the potentials by their names in the network. The caller must pass a flow of this network by numbers,
/// and potentials that show it to be least: then they certify it. Refused only if memory runs out.
pub fn certified(
    alloc: Global,
    network: &Network,
    numbered: &IndexedNetwork,
    units: &[u64],
    values: &[i128],
) -> Result<(Flow, Potentials), OutOfMemory>
    requires numbered { IsNumbered network.now numbered.now.places numbered.now.arcs.items }
    requires flow { IsFlowOf numbered.now.places numbered.now.arcs.items units.now }
    requires potentials { ArePotentials (residual numbered.now.arcs.items units.now) (costs_in values.now) }
    ensures { IfOk result (λ found. IsCertified network.now found.0 found.1) }
{
    network.known();
    let nodes = nodes_of(alloc, network)?;
    let flow = flow_of(alloc, network, &nodes, numbered, units)?;
    let potentials = potentials_of(alloc, network, &nodes, values)?;
    Ok((flow, potentials))
}
