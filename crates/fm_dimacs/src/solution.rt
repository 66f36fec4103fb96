//! The text of a flow: its cost, and a line for each arc with units, by the IDs of the network's text.
//!
//! Units are looked for at the arc's own place first, so that a flow of the network is written in O(arcs).

ghost use Rattle.std.specs.Prelude.{◌≡◌, ◌++◌, IfOk, OnOk, OnErr, IfErr, IsOkUnless, string_bytes};
ghost use Rattle.std.specs.List.{flat_map};
ghost use Rattle.std.specs.Io.KnownBytes.{Appends};
ghost use Rattle.fm_records.specs.Rising.{Rises};
ghost use Rattle.fm_net.specs.Nodes.{node_cmp};
ghost use Rattle.fm_certificate.specs.PolicyNetwork.{IsBuilt};
ghost use Rattle.fm_certificate.specs.Flows.{units_in, IsFeasible};
ghost use Rattle.fm_dimacs.specs.Sending.{AppendsPrefix, StopsBy, IsSent};
ghost use Rattle.fm_dimacs.specs.Solution.{cost_line, units_line, flow_line, solution_text};

use crate::decimals::push_number;
use crate::node_ids::FoundIds;
use crate::out::Out;
use crate::write_all::put_all;
use fm_certificate::cost::cost;
use fm_certificate::flow::Flow;
use fm_lattice::join::OutOfMemory;
use fm_net::network::Network;
use fm_net::node::Node;
use fm_records::refusal::Refusal;
use std::alloc::Global;

/// Writes the flow's text, with the IDs of the network's text. The caller must pass a network that the policy can
/// build, and a feasible flow. A refusal is as `dump`'s. O(arcs) if the flow's keys are exactly the arcs, and O(log arcs)
/// for each other key and for each end that is not found where it is guessed.
pub fn write_solution<W: Out>(
    alloc: Global,
    network: &Network,
    flow: &Flow,
    out: &mut W,
) -> Result<(), Refusal>
    requires built { IsBuilt network.now }
    requires feasible { IsFeasible network.now (units_in flow.now) }
    ensures ok { OnOk result (Appends (W.written out.old) (W.written out.new)
        (solution_text network.now (units_in flow.now))) }
    ensures ok_fails_not { OnOk result (W.has_failed out.new ≡ W.has_failed out.old) }
    ensures err { OnErr result (AppendsPrefix (W.written out.old) (W.written out.new)
        (solution_text network.now (units_in flow.now))) }
    ensures cause { IfErr result (λ refusal. StopsBy refusal (W.has_failed out.old) (W.has_failed out.new)) }
{
    network.known();
    let nodes = nodes_of(alloc, network)?;
    put_text(alloc, network, flow, &nodes, out)
}

// The network's nodes, in order.
fn nodes_of(alloc: Global, network: &Network) -> Result<Vec<Node>, OutOfMemory>
    ensures { IfOk result (λ nodes. nodes.items ≡ network.now.nodes) }
{
    Ok(network.nodes().collect(alloc)?)
}

// Writes the text of the flow, with the network's nodes.
fn put_text<W: Out>(
    alloc: Global,
    network: &Network,
    flow: &Flow,
    nodes: &[Node],
    out: &mut W,
) -> Result<(), Refusal>
    requires rises { Rises node_cmp nodes.now }
    requires built { IsBuilt network.now }
    requires feasible { IsFeasible network.now (units_in flow.now) }
    ensures { IsSent result (W.written out.old) (W.written out.new) (W.has_failed out.old) (W.has_failed out.new)
        (solution_text (record { nodes = nodes.now; arcs = network.now.arcs }) (units_in flow.now)) }
{
    let total = cost(network, flow);
    let mut line = String::new(alloc);
    put_cost(total, &mut line, out)?;
    put_flow(alloc, network, flow, nodes, &mut line, out)
}

// Writes what the flow costs.
fn put_cost<W: Out>(total: u128, line: &mut String, out: &mut W) -> Result<(), Refusal>
    ensures { IsSent result (W.written out.old) (W.written out.new) (W.has_failed out.old) (W.has_failed out.new)
        (cost_line total) }
{
    line.clear();
    write!(line, "s {total}\n")?;
    put_all(out, line.as_bytes())
}

// Writes the units of each arc.
fn put_flow<W: Out>(
    alloc: Global,
    network: &Network,
    flow: &Flow,
    nodes: &[Node],
    line: &mut String,
    out: &mut W,
) -> Result<(), Refusal>
    requires { Rises node_cmp nodes.now }
    ensures { IsSent result (W.written out.old) (W.written out.new) (W.has_failed out.old) (W.has_failed out.new)
        (flat_map (flow_line nodes.now (units_in flow.now)) network.now.arcs) }
{
    let mut near = Near {
        place: 0,
        found: FoundIds::none(alloc, nodes.len())?,
    };
    for arc in network.arc_entries() {
        put_units(flow, nodes, arc, &mut near, line, out)?;
    }
    Ok(())
}

// Where an arc's units and the IDs of its ends are most often found: its place among the arcs, and what was found before.
#[derive(Drop)]
struct Near {
    place: usize,
    found: FoundIds,
}

// Writes the units of an arc, if it has any. Whatever is near, it writes the same.
fn put_units<W: Out>(
    flow: &Flow,
    nodes: &[Node],
    arc: &((Node, Node), (u64, u32)),
    near: &mut Near,
    line: &mut String,
    out: &mut W,
) -> Result<(), Refusal>
    requires { Rises node_cmp nodes.now }
    ensures { IsSent result (W.written out.old) (W.written out.new) (W.has_failed out.old) (W.has_failed out.new)
        (flow_line nodes.now (units_in flow.now) arc.now) }
{
    let (ends, _) = arc;
    let units = flow.units_at(near.place, ends).unwrap_or(0);
    near.place = near.place.saturating_add(1);
    line.clear();
    write_units(nodes, ends, units, &mut near.found, line)?;
    put_all(out, line.as_bytes())
}

// Appends the units between two nodes, if there are any.
fn write_units(
    nodes: &[Node],
    ends: &(Node, Node),
    units: u64,
    found: &mut FoundIds,
    line: &mut String,
) -> Result<(), Refusal>
    requires { Rises node_cmp nodes.now }
    ensures ok { OnOk result (string_bytes line.new
        ≡ string_bytes line.old ++ units_line nodes.now ends.now.0 ends.now.1 units) }
    ensures err { IsOkUnless result Refusal.OutOfMemory }
{
    if units == 0 {
        return Ok(());
    }
    let ids = found.ends(nodes, ends);
    push_number(line, "f ", ids.source as u64)?;
    push_number(line, " ", ids.target as u64)?;
    push_number(line, " ", units)?;
    line.push_str("\n")?;
    Ok(())
}
