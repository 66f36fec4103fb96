//! The pairs of ends that touched nodes add: arcs that change although no task at them is dirty.
//!
//! If the load of a machine changes, so do its arcs from all requests for which tasks wait, and from all tasks that
//! wait and prefer it. If a request comes or goes as a node, so do its arcs to all machines.

ghost use Rattle.std.specs.Prelude.{◌≡◌, ◌<◌, ◌^◌, ◌++◌, ℕ, true, filter, is_some, reverse, IsTrue, IfOk, OnOk};
ghost use Rattle.std.specs.List.{list_any};
ghost use Rattle.std.specs.Ordering.{nat_cmp};
ghost use Rattle.std.specs.BTreeMap.{get};
ghost use Rattle.fm_net.specs.declared.node.Node.{Node as NodeName};
ghost use Rattle.fm_net.specs.Nodes.{node_cmp};
ghost use Rattle.fm_net.specs.Touched.{is_among};
ghost use Rattle.fm_edit.specs.CacheModel.{seen_in};
ghost use Rattle.fm_edit.specs.TaskIndex.{lists_preferred};
ghost use Rattle.fm_edit.specs.inner.Affected.{has_pair, AffectedGrows};
ghost use Rattle.fm_edit.specs.inner.Completing.{Completes, AddsSink, AddsPlaces, AddsPreferring, AddsMachines, is_request_node, is_machine, waiting_in};

use crate::affected::Touched;
use crate::editor_state::EditorState;
use crate::record_cache::RecordCache;
use crate::task_index::TaskIndex;
use fm_lattice::join::OutOfMemory;
use fm_net::network::Network;
use fm_net::node::Node;
use fm_records::ids::{MachineId, TaskId};
use std::alloc::Global;

/// Touches the pairs of each touched machine and job with the sink, of each touched machine with each request that is
/// touched or waits and with each task that waits and prefers it, and of each touched request that came or went as a
/// node with each machine that is known. O(log n) for each of these pairs.
pub(crate) fn touch_pairs(
    alloc: Global,
    touched: &mut Touched,
    memory: &EditorState,
    network: &Network,
) -> Result<(), OutOfMemory>
    ensures { OnOk result
        (Completes (seen_in memory.now.seen) memory.now.index network.now touched.old touched.new) }
{
    let nodes = nodes_of(alloc, touched)?;
    let requests = requests_for(alloc, &memory.index, nodes.as_slice())?;
    touch_nodes(
        touched,
        nodes.as_slice(),
        requests.as_slice(),
        memory,
        network,
    )?;
    Ok(())
}

// The touched nodes.
fn nodes_of(alloc: Global, touched: &Touched) -> Result<Vec<Node>, OutOfMemory>
    ensures { IfOk result (λ ns. ns.items ≡ touched.now.nodes.keys) }
{
    Ok(touched.nodes.iter().copied().collect(alloc)?)
}

// The requests at which tasks wait, and those among the nodes, if a machine is among these: they are needed for
// machines alone. Greater ones first: inserting before all other elements is the cheapest in an ordered set.
fn requests_for(alloc: Global, index: &TaskIndex, nodes: &[Node]) -> Result<Vec<Node>, OutOfMemory>
    ensures { IfOk result (λ ns. IsTrue (list_any is_machine nodes.now)
        → ns.items ≡ reverse (waiting_in index.now) ++ filter is_request_node nodes.now) }
{
    if !has_machine(nodes) {
        return Ok(Vec::new(alloc));
    }
    let mut requests = all_waiting(alloc, index)?;
    requests.reverse();
    let mut touched = requests_of(alloc, nodes)?;
    requests.append(&mut touched)?;
    Ok(requests)
}

// The requests among the nodes.
fn requests_of(alloc: Global, nodes: &[Node]) -> Result<Vec<Node>, OutOfMemory>
    ensures { IfOk result (λ ns. ns.items ≡ filter is_request_node nodes.now) }
{
    Ok(
        nodes
            .iter()
            .copied()
            .filter(|node| is_request(node))
            .collect(alloc)?,
    )
}

fn is_request(node: &Node) -> bool
    ensures { result ≡ is_request_node node.now }
{
    matches!(node, Node::Request(_))
}

// Whether a machine is among the nodes.
fn has_machine(nodes: &[Node]) -> bool
    ensures { result ≡ list_any is_machine nodes.now }
{
    nodes.iter().any(|node| is_machine(node))
}

fn is_machine(node: &Node) -> bool
    ensures { result ≡ is_machine node.now }
{
    matches!(node, Node::Machine(_))
}

// The requests at which tasks wait. O(log n) for each.
fn all_waiting(alloc: Global, index: &TaskIndex) -> Result<Vec<Node>, OutOfMemory>
    ensures { IfOk result (λ ns. ns.items ≡ waiting_in index.now) }
{
    let first = Node::Request(0);
    let end = Node::Machine(MachineId::new(0));
    Ok(
        index
            .sums
            .range(first..end)
            .map(|entry| *entry.0)
            .collect(alloc)?,
    )
}

// Touches the pairs that the nodes add.
fn touch_nodes(
    touched: &mut Touched,
    nodes: &[Node],
    requests: &[Node],
    memory: &EditorState,
    network: &Network,
) -> Result<(), OutOfMemory>
    ensures grows { OnOk result (AffectedGrows touched.old touched.new) }
    ensures same { OnOk result (touched.new.nodes ≡ touched.old.nodes) }
    ensures sinks { OnOk result ((n : NodeName) → is_among node_cmp nodes.now n ≡ true → AddsSink n touched.new) }
    ensures places { OnOk result ((n : NodeName) → is_among node_cmp nodes.now n ≡ true
        → AddsPlaces requests.now n touched.new) }
    ensures preferring { OnOk result ((n : NodeName) → is_among node_cmp nodes.now n ≡ true
        → AddsPreferring memory.now.index n touched.new) }
    ensures machines { OnOk result ((n : NodeName) → is_among node_cmp nodes.now n ≡ true
        → AddsMachines memory.now network.now n touched.new) }
{
    for node in nodes {
        touch_node(touched, node, requests, memory, network)?;
    }
    Ok(())
}

// Touches the pairs that the node adds.
fn touch_node(
    touched: &mut Touched,
    node: &Node,
    requests: &[Node],
    memory: &EditorState,
    network: &Network,
) -> Result<(), OutOfMemory>
    ensures grows { OnOk result (AffectedGrows touched.old touched.new) }
    ensures same { OnOk result (touched.new.nodes ≡ touched.old.nodes) }
    ensures sink { OnOk result (AddsSink node.now touched.new) }
    ensures places { OnOk result (AddsPlaces requests.now node.now touched.new) }
    ensures preferring { OnOk result (AddsPreferring memory.now.index node.now touched.new) }
    ensures machines { OnOk result (AddsMachines memory.now network.now node.now touched.new) }
{
    match node {
        Node::Unscheduled(_) => touched.pair(node, &Node::Sink),
        Node::Machine(machine) => touch_machine(touched, *machine, requests, &memory.index),
        Node::Request(_) if network.has(node) != memory.stands(node) => touch_machines(
            touched,
            node,
            &memory.seen,
        ),
        Node::Sink | Node::Request(_) | Node::Task(_) => Ok(()),
    }
}

// Touches the pairs of the machine with the sink, the requests, and the tasks that wait and prefer it.
fn touch_machine(
    touched: &mut Touched,
    machine: MachineId,
    requests: &[Node],
    index: &TaskIndex,
) -> Result<(), OutOfMemory>
    ensures grows { OnOk result (AffectedGrows touched.old touched.new) }
    ensures same { OnOk result (touched.new.nodes ≡ touched.old.nodes) }
    ensures sink { OnOk result (AddsSink (NodeName.Machine machine) touched.new) }
    ensures places { OnOk result (AddsPlaces requests.now (NodeName.Machine machine) touched.new) }
    ensures preferring { OnOk result (AddsPreferring index.now (NodeName.Machine machine) touched.new) }
{
    touched.pair(&Node::Machine(machine), &Node::Sink)?;
    touch_places(touched, requests, &Node::Machine(machine))?;
    touch_preferring(touched, machine, index)
}

// Touches the pairs of the requests and the machine.
fn touch_places(touched: &mut Touched, requests: &[Node], machine: &Node) -> Result<(), OutOfMemory>
    ensures grows { OnOk result (AffectedGrows touched.old touched.new) }
    ensures same { OnOk result (touched.new.nodes ≡ touched.old.nodes) }
    ensures has { OnOk result ((r : NodeName) → is_among node_cmp requests.now r ≡ true
        → has_pair touched.new r machine.now ≡ true) }
{
    for request in requests {
        touched.pair(request, machine)?;
    }
    Ok(())
}

// Touches the pairs of the machine and the tasks that wait and prefer it. O(log n) for each.
fn touch_preferring(
    touched: &mut Touched,
    machine: MachineId,
    index: &TaskIndex,
) -> Result<(), OutOfMemory>
    ensures grows { OnOk result (AffectedGrows touched.old touched.new) }
    ensures same { OnOk result (touched.new.nodes ≡ touched.old.nodes) }
    ensures has { OnOk result ((t : ℕ) → t < 2 ^ 128 → lists_preferred index.now machine t ≡ true
        → has_pair touched.new (NodeName.Task t) (NodeName.Machine machine) ≡ true) }
{
    let first = (machine, TaskId::new(0));
    let last = (machine, TaskId::new(u128::MAX));
    for pair in index.preferred.range(first..=last) {
        touched.pair(&Node::Task(pair.1), &Node::Machine(machine))?;
    }
    Ok(())
}

// Touches the pairs of the request and each machine that is known, greater ones first.
fn touch_machines(
    touched: &mut Touched,
    request: &Node,
    seen: &RecordCache,
) -> Result<(), OutOfMemory>
    ensures grows { OnOk result (AffectedGrows touched.old touched.new) }
    ensures same { OnOk result (touched.new.nodes ≡ touched.old.nodes) }
    ensures has { OnOk result ((m : ℕ) → is_some (get nat_cmp seen.now.machines m) ≡ true
        → has_pair touched.new request.now (NodeName.Machine m) ≡ true) }
{
    for (machine, _) in seen.machines.iter().rev() {
        touched.pair(request, &Node::Machine(*machine))?;
    }
    Ok(())
}
