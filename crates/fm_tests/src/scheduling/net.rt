//! Each call once, with ample memory.

ghost use Rattle.std.specs.Prelude.{IsTrue};
ghost use Rattle.fm_net.specs.Nodes.{IsRequestInRange};

use fm_lattice::join::OutOfMemory;
use fm_net::apply::make_all;
use fm_net::edit::Edit;
use fm_net::network::Network;
use fm_net::node::{Node, order};
use fm_records::ids::{JobId, MachineId, TaskId};
use std::alloc::Global;
use std::cmp::Ordering;

// The functions below have no contract except what the next one requires: the tests are of what is answered, and
// proofs of them stay short.

fn machine() -> Node {
    Node::Machine(MachineId::new(10))
}

fn is_in_range(node: &Node) -> bool
    ensures { IsTrue result → IsRequestInRange node.now }
{
    match *node {
        Node::Request(request) => request <= 1_000_000,
        Node::Sink | Node::Unscheduled(_) | Node::Machine(_) | Node::Task(_) => true,
    }
}

// Puts the node, if its request is in range.
fn put(network: &mut Network, node: Node) -> Result<bool, OutOfMemory> {
    if !is_in_range(&node) {
        return Ok(false);
    }
    network.put_node(node)
}

// An arc as it is: capacity and cost.
type Arc = Option<(u64, u32)>;

// Whether this stood when the arc from the machine to the sink is put, if both are there.
fn puts_slots(network: &mut Network, slots: u64, stood: Arc) -> Result<bool, OutOfMemory> {
    let machine = Node::Machine(MachineId::new(10));
    if slots == 0 || !network.has(&machine) || !network.has(&Node::Sink) {
        return Ok(false);
    }
    let found = network.put_arc(machine, Node::Sink, slots, 0)?;
    Ok(found == stood)
}

// Whether this stood when that arc is dropped.
fn drops_slots(network: &mut Network, stood: Arc) -> bool {
    network.drop_arc(machine(), Node::Sink) == stood
}

// Drops the machine, if no arc touches it.
fn drops_machine(network: &mut Network) -> bool {
    let machine = Node::Machine(MachineId::new(10));
    !network.touched(&machine) && network.drop_node(&machine)
}

// What is done to a network, and what is answered.
#[derive(Clone, Copy, Drop)]
enum Made {
    Machine(bool),
    Slots(u64, Arc),
    NoSlots(Arc),
    NoMachine,
}

fn is_made(network: &mut Network, made: Made) -> Result<bool, OutOfMemory> {
    match made {
        Made::Machine(is_new) => Ok(put(network, machine())? == is_new),
        Made::Slots(slots, stood) => puts_slots(network, slots, stood),
        Made::NoSlots(stood) => Ok(drops_slots(network, stood)),
        Made::NoMachine => Ok(drops_machine(network)),
    }
}

// A network to which this was done, if each was answered as is said.
fn after(alloc: Global, steps: &[Made]) -> Result<Option<Network>, OutOfMemory> {
    let mut network = Network::new(alloc)?;
    for made in steps {
        if !is_made(&mut network, *made)? {
            return Ok(None);
        }
    }
    Ok(Some(network))
}

fn has_nodes(alloc: Global, network: &Network, wanted: &[Node]) -> Result<bool, OutOfMemory> {
    let nodes: Vec<Node> = network.nodes().collect(alloc)?;
    Ok(nodes.as_slice() == wanted)
}

// Whether that arc is the only one.
fn has_slots_alone(alloc: Global, network: &Network, slots: u64) -> Result<bool, OutOfMemory> {
    let arcs: Vec<(Node, Node, u64, u32)> = network.arcs().collect(alloc)?;
    Ok(arcs.as_slice() == [(machine(), Node::Sink, slots, 0)].as_slice())
}

fn has_arc(network: &Network, from: Node, to: Node, arc: Arc) -> bool {
    network.arc(from, to) == arc
}

fn is_copied(network: &Network) -> Result<bool, OutOfMemory> {
    let copy = network.copy()?;
    Ok(copy == *network)
}

fn is_sink_alone(alloc: Global, network: &Network) -> Result<bool, OutOfMemory> {
    let sink = Network::new(alloc)?;
    Ok(*network == sink)
}

// Whether the machine with three slots is all that there is beside the sink, and a copy is the same.
fn has_machine_alone(alloc: Global, network: &Network) -> Result<bool, OutOfMemory> {
    Ok(
        has_nodes(alloc, network, &[Node::Sink, machine()])?
            && has_slots_alone(alloc, network, 3)?
            && is_copied(network)?,
    )
}

fn comes(alloc: Global) -> Result<bool, OutOfMemory> {
    let steps = [
        Made::Machine(true),
        Made::Machine(false),
        Made::Slots(2, None),
        Made::Slots(3, Some((2, 0))),
    ];
    match after(alloc, &steps)? {
        Some(network) => has_machine_alone(alloc, &network),
        None => Ok(false),
    }
}

fn goes(alloc: Global) -> Result<bool, OutOfMemory> {
    let steps = [
        Made::Machine(true),
        Made::Slots(3, None),
        Made::NoSlots(Some((3, 0))),
        Made::NoMachine,
    ];
    match after(alloc, &steps)? {
        Some(network) => is_sink_alone(alloc, &network),
        None => Ok(false),
    }
}

#[test]
fn a_machine_comes_and_goes(rt: HostRuntime) {
    assert_eq!(rt; comes(rt.alloc()), Ok(true));
    assert_eq!(rt; goes(rt.alloc()), Ok(true));
}

// Whether the machine is there without arcs.
fn is_bare(network: &Network) -> bool {
    network.has(&machine()) && !network.touched(&machine()) && !network.touched(&Node::Sink)
}

// Whether the machine has two slots, and the sink has no arc to it.
fn is_joined(network: &Network) -> bool {
    has_arc(network, machine(), Node::Sink, Some((2, 0)))
        && has_arc(network, Node::Sink, machine(), None)
        && network.touched(&machine())
        && network.touched(&Node::Sink)
}

// Whether the network has the machine, whether that is bare, and whether it is joined, and how many nodes and arcs
// there are.
type Looks = (bool, bool, bool, (usize, usize));

fn looks(alloc: Global, steps: &[Made]) -> Result<Option<Looks>, OutOfMemory> {
    match after(alloc, steps)? {
        Some(network) => Ok(Some((
            network.has(&machine()),
            is_bare(&network),
            is_joined(&network),
            (network.nodes_len(), network.arcs_len()),
        ))),
        None => Ok(None),
    }
}

#[test]
fn a_machine_is_looked_up(rt: HostRuntime) {
    let none = looks(rt.alloc(), &[]);
    assert_eq!(rt; none, Ok(Some((false, false, false, (1, 0)))));
    let bare = looks(rt.alloc(), &[Made::Machine(true)]);
    assert_eq!(rt; bare, Ok(Some((true, true, false, (2, 0)))));
    let joined = looks(rt.alloc(), &[Made::Machine(true), Made::Slots(2, None)]);
    assert_eq!(rt; joined, Ok(Some((true, false, true, (2, 1)))));
}

// Of each kind a node or two, in order.
fn rising() -> [Node; 7] {
    [
        Node::Sink,
        Node::Unscheduled(JobId::new(9)),
        Node::Request(0),
        Node::Request(1_000_000),
        Node::Machine(MachineId::new(5)),
        Node::Task(TaskId::new(0)),
        Node::Task(TaskId::new(u128::MAX)),
    ]
}

// Whether nodes go in their order, put in the other one.
fn are_in_order(alloc: Global) -> Result<bool, OutOfMemory> {
    let mut network = Network::new(alloc)?;
    for node in rising().iter().rev() {
        put(&mut network, *node)?;
    }
    has_nodes(alloc, &network, &rising())
}

#[test]
fn nodes_go_by_kind_then_number(rt: HostRuntime) {
    assert_eq!(rt; are_in_order(rt.alloc()), Ok(true));
    assert_eq!(rt; order(&Node::Request(7), &Node::Sink), Ordering::Greater);
}

// The machine comes, with its slots, and goes again.
fn comes_and_goes(alloc: Global) -> Result<bool, OutOfMemory> {
    let a = Node::Machine(MachineId::new(10));
    let mut network = Network::new(alloc)?;
    let comes = [Edit::PutNode(a), Edit::PutArc(a, Node::Sink, 2, 0)];
    make_all(&mut network, comes.as_slice())?;
    let came = has_arc(&network, a, Node::Sink, Some((2, 0)));
    let goes = [Edit::DropArc(a, Node::Sink), Edit::DropNode(a)];
    make_all(&mut network, goes.as_slice())?;
    Ok(came && is_sink_alone(alloc, &network)?)
}

#[test]
fn edits_are_made_in_order(rt: HostRuntime) {
    assert_eq!(rt; comes_and_goes(rt.alloc()), Ok(true));
    assert!(rt; Edit::DropNode(machine()) != Edit::PutNode(machine()));
}
