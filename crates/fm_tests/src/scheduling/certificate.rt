//! A task that fits on one machine: the flow over the machine is certified, the flow past it is not.

use crate::scheduling::networks::network_of;
use fm_certificate::check::check;
use fm_certificate::flow::Flow;
use fm_certificate::potentials::Potentials;
use fm_lattice::join::OutOfMemory;
use fm_net::network::Network;
use fm_net::node::Node;
use fm_records::ids::{JobId, MachineId, TaskId};
use std::alloc::Global;

fn job() -> Node {
    Node::Unscheduled(JobId::new(1))
}

fn request() -> Node {
    Node::Request(100)
}

fn machine() -> Node {
    Node::Machine(MachineId::new(10))
}

fn task() -> Node {
    Node::Task(TaskId::new(17))
}

// The functions below hold few values if they may be refused: a proof considers what is dropped at each refusal.

// One task of request 100, a machine with two slots, and a wait of 500.
fn one_task(alloc: Global) -> Result<Network, OutOfMemory> {
    let arcs = [
        (job(), Node::Sink, 1, 0),
        (request(), machine(), 2, 100),
        (machine(), Node::Sink, 2, 0),
        (task(), job(), 1, 500),
        (task(), request(), 1, 0),
    ];
    network_of(alloc, &arcs)
}

// The task's unit goes over the machine, or past it.
fn one_unit(alloc: Global, over: u64, past: u64) -> Result<Flow, OutOfMemory> {
    let mut flow = Flow::new(alloc);
    for (from, to, units) in [
        (job(), Node::Sink, past),
        (request(), machine(), over),
        (machine(), Node::Sink, over),
        (task(), job(), past),
        (task(), request(), over),
    ] {
        flow.put(from, to, units)?;
    }
    Ok(flow)
}

// The same potential at the request and the task, and 0 at the others.
fn potentials(alloc: Global, at_task: i128) -> Result<Potentials, OutOfMemory> {
    let mut potentials = Potentials::new(alloc);
    for (node, at) in [
        (Node::Sink, 0),
        (job(), 0),
        (request(), at_task),
        (machine(), 0),
        (task(), at_task),
    ] {
        potentials.put(node, at)?;
    }
    Ok(potentials)
}

fn passes(
    alloc: Global,
    network: &Network,
    flow: &Flow,
    at_task: i128,
) -> Result<bool, OutOfMemory> {
    let potentials = potentials(alloc, at_task)?;
    Ok(check(network, flow, &potentials))
}

// Whether the flow over the machine or past it passes with these potentials.
fn is_certified(alloc: Global, over: u64, past: u64, at_task: i128) -> Result<bool, OutOfMemory> {
    let network = one_task(alloc)?;
    let flow = one_unit(alloc, over, past)?;
    passes(alloc, &network, &flow, at_task)
}

#[test]
fn the_placing_flow_is_certified(rt: HostRuntime) {
    assert_eq!(rt; is_certified(rt.alloc(), 1, 0, -100), Ok(true));
    assert_eq!(rt; is_certified(rt.alloc(), 1, 0, 0), Ok(false));
}

#[test]
fn the_waiting_flow_is_not_certified(rt: HostRuntime) {
    assert_eq!(rt; is_certified(rt.alloc(), 0, 1, 0), Ok(false));
    assert_eq!(rt; is_certified(rt.alloc(), 0, 1, -100), Ok(false));
}
