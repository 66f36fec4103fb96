//! Small clusters whose least cost is known, solved from flows of all kinds.

ghost use Rattle.fm_certificate.specs.PolicyNetwork.{IsBuilt};

use crate::solving::{anew, cost_from, network_of};
use fm_flow::flow::Flow;
use fm_know::knowledge::Knowledge;
use fm_lattice::join::Join;
use fm_net::network::Network;
use fm_net::node::Node;
use fm_records::ids::{JobId, MachineId, TaskId};
use fm_records::ops::Op;
use fm_records::prefer::Prefer;
use fm_records::refusal::Refusal;
use std::alloc::Global;

fn job(id: u128, wait: u32, preempt: u32) -> Op {
    Op::Job {
        id: JobId::new(id),
        version: 1,
        writer: 1,
        withdrawn: false,
        wait,
        preempt,
    }
}

fn machine(id: u128, nic: u32) -> Op {
    Op::Machine {
        id: MachineId::new(id),
        incarnation: 1,
        version: 1,
        writer: 1,
        up: true,
        slots: 2,
        nic,
    }
}

fn report(id: u128, used: u32) -> Op {
    Op::Report {
        id: MachineId::new(id),
        incarnation: 1,
        number: 1,
        used,
    }
}

fn task(id: u128, job: u128, request: u32) -> Op {
    Op::Spec {
        id: TaskId::new(id),
        version: 1,
        writer: 1,
        withdrawn: false,
        job: JobId::new(job),
        request,
        prefer: Prefer::default(),
    }
}

fn proposal(id: u128, machine: u128) -> Op {
    Op::Propose {
        id: TaskId::new(id),
        attempt: 0,
        coordinator: 1,
        machine: MachineId::new(machine),
        incarnation: 1,
    }
}

// The table of the operations.
fn told(alloc: Global, ops: &[Op]) -> Result<Knowledge, Refusal> {
    let mut known = Knowledge::empty(alloc);
    for op in ops {
        op.check()?;
        let delta = Knowledge::delta_of(alloc, op)?;
        known.join_into(&delta)?;
    }
    Ok(known)
}

fn machine_node(id: u128) -> Node {
    Node::Machine(MachineId::new(id))
}

fn task_node(id: u128) -> Node {
    Node::Task(TaskId::new(id))
}

// A flow of keys that are no arcs, of units above capacities, and of units from nowhere.
fn strange(alloc: Global) -> Result<Flow, Refusal> {
    let units = [
        (task_node(17), machine_node(11), 5),
        (task_node(17), Node::Request(100), 7),
        (task_node(18), Node::Request(100), 3),
        (task_node(19), Node::Request(100), 1),
        (task_node(20), Node::Request(100), 1),
        (task_node(21), Node::Request(300), u64::MAX),
        (task_node(99), machine_node(10), 1),
        (Node::Request(100), machine_node(10), 9),
        (Node::Request(300), machine_node(11), 2),
        (Node::Request(300), machine_node(10), u64::MAX),
        (machine_node(10), Node::Sink, u64::MAX),
        (Node::Sink, task_node(17), 4),
    ];
    let mut flow = Flow::new(alloc);
    for (source, target, sent) in units {
        flow.put(source, target, sent)?;
    }
    Ok(flow)
}

// What solving costs from nothing, and from that flow, from no flow, and from a strange one.
#[derive(Clone, Copy, Drop)]
struct Costs {
    anew: u128,
    own: u128,
    none: u128,
    other: u128,
}

// The functions below hold one value each if they may be refused: a proof considers what is dropped at each refusal.

// What solving costs from nothing, and from that flow.
fn own_cost(alloc: Global, network: &Network) -> Result<(u128, u128), Refusal>
    requires { IsBuilt network.now }
{
    let (flow, cost) = anew(alloc, network)?;
    let own = cost_from(alloc, network, &flow)?;
    Ok((cost, own))
}

fn strange_cost(alloc: Global, network: &Network) -> Result<u128, Refusal>
    requires { IsBuilt network.now }
{
    let flow = strange(alloc)?;
    cost_from(alloc, network, &flow)
}

fn costs_on(alloc: Global, network: &Network) -> Result<Costs, Refusal>
    requires { IsBuilt network.now }
{
    let (anew, own) = own_cost(alloc, network)?;
    let none = cost_from(alloc, network, &Flow::new(alloc))?;
    let other = strange_cost(alloc, network)?;
    Ok(Costs {
        anew,
        own,
        none,
        other,
    })
}

fn costs_of(alloc: Global, ops: &[Op]) -> Result<Costs, Refusal> {
    let known = told(alloc, ops)?;
    let network = network_of(alloc, &known)?;
    costs_on(alloc, &network)
}

fn print_costs(
    rt: &HostRuntime,
    alloc: Global,
    name: &str,
    ops: &[Op],
) -> Result<(), anyhow::Error> {
    let Costs {
        anew,
        own,
        none,
        other,
    } = costs_of(alloc, ops)?;
    println!(rt; "{name} {anew} {own} {none} {other}")?;
    Ok(())
}

/// One task and a machine with room for it; the same if the machine has no bandwidth to spare; and five tasks, of which
/// one has to wait.
pub(crate) fn print(rt: &HostRuntime, alloc: Global) -> Result<(), anyhow::Error> {
    let first = [job(1, 500, 800), machine(10, 1000), task(17, 1, 100)];
    print_costs(rt, alloc, "first", &first)?;
    let crowded = [
        job(1, 500, 800),
        machine(10, 1000),
        task(17, 1, 100),
        report(10, 950),
    ];
    print_costs(rt, alloc, "crowded", &crowded)?;
    let waiting = [
        job(1, 600, 800),
        job(2, 450, 100),
        machine(10, 1000),
        machine(11, 500),
        report(11, 300),
        task(17, 1, 200),
        proposal(17, 10),
        task(18, 1, 100),
        task(19, 1, 100),
        task(20, 2, 100),
        task(21, 1, 300),
    ];
    print_costs(rt, alloc, "waiting", &waiting)
}
