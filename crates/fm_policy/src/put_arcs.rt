//! The arcs of what is known, put in their order, each after the one before, so that a put moves no other arc.

ghost use Rattle.std.specs.Prelude.{◌≡◌, ◌-◌, ℕ, OnOk, IsTrue, Some, None, option_map};
ghost use Rattle.std.specs.Ordering.{nat_cmp};
ghost use Rattle.fm_lattice.specs.Maps.{lookup};
ghost use Rattle.fm_records.specs.Facts.{live_spec, holder_of, and_then};
ghost use Rattle.fm_net.specs.declared.node.Node.{Node as NodeName};
ghost use Rattle.fm_net.specs.Network.{is_node, live_tasks, room_arc, arc_of};
ghost use Rattle.fm_tally.specs.Tallies.{task_at, open_machine_at};
ghost use Rattle.fm_policy.specs.inner.NetworkSoFar.{Adds, HasNodes, HasWaiting, HasHolder, Covers, CoversJob, CoversMachine, CoversTask, CoversPreferred, CoversPlace};
ghost use Rattle.fm_policy.specs.inner.Inputs.{AreInputs, asked_of};

use crate::arc_prices::preferred_cost;
use crate::inputs::{NetworkInputs, room_arc};
use crate::laws::law_arcs;
use fm_know::knowledge::Knowledge;
use fm_lattice::join::OutOfMemory;
use fm_net::network::Network;
use fm_net::node::Node;
use fm_records::ids::{JobId, MachineId, TaskId};
use fm_records::prefer::Prefer;
use fm_tally::tally::{LiveTask, OpenMachine};

/// Puts the arcs of the jobs, to the sink.
pub(crate) fn put_jobs(
    network: &mut Network,
    knowledge: &Knowledge,
    inputs: &NetworkInputs,
) -> Result<(), OutOfMemory>
    requires inputs { AreInputs knowledge.now inputs.now }
    requires nodes { HasNodes knowledge.now network.old }
    ensures adds { OnOk result (Adds knowledge.now network.old network.new) }
    ensures covers { OnOk result ((j : ℕ) → CoversJob knowledge.now j network.new) }
{
    let jobs = inputs.jobs.pairs();
    for entry in jobs {
        put_job(network, knowledge, entry.0, entry.1)?;
    }
    Ok(())
}

// Puts the arc of the job, which has so many live tasks, to the sink, if it has any.
fn put_job(
    network: &mut Network,
    knowledge: &Knowledge,
    job: JobId,
    live: u64,
) -> Result<(), OutOfMemory>
    requires live { live ≡ live_tasks knowledge.now job }
    requires nodes { HasNodes knowledge.now network.old }
    ensures adds { OnOk result (Adds knowledge.now network.old network.new) }
    ensures covers { OnOk result (CoversJob knowledge.now job network.new) }
{
    if live > 0 {
        let from = Node::Unscheduled(job);
        put(network, knowledge, from, Node::Sink, Some((live, 0)))?;
    }
    Ok(())
}

/// Puts the arcs of the requests, to the machines with room for them.
pub(crate) fn put_requests(
    network: &mut Network,
    knowledge: &Knowledge,
    inputs: &NetworkInputs,
) -> Result<(), OutOfMemory>
    requires inputs { AreInputs knowledge.now inputs.now }
    requires nodes { HasNodes knowledge.now network.old }
    ensures adds { OnOk result (Adds knowledge.now network.old network.new) }
    ensures covers { OnOk result ((r : ℕ) → IsTrue (is_node knowledge.now (NodeName.Request r)) → (m : ℕ)
        → CoversPlace knowledge.now r m network.new) }
{
    for request in &inputs.requests {
        put_request(network, knowledge, inputs, *request)?;
    }
    Ok(())
}

// Puts the arcs of a request that waits.
fn put_request(
    network: &mut Network,
    knowledge: &Knowledge,
    inputs: &NetworkInputs,
    request: u32,
) -> Result<(), OutOfMemory>
    requires inputs { AreInputs knowledge.now inputs.now }
    requires nodes { HasNodes knowledge.now network.old }
    requires waits { IsTrue (is_node knowledge.now (NodeName.Request request)) }
    ensures adds { OnOk result (Adds knowledge.now network.old network.new) }
    ensures covers { OnOk result ((m : ℕ) → CoversPlace knowledge.now request m network.new) }
{
    let machines = inputs.tally.machines.pairs();
    for entry in machines {
        let arc = room_arc(knowledge, request, entry.0, &entry.1);
        let to = Node::Machine(entry.0);
        put(network, knowledge, Node::Request(request), to, arc)?;
    }
    Ok(())
}

/// Puts the arcs of the open machines, to the sink.
pub(crate) fn put_machines(
    network: &mut Network,
    knowledge: &Knowledge,
    inputs: &NetworkInputs,
) -> Result<(), OutOfMemory>
    requires inputs { AreInputs knowledge.now inputs.now }
    requires nodes { HasNodes knowledge.now network.old }
    ensures adds { OnOk result (Adds knowledge.now network.old network.new) }
    ensures covers { OnOk result ((m : ℕ) → CoversMachine knowledge.now m network.new) }
{
    let machines = inputs.tally.machines.pairs();
    for entry in machines {
        put_machine(network, knowledge, entry.0, &entry.1)?;
    }
    Ok(())
}

// Puts the arc of the open machine to the sink.
fn put_machine(
    network: &mut Network,
    knowledge: &Knowledge,
    machine: MachineId,
    opened: &OpenMachine,
) -> Result<(), OutOfMemory>
    requires opened { open_machine_at knowledge.now machine ≡ Some opened.now }
    requires nodes { HasNodes knowledge.now network.old }
    ensures adds { OnOk result (Adds knowledge.now network.old network.new) }
    ensures covers { OnOk result (CoversMachine knowledge.now machine network.new) }
{
    let arc = Some((u64::from(opened.slots), 0));
    put(network, knowledge, Node::Machine(machine), Node::Sink, arc)?;
    Ok(())
}

/// Puts the arcs of the live tasks.
pub(crate) fn put_tasks(
    network: &mut Network,
    knowledge: &Knowledge,
    inputs: &NetworkInputs,
) -> Result<(), OutOfMemory>
    requires inputs { AreInputs knowledge.now inputs.now }
    requires nodes { HasNodes knowledge.now network.old }
    ensures adds { OnOk result (Adds knowledge.now network.old network.new) }
    ensures covers { OnOk result ((t : ℕ) → CoversTask knowledge.now t network.new) }
{
    let tasks = inputs.tally.tasks.pairs();
    for entry in tasks {
        put_task(network, knowledge, inputs, entry.0, &entry.1)?;
    }
    Ok(())
}

// Puts the arcs of a live task: to its job, and to what it waits for or the machine that holds it.
fn put_task(
    network: &mut Network,
    knowledge: &Knowledge,
    inputs: &NetworkInputs,
    task: TaskId,
    live: &LiveTask,
) -> Result<(), OutOfMemory>
    requires inputs { AreInputs knowledge.now inputs.now }
    requires nodes { HasNodes knowledge.now network.old }
    requires live { task_at knowledge.now task ≡ Some live.now }
    ensures adds { OnOk result (Adds knowledge.now network.old network.new) }
    ensures covers { OnOk result (CoversTask knowledge.now task network.new) }
{
    let arc = Some((1, live.price));
    let to = Node::Unscheduled(live.job);
    put(network, knowledge, Node::Task(task), to, arc)?;
    put_holder(network, knowledge, inputs, task, live)?;
    Ok(())
}

// Puts the arc of a live task to the machine that holds it, or all to which it may wait to go.
fn put_holder(
    network: &mut Network,
    knowledge: &Knowledge,
    inputs: &NetworkInputs,
    task: TaskId,
    live: &LiveTask,
) -> Result<(), OutOfMemory>
    requires inputs { AreInputs knowledge.now inputs.now }
    requires nodes { HasNodes knowledge.now network.old }
    requires live { task_at knowledge.now task ≡ Some live.now }
    ensures adds { OnOk result (Adds knowledge.now network.old network.new) }
    ensures holder { OnOk result (HasHolder knowledge.now task live.now.request live.now.holder network.new) }
{
    match live.holder {
        // whatever is known of the machine
        Some(machine) => {
            let to = Node::Machine(machine);
            put(network, knowledge, Node::Task(task), to, Some((1, 0)))?;
            Ok(())
        }
        None => put_waiting(network, knowledge, inputs, task, live),
    }
}

// Puts the arc of a live task that is not held to the request that it waits for, and those to the machines that it prefers.
fn put_waiting(
    network: &mut Network,
    knowledge: &Knowledge,
    inputs: &NetworkInputs,
    task: TaskId,
    live: &LiveTask,
) -> Result<(), OutOfMemory>
    requires inputs { AreInputs knowledge.now inputs.now }
    requires nodes { HasNodes knowledge.now network.old }
    requires live { task_at knowledge.now task ≡ Some live.now }
    requires waits { live.now.holder ≡ None }
    ensures adds { OnOk result (Adds knowledge.now network.old network.new) }
    ensures waiting { OnOk result (HasWaiting knowledge.now task live.now.request network.new) }
{
    let to = Node::Request(live.request);
    put(network, knowledge, Node::Task(task), to, Some((1, 0)))?;
    let prefer = preferences(knowledge, task, live);
    put_preferences(network, knowledge, inputs, task, live.request, &prefer)?;
    Ok(())
}

// What a live task prefers, looked up if it prefers anything. O(log n).
fn preferences(knowledge: &Knowledge, task: TaskId, live: &LiveTask) -> Prefer
    requires { task_at knowledge.now task ≡ Some live.now }
    ensures { option_map asked_of (live_spec knowledge.now task) ≡ Some (live.now.request, result) }
{
    if !live.prefers {
        return Prefer::default();
    }
    match knowledge.spec(task) {
        Some(spec) => spec.prefer,
        None => Prefer::default(),
    }
}

// Puts the arcs of a live task that is not held to the machines that it prefers and that have room.
fn put_preferences(
    network: &mut Network,
    knowledge: &Knowledge,
    inputs: &NetworkInputs,
    task: TaskId,
    request: u32,
    prefer: &Prefer,
) -> Result<(), OutOfMemory>
    requires inputs { AreInputs knowledge.now inputs.now }
    requires nodes { HasNodes knowledge.now network.old }
    requires asked { option_map asked_of (live_spec knowledge.now task) ≡ Some (request, prefer.now) }
    requires waits { holder_of knowledge.now task ≡ None }
    ensures adds { OnOk result (Adds knowledge.now network.old network.new) }
    ensures covers { OnOk result ((m : ℕ) → CoversPreferred knowledge.now task m network.new) }
{
    for entry in prefer.entries() {
        let arc = preferred_arc(knowledge, inputs, request, prefer, entry.0);
        let to = Node::Machine(entry.0);
        put(network, knowledge, Node::Task(task), to, arc)?;
    }
    Ok(())
}

// The arc to the machine, if it is preferred and has room for the request.
fn preferred_arc(
    knowledge: &Knowledge,
    inputs: &NetworkInputs,
    request: u32,
    prefer: &Prefer,
    machine: MachineId,
) -> Option<(u64, u32)>
    requires { AreInputs knowledge.now inputs.now }
    ensures { result ≡ and_then (λ credit. option_map (λ a. (1, a.1 - credit)) (room_arc knowledge.now request machine))
        (lookup nat_cmp machine prefer.now) }
{
    let credit = prefer.credit(machine)?;
    let (_, cost) = inputs.room_arc(knowledge, request, machine)?;
    Some((1, preferred_cost(cost, credit)))
}

// Puts the arc from one node to the other, if there is one.
fn put(
    network: &mut Network,
    knowledge: &Knowledge,
    from: Node,
    to: Node,
    arc: Option<(u64, u32)>,
) -> Result<(), OutOfMemory>
    requires nodes { HasNodes knowledge.now network.old }
    requires arc { arc ≡ arc_of knowledge.now from to }
    ensures adds { OnOk result (Adds knowledge.now network.old network.new) }
    ensures covers { OnOk result (Covers knowledge.now from to network.new) }
{
    let Some((capacity, cost)) = arc else {
        return Ok(());
    };
    law_arcs(knowledge);
    network.put_arc(from, to, capacity, cost)?;
    Ok(())
}
