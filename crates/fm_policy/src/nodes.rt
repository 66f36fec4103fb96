//! The nodes of what is known, put in their order, each after the one before, so that a put moves no other node.

ghost use Rattle.std.specs.Prelude.{◌≡◌, ℕ, OnOk};
ghost use Rattle.fm_net.specs.declared.node.Node.{Node as NodeName};
ghost use Rattle.fm_net.specs.Network.{live_tasks};
ghost use Rattle.fm_policy.specs.inner.NetworkSoFar.{Adds, HasNode, HasNodes};
ghost use Rattle.fm_policy.specs.inner.Inputs.{AreInputs};

use crate::inputs::NetworkInputs;
use fm_know::knowledge::Knowledge;
use fm_know::laws::law_can_be;
use fm_lattice::join::OutOfMemory;
use fm_net::network::Network;
use fm_net::node::Node;
use fm_records::ids::JobId;

/// Puts all nodes: the jobs of live tasks, the requests that wait, the open machines, and the live tasks.
pub(crate) fn put_nodes(
    network: &mut Network,
    knowledge: &Knowledge,
    inputs: &NetworkInputs,
) -> Result<(), OutOfMemory>
    requires inputs { AreInputs knowledge.now inputs.now }
    ensures adds { OnOk result (Adds knowledge.now network.old network.new) }
    ensures all { OnOk result (HasNodes knowledge.now network.new) }
{
    network.known();
    put_jobs(network, knowledge, inputs)?;
    put_requests(network, knowledge, inputs)?;
    put_machines(network, knowledge, inputs)?;
    put_tasks(network, knowledge, inputs)?;
    Ok(())
}

// Puts the jobs with live tasks.
fn put_jobs(
    network: &mut Network,
    knowledge: &Knowledge,
    inputs: &NetworkInputs,
) -> Result<(), OutOfMemory>
    requires inputs { AreInputs knowledge.now inputs.now }
    ensures adds { OnOk result (Adds knowledge.now network.old network.new) }
    ensures all { OnOk result ((j : ℕ) → HasNode knowledge.now (NodeName.Unscheduled j) network.new) }
{
    let jobs = inputs.jobs.pairs();
    for entry in jobs {
        put_job(network, knowledge, entry.0, entry.1)?;
    }
    Ok(())
}

// Puts the job, which has so many live tasks, if it has any.
fn put_job(
    network: &mut Network,
    knowledge: &Knowledge,
    job: JobId,
    live: u64,
) -> Result<(), OutOfMemory>
    requires live { live ≡ live_tasks knowledge.now job }
    ensures adds { OnOk result (Adds knowledge.now network.old network.new) }
    ensures has { OnOk result (HasNode knowledge.now (NodeName.Unscheduled job) network.new) }
{
    if live > 0 {
        network.put_node(Node::Unscheduled(job))?;
    }
    Ok(())
}

// Puts the requests that wait.
fn put_requests(
    network: &mut Network,
    knowledge: &Knowledge,
    inputs: &NetworkInputs,
) -> Result<(), OutOfMemory>
    requires inputs { AreInputs knowledge.now inputs.now }
    ensures adds { OnOk result (Adds knowledge.now network.old network.new) }
    ensures all { OnOk result ((r : ℕ) → HasNode knowledge.now (NodeName.Request r) network.new) }
{
    law_can_be(knowledge);
    for request in &inputs.requests {
        network.put_node(Node::Request(*request))?;
    }
    Ok(())
}

// Puts the open machines.
fn put_machines(
    network: &mut Network,
    knowledge: &Knowledge,
    inputs: &NetworkInputs,
) -> Result<(), OutOfMemory>
    requires inputs { AreInputs knowledge.now inputs.now }
    ensures adds { OnOk result (Adds knowledge.now network.old network.new) }
    ensures all { OnOk result ((m : ℕ) → HasNode knowledge.now (NodeName.Machine m) network.new) }
{
    let machines = inputs.tally.machines.pairs();
    for entry in machines {
        network.put_node(Node::Machine(entry.0))?;
    }
    Ok(())
}

// Puts the live tasks.
fn put_tasks(
    network: &mut Network,
    knowledge: &Knowledge,
    inputs: &NetworkInputs,
) -> Result<(), OutOfMemory>
    requires inputs { AreInputs knowledge.now inputs.now }
    ensures adds { OnOk result (Adds knowledge.now network.old network.new) }
    ensures all { OnOk result ((t : ℕ) → HasNode knowledge.now (NodeName.Task t) network.new) }
{
    let tasks = inputs.tally.tasks.pairs();
    for entry in tasks {
        network.put_node(Node::Task(entry.0))?;
    }
    Ok(())
}
