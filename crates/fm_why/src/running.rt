//! Whether a flow runs a task on a machine.

ghost use Rattle.std.specs.Prelude.{◌↔◌, ◌<◌, IsTrue};
ghost use Rattle.fm_certificate.specs.Flows.{units_in};
ghost use Rattle.fm_why.specs.Running.{Sends, RunsOn};

use fm_certificate::flow::Flow;
use fm_net::network::Network;
use fm_net::node::Node;
use fm_records::ids::{MachineId, TaskId};

/// A task, its request, and a machine on which it is to run.
#[derive(Debug, Clone, Copy, Drop)]
pub(crate) struct Target {
    pub(crate) task: TaskId,
    pub(crate) request: u32,
    pub(crate) machine: MachineId,
}

/// Whether the flow runs the task on the machine, over an arc of its own or over its request.
pub(crate) fn runs_on(network: &Network, flow: &Flow, aim: &Target) -> bool
    ensures { IsTrue result → RunsOn network.now (units_in flow.now) aim.now.task aim.now.machine }
{
    let task = Node::Task(aim.task);
    let via = Node::Request(aim.request);
    let machine = Node::Machine(aim.machine);
    if sends_over(network, flow, &task, &machine) {
        return true;
    }
    sends_over(network, flow, &task, &via) && sends_over(network, flow, &via, &machine)
}

/// Whether the flow has units on the arc. O(log n).
pub(crate) fn has_units(flow: &Flow, from: &Node, to: &Node) -> bool
    ensures { IsTrue result ↔ (0 < units_in flow.now from.now to.now) }
{
    flow.units(*from, *to).unwrap_or(0) != 0
}

// Whether the network has the arc, and the flow sends units over it.
fn sends_over(network: &Network, flow: &Flow, from: &Node, to: &Node) -> bool
    ensures { IsTrue result → Sends network.now (units_in flow.now) from.now to.now }
{
    network.arc(*from, *to).is_some() && has_units(flow, from, to)
}
