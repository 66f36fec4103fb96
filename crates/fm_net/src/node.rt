//! The names of nodes, and their order, by which all networks, flows and texts are in one order.
//!
//! Nodes of a kind come one after another, the sink first and the tasks last. The kinds are those of Firmament's
//! network-aware policy (Gog et al., 2016), with the unscheduled aggregators of Quincy (Isard et al., 2009).

ghost use Rattle.std.specs.Prelude.{◌≡◌};
ghost use Rattle.fm_net.specs.Nodes.{by_kind_and_number, node_cmp, IsRequestInRange, IsInRange};

use fm_lattice::chain::Chain;
use fm_records::ids::{JobId, MachineId, TaskId};
use std::cmp::Ordering;

/// The name of a node, in node order: by kind as listed, then by id or request.
#[derive(Debug, Clone, Copy, PartialEq, Eq, PartialOrd, Ord, Drop)]
pub enum Node {
    /// The sink of all units.
    Sink,
    /// The unscheduled aggregator of a job.
    Unscheduled(JobId),
    /// The aggregator of the tasks that request this much bandwidth, 0 to 1,000,000.
    Request(u32),
    /// A machine.
    Machine(MachineId),
    /// A task, the source of one unit.
    Task(TaskId),
}

impl Chain for Node {
    ghost use Rattle.fm_net.specs.laws.NodeOrder.{node_exact};

    ghost same = { node_exact };
}

/// The order of two nodes: by kind as listed, then by id or request.
pub fn order(a: &Node, b: &Node) -> Ordering
    ensures derived { result ≡ node_cmp a.now b.now }
    ensures is { result ≡ by_kind_and_number a.now b.now }
{
    a.cmp(b)
}

impl Node {
    /// What is known of a node whose request is in range: its id has 128 bits.
    pub(crate) fn known(&self)
        requires { IsRequestInRange self.now }
        ensures { IsInRange self.now }
    {
        match self {
            Node::Unscheduled(job) => {
                let _id = job.value();
            }
            Node::Machine(machine) => {
                let _id = machine.value();
            }
            Node::Task(task) => {
                let _id = task.value();
            }
            Node::Sink | Node::Request(_) => {}
        }
    }
}
