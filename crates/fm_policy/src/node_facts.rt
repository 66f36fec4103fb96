//! What is known of single nodes, and the nodes and arcs that the network has by that alone.
//!
//! These are the rules of the policy for whoever can tell such facts from records of a cluster, as an Editor does from what
//! it remembers. Each arc follows from the facts of its two ends, in O(1). `build` has most of these facts in other form,
//! in a tally.

ghost use Rattle.std.specs.Prelude.{◌≡◌};
ghost use Rattle.fm_policy.specs.NodeFacts.{node_of, is_there, fit_on, waiting_arc, request_machine_arc, preference_arc, machine_arc, job_arc, slots_arc, live_arc, arc_between};

use crate::arc_prices::{job_price, preferred_cost};
use crate::room::Room;
use fm_net::node::Node;
use fm_records::ids::{JobId, MachineId, TaskId};
use fm_records::records::{JobReg, MachineReg, SpecReg};

/// What is known of a node, as far as the policy asks.
#[derive(Debug, Clone, Copy, Drop)]
pub enum NodeFacts {
    /// Of the sink nothing is asked.
    OfSink,
    /// Of the unscheduled aggregator of a job.
    OfJob(JobFacts),
    /// Of a request aggregator.
    OfRequest(RequestFacts),
    /// Of a machine.
    OfMachine(MachineFacts),
    /// Of a task.
    OfTask(TaskFacts),
}

/// A job: its register, if it is known, and how many live tasks it has.
#[derive(Debug, Clone, Copy, Drop)]
pub struct JobFacts {
    pub job: JobId,
    pub register: Option<JobReg>,
    pub live: u64,
}

/// A request, and whether a live task that no machine holds waits for it.
#[derive(Debug, Clone, Copy, Drop)]
pub struct RequestFacts {
    pub request: u32,
    pub waits: bool,
}

/// A machine: its state, if it is open, and its load.
#[derive(Debug, Clone, Copy, Drop)]
pub struct MachineFacts {
    pub machine: MachineId,
    pub state: Option<MachineReg>,
    pub load: u128,
}

/// A task: its spec, if it is live, and the machine that holds it, if one does.
#[derive(Debug, Clone, Copy, Drop)]
pub struct TaskFacts {
    pub task: TaskId,
    pub spec: Option<SpecReg>,
    pub holder: Option<MachineId>,
}

impl NodeFacts {
    /// The node.
    pub fn node(&self) -> Node
        ensures { result ≡ node_of self.now }
    {
        match self {
            NodeFacts::OfSink => Node::Sink,
            NodeFacts::OfJob(job) => Node::Unscheduled(job.job),
            NodeFacts::OfRequest(request) => Node::Request(request.request),
            NodeFacts::OfMachine(machine) => Node::Machine(machine.machine),
            NodeFacts::OfTask(task) => Node::Task(task.task),
        }
    }

    /// Whether the network has the node: the sink, a job with live tasks, a request for which a task waits, an open machine
    /// or a live task.
    pub fn is_there(&self) -> bool
        ensures { result ≡ is_there self.now }
    {
        match self {
            NodeFacts::OfSink => true,
            NodeFacts::OfJob(job) => job.live > 0,
            NodeFacts::OfRequest(request) => request.waits,
            NodeFacts::OfMachine(machine) => machine.state.is_some(),
            NodeFacts::OfTask(task) => task.spec.is_some(),
        }
    }

    /// The capacity and cost of the arc from this node to the other, if the network has one. O(1).
    pub fn arc_to(&self, to: &NodeFacts) -> Option<(u64, u32)>
        ensures { result ≡ arc_between self.now to.now }
    {
        match (self, to) {
            (NodeFacts::OfTask(task), NodeFacts::OfRequest(request)) => task.waiting_arc(request),
            (NodeFacts::OfRequest(request), NodeFacts::OfMachine(machine)) => request.place_arc(
                machine,
            ),
            (NodeFacts::OfTask(task), NodeFacts::OfMachine(machine)) => task.machine_arc(machine),
            (NodeFacts::OfTask(task), NodeFacts::OfJob(job)) => task.job_arc(job),
            (NodeFacts::OfMachine(machine), NodeFacts::OfSink) => machine.slots_arc(),
            (NodeFacts::OfJob(job), NodeFacts::OfSink) => job.live_arc(),
            _ => None,
        }
    }
}

impl JobFacts {
    // The arc of a job with live tasks, to the sink.
    fn live_arc(&self) -> Option<(u64, u32)>
        ensures { result ≡ live_arc self.now }
    {
        if self.live > 0 {
            Some((self.live, 0))
        } else {
            None
        }
    }
}

impl RequestFacts {
    // The arc of a request for which a task waits, to a machine that has room for it.
    fn place_arc(&self, machine: &MachineFacts) -> Option<(u64, u32)>
        ensures { result ≡ request_machine_arc self.now machine.now }
    {
        if !self.waits {
            return None;
        }
        machine.fit(self.request)
    }
}

impl MachineFacts {
    // How many tasks of the request fit, and what each costs.
    fn fit(&self, request: u32) -> Option<(u64, u32)>
        ensures { result ≡ fit_on self.now request }
    {
        let state = self.state.as_ref()?;
        Room::new(state, self.load)?.fit(request)
    }

    // The arc of an open machine, to the sink.
    fn slots_arc(&self) -> Option<(u64, u32)>
        ensures { result ≡ slots_arc self.now }
    {
        let state = self.state.as_ref()?;
        Some((u64::from(state.slots), 0))
    }
}

impl TaskFacts {
    // The arc of a live task that no machine holds, to its request.
    fn waiting_arc(&self, request: &RequestFacts) -> Option<(u64, u32)>
        ensures { result ≡ waiting_arc self.now request.now }
    {
        match &self.spec {
            Some(spec) if spec.request == request.request && self.holder.is_none() => Some((1, 0)),
            _ => None,
        }
    }

    // The arc of a task that is held, to the machine that holds it, and of one that is not, to a machine that it prefers.
    fn machine_arc(&self, machine: &MachineFacts) -> Option<(u64, u32)>
        ensures { result ≡ machine_arc self.now machine.now }
    {
        match self.holder {
            Some(holder) if holder == machine.machine => Some((1, 0)),
            Some(_) => None,
            None => self.preferred_arc(machine),
        }
    }

    // A live task, to the machine, if it prefers that and it has room.
    fn preferred_arc(&self, machine: &MachineFacts) -> Option<(u64, u32)>
        ensures { result ≡ preference_arc self.now machine.now }
    {
        let spec = self.spec.as_ref()?;
        let credit = spec.prefer.credit(machine.machine)?;
        let (_, cost) = machine.fit(spec.request)?;
        Some((1, preferred_cost(cost, credit)))
    }

    // The arc of a live task, to its job.
    fn job_arc(&self, job: &JobFacts) -> Option<(u64, u32)>
        ensures { result ≡ job_arc self.now job.now }
    {
        let spec = self.spec.as_ref()?;
        if spec.job != job.job {
            return None;
        }
        let register = job.register.as_ref()?;
        Some((1, job_price(register, self.holder)))
    }
}
