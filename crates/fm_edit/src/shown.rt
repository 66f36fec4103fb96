//! What the remembered records tell of single nodes, and the arcs between them, by the rules of the policy.

ghost use Rattle.std.specs.Prelude.{◌≡◌, IfSome};
ghost use Rattle.fm_net.specs.declared.node.Node.{Node as NodeName};
ghost use Rattle.fm_edit.specs.inner.EditorFacts.{facts_by, node_by, arc_by, IsKnownBy, AreKnownBy};

use crate::editor_state::EditorState;
use fm_net::node::Node;
use fm_policy::arc_prices::machine_load;
use fm_policy::node_facts::{JobFacts, MachineFacts, NodeFacts, RequestFacts, TaskFacts};
use fm_records::ids::{JobId, MachineId, TaskId};

/// What was last found of the two ends of a pair.
#[derive(Clone, Copy, Drop)]
pub(crate) struct Ends {
    pub(crate) from: Option<NodeFacts>,
    pub(crate) to: Option<NodeFacts>,
}

impl EditorState {
    /// What is known of the node. O(log n), as each call here.
    fn facts(&self, node: &Node) -> NodeFacts
        ensures { result ≡ facts_by self.now node.now }
    {
        match node {
            Node::Sink => NodeFacts::OfSink,
            Node::Unscheduled(job) => self.job(*job),
            Node::Request(request) => self.request(*request),
            Node::Machine(machine) => self.machine(*machine),
            Node::Task(task) => self.task(*task),
        }
    }

    /// Whether the network has the node.
    pub(crate) fn stands(&self, node: &Node) -> bool
        ensures { result ≡ node_by self.now node.now }
    {
        self.facts(node).is_there()
    }

    /// The capacity and cost of the arc of the pair, if there is one. An end that was the last to be found is not looked
    /// up again.
    pub(crate) fn arc_after(&self, last: &mut Ends, pair: &(Node, Node)) -> Option<(u64, u32)>
        requires { AreKnownBy self.now last.old }
        ensures arc { result ≡ arc_by self.now pair.now.0 pair.now.1 }
        ensures last { AreKnownBy self.now last.new }
    {
        let from = self.facts_after(last.from, &pair.0);
        let to = self.facts_after(last.to, &pair.1);
        *last = Ends {
            from: Some(from),
            to: Some(to),
        };
        from.arc_to(&to)
    }

    // What is known of the node, and was found, if it was the last.
    fn facts_after(&self, last: Option<NodeFacts>, node: &Node) -> NodeFacts
        requires { IfSome last (IsKnownBy self.now) }
        ensures { result ≡ facts_by self.now node.now }
    {
        match last {
            Some(facts) if facts.node() == *node => facts,
            _ => self.facts(node),
        }
    }

    // The job. The count fits: tasks in memory are fewer than 2^64.
    fn job(&self, job: JobId) -> NodeFacts
        ensures { result ≡ facts_by self.now (NodeName.Unscheduled job) }
    {
        let live = self.index.sum(&Node::Unscheduled(job));
        NodeFacts::OfJob(JobFacts {
            job,
            register: self.seen.jobs.get(&job).copied(),
            live: live.min(u128::from(u64::MAX)) as u64,
        })
    }

    fn request(&self, request: u32) -> NodeFacts
        ensures { result ≡ facts_by self.now (NodeName.Request request) }
    {
        let waiting = self.index.sum(&Node::Request(request));
        NodeFacts::OfRequest(RequestFacts {
            request,
            waits: waiting != 0,
        })
    }

    fn machine(&self, machine: MachineId) -> NodeFacts
        ensures { result ≡ facts_by self.now (NodeName.Machine machine) }
    {
        let held = self.index.sum(&Node::Machine(machine));
        NodeFacts::OfMachine(MachineFacts {
            machine,
            state: self.seen.open_state(machine),
            load: machine_load(self.seen.used(machine), held),
        })
    }

    fn task(&self, task: TaskId) -> NodeFacts
        ensures { result ≡ facts_by self.now (NodeName.Task task) }
    {
        let found = self.seen.task(task);
        NodeFacts::OfTask(TaskFacts {
            task,
            spec: found.live,
            holder: found.holder,
        })
    }
}
