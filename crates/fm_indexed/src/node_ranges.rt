//! Where the nodes of each kind begin and end in node order: five numbers tell the kind of every node.

ghost use Rattle.std.specs.Prelude.{◌≡◌, ◌-◌};
ghost use Rattle.fm_net.specs.Nodes.{kind};
ghost use Rattle.fm_indexed.specs.NodeRanges.{AreRangesOf, count_below, kind_at};
ghost use Rattle.fm_indexed.specs.inner.KindRanges.{range_end, range_start};

use fm_net::node::Node;

/// A node's kind, and its place among the nodes of that kind.
#[derive(Debug, Clone, Copy, PartialEq, Eq, Drop)]
pub enum NodeKind {
    Sink,
    Unscheduled(usize),
    Request(usize),
    Machine(usize),
    Task(usize),
}

/// Where the nodes of each kind begin in node order, the sink being at 0, and where the last ones end.
#[derive(Debug, Clone, Copy, PartialEq, Eq, Drop)]
pub struct NodeRanges {
    pub jobs: usize,
    pub requests: usize,
    pub machines: usize,
    pub tasks: usize,
    pub end: usize,
}

impl NodeRanges {
    /// The kind of the node at a place.
    pub fn kind(&self, place: usize) -> NodeKind
        ensures { result ≡ kind_at self.now place }
    {
        if place < self.jobs {
            NodeKind::Sink
        } else if place < self.requests {
            NodeKind::Unscheduled(place - self.jobs)
        } else if place < self.machines {
            NodeKind::Request(place - self.requests)
        } else if place < self.tasks {
            NodeKind::Machine(place - self.machines)
        } else {
            NodeKind::Task(place - self.tasks)
        }
    }

    /// How many requests there are.
    pub fn requests_len(&self) -> usize
        ensures { result ≡ self.now.machines - self.now.requests }
    {
        self.machines.saturating_sub(self.requests)
    }

    /// How many machines there are.
    pub fn machines_len(&self) -> usize
        ensures { result ≡ self.now.tasks - self.now.machines }
    {
        self.tasks.saturating_sub(self.machines)
    }
}

// How many kinds come before the node's.
fn rank(node: &Node) -> u8
    ensures { result ≡ kind node.now }
{
    match node {
        Node::Sink => 0,
        Node::Unscheduled(_) => 1,
        Node::Request(_) => 2,
        Node::Machine(_) => 3,
        Node::Task(_) => 4,
    }
}

// How many nodes are of a lower kind than this.
fn below(nodes: &[Node], kind: u8) -> usize
    ensures { result ≡ count_below kind nodes.now }
{
    nodes.iter().filter(|node| rank(node) < kind).count()
}

/// Where each kind begins.
pub(crate) fn places_of(nodes: &[Node]) -> NodeRanges
    ensures { AreRangesOf nodes.now result }
{
    NodeRanges {
        jobs: below(nodes, 1),
        requests: below(nodes, 2),
        machines: below(nodes, 3),
        tasks: below(nodes, 4),
        end: nodes.len(),
    }
}

/// Where nodes of the node's kind begin and end.
pub(crate) fn range_of(places: &NodeRanges, node: &Node) -> (usize, usize)
    ensures first { result.0 ≡ range_start places.now node.now }
    ensures end { result.1 ≡ range_end places.now node.now }
{
    match node {
        Node::Sink => (0, places.jobs),
        Node::Unscheduled(_) => (places.jobs, places.requests),
        Node::Request(_) => (places.requests, places.machines),
        Node::Machine(_) => (places.machines, places.tasks),
        Node::Task(_) => (places.tasks, places.end),
    }
}
