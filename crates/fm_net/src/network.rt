//! Networks: nodes with the sink, and at most one arc from one node to another, with a capacity and a cost.
//!
//! Policy, keepers, solver and texts share this one form. Nodes and arcs are kept in order, so that a network has one
//! text, and the arcs that leave a node come one after another. In every network both ends of each arc are there.

ghost use Rattle.std.specs.Prelude.{◌≡◌, ◌≤◌, ◌<◌, ◌^◌, ◌↔◌, ◌⊎◌, not, length, Some, None, IsTrue, IfOk, OnOk, OnErr, if◌then◌else◌};
ghost use Rattle.fm_records.specs.declared.ops.TheConstants.{MOST_PRICE};
ghost use Rattle.fm_net.specs.declared.node.Node.{Node as NodeName};
ghost use Rattle.fm_net.specs.Nodes.{IsRequestInRange};
ghost use Rattle.fm_net.specs.Net.{CanBeNet, IsArcKind, IsTouched, has_node, arc_at, sink_alone, with_node, without_node, with_arc, without_arc, are_ends};
ghost use Rattle.std.specs.Map.{keys_of};
ghost use Rattle.std.specs.List.{list_any};
ghost use Rattle.fm_net.specs.inner.Ends.{is_end};

use crate::hybrid_map::HybridMap;
use crate::node::Node;
use crate::walks::{ArcEntries, Arcs, Nodes};
use fm_lattice::join::OutOfMemory;
use std::alloc::{AllocError, Global};
use std::marker::Model;

/// A network: a set of nodes with the sink, and at most one arc from one of them to another, with a capacity and a
/// cost. As long as nodes and arcs are put in order, they are packed in an array, and a put is O(1) amortised. The
/// first new one elsewhere moves them into cells, in O(n log n), once; `scatter` does so before many edits.
#[derive(Debug, Drop)]
pub struct Network {
    nodes: HybridMap<Node, ()>,
    arcs: HybridMap<(Node, Node), (u64, u32)>,
}

impl Model for Network {
    ghost use Rattle.fm_net.specs.Net.{Net, CanBeNet};
    ghost use Rattle.std.specs.Map.{keys_of};

    ghost Value = { Net };

    ghost view = { λ a. record { nodes = keys_of a.nodes; arcs = a.arcs } };

    ghost invariant = { λ a. CanBeNet (record { nodes = keys_of a.nodes; arcs = a.arcs }) };
}

impl Network {
    /// The network of the sink alone.
    pub fn new(alloc: Global) -> Result<Self, OutOfMemory>
        ensures { IfOk result (λ net. net ≡ sink_alone) }
    {
        let mut nodes = HybridMap::new(alloc);
        nodes.put(Node::Sink, ())?;
        Ok(Network {
            nodes,
            arcs: HybridMap::new(alloc),
        })
    }

    /// What is known of every network: it has the sink and both ends of each arc, and all is in range.
    pub fn known(&self)
        ensures { CanBeNet self.now }
    {
        let _ = &self.nodes;
    }

    /// Puts a node, and returns whether it is new. The caller must pass a request of at most 1,000,000.
    /// If memory runs out, the network is unchanged. O(log n).
    pub fn put_node(&mut self, node: Node) -> Result<bool, OutOfMemory>
        requires { IsRequestInRange node }
        ensures ok { OnOk result (self.new ≡ with_node node self.old) }
        ensures is_new { IfOk result (λ new. new ≡ not (has_node self.old node)) }
        ensures has { OnOk result ((k : NodeName)
            → IsTrue (has_node self.new k) ↔ ((k ≡ node) ⊎ IsTrue (has_node self.old k))) }
        ensures arc { OnOk result ((a b : NodeName) → arc_at self.new a b ≡ arc_at self.old a b) }
        ensures err { OnErr result (self.new ≡ self.old) }
    {
        node.known();
        let stood = self.nodes.put(node, ())?;
        Ok(stood.is_none())
    }

    /// Drops a node, and returns whether it was there. The caller must ensure that it is not the sink and that no arc
    /// touches it. It allocates nothing. O(log n); while nodes are packed, those after it move, O(nodes).
    pub fn drop_node(&mut self, node: &Node) -> bool
        requires not_sink { ¬ (node.now ≡ NodeName.Sink) }
        requires not_touched { ¬ IsTouched self.old node.now }
        ensures without { self.new ≡ without_node node.now self.old }
        ensures was_there { result ≡ has_node self.old node.now }
        ensures has { (k : NodeName) → IsTrue (has_node self.new k) ↔ (¬ (k ≡ node.now)
            × IsTrue (has_node self.old k)) }
        ensures arc { (a b : NodeName) → arc_at self.new a b ≡ arc_at self.old a b }
    {
        self.nodes.remove(node).is_some()
    }

    /// Puts an arc in place of an existing one, and returns the old one: capacity and cost. The caller must
    /// ensure that both nodes are there, an arc may join their kinds, the capacity is at least 1 and the cost at most
    /// 1,000,000,000. If memory runs out, the network is unchanged. O(log n).
    pub fn put_arc(
        &mut self,
        from: Node,
        to: Node,
        capacity: u64,
        cost: u32,
    ) -> Result<Option<(u64, u32)>, OutOfMemory>
        requires from_stands { IsTrue (has_node self.old from) }
        requires to_stands { IsTrue (has_node self.old to) }
        requires kinds { IsArcKind from to }
        requires capacity_above { 1 ≤ capacity }
        requires cost_within { cost ≤ MOST_PRICE }
        ensures ok { OnOk result (self.new ≡ with_arc from to (capacity, cost) self.old) }
        ensures stood { IfOk result (λ old. old ≡ arc_at self.old from to) }
        ensures has { OnOk result ((k : NodeName) → has_node self.new k ≡ has_node self.old k) }
        ensures arc { OnOk result ((a b : NodeName)
            → arc_at self.new a b ≡ (if are_ends from to a b then Some (capacity, cost) else arc_at self.old a b)) }
        ensures err { OnErr result (self.new ≡ self.old) }
    {
        Ok(self.arcs.put((from, to), (capacity, cost))?)
    }

    /// Drops an arc, and returns its capacity and cost, if it was there. It allocates nothing. O(log n); while arcs are
    /// packed, those after it move, O(arcs).
    pub fn drop_arc(&mut self, from: Node, to: Node) -> Option<(u64, u32)>
        ensures without { self.new ≡ without_arc from to self.old }
        ensures stood { result ≡ arc_at self.old from to }
        ensures has { (k : NodeName) → has_node self.new k ≡ has_node self.old k }
        ensures arc { (a b : NodeName) → arc_at self.new a b
            ≡ (if are_ends from to a b then None else arc_at self.old a b) }
    {
        self.arcs.remove(&(from, to))
    }

    /// Moves packed nodes and arcs into cells, so that each later put and drop is O(log n). The network is unchanged,
    /// also if memory runs out. O(n log n) once.
    pub fn scatter(&mut self) -> Result<(), OutOfMemory>
        ensures { self.new ≡ self.old }
    {
        self.nodes.scatter()?;
        self.arcs.scatter()
    }

    /// The capacity and cost of the arc from one node to another, if it is there. O(log n).
    pub fn arc(&self, from: Node, to: Node) -> Option<(u64, u32)>
        ensures { result ≡ arc_at self.now from to }
    {
        self.arcs.get(&(from, to))
    }

    /// Whether the node is there. O(log n).
    pub fn has(&self, node: &Node) -> bool
        ensures { result ≡ has_node self.now node.now }
    {
        self.nodes.has(node)
    }

    /// Whether an arc leaves or enters the node. O(arcs).
    pub fn touched(&self, node: &Node) -> bool
        ensures { IsTrue result ↔ IsTouched self.now node.now }
    {
        touches(&self.arcs, node)
    }

    /// The nodes, in node order.
    pub fn nodes(&self) -> Nodes<'_>
        ensures all { result ≡ self.now.nodes }
        ensures fits { length self.now.nodes < 2 ^ 63 }
    {
        Nodes::of(&self.nodes)
    }

    /// The arcs as (from, to, capacity, cost), by (from, to).
    pub fn arcs(&self) -> Arcs<'_>
        ensures all { result ≡ self.now.arcs }
        ensures fits { length self.now.arcs < 2 ^ 63 }
    {
        Arcs::of(&self.arcs)
    }

    /// The arcs as they are kept, by (from, to): both ends, with the capacity and the cost. A walk that copies none of them.
    pub fn arc_entries(&self) -> ArcEntries<'_>
        ensures all { result ≡ self.now.arcs }
        ensures fits { length self.now.arcs < 2 ^ 63 }
    {
        ArcEntries::of(&self.arcs)
    }

    /// How many nodes there are.
    pub fn nodes_len(&self) -> usize
        ensures len { result ≡ length self.now.nodes }
        ensures fits { result < 2 ^ 63 }
    {
        self.nodes.len()
    }

    /// How many arcs there are.
    pub fn arcs_len(&self) -> usize
        ensures len { result ≡ length self.now.arcs }
        ensures fits { result < 2 ^ 63 }
    {
        self.arcs.len()
    }

    /// An equal network, in memory of its own. O(arcs).
    pub fn copy(&self) -> Result<Self, OutOfMemory>
        ensures { IfOk result (λ net. net ≡ self.now) }
    {
        let nodes = self.nodes.copy()?;
        let arcs = self.arcs.copy()?;
        Ok(Network { nodes, arcs })
    }
}

impl Clone for Network {
    ghost is_clone = { λ a b. b ≡ a };

    /// An equal network, in memory of its own. O(arcs).
    fn clone(&self) -> Result<Network, AllocError> {
        match self.copy() {
            Ok(network) => Ok(network),
            Err(OutOfMemory) => Err(AllocError),
        }
    }
}

impl PartialEq for Network {
    ghost use Rattle.fm_net.specs.NetworkEquality.{same_net};
    ghost use Rattle.fm_net.specs.laws.NetworkEqualityLaws.{net_equivalence};

    ghost eq = { same_net };

    ghost laws = { net_equivalence };

    /// Whether the nodes and the arcs are the same.
    fn eq(&self, other: &Self) -> bool
        ensures value { result ≡ same_net self.now other.now }
        ensures exact { IsTrue result ↔ (self.now ≡ other.now) }
    {
        self.nodes == other.nodes && self.arcs == other.arcs
    }
}

// Whether an arc leaves or enters the node.
fn touches(arcs: &HybridMap<(Node, Node), (u64, u32)>, node: &Node) -> bool
    ensures { result ≡ list_any (λ arc. is_end node.now arc.0) arcs.now }
{
    let mut rest = arcs.iter();
    while let Some((ends, _)) = rest.next() {
        if ends.0 == *node || ends.1 == *node {
            return true;
        }
    }
    false
}
